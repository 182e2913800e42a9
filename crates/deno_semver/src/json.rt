//! Values as JSON: texts, versions, packages and parsed ranges or tags as strings; bounds, ranges and version requirements as
//! objects and arrays; lists of package requirements as arrays.

ghost use Rattle.std.specs.Prelude.{IfErr, IfOk, ◌≡◌, ◌↔◌, IsTrue};
ghost use Rattle.serde_json.specs.Data.{Data};
ghost use Rattle.serde_json.specs.View.{view};
ghost use Rattle.deno_semver.specs.JsonAnswers.{IsJsonAnswer, IsJsonRejection};

mod list;
mod object;
mod text;

pub use list::{reqs_from_json, reqs_to_json};
use serde_json::Value;
use std::alloc::{AllocError, Global};
use thiserror::Error;

/// A value with the JSON form that the crate `deno_semver` gives it.
pub trait JsonForm: Drop {
    /// The value's JSON.
    ghost json: { Self → Data };

    /// The JSON, the value's own or other, parses to the value.
    ghost parses_to: { Data → Self → Type 0 };

    /// Returns the value's JSON. Fails only out of memory.
    fn to_json(&self, alloc: Global) -> Result<Value, AllocError>
        ensures { IfOk result (λ value. view value ≡ json self.now) };

    /// Parses the JSON. Fails with [`JsonError::Json`] exactly if the JSON doesn't parse to a value, and with
    /// [`JsonError::Memory`] only out of memory.
    fn from_json(alloc: Global, value: &Value) -> Result<Self, JsonError>
        ensures read { IfOk result (parses_to (view value.now)) }
        ensures rejected { IfErr result (IsJsonRejection parses_to (view value.now)) }
        ensures answer { (x : Self) → parses_to (view value.now) x → IsJsonAnswer x result };
}

/// Why JSON doesn't parse to a value, or that memory ran out.
#[derive(Debug, PartialEq, Eq, Drop, Error)]
pub enum JsonError {
    /// The JSON has the wrong form, lacks a member, or holds a text that doesn't parse.
    #[error("Invalid JSON value")]
    Json,
    /// Out of memory.
    #[error("Out of memory.")]
    Memory,
}

impl JsonError {
    /// Whether the error is out of memory.
    pub fn is_memory(&self) -> bool
        ensures { IsTrue result ↔ (self.now ≡ JsonError.Memory) }
    {
        matches!(self, JsonError::Memory)
    }

    /// Copies the error. Fails only out of memory.
    pub fn copy(&self) -> Result<Self, AllocError>
        ensures { IfOk result (λ error. error ≡ self.now) }
    {
        match self {
            JsonError::Json => Ok(JsonError::Json),
            JsonError::Memory => Ok(JsonError::Memory),
        }
    }

    /// The error for a text that doesn't parse, or for running out of memory.
    pub(crate) fn of_parser(is_memory: bool) -> JsonError
        ensures { IsTrue is_memory ↔ (result ≡ JsonError.Memory) }
    {
        if is_memory {
            JsonError::Memory
        } else {
            JsonError::Json
        }
    }
}

impl From<AllocError> for JsonError {
    ghost use Rattle.deno_semver.specs.declared.json.JsonError.TheVariants.{Memory};

    ghost from_gives = { λ _ error. error ≡ Memory };

    fn from(_error: AllocError) -> JsonError {
        JsonError::Memory
    }
}
