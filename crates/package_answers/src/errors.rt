//! Where the text of a package or a reference is invalid, and why, also as JSON.

ghost use Rattle.std.specs.Prelude.{◌≡◌, IfOk, string_bytes};
ghost use Rattle.serde_json.specs.View.{view};
ghost use Rattle.serde_json.specs.Written.{compact_text};
ghost use Rattle.package_answers.specs.Errors.{missing_json, package_errors_json};

use answers::errors::errors_text as range_errors_text;
use answers::object::{Object, json_text, text_json};
use deno_semver::ParseFailure;
use semver_req::error_places::pieces::InvalidPiece;
use serde_json::Value;
use std::alloc::{AllocError, Global};

/// A part that the text of a package or a reference may lack.
#[derive(Clone, Copy)]
pub enum Part {
    /// The `@` before a scope.
    At,
    /// The `/` behind a scope.
    Slash,
    /// The name, behind its scope if it has one.
    Name,
    /// The scheme of a registry.
    Scheme,
}

/// An error outside the range.
#[derive(Drop)]
pub struct PartError {
    /// The index at which the text is invalid.
    pub place: usize,
    /// The part that is missing there; `None` if what stands there isn't allowed.
    pub missing: Option<Part>,
    /// What the parser reports.
    pub failure: ParseFailure,
}

/// What is wrong with the text of a package or a reference.
#[derive(Drop)]
pub enum PackageErrors {
    /// The invalid alternatives of its range.
    Range(Vec<InvalidPiece>),
    Part(PartError),
}

/// Returns what is expected where a part is missing, as JSON.
pub fn missing_json(alloc: Global, missing: Option<Part>) -> Result<Value, AllocError>
    ensures { IfOk result (λ json. view json ≡ missing_json missing) }
{
    let texts = match missing {
        Some(Part::At) => ["@"].as_slice(),
        Some(Part::Slash) => ["/"].as_slice(),
        Some(Part::Name) => ["name"].as_slice(),
        Some(Part::Scheme) => ["jsr:", "npm:"].as_slice(),
        None => [].as_slice(),
    };
    let mut items = Vec::new(alloc);
    for text in texts {
        items.push(text_json(alloc, text)?)?;
    }
    Ok(Value::Array(items))
}

/// Returns errors as the text of a JSON array, for a text that ends here.
pub(crate) fn errors_text(
    alloc: Global,
    end: usize,
    errors: &PackageErrors,
) -> Result<String, AllocError>
    ensures { IfOk result
        (λ json. string_bytes json ≡ compact_text (package_errors_json end errors.now)) }
{
    match errors {
        PackageErrors::Range(errors) => range_errors_text(alloc, errors.as_slice()),
        PackageErrors::Part(error) => {
            let json = Object::new(alloc)
                .put("end", Ok(Value::from(end)))
                .put("expected", missing_json(alloc, error.missing))
                .put_text("message", Some(error.failure.message()))
                .put("start", Ok(Value::from(error.place)))
                .into_json()?;
            json_text(alloc, Ok(Value::Array(vec![in alloc; json]?)))
        }
    }
}
