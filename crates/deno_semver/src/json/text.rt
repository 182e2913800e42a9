//! Values whose JSON is a string of their text.

ghost use Rattle.std.specs.Prelude.{◌≡◌, IfOk, IsUtf8, List, Ok, string_bytes, ℕ};
ghost use Rattle.serde_json.specs.Data.{string};
ghost use Rattle.serde_json.specs.View.{view};
ghost use Rattle.semver_req.specs.declared.common.values.Flavour.TheVariants.{Npm};
ghost use Rattle.deno_semver.specs.DependencyText.{normal_dependency_text};
ghost use Rattle.deno_semver.specs.DependencyOutcome.{IsDependencyOutcome};
ghost use Rattle.deno_semver.specs.Json.{IsStringOf, IsTextItself, IsTextOfDependency, IsTextOfInner, IsTextOfKind, IsTextOfNv, IsTextOfReference, IsTextOfReq, IsTextOfVersion, bound_kind_text};
ghost use Rattle.deno_semver.specs.JsonAnswers.{IsJsonAnswer};
ghost use Rattle.deno_semver.specs.PackageOutcome.{IsPackageOutcome};
ghost use Rattle.deno_semver.specs.RequirementText.{normal_req_text};
ghost use Rattle.deno_semver.specs.Stored.{IsStoredDependency, IsStoredReq};

use super::{JsonError, JsonForm};
use crate::jsr::JsrDepPackageReq;
use crate::laws::stored_requirements_are_read_again;
use crate::package::{PackageNv, PackageReq, Registry, RegistryNvReference, normal_req_text};
use semver_base::range::VersionBoundKind;
use semver_base::string::{SmallStackString, StackString, StringAppendable, displayed};
use semver_base::version::Version;
use semver_req::laws::texts_have_one_outcome;
use semver_req::range_set_or_tag::RangeSetOrTag;
use serde_json::Value;
use std::alloc::{AllocError, Global};

/// A value whose JSON is a string of its text.
pub trait TextForm: StringAppendable + Drop {
    /// The text parses to the value.
    ghost reads: { List ℕ → Self → Type 0 };

    /// Parses the text.
    fn of_text(alloc: Global, text: &str) -> Result<Self, JsonError>
        ensures read { IfOk result (reads text.now) }
        ensures answer { (x : Self) → reads text.now x → IsJsonAnswer x result };
}

// The JSON string of a text.
fn string_json(text: String) -> Value
    ensures { view result ≡ string (string_bytes text) }
{
    Value::String(text)
}

/// A string of the text.
impl<T: TextForm> JsonForm for T {
    ghost json = { λ value. string (T.StringAppendable.text value) };

    ghost parses_to = { IsStringOf T.reads };

    fn to_json(&self, alloc: Global) -> Result<Value, AllocError> {
        Ok(string_json(displayed(alloc, self)?))
    }

    fn from_json(alloc: Global, value: &Value) -> Result<Self, JsonError> {
        match value.as_str() {
            Some(text) => T::of_text(alloc, text),
            None => Err(JsonError::Json),
        }
    }
}

/// A text that JSON holds.
impl TextForm for SmallStackString {
    ghost reads = { IsTextItself };

    fn of_text(alloc: Global, text: &str) -> Result<Self, JsonError> {
        Ok(SmallStackString::from_str(alloc, text)?)
    }
}

/// A text that JSON holds.
impl TextForm for StackString {
    ghost reads = { IsTextItself };

    fn of_text(alloc: Global, text: &str) -> Result<Self, JsonError> {
        Ok(StackString::from_str(alloc, text)?)
    }
}

/// A version, parsed by [`Version::parse_standard`].
impl TextForm for Version {
    ghost reads = { IsTextOfVersion };

    fn of_text(alloc: Global, text: &str) -> Result<Self, JsonError> {
        match Version::parse_standard(alloc, text) {
            Ok(version) => Ok(version),
            Err(error) => Err(JsonError::of_parser(error.is_memory())),
        }
    }
}

/// The text `name@version`, parsed by [`PackageNv::from_str`].
impl TextForm for PackageNv {
    ghost reads = { IsTextOfNv };

    fn of_text(alloc: Global, text: &str) -> Result<Self, JsonError> {
        match PackageNv::from_str(alloc, text) {
            Ok(nv) => Ok(nv),
            Err(error) => Err(JsonError::of_parser(error.is_memory())),
        }
    }
}

/// A reference with its scheme, parsed by [`RegistryNvReference::from_str`].
impl<R: Registry> TextForm for RegistryNvReference<R> {
    ghost reads = { IsTextOfReference R.kind };

    fn of_text(alloc: Global, text: &str) -> Result<Self, JsonError> {
        match RegistryNvReference::from_str(alloc, text) {
            Ok(reference) => Ok(reference),
            Err(error) => Err(JsonError::of_parser(error.is_memory())),
        }
    }
}

/// Ranges or a tag in canonical form, parsed by [`RangeSetOrTag::parse`].
impl TextForm for RangeSetOrTag {
    ghost reads = { IsTextOfInner };

    fn of_text(alloc: Global, text: &str) -> Result<Self, JsonError> {
        texts_have_one_outcome();
        match RangeSetOrTag::parse(alloc, text) {
            Ok(inner) => Ok(inner),
            Err(failure) => Err(JsonError::of_parser(failure.is_memory())),
        }
    }
}

/// A string of the canonical form ([`PackageReq::to_string_normalized`]), parsed by [`PackageReq::from_str_normalized`].
///
/// The JSON of a package requirement that [`PackageReq::from_str_loose`] parsed parses to one with the same name and the same
/// tag, or ranges that match the same versions, unless a range with an end starts at a pre-release of 0.0.0 and is neither
/// one version nor `^0.0.0-pre` or `~0.0.0-pre` of it. From then on, storing and parsing gives an equal requirement.
impl JsonForm for PackageReq {
    ghost json = { λ req. string (normal_req_text req) };

    ghost parses_to = { IsStringOf IsTextOfReq };

    fn to_json(&self, alloc: Global) -> Result<Value, AllocError>
        ensures value { IfOk result (λ json. view json ≡ string (normal_req_text self.now)) }
        ensures read_again { IfOk result (λ json. (text : List ℕ) → IsUtf8 text
            → IsPackageOutcome Npm text (Ok self.now) → IsStoredReq self.now (view json)) }
    {
        stored_requirements_are_read_again();
        let normal = normal_req_text(alloc, self)?;
        Ok(string_json(normal))
    }

    fn from_json(alloc: Global, value: &Value) -> Result<Self, JsonError> {
        let Some(text) = value.as_str() else {
            return Err(JsonError::Json);
        };
        match PackageReq::from_str_normalized(alloc, text) {
            Ok(req) => Ok(req),
            Err(error) => Err(JsonError::of_parser(error.is_memory())),
        }
    }
}

/// A string of the canonical form ([`JsrDepPackageReq::to_string_normalized`]), parsed by
/// [`JsrDepPackageReq::from_str_normalized`].
///
/// The JSON of a dependency that [`JsrDepPackageReq::from_str_loose`] parsed parses to a dependency of the same registry, and
/// what [`PackageReq`]'s JSON preserves holds for its package requirement.
impl JsonForm for JsrDepPackageReq {
    ghost json = { λ dependency. string (normal_dependency_text dependency) };

    ghost parses_to = { IsStringOf IsTextOfDependency };

    fn to_json(&self, alloc: Global) -> Result<Value, AllocError>
        ensures value { IfOk result (λ json. view json ≡ string (normal_dependency_text self.now)) }
        ensures read_again { IfOk result (λ json. (text : List ℕ) → IsUtf8 text
            → IsDependencyOutcome Npm text (Ok self.now) → IsStoredDependency self.now (view json)) }
    {
        stored_requirements_are_read_again();
        let normal = self.to_string_normalized(alloc)?;
        Value::try_from_str(alloc, normal.as_str())
    }

    fn from_json(alloc: Global, value: &Value) -> Result<Self, JsonError> {
        let Some(text) = value.as_str() else {
            return Err(JsonError::Json);
        };
        match JsrDepPackageReq::from_str_normalized(alloc, text) {
            Ok(dependency) => Ok(dependency),
            Err(error) => Err(JsonError::of_parser(error.is_memory())),
        }
    }
}

/// The string `Inclusive` or `Exclusive`.
impl JsonForm for VersionBoundKind {
    ghost json = { λ kind. string (bound_kind_text kind) };

    ghost parses_to = { IsStringOf IsTextOfKind };

    fn to_json(&self, alloc: Global) -> Result<Value, AllocError> {
        let text = match self {
            VersionBoundKind::Inclusive => "Inclusive",
            VersionBoundKind::Exclusive => "Exclusive",
        };
        Value::try_from_str(alloc, text)
    }

    fn from_json(_alloc: Global, value: &Value) -> Result<Self, JsonError> {
        let text = value.as_str().unwrap_or("");
        if text == "Inclusive" {
            return Ok(VersionBoundKind::Inclusive);
        }
        if text == "Exclusive" {
            return Ok(VersionBoundKind::Exclusive);
        }
        Err(JsonError::Json)
    }
}
