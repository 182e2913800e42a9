//! What is wrong with a range, and where, as JSON.

ghost use Rattle.std.specs.Prelude.{◌≡◌, IfOk, List, string_bytes, ℕ};
ghost use Rattle.serde_json.specs.View.{view};
ghost use Rattle.serde_json.specs.Written.{compact_text};
ghost use Rattle.semver_req.specs.Alternatives.{AreInvalidPieces};
ghost use Rattle.semver_req.specs.Viable.{IsErrorPlace, IsVersionText};
ghost use Rattle.answers.specs.Errors.{IsErrorsText, error_json, errors_json, expected_json};

use crate::object::{Object, json_text, text_json};
use semver_req::common::values::Flavour;
use semver_req::error_places::causes::Cause;
use semver_req::error_places::expected::Kind;
use semver_req::error_places::pieces::{InvalidPiece, invalid_pieces};
use semver_req::error_places::version_error_place;
use semver_req::laws::texts_have_one_list_of_errors;
use serde_json::Value;
use std::alloc::{AllocError, Global};

/// Returns what is expected at the place of an error, as JSON: the names of kinds of text, and `end` if the text may end there. Nothing
/// is if the alternative is wrong in another way.
pub fn expected_json(alloc: Global, cause: &Cause) -> Result<Value, AllocError>
    ensures { IfOk result (λ json. view json ≡ expected_json cause.now) }
{
    let mut names = Vec::new(alloc);
    let Cause::Unexpected(expected) = cause else {
        return Ok(Value::Array(names));
    };
    let kinds = expected.kinds.as_slice();
    for kind in kinds {
        let name = match kind {
            Kind::Digit => "digit",
            Kind::Letter => "letter",
            Kind::Space => "whitespace",
            kind => kind.text(),
        };
        names.push(text_json(alloc, name)?)?;
    }
    if expected.may_end {
        names.push(text_json(alloc, "end")?)?;
    }
    Ok(Value::Array(names))
}

/// Returns an error as JSON: where it is, where its alternative ends, why that is invalid, and what is expected in its place.
pub fn error_json(alloc: Global, error: &InvalidPiece) -> Result<Value, AllocError>
    ensures { IfOk result (λ json. view json ≡ error_json error.now) }
{
    Object::new(alloc)
        .put("end", Ok(Value::from(error.end)))
        .put("expected", expected_json(alloc, &error.cause))
        .put_text("message", Some(error.cause.rejection().message()))
        .put("start", Ok(Value::from(error.place)))
        .into_json()
}

/// Returns errors as the text of a JSON array.
pub fn errors_text(alloc: Global, errors: &[InvalidPiece]) -> Result<String, AllocError>
    ensures { IfOk result (λ text. string_bytes text ≡ compact_text (errors_json errors.now)) }
{
    let mut items = Vec::new(alloc);
    for error in errors {
        items.push(error_json(alloc, error)?)?;
    }
    json_text(alloc, Ok(Value::Array(items)))
}

/// The invalid alternatives of the text of a range, in their order, with what is wrong in each and where. A tag isn't a range, so it is
/// one, too.
pub fn errors(
    alloc: Global,
    flavour: Flavour,
    range_text: &str,
) -> Result<Vec<InvalidPiece>, AllocError>
    ensures { IfOk result (λ errors. AreInvalidPieces flavour range_text.now errors.items) }
{
    invalid_pieces(alloc, range_text, flavour)
}

/// The index in a text at which it stops being a version; its length, if it only stops too early.
pub fn version_error(alloc: Global, version_text: &str) -> Result<usize, AllocError>
    ensures { IfOk result (IsErrorPlace IsVersionText version_text.now) }
{
    version_error_place(alloc, version_text)
}

/// Returns the errors of the text of a range as the text of a JSON array.
pub fn errors_of_range(
    alloc: Global,
    flavour: Flavour,
    range_text: &str,
) -> Result<String, AllocError>
    ensures is { IfOk result (λ text. IsErrorsText flavour range_text.now (string_bytes text)) }
    ensures only { (other : List ℕ) → IsErrorsText flavour range_text.now other
        → IfOk result (λ text. string_bytes text ≡ other) }
{
    texts_have_one_list_of_errors();
    let errors = errors(alloc, flavour, range_text)?;
    errors_text(alloc, errors.as_slice())
}
