//! The text of a package, such as `@scope/name@^1.2`.

ghost use Rattle.std.specs.Prelude.{◌≡◌, ◌≢◌, ◌⊎◌, ◌+◌, ◌<◌, ◌≤◌, ◌^◌, List, ℕ, IfErr, IfOk, IfSome, MatchOption, None, Ok, Result, length, string_bytes};
ghost use Rattle.std.specs.Option.{option_copied};
ghost use Rattle.serde_json.specs.View.{view};
ghost use Rattle.deno_semver.specs.PackageOutcome.{BadVersion, PackageFault, IsPackageAnswer, IsPackageOutcome, IsPackageRejection, Reports};
ghost use Rattle.deno_semver.specs.declared.package.values.PackageReq.{PackageReq};
ghost use Rattle.answers.specs.Asking.{IsAnswer};
ghost use Rattle.package_answers.specs.Errors.{IsFaultAt, IsPartError};
ghost use Rattle.package_answers.specs.Packages.{AreOfRange, ArePackageErrors, IsPackage, IsPackageErrorsText, PackageParts, last_part, package_json, parts_failure, scope_part};

use crate::errors::{PackageErrors, Part, PartError, errors_text};
use answers::asking::{Kind, Problem};
use answers::object::{Object, json_text};
use deno_semver::ParseFailure;
use deno_semver::laws::{package_texts_have_one_outcome, requirements_stand_at_one_place};
use deno_semver::package::{PackageReq, PackageReqPartsParseError, version_req_text};
use semver_base::lexical::after;
use semver_req::common::values::Flavour;
use semver_req::error_places::pieces::invalid_pieces_behind;
use semver_req::laws::{texts_are_rejected_for_one_reason, texts_have_one_list_of_errors};
use serde_json::Value;
use std::alloc::{AllocError, Global};

/// Returns the scope of a name without its `@`, if it has one, and what follows the scope.
pub fn scope_and_name(name: &str) -> (Option<&str>, &str)
    ensures scope { option_copied result.0 ≡ scope_part name.now }
    ensures last { result.1.now ≡ last_part name.now }
{
    let Some(rest) = name.strip_prefix('@') else {
        return (None, name);
    };
    match rest.split_once('/') {
        Some((scope, last)) => (Some(scope), last),
        None => (Some(rest), ""),
    }
}

/// Returns the parts of a package as JSON: its name without the scope, its range's canonical form and the text the range was
/// parsed from, and its scope or null.
pub fn package_json(alloc: Global, req: &PackageReq) -> Result<Value, AllocError>
    ensures { IfOk result (λ json. view json ≡ package_json req.now) }
{
    let (scope, name) = scope_and_name(req.name.as_str());
    let normal = req.version_req.to_string_normalized(alloc)?;
    Object::new(alloc)
        .put_text("name", Some(name))
        .put_text("normal", Some(normal.as_str()))
        .put_text("requirement", Some(req.version_req.version_text()))
        .put_text("scope", scope)
        .into_json()
}

/// What is wrong with the text of a package.
pub(crate) fn parts_failure(alloc: Global, error: PackageReqPartsParseError) -> ParseFailure
    ensures { (result ≡ None) ⊎ (result ≡ parts_failure error) }
{
    let message = match error {
        PackageReqPartsParseError::SpecifierVersionReq(error) => return error.source,
        PackageReqPartsParseError::NpmVersionReq(error) => return error.source,
        PackageReqPartsParseError::NormalizedVersionReq(error) => return error.source,
        PackageReqPartsParseError::NoPackageName => "Did not contain a package name.",
        PackageReqPartsParseError::InvalidPackageName => "Did not contain a valid package name.",
        PackageReqPartsParseError::MissingAtSymbol => {
            "Packages in the format <scope>/<name> must start with an '@' symbol."
        }
        PackageReqPartsParseError::Memory => return ParseFailure::memory(),
    };
    ParseFailure::with_texts(alloc, message, None)
}

/// Parses a package, with this grammar for its range.
pub fn read_package(alloc: Global, flavour: Flavour, text: &str) -> Result<PackageReq, Problem>
    ensures { IsAnswer (IsPackage flavour text.now) (λ req. req) result }
{
    texts_are_rejected_for_one_reason();
    match PackageReq::parse(alloc, text, flavour) {
        Ok(req) => Ok(req),
        Err(error) => {
            let failure = parts_failure(alloc, error.source);
            Err(Problem::of(Kind::Package, 0, failure))
        }
    }
}

/// Parses a package, and returns its parts as the text of a JSON object.
pub fn package_parts(alloc: Global, flavour: Flavour, text: &str) -> Result<String, Problem>
    ensures { IsAnswer (PackageParts flavour text.now) (λ text. string_bytes text) result }
{
    let req = read_package(alloc, flavour, text)?;
    Ok(json_text(alloc, package_json(alloc, &req))?)
}

/// The invalid alternatives of the range in the text of a package that stands behind so many bytes, which the indexes count, too. There are
/// none if the text has no range.
pub(crate) fn range_errors(
    alloc: Global,
    flavour: Flavour,
    before: usize,
    text: &str,
) -> Result<PackageErrors, AllocError>
    requires { before + length text.now < 2 ^ 64 }
    ensures { IfOk result (AreOfRange flavour before text.now) }
{
    let Some((start, range)) = version_req_text(text) else {
        return Ok(PackageErrors::Range(Vec::new(alloc)));
    };
    let errors = invalid_pieces_behind(alloc, before + start, range, flavour)?;
    Ok(PackageErrors::Range(errors))
}

/// Where the text of a package has the fault that its parser reports, and which part is missing there; `None` if its range is invalid.
pub(crate) fn fault_place(
    text: &str,
    error: &PackageReqPartsParseError,
) -> Option<(usize, Option<Part>)>
    ensures place { (f : Flavour) (fault : PackageFault) → Reports f fault error.now
        → MatchOption result ((version : List ℕ) × (fault ≡ BadVersion version))
        (λ at. IsFaultAt text.now fault at.1 at.0) }
    ensures within { IfSome result (λ at. at.0 ≤ length text.now) }
{
    let body = after(text, '/').unwrap_or(text);
    match error {
        PackageReqPartsParseError::MissingAtSymbol => Some((0, Some(Part::At))),
        PackageReqPartsParseError::NoPackageName => {
            Some((text.len() - body.len(), Some(Part::Name)))
        }
        PackageReqPartsParseError::InvalidPackageName => match body.split_once('/') {
            Some((_scope, rest)) => Some((text.len() - rest.len(), Some(Part::Name))),
            None => Some((text.len(), Some(Part::Slash))),
        },
        PackageReqPartsParseError::SpecifierVersionReq(error) => {
            // Only the error of a path has a snippet, which begins with its `/`.
            match error.source.code_snippet() {
                Some(path) => Some((text.len().saturating_sub(path.len()), None)),
                None => None,
            }
        }
        _ => None,
    }
}

/// The error of a part at this place; without a place, those of the range in the text of a package that stands behind so many bytes.
pub(crate) fn errors_at(
    alloc: Global,
    place: Option<(usize, Option<Part>)>,
    failure: ParseFailure,
    flavour: Flavour,
    before: usize,
    text: &str,
) -> Result<PackageErrors, AllocError>
    requires { before + length text.now < 2 ^ 64 }
    ensures reported { IfOk result (λ _errors. failure ≢ None) }
    ensures errors { IfOk result (λ errors. MatchOption place
        (AreOfRange flavour before text.now errors)
        (λ at. IsPartError (λ missing place. (missing ≡ at.1) × (place ≡ at.0)) failure errors)) }
{
    if failure.is_memory() {
        return Err(AllocError);
    }
    match place {
        Some((place, missing)) => Ok(PackageErrors::Part(PartError {
            place,
            missing,
            failure,
        })),
        None => range_errors(alloc, flavour, before, text),
    }
}

/// What is wrong with the text of a package, and where: the invalid alternatives of its range, in their order, or the part that it lacks.
/// A tag isn't a range, and a path isn't allowed.
pub fn package_errors(
    alloc: Global,
    flavour: Flavour,
    text: &str,
) -> Result<PackageErrors, AllocError>
    ensures { IfOk result (ArePackageErrors flavour text.now) }
{
    match PackageReq::parse(alloc, text, flavour) {
        Ok(_req) => range_errors(alloc, flavour, 0, text),
        Err(error) => {
            let place = fault_place(text, &error.source);
            let failure = parts_failure(alloc, error.source);
            errors_at(alloc, place, failure, flavour, 0, text)
        }
    }
}

/// Returns those errors as the text of a JSON array.
pub fn package_errors_text(
    alloc: Global,
    flavour: Flavour,
    text: &str,
) -> Result<String, AllocError>
    ensures is { IfOk result (λ json. IsPackageErrorsText flavour text.now (string_bytes json)) }
    ensures only { (other : List ℕ) → IsPackageErrorsText flavour text.now other
        → IfOk result (λ json. string_bytes json ≡ other) }
{
    texts_are_rejected_for_one_reason();
    texts_have_one_list_of_errors();
    requirements_stand_at_one_place();
    package_texts_have_one_outcome();
    let errors = package_errors(alloc, flavour, text)?;
    errors_text(alloc, text.len(), &errors)
}
