//! Failures made by hand, and the lines that errors print.

use super::shown;
use crate::answer::{Answer, ReportError, Reported};
use deno_semver::json::JsonError;
use deno_semver::jsr::{
    JsrDepPackageReq, JsrDepPackageReqParseError, JsrPackageNvReference, JsrPackageReqReference,
};
use deno_semver::npm::{parse_npm_version, parse_npm_version_req};
use deno_semver::package::{
    PackageNv, PackageReq, PackageReqPartsParseError as PartsError, PackageReqReferenceParseError,
    SpecifierError,
};
use deno_semver::{ParseFailure, Rejection, Version, VersionReq};

/// Failures made of texts and of a rejection, and whether a copy equals its failure and another.
pub fn failures(answer: &mut Answer) -> Reported {
    let alloc = answer.alloc;
    let failure = ParseFailure::with_texts(alloc, "the message of a failure", Some("here"));
    failure.report(answer)?;
    let rejection = ParseFailure::of_rejection(alloc, Rejection::BoundTooLarge);
    rejection.report(answer)?;
    answer.displayed(&rejection)?;
    let copy = failure.copy()?;
    answer.yes_or_no(copy == failure)?;
    answer.yes_or_no(copy == rejection)
}

/// The line of each error for out of memory, and of errors without text.
pub fn out_of_memory(answer: &mut Answer) -> Reported {
    answer.displayed(&ParseFailure::memory())?;
    answer.displayed(&PartsError::Memory)?;
    answer.displayed(&PackageReqReferenceParseError::Memory)?;
    answer.displayed(&JsrDepPackageReqParseError::Memory)?;
    answer.displayed(&SpecifierError::Memory)?;
    answer.made(JsonError::Memory.copy())?;
    answer.displayed(&PartsError::NoPackageName)?;
    answer.displayed(&PartsError::MissingAtSymbol)?;
    answer.displayed(&PartsError::InvalidPackageName)
}

/// The lines of the errors of versions, copied, and of version requirements.
pub fn of_versions(answer: &mut Answer) -> Reported {
    let alloc = answer.alloc;
    if let Some(error) = Version::parse_standard(alloc, "foo").err() {
        answer.made(error.copy())?;
    }
    if let Some(error) = parse_npm_version(alloc, "1.0").err() {
        answer.made(error.copy())?;
    }
    if let Some(error) = parse_npm_version_req(alloc, "1 | 2").err() {
        answer.displayed(&error)?;
    }
    if let Some(error) = VersionReq::parse_from_normalized(alloc, "1 | 2").err() {
        answer.displayed(&error)?;
    }
    if let Some(error) = VersionReq::parse_from_specifier(alloc, "1 | 2").err() {
        answer.displayed(&error)?;
    }
    Ok(())
}

/// The errors of packages, dependencies, names with versions and references, with their lines.
pub fn of_packages(answer: &mut Answer) -> Reported {
    let alloc = answer.alloc;
    shown(PackageReq::from_str_loose(alloc, "a@foo bar"), answer)?;
    shown(JsrDepPackageReq::from_str(alloc, "other:a@1"), answer)?;
    shown(PackageNv::from_str(alloc, "a@"), answer)?;
    shown(JsrPackageReqReference::from_str(alloc, "npm:a"), answer)?;
    shown(
        JsrPackageReqReference::from_str(alloc, "jsr:@a/b/c@1"),
        answer,
    )?;
    shown(
        JsrPackageNvReference::from_str(alloc, "npm:a@1.0.0"),
        answer,
    )
}
