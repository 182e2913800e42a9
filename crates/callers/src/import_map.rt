//! What does a specifier of an import map name, and does it allow a version?

ghost use Rattle.std.specs.Prelude.{◌≡◌, IfErr, IfOk, MatchResult, Ok};
ghost use Rattle.std.specs.Cow.{cow_str_bytes};
ghost use Rattle.deno_semver.specs.ReferenceOutcome.{IsReferenceOutcome, IsReferenceRejection, Memory, unboxed};
ghost use Rattle.deno_semver.specs.declared.package.values.PackageKind.TheVariants.{Jsr, Npm};
ghost use Rattle.deno_semver.specs.declared.package.reference.PackageReqReference.{PackageReqReference};
ghost use Rattle.callers.specs.Allowance.{allowance_of};
ghost use Rattle.callers.specs.ImportMap.{IsImport, IsImportOf};

use crate::requirements::{Allowance, allowance_by};
use deno_semver::jsr::{JsrPackageReqReference, normalized_export_name};
use deno_semver::npm::NpmPackageReqReference;
use deno_semver::package::{PackageName, PackageReq, PackageReqReferenceParseError};
use deno_semver::{StackString, Version};
use std::alloc::{AllocError, Global};
use std::borrow::CowStr;

/// What a specifier names, and whether it allows a version.
#[derive(Drop)]
pub struct Import {
    /// The name of the package.
    pub name: PackageName,
    /// The name of what the package exports.
    pub export: StackString,
    pub allowance: Allowance,
}

// What this requirement and this export name.
fn named(
    alloc: Global,
    req: &PackageReq,
    export: CowStr<'_, Global>,
    version: &Version,
) -> Result<Import, AllocError>
    ensures name { IfOk result (λ i. i.name ≡ req.now.name) }
    ensures export { IfOk result (λ i. i.export ≡ cow_str_bytes export.entry) }
    ensures allowance { IfOk result
        (λ i. i.allowance ≡ allowance_of req.now.version_req.inner version.now) }
{
    Ok(Import {
        name: req.name.copy()?,
        export: StackString::from_cow(alloc, export)?,
        allowance: allowance_by(&req.version_req, version),
    })
}

/// What does this `jsr:` specifier name, and does it allow the version?
///
/// Fails with what is wrong with the text, or out of memory.
pub fn imported_from_jsr(
    alloc: Global,
    specifier: &str,
    version: &Version,
) -> Result<Import, PackageReqReferenceParseError>
    ensures reported { IfOk result (IsImportOf Jsr specifier.now version.now) }
    ensures answer { (reference : PackageReqReference)
        → IsReferenceOutcome Jsr specifier.now (Ok reference)
        → MatchResult result (IsImport reference version.now) (λ e. unboxed e ≡ Memory) }
    ensures rejection { IfErr result (IsReferenceRejection Jsr specifier.now) }
{
    let reference = match JsrPackageReqReference::from_str(alloc, specifier) {
        Ok(reference) => reference,
        Err(error) => return Err(error),
    };
    let Ok(export) = reference.export_name(alloc) else {
        return Err(PackageReqReferenceParseError::Memory);
    };
    match named(alloc, reference.req(), export, version) {
        Ok(import) => Ok(import),
        Err(_) => Err(PackageReqReferenceParseError::Memory),
    }
}

/// What does this `npm:` specifier name, and does it allow the version? ([`imported_from_jsr`] says more.)
pub fn imported_from_npm(
    alloc: Global,
    specifier: &str,
    version: &Version,
) -> Result<Import, PackageReqReferenceParseError>
    ensures reported { IfOk result (IsImportOf Npm specifier.now version.now) }
    ensures answer { (reference : PackageReqReference)
        → IsReferenceOutcome Npm specifier.now (Ok reference)
        → MatchResult result (IsImport reference version.now) (λ e. unboxed e ≡ Memory) }
    ensures rejection { IfErr result (IsReferenceRejection Npm specifier.now) }
{
    let reference = match NpmPackageReqReference::from_str(alloc, specifier) {
        Ok(reference) => reference,
        Err(error) => return Err(error),
    };
    let Ok(export) = normalized_export_name(alloc, reference.sub_path()) else {
        return Err(PackageReqReferenceParseError::Memory);
    };
    match named(alloc, reference.req(), export, version) {
        Ok(import) => Ok(import),
        Err(_) => Err(PackageReqReferenceParseError::Memory),
    }
}
