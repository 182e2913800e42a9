//! Parsing of package requirements, and their canonical forms.

ghost use Rattle.std.specs.Prelude.{◌≡◌, IfErr, IfOk, Ok, Result, string_bytes};
ghost use Rattle.std.specs.Option.{option_copied};
ghost use Rattle.deno_semver.specs.PackageOutcome.{IsParsedPackage, IsVersionReq, rejected_by};
ghost use Rattle.deno_semver.specs.PackageReading.{IsPartsRejection, IsReadPackage};
ghost use Rattle.deno_semver.specs.declared.package.values.PackageReq.{PackageReq};
ghost use Rattle.semver_req.specs.declared.common.values.Flavour.TheVariants.{Normal, Npm, Specifier};
ghost use Rattle.deno_semver.specs.RequirementText.{normal_req_text};

use super::cut::{Cut, parts_of, starts_with_at};
use super::errors::{PackageReqParseError, PackageReqPartsParseError};
use super::values::{PackageName, PackageReq};
use semver_base::failure::ParseFailure;
use semver_base::string::{StackString, displayed};
use semver_req::common::values::Flavour;
use semver_req::laws::texts_have_one_outcome;
use semver_req::req::{VersionReq, wildcard_version_req};
use std::alloc::{AllocError, Global};

// The error for a version's text that the grammar of a flavour rejects.
fn version_error(flavour: Flavour, source: ParseFailure) -> PackageReqPartsParseError
    ensures { result ≡ rejected_by flavour source }
{
    match flavour {
        Flavour::Specifier => PackageReqPartsParseError::SpecifierVersionReq(source.into()),
        Flavour::Npm => PackageReqPartsParseError::NpmVersionReq(source.into()),
        Flavour::Normal => PackageReqPartsParseError::NormalizedVersionReq(source.into()),
    }
}

/// The package requirement made of a name and a version's text, parsed by the grammar of a flavour; without a text, any version
/// matches.
#[inline(always)]
pub(crate) fn req_of(
    alloc: Global,
    cut: Cut<'_>,
    flavour: Flavour,
) -> Result<PackageReq, PackageReqPartsParseError>
    ensures name { IfOk result (λ req. req.name ≡ cut.entry.name.now) }
    ensures version { IfOk result
        (λ req. IsVersionReq flavour (option_copied cut.entry.version) req.version_req) }
    ensures rejected { IfErr result (IsPartsRejection flavour (option_copied cut.entry.version)) }
{
    let name = match PackageName::from_str(alloc, cut.name) {
        Ok(name) => name,
        Err(_) => return Err(PackageReqPartsParseError::Memory),
    };
    let Some(version) = cut.version else {
        return match wildcard_version_req(alloc) {
            Ok(version_req) => Ok(PackageReq { name, version_req }),
            Err(_) => {
                drop(name);
                Err(PackageReqPartsParseError::Memory)
            }
        };
    };
    let failure = match VersionReq::parse(alloc, version, flavour) {
        Ok(version_req) => return Ok(PackageReq { name, version_req }),
        Err(failure) => failure,
    };
    drop(name);
    if failure.is_memory() {
        drop(failure);
        return Err(PackageReqPartsParseError::Memory);
    }
    Err(version_error(flavour, failure))
}

// Parses a package requirement, or returns the first fault.
fn read(
    alloc: Global,
    text: &str,
    flavour: Flavour,
) -> Result<PackageReq, PackageReqPartsParseError>
    ensures { IsReadPackage flavour text.now result }
{
    let cut = match parts_of(text) {
        Ok(cut) => cut,
        Err(error) => return Err(error),
    };
    let req = match req_of(alloc, cut, flavour) {
        Ok(req) => req,
        Err(error) => return Err(error),
    };
    if cut.path.is_empty() {
        return Ok(req);
    }
    drop(req);
    // A path is shown with its leading `/`.
    let source = ParseFailure::with_texts(alloc, "Unexpected character '/'", Some(cut.tail));
    if source.is_memory() {
        drop(source);
        return Err(PackageReqPartsParseError::Memory);
    }
    Err(version_error(Flavour::Specifier, source))
}

/// The name, `@`, and the version requirement's canonical form. Fails only out of memory.
pub(crate) fn normal_req_text(alloc: Global, req: &PackageReq) -> Result<String, AllocError>
    ensures { IfOk result (λ text. string_bytes text ≡ normal_req_text req.now) }
{
    let (name, inner) = (&req.name, req.version_req.inner());
    displayed(alloc, &format_args!("{name}@{inner}"))
}

impl PackageReq {
    /// Parses a package requirement by [`PackageReq::from_str`], `from_str_loose` or `from_str_normalized`, whichever has this grammar for
    /// the version.
    pub fn parse(
        alloc: Global,
        text: &str,
        flavour: Flavour,
    ) -> Result<PackageReq, PackageReqParseError>
        ensures { IsParsedPackage flavour text.now result }
    {
        texts_have_one_outcome();
        let source = match read(alloc, text, flavour) {
            Ok(req) => return Ok(req),
            Err(source) => source,
        };
        if source.is_memory() {
            drop(source);
            return Err(PackageReqParseError::memory(alloc));
        }
        let Ok(whole) = StackString::from_str(alloc, text) else {
            drop(source);
            return Err(PackageReqParseError::memory(alloc));
        };
        // A text that contains a `/` lacks the `@` at its beginning, which goes before any other fault.
        if text.as_bytes().contains(&b'/') && !starts_with_at(text) {
            drop(source);
            return Err(PackageReqParseError {
                text: whole,
                source: PackageReqPartsParseError::MissingAtSymbol,
            });
        }
        Err(PackageReqParseError {
            text: whole,
            source,
        })
    }

    /// Parses a package requirement such as `@scope/name@^1.2`, with the strict grammar for the version
    /// ([`VersionReq::parse_from_specifier`], which lists its errors).
    ///
    /// The text is split as npm's package specifiers are: one leading `/` is dropped; what stands before the next `/` is the
    /// name or, if it begins with `@`, the scope, and then the last part of the name runs to the `/` after that; in the last
    /// part the version follows the last `@`, and without an `@` any version is meant, as by `*`. What follows is a path,
    /// which a package requirement can't have.
    ///
    /// Fails with the first of these, and the whole text: `NoPackageName`, nothing stands before the first `/`;
    /// `InvalidPackageName`, a scope stands alone; the version's parse error; for a path `SpecifierVersionReq` with
    /// "Unexpected character '/'", which shows the text from that `/` on. If a text with any of these contains a `/` and
    /// doesn't begin with `@`, it fails with `MissingAtSymbol` instead. Otherwise fails only out of memory.
    pub fn from_str(alloc: Global, text: &str) -> Result<PackageReq, PackageReqParseError>
        ensures { IsParsedPackage Specifier text.now result }
    {
        PackageReq::parse(alloc, text, Flavour::Specifier)
    }

    /// Parses like [`PackageReq::from_str`], but with npm's grammar for the version ([`VersionReq::parse_from_npm`]), whose
    /// error it returns as `NpmVersionReq`.
    pub fn from_str_loose(alloc: Global, text: &str) -> Result<PackageReq, PackageReqParseError>
        ensures { IsParsedPackage Npm text.now result }
    {
        PackageReq::parse(alloc, text, Flavour::Npm)
    }

    /// Parses like [`PackageReq::from_str`], but with the normalized grammar for the version
    /// ([`VersionReq::parse_from_normalized`]), whose error it returns as `NormalizedVersionReq`.
    pub fn from_str_normalized(
        alloc: Global,
        text: &str,
    ) -> Result<PackageReq, PackageReqParseError>
        ensures { IsParsedPackage Normal text.now result }
    {
        PackageReq::parse(alloc, text, Flavour::Normal)
    }

    /// Returns the name, `@`, and the version requirement's canonical form ([`VersionReq::to_string_normalized`], which says
    /// what that form preserves). Fails only out of memory.
    pub fn to_string_normalized(&self, alloc: Global) -> Result<PackageName, AllocError>
        ensures { IfOk result (λ text. text ≡ normal_req_text self.now) }
    {
        PackageName::from_string(alloc, normal_req_text(alloc, self)?)
    }
}
