//! Is this version allowed by this text of a package, or of a reference to one?

ghost use Rattle.std.specs.Prelude.{◌≡◌};
ghost use Rattle.semver_req.specs.declared.common.values.Flavour.TheVariants.{Npm, Specifier};
ghost use Rattle.callers.specs.Packages.{AllowsPackage};
ghost use Rattle.callers.specs.References.{AllowsReference};
ghost use Rattle.callers.specs.declared.packages.Unanswered.TheVariants as why;
ghost use Rattle.callers.specs.declared.packages.UnansweredReference.TheVariants as unanswered;

use crate::requirements::{Allowance, allowance_by};
use deno_semver::npm::{NpmVersionParseError, parse_npm_version};
use deno_semver::package::{
    PackageReq, PackageReqParseError, PackageReqReferenceParseError, Registry, RegistryReqReference,
};
use semver_req::laws::retained_sets_mean_their_trees;
use std::alloc::Global;

/// Why there is no result.
#[derive(Drop)]
pub enum Unanswered {
    /// The text of the package is invalid, or memory ran out.
    Package(PackageReqParseError),
    /// The text of the version is invalid, or memory ran out.
    Version(NpmVersionParseError),
}

impl From<PackageReqParseError> for Unanswered {
    ghost from_gives = { λ error given. given ≡ why.Package error };

    fn from(error: PackageReqParseError) -> Unanswered {
        Unanswered::Package(error)
    }
}

impl From<NpmVersionParseError> for Unanswered {
    ghost from_gives = { λ error given. given ≡ why.Version error };

    fn from(error: NpmVersionParseError) -> Unanswered {
        Unanswered::Version(error)
    }
}

/// Does the package, such as `@scope/name@^1.2`, allow the version, both parsed by npm's rules?
///
/// For every tree of comparators that the range's part of the text has, exactly if the tree means the version; a tag is
/// returned as one. Fails exactly if either text is invalid, or out of memory.
pub fn package_allows_by_npm(
    alloc: Global,
    text: &str,
    version: &str,
) -> Result<Allowance, Unanswered>
    ensures { AllowsPackage Npm text.now version.now result }
{
    retained_sets_mean_their_trees();
    let req = PackageReq::from_str_loose(alloc, text)?;
    let version = parse_npm_version(alloc, version)?;
    Ok(allowance_by(&req.version_req, &version))
}

/// The same ([`package_allows_by_npm`]), with the strict parser for the range.
pub fn package_allows(alloc: Global, text: &str, version: &str) -> Result<Allowance, Unanswered>
    ensures { AllowsPackage Specifier text.now version.now result }
{
    retained_sets_mean_their_trees();
    let req = PackageReq::from_str(alloc, text)?;
    let version = parse_npm_version(alloc, version)?;
    Ok(allowance_by(&req.version_req, &version))
}

/// Why there is no result for a reference.
#[derive(Drop)]
pub enum UnansweredReference {
    /// The text of the reference is invalid, or memory ran out.
    Reference(PackageReqReferenceParseError),
    /// The reference is valid, and the text of the version is invalid, or memory ran out.
    Version(NpmVersionParseError),
}

impl From<PackageReqReferenceParseError> for UnansweredReference {
    ghost from_gives = { λ error given. given ≡ unanswered.Reference error };

    fn from(error: PackageReqReferenceParseError) -> UnansweredReference {
        UnansweredReference::Reference(error)
    }
}

impl From<NpmVersionParseError> for UnansweredReference {
    ghost from_gives = { λ error given. given ≡ unanswered.Version error };

    fn from(error: NpmVersionParseError) -> UnansweredReference {
        UnansweredReference::Version(error)
    }
}

/// Does the reference to a package of the registry, such as `npm:@scope/name@^1.2/mod.js`, allow the version?
///
/// For every tree of comparators that the range's part of the text has, exactly if the tree means the version; a tag is
/// returned as one. Fails with the first fault of the reference, or of the version if the reference is valid, or out of
/// memory.
pub fn reference_allows<R: Registry>(
    alloc: Global,
    text: &str,
    version: &str,
) -> Result<Allowance, UnansweredReference>
    ensures { AllowsReference R.kind text.now version.now result }
{
    retained_sets_mean_their_trees();
    let reference = RegistryReqReference::<R>::from_str(alloc, text)?;
    let version = parse_npm_version(alloc, version)?;
    Ok(allowance_by(&reference.req().version_req, &version))
}
