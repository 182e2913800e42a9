//! Is this version allowed by this requirement?

ghost use Rattle.std.specs.Prelude.{◌≡◌, IfErr};
ghost use Rattle.std.specs.Str.{trim};
ghost use Rattle.semver_req.specs.PieceReading.{IsCutRejection};
ghost use Rattle.semver_req.specs.declared.common.values.Flavour.TheVariants.{Npm};
ghost use Rattle.callers.specs.Allowance.{IsAllowance, allowance_of};

use deno_semver::npm::NpmVersionReqParseError;
use deno_semver::{Version, VersionReq};
use std::alloc::Global;

/// Whether a requirement allows a version.
#[derive(Clone, Copy)]
pub enum Allowance {
    Yes,
    No,
    /// The requirement is a tag, not a range of versions.
    Tag,
}

/// Is the version allowed by this requirement?
pub fn allowance_by(requirement: &VersionReq, version: &Version) -> Allowance
    ensures { result ≡ allowance_of requirement.now.inner version.now }
{
    match requirement.tag() {
        Some(_) => Allowance::Tag,
        None if requirement.matches(version) => Allowance::Yes,
        None => Allowance::No,
    }
}

/// Does this range allow the version, by npm's grammar?
///
/// Exactly where the comparators of the text mean the version; a tag is returned as one. Fails where npm's grammar rejects the
/// text, or out of memory.
pub fn allowed_by_npm(
    alloc: Global,
    text: &str,
    version: &Version,
) -> Result<Allowance, NpmVersionReqParseError>
    ensures answers { IsAllowance (λ e. e.source) Npm text.now version.now result }
    ensures rejection { IfErr result (λ e. IsCutRejection Npm (trim text.now) e.source) }
{
    let requirement = VersionReq::parse_from_npm(alloc, text)?;
    Ok(allowance_by(&requirement, version))
}
