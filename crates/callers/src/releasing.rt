//! What does a tool that publishes versions ask: which one comes next, which does a tag of a repository hold, and is one ahead
//! of all that a requirement matches?

ghost use Rattle.std.specs.Prelude.{◌≡◌, IfOk, IsTrue, false};
ghost use Rattle.std.specs.declared.cmp.Ordering.TheVariants.{Greater};
ghost use Rattle.semver_base.specs.LowestVersion.{IsReadable};
ghost use Rattle.semver_base.specs.Meaning.{set_means_with};
ghost use Rattle.semver_base.specs.Precedence.{precedence_cmp};
ghost use Rattle.semver_base.specs.VersionText.{ReadsBack};
ghost use Rattle.callers.specs.Releasing.{AllowsHeld};

use crate::requirements::{Allowance, allowance_by};
use deno_semver::{PreRelease, Version, VersionRangeSet, VersionReq};
use node_semver::coerce::{Direction, Parts, coerce};
use node_semver::increment::{Base, IncrementError, increment};
use node_semver::laws::{increments_are_above, increments_read_back};
use node_semver::outside::{Side, is_outside};
use node_semver::release_type::ReleaseType;
use semver_base::string::CowVec;
use std::alloc::{AllocError, Global};

/// Which version of this kind comes next? One above the version, whose text parses to it.
///
/// Fails as `increment` does.
pub fn published_next(
    alloc: Global,
    version: &Version,
    kind: ReleaseType,
) -> Result<Version, IncrementError>
    ensures above { IfOk result (λ next. precedence_cmp next version.now ≡ Greater) }
    ensures reads_back { IsReadable version.now → IfOk result ReadsBack }
{
    increments_are_above();
    increments_read_back();
    let no_identifiers = CowVec::new(alloc);
    increment(alloc, version, kind, &no_identifiers, Base::Zero)
}

/// Is the version above all that the set matches? If so, the set doesn't match it.
///
/// Fails only out of memory.
pub fn is_ahead(
    alloc: Global,
    version: &Version,
    set: &VersionRangeSet,
    pre_release: PreRelease,
) -> Result<bool, AllocError>
    requires { IsReadable version.now }
    ensures { IfOk result (λ is_ahead. IsTrue is_ahead
        → set_means_with pre_release set.now.0 version.now ≡ false) }
{
    is_outside(alloc, version, Side::Above, set, pre_release)
}

/// Does the requirement allow the version that a tag of a repository holds, such as `release-v1.2`? None if it holds none.
///
/// Fails only out of memory.
pub fn allows_held(
    alloc: Global,
    requirement: &VersionReq,
    tag: &str,
) -> Result<Option<Allowance>, AllocError>
    ensures { IfOk result (AllowsHeld requirement.now.inner tag.now) }
{
    let found = coerce(alloc, tag, Direction::LeftToRight, Parts::All)?;
    match found {
        Some(version) => Ok(Some(allowance_by(requirement, &version))),
        None => Ok(None),
    }
}
