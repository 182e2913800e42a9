//! The ranges in which a list of versions matches, as node-semver's `simplifyRange` has them.

ghost use Rattle.std.specs.Prelude.{◌≡◌, IfOk};
ghost use Rattle.std.specs.List.{slice_get};
ghost use Rattle.semver_base.specs.Meaning.{set_means_with};
ghost use Rattle.node_semver.specs.Simplify.{bound_at, range_of, ranges_of};

use semver_base::range::{PreRelease, RangeBound, VersionRange, VersionRangeSet};
use semver_base::string::CowVec;
use semver_base::version::{Version, release};
use std::alloc::{AllocError, Global};

// The bound that includes the version at a place of a list, whose build doesn't matter.
fn bound_at(alloc: Global, versions: &[Version], place: usize) -> Result<RangeBound, AllocError>
    ensures { IfOk result (λ bound. bound ≡ bound_at (slice_get versions.now place)) }
{
    match versions.get(place) {
        Some(version) => {
            let pre = version.pre.copy()?;
            let numbers = release(alloc, version.major, version.minor, version.patch);
            Ok(RangeBound::inclusive(Version { pre, ..numbers }))
        }
        None => Ok(RangeBound::Unbounded),
    }
}

// The range of the versions from a place on and before another.
fn range_of(
    alloc: Global,
    versions: &[Version],
    from: usize,
    behind: usize,
) -> Result<VersionRange, AllocError>
    ensures { IfOk result (λ range. range ≡ range_of versions.now (from, behind)) }
{
    let start = if from == 0 {
        RangeBound::Unbounded
    } else {
        bound_at(alloc, versions, from)?
    };
    let end = if behind == versions.len() {
        RangeBound::Unbounded
    } else {
        bound_at(alloc, versions, behind.saturating_sub(1))?
    };
    Ok(VersionRange { start, end })
}

/// Returns the ranges in which ascending versions match a set: each stretch of neighbours that match is one range, from the
/// first of them to the last. It has no start if the list begins with it, and no end if the list ends with it.
///
/// Fails only out of memory.
pub fn ranges_of(
    alloc: Global,
    set: &VersionRangeSet,
    versions: &[Version],
    pre_release: PreRelease,
) -> Result<VersionRangeSet, AllocError>
    ensures { IfOk result (λ ranges.
        ranges.0 ≡ ranges_of (set_means_with pre_release set.now.0) versions.now) }
{
    let mut ranges = CowVec::new(alloc);
    let mut begun = None;
    for (place, version) in versions.iter().enumerate() {
        let matches = set.satisfies_with(version, pre_release);
        match begun {
            None if matches => begun = Some(place),
            Some(from) if !matches => {
                ranges.push(range_of(alloc, versions, from, place)?)?;
                begun = None;
            }
            _ => {}
        }
    }
    if let Some(from) = begun {
        ranges.push(range_of(alloc, versions, from, versions.len())?)?;
    }
    Ok(VersionRangeSet(ranges))
}
