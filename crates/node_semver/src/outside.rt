//! Whether a version lies above or below all that a range matches, as node-semver's `outside` has it.

ghost use Rattle.std.specs.Prelude.{◌≡◌, ◌↔◌, IfOk, IsTrue, map};
ghost use Rattle.semver_base.specs.Clamp.{clamped};
ghost use Rattle.semver_base.specs.Containment.{IsWithin, ReportsWithin};
ghost use Rattle.semver_base.specs.Meaning.{bounds_hold, set_means_with};
ghost use Rattle.semver_base.specs.NormalText.{AreWritableRanges, IsWritableRange};
ghost use Rattle.semver_base.specs.VersionText.{IsWritable};
ghost use Rattle.node_semver.specs.Outside.{lies};

use semver_base::laws::clamped_ranges_mean_both;
use semver_base::range::{PreRelease, RangeBound, VersionRange, VersionRangeSet};
use semver_base::string::CowVec;
use semver_base::version::Version;
use std::alloc::{AllocError, Global};

// Intersects each range of the set with this one.
fn clamped(
    alloc: Global,
    set: &VersionRangeSet,
    range: &VersionRange,
) -> Result<VersionRangeSet, AllocError>
    ensures { IfOk result
        (λ inside. inside.0 ≡ map (λ own. clamped own range.now) set.now.0) }
{
    let mut inside = CowVec::new(alloc);
    for own in set.0.iter().as_slice() {
        inside.push(own.clamp(alloc, range)?)?;
    }
    Ok(VersionRangeSet(inside))
}

// Whether the bounds of the range include each version that the set matches.
fn lies_within(
    alloc: Global,
    set: &VersionRangeSet,
    range: &VersionRange,
    pre_release: PreRelease,
) -> Result<bool, AllocError>
    ensures value { IfOk result
        (ReportsWithin (set_means_with pre_release set.now.0) (bounds_hold range.now)) }
    ensures exact { IfOk result
        (λ reported. AreWritableRanges set.now.0 → IsWritableRange range.now
        → (IsTrue reported ↔ IsWithin (set_means_with pre_release set.now.0) (bounds_hold range.now))) }
{
    clamped_ranges_mean_both();
    let inside = clamped(alloc, set, range)?;
    set.is_subset(alloc, &inside, pre_release)
}

/// A side on which a version may lie of all that a set of ranges matches.
#[derive(Clone, Copy, Debug, PartialEq, Eq)]
pub enum Side {
    /// Above each version that the set matches (node-semver's `gtr`).
    Above,
    /// Below each of them (node-semver's `ltr`).
    Below,
}

/// Whether the version lies on this side of each version that the set matches (node-semver's `outside`, here exactly by what
/// the set matches), with pre-releases restricted or admitted throughout. If the set matches nothing, it lies on both sides.
///
/// True says so of every version that a text parses to. False says that the set matches some version on the other side, or
/// one that ties; if the texts of all bounds and of the version parse back, so does that version's, and the result is exact.
///
/// Fails only out of memory.
pub fn is_outside(
    alloc: Global,
    version: &Version,
    side: Side,
    set: &VersionRangeSet,
    pre_release: PreRelease,
) -> Result<bool, AllocError>
    ensures value { IfOk result
        (ReportsWithin (set_means_with pre_release set.now.0) (lies side version.now)) }
    ensures exact { IfOk result
        (λ reported. AreWritableRanges set.now.0 → IsWritable version.now
        → (IsTrue reported ↔ IsWithin (set_means_with pre_release set.now.0) (lies side version.now))) }
{
    let bound = RangeBound::exclusive(version.copy()?);
    let range = match side {
        Side::Above => VersionRange {
            start: RangeBound::Unbounded,
            end: bound,
        },
        Side::Below => VersionRange {
            start: bound,
            end: RangeBound::Unbounded,
        },
    };
    lies_within(alloc, set, &range, pre_release)
}
