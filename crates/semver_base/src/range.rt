//! Version ranges: which versions their bounds include, which they match, and how they are formatted (`display`).

ghost use Rattle.std.specs.Prelude.{◌≡◌, ◌∷◌, ◌⊎◌, [], IfOk};
ghost use Rattle.std.specs.Bool.{OnFalse, OnTrue};
ghost use Rattle.std.specs.List.{list_any};
ghost use Rattle.semver_base.specs.Clamp.{clamped, clamped_end, clamped_start, stopped_at, AdmitsBoth, HaveCrossed, HoldsBoth, HoldsNothing, MatchesBoth, MeansBoth};
ghost use Rattle.semver_base.specs.Meaning.{alternative_means, alternative_means_with, alternatives, bounds_hold, end_holds, everything, has_pre_of, is_unrestricted, nothing, start_holds, tree_means, tree_means_with};
ghost use Rattle.semver_base.specs.Overlap.{ends_at_zero, overlap, some_overlap, starts_before, HoldNothingTogether, HoldsNoRelease, MatchNothingTogether};
ghost use Rattle.semver_base.specs.declared.range.PreRelease.TheVariants.{Restricted};

mod display;
mod intervals;
mod lowest;
pub mod scans;

use crate::string::{CowItem, CowVec};
use crate::version::Version;
use std::alloc::{AllocError, Global};
use std::cmp::Ordering;

/// Whether a bound includes its own version.
#[derive(Clone, Copy, Debug, PartialEq, Eq, Hash)]
pub enum VersionBoundKind {
    /// The bound includes its version.
    Inclusive,
    /// The bound excludes its version.
    Exclusive,
}

/// Which pre-releases match, of those between the bounds.
#[derive(Clone, Copy, Debug, PartialEq, Eq)]
pub enum PreRelease {
    /// Those whose three numbers are those of some pre-release bound (node-semver's rule).
    Restricted,
    /// All of them (node-semver's `includePrerelease`, but with the bounds unchanged).
    Admitted,
}

impl PreRelease {
    // Whether the version matches wherever the bounds include it: a release does, and any version if all are admitted.
    #[inline(always)]
    fn is_unrestricted(self, version: &Version) -> bool
        ensures { result ≡ is_unrestricted self version.now }
    {
        match self {
            PreRelease::Restricted => version.pre.is_empty(),
            PreRelease::Admitted => true,
        }
    }
}

/// A version at which a range starts or ends.
#[derive(Debug, PartialEq, Eq, Hash, Drop)]
pub struct VersionBound {
    pub kind: VersionBoundKind,
    pub version: Version,
}

impl VersionBound {
    /// Creates a bound.
    pub fn new(kind: VersionBoundKind, version: Version) -> VersionBound
        ensures { result ≡ record { kind = kind; version = version } }
    {
        VersionBound { kind, version }
    }

    /// Returns a copy. Fails only out of memory.
    pub fn copy(&self) -> Result<VersionBound, AllocError>
        ensures { IfOk result (λ bound. bound ≡ self.now) }
    {
        Ok(VersionBound::new(self.kind, self.version.copy()?))
    }
}

/// The start or the end of a range, which may be absent.
#[derive(Debug, PartialEq, Eq, Hash, Drop)]
pub enum RangeBound {
    Version(VersionBound),
    /// An absent bound, which includes every version.
    Unbounded,
}

/// The versions between two bounds, with npm's rule about pre-releases.
#[derive(Debug, PartialEq, Eq, Hash, Drop)]
pub struct VersionRange {
    pub start: RangeBound,
    pub end: RangeBound,
}

/// Alternative ranges: a version need match only one.
#[derive(Debug, PartialEq, Eq, Hash, Drop)]
pub struct VersionRangeSet(pub CowVec<VersionRange>);

impl RangeBound {
    /// Creates a bound that includes `version`.
    pub fn inclusive(version: Version) -> RangeBound
        ensures { result ≡ RangeBound.Version
            (record { kind = VersionBoundKind.Inclusive; version = version }) }
    {
        RangeBound::version(VersionBoundKind::Inclusive, version)
    }

    /// Creates a bound that excludes `version`.
    pub fn exclusive(version: Version) -> RangeBound
        ensures { result ≡ RangeBound.Version
            (record { kind = VersionBoundKind.Exclusive; version = version }) }
    {
        RangeBound::version(VersionBoundKind::Exclusive, version)
    }

    /// Creates a bound at `version` of this kind.
    pub fn version(kind: VersionBoundKind, version: Version) -> RangeBound
        ensures { result ≡ RangeBound.Version (record { kind = kind; version = version }) }
    {
        RangeBound::Version(VersionBound::new(kind, version))
    }

    // Whether this start includes the version.
    #[inline(always)]
    fn holds_as_start(&self, version: &Version) -> bool
        ensures { result ≡ start_holds self.now version.now }
    {
        match self {
            RangeBound::Unbounded => true,
            RangeBound::Version(bound) => {
                if let Some(is_above) = version.is_above_by_numbers(&bound.version) {
                    return is_above;
                }
                let ordering = version.cmp_precedence(&bound.version);
                match bound.kind {
                    VersionBoundKind::Inclusive => ordering.is_ge(),
                    VersionBoundKind::Exclusive => ordering.is_gt(),
                }
            }
        }
    }

    // Whether this end includes the version.
    #[inline(always)]
    fn holds_as_end(&self, version: &Version) -> bool
        ensures { result ≡ end_holds self.now version.now }
    {
        match self {
            RangeBound::Unbounded => true,
            RangeBound::Version(bound) => {
                if let Some(is_above) = version.is_above_by_numbers(&bound.version) {
                    return !is_above;
                }
                let ordering = version.cmp_precedence(&bound.version);
                match bound.kind {
                    VersionBoundKind::Inclusive => ordering.is_le(),
                    VersionBoundKind::Exclusive => ordering.is_lt(),
                }
            }
        }
    }

    /// Whether this bound is a pre-release of the version's three numbers, and so admits pre-releases of them.
    #[inline(always)]
    pub fn has_pre_with_exact_major_minor_patch(&self, version: &Version) -> bool
        ensures { result ≡ has_pre_of self.now version.now }
    {
        match self {
            RangeBound::Unbounded => false,
            RangeBound::Version(bound) => {
                !bound.version.pre.is_empty()
                    && bound.version.major == version.major
                    && bound.version.minor == version.minor
                    && bound.version.patch == version.patch
            }
        }
    }

    /// Returns a copy. Fails only out of memory.
    pub fn copy(&self) -> Result<RangeBound, AllocError>
        ensures { IfOk result (λ bound. bound ≡ self.now) }
    {
        match self {
            RangeBound::Unbounded => Ok(RangeBound::Unbounded),
            RangeBound::Version(bound) => Ok(RangeBound::Version(bound.copy()?)),
        }
    }

    /// The start of the intersection of two ranges with these starts: the higher by precedence, and of two that tie this one
    /// if it is exclusive and otherwise the other. If one is absent, it is the other.
    ///
    /// Fails only out of memory.
    pub fn clamp_start(&self, _alloc: Global, other: &RangeBound) -> Result<RangeBound, AllocError>
        ensures { IfOk result (λ bound. bound ≡ clamped_start self.now other.now) }
    {
        if self.is_clamped_start(other) {
            return self.copy();
        }
        other.copy()
    }

    /// The end of the intersection of two ranges with these ends: the lower by precedence, and of two that tie this one if it
    /// is exclusive and otherwise the other. If one is absent, it is the other.
    ///
    /// Fails only out of memory.
    pub fn clamp_end(&self, _alloc: Global, other: &RangeBound) -> Result<RangeBound, AllocError>
        ensures { IfOk result (λ bound. bound ≡ clamped_end self.now other.now) }
    {
        if self.is_clamped_end(other) {
            return self.copy();
        }
        other.copy()
    }

    // Stops this start at the end: unchanged if it lies below the end. One past the end becomes exclusive at it, so that
    // nothing is included, and an inclusive one at the end becomes the end.
    fn stopped_at(&self, end: &RangeBound) -> Result<RangeBound, AllocError>
        ensures { IfOk result (λ bound. bound ≡ stopped_at self.now end.now) }
    {
        match (self, end) {
            (RangeBound::Version(start), RangeBound::Version(stop)) => {
                match start.version.cmp_precedence(&stop.version) {
                    Ordering::Less => self.copy(),
                    Ordering::Equal => match start.kind {
                        VersionBoundKind::Exclusive => self.copy(),
                        VersionBoundKind::Inclusive => end.copy(),
                    },
                    Ordering::Greater => Ok(RangeBound::exclusive(stop.version.copy()?)),
                }
            }
            (_, _) => self.copy(),
        }
    }

    // Whether the higher of two starts is this one, rather than the other; of two that tie, whether this one is exclusive.
    #[inline(always)]
    fn is_clamped_start(&self, other: &RangeBound) -> bool
        ensures own { OnTrue result (clamped_start self.now other.now ≡ self.now) }
        ensures others { OnFalse result (clamped_start self.now other.now ≡ other.now) }
    {
        match (self, other) {
            (RangeBound::Unbounded, _) => false,
            (RangeBound::Version(_), RangeBound::Unbounded) => true,
            (RangeBound::Version(own), RangeBound::Version(others)) => {
                match own.version.cmp_precedence(&others.version) {
                    Ordering::Less => false,
                    Ordering::Equal => match own.kind {
                        VersionBoundKind::Exclusive => true,
                        VersionBoundKind::Inclusive => false,
                    },
                    Ordering::Greater => true,
                }
            }
        }
    }

    // Whether the lower of two ends is this one, rather than the other; of two that tie, whether this one is exclusive.
    #[inline(always)]
    fn is_clamped_end(&self, other: &RangeBound) -> bool
        ensures own { OnTrue result (clamped_end self.now other.now ≡ self.now) }
        ensures others { OnFalse result (clamped_end self.now other.now ≡ other.now) }
    {
        match (self, other) {
            (RangeBound::Unbounded, _) => false,
            (RangeBound::Version(_), RangeBound::Unbounded) => true,
            (RangeBound::Version(own), RangeBound::Version(others)) => {
                match own.version.cmp_precedence(&others.version) {
                    Ordering::Less => true,
                    Ordering::Equal => match own.kind {
                        VersionBoundKind::Exclusive => true,
                        VersionBoundKind::Inclusive => false,
                    },
                    Ordering::Greater => false,
                }
            }
        }
    }

    // Whether this start lies below the end, so that stopping it leaves it unchanged.
    #[inline(always)]
    fn is_unstopped(&self, end: &RangeBound) -> bool
        ensures { OnTrue result (stopped_at self.now end.now ≡ self.now) }
    {
        match (self, end) {
            (RangeBound::Version(start), RangeBound::Version(stop)) => {
                start.version.cmp_precedence(&stop.version) == Ordering::Less
            }
            (_, _) => true,
        }
    }

    // Whether this start lies below the end, or at it with both inclusive.
    #[inline(always)]
    fn starts_before(&self, end: &RangeBound) -> bool
        ensures { result ≡ starts_before self.now end.now }
    {
        match (self, end) {
            (RangeBound::Version(start), RangeBound::Version(stop)) => {
                if let Some(is_above) = start.version.is_above_by_numbers(&stop.version) {
                    return !is_above;
                }
                let ordering = start.version.cmp_precedence(&stop.version);
                match (start.kind, stop.kind) {
                    (VersionBoundKind::Inclusive, VersionBoundKind::Inclusive) => ordering.is_le(),
                    (_, _) => ordering.is_lt(),
                }
            }
            (_, _) => true,
        }
    }
}

impl VersionRange {
    /// The range without bounds, which every release matches.
    pub fn all() -> VersionRange
        ensures { result ≡ everything }
    {
        VersionRange {
            start: RangeBound::Unbounded,
            end: RangeBound::Unbounded,
        }
    }

    /// A range that matches nothing: from 0.0.0 to below 0.0.0.
    pub fn none(alloc: Global) -> VersionRange
        ensures { result ≡ nothing }
    {
        VersionRange {
            start: RangeBound::inclusive(Version::new(alloc)),
            end: RangeBound::exclusive(Version::new(alloc)),
        }
    }

    /// Whether the version matches: it lies between both bounds and, unless pre-releases are admitted, it is a release or one
    /// of the two bounds is a pre-release of its three numbers (node-semver's rule about pre-releases).
    #[inline(always)]
    pub fn satisfies_with(&self, version: &Version, pre_release: PreRelease) -> bool
        ensures { result ≡ alternative_means_with pre_release (self.now ∷ []) version.now }
    {
        (self.start.holds_as_start(version) & self.end.holds_as_end(version))
            && (pre_release.is_unrestricted(version)
                || self.start.has_pre_with_exact_major_minor_patch(version)
                || self.end.has_pre_with_exact_major_minor_patch(version))
    }

    /// Whether the version matches: it lies between both bounds, and it is a release or one of the two bounds is a
    /// pre-release of its three numbers (node-semver's rule about pre-releases). Same as [`VersionRange::satisfies_with`]
    /// with [`PreRelease::Restricted`].
    #[inline(always)]
    pub fn satisfies(&self, version: &Version) -> bool
        ensures value { result ≡ alternative_means (self.now ∷ []) version.now }
        ensures restricted { result
            ≡ alternative_means_with Restricted (self.now ∷ []) version.now }
    {
        self.satisfies_with(version, PreRelease::Restricted)
    }

    /// Returns a copy. Fails only out of memory.
    pub fn copy(&self) -> Result<VersionRange, AllocError>
        ensures { IfOk result (λ range. range ≡ self.now) }
    {
        Ok(VersionRange {
            start: self.start.copy()?,
            end: self.end.copy()?,
        })
    }

    /// Intersects two ranges: the higher start and the lower end.
    ///
    /// A start past the end becomes an exclusive start at the end's version: such a range includes nothing, nor does any
    /// range that it is clamped to. An inclusive start at the end becomes a copy of the end. A pre-release matches if the
    /// bounds of both ranges include it and one of the four bounds is a pre-release of its three numbers, as if both stood
    /// side by side (node-semver, "Prerelease Tags"). If pre-releases are admitted, a version matches if it matches both
    /// ranges.
    ///
    /// Fails only out of memory.
    pub fn clamp(&self, alloc: Global, other: &VersionRange) -> Result<VersionRange, AllocError>
        ensures value { IfOk result (λ range. range ≡ clamped self.now other.now) }
        ensures bounds { IfOk result (HoldsBoth self.now other.now) }
        ensures means { IfOk result (MeansBoth self.now other.now) }
        ensures admits { IfOk result (AdmitsBoth self.now other.now) }
        ensures releases { IfOk result (MatchesBoth self.now other.now) }
        ensures crossed { IfOk result
            (λ range. HaveCrossed self.now other.now → HoldsNothing range) }
        ensures stays_empty { IfOk result (λ range. HoldsNothing self.now ⊎ HoldsNothing other.now
            → HoldsNothing range) }
    {
        let start = self.start.clamp_start(alloc, &other.start)?;
        let end = self.end.clamp_end(alloc, &other.end)?;
        let start = start.stopped_at(&end)?;
        Ok(VersionRange { start, end })
    }

    /// Like [`VersionRange::clamp`], but takes over the bounds of both ranges. Allocates only for a start past the end. The
    /// law `clamped_ranges_mean_both` says what the result means.
    #[inline(always)]
    pub fn clamp_into(self, other: VersionRange) -> Result<VersionRange, AllocError>
        ensures value { IfOk result (λ range. range ≡ clamped self other) }
    {
        let VersionRange { start, end } = self;
        let VersionRange {
            start: others_start,
            end: others_end,
        } = other;
        let start = if start.is_clamped_start(&others_start) {
            start
        } else {
            others_start
        };
        let end = if end.is_clamped_end(&others_end) {
            end
        } else {
            others_end
        };
        if start.is_unstopped(&end) {
            return Ok(VersionRange { start, end });
        }
        let start = start.stopped_at(&end)?;
        Ok(VersionRange { start, end })
    }

    /// Stops the start at the end, as [`VersionRange::clamp_into`] of the range without bounds and this one does.
    #[inline(always)]
    pub fn into_stopped(self) -> Result<VersionRange, AllocError>
        ensures { IfOk result (λ range. range ≡ clamped everything self) }
    {
        if self.start.is_unstopped(&self.end) {
            return Ok(self);
        }
        let VersionRange { start, end } = self;
        let start = start.stopped_at(&end)?;
        Ok(VersionRange { start, end })
    }

    /// Whether the end is exclusive and at 0.0.0, whatever its pre-release, so that no release matches. The end of
    /// [`VersionRange::none`] is one.
    #[tactic(auto, using(crate::specs::OverlapLaws::ends_no_release))]
    pub fn is_none(&self) -> bool
        ensures value { result ≡ ends_at_zero self.now.end }
        ensures no_release { OnTrue result (HoldsNoRelease self.now) }
    {
        match &self.end {
            RangeBound::Unbounded => false,
            RangeBound::Version(end) => {
                end.kind == VersionBoundKind::Exclusive
                    && end.version.major == 0
                    && end.version.minor == 0
                    && end.version.patch == 0
            }
        }
    }

    /// Whether the version, a pre-release or not, lies between both bounds.
    pub fn intersects_version(&self, version: &Version) -> bool
        ensures { result ≡ bounds_hold self.now version.now }
    {
        self.start.holds_as_start(version) && self.end.holds_as_end(version)
    }

    /// Whether the two ranges overlap: each start lies below the other's end, or at it with both bounds inclusive. An absent
    /// bound is infinite.
    ///
    /// Only those pairs of bounds are compared, so a range whose start is above its own end can overlap another. If the
    /// ranges don't overlap, no version lies between the bounds of both.
    #[tactic(auto, using(crate::proofs::OverlapLemmas::range_no_common))]
    #[inline(always)]
    pub fn intersects_range(&self, other: &VersionRange) -> bool
        ensures value { result ≡ overlap self.now other.now }
        ensures symmetric { result ≡ overlap other.now self.now }
        ensures no_common { OnFalse result (HoldNothingTogether self.now other.now) }
    {
        self.start.starts_before(&other.end) & other.start.starts_before(&self.end)
    }
}

impl CowItem for VersionRange {
    fn copy(&self) -> Result<VersionRange, AllocError> {
        VersionRange::copy(self)
    }
}

impl VersionRangeSet {
    // Whether some range alone matches the version.
    #[inline(never)]
    fn has_match(&self, version: &Version, pre_release: PreRelease) -> bool
        ensures { result ≡ list_any
            (λ range. alternative_means_with pre_release (range ∷ []) version.now) self.now.0 }
    {
        self.0
            .iter()
            .any(|range| range.satisfies_with(version, pre_release))
    }

    /// Whether the version matches some range, as in [`VersionRange::satisfies_with`].
    #[inline(always)]
    pub fn satisfies_with(&self, version: &Version, pre_release: PreRelease) -> bool
        ensures { result ≡ tree_means_with pre_release (alternatives self.now.0) version.now }
    {
        // Usually there is one range and the numbers decide; then nothing is called.
        if let Some(range) = self.0.only()
            && let Some(is_above) = match &range.start {
                RangeBound::Unbounded => Some(true),
                RangeBound::Version(start) => version.is_above_by_numbers(&start.version),
            }
            && let Some(is_past) = match &range.end {
                RangeBound::Unbounded => Some(false),
                RangeBound::Version(end) => version.is_above_by_numbers(&end.version),
            }
        {
            if !is_above | is_past {
                return false;
            }
            if pre_release.is_unrestricted(version) {
                return true;
            }
        }
        self.has_match(version, pre_release)
    }

    /// Whether the version matches some range. Same as [`VersionRangeSet::satisfies_with`] with [`PreRelease::Restricted`].
    #[inline(always)]
    pub fn satisfies(&self, version: &Version) -> bool
        ensures value { result ≡ tree_means (alternatives self.now.0) version.now }
        ensures restricted { result
            ≡ tree_means_with Restricted (alternatives self.now.0) version.now }
    {
        self.satisfies_with(version, PreRelease::Restricted)
    }

    /// Returns a copy. Fails only out of memory.
    pub fn copy(&self) -> Result<VersionRangeSet, AllocError>
        ensures { IfOk result (λ set. set ≡ self.now) }
    {
        Ok(VersionRangeSet(self.0.copy()?))
    }

    // Whether some range overlaps some range of the other set.
    #[inline(never)]
    fn some_overlap(&self, other: &VersionRangeSet) -> bool
        ensures { result ≡ some_overlap self.now.0 other.now.0 }
    {
        for range in self.0.as_slice() {
            if other.0.iter().any(|own| range.intersects_range(own)) {
                return true;
            }
        }
        false
    }

    /// Whether some range of one set overlaps some range of the other. If none does, no version matches both sets.
    #[tactic(auto, using(crate::proofs::OverlapLemmas::set_no_common, crate::proofs::OverlapLemmas::some_overlap_swap))]
    pub fn intersects_set(&self, other: &VersionRangeSet) -> bool
        ensures value { result ≡ some_overlap self.now.0 other.now.0 }
        ensures symmetric { result ≡ some_overlap other.now.0 self.now.0 }
        ensures no_common { OnFalse result (MatchNothingTogether self.now.0 other.now.0) }
    {
        // Usually both sets have one range.
        if let Some(range) = self.0.only()
            && let Some(own) = other.0.only()
        {
            return range.intersects_range(own);
        }
        self.some_overlap(other)
    }
}
