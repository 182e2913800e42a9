//! The ranges of one to three numbers, as for a partial version with no qualifier.
//!
//! A range is first computed as numbers, which are cheap to move, and built where it stays.

ghost use Rattle.std.specs.Prelude.{◌≡◌, ◌+◌, ◌∷◌, [], IfNone, IfOk, IfSome, Some, false, true};
ghost use Rattle.std.specs.declared.cmp.Ordering.TheVariants.{Less};
ghost use Rattle.semver_base.specs.Meaning.{from, release};
ghost use Rattle.semver_base.specs.PartialTable.{IsLineRange, all_fit, between, caret, equal, greater_than, less_than, lower_to_below, lowest, of_short, qualified_range, qualified_start, release_bound, release_of, release_range, tilde, upper};
ghost use Rattle.semver_base.specs.Precedence.{precedence_cmp};
ghost use Rattle.semver_base.specs.declared.range.RangeBound.TheVariants.{Unbounded};

use crate::lexical::values::Qualifier;
use crate::range::{RangeBound, VersionBoundKind, VersionRange};
use crate::short::{Numbers, ShortNumbers};
use crate::version::{Version, release};
use std::alloc::{AllocError, Global};

/// A release at which a range starts or ends.
#[derive(Clone, Copy)]
pub struct ReleaseBound {
    pub kind: VersionBoundKind,
    pub numbers: Numbers,
}

/// A range from one release, to another or without an end.
#[derive(Clone, Copy)]
pub struct ReleaseRange {
    pub start: ReleaseBound,
    pub end: Option<ReleaseBound>,
}

impl ReleaseBound {
    /// Creates a bound that includes the release of these numbers.
    #[inline(always)]
    pub fn inclusive(numbers: Numbers) -> ReleaseBound
        ensures { result ≡ record { kind = VersionBoundKind.Inclusive; numbers = numbers } }
    {
        ReleaseBound {
            kind: VersionBoundKind::Inclusive,
            numbers,
        }
    }

    /// Creates a bound that excludes the release of these numbers.
    #[inline(always)]
    pub fn exclusive(numbers: Numbers) -> ReleaseBound
        ensures { result ≡ record { kind = VersionBoundKind.Exclusive; numbers = numbers } }
    {
        ReleaseBound {
            kind: VersionBoundKind::Exclusive,
            numbers,
        }
    }

    // Builds the bound.
    #[inline(always)]
    fn into_bound(self, alloc: Global) -> RangeBound
        ensures { result ≡ release_bound self }
    {
        let numbers = self.numbers;
        let version = release(alloc, numbers.major, numbers.minor, numbers.patch);
        RangeBound::version(self.kind, version)
    }

    // Builds the bound, at the version with this qualifier.
    #[inline(always)]
    fn with_qualifier(self, qualifier: Qualifier) -> RangeBound
        ensures { result ≡ qualified_start qualifier (release_bound self) }
    {
        let version = Version {
            major: self.numbers.major,
            minor: self.numbers.minor,
            patch: self.numbers.patch,
            pre: qualifier.pre,
            build: qualifier.build,
        };
        RangeBound::version(self.kind, version)
    }
}

impl ReleaseRange {
    /// The range between two bounds, if the start is below the end; else `None`.
    #[inline(always)]
    pub fn between(start: ReleaseBound, end: ReleaseBound) -> Option<ReleaseRange>
        ensures range { IfSome result (λ range. (range ≡ record { start = start; end = Some end })
            × (precedence_cmp (release_of start.numbers) (release_of end.numbers) ≡ Less)) }
        ensures crossed { IfNone result
            (precedence_cmp (release_of start.numbers) (release_of end.numbers) ≡ Less → ⊥) }
    {
        let (first, last) = (start.numbers, end.numbers);
        let is_below = if first.major != last.major {
            first.major < last.major
        } else if first.minor != last.minor {
            first.minor < last.minor
        } else {
            first.patch < last.patch
        };
        if !is_below {
            return None;
        }
        Some(ReleaseRange {
            start,
            end: Some(end),
        })
    }

    /// Builds the range.
    #[inline(always)]
    pub fn into_range(self, alloc: Global) -> VersionRange
        ensures { result ≡ release_range self }
    {
        let end = match self.end {
            Some(end) => end.into_bound(alloc),
            None => RangeBound::Unbounded,
        };
        VersionRange {
            start: self.start.into_bound(alloc),
            end,
        }
    }

    /// Builds the range of `~`, `^` or nothing before three numbers and this qualifier, if this is the range without the qualifier.
    /// Fails only out of memory.
    #[inline(always)]
    pub fn with_qualifier(
        self,
        alloc: Global,
        qualifier: Qualifier,
    ) -> Result<VersionRange, AllocError>
        ensures { IfOk result (λ range. range ≡ qualified_range qualifier (release_range self)) }
    {
        let end = match self.end {
            Some(end) => match end.kind {
                VersionBoundKind::Inclusive => end.with_qualifier(qualifier.copy()?),
                VersionBoundKind::Exclusive => end.into_bound(alloc),
            },
            None => RangeBound::Unbounded,
        };
        Ok(VersionRange {
            start: self.start.with_qualifier(qualifier),
            end,
        })
    }
}

impl ShortNumbers {
    /// The three numbers, with missing ones as 0.
    #[inline(always)]
    pub fn lowest(self) -> Numbers
        ensures { release_of result ≡ lowest (of_short self) }
    {
        match self {
            ShortNumbers::One(major) => Numbers {
                major,
                minor: 0,
                patch: 0,
            },
            ShortNumbers::Two(major, minor) => Numbers {
                major,
                minor,
                patch: 0,
            },
            ShortNumbers::Three(numbers) => numbers,
        }
    }

    // The range from these numbers to below others.
    #[inline(always)]
    fn to_below(self, major: u64, minor: u64, patch: u64) -> ReleaseRange
        ensures { release_range result
            ≡ (lower_to_below (of_short self) (release major minor patch) []).range }
    {
        let end = Numbers {
            major,
            minor,
            patch,
        };
        ReleaseRange {
            start: ReleaseBound::inclusive(self.lowest()),
            end: Some(ReleaseBound::exclusive(end)),
        }
    }

    // The range from these numbers to below the next major version; `None` if its number is too large.
    #[inline(always)]
    fn to_next_major(self, major: u64) -> Option<ReleaseRange>
        ensures range { let end = release (major + 1) 0 0 in IfSome result (λ range.
            IsLineRange (lower_to_below (of_short self) end ((major + 1) ∷ [])) (release_range range)) }
        ensures too_large { IfNone result (all_fit ((major + 1) ∷ []) ≡ false) }
    {
        Some(self.to_below(major.checked_add(1)?, 0, 0))
    }

    // The range from these numbers to below the next minor version; `None` if its number is too large.
    #[inline(always)]
    fn to_next_minor(self, major: u64, minor: u64) -> Option<ReleaseRange>
        ensures range { let end = release major (minor + 1) 0 in IfSome result (λ range.
            IsLineRange (lower_to_below (of_short self) end ((minor + 1) ∷ [])) (release_range range)) }
        ensures too_large { IfNone result (all_fit ((minor + 1) ∷ []) ≡ false) }
    {
        Some(self.to_below(major, minor.checked_add(1)?, 0))
    }

    /// The range of `~` and these numbers, as for [`Partial::as_tilde_version_range`]; `None` exactly if a bound is too
    /// large.
    #[inline(always)]
    pub fn tilde_range(self) -> Option<ReleaseRange>
        ensures range { IfSome result
            (λ range. IsLineRange (tilde (of_short self)) (release_range range)) }
        ensures too_large { IfNone result (all_fit (tilde (of_short self)).sums ≡ false) }
    {
        match self {
            ShortNumbers::One(major) => self.to_next_major(major),
            ShortNumbers::Two(major, minor) => self.to_next_minor(major, minor),
            ShortNumbers::Three(numbers) => self.to_next_minor(numbers.major, numbers.minor),
        }
    }

    /// The range of `^` and these numbers, as for [`Partial::as_caret_version_range`]; `None` exactly if a bound is too
    /// large.
    #[inline(always)]
    pub fn caret_range(self) -> Option<ReleaseRange>
        ensures range { IfSome result
            (λ range. IsLineRange (caret (of_short self)) (release_range range)) }
        ensures too_large { IfNone result (all_fit (caret (of_short self)).sums ≡ false) }
    {
        match self {
            ShortNumbers::One(major) => self.to_next_major(major),
            ShortNumbers::Two(0, minor) => self.to_next_minor(0, minor),
            ShortNumbers::Two(major, _) => self.to_next_major(major),
            ShortNumbers::Three(n) if n.major > 0 => self.to_next_major(n.major),
            ShortNumbers::Three(n) if n.minor > 0 => self.to_next_minor(0, n.minor),
            ShortNumbers::Three(n) => Some(self.to_below(0, 0, n.patch.checked_add(1)?)),
        }
    }

    /// The range of these numbers alone, as for [`Partial::as_equal_range`]; `None` exactly if a bound is too large.
    #[inline(always)]
    pub fn equal_range(self) -> Option<ReleaseRange>
        ensures range { IfSome result
            (λ range. IsLineRange (equal (of_short self)) (release_range range)) }
        ensures too_large { IfNone result (all_fit (equal (of_short self)).sums ≡ false) }
    {
        match self {
            ShortNumbers::One(major) => self.to_next_major(major),
            ShortNumbers::Two(major, minor) => self.to_next_minor(major, minor),
            ShortNumbers::Three(numbers) => Some(ReleaseRange {
                start: ReleaseBound::inclusive(numbers),
                end: Some(ReleaseBound::inclusive(numbers)),
            }),
        }
    }

    /// The end at the highest version that these numbers name, as for [`Partial::as_upper_bound`](crate::partial::Partial);
    /// `None` exactly if it is too large.
    #[inline(always)]
    pub fn upper_bound(self) -> Option<ReleaseBound>
        ensures end { IfSome result (λ end. release_bound end ≡ (upper (of_short self)).end) }
        ensures fits { IfSome result (λ _. all_fit (upper (of_short self)).sums ≡ true) }
        ensures too_large { IfNone result (all_fit (upper (of_short self)).sums ≡ false) }
    {
        match self {
            ShortNumbers::One(major) => Some(ReleaseBound::exclusive(Numbers {
                major: major.checked_add(1)?,
                minor: 0,
                patch: 0,
            })),
            ShortNumbers::Two(major, minor) => Some(ReleaseBound::exclusive(Numbers {
                major,
                minor: minor.checked_add(1)?,
                patch: 0,
            })),
            ShortNumbers::Three(numbers) => Some(ReleaseBound::inclusive(numbers)),
        }
    }

    /// The start of the range of `>=` and these numbers if `kind` is inclusive, of `>` if it is exclusive; `None` exactly if it is
    /// too large.
    #[inline(always)]
    pub fn greater_than(self, kind: VersionBoundKind) -> Option<ReleaseBound>
        ensures range { IfSome result (λ start.
            IsLineRange (greater_than kind (of_short self)) (between (release_bound start) Unbounded)) }
        ensures too_large { IfNone result
            (all_fit (greater_than kind (of_short self)).sums ≡ false) }
    {
        match kind {
            VersionBoundKind::Inclusive => Some(ReleaseBound::inclusive(self.lowest())),
            VersionBoundKind::Exclusive => {
                let upper = self.upper_bound()?;
                match upper.kind {
                    VersionBoundKind::Inclusive => Some(ReleaseBound::exclusive(upper.numbers)),
                    VersionBoundKind::Exclusive => Some(ReleaseBound::inclusive(upper.numbers)),
                }
            }
        }
    }

    /// The end of the range of `<=` and these numbers if `kind` is inclusive, of `<` if it is exclusive; `None` exactly if it is
    /// too large.
    #[inline(always)]
    pub fn less_than(self, kind: VersionBoundKind) -> Option<ReleaseBound>
        ensures range { IfSome result (λ end. IsLineRange (less_than kind (of_short self))
            (between (from (release 0 0 0)) (release_bound end))) }
        ensures too_large { IfNone result (all_fit (less_than kind (of_short self)).sums ≡ false) }
    {
        match kind {
            VersionBoundKind::Inclusive => self.upper_bound(),
            VersionBoundKind::Exclusive => Some(ReleaseBound::exclusive(self.lowest())),
        }
    }
}
