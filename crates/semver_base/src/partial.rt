//! Partial versions, whose components may be wildcards, and the ranges they mean, also after a comparison operator.

ghost use Rattle.std.specs.Prelude.{◌≡◌, ◌+◌, ◌∷◌, [], IfOk, IfErr, None, OnOk, true};
ghost use Rattle.semver_base.specs.Meaning.{from, release};
ghost use Rattle.semver_base.specs.Comparators.{primitive_line};
ghost use Rattle.semver_base.specs.PartialTable.{IsBoundRejection, all_fit, caret, equal, greater_range, greater_than, less_than, lower_to_below, lowest, or_zero, version_with_pre, tilde, upper, without_build};

mod numbers;

use crate::failure::{ParseFailure, Rejection};
use crate::range::VersionBoundKind::{Exclusive, Inclusive};
use crate::range::{RangeBound, VersionBoundKind, VersionRange};
use crate::string::CowVec;
use crate::version::{Version, VersionPreOrBuild, release};
use XRange::{Val, Wildcard};
pub use numbers::{ReleaseBound, ReleaseRange};
use std::alloc::{AllocError, Global};

/// A component of a partial version.
#[derive(Clone, Copy, Debug, PartialEq, Eq)]
pub enum XRange {
    /// `x`, `X`, `*` or a missing component.
    Wildcard,
    /// A number.
    Val(u64),
}

/// A version whose components may be wildcards.
#[derive(Debug, Drop)]
pub struct Partial {
    pub major: XRange,
    pub minor: XRange,
    pub patch: XRange,
    pub pre: CowVec<VersionPreOrBuild>,
    pub build: CowVec<VersionPreOrBuild>,
}

// The component's number, or 0 for a wildcard.
#[inline(always)]
fn or_zero(component: XRange) -> u64
    ensures { result ≡ or_zero component }
{
    match component {
        Wildcard => 0,
        Val(number) => number,
    }
}

// The number plus one.
#[inline(always)]
fn raised(alloc: Global, number: u64) -> Result<u64, ParseFailure>
    ensures raised { IfOk result (λ n. n ≡ number + 1) }
    ensures fits { OnOk result (all_fit ((number + 1) ∷ []) ≡ true) }
    ensures rejected { IfErr result (IsBoundRejection ((number + 1) ∷ [])) }
{
    match number.checked_add(1) {
        Some(number) => Ok(number),
        None => Err(ParseFailure::of_rejection(alloc, Rejection::BoundTooLarge)),
    }
}

impl Partial {
    /// Returns a copy. Fails only out of memory.
    pub fn copy(&self) -> Result<Partial, AllocError>
        ensures { IfOk result (λ partial. partial ≡ self.now) }
    {
        Ok(Partial {
            major: self.major,
            minor: self.minor,
            patch: self.patch,
            pre: self.pre.copy()?,
            build: self.build.copy()?,
        })
    }

    // `M.m.p-pre+build`, with wildcards as 0.
    #[inline(always)]
    fn lowest(&self) -> Result<Version, AllocError>
        ensures { IfOk result (λ version. version ≡ lowest self.now) }
    {
        Ok(Version {
            major: or_zero(self.major),
            minor: or_zero(self.minor),
            patch: or_zero(self.patch),
            pre: self.pre.copy()?,
            build: self.build.copy()?,
        })
    }

    /// The inclusive start at the lowest version of the partial, with wildcards as 0.
    ///
    /// Fails only out of memory.
    #[inline(always)]
    pub fn as_lower_bound(&self, _alloc: Global) -> Result<RangeBound, ParseFailure>
        ensures bound { IfOk result (λ bound. bound ≡ from (lowest self.now)) }
        ensures rejected { IfErr result (λ failure. failure ≡ None) }
    {
        Ok(RangeBound::inclusive(self.lowest()?))
    }

    // The range from the lower bound to below a release.
    #[inline(always)]
    fn lower_to_below(
        &self,
        alloc: Global,
        major: u64,
        minor: u64,
        patch: u64,
    ) -> Result<VersionRange, ParseFailure>
        ensures range { IfOk result
            (λ range. range ≡ (lower_to_below self.now (release major minor patch) []).range) }
        ensures rejected { IfErr result (λ failure. failure ≡ None) }
    {
        Ok(VersionRange {
            start: self.as_lower_bound(alloc)?,
            end: RangeBound::exclusive(release(alloc, major, minor, patch)),
        })
    }

    /// The range of `~` and the partial: patches may grow, or minors if no minor is given (node-semver, "Tilde Ranges").
    ///
    /// Fails with "Version bound is too large." exactly if the incremented number exceeds 18446744073709551615; otherwise
    /// only out of memory.
    #[inline(never)]
    pub fn as_tilde_version_range(&self, alloc: Global) -> Result<VersionRange, ParseFailure>
        ensures range { IfOk result (λ range. range ≡ (tilde self.now).range) }
        ensures fits { OnOk result (all_fit (tilde self.now).sums ≡ true) }
        ensures rejected { IfErr result (IsBoundRejection (tilde self.now).sums) }
    {
        match (self.major, self.minor) {
            (Wildcard, _) => Ok(VersionRange::all()),
            (Val(major), Wildcard) => self.lower_to_below(alloc, raised(alloc, major)?, 0, 0),
            (Val(major), Val(minor)) => {
                self.lower_to_below(alloc, major, raised(alloc, minor)?, 0)
            }
        }
    }

    /// The range of `^` and the partial: what is right of the leftmost non-zero number may grow (node-semver, "Caret
    /// Ranges").
    ///
    /// Fails with "Version bound is too large." exactly if the incremented number exceeds 18446744073709551615; otherwise
    /// only out of memory.
    #[inline(never)]
    pub fn as_caret_version_range(&self, alloc: Global) -> Result<VersionRange, ParseFailure>
        ensures range { IfOk result (λ range. range ≡ (caret self.now).range) }
        ensures fits { OnOk result (all_fit (caret self.now).sums ≡ true) }
        ensures rejected { IfErr result (IsBoundRejection (caret self.now).sums) }
    {
        match (self.major, self.minor, self.patch) {
            (Wildcard, _, _) => Ok(VersionRange::all()),
            (Val(0), Val(0), Wildcard) => self.lower_to_below(alloc, 0, 1, 0),
            (Val(0), Val(0), Val(patch)) => self.lower_to_below(alloc, 0, 0, raised(alloc, patch)?),
            (Val(0), Val(minor), _) => self.lower_to_below(alloc, 0, raised(alloc, minor)?, 0),
            (Val(major), _, _) => self.lower_to_below(alloc, raised(alloc, major)?, 0, 0),
        }
    }

    /// The versions that the partial names, where a wildcard is any number; the start is of this kind.
    ///
    /// Fails with "Version bound is too large." exactly if the incremented number exceeds 18446744073709551615; otherwise
    /// only out of memory.
    pub fn as_greater_range(
        &self,
        alloc: Global,
        kind: VersionBoundKind,
    ) -> Result<VersionRange, ParseFailure>
        ensures range { IfOk result (λ range. range ≡ (greater_range kind self.now).range) }
        ensures fits { OnOk result (all_fit (greater_range kind self.now).sums ≡ true) }
        ensures rejected { IfErr result (IsBoundRejection (greater_range kind self.now).sums) }
    {
        let (minor, patch) = (or_zero(self.minor), or_zero(self.patch));
        let Val(major) = self.major else {
            return Ok(VersionRange::all());
        };
        let end = match (self.minor, self.patch) {
            (Wildcard, _) => {
                RangeBound::exclusive(release(alloc, raised(alloc, major)?, 0, patch))
            }
            (Val(_), Wildcard) => {
                RangeBound::exclusive(release(alloc, major, raised(alloc, minor)?, 0))
            }
            (Val(_), Val(_)) => RangeBound::version(kind, release(alloc, major, minor, patch)),
        };
        Ok(VersionRange {
            start: RangeBound::version(kind, release(alloc, major, minor, patch)),
            end,
        })
    }

    /// The range of `=` and the partial, or of the partial alone: the one version, or with wildcards all that they match.
    ///
    /// Fails with "Version bound is too large." exactly if the incremented number exceeds 18446744073709551615; otherwise
    /// only out of memory.
    #[inline(never)]
    pub fn as_equal_range(&self, alloc: Global) -> Result<VersionRange, ParseFailure>
        ensures range { IfOk result (λ range. range ≡ (equal self.now).range) }
        ensures fits { OnOk result (all_fit (equal self.now).sums ≡ true) }
        ensures rejected { IfErr result (IsBoundRejection (equal self.now).sums) }
    {
        match (self.major, self.minor, self.patch) {
            (Val(_), Val(_), Val(_)) => Ok(VersionRange {
                start: RangeBound::inclusive(self.lowest()?),
                end: RangeBound::inclusive(self.lowest()?),
            }),
            _ => self.as_greater_range(alloc, Inclusive),
        }
    }

    /// The end at the highest version that the partial names, as the end of a hyphen range (node-semver, "Hyphen Ranges").
    /// Unbounded if the major version is a wildcard.
    ///
    /// Fails with "Version bound is too large." exactly if the incremented number exceeds 18446744073709551615; otherwise
    /// only out of memory.
    pub fn as_upper_bound(&self, alloc: Global) -> Result<RangeBound, ParseFailure>
        ensures bound { IfOk result (λ bound. bound ≡ (upper self.now).end) }
        ensures fits { OnOk result (all_fit (upper self.now).sums ≡ true) }
        ensures rejected { IfErr result (IsBoundRejection (upper self.now).sums) }
    {
        match (self.major, self.minor, self.patch) {
            (Wildcard, _, _) => Ok(RangeBound::Unbounded),
            (Val(major), Wildcard, patch) => {
                let end = release(alloc, raised(alloc, major)?, 0, or_zero(patch));
                Ok(RangeBound::exclusive(end))
            }
            (Val(major), Val(minor), Wildcard) => {
                let end = release(alloc, major, raised(alloc, minor)?, 0);
                Ok(RangeBound::exclusive(end))
            }
            (Val(_), Val(_), Val(_)) => Ok(RangeBound::inclusive(self.without_build(alloc)?)),
        }
    }

    // `M.m.p-pre`, with wildcards as 0.
    #[inline(always)]
    fn without_build(&self, alloc: Global) -> Result<Version, AllocError>
        ensures { IfOk result (λ version. version ≡ without_build self.now) }
    {
        self.version_with_pre(
            alloc,
            or_zero(self.major),
            or_zero(self.minor),
            or_zero(self.patch),
        )
    }

    // The version of these three numbers with the partial's pre-release.
    #[inline(always)]
    fn version_with_pre(
        &self,
        alloc: Global,
        major: u64,
        minor: u64,
        patch: u64,
    ) -> Result<Version, AllocError>
        ensures { IfOk result (λ version. version ≡ version_with_pre self.now major minor patch) }
    {
        Ok(Version {
            major,
            minor,
            patch,
            pre: self.pre.copy()?,
            build: CowVec::new(alloc),
        })
    }

    /// The range of `>=` and the partial if `kind` is inclusive, of `>` if it is exclusive (node-semver's primitives).
    ///
    /// Fails with "Version bound is too large." exactly if an incremented number exceeds 18446744073709551615; otherwise only
    /// out of memory.
    pub fn as_greater_than(
        &self,
        alloc: Global,
        kind: VersionBoundKind,
    ) -> Result<VersionRange, ParseFailure>
        ensures range { IfOk result (λ range. range ≡ (greater_than kind self.now).range) }
        ensures fits { OnOk result (all_fit (greater_than kind self.now).sums ≡ true) }
        ensures rejected { IfErr result (IsBoundRejection (greater_than kind self.now).sums) }
    {
        let start = match (kind, self.major, self.minor, self.patch) {
            (Inclusive, Wildcard, _, _) => return Ok(VersionRange::all()),
            (Exclusive, Wildcard, _, _) => return Ok(VersionRange::none(alloc)),
            (Exclusive, Val(major), Wildcard, patch) => {
                let next = raised(alloc, major)?;
                RangeBound::inclusive(release(alloc, next, 0, or_zero(patch)))
            }
            (Exclusive, Val(major), Val(minor), Wildcard) => {
                RangeBound::inclusive(release(alloc, major, raised(alloc, minor)?, 0))
            }
            (Inclusive, Val(_), _, _) | (Exclusive, Val(_), Val(_), Val(_)) => {
                RangeBound::version(kind, self.without_build(alloc)?)
            }
        };
        Ok(VersionRange {
            start,
            end: RangeBound::Unbounded,
        })
    }

    /// The range of `<=` and the partial if `kind` is inclusive, of `<` if it is exclusive; both start at 0.0.0
    /// (node-semver's primitives).
    ///
    /// Fails with "Version bound is too large." exactly if an incremented number exceeds 18446744073709551615; otherwise only
    /// out of memory.
    pub fn as_less_than(
        &self,
        alloc: Global,
        kind: VersionBoundKind,
    ) -> Result<VersionRange, ParseFailure>
        ensures range { IfOk result (λ range. range ≡ (less_than kind self.now).range) }
        ensures fits { OnOk result (all_fit (less_than kind self.now).sums ≡ true) }
        ensures rejected { IfErr result (IsBoundRejection (less_than kind self.now).sums) }
    {
        let end = match (kind, self.major, self.minor, self.patch) {
            (Inclusive, Wildcard, _, _) => return Ok(VersionRange::all()),
            (Exclusive, Wildcard, _, _) => return Ok(VersionRange::none(alloc)),
            (Inclusive, Val(major), Wildcard, Wildcard) => {
                RangeBound::exclusive(release(alloc, raised(alloc, major)?, 0, 0))
            }
            (Exclusive, Val(major), Wildcard, Wildcard) => {
                RangeBound::exclusive(release(alloc, major, 0, 0))
            }
            (Inclusive, Val(major), Wildcard, Val(patch)) => {
                let next = raised(alloc, major)?;
                RangeBound::exclusive(self.version_with_pre(alloc, next, 0, patch)?)
            }
            (Exclusive, Val(major), Wildcard, Val(patch)) => {
                RangeBound::exclusive(self.version_with_pre(alloc, major, 0, patch)?)
            }
            (Inclusive, Val(major), Val(minor), Wildcard) => {
                RangeBound::exclusive(release(alloc, major, raised(alloc, minor)?, 0))
            }
            (Exclusive, Val(major), Val(minor), Wildcard) => {
                RangeBound::exclusive(release(alloc, major, minor, 0))
            }
            (_, Val(_), Val(_), Val(_)) => RangeBound::version(kind, self.without_build(alloc)?),
        };
        Ok(VersionRange {
            start: RangeBound::inclusive(release(alloc, 0, 0, 0)),
            end,
        })
    }
}

/// A comparison operator before a partial version.
#[derive(Clone, Copy, PartialEq, Eq)]
pub enum PrimitiveKind {
    /// `>`
    GreaterThan,
    /// `<`
    LessThan,
    /// `>=`
    GreaterThanOrEqual,
    /// `<=`
    LessThanOrEqual,
    /// `=`
    Equal,
}

impl PrimitiveKind {
    /// The range of the operator and the partial version after it (node-semver's primitives).
    ///
    /// Fails with "Version bound is too large." exactly if a number that the range increments exceeds 18446744073709551615;
    /// otherwise only out of memory.
    pub fn range(self, alloc: Global, partial: &Partial) -> Result<VersionRange, ParseFailure>
        ensures range { IfOk result (λ range. range ≡ (primitive_line self partial.now).range) }
        ensures fits { OnOk result (all_fit (primitive_line self partial.now).sums ≡ true) }
        ensures rejected { IfErr result (IsBoundRejection (primitive_line self partial.now).sums) }
    {
        match self {
            PrimitiveKind::Equal => partial.as_equal_range(alloc),
            PrimitiveKind::GreaterThan => partial.as_greater_than(alloc, Exclusive),
            PrimitiveKind::GreaterThanOrEqual => partial.as_greater_than(alloc, Inclusive),
            PrimitiveKind::LessThan => partial.as_less_than(alloc, Exclusive),
            PrimitiveKind::LessThanOrEqual => partial.as_less_than(alloc, Inclusive),
        }
    }
}
