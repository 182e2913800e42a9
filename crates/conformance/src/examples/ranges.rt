//! Bounds, ranges and sets of ranges made by hand.

use crate::answer::{Answer, Reported};
use crate::kinds::Parse;
use crate::notation;
use crate::requirements::requirement;
use deno_semver::{CowItem, PreRelease, Version, VersionRange};
use std::alloc::AllocError;

/// Whether a range overlaps another, and what it and its bounds are clamped to by those of the other.
pub fn clamped(answer: &mut Answer) -> Reported {
    let one = VersionRange::parse(">=1.0.0+a <=2.0.0+a", answer)?;
    let other = VersionRange::parse(">1.0.0+b <2.0.0+b", answer)?;
    let alloc = answer.alloc;
    answer.yes_or_no(one.intersects_range(&other))?;
    notation::report(Ok(one.clamp(alloc, &other)?), answer)?;
    let start = one.start.clamp_start(alloc, &other.start)?;
    let text = notation::bound(alloc, '>', &start);
    drop(start);
    answer.made(text)?;
    let end = one.end.clamp_end(alloc, &other.end)?;
    answer.made(notation::bound(alloc, '<', &end))
}

/// All versions, and none; what a copied range holds.
pub fn ranges(answer: &mut Answer) -> Reported {
    notation::report(Ok(VersionRange::all()), answer)?;
    notation::report(Ok(VersionRange::none(answer.alloc)), answer)?;
    let parsed = VersionRange::parse("<0.0.0-alpha", answer)?;
    let copy: Result<VersionRange, AllocError> = CowItem::copy(&parsed);
    drop(parsed);
    let range = copy?;
    let version = Version::parse("0.0.0-a", answer)?;
    answer.yes_or_no(range.is_none())?;
    answer.yes_or_no(range.satisfies(&version))?;
    answer.yes_or_no(range.satisfies_with(&version, PreRelease::Admitted))?;
    answer.yes_or_no(range.intersects_version(&version))?;
    answer.yes_or_no(range.end.has_pre_with_exact_major_minor_patch(&version))
}

/// What a set matches, and how it compares to another.
pub fn sets(answer: &mut Answer) -> Reported {
    let one = requirement("npm", ">=1.0.0 <2.0.0 || >=2.0.0 <3.0.0", answer)?;
    let other = requirement("npm", ">=1.0.0 <3.0.0", answer)?;
    let (Some(set), Some(other)) = (one.range(), other.range()) else {
        return Ok(());
    };
    let alloc = answer.alloc;
    let version = Version::parse("1.5.0-c", answer)?;
    answer.yes_or_no(set.satisfies(&version))?;
    answer.yes_or_no(set.satisfies_with(&version, PreRelease::Admitted))?;
    drop(version);
    answer.yes_or_no(set.intersects_set(other))?;
    answer.yes_or_no(set.is_subset(alloc, other, PreRelease::Restricted)?)?;
    answer.yes_or_no(set.is_equivalent(alloc, other, PreRelease::Restricted)?)
}
