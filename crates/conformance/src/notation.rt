//! Bounds, ranges and sets of ranges as texts.
//!
//! A bound is `>=1.0.0`, `>1.0.0`, `<=1.0.0` or `<1.0.0`, or `*` if it is absent. A range is its start and its end with a
//! space between, without those that are absent, or `*`. A set is its ranges with ` || ` between, or the empty text.

use crate::answer::{Answer, Fault, OrFault, Reported, valid};
use crate::kinds::Parse;
use deno_semver::{
    ParseFailure, RangeBound, Version, VersionBoundKind, VersionRange, VersionRangeSet,
};
use std::alloc::{AllocError, Global};

/// The text of a bound: its operator begins with `>` for a start, `<` for an end.
pub fn bound(alloc: Global, sign: char, bound: &RangeBound) -> Result<String, AllocError> {
    match bound {
        RangeBound::Unbounded => String::from_str(alloc, "*"),
        RangeBound::Version(bound) => match bound.kind {
            VersionBoundKind::Inclusive => format!(in alloc; "{sign}={}", bound.version),
            VersionBoundKind::Exclusive => format!(in alloc; "{sign}{}", bound.version),
        },
    }
}

/// The text of a range.
pub fn range(alloc: Global, range: &VersionRange) -> Result<String, AllocError> {
    match (&range.start, &range.end) {
        (RangeBound::Unbounded, end) => bound(alloc, '<', end),
        (start, RangeBound::Unbounded) => bound(alloc, '>', start),
        (start, end) => {
            let (start, end) = (bound(alloc, '>', start)?, bound(alloc, '<', end)?);
            format!(in alloc; "{start} {end}")
        }
    }
}

/// Reports a range, or why there is none.
pub fn report(found: Result<VersionRange, ParseFailure>, answer: &mut Answer) -> Reported {
    let found = valid(found, answer)?;
    answer.made(range(answer.alloc, &found))
}

/// The text of a set of ranges.
pub fn set(alloc: Global, set: &VersionRangeSet) -> Result<String, AllocError> {
    let mut text = String::new(alloc);
    for each in set.0.iter() {
        if !text.is_empty() {
            text.push_str(" || ")?;
        }
        text.push_str(range(alloc, each)?.as_str())?;
    }
    Ok(text)
}

// Parses a bound whose text begins with this operator, or an absent one.
fn bound_of(sign: char, text: &str, answer: &mut Answer) -> OrFault<RangeBound> {
    if text == "*" {
        return Ok(RangeBound::Unbounded);
    }
    let text = text.strip_prefix(sign).ok_or(Fault::OtherArguments)?;
    match text.strip_prefix('=') {
        Some(version) => Ok(RangeBound::inclusive(Version::parse(version, answer)?)),
        None => Ok(RangeBound::exclusive(Version::parse(text, answer)?)),
    }
}

impl Parse for VersionRange {
    fn parse(text: &str, answer: &mut Answer) -> OrFault<VersionRange> {
        let (start, end) = match text.split_once(' ') {
            Some(bounds) => bounds,
            None if text.starts_with('<') => ("*", text),
            None => (text, "*"),
        };
        let start = bound_of('>', start, answer)?;
        let end = bound_of('<', end, answer)?;
        Ok(VersionRange { start, end })
    }
}
