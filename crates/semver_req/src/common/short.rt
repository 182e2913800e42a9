//! A fast path for plain comparators, pairs of them and hyphen ranges: numbers, operators or none, wildcards for the last number, spaces,
//! and nothing else; also for `*`, and for three numbers with a pre-release or a build.
//!
//! Most pieces are such texts. What this parses is a piece by the grammar, and a text has only one meaning; so each parser
//! tries this first, and falls back to the full grammar on `None`.

ghost use Rattle.std.specs.Prelude.{IfOk, IfSome};
ghost use Rattle.semver_base.specs.Comparators.{comparator_line};
ghost use Rattle.semver_base.specs.PartialTable.{IsLineRange, of_short, release_bound, release_range};
ghost use Rattle.semver_req.specs.Pieces.{IsCutting};
ghost use Rattle.semver_req.specs.ShortComparators.{IsAfterGap, IsShortPartial, IsShortPiece, IsShortComparator, IsShortStart, IsStarOrQualified, IsWildcardFront};
ghost use Rattle.semver_req.specs.Written.{comparator_of};

use crate::common::comparator::{Operator, split_operator};
use crate::common::values::Flavour;
use semver_base::lexical;
use semver_base::lexical::after;
use semver_base::partial::{ReleaseBound, ReleaseRange};
use semver_base::range::{VersionBoundKind, VersionRange};
use semver_base::short::{Numbers, ShortNumbers, leading_numbers, split_numbers};
use semver_base::string::CowVec;
use std::alloc::{AllocError, Global};

// The range of the operator and the numbers, if its bounds fit; `None` for a comparison operator.
#[inline(always)]
fn numbers_range(operator: Operator, numbers: ShortNumbers) -> Option<ReleaseRange>
    ensures { IfSome result (λ range. IsLineRange
        (comparator_line (comparator_of operator (of_short numbers))) (release_range range)) }
{
    match operator {
        Operator::Tilde => numbers.tilde_range(),
        Operator::Caret => numbers.caret_range(),
        Operator::Absent => numbers.equal_range(),
        Operator::Primitive(_) => None,
    }
}

// Strips a leading `.` and a wildcard.
#[inline(always)]
fn after_wildcard(text: &[u8], flavour: Flavour) -> Option<&[u8]>
    ensures { IfSome result (λ rest. IsWildcardFront flavour text.now rest.now) }
{
    match text {
        [b'.', b'*', rest @ ..] => Some(rest),
        [b'.', b'x' | b'X', rest @ ..] if flavour != Flavour::Normal => Some(rest),
        _ => None,
    }
}

// Parses the whole text as one to three numbers, and wildcards for those that are missing, or none.
#[inline(always)]
fn short_partial(text: &[u8], flavour: Flavour) -> Option<ShortNumbers>
    ensures { IfSome result (IsShortPartial flavour text.now) }
{
    let (numbers, rest) = leading_numbers(text)?;
    if rest.is_empty() {
        return Some(numbers);
    }
    let rest = after_wildcard(rest, flavour)?;
    if rest.is_empty() {
        return match numbers {
            ShortNumbers::One(_) | ShortNumbers::Two(_, _) => Some(numbers),
            ShortNumbers::Three(_) => None,
        };
    }
    match numbers {
        ShortNumbers::One(_) if after_wildcard(rest, flavour)?.is_empty() => Some(numbers),
        _ => None,
    }
}

/// The range of `~`, `^` or nothing before one to three numbers, the last of which may be a wildcard, if that is the whole text and its
/// bounds fit. `None` says nothing about the text.
#[inline(always)]
pub(crate) fn short_range(text: &str, flavour: Flavour) -> Option<ReleaseRange>
    ensures { IfSome result (λ range. IsShortComparator flavour text.now (release_range range)) }
{
    let (operator, rest) = split_operator(text);
    let numbers = short_partial(rest.as_bytes(), flavour)?;
    numbers_range(operator, numbers)
}

/// The range of `*`, or of `~`, `^` or nothing before three numbers and a qualifier, as a list of one, if that is the whole text and
/// its bounds fit. `None` says nothing about the text. Fails only out of memory. In a call of its own, so that plain texts don't pay
/// for it.
#[inline(never)]
pub(crate) fn star_or_qualified(
    alloc: Global,
    text: &str,
    flavour: Flavour,
) -> Result<Option<CowVec<VersionRange>>, AllocError>
    ensures { IfOk result (λ r. IfSome r (IsStarOrQualified flavour text.now)) }
{
    if text == "*" {
        return Ok(Some(CowVec::of_one(alloc, VersionRange::all())?));
    }
    let (operator, rest) = split_operator(text);
    let Some((numbers, rest)) = split_numbers(rest) else {
        return Ok(None);
    };
    if !matches!(rest.as_bytes(), [b'-' | b'+', ..]) {
        return Ok(None);
    }
    let Some(range) = numbers_range(operator, ShortNumbers::Three(numbers)) else {
        return Ok(None);
    };
    let (qualifier, rest) = lexical::qualifier(alloc, rest, flavour.strictness())?;
    if !rest.is_empty() {
        return Ok(None);
    }
    let range = range.with_qualifier(alloc, qualifier)?;
    Ok(Some(CowVec::of_one(alloc, range)?))
}

// Strips one leading space, if there is one.
#[inline(always)]
fn after_gap(text: &[u8]) -> &[u8]
    ensures { IsAfterGap text.now result.now }
{
    match text {
        [b' ', rest @ ..] => rest,
        _ => text,
    }
}

// Parses the whole text as `>` or `>=`, an optional space and such numbers.
#[inline(always)]
fn lower_bound(text: &[u8]) -> Option<ReleaseBound>
    ensures { IfSome result (λ start. IsShortStart text.now (release_bound start)) }
{
    let (kind, rest) = match text {
        [b'>', b'=', rest @ ..] => (VersionBoundKind::Inclusive, rest),
        [b'>', rest @ ..] => (VersionBoundKind::Exclusive, rest),
        _ => return None,
    };
    short_partial(after_gap(rest), Flavour::Normal)?.greater_than(kind)
}

// The range of the whole text, if it is one or two bounds, or a hyphen range of npm's grammar. In a call of its own, so that plain texts
// don't pay for it.
#[inline(never)]
fn bounds(text: &str, flavour: Flavour) -> Option<ReleaseRange>
    ensures { IsCutting flavour
        → IfSome result (λ range. IsShortPiece flavour text.now (release_range range)) }
{
    if let Some((front, back)) = text.split_once('<') {
        let (kind, back) = match after(back, '=') {
            Some(back) => (VersionBoundKind::Inclusive, back),
            None => (VersionBoundKind::Exclusive, back),
        };
        let numbers = short_partial(after_gap(back.as_bytes()), Flavour::Normal)?;
        let end = numbers.less_than(kind)?;
        if front.is_empty() {
            let zero = Numbers {
                major: 0,
                minor: 0,
                patch: 0,
            };
            return ReleaseRange::between(ReleaseBound::inclusive(zero), end);
        }
        let start = lower_bound(front.strip_suffix(' ')?.as_bytes())?;
        return ReleaseRange::between(start, end);
    }
    if flavour == Flavour::Npm
        && let Some((front, back)) = text.split_once(' ')
        && let Some(back) = after(back, '-')
        && let Some(back) = after(back, ' ')
        && let Some(lower) = short_partial(front.as_bytes(), Flavour::Npm)
        && let Some(upper) = short_partial(back.as_bytes(), Flavour::Npm)
        && let Some(end) = upper.upper_bound()
    {
        let start = ReleaseBound::inclusive(lower.lowest());
        return Some(ReleaseRange {
            start,
            end: Some(end),
        });
    }
    let start = lower_bound(text.as_bytes())?;
    Some(ReleaseRange { start, end: None })
}

/// The range of a piece, if it is the whole text and short: a comparator as for [`short_range`], one or two comparisons of such
/// numbers, or npm's hyphen range. `None` says nothing about the text.
#[inline(always)]
pub(crate) fn short_piece(text: &str, flavour: Flavour) -> Option<ReleaseRange>
    ensures { IsCutting flavour
        → IfSome result (λ range. IsShortPiece flavour text.now (release_range range)) }
{
    match short_range(text, flavour) {
        Some(range) => Some(range),
        None => bounds(text, flavour),
    }
}
