//! The strict parser, for the requirements in package specifiers.

ghost use Rattle.std.specs.Prelude.{◌≡◌, ◌⊎◌, IfErr, IfOk, None, true};
ghost use Rattle.semver_base.specs.Lexical.{IsWhitespace};
ghost use Rattle.semver_req.specs.Parsers.{IsParserAnswer, IsReading};
ghost use Rattle.semver_req.specs.SpecifierRejections.{IsNoTag, IsSpecifierRejection, empty_constraint};
ghost use Rattle.semver_req.specs.Tag.{is_valid_tag};
ghost use Rattle.semver_req.specs.Single.{IsSingle};

use crate::common::comparator::{Written, non_primitive_front};
use crate::common::short::{short_range, star_or_qualified};
use crate::common::values::Flavour;
use crate::range_set_or_tag::{RangeSetOrTag, is_valid_npm_tag};
use crate::req::VersionReq;
use semver_base::failure::{ParseFailure, ParserError, Rejection, SPECIFIER_REQUIREMENTS};
use semver_base::lexical::is_all_whitespace;
use semver_base::lexical::values::Measured;
use semver_base::range::{VersionRange, VersionRangeSet};
use semver_base::string::{CowVec, SmallStackString};
use std::alloc::{AllocError, Global};

/// Why a text isn't the requirement of a package specifier, which may be out of memory.
pub type VersionReqSpecifierParseError = ParserError<SPECIFIER_REQUIREMENTS>;

/// What a text is as one comparator without a comparison operator.
#[derive(Drop)]
pub(crate) enum Single {
    /// One whose numbers and bounds fit, with its range.
    Range(VersionRange),
    /// The text doesn't begin with one.
    Absent,
    /// Something follows one whose numbers and bounds fit.
    Followed,
    /// The text begins with one of which a number or a bound is too large.
    TooLarge(Rejection),
}

/// Parses the whole text as one comparator. Fails only out of memory.
#[inline(always)]
pub(crate) fn parse_single(alloc: Global, text: &str) -> Result<Single, AllocError>
    ensures { IfOk result (IsSingle Flavour.Specifier text.now) }
{
    let Some((written, rest)) = non_primitive_front(alloc, text, Flavour::Specifier)? else {
        return Ok(Single::Absent);
    };
    let Written { operator, partial } = written;
    let Measured::Fits(partial) = partial else {
        return Ok(Single::TooLarge(Rejection::NumberTooLarge));
    };
    let range = operator.range(alloc, &partial);
    drop(partial);
    match range {
        Ok(range) if rest.is_empty() => Ok(Single::Range(range)),
        Ok(range) => {
            drop(range);
            Ok(Single::Followed)
        }
        Err(failure) if failure.is_memory() => Err(AllocError),
        Err(_) => Ok(Single::TooLarge(Rejection::BoundTooLarge)),
    }
}

// Returns the whole text as a tag; fails with `rejection` if it isn't a valid one.
fn whole_text_as_tag(
    alloc: Global,
    text: &str,
    rejection: Rejection,
) -> Result<RangeSetOrTag, ParseFailure>
    ensures tag { IfOk result
        (λ inner. (inner ≡ RangeSetOrTag.Tag text.now) × (is_valid_tag text.now ≡ true)) }
    ensures no_tag { IfErr result (IsNoTag text.now rejection) }
{
    if is_valid_npm_tag(text) {
        return Ok(RangeSetOrTag::Tag(SmallStackString::from_str(alloc, text)?));
    }
    if is_all_whitespace(text) {
        return Err(ParseFailure::of_rejection(alloc, Rejection::EmptyConstraint));
    }
    Err(ParseFailure::of_rejection(alloc, rejection))
}

// Parses the text by the full grammar.
#[inline(never)]
fn read(alloc: Global, text: &str) -> Result<RangeSetOrTag, ParseFailure>
    ensures reading { IfOk result (IsReading Flavour.Specifier text.now) }
    ensures rejection { IfErr result (IsSpecifierRejection text.now) }
{
    let found = parse_single(alloc, text)?;
    match found {
        Single::Range(range) => {
            let ranges = CowVec::of_one(alloc, range)?;
            Ok(RangeSetOrTag::RangeSet(VersionRangeSet(ranges)))
        }
        Single::Absent => whole_text_as_tag(alloc, text, Rejection::UnexpectedCharacter),
        Single::Followed => Err(ParseFailure::of_rejection(alloc, Rejection::UnexpectedCharacter)),
        Single::TooLarge(rejection) => whole_text_as_tag(alloc, text, rejection),
    }
}

/// Parses the requirement of a package specifier: `~` or `^` and a partial version, or a partial version alone, or else a
/// tag.
///
/// Numbers have no leading zeros, a missing component or `x`, `X` or `*` means any number, and a pre-release begins with `-`;
/// the ranges are node-semver's for the same operators. If something follows a leading range whose numbers and bounds fit,
/// the text fails with "Unexpected character.". Any other text is a tag if it is a valid one. Otherwise it fails: with "Empty
/// version constraint." if it is empty or only whitespace, with "Number is too large." or "Version bound is too large." if it
/// begins with a range of which that is so, and with "Unexpected character." in all other cases.
pub fn parse_version_req_from_specifier(
    alloc: Global,
    text: &str,
) -> Result<VersionReq, VersionReqSpecifierParseError>
    ensures reads { IsParserAnswer (λ e. e.source) Flavour.Specifier text.now result }
    ensures rejection { IfErr result (λ e. IsSpecifierRejection text.now e.source) }
    ensures empty { IsWhitespace text.now tt
        → IfErr result (λ e. (e.source ≡ None) ⊎ (e.source ≡ empty_constraint)) }
    ensures empty_only { IfErr result
        (λ e. e.source ≡ empty_constraint → IsWhitespace text.now tt) }
{
    let raw_text = SmallStackString::from_str(alloc, text)?;
    if let Some(range) = short_range(text, Flavour::Specifier) {
        return Ok(VersionReq::of_range(alloc, raw_text, range.into_range(alloc))?);
    }
    if let Some(ranges) = star_or_qualified(alloc, text, Flavour::Specifier)? {
        let inner = RangeSetOrTag::RangeSet(VersionRangeSet(ranges));
        return Ok(VersionReq::from_raw_text_and_inner(raw_text, inner));
    }
    let inner = read(alloc, text)?;
    Ok(VersionReq::from_raw_text_and_inner(raw_text, inner))
}

impl VersionReq {
    /// Parses the requirement of a package specifier by the strict grammar ([`parse_version_req_from_specifier`], which lists
    /// each error).
    pub fn parse_from_specifier(
        alloc: Global,
        text: &str,
    ) -> Result<VersionReq, VersionReqSpecifierParseError>
        ensures reads { IsParserAnswer (λ e. e.source) Flavour.Specifier text.now result }
        ensures rejection { IfErr result (λ e. IsSpecifierRejection text.now e.source) }
        ensures empty { IsWhitespace text.now tt
            → IfErr result (λ e. (e.source ≡ None) ⊎ (e.source ≡ empty_constraint)) }
        ensures empty_only { IfErr result
            (λ e. e.source ≡ empty_constraint → IsWhitespace text.now tt) }
    {
        parse_version_req_from_specifier(alloc, text)
    }
}
