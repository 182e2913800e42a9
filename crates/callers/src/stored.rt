//! Does a requirement stored in canonical form mean the same when it is parsed again?
//!
//! The results for ranges hold for those that some parser returned. A tag that npm's or the strict parser returned parses
//! back; one of the normalized parser need not: the text ` 1` parses to the tag `1`, which is stored as a text that parses to
//! a range.

ghost use Rattle.std.specs.Prelude.{IfErr};
ghost use Rattle.std.specs.Str.{trim};
ghost use Rattle.semver_req.specs.PieceReading.{IsCutRejection};
ghost use Rattle.semver_req.specs.SpecifierRejections.{IsSpecifierRejection};
ghost use Rattle.semver_req.specs.declared.common.values.Flavour.TheVariants.{Normal, Npm, Specifier};
ghost use Rattle.callers.specs.Stored.{AllowsAsBefore, AllowsAsItsText, IsReread, IsRereadTwice, IsTagRead, IsTagReported, OfRanges, OfTag, TagOfText};

use crate::requirements::{Allowance, allowance_by};
use deno_semver::npm::NpmVersionReqParseError;
use deno_semver::{ParseFailure, Version, VersionReq, VersionReqNormalizedParseError};
use std::alloc::Global;

/// What a requirement's canonical form parses to, and what the canonical form of that does.
#[derive(Drop)]
pub struct Reread {
    pub once: VersionReq,
    pub twice: VersionReq,
}

/// What does npm's parser make of the stored requirement? Ranges, which mean the same if each of the requirement's keeps its
/// meaning, are the same if each is orderly too, and parse to themselves from then on. Or the tag, if its text parses to
/// that.
pub fn read_again_by_npm(
    alloc: Global,
    requirement: &VersionReq,
) -> Result<VersionReq, NpmVersionReqParseError>
    ensures ranges { OfRanges (IsReread (λ e. e.source) result) requirement.now.inner }
    ensures tag { OfTag Npm (IsTagRead (λ e. e.source) result) requirement.now.inner }
{
    let stored = requirement.to_string_normalized(alloc)?;
    VersionReq::parse_from_npm(alloc, stored.as_str())
}

/// What does the normalized parser make of the stored requirement? ([`read_again_by_npm`] says what.)
pub fn read_again_by_normalized(
    alloc: Global,
    requirement: &VersionReq,
) -> Result<VersionReq, VersionReqNormalizedParseError>
    ensures ranges { OfRanges (IsReread (λ e. e.source) result) requirement.now.inner }
    ensures tag { OfTag Normal (IsTagRead (λ e. e.source) result) requirement.now.inner }
{
    let stored = requirement.to_string_normalized(alloc)?;
    VersionReq::parse_from_normalized(alloc, stored.as_str())
}

/// What does npm's parser make of the stored requirement, and of that once it is stored? Of ranges, the same both times.
pub fn read_again_twice(
    alloc: Global,
    requirement: &VersionReq,
) -> Result<Reread, NpmVersionReqParseError>
    ensures { OfRanges (IsRereadTwice (λ e. e.source) result) requirement.now.inner }
{
    let once = read_again_by_npm(alloc, requirement)?;
    let twice = read_again_by_npm(alloc, &once)?;
    Ok(Reread { once, twice })
}

/// Does the requirement allow the version once it is stored and parsed again by npm's parser? Exactly if it means the
/// version, if each of its ranges keeps its meaning. A tag that its text parses to is returned as one.
pub fn allows_when_stored(
    alloc: Global,
    requirement: &VersionReq,
    version: &Version,
) -> Result<Allowance, NpmVersionReqParseError>
    ensures ranges { OfRanges
        (AllowsAsBefore (λ e. e.source) version.now result) requirement.now.inner }
    ensures tag { OfTag Npm (IsTagReported (λ e. e.source) result) requirement.now.inner }
{
    let again = read_again_by_npm(alloc, requirement)?;
    Ok(allowance_by(&again, version))
}

/// Does the requirement allow the version once it is stored and parsed again by the normalized parser?
/// ([`allows_when_stored`] says when.)
pub fn allows_when_stored_as_normalized(
    alloc: Global,
    requirement: &VersionReq,
    version: &Version,
) -> Result<Allowance, VersionReqNormalizedParseError>
    ensures ranges { OfRanges
        (AllowsAsBefore (λ e. e.source) version.now result) requirement.now.inner }
    ensures tag { OfTag Normal (IsTagReported (λ e. e.source) result) requirement.now.inner }
{
    let again = read_again_by_normalized(alloc, requirement)?;
    Ok(allowance_by(&again, version))
}

/// Does the text of an npm range allow the version once it is parsed, stored and parsed again by the normalized parser?
/// Exactly if its comparators mean the version, if each range that is kept of them keeps its meaning. A tag is returned as
/// one; the text is rejected if npm's grammar rejects it.
pub fn npm_text_allows_when_stored(
    alloc: Global,
    text: &str,
    version: &Version,
) -> Result<Allowance, ParseFailure>
    ensures reported { AllowsAsItsText Npm text.now version.now result }
    ensures rejection { IfErr result (IsCutRejection Npm (trim text.now)) }
{
    let requirement = VersionReq::parse_from_npm(alloc, text)?;
    Ok(allows_when_stored_as_normalized(alloc, &requirement, version)?)
}

/// Does the text of a strict range allow the version once it is parsed, stored and parsed again by the normalized parser?
/// ([`npm_text_allows_when_stored`] says when, by the strict grammar.)
pub fn specifier_allows_when_stored(
    alloc: Global,
    text: &str,
    version: &Version,
) -> Result<Allowance, ParseFailure>
    ensures reported { AllowsAsItsText Specifier text.now version.now result }
    ensures rejection { IfErr result (IsSpecifierRejection text.now) }
{
    let requirement = VersionReq::parse_from_specifier(alloc, text)?;
    Ok(allows_when_stored_as_normalized(alloc, &requirement, version)?)
}

/// What does the normalized parser make of a tag that npm's parser returned? The same tag.
pub fn npm_tag_read_again(alloc: Global, text: &str) -> Result<VersionReq, ParseFailure>
    ensures { TagOfText Npm text.now (IsTagRead (λ failure. failure) result) }
{
    let requirement = VersionReq::parse_from_npm(alloc, text)?;
    Ok(read_again_by_normalized(alloc, &requirement)?)
}

/// What does the normalized parser make of a tag that the strict parser returned? The same tag.
pub fn specifier_tag_read_again(alloc: Global, text: &str) -> Result<VersionReq, ParseFailure>
    ensures { TagOfText Specifier text.now (IsTagRead (λ failure. failure) result) }
{
    let requirement = VersionReq::parse_from_specifier(alloc, text)?;
    Ok(read_again_by_normalized(alloc, &requirement)?)
}
