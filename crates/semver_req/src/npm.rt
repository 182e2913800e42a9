//! npm's parsers of requirements and versions, and its rule for tags.

ghost use Rattle.std.specs.Prelude.{IfErr, IfOk, Ok, Result};
ghost use Rattle.std.specs.Str.{trim};
ghost use Rattle.semver_base.specs.VersionGrammar.{IsVersionAnswer, IsVersionOutcome, IsVersionRejection};
ghost use Rattle.semver_base.specs.VersionText.{ReadsBack};
ghost use Rattle.semver_base.specs.Failure.{source_of};
ghost use Rattle.semver_base.specs.declared.failure.Rejection.{Rejection};
ghost use Rattle.semver_req.specs.PieceReading.{IsCutRejection};
ghost use Rattle.semver_req.specs.Parsers.{IsParserAnswer};
ghost use Rattle.semver_req.specs.declared.common.values.Flavour.TheVariants.{Npm};

use crate::common::short::short_range;
use crate::common::values::Flavour;
use crate::range_set_or_tag::RangeSetOrTag;
pub use crate::range_set_or_tag::is_valid_npm_tag;
use crate::req::VersionReq;
use semver_base::failure::{NPM_REQUIREMENTS, ParserError};
use semver_base::string::SmallStackString;
pub use semver_base::version::NpmVersionParseError;
use semver_base::version::Version;
use std::alloc::Global;

/// Why a text isn't a requirement of npm's grammar, which may be out of memory.
pub type NpmVersionReqParseError = ParserError<NPM_REQUIREMENTS>;

/// Parses a requirement by npm's range grammar (node-semver, "Range Grammar", with the separators `&&` and `,` and the
/// ignored operators that npm accepts): alternatives with `||` between them, or a tag.
///
/// The text is trimmed, and the requirement keeps the trimmed text. A text without `||` that is outside the grammar, or has a
/// number or a bound larger than 18446744073709551615, is a tag if it is a valid one; otherwise it fails with "Unexpected
/// character.", "Number is too large." or "Version bound is too large.". Of several alternatives the invalid ones are left
/// out ([`RangeSetOrTag::parse_npm`]). Also fails out of memory. No piece is parsed more than three times by the full
/// grammar, after a fast path for comparators of few numbers; each comparator takes over the bounds kept so far.
pub fn parse_npm_version_req(
    alloc: Global,
    text: &str,
) -> Result<VersionReq, NpmVersionReqParseError>
    ensures reads { IsParserAnswer (λ e. e.source) Npm text.now result }
    ensures rejection { IfErr result (λ e. IsCutRejection Npm (trim text.now) e.source) }
{
    if let Some(range) = short_range(text, Flavour::Npm) {
        let raw_text = SmallStackString::from_str(alloc, text)?;
        return Ok(VersionReq::of_range(alloc, raw_text, range.into_range(alloc))?);
    }
    let text = text.trim();
    let raw_text = SmallStackString::from_str(alloc, text)?;
    let inner = RangeSetOrTag::parse_alternatives(alloc, text, Flavour::Npm)?;
    Ok(VersionReq::from_raw_text_and_inner(raw_text, inner))
}

impl VersionReq {
    /// Parses a requirement by npm's grammar ([`parse_npm_version_req`], which lists each error).
    pub fn parse_from_npm(alloc: Global, text: &str) -> Result<VersionReq, NpmVersionReqParseError>
        ensures reads { IsParserAnswer (λ e. e.source) Npm text.now result }
        ensures rejection { IfErr result (λ e. IsCutRejection Npm (trim text.now) e.source) }
    {
        parse_npm_version_req(alloc, text)
    }
}

/// Parses a version as npm does ([`Version::parse_standard`], which lists each error).
pub fn parse_npm_version(alloc: Global, text: &str) -> Result<Version, NpmVersionParseError>
    ensures read { IfOk result (λ version. IsVersionOutcome (trim text.now) (Ok version)) }
    ensures reads_back { IfOk result ReadsBack }
    ensures rejected { IfErr result (λ error. IsVersionRejection (trim text.now) error.source) }
    ensures answer { (outcome : Result Version Rejection) → IsVersionOutcome (trim text.now) outcome
        → IsVersionAnswer source_of (trim text.now) outcome result }
{
    Version::parse_from_npm(alloc, text)
}
