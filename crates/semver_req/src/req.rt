//! Version requirements.

ghost use Rattle.std.specs.Prelude.{◌≡◌, IfErr, IfOk, None, Some, string_bytes};
ghost use Rattle.std.specs.Bool.{OnFalse};
ghost use Rattle.std.specs.Option.{option_copied};
ghost use Rattle.semver_base.specs.declared.range.PreRelease.TheVariants.{Restricted};
ghost use Rattle.semver_base.specs.declared.version.Version.{Version};
ghost use Rattle.semver_req.specs.PieceReading.{IsCutRejection};
ghost use Rattle.semver_req.specs.Parsers.{IsReadOrTag, IsParserAnswer};
ghost use Rattle.semver_req.specs.Rereading.{IsReadAsForms, IsStableSet, KeepsEqual, KeepsStable, KeepsTheSame, MeansTheSame, OfReadRanges, OfReadVersion};
ghost use Rattle.semver_req.specs.Requirement.{MatchNoVersion, OverlapAsTags, PinsTo, Requirement, inner_means, inner_means_with, inner_overlap, inner_text, of_range, pinned, ranges_of, set_of, tag_of, wildcard};
ghost use Rattle.semver_req.specs.declared.common.values.Flavour.TheVariants.{Normal};

mod lowest;
mod scans;

use crate::common::short::short_range;
use crate::common::values::Flavour;
use crate::range_set_or_tag::RangeSetOrTag;
use semver_base::failure::{NORMALIZED_REQUIREMENTS, ParserError};
use semver_base::range::{PreRelease, RangeBound, VersionRange, VersionRangeSet};
use semver_base::string::{CowVec, SmallStackString, displayed};
use semver_base::version::Version;
use std::alloc::{AllocError, Global};
use std::fmt;
use std::marker::Model;

/// A version requirement: the text it was parsed from, and its ranges or tag.
///
/// Two requirements are equal if their ranges or tags are, whatever their texts. A requirement is displayed as its text.
#[derive_where(Debug, PartialEq, Eq, Hash)]
pub struct VersionReq {
    #[derive_where(skip)]
    raw_text: SmallStackString,
    inner: RangeSetOrTag,
}

impl Model for VersionReq {
    ghost use Rattle.semver_req.specs.Requirement.{Requirement};

    ghost Value = { Requirement };

    ghost view = { λ req. record { raw_text = req.raw_text; inner = req.inner } };

    ghost inverse = { λ req. record { raw_text = req.raw_text; inner = req.inner } };
}

// Written out so that dropping a requirement is one call.
impl Drop for VersionReq {
    #[inline]
    fn drop(self) {
        let VersionReq { raw_text, inner } = self;
        drop(raw_text);
        drop(inner);
    }
}

/// Why a text isn't a requirement of the normalized grammar, which may be out of memory.
pub type VersionReqNormalizedParseError = ParserError<NORMALIZED_REQUIREMENTS>;

impl VersionReq {
    /// Creates a requirement from its text and its ranges or tag.
    #[inline(always)]
    pub fn from_raw_text_and_inner(raw_text: SmallStackString, inner: RangeSetOrTag) -> Self
        ensures { result ≡ record { raw_text = raw_text; inner = inner } }
    {
        VersionReq { raw_text, inner }
    }

    // Creates the requirement of one range.
    #[inline(always)]
    pub(crate) fn of_range(
        alloc: Global,
        raw_text: SmallStackString,
        range: VersionRange,
    ) -> Result<VersionReq, AllocError>
        ensures { IfOk result (λ req. req ≡ of_range raw_text range) }
    {
        let ranges = CowVec::of_one(alloc, range)?;
        let inner = RangeSetOrTag::RangeSet(VersionRangeSet(ranges));
        Ok(VersionReq { raw_text, inner })
    }

    /// Parses a requirement by the normalized grammar ([`RangeSetOrTag::parse`], which lists each error).
    pub fn parse_from_normalized(
        alloc: Global,
        text: &str,
    ) -> Result<VersionReq, VersionReqNormalizedParseError>
        ensures reads { IsParserAnswer (λ e. e.source) Normal text.now result }
        ensures rejection { IfErr result (λ e. IsCutRejection Normal text.now e.source) }
    {
        let raw_text = SmallStackString::from_str(alloc, text)?;
        if let Some(range) = short_range(text, Flavour::Normal) {
            return Ok(VersionReq::of_range(alloc, raw_text, range.into_range(alloc))?);
        }
        let inner = RangeSetOrTag::parse(alloc, text)?;
        Ok(VersionReq { raw_text, inner })
    }

    /// The requirement's ranges or tag.
    pub fn inner(&self) -> &RangeSetOrTag
        ensures { result.now ≡ self.now.inner }
    {
        &self.inner
    }

    /// The tag, if the requirement is one.
    pub fn tag(&self) -> Option<&str>
        ensures { option_copied result ≡ tag_of self.now.inner }
    {
        match &self.inner {
            RangeSetOrTag::RangeSet(_) => None,
            RangeSetOrTag::Tag(tag) => Some(tag.as_str()),
        }
    }

    /// The ranges, unless the requirement is a tag.
    pub fn range(&self) -> Option<&VersionRangeSet>
        ensures { option_copied result ≡ set_of self.now.inner }
    {
        match &self.inner {
            RangeSetOrTag::RangeSet(set) => Some(set),
            RangeSetOrTag::Tag(_) => None,
        }
    }

    /// The text that the requirement was parsed from.
    pub fn version_text(&self) -> &str
        ensures { result.now ≡ self.now.raw_text }
    {
        self.raw_text.as_str()
    }

    /// Whether the version matches some range of the requirement, which must not be a tag: by npm's rule about pre-releases,
    /// or with all pre-releases between the bounds.
    #[inline(always)]
    pub fn matches_with(&self, version: &Version, pre_release: PreRelease) -> bool
        requires { tag_of self.now.inner ≡ None }
        ensures { result ≡ inner_means_with pre_release self.now.inner version.now }
    {
        match &self.inner {
            RangeSetOrTag::RangeSet(set) => set.satisfies_with(version, pre_release),
            RangeSetOrTag::Tag(_) => false,
        }
    }

    /// Whether the version matches some range of the requirement, which must not be a tag. Same as
    /// [`VersionReq::matches_with`] with [`PreRelease::Restricted`].
    #[inline(always)]
    pub fn matches(&self, version: &Version) -> bool
        requires { tag_of self.now.inner ≡ None }
        ensures value { result ≡ inner_means self.now.inner version.now }
        ensures restricted { result ≡ inner_means_with Restricted self.now.inner version.now }
    {
        self.matches_with(version, PreRelease::Restricted)
    }

    /// Whether the two requirements overlap: two range sets as in [`VersionRangeSet::intersects_set`], two tags if they are
    /// the same, a tag and ranges never. If two requirements of ranges don't overlap, no version matches both.
    pub fn intersects(&self, other: &VersionReq) -> bool
        ensures value { result ≡ inner_overlap self.now.inner other.now.inner }
        ensures symmetric { result ≡ inner_overlap other.now.inner self.now.inner }
        ensures tags { OverlapAsTags self.now.inner other.now.inner result }
        ensures no_common { OnFalse result (MatchNoVersion self.now.inner other.now.inner) }
    {
        self.inner.intersects(&other.inner)
    }

    /// Returns the canonical form: the shortest usual form of each range, joined by ` || `, or `<0.0.0` without ranges; a tag
    /// as it is.
    ///
    /// If the ranges are a parser's result, npm's and the normalized parser both parse it to the same comparators. It keeps
    /// the meaning: what either parser makes of it matches the same versions, with or without npm's rule about pre-releases,
    /// unless a range with an end starts at a pre-release of 0.0.0 and is neither that version alone nor its `^` or `~`
    /// range, as `^0.0.0-pre`. Without builds and crossed bounds it parses back to an equal requirement. What it parses to is
    /// stable: it parses back to an equal requirement from then on.
    ///
    /// Fails only out of memory.
    pub fn to_string_normalized(&self, alloc: Global) -> Result<String, AllocError>
        ensures text { IfOk result (λ text. string_bytes text ≡ inner_text self.now.inner) }
        ensures forms { IfOk result
            (λ text. OfReadRanges IsReadAsForms self.now.inner (string_bytes text)) }
        ensures means { IfOk result
            (λ text. OfReadRanges MeansTheSame self.now.inner (string_bytes text)) }
        ensures retained_means { IfOk result
            (λ text. OfReadRanges KeepsTheSame self.now.inner (string_bytes text)) }
        ensures equal { IfOk result
            (λ text. OfReadRanges KeepsEqual self.now.inner (string_bytes text)) }
        ensures stable { IfOk result
            (λ text. OfReadRanges KeepsStable self.now.inner (string_bytes text)) }
    {
        displayed(alloc, self.inner())
    }

    /// Returns a copy. Fails only out of memory.
    pub fn copy(&self) -> Result<Self, AllocError>
        ensures { IfOk result (λ req. req ≡ self.now) }
    {
        Ok(VersionReq {
            raw_text: self.raw_text.copy()?,
            inner: self.inner.copy()?,
        })
    }
}

impl fmt::Display for VersionReq {
    ghost output = { λ req. Some req.raw_text };

    fn fmt<W: fmt::Write>(&self, f: &mut fmt::Formatter<W>) -> fmt::Result {
        f.write_str(self.version_text())
    }
}

/// Returns the requirement of any version, for where none is written (npm's package specifiers): its text is `*`, and it has
/// one range without bounds.
///
/// Fails only out of memory.
pub fn wildcard_version_req(alloc: Global) -> Result<VersionReq, AllocError>
    ensures { IfOk result (λ req. req ≡ wildcard) }
{
    let raw_text = SmallStackString::from_static(alloc, "*")?;
    VersionReq::of_range(alloc, raw_text, VersionRange::all())
}

/// A value that can be made into a requirement.
pub trait IntoVersionReq {
    /// The version that the requirement is for.
    ghost version: { Self → Version };

    /// Converts into the requirement of the versions of the same precedence: one range from the version to itself, both
    /// inclusive. Its text is the version's. For a parsed version it is also one that a parser returns, and its canonical
    /// form parses to that range again, build included.
    ///
    /// Fails only out of memory.
    fn into_req(self, alloc: Global) -> Result<VersionReq, AllocError>
        ensures value { IfOk result (λ req. req ≡ pinned (version self)) }
        ensures matches { IfOk result (λ req. PinsTo (version self) req.inner) }
        ensures read_set { IfOk result
            (λ req. OfReadVersion (version self) (IsReadOrTag req.inner)) }
        ensures stable { IfOk result
            (λ req. OfReadVersion (version self) (IsStableSet (ranges_of req.inner).0)) };
}

impl IntoVersionReq for Version {
    ghost version = { λ v. v };

    fn into_req(self, alloc: Global) -> Result<VersionReq, AllocError> {
        let text = displayed(alloc, &self)?;
        let raw_text = SmallStackString::from_string(alloc, text)?;
        let start = RangeBound::inclusive(self.copy()?);
        let end = RangeBound::inclusive(self);
        VersionReq::of_range(alloc, raw_text, VersionRange { start, end })
    }
}
