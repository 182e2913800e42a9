//! What a requirement means, version ranges or a tag, and its parsers by npm's and the normalized grammar.

ghost use Rattle.std.specs.Prelude.{◌≡◌, ◌⊎◌, IfErr, IfOk, None, Some, refl};
ghost use Rattle.std.specs.Bool.{OnFalse};
ghost use Rattle.std.specs.Str.{trim};
ghost use Rattle.semver_req.specs.Outcome.{IsCutOutcome, IsOutcome, Rejected};
ghost use Rattle.semver_req.specs.PieceReading.{IsCutRejection};
ghost use Rattle.semver_req.specs.Parsers.{IsCutReading, IsReading};
ghost use Rattle.semver_req.specs.Pieces.{IsCutting};
ghost use Rattle.semver_req.specs.Requirement.{MatchNoVersion, OverlapAsTags, inner_overlap, inner_text};
ghost use Rattle.semver_req.specs.declared.common.values.Flavour.TheVariants.{Normal, Npm};
ghost use Rattle.semver_req.specs.Tag.{is_tag_character, is_valid_tag};

mod pieces;

use crate::common::short::{short_piece, star_or_qualified};
use crate::common::values::Flavour;
use pieces::Alternatives;
pub use pieces::{Piece, RangeOrInvalid};
use semver_base::failure::ParseFailure;
use semver_base::lexical::is_all_whitespace;
use semver_base::range::VersionRangeSet;
use semver_base::string::{CowVec, SmallStackString, StringAppendable};
use std::alloc::{AllocError, Global};
use std::fmt;
use unicode::properties::{GeneralCategory, is_alphabetic};

/// The text of a tag.
pub type PackageTag = SmallStackString;

/// Whether a tag may have the character: a letter or a number, by the tables of `unicode`, or one of `-`, `_`, `.` and `~`.
pub fn is_tag_character(c: char) -> bool
    ensures { result ≡ is_tag_character c }
{
    is_alphabetic(c)
        || matches!(
            GeneralCategory::for_char(c),
            GeneralCategory::DecimalNumber
                | GeneralCategory::LetterNumber
                | GeneralCategory::OtherNumber
        )
        || matches!(c, '-' | '_' | '.' | '~')
}

/// Whether the text is a valid tag: each character is a letter or a number, by the tables of `unicode`, or one of `-`, `_`,
/// `.` and `~`, and not all of them are whitespace.
///
/// That is npm's rule that a tag needs no escape in a URL (npm-package-arg). Takes linear time and allocates nothing.
pub fn is_valid_npm_tag(value: &str) -> bool
    ensures { result ≡ is_valid_tag value.now }
{
    !is_all_whitespace(value) && value.chars().all(is_tag_character)
}

/// Version ranges, or the name of a version in a registry.
#[derive(Debug, PartialEq, Eq, Hash, Drop)]
pub enum RangeSetOrTag {
    /// Alternative ranges: a version need match only one.
    RangeSet(VersionRangeSet),
    /// A tag, such as `latest`: only a registry knows which version it names.
    Tag(PackageTag),
}

impl RangeSetOrTag {
    /// Parses a text by the normalized grammar, which splits it at each `||`: into the ranges of its pieces, without those
    /// that end below 0.0.0, or a tag.
    ///
    /// Whitespace after a `||` is skipped, and an empty last piece after one is left out. If the only piece is invalid, the
    /// text is a tag if the trimmed piece is a valid one. Otherwise a text with an invalid piece fails as its first invalid
    /// piece does: with "Unexpected character." outside the grammar, with "Number is too large." or "Version bound is too
    /// large." if that is all that is wrong. Also fails out of memory.
    #[inline(always)]
    pub fn parse(alloc: Global, text: &str) -> Result<RangeSetOrTag, ParseFailure>
        ensures reading { IfOk result (IsReading Normal text.now) }
        ensures rejected { IfErr result
            (λ failure. (failure ≡ None) ⊎ IsOutcome Normal text.now Rejected) }
        ensures rejection { IfErr result (IsCutRejection Normal text.now) }
    {
        RangeSetOrTag::parse_alternatives(alloc, text, Flavour::Normal)
    }

    /// Parses a text by npm's grammar, which trims it and then splits it at each `||`: into the ranges of its valid pieces,
    /// without those that end below 0.0.0, or a tag.
    ///
    /// Whitespace after a `||` is skipped, and an empty last piece after one is left out. If the only piece is invalid, the
    /// text is a tag if the trimmed piece is a valid one, and otherwise fails: with "Unexpected character." outside the
    /// grammar, with "Number is too large." or "Version bound is too large." if that is all that is wrong. Of two or more
    /// pieces, the invalid ones are left out. Also fails out of memory.
    pub fn parse_npm(alloc: Global, text: &str) -> Result<RangeSetOrTag, ParseFailure>
        ensures reading { IfOk result (IsReading Npm text.now) }
        ensures rejected { IfErr result
            (λ failure. (failure ≡ None) ⊎ IsOutcome Npm text.now Rejected) }
        ensures rejection { IfErr result (IsCutRejection Npm (trim text.now)) }
    {
        RangeSetOrTag::parse_alternatives(alloc, text.trim(), Flavour::Npm)
    }

    /// Parses a text by the normalized grammar, or a trimmed one by npm's.
    #[inline(always)]
    pub(crate) fn parse_alternatives(
        alloc: Global,
        text: &str,
        flavour: Flavour,
    ) -> Result<RangeSetOrTag, ParseFailure>
        requires { IsCutting flavour }
        ensures reading { IfOk result (IsCutReading flavour text.now) }
        ensures rejected { IfErr result
            (λ failure. (failure ≡ None) ⊎ IsCutOutcome flavour text.now Rejected) }
        ensures rejection { IfErr result (IsCutRejection flavour text.now) }
    {
        if let Some(range) = short_piece(text, flavour) {
            let ranges = CowVec::of_one(alloc, range.into_range(alloc))?;
            return Ok(RangeSetOrTag::RangeSet(VersionRangeSet(ranges)));
        }
        if let Some(ranges) = star_or_qualified(alloc, text, flavour)? {
            return Ok(RangeSetOrTag::RangeSet(VersionRangeSet(ranges)));
        }
        RangeSetOrTag::parse_pieces(alloc, text, flavour)
    }

    // Parses such a text piece by piece.
    #[inline(never)]
    fn parse_pieces(
        alloc: Global,
        text: &str,
        flavour: Flavour,
    ) -> Result<RangeSetOrTag, ParseFailure>
        requires { IsCutting flavour }
        ensures reading { IfOk result (IsCutReading flavour text.now) }
        ensures rejected { IfErr result
            (λ failure. (failure ≡ None) ⊎ IsCutOutcome flavour text.now Rejected) }
        ensures rejection { IfErr result (IsCutRejection flavour text.now) }
    {
        let first = Piece::first(0, text);
        let mut all = Alternatives {
            ranges: CowVec::new(alloc),
            rejected: None,
            is_only: true,
        };
        all.add(alloc, first.text, first.is_followed, flavour)?;
        let mut piece = first;
        while let Some(next) = piece.next() {
            all.is_only = false;
            all.add(alloc, next.text, false, flavour)?;
            piece = next;
        }
        let Some(rejection) = all.rejected else {
            return Ok(RangeSetOrTag::RangeSet(VersionRangeSet(all.ranges)));
        };
        if all.is_only {
            let tag = first.text.trim();
            if is_valid_npm_tag(tag) {
                return Ok(RangeSetOrTag::Tag(SmallStackString::from_str(alloc, tag)?));
            }
        } else if flavour == Flavour::Npm {
            return Ok(RangeSetOrTag::RangeSet(VersionRangeSet(all.ranges)));
        }
        Err(ParseFailure::of_rejection(alloc, rejection))
    }

    /// Whether the two overlap: two range sets as in [`VersionRangeSet::intersects_set`], two tags if they are the same, a
    /// tag and ranges never. If two range sets don't overlap, no version matches both.
    #[tactic(auto, using(crate::proofs::Overlaps::tags_swap, crate::proofs::Overlaps::same_tags, crate::proofs::Overlaps::tag_matches_none))]
    pub fn intersects(&self, other: &RangeSetOrTag) -> bool
        ensures value { result ≡ inner_overlap self.now other.now }
        ensures symmetric { result ≡ inner_overlap other.now self.now }
        ensures tags { OverlapAsTags self.now other.now result }
        ensures no_common { OnFalse result (MatchNoVersion self.now other.now) }
    {
        match (self, other) {
            (RangeSetOrTag::RangeSet(set), RangeSetOrTag::RangeSet(others)) => {
                set.intersects_set(others)
            }
            (RangeSetOrTag::Tag(tag), RangeSetOrTag::Tag(others)) => tag == others,
            (_, _) => false,
        }
    }

    /// Returns a copy. Fails only out of memory.
    pub fn copy(&self) -> Result<Self, AllocError>
        ensures { IfOk result (λ inner. inner ≡ self.now) }
    {
        match self {
            RangeSetOrTag::RangeSet(set) => Ok(RangeSetOrTag::RangeSet(set.copy()?)),
            RangeSetOrTag::Tag(tag) => Ok(RangeSetOrTag::Tag(tag.copy()?)),
        }
    }
}

/// Writes the canonical form of ranges (node-semver, "Advanced Range Syntax"; the choice among the forms is `deno_semver`'s
/// own), and a tag as it is.
impl fmt::Display for RangeSetOrTag {
    ghost output = { λ inner. Some (inner_text inner) };

    fn fmt<W: fmt::Write>(&self, f: &mut fmt::Formatter<W>) -> fmt::Result {
        match self {
            RangeSetOrTag::RangeSet(set) => fmt::Display::fmt(set, f),
            RangeSetOrTag::Tag(tag) => fmt::Display::fmt(tag, f),
        }
    }
}

impl StringAppendable for RangeSetOrTag {
    ghost text = { inner_text };

    ghost displays = { λ x. refl };
}
