//! What a grammar makes of a range's text, alternative by alternative.

ghost use Rattle.std.specs.Prelude.{◌≡◌, ◌⊎◌, Err, IfErr, IfOk, map};
ghost use Rattle.semver_base.specs.NormalText.{IsWritableRange};
ghost use Rattle.semver_req.specs.Alternatives.{IsWritable};
ghost use Rattle.answers.specs.Explained.{AreFitting, AreItsPieces, IsExplained, IsExplainedPiece, IsMeaningOfRange, shown};
ghost use Rattle.answers.specs.Asking.{OutOfMemory, fault_of};
ghost use Rattle.answers.specs.Reading.{IsRangeAt};

use crate::asking::Problem;
use crate::reading::range;
use semver_base::range::{PreRelease, VersionRange};
use semver_base::version::Version;
use semver_req::common::values::Flavour;
use semver_req::comparators::{ParsedComparator, comparators};
use semver_req::error_places::pieces::{Alternative, InvalidPiece, Parsed, alternatives};
use semver_req::range_set_or_tag::{PackageTag, RangeOrInvalid, RangeSetOrTag};
use std::alloc::{AllocError, Global};

/// What a grammar makes of a text.
#[derive(Drop)]
pub enum Explanation {
    /// The text is this tag.
    Tag(PackageTag),
    /// The text is a range of versions: its alternatives, which `||` separates, in their order, and its canonical form.
    Ranges { pieces: Vec<Piece>, normal: String },
}

/// An alternative of a text.
#[derive(Drop)]
pub struct Piece {
    /// The alternative as written.
    pub text: String,
    pub meaning: Meaning,
    /// Those of its comparators in which no number and no bound is too large.
    pub comparators: Vec<Comparator>,
}

/// A comparator of an alternative.
#[derive(Drop)]
pub struct Comparator {
    /// The comparator as written.
    pub text: String,
    /// The range that it means by itself.
    pub range: VersionRange,
}

/// What a grammar makes of an alternative.
#[derive(Drop)]
pub enum Meaning {
    /// The range that it means.
    Range(Matches),
    /// The alternative is invalid, so it is left out.
    LeftOut(InvalidPiece),
}

/// A range, and what it matches.
#[derive(Drop)]
pub struct Matches {
    pub range: VersionRange,
    /// The lowest version that matches, if there is one.
    pub lowest: Option<Version>,
    /// Whether pre-releases of the numbers of the start match, by npm's rule.
    pub pre_of_start: bool,
    /// Whether pre-releases of the numbers of the end match, by npm's rule.
    pub pre_of_end: bool,
}

impl Meaning {
    // The range, with what it matches.
    fn of(
        alloc: Global,
        pre_release: PreRelease,
        range: VersionRange,
    ) -> Result<Meaning, AllocError>
        requires { IsWritableRange range }
        ensures { IfOk result (IsMeaningOfRange pre_release range) }
    {
        let lowest = range.min_version(alloc, pre_release)?;
        let pre_of_start = range.matches_pre_of(alloc, &range.start)?;
        let pre_of_end = range.matches_pre_of(alloc, &range.end)?;
        Ok(Meaning::Range(Matches {
            range,
            lowest,
            pre_of_start,
            pre_of_end,
        }))
    }
}

// The comparators of an alternative in which no number and no bound is too large.
fn comparators_of(
    alloc: Global,
    flavour: Flavour,
    alternative: &str,
) -> Result<Vec<Comparator>, AllocError>
    ensures { IfOk result (λ all. AreFitting flavour alternative.now (map shown all.items)) }
{
    let mut all = Vec::new(alloc);
    let Some(items) = comparators(alloc, alternative, flavour)? else {
        return Ok(all);
    };
    for item in items {
        let ParsedComparator { text, parsed } = item;
        match parsed {
            RangeOrInvalid::Range(range) => {
                let text = String::from_str(alloc, text)?;
                all.push(Comparator { text, range })?;
            }
            RangeOrInvalid::Invalid(_rejection) => {}
        }
    }
    Ok(all)
}

impl Piece {
    // An alternative, with what its range matches.
    fn of(
        alloc: Global,
        flavour: Flavour,
        pre_release: PreRelease,
        alternative: Alternative<'_>,
    ) -> Result<Piece, AllocError>
        requires { IsWritable alternative.parsed }
        ensures { IfOk result (IsExplainedPiece flavour pre_release alternative.entry) }
    {
        let text = String::from_str(alloc, alternative.text)?;
        let comparators = comparators_of(alloc, flavour, alternative.text)?;
        let meaning = match alternative.parsed {
            Parsed::Range(range) => Meaning::of(alloc, pre_release, range)?,
            Parsed::Invalid(error) => Meaning::LeftOut(error),
        };
        Ok(Piece {
            text,
            meaning,
            comparators,
        })
    }
}

// The alternatives of a text, each with its meaning.
fn pieces_of(
    alloc: Global,
    flavour: Flavour,
    pre_release: PreRelease,
    text: &str,
) -> Result<Vec<Piece>, AllocError>
    ensures { IfOk result
        (λ pieces. AreItsPieces flavour pre_release text.now pieces.items) }
{
    let mut pieces = Vec::new(alloc);
    for alternative in alternatives(alloc, 0, text, flavour)? {
        pieces.push(Piece::of(alloc, flavour, pre_release, alternative)?)?;
    }
    Ok(pieces)
}

/// Returns what the grammar makes of a range's text: the tag; or the alternatives, each with the range that it means and the
/// lowest version of that, or why it is left out, and the canonical form of all.
pub fn explain(
    alloc: Global,
    flavour: Flavour,
    pre_release: PreRelease,
    text: &str,
) -> Result<Explanation, Problem>
    ensures answer { IfOk result (IsExplained flavour pre_release text.now) }
    ensures invalid { IfErr result
        (λ p. (fault_of p ≡ OutOfMemory) ⊎ IsRangeAt flavour 0 text.now (Err (fault_of p))) }
{
    let range = range(alloc, flavour, 0, text)?;
    if let RangeSetOrTag::Tag(tag) = range.inner() {
        return Ok(Explanation::Tag(tag.copy()?));
    }
    let pieces = pieces_of(alloc, flavour, pre_release, text)?;
    let normal = range.to_string_normalized(alloc)?;
    Ok(Explanation::Ranges { pieces, normal })
}
