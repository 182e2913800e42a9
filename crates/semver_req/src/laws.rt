//! Laws of requirements and of their grammars, each as the contract of a call.
//!
//! `==` on each type of this crate is true exactly if the two values are the same, as contracts see them; on requirements, if
//! their ranges or tags are. A caller whose proof needs that calls `Same::is_same` of `semver_base`, or [`equal_requirements`], instead
//! of `==`. Equal values hash alike: `equal_hash_alike` of `semver_base` says so for each type with `Hash`.
//!
//! The laws of the grammars are about texts and ranges alone. Their calls do nothing: a caller cites what they ensure.

ghost use Rattle.std.specs.Prelude.{◌≡◌, ◌↔◌, IsTrue};
ghost use Rattle.std.proofs.Common.{rules};
ghost use Rattle.semver_req.specs.Ascending.{AscendingArrangementsTie};
ghost use Rattle.semver_req.specs.ResolveSteps.{OneWalkFindsTheBest};
ghost use Rattle.semver_req.specs.RetainedSet.{RetainedSetsMeanTheirTrees};
ghost use Rattle.semver_req.specs.Outcome.{TextsHaveOneOutcome};
ghost use Rattle.semver_req.specs.TextRejection.{TextsAreRejectedForOneReason};
ghost use Rattle.semver_req.specs.Alternatives.{TextsHaveOneListOfAlternatives, TextsHaveOneListOfErrors, TextsLeaveTheirGrammarAtTheFirstError};
ghost use Rattle.semver_req.specs.ComparatorLists.{AlternativesHaveOneListOfComparators};
ghost use Rattle.semver_req.specs.Pieces.{NormalPiecesAreNpms};
ghost use Rattle.semver_req.specs.AnyOrder.{TestsHaveOneLowestVersion};
ghost use Rattle.semver_req.specs.Parsers.{ReadRequirementsAreAnswers};
ghost use Rattle.semver_req.specs.Sameness.{inner_reported};
ghost use Rattle.semver_req.specs.Rereading.{NormalTextsAreEquivalent, NormalTextsHoldNoSeparator, NormalTextsKeepTheirMeaning, OneRereadingStabilizes, RangesAreWrittenAsPieces, ReadRangesAreWritable, StableSetsAreTheirTexts, StarIsAnyVersion, TagsHoldNoSeparator, TagsReadBack};

use crate::common::values::Flavour;
use crate::error_places::expected::Kind;
use crate::range_set_or_tag::RangeSetOrTag;
use crate::req::VersionReq;
use semver_base::laws::{Same, read_versions_are_readable};

impl Same for Flavour {
    ghost decides = { Prim.search rules };
}

impl Same for Kind {
    ghost decides = { Prim.search rules };
}

impl Same for RangeSetOrTag {
    ghost decides = { inner_reported };
}

/// Whether two requirements are equal: their ranges or tags are, whatever texts they were parsed from.
pub fn equal_requirements(one: &VersionReq, other: &VersionReq) -> bool
    ensures { IsTrue result ↔ (one.now.inner ≡ other.now.inner) }
{
    one == other
}

/// A text has one outcome in each of the three grammars: never two trees of comparators, nor a tree and a tag, nor a tag and
/// an error.
pub fn texts_have_one_outcome()
    ensures { TextsHaveOneOutcome }
{}

/// A grammar rejects a text for one reason: no text has two failures other than out of memory.
pub fn texts_are_rejected_for_one_reason()
    ensures { TextsAreRejectedForOneReason }
{}

/// A text has one list of alternatives in each grammar: how it is split, and the range or the error of each.
pub fn texts_have_one_list_of_alternatives()
    ensures { TextsHaveOneListOfAlternatives }
{}

/// A text has one list of errors in each grammar: of its invalid alternatives, where each starts, ends and is wrong, why it is
/// rejected, and what is expected there.
pub fn texts_have_one_list_of_errors()
    ensures { TextsHaveOneListOfErrors }
{}

/// An alternative has one list of comparators in each grammar: the text of each, and what it parses to by itself.
pub fn alternatives_have_one_list_of_comparators()
    ensures { AlternativesHaveOneListOfComparators }
{}

/// If the first invalid alternative of a text leaves the grammar, the whole text leaves it at the same place: what stands before that
/// place begins some text of the grammar, with all its alternatives, and no longer part of the text does. If a number in that alternative
/// is too large, so it is with the grammar of numbers that fit. npm's parser trims a text first, so whitespace at its end isn't counted.
pub fn texts_leave_their_grammar_at_the_first_error()
    ensures { TextsLeaveTheirGrammarAtTheFirstError }
{}

/// A test of versions has one lowest version without a build that is read back from its text, or none.
pub fn tests_have_one_lowest_version()
    ensures { TestsHaveOneLowestVersion }
{
    read_versions_are_readable();
}

/// A requirement that means an outcome of a text, and keeps the text that was parsed, is a result of the text's parser: all
/// that the parser ensures holds of it.
pub fn read_requirements_are_answers()
    ensures { ReadRequirementsAreAnswers }
{}

/// A piece between two `||` in the normalized grammar is also one of npm's, with the same comparators.
pub fn normalized_pieces_are_npms()
    ensures { NormalPiecesAreNpms }
{}

/// What a parser keeps of a text's comparators matches what they match: each alternative folded into one pair of bounds
/// matches the same versions, and a dropped range matches none.
pub fn retained_sets_mean_their_trees()
    ensures { RetainedSetsMeanTheirTrees }
{}

/// The canonical form of ranges that a parser returned has one outcome in npm's and in the normalized grammar, the same
/// comparators in both. They match the versions that the ranges match, unless a range with an end starts at a pre-release of
/// 0.0.0 and is neither that version alone nor its `^` or `~` range, as `^0.0.0-pre`.
pub fn normal_texts_keep_their_meaning()
    ensures { NormalTextsKeepTheirMeaning }
{}

/// Ranges that a parser returned are equivalent to what npm's or the normalized parser makes of their canonical form: both
/// match the same versions, unless a range with an end starts at a pre-release of 0.0.0 and is neither that version alone nor
/// its `^` or `~` range, as `^0.0.0-pre`.
pub fn normal_texts_are_equivalent()
    ensures { NormalTextsAreEquivalent }
{}

/// The texts of the bounds of parsed ranges parse back to versions: for the range of each piece, and for each range that a
/// parser returns. So the text of what [`VersionRange::min_version`](semver_base::range::VersionRange::min_version) returns
/// for them parses back too.
pub fn read_ranges_are_writable()
    ensures { ReadRangesAreWritable }
{}

/// The canonical form of each range that a parser returned is one piece without `||`, in npm's and in the normalized grammar
/// of the same one or two comparators, whose numbers and bounds fit; so is that of the empty set, `<0.0.0`.
pub fn ranges_are_written_as_pieces()
    ensures { RangesAreWrittenAsPieces }
{}

/// What either parser keeps of the canonical form of ranges that a parser returned is stable: either parser parses its own
/// canonical form to comparators, and keeps the same ranges of them. Two stable sets, whoever made them, are the same exactly
/// if their canonical forms are.
pub fn one_rereading_stabilizes()
    ensures stabilizes { OneRereadingStabilizes }
    ensures by_text { StableSetsAreTheirTexts }
{}

/// A tag that a parser returned parses back: the normalized parser returns the same tag for it. For a tag of the normalized
/// parser itself the text it came from must not begin with whitespace: ` 1` gives the tag `1`, whose text is a range.
pub fn tags_read_back()
    ensures { TagsReadBack }
{}

/// Neither the canonical form of ranges that a parser returned nor a tag that a parser returned contains an `@` or a `/`; for
/// the normalized parser's tags, if the text doesn't begin with whitespace. So either can stand in the text of a package.
pub fn requirements_hold_no_separator()
    ensures ranges { NormalTextsHoldNoSeparator }
    ensures tags { TagsHoldNoSeparator }
{}

/// Each parser parses `*` to what [`wildcard_version_req`](crate::req::wildcard_version_req) returns: any version.
pub fn star_is_any_version()
    ensures { StarIsAnyVersion }
{}

/// Two ascending arrangements of a list have items that tie at each place, whatever a sort does with those that tie.
pub fn ascending_arrangements_tie<T>()
    ensures { AscendingArrangementsTie T }
{}

/// One walk over a list finds its best match, and a list has only one.
pub fn one_walk_finds_the_best<T>()
    ensures { OneWalkFindsTheBest T }
{}
