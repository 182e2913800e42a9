//! Laws of equality and hashing, each as the contract of a call.
//!
//! `==` on each type of this crate is true exactly if the two values are the same, as contracts see them; on `CowVec`, if `==`
//! on its items is. A caller whose proof needs that calls [`Same::is_same`] instead of `==`.
//!
//! Equal values hash alike: they write the same to every `Hasher`. `equal_hash_alike` says so for each type with `Hash`.
//!
//! The last eleven laws are about versions, ranges and their texts alone. Their calls do nothing: a caller cites what they
//! ensure.

ghost use Rattle.std.specs.Prelude.{◌≡◌, ◌↔◌, IsTrue};
ghost use Rattle.std.proofs.Common.{rules};
ghost use Rattle.std.specs.Cmp.Lexicographic.{pointwise_decides};
ghost use Rattle.semver_base.specs.Clamp.{ClampedRangesMeanBoth};
ghost use Rattle.semver_base.specs.Grammar.{CountedRunsAreCut};
ghost use Rattle.semver_base.specs.Sameness.{ReportsSame, kind_reported, range_bound_reported, range_reported, range_set_reported, text_reported, version_bound_reported};
ghost use Rattle.semver_base.specs.LowestVersion.{ReadVersionsAreReadable};
ghost use Rattle.semver_base.specs.NormalTable.{IsNormalTable};
ghost use Rattle.semver_base.specs.PrecedenceLaws.{version_reported};
ghost use Rattle.semver_base.specs.SortKey.{NoSortKeyBeginsAnother, SortKeysArePrintable, SortKeysAreShort, SortKeysFollowPrecedence};
ghost use Rattle.semver_base.specs.VersionText.{VersionTextsAreBare, VersionTextsHaveOneOutcome, VersionTextsReadBack};

use crate::failure::{ParseFailure, ParserError, Rejection};
use crate::partial::{PrimitiveKind, XRange};
use crate::range::{
    PreRelease, RangeBound, VersionBound, VersionBoundKind, VersionRange, VersionRangeSet,
};
use crate::string::{CowVec, ShortText};
use crate::version::Version;
use std::hash::Hash;

/// A type whose `==` is true exactly if two values are the same, as contracts see them.
pub trait Same: PartialEq {
    /// Whether two values are the same, as `==` says.
    fn is_same(&self, other: &Self) -> bool
        ensures { IsTrue result ↔ (self.now ≡ other.now) }
    {
        self == other
    }

    /// `==` decides that.
    ghost decides: { ReportsSame Self.eq };
}

impl<const LIMIT: usize> Same for ShortText<LIMIT> {
    ghost decides = { text_reported };
}

impl<T: Same> Same for CowVec<T> {
    ghost decides = { pointwise_decides T.decides };
}

impl Same for Rejection {
    ghost decides = { Prim.search rules };
}

impl Same for ParseFailure {
    ghost decides = { Prim.search rules };
}

impl<const PARSER: usize> Same for ParserError<PARSER> {
    ghost decides = { Prim.search rules };
}

impl Same for Version {
    ghost decides = { version_reported };
}

impl Same for VersionBoundKind {
    ghost decides = { kind_reported };
}

impl Same for PreRelease {
    ghost decides = { Prim.search rules };
}

impl Same for VersionBound {
    ghost decides = { version_bound_reported };
}

impl Same for RangeBound {
    ghost decides = { range_bound_reported };
}

impl Same for VersionRange {
    ghost decides = { range_reported };
}

impl Same for VersionRangeSet {
    ghost decides = { range_set_reported };
}

impl Same for XRange {
    ghost decides = { Prim.search rules };
}

impl Same for PrimitiveKind {
    ghost decides = { Prim.search rules };
}

/// Whether two values are equal; equal values write the same to every hasher.
pub fn equal_hash_alike<T: Hash>(one: &T, other: &T) -> bool
    ensures equal { result ≡ T.eq one.now other.now }
    ensures alike { IsTrue (T.eq one.now other.now)
        → T.hash_input one.now ≡ T.hash_input other.now }
{
    one == other
}

/// A text has one outcome: it parses to one version or has one error, never two and never both.
pub fn version_texts_have_one_outcome()
    ensures { VersionTextsHaveOneOutcome }
{}

/// The text of a version whose identifiers match the grammar parses to that version, build included (SemVer 2.0.0, section
/// 2).
pub fn version_texts_read_back()
    ensures { VersionTextsReadBack }
{}

/// The intersection of two ranges means what both mean together, as comparators of one alternative. `clamp_into` and
/// `into_stopped` compute it too, so that what [`VersionRange::clamp`] ensures holds of their results.
pub fn clamped_ranges_mean_both()
    ensures { ClampedRangesMeanBoth }
{}

/// The canonical form of a range is the text that the table of short forms gives, row by row.
pub fn normal_texts_follow_the_table()
    ensures { IsNormalTable }
{}

/// Every version that a text parses to is among those of which `common_version` and `min_version` return the lowest: its
/// numbers fit, and the identifiers of its pre-release match the grammar (SemVer 2.0.0, sections 2 and 9).
pub fn read_versions_are_readable()
    ensures { ReadVersionsAreReadable }
{}

/// The text of a parsed version consists of letters, digits, `-`, `.` and `+`.
pub fn version_texts_are_bare()
    ensures { VersionTextsAreBare }
{}

/// The leading bytes that pass a test are as many as `take_while` yields, and the next one, if any, fails it.
pub fn counted_runs_are_cut()
    ensures { CountedRunsAreCut }
{}

/// Sort keys compare by bytes as [`Version::cmp_precedence`] compares their versions, for all versions that a text parses to.
pub fn sort_keys_follow_precedence()
    ensures { SortKeysFollowPrecedence }
{}

/// No sort key is the beginning of a longer one, for all versions that a text parses to.
pub fn no_sort_key_begins_another()
    ensures { NoSortKeyBeginsAnother }
{}

/// A sort key is printable ASCII without whitespace, for all versions that a text parses to.
pub fn sort_keys_are_printable()
    ensures { SortKeysArePrintable }
{}

/// The sort key of any version is at most three times as long as its text.
pub fn sort_keys_are_short()
    ensures { SortKeysAreShort }
{}
