//! Questions about versions and ranges, each answered from texts.
//!
//! The arguments are parsed from left to right, and the first invalid one is the problem. If a range is a tag, the result is
//! the tag once all arguments are parsed. Any other problem is out of memory.

ghost use Rattle.std.specs.Prelude.{◌≡◌, IfOk, string_bytes};
ghost use Rattle.std.specs.Option.{option_copied};
ghost use Rattle.semver_base.specs.VersionText.{version_text};
ghost use Rattle.answers.specs.Asking.{IsAnswer};
ghost use Rattle.answers.specs.Questions.{BestMatch, Canonical, Common, Displayed, Equivalent, LiesOutside, Matches, Orders, Outside, Overlaps, SortKeyOf, better, first_tag};
ghost use Rattle.answers.specs.Reading.{texts_of};

use crate::asking::{Answer, Problem};
use crate::reading::{range, ranges, version, versions};
use node_semver::outside::{Side, is_outside};
use semver_base::range::PreRelease;
use semver_base::version::Version;
use semver_req::common::values::Flavour;
use semver_req::laws::read_ranges_are_writable;
use semver_req::range_set_or_tag::{PackageTag, RangeSetOrTag};
use semver_req::req::VersionReq;
use semver_req::resolve::{max_satisfying_with, min_satisfying_with};
use std::alloc::{AllocError, Global};
use std::cmp::Ordering;

/// An end of the order of precedence.
#[derive(Clone, Copy)]
pub enum End {
    Highest,
    Lowest,
}

impl End {
    /// Whether one version is nearer to this end than the other.
    pub fn is_better(self, one: &Version, other: &Version) -> bool
        ensures { result ≡ better self one.now other.now }
    {
        match self {
            End::Highest => other.cmp_precedence(one).is_lt(),
            End::Lowest => one.cmp_precedence(other).is_lt(),
        }
    }
}

/// A version of a list, and its place there.
#[derive(Drop)]
pub struct Best {
    pub place: usize,
    pub version: Version,
}

// The first tag among the ranges.
fn first_tag(ranges: &[VersionReq]) -> Option<&str>
    ensures { option_copied result ≡ first_tag ranges.now }
{
    for range in ranges {
        if let Some(tag) = range.tag() {
            return Some(tag);
        }
    }
    None
}

/// Does the version match the range?
pub fn matches(
    alloc: Global,
    flavour: Flavour,
    pre_release: PreRelease,
    range_text: &str,
    version_text: &str,
) -> Result<Answer<bool>, Problem>
    ensures { IsAnswer (Matches pre_release flavour range_text.now version_text.now)
        (λ answer. answer) result }
{
    let range = range(alloc, flavour, 0, range_text)?;
    let version = version(alloc, 0, version_text)?;
    match range.tag() {
        Some(tag) => Ok(Answer::Tag(PackageTag::from_str(alloc, tag)?)),
        None => Ok(Answer::Value(range.matches_with(&version, pre_release))),
    }
}

/// Does the version lie on this side of each version that the range matches?
pub fn lies_outside(
    alloc: Global,
    side: Side,
    flavour: Flavour,
    pre_release: PreRelease,
    range_text: &str,
    version_text: &str,
) -> Result<Answer<bool>, Problem>
    ensures { IsAnswer (LiesOutside side pre_release flavour range_text.now version_text.now)
        (λ answer. answer) result }
{
    read_ranges_are_writable();
    let range = range(alloc, flavour, 0, range_text)?;
    let version = version(alloc, 0, version_text)?;
    let set = match range.inner() {
        RangeSetOrTag::RangeSet(set) => set,
        RangeSetOrTag::Tag(tag) => {
            return Ok(Answer::Tag(PackageTag::from_str(alloc, tag.as_str())?));
        }
    };
    let lies = is_outside(alloc, &version, side, set, pre_release)?;
    Ok(Answer::Value(lies))
}

/// Which of the versions is the highest or lowest that matches the range? Of those that differ only in the build, the first.
pub fn best_match(
    alloc: Global,
    end: End,
    flavour: Flavour,
    pre_release: PreRelease,
    range_text: &str,
    version_texts: &[&str],
) -> Result<Answer<Option<Best>>, Problem>
    ensures { IsAnswer
        (BestMatch end pre_release flavour range_text.now (texts_of version_texts.now))
        (λ answer. answer) result }
{
    let range = range(alloc, flavour, 0, range_text)?;
    let mut versions = versions(alloc, version_texts)?;
    if let Some(tag) = range.tag() {
        return Ok(Answer::Tag(PackageTag::from_str(alloc, tag)?));
    }
    let place = match end {
        End::Highest => max_satisfying_with(versions.as_slice(), &range, pre_release),
        End::Lowest => min_satisfying_with(versions.as_slice(), &range, pre_release),
    };
    match place {
        Some(place) => {
            let version = versions.remove(place);
            Ok(Answer::Value(Some(Best { place, version })))
        }
        None => Ok(Answer::Value(None)),
    }
}

/// Do the two ranges overlap, by their bounds? Two tags overlap if they are the same, a tag and versions never.
pub fn overlaps(
    alloc: Global,
    flavour: Flavour,
    one_text: &str,
    other_text: &str,
) -> Result<bool, Problem>
    ensures { IsAnswer (Overlaps flavour one_text.now other_text.now)
        (λ answer. answer) result }
{
    let one = range(alloc, flavour, 0, one_text)?;
    let other = range(alloc, flavour, 1, other_text)?;
    Ok(one.intersects(&other))
}

/// What is the lowest version that all ranges match? For no ranges there is none.
pub fn common_version(
    alloc: Global,
    flavour: Flavour,
    pre_release: PreRelease,
    texts: &[&str],
) -> Result<Answer<Option<Version>>, Problem>
    ensures { IsAnswer (Common pre_release flavour (texts_of texts.now))
        (λ answer. answer) result }
{
    let ranges = ranges(alloc, flavour, texts)?;
    if let Some(tag) = first_tag(ranges.as_slice()) {
        return Ok(Answer::Tag(PackageTag::from_str(alloc, tag)?));
    }
    let Some((first, others)) = ranges.split_first() else {
        return Ok(Answer::Value(None));
    };
    let lowest = first.common_version_of_all(alloc, others, pre_release)?;
    Ok(Answer::Value(lowest))
}

/// What is the lowest version that the first range matches and the other doesn't? There is none exactly if the other contains
/// the first.
pub fn version_outside(
    alloc: Global,
    flavour: Flavour,
    pre_release: PreRelease,
    one_text: &str,
    other_text: &str,
) -> Result<Answer<Option<Version>>, Problem>
    ensures { IsAnswer (Outside pre_release flavour one_text.now other_text.now)
        (λ answer. answer) result }
{
    let one = range(alloc, flavour, 0, one_text)?;
    let other = range(alloc, flavour, 1, other_text)?;
    if let Some(tag) = one.tag().or(other.tag()) {
        return Ok(Answer::Tag(PackageTag::from_str(alloc, tag)?));
    }
    let lowest = one.version_outside(alloc, &other, pre_release)?;
    Ok(Answer::Value(lowest))
}

/// Do the two ranges match the same versions?
pub fn equivalent(
    alloc: Global,
    flavour: Flavour,
    pre_release: PreRelease,
    one_text: &str,
    other_text: &str,
) -> Result<Answer<bool>, Problem>
    ensures { IsAnswer (Equivalent pre_release flavour one_text.now other_text.now)
        (λ answer. answer) result }
{
    let one = range(alloc, flavour, 0, one_text)?;
    let other = range(alloc, flavour, 1, other_text)?;
    if let Some(tag) = one.tag().or(other.tag()) {
        return Ok(Answer::Tag(PackageTag::from_str(alloc, tag)?));
    }
    let same = one.is_equivalent(alloc, &other, pre_release)?;
    Ok(Answer::Value(same))
}

/// What is the canonical form of the range? That of a tag is the tag.
pub fn canonical(alloc: Global, flavour: Flavour, range_text: &str) -> Result<String, Problem>
    ensures { IsAnswer (Canonical flavour range_text.now)
        (λ text. string_bytes text) result }
{
    let range = range(alloc, flavour, 0, range_text)?;
    Ok(range.to_string_normalized(alloc)?)
}

/// The text of a version.
pub fn text_of_version(alloc: Global, version: &Version) -> Result<String, AllocError>
    ensures { IfOk result (λ text. string_bytes text ≡ version_text version.now) }
{
    format!(in alloc; "{version}")
}

/// How is the version displayed?
pub fn displayed(alloc: Global, version_text: &str) -> Result<String, Problem>
    ensures { IsAnswer (Displayed version_text.now) (λ text. string_bytes text) result }
{
    let version = version(alloc, 0, version_text)?;
    Ok(text_of_version(alloc, &version)?)
}

/// What is the sort key of the version?
pub fn sort_key(alloc: Global, version_text: &str) -> Result<String, Problem>
    ensures { IsAnswer (SortKeyOf version_text.now) (λ text. string_bytes text) result }
{
    let version = version(alloc, 0, version_text)?;
    Ok(version.sort_key(alloc)?)
}

/// Which of the two versions comes before the other? The build doesn't matter.
pub fn order(alloc: Global, one_text: &str, other_text: &str) -> Result<Ordering, Problem>
    ensures { IsAnswer (Orders one_text.now other_text.now) (λ order. order) result }
{
    let one = version(alloc, 0, one_text)?;
    let other = version(alloc, 1, other_text)?;
    Ok(one.cmp_precedence(&other))
}
