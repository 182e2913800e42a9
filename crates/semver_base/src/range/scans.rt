//! What a set matches, as scans of sort keys, by which an index finds the versions without parsing any.
//!
//! They are the set's intervals (`range::intervals`), with their cuts written as keys, sorted and merged.

ghost use Rattle.std.specs.Prelude.{◌≡◌, ◌++◌, ℕ, List, IfOk, true};
ghost use Rattle.std.specs.List.{list_any, All};
ghost use Rattle.std.specs.Option.{option_to_list};
ghost use Rattle.std.specs.String.{string_bytes};
ghost use Rattle.semver_base.specs.Intervals.{hold, is_within, some_means, AreWritableIntervals, IsWhole, IsWritableInterval};
ghost use Rattle.semver_base.specs.LowestVersion.{IsReadable};
ghost use Rattle.semver_base.specs.Meaning.{set_means_with};
ghost use Rattle.semver_base.specs.NormalText.{AreWritableRanges};
ghost use Rattle.semver_base.specs.Scans.{cut_key, group_of, is_nonempty, is_of_kind, lies, lies_in, numbers_key, ScansAreSorted, ScansFind};
ghost use Rattle.semver_base.specs.SortKey.{sort_key};

use crate::range::intervals::{Cut, Group, Interval, Place, matched, push_some};
use crate::range::{PreRelease, VersionRange, VersionRangeSet};
use crate::sort_key::push_number;
use crate::version::Version;
use std::alloc::{AllocError, Global};

/// A scan of an index: the sort keys of releases, or those of pre-releases, from `low` on and below `high`.
#[derive(Drop)]
pub struct Scan {
    /// Whether it is one of pre-releases.
    pub is_pre: bool,
    pub low: String,
    pub high: String,
}

// The keys from `low` on and below `high`.
#[derive(Drop)]
struct Span {
    low: String,
    high: String,
}

// The keys of the version's three numbers, and what follows.
fn numbers_with(alloc: Global, version: &Version, rest: &str) -> Result<String, AllocError>
    ensures { IfOk result (λ key. string_bytes key ≡ numbers_key version.now ++ rest.now) }
{
    let mut key = String::new(alloc);
    push_number(&mut key, version.major)?;
    push_number(&mut key, version.minor)?;
    push_number(&mut key, version.patch)?;
    key.push_str(rest)?;
    Ok(key)
}

impl Cut<'_> {
    // The string at or above which are the sort keys of just those versions that are above the cut.
    fn key(self, alloc: Global) -> Result<String, AllocError>
        ensures { IfOk result (λ key. string_bytes key
            ≡ cut_key self.entry.place self.entry.version.now) }
    {
        match self.place {
            Place::Floor => numbers_with(alloc, self.version, "-"),
            Place::Before => self.version.sort_key(alloc),
            Place::After => {
                let mut key = self.version.sort_key(alloc)?;
                key.push('!')?;
                Ok(key)
            }
            Place::Ceiling => numbers_with(alloc, self.version, "~~"),
            Place::End => String::from_str(alloc, "~"),
        }
    }
}

impl Interval<'_> {
    // The keys of the interval's versions, if there are any between its cuts.
    fn span(self, alloc: Global) -> Result<Option<Span>, AllocError>
        ensures holds { IfOk result (λ span. (v : Version) → IsReadable v
            → IsWritableInterval self.entry
            → list_any (lies_in (sort_key v)) (option_to_list span) ≡ is_within self.entry v) }
        ensures nonempty { IfOk result
            (λ span. All (λ (s : Span). is_nonempty s ≡ true) (option_to_list span)) }
    {
        let low = self.low.key(alloc)?;
        let high = self.high.key(alloc)?;
        if low.cmp(&high).is_lt() {
            return Ok(Some(Span { low, high }));
        }
        Ok(None)
    }
}

// The keys of the versions of each interval.
fn spans_of(alloc: Global, intervals: &[Interval<'_>]) -> Result<Vec<Span>, AllocError>
    ensures holds { IfOk result (λ spans. (v : Version) → IsReadable v
        → AreWritableIntervals intervals.now
        → list_any (lies_in (sort_key v)) spans.items ≡ hold intervals.now v) }
    ensures nonempty { IfOk result (λ spans. All (λ (s : Span). is_nonempty s ≡ true) spans.items) }
{
    let mut spans = Vec::new(alloc);
    for interval in intervals {
        let span = interval.span(alloc)?;
        push_some(&mut spans, span)?;
    }
    Ok(spans)
}

impl Scan {
    fn between(alloc: Global, is_pre: bool, low: &str, high: &str) -> Result<Scan, AllocError>
        ensures { IfOk result (λ scan. (scan.is_pre ≡ is_pre)
            × ((string_bytes scan.low ≡ low.now) × (string_bytes scan.high ≡ high.now))) }
    {
        Ok(Scan {
            is_pre,
            low: String::from_str(alloc, low)?,
            high: String::from_str(alloc, high)?,
        })
    }
}

// The scans that these come to, once they are sorted and those that touch are merged.
fn merged(alloc: Global, is_pre: bool, mut spans: Vec<Span>) -> Result<Vec<Scan>, AllocError>
    requires { All (λ (s : Span). is_nonempty s ≡ true) spans.items }
    ensures kind { IfOk result (λ scans. All (λ (s : Scan). s.is_pre ≡ is_pre) scans.items) }
    ensures holds { IfOk result (λ scans. (key : List ℕ)
        → list_any (λ (s : Scan). lies (string_bytes s.low) (string_bytes s.high) key) scans.items
        ≡ list_any (lies_in key) spans.items) }
    ensures sorted { IfOk result (λ scans. ScansAreSorted scans.items) }
{
    spans.sort_by(|one, other| one.low.cmp(&other.low))?;
    let sorted = spans.as_slice();
    let mut scans = Vec::new(alloc);
    let Some((first, others)) = sorted.split_first() else {
        return Ok(scans);
    };
    let mut low = &first.low;
    let mut high = &first.high;
    for span in others {
        if span.low.cmp(high).is_le() {
            if high.cmp(&span.high).is_lt() {
                high = &span.high;
            }
        } else {
            scans.push(Scan::between(alloc, is_pre, low.as_str(), high.as_str())?)?;
            low = &span.low;
            high = &span.high;
        }
    }
    scans.push(Scan::between(alloc, is_pre, low.as_str(), high.as_str())?)?;
    Ok(scans)
}

impl PreRelease {
    // The group of the pre-releases, or that of the releases.
    fn group(self, is_pre: bool) -> Group
        ensures { result ≡ group_of self is_pre }
    {
        match self {
            PreRelease::Restricted if is_pre => Group::PreReleases,
            PreRelease::Restricted => Group::Releases,
            PreRelease::Admitted => Group::Every,
        }
    }
}

// What the ranges match of the pre-releases, or of the releases.
fn scans_of<'a>(
    alloc: Global,
    ranges: &'a [VersionRange],
    pre_release: PreRelease,
    is_pre: bool,
    whole: Interval<'a>,
) -> Result<Vec<Scan>, AllocError>
    requires { IsWhole whole }
    ensures kind { IfOk result (λ scans. All (λ (s : Scan). s.is_pre ≡ is_pre) scans.items) }
    ensures holds { IfOk result (λ scans. AreWritableRanges ranges.now
        → (v : Version) → IsReadable v → is_of_kind is_pre v ≡ true
        → list_any (λ (s : Scan). lies (string_bytes s.low) (string_bytes s.high) (sort_key v))
        scans.items ≡ some_means pre_release ranges.now v) }
    ensures sorted { IfOk result (λ scans. ScansAreSorted scans.items) }
{
    let group = pre_release.group(is_pre);
    let intervals = matched(alloc, ranges, group, whole)?;
    let spans = spans_of(alloc, intervals.as_slice())?;
    merged(alloc, is_pre, spans)
}

impl VersionRangeSet {
    /// What the set matches, as scans of sort keys, with pre-releases restricted or admitted throughout.
    ///
    /// The set matches a version that a text parses to exactly if some scan of its kind, release or pre-release, has its
    /// [`Version::sort_key`]: at or above `low` and below `high`, as bytes compare. This is said of sets whose bounds have texts
    /// that parse back; those of every parsed set do. With an index on the kind and the key, a database finds all versions
    /// that match, and parses none. `^1.2` has one scan of releases, from `A1A2A0~` to `A2A0A0~`.
    ///
    /// The scans of releases come first. Those of a kind are sorted, with a gap between one and the next, and in each `low` is
    /// below `high`, so no version is found twice.
    ///
    /// Fails only out of memory.
    pub fn scans(&self, alloc: Global, pre_release: PreRelease) -> Result<Vec<Scan>, AllocError>
        ensures matches { IfOk result (λ scans. AreWritableRanges self.now.0
            → ScansFind scans.items (set_means_with pre_release self.now.0)) }
        ensures sorted { IfOk result (λ scans. ScansAreSorted scans.items) }
    {
        let zero = Version::new(alloc);
        let whole = Interval::whole(&zero);
        let ranges = self.0.as_slice();
        let mut scans = scans_of(alloc, ranges, pre_release, false, whole)?;
        let mut others = scans_of(alloc, ranges, pre_release, true, whole)?;
        scans.append(&mut others)?;
        Ok(scans)
    }
}
