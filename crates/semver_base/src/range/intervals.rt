//! What ranges match, as intervals of versions, the gaps between intervals, and the lowest version that intervals hold.
//!
//! An interval lies between two cuts, and a cut between versions, so each bound of a range is one. With pre-releases admitted a
//! set matches what the intervals of its ranges hold. By npm's rule releases and pre-releases are two groups: the same
//! intervals hold the releases, and for pre-releases each is cut down to the numbers of a bound that admits them.

ghost use Rattle.std.specs.Prelude.{◌≡◌, ◌∷◌, ◌++◌, ◌&&◌, ◌||◌, [], not, true, false, IfOk, IfSome, OnOk};
ghost use Rattle.std.specs.List.{All};
ghost use Rattle.std.specs.Option.{option_to_list};
ghost use Rattle.semver_base.specs.Intervals.{cut_cmp, first, flag_of, higher, hold, is_from, is_of, is_within, lesser, level, lower, next_release, pre_at, rank, release_at, side, some_means, with_pre, zero_identifier, zero_of, AreWritableIntervals, IsFound, IsWhole, IsWritableInterval};
ghost use Rattle.semver_base.specs.Meaning.{bounds_hold, end_holds, has_pre_of, range_means_with, release, start_holds};
ghost use Rattle.semver_base.specs.NormalText.{AreWritableRanges, IsWritableBound, IsWritableRange};
ghost use Rattle.semver_base.specs.VersionText.{IsWritable};

use crate::range::{RangeBound, VersionBoundKind, VersionRange};
use crate::string::CowVec;
use crate::version::{Version, VersionPreOrBuild, cmp_pre, release};
use std::alloc::{AllocError, Global};
use std::cmp::Ordering;

// Where a cut lies.
#[derive(Clone, Copy)]
pub(crate) enum Place {
    // Below all versions of the version's three numbers.
    Floor,
    // Just below the version.
    Before,
    // Just above the version.
    After,
    // Above all versions of the version's three numbers.
    Ceiling,
    // Above all versions.
    End,
}

impl Place {
    // Whether it lies behind all versions.
    fn level(self) -> u8
        ensures { result ≡ level self }
    {
        match self {
            Place::Floor | Place::Before | Place::After | Place::Ceiling => 0,
            Place::End => 1,
        }
    }

    // Where it lies among the cuts of the same three numbers.
    fn rank(self) -> u8
        ensures { result ≡ rank self }
    {
        match self {
            Place::Floor | Place::End => 0,
            Place::Before | Place::After => 1,
            Place::Ceiling => 2,
        }
    }

    // Where it lies among the cuts at one version.
    fn side(self) -> u8
        ensures { result ≡ side self }
    {
        match self {
            Place::Floor | Place::Before | Place::Ceiling | Place::End => 0,
            Place::After => 1,
        }
    }
}

// A cut between versions.
#[derive(Clone, Copy)]
pub(crate) struct Cut<'a> {
    pub(crate) place: Place,
    pub(crate) version: &'a Version,
}

// Which versions are asked for: all, with pre-releases admitted; or by npm's rule the releases, or the pre-releases.
#[derive(Clone, Copy)]
pub(crate) enum Group {
    Every,
    Releases,
    PreReleases,
}

// The versions between two cuts.
#[derive(Clone, Copy)]
pub(crate) struct Interval<'a> {
    pub(crate) low: Cut<'a>,
    pub(crate) high: Cut<'a>,
}

// The version of the same numbers with this pre-release, without a build.
fn with_pre(alloc: Global, version: &Version, pre: CowVec<VersionPreOrBuild>) -> Version
    ensures { result ≡ with_pre version.now pre }
{
    Version {
        major: version.major,
        minor: version.minor,
        patch: version.patch,
        pre,
        build: CowVec::new(alloc),
    }
}

// The version of the same numbers with `0` appended to this pre-release, without a build.
fn with_zero(
    alloc: Global,
    version: &Version,
    mut pre: CowVec<VersionPreOrBuild>,
) -> Result<Version, AllocError>
    ensures { IfOk result
        (λ v. v ≡ with_pre version.now (pre ++ zero_identifier ∷ [])) }
{
    pre.push(VersionPreOrBuild::from_static(alloc, "0")?)?;
    Ok(with_pre(alloc, version, pre))
}

// The lowest pre-release of the version's numbers.
fn zero_version(alloc: Global, version: &Version) -> Result<Version, AllocError>
    ensures { IfOk result (λ v. v ≡ with_pre version.now (zero_identifier ∷ [])) }
{
    with_zero(alloc, version, CowVec::new(alloc))
}

// The lowest pre-release above the version's release, if numbers can be higher.
fn next_zero(alloc: Global, version: &Version) -> Result<Option<Version>, AllocError>
    ensures { IfOk result (λ next. next ≡ zero_of (next_release version.now)) }
{
    match next_release(alloc, version) {
        Some(next) => Ok(Some(zero_version(alloc, &next)?)),
        None => Ok(None),
    }
}

// The release after that of the version's numbers.
fn next_release(alloc: Global, version: &Version) -> Option<Version>
    ensures { result ≡ next_release version.now }
{
    if let Some(patch) = version.patch.checked_add(1) {
        return Some(release(alloc, version.major, version.minor, patch));
    }
    if let Some(minor) = version.minor.checked_add(1) {
        return Some(release(alloc, version.major, minor, 0));
    }
    if let Some(major) = version.major.checked_add(1) {
        return Some(release(alloc, major, 0, 0));
    }
    None
}

impl<'a> Cut<'a> {
    fn at(place: Place, version: &'a Version) -> Cut<'a>
        ensures { result ≡ record { place = place; version = version.entry } }
    {
        Cut { place, version }
    }

    // Compares by the numbers, within them by the place, and of two cuts at versions by the pre-release. The end is the highest.
    #[tactic(auto, unfolding(crate::specs::Intervals::spot_cmp))]
    fn compare(self, other: Cut<'a>) -> Ordering
        ensures { result ≡ cut_cmp self.entry other.entry }
    {
        let (own, others) = (self.version, other.version);
        let by_numbers = own.major.cmp(&others.major).then(
            own.minor
                .cmp(&others.minor)
                .then(own.patch.cmp(&others.patch)),
        );
        let by_rank = self.place.rank().cmp(&other.place.rank());
        let by_level = self.place.level().cmp(&other.place.level());
        match by_level.then(by_numbers.then(by_rank)) {
            Ordering::Equal => {
                let by_side = self.place.side().cmp(&other.place.side());
                cmp_pre(&own.pre, &others.pre).then(by_side)
            }
            unequal => unequal,
        }
    }

    // Whether the version is above the cut.
    fn is_from(self, version: &'a Version) -> bool
        ensures { result ≡ is_from self.entry version.now }
    {
        let before = Cut::at(Place::Before, version);
        self.compare(before).is_le()
    }

    fn higher(self, other: Cut<'a>) -> Cut<'a>
        ensures { result ≡ higher self.entry other.entry }
    {
        match self.compare(other) {
            Ordering::Less => other,
            Ordering::Equal => self,
            Ordering::Greater => self,
        }
    }

    fn lower(self, other: Cut<'a>) -> Cut<'a>
        ensures { result ≡ lower self.entry other.entry }
    {
        match self.compare(other) {
            Ordering::Less => self,
            Ordering::Equal => other,
            Ordering::Greater => other,
        }
    }

    // The cut from which on a start includes versions; an absent one is `lowest`.
    fn of_start(start: &'a RangeBound, lowest: Cut<'a>) -> Cut<'a>
        requires { (v : Version) → is_from lowest v ≡ true }
        ensures holds { (v : Version) → is_from result v ≡ start_holds start.now v }
        ensures writable { IsWritable lowest.entry.version.now → IsWritableBound start.now
            → IsWritable result.version.now }
    {
        match start {
            RangeBound::Unbounded => lowest,
            RangeBound::Version(bound) => match bound.kind {
                VersionBoundKind::Inclusive => Cut::at(Place::Before, &bound.version),
                VersionBoundKind::Exclusive => Cut::at(Place::After, &bound.version),
            },
        }
    }

    // The cut below which an end includes versions; an absent one is `highest`.
    fn of_end(end: &'a RangeBound, highest: Cut<'a>) -> Cut<'a>
        requires { (v : Version) → is_from highest v ≡ false }
        ensures holds { (v : Version) → is_from result v ≡ not (end_holds end.now v) }
        ensures writable { IsWritable highest.entry.version.now → IsWritableBound end.now
            → IsWritable result.version.now }
    {
        match end {
            RangeBound::Unbounded => highest,
            RangeBound::Version(bound) => match bound.kind {
                VersionBoundKind::Inclusive => Cut::at(Place::After, &bound.version),
                VersionBoundKind::Exclusive => Cut::at(Place::Before, &bound.version),
            },
        }
    }

    // The lowest release above the cut.
    fn first_release(self, alloc: Global) -> Option<Version>
        ensures { result ≡ release_at self.entry.place self.entry.version.now }
    {
        let version = self.version;
        match self.place {
            Place::Floor => Some(release(alloc, version.major, version.minor, version.patch)),
            Place::Before => Some(release(alloc, version.major, version.minor, version.patch)),
            Place::After => {
                if version.pre.is_empty() {
                    return next_release(alloc, version);
                }
                Some(release(alloc, version.major, version.minor, version.patch))
            }
            Place::Ceiling => next_release(alloc, version),
            Place::End => None,
        }
    }

    // The lowest pre-release above the cut.
    fn first_pre(self, alloc: Global) -> Result<Option<Version>, AllocError>
        ensures { IfOk result (λ lowest. lowest ≡ pre_at self.entry.place self.entry.version.now) }
    {
        let version = self.version;
        match self.place {
            Place::Floor => Ok(Some(zero_version(alloc, version)?)),
            Place::Before => {
                if version.pre.is_empty() {
                    return next_zero(alloc, version);
                }
                Ok(Some(with_pre(alloc, version, version.pre.copy()?)))
            }
            Place::After => {
                if version.pre.is_empty() {
                    return next_zero(alloc, version);
                }
                let pre = version.pre.copy()?;
                Ok(Some(with_zero(alloc, version, pre)?))
            }
            Place::Ceiling => next_zero(alloc, version),
            Place::End => Ok(None),
        }
    }

    // The lowest version of the group above the cut.
    fn first(self, alloc: Global, group: Group) -> Result<Option<Version>, AllocError>
        ensures { IfOk result
            (λ lowest. lowest ≡ first group self.entry.place self.entry.version.now) }
    {
        match (group, self.place) {
            (Group::Releases, _) => Ok(self.first_release(alloc)),
            (Group::Every, Place::Before) => {
                let pre = self.version.pre.copy()?;
                Ok(Some(with_pre(alloc, self.version, pre)))
            }
            (_, _) => self.first_pre(alloc),
        }
    }
}

impl<'a> Interval<'a> {
    // The interval of all versions.
    pub(crate) fn whole(zero: &'a Version) -> Interval<'a>
        requires { zero.now ≡ release 0 0 0 }
        ensures { IsWhole result }
    {
        Interval {
            low: Cut::at(Place::Floor, zero),
            high: Cut::at(Place::End, zero),
        }
    }

    // The versions between the bounds of the range.
    pub(crate) fn of(range: &'a VersionRange, whole: Interval<'a>) -> Interval<'a>
        requires { IsWhole whole }
        ensures holds { (v : Version) → is_within result v ≡ bounds_hold range.now v }
        ensures low { IsWritableBound range.now.start → IsWritable result.low.version.now }
        ensures high { IsWritableBound range.now.end → IsWritable result.high.version.now }
    {
        Interval {
            low: Cut::of_start(&range.start, whole.low),
            high: Cut::of_end(&range.end, whole.high),
        }
    }

    // Of these versions those with the numbers of the bound, if it is a pre-release.
    pub(crate) fn of_numbers(self, bound: &'a RangeBound) -> Option<Interval<'a>>
        ensures holds { (v : Version) → hold (option_to_list result) v
            ≡ (has_pre_of bound.now v && is_within self.entry v) }
        ensures low { IfSome result (λ interval. IsWritable self.entry.low.version.now
            → IsWritableBound bound.now → IsWritable interval.low.version.now) }
        ensures writable { IsWritableInterval self.entry → IsWritableBound bound.now
            → AreWritableIntervals (option_to_list result) }
    {
        match bound {
            RangeBound::Version(bound) if !bound.version.pre.is_empty() => {
                let version = &bound.version;
                let floor = Cut::at(Place::Floor, version);
                let ceiling = Cut::at(Place::Ceiling, version);
                Some(Interval {
                    low: self.low.higher(floor),
                    high: self.high.lower(ceiling),
                })
            }
            _ => None,
        }
    }

    // What the range matches of the group, as at most two intervals.
    fn of_group(
        range: &'a VersionRange,
        group: Group,
        whole: Interval<'a>,
    ) -> (Option<Interval<'a>>, Option<Interval<'a>>)
        requires { IsWhole whole }
        ensures holds { (v : Version) → is_of group v ≡ true
            → (hold (option_to_list result.0) v || hold (option_to_list result.1) v)
            ≡ range_means_with (flag_of group) range.now v }
        ensures writable { IsWritableRange range.now
            → AreWritableIntervals (option_to_list result.0)
            × AreWritableIntervals (option_to_list result.1) }
    {
        let interval = Interval::of(range, whole);
        match group {
            Group::Every => (Some(interval), None),
            Group::Releases => (Some(interval), None),
            Group::PreReleases => (
                interval.of_numbers(&range.start),
                interval.of_numbers(&range.end),
            ),
        }
    }

    // What both hold.
    pub(crate) fn meet(self, other: Interval<'a>) -> Interval<'a>
        ensures holds { (v : Version) → is_within result v
            ≡ (is_within self.entry v && is_within other.entry v) }
        ensures writable { IsWritableInterval self.entry → IsWritableInterval other.entry
            → IsWritableInterval result }
    {
        Interval {
            low: self.low.higher(other.low),
            high: self.high.lower(other.high),
        }
    }

    // What this one holds and the other doesn't, below it and above it.
    pub(crate) fn without(self, other: Interval<'a>) -> (Interval<'a>, Interval<'a>)
        ensures holds { (v : Version) → (is_within result.0 v || is_within result.1 v)
            ≡ (is_within self.entry v && not (is_within other.entry v)) }
        ensures writable { IsWritableInterval self.entry → IsWritableInterval other.entry
            → IsWritableInterval result.0 × IsWritableInterval result.1 }
    {
        let below = Interval {
            low: self.low,
            high: self.high.lower(other.low),
        };
        let above = Interval {
            low: self.low.higher(other.high),
            high: self.high,
        };
        (below, above)
    }

    // No versions, with cuts of this one.
    pub(crate) fn emptied(self) -> Interval<'a>
        requires { IsWhole self }
        ensures holds { (v : Version) → is_within result v ≡ false }
        ensures writable { IsWritableInterval result }
    {
        Interval {
            low: self.high,
            high: self.high,
        }
    }

    // What the ranges match of the group, if there is one range and this is one interval, or nothing.
    pub(crate) fn of_single(
        ranges: &'a [VersionRange],
        group: Group,
        whole: Interval<'a>,
    ) -> Option<Interval<'a>>
        requires { IsWhole whole }
        ensures holds { IfSome result (λ interval. (v : Version) → is_of group v ≡ true
            → is_within interval v ≡ some_means (flag_of group) ranges.now v) }
        ensures writable { IfSome result
            (λ interval. AreWritableRanges ranges.now → IsWritableInterval interval) }
    {
        let [range] = ranges else {
            return None;
        };
        match Interval::of_group(range, group, whole) {
            (Some(interval), None) => Some(interval),
            (None, None) => Some(whole.emptied()),
            (_, _) => None,
        }
    }

    // The lowest version of the group within the interval.
    pub(crate) fn first(self, alloc: Global, group: Group) -> Result<Option<Version>, AllocError>
        ensures { IfOk result
            (IsFound (λ v. is_of group v && is_within self.entry v)
            (IsWritable self.entry.low.version.now)) }
    {
        if self.low.compare(self.high) != Ordering::Less {
            return Ok(None);
        }
        let Some(first) = self.low.first(alloc, group)? else {
            return Ok(None);
        };
        if self.high.is_from(&first) {
            return Ok(None);
        }
        Ok(Some(first))
    }
}

// Appends the item, if there is one.
pub(crate) fn push_some<T: Drop>(items: &mut Vec<T>, item: Option<T>) -> Result<(), AllocError>
    ensures { OnOk result (items.new.items ≡ items.old.items ++ option_to_list item) }
{
    if let Some(item) = item {
        items.push(item)?;
    }
    Ok(())
}

// What the ranges match of the group.
pub(crate) fn matched<'a>(
    alloc: Global,
    ranges: &'a [VersionRange],
    group: Group,
    whole: Interval<'a>,
) -> Result<Vec<Interval<'a>>, AllocError>
    requires { IsWhole whole }
    ensures holds { IfOk result (λ intervals. (v : Version) → is_of group v ≡ true
        → hold intervals.items v ≡ some_means (flag_of group) ranges.now v) }
    ensures writable { IfOk result
        (λ intervals. AreWritableRanges ranges.now → AreWritableIntervals intervals.items) }
{
    let mut intervals = Vec::new(alloc);
    for range in ranges {
        let (first, second) = Interval::of_group(range, group, whole);
        push_some(&mut intervals, first)?;
        push_some(&mut intervals, second)?;
    }
    Ok(intervals)
}

// Appends the gaps that the intervals leave.
pub(crate) fn push_gaps<'a>(
    gaps: &mut Vec<Interval<'a>>,
    mut intervals: Vec<Interval<'a>>,
    whole: Interval<'a>,
) -> Result<(), AllocError>
    requires { IsWhole whole }
    ensures holds { OnOk result ((v : Version) → hold gaps.new.items v
        ≡ (hold gaps.old.items v || not (hold intervals.entry.items v))) }
    ensures writable { OnOk result (AreWritableIntervals gaps.old.items
        → AreWritableIntervals intervals.entry.items → AreWritableIntervals gaps.new.items) }
{
    intervals.sort_by(|one, other| one.low.compare(other.low))?;
    let sorted = intervals.as_slice();
    let mut from = whole.low;
    for interval in sorted {
        let gap = Interval {
            low: from,
            high: interval.low,
        };
        gaps.push(gap)?;
        from = from.higher(interval.high);
    }
    let last = Interval {
        low: from,
        high: whole.high,
    };
    gaps.push(last)?;
    Ok(())
}

// The lower of two versions.
pub(crate) fn lesser(found: Option<Version>, other: Option<Version>) -> Option<Version>
    ensures { result ≡ lesser found other }
{
    match (found, other) {
        (found, None) => found,
        (None, Some(other)) => Some(other),
        (Some(found), Some(other)) => match found.cmp_precedence(&other) {
            Ordering::Less => Some(found),
            Ordering::Equal => Some(found),
            Ordering::Greater => Some(other),
        },
    }
}

// The lowest version of the group that some interval holds.
pub(crate) fn lowest(
    alloc: Global,
    intervals: &[Interval<'_>],
    group: Group,
) -> Result<Option<Version>, AllocError>
    ensures { IfOk result (IsFound (λ v. is_of group v && hold intervals.now v)
        (AreWritableIntervals intervals.now)) }
{
    let mut found = None;
    for interval in intervals {
        let first = interval.first(alloc, group)?;
        found = lesser(found, first);
    }
    Ok(found)
}
