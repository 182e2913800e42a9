//! The lowest version that ranges match: those of one set, of several sets together, or of one set but not another; and
//! whether one set is a subset of another, or equivalent to it.
//!
//! Each of these asks for the lowest version that all sets match and some other ranges don't. What a set matches is a list of
//! intervals (`range::intervals`). What must not match are the gaps that each set leaves, and the other ranges: the version is
//! the lowest in the gaps that these leave. So the time to sort the intervals decides, `n log n` in the number of all ranges.

ghost use Rattle.std.specs.Prelude.{◌≡◌, ◌∷◌, ◌↔◌, ◌&&◌, ◌||◌, not, [], IfOk, IfSome, IsTrue, is_some, true};
ghost use Rattle.std.specs.List.{list_any, AllByRecursion};
ghost use Rattle.semver_base.specs.Intervals.{all_match, flag_of, has_pre_bound, hold, is_of, is_pre_bound, is_within, passes, some_means, AreWritableIntervals, AreWritableSets, IsFound, IsWhole, IsWritableInterval};
ghost use Rattle.semver_base.specs.Containment.{AreEquivalent, IsWithin, ReportsEquivalent, ReportsWithin};
ghost use Rattle.semver_base.specs.LowestVersion.{HasNoBuild, IsLowestPassing, DecidesSome, PassesSome, all_mean_with, set_means_alone_with, sets_mean_with};
ghost use Rattle.semver_base.specs.Meaning.{admits_pre, is_pre_match, range_means_with, set_means_with};
ghost use Rattle.semver_base.specs.NormalText.{AreWritableRanges, IsWritableBound, IsWritableRange};
ghost use Rattle.semver_base.specs.VersionText.{ReadsBack};

use crate::range::intervals::{self, Group, Interval, lesser, matched, push_gaps};
use crate::range::{PreRelease, RangeBound, VersionRange, VersionRangeSet};
use crate::version::Version;
use std::alloc::{AllocError, Global};
use std::slice;

// What has to match, and what must not.
#[derive(Clone, Copy)]
struct Question<'a> {
    own: &'a [VersionRange],
    others: &'a [VersionRangeSet],
    without: &'a [VersionRange],
    pre_release: PreRelease,
}

// What some set doesn't match of the group, or one of the ranges to be left out does.
fn left_out<'a>(
    alloc: Global,
    own: Vec<Interval<'a>>,
    question: Question<'a>,
    group: Group,
    whole: Interval<'a>,
) -> Result<Vec<Interval<'a>>, AllocError>
    requires whole { IsWhole whole }
    requires own { (v : Version) → is_of group v ≡ true
        → hold own.items v ≡ some_means (flag_of group) question.own.now v }
    requires writable { AreWritableRanges question.own.now → AreWritableIntervals own.items }
    ensures holds { IfOk result (λ out. (v : Version) → is_of group v ≡ true
        → hold out.items v ≡ not (passes (flag_of group) question.entry.own.now
        question.entry.others.now question.entry.without.now v)) }
    ensures writable { IfOk result (λ out. AreWritableRanges question.entry.own.now
        → AreWritableSets question.entry.others.now
        → AreWritableRanges question.entry.without.now → AreWritableIntervals out.items) }
{
    let mut out = Vec::new(alloc);
    push_gaps(&mut out, own, whole)?;
    for set in question.others {
        let intervals = matched(alloc, set.0.as_slice(), group, whole)?;
        push_gaps(&mut out, intervals, whole)?;
    }
    let without = matched(alloc, question.without, group, whole)?;
    out.extend_from_slice(without.as_slice())?;
    Ok(out)
}

// What all match of the group, if each has one range, and this is one interval.
fn common_single<'a>(
    question: Question<'a>,
    group: Group,
    whole: Interval<'a>,
) -> Option<Interval<'a>>
    requires { IsWhole whole }
    ensures holds { IfSome result (λ interval. (v : Version) → is_of group v ≡ true
        → is_within interval v ≡ all_match (flag_of group) question.entry.own.now v
        question.entry.others.now) }
    ensures writable { IfSome result (λ interval. AreWritableRanges question.entry.own.now
        → AreWritableSets question.entry.others.now → IsWritableInterval interval) }
{
    let Some(own) = Interval::of_single(question.own, group, whole) else {
        return None;
    };
    let mut common = own;
    for set in question.others {
        let Some(other) = Interval::of_single(set.0.as_slice(), group, whole) else {
            return None;
        };
        common = common.meet(other);
    }
    Some(common)
}

// What passes of the group, as two intervals, if each set has one range: then no list has to be made.
fn single_intervals<'a>(
    question: Question<'a>,
    group: Group,
    whole: Interval<'a>,
) -> Option<(Interval<'a>, Interval<'a>)>
    requires { IsWhole whole }
    ensures holds { IfSome result (λ both. (v : Version) → is_of group v ≡ true
        → (is_within both.0 v || is_within both.1 v) ≡ passes (flag_of group)
        question.entry.own.now question.entry.others.now question.entry.without.now v) }
    ensures writable { IfSome result (λ both. AreWritableRanges question.entry.own.now
        → AreWritableSets question.entry.others.now
        → AreWritableRanges question.entry.without.now
        → IsWritableInterval both.0 × IsWritableInterval both.1) }
{
    let Some(common) = common_single(question, group, whole) else {
        return None;
    };
    if question.without.is_empty() {
        return Some((common, whole.emptied()));
    }
    match Interval::of_single(question.without, group, whole) {
        Some(other) => Some(common.without(other)),
        None => None,
    }
}

// The lowest version of the group that passes.
fn lowest_of<'a>(
    alloc: Global,
    question: Question<'a>,
    group: Group,
    whole: Interval<'a>,
) -> Result<Option<Version>, AllocError>
    requires { IsWhole whole }
    ensures { IfOk result (IsFound (λ v. is_of group v && passes (flag_of group)
        question.entry.own.now question.entry.others.now question.entry.without.now v)
        (AreWritableRanges question.entry.own.now × AreWritableSets question.entry.others.now
        × AreWritableRanges question.entry.without.now)) }
{
    if let Some((below, above)) = single_intervals(question, group, whole) {
        let low = below.first(alloc, group)?;
        let high = above.first(alloc, group)?;
        return Ok(lesser(low, high));
    }
    let own = matched(alloc, question.own, group, whole)?;
    if own.is_empty() {
        return Ok(None);
    }
    let out = left_out(alloc, own, question, group, whole)?;
    let mut inside = Vec::new(alloc);
    push_gaps(&mut inside, out, whole)?;
    intervals::lowest(alloc, inside.as_slice(), group)
}

impl RangeBound {
    fn is_pre(&self) -> bool
        ensures { result ≡ is_pre_bound self.now }
    {
        match self {
            RangeBound::Unbounded => false,
            RangeBound::Version(bound) => !bound.version.pre.is_empty(),
        }
    }
}

// Whether some range may match pre-releases by npm's rule.
fn has_pre_bound(ranges: &[VersionRange]) -> bool
    ensures { result ≡ list_any has_pre_bound ranges.now }
{
    ranges
        .iter()
        .any(|range| range.start.is_pre() || range.end.is_pre())
}

impl Question<'_> {
    // The lowest version that passes.
    fn lowest(&self, alloc: Global) -> Result<Option<Version>, AllocError>
        ensures { IfOk result (IsFound (passes self.now.pre_release self.now.own.now
            self.now.others.now self.now.without.now)
            (AreWritableRanges self.now.own.now × AreWritableSets self.now.others.now
            × AreWritableRanges self.now.without.now)) }
    {
        let zero = Version::new(alloc);
        let whole = Interval::whole(&zero);
        match self.pre_release {
            PreRelease::Admitted => lowest_of(alloc, *self, Group::Every, whole),
            PreRelease::Restricted => {
                let release = lowest_of(alloc, *self, Group::Releases, whole)?;
                if !has_pre_bound(self.own) {
                    return Ok(release);
                }
                let pre = lowest_of(alloc, *self, Group::PreReleases, whole)?;
                Ok(lesser(release, pre))
            }
        }
    }
}

impl VersionRange {
    /// The lowest version that the range matches, with pre-releases restricted or admitted throughout, or `None` if it
    /// matches none.
    ///
    /// No lower version by precedence that a text parses to matches. It has no build, and its text parses back if those of
    /// the bounds do. Fails only out of memory.
    pub fn min_version(
        &self,
        alloc: Global,
        pre_release: PreRelease,
    ) -> Result<Option<Version>, AllocError>
        ensures lowest { IfOk result (IsLowestPassing (range_means_with pre_release self.now)) }
        ensures no_build { IfOk result (λ lowest. IfSome lowest HasNoBuild) }
        ensures reads_back { IfOk result
            (λ lowest. IsWritableRange self.now → IfSome lowest ReadsBack) }
    {
        let question = Question {
            own: slice::from_ref(self),
            others: &[],
            without: &[],
            pre_release,
        };
        question.lowest(alloc)
    }
}

impl VersionRange {
    // Whether one of the bounds is a pre-release of the version's numbers.
    fn admits_pre(&self, version: &Version) -> bool
        ensures { result ≡ admits_pre self.now version.now }
    {
        self.start.has_pre_with_exact_major_minor_patch(version)
            || self.end.has_pre_with_exact_major_minor_patch(version)
    }

    // The lowest pre-release of the bound's numbers that matches by npm's rule.
    fn lowest_pre_of<'a>(
        &'a self,
        alloc: Global,
        bound: &'a RangeBound,
        whole: Interval<'a>,
    ) -> Result<Option<Version>, AllocError>
        requires { IsWhole whole }
        ensures { IfOk result (IsFound (is_pre_match self.now bound.now)
            (IsWritableBound self.now.start × IsWritableBound bound.now)) }
    {
        let RangeBound::Version(other) = bound else {
            return Ok(None);
        };
        if !self.admits_pre(&other.version) {
            return Ok(None);
        }
        let Some(interval) = Interval::of(self, whole).of_numbers(bound) else {
            return Ok(None);
        };
        interval.first(alloc, Group::PreReleases)
    }

    /// Whether the bound is a pre-release, and some pre-release of its three numbers matches, by npm's rule about
    /// pre-releases. `>=1.2.0 <2.0.0-0` matches none of the end's numbers, since none is below `2.0.0-0`.
    ///
    /// True says that some version is such a pre-release; false, that no text parses to one. If the texts of the bounds parse
    /// back, so does that version's, and the result is exact. Fails only out of memory.
    pub fn matches_pre_of(&self, alloc: Global, bound: &RangeBound) -> Result<bool, AllocError>
        ensures value { IfOk result (DecidesSome (is_pre_match self.now bound.now)) }
        ensures exact { IfOk result
            (λ reported. IsWritableBound self.now.start → IsWritableBound bound.now
            → (IsTrue reported ↔ PassesSome (is_pre_match self.now bound.now))) }
    {
        let zero = Version::new(alloc);
        let whole = Interval::whole(&zero);
        let lowest = self.lowest_pre_of(alloc, bound, whole)?;
        Ok(lowest.is_some())
    }
}

impl VersionRangeSet {
    /// The lowest version that some range matches, with pre-releases restricted or admitted throughout, or `None` if no range
    /// matches any (node-semver's `minVersion`).
    ///
    /// No lower version by precedence that a text parses to matches. It has no build, and its text parses back if those of
    /// the bounds do. Fails only out of memory.
    pub fn min_version(
        &self,
        alloc: Global,
        pre_release: PreRelease,
    ) -> Result<Option<Version>, AllocError>
        ensures lowest { IfOk result (IsLowestPassing (set_means_with pre_release self.now.0)) }
        ensures no_build { IfOk result (λ lowest. IfSome lowest HasNoBuild) }
        ensures reads_back { IfOk result
            (λ lowest. AreWritableRanges self.now.0 → IfSome lowest ReadsBack) }
    {
        let question = Question {
            own: self.0.as_slice(),
            others: &[],
            without: &[],
            pre_release,
        };
        question.lowest(alloc)
    }

    /// The lowest version that both sets match, with pre-releases restricted or admitted throughout, or `None` if no version
    /// matches both.
    ///
    /// No lower version by precedence that a text parses to matches both; on `None`, no version that a text parses to does.
    /// So `>1.0.0` and `<1.0.1` have none by npm's rule, and `1.0.1-0` with pre-releases admitted. The version has no build,
    /// and its text parses back if those of the bounds do.
    ///
    /// Fails only out of memory.
    pub fn common_version(
        &self,
        alloc: Global,
        other: &VersionRangeSet,
        pre_release: PreRelease,
    ) -> Result<Option<Version>, AllocError>
        ensures lowest { IfOk result
            (IsLowestPassing (sets_mean_with pre_release self.now.0 other.now.0)) }
        ensures no_build { IfOk result (λ lowest. IfSome lowest HasNoBuild) }
        ensures reads_back { IfOk result
            (λ lowest. AreWritableRanges self.now.0 → AreWritableRanges other.now.0
            → IfSome lowest ReadsBack) }
    {
        let question = Question {
            own: self.0.as_slice(),
            others: slice::from_ref(other),
            without: &[],
            pre_release,
        };
        question.lowest(alloc)
    }

    /// The lowest version that this set and all others match, with pre-releases restricted or admitted throughout, or `None`
    /// if no version matches all.
    ///
    /// No lower version by precedence that a text parses to matches all; on `None`, no version that a text parses to does.
    /// The version has no build, and its text parses back if those of the bounds do.
    ///
    /// Fails only out of memory.
    pub fn common_version_of_all(
        &self,
        alloc: Global,
        others: &[VersionRangeSet],
        pre_release: PreRelease,
    ) -> Result<Option<Version>, AllocError>
        ensures lowest { IfOk result
            (IsLowestPassing (all_mean_with pre_release self.now.0 others.now)) }
        ensures no_build { IfOk result (λ lowest. IfSome lowest HasNoBuild) }
        ensures reads_back { IfOk result (λ lowest. AreWritableRanges self.now.0
            → AllByRecursion (λ (set : VersionRangeSet). AreWritableRanges set.0) others.now → IfSome lowest ReadsBack) }
    {
        let question = Question {
            own: self.0.as_slice(),
            others,
            without: &[],
            pre_release,
        };
        question.lowest(alloc)
    }

    /// The lowest version that this set matches and the other doesn't, with pre-releases restricted or admitted throughout,
    /// or `None` if the other matches every version that this one matches.
    ///
    /// No lower version by precedence that a text parses to is matched by this set alone; on `None`, the other set matches
    /// every version that a text parses to and this one matches. The version has no build, and its text parses back if those
    /// of the bounds do.
    ///
    /// Fails only out of memory.
    pub fn version_outside(
        &self,
        alloc: Global,
        other: &VersionRangeSet,
        pre_release: PreRelease,
    ) -> Result<Option<Version>, AllocError>
        ensures lowest { IfOk result
            (IsLowestPassing (set_means_alone_with pre_release self.now.0 other.now.0)) }
        ensures no_build { IfOk result (λ lowest. IfSome lowest HasNoBuild) }
        ensures reads_back { IfOk result
            (λ lowest. AreWritableRanges self.now.0 → AreWritableRanges other.now.0
            → IfSome lowest ReadsBack) }
    {
        let question = Question {
            own: self.0.as_slice(),
            others: &[],
            without: other.0.as_slice(),
            pre_release,
        };
        question.lowest(alloc)
    }

    /// Whether the other set matches every version that this one matches, with pre-releases restricted or admitted throughout
    /// (node-semver's `subset`, here exactly by what the ranges match, pre-releases included).
    ///
    /// True says so of every version that a text parses to. False says that some version matches this set alone; if the texts
    /// of the bounds parse back, so does that version's, and the result is exact. [`VersionRangeSet::version_outside`]
    /// returns the lowest such version.
    ///
    /// Fails only out of memory.
    pub fn is_subset(
        &self,
        alloc: Global,
        other: &VersionRangeSet,
        pre_release: PreRelease,
    ) -> Result<bool, AllocError>
        ensures value { let means = set_means_with pre_release in IfOk result
            (ReportsWithin (means self.now.0) (means other.now.0)) }
        ensures exact { let means = set_means_with pre_release in IfOk result
            (λ reported. AreWritableRanges self.now.0 → AreWritableRanges other.now.0
            → (IsTrue reported ↔ IsWithin (means self.now.0) (means other.now.0))) }
    {
        let outside = self.version_outside(alloc, other, pre_release)?;
        Ok(outside.is_none())
    }

    /// Whether both sets match the same versions, with pre-releases restricted or admitted throughout.
    ///
    /// True says so of every version that a text parses to, and false that some version matches only one of them; if the
    /// texts of the bounds parse back, the result is exact. Same as [`VersionRangeSet::is_subset`] both ways.
    ///
    /// Fails only out of memory.
    pub fn is_equivalent(
        &self,
        alloc: Global,
        other: &VersionRangeSet,
        pre_release: PreRelease,
    ) -> Result<bool, AllocError>
        ensures value { let means = set_means_with pre_release in IfOk result
            (ReportsEquivalent (means self.now.0) (means other.now.0)) }
        ensures exact { let means = set_means_with pre_release in IfOk result
            (λ reported. AreWritableRanges self.now.0 → AreWritableRanges other.now.0
            → (IsTrue reported ↔ AreEquivalent (means self.now.0) (means other.now.0))) }
    {
        if !self.is_subset(alloc, other, pre_release)? {
            return Ok(false);
        }
        other.is_subset(alloc, self, pre_release)
    }
}
