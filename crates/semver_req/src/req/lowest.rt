//! The lowest version that requirements match, alone or together, and whether one requirement is a subset of another or
//! equivalent to it.
//!
//! Tags name versions that only a registry knows, so each call requires that no requirement is one, as
//! [`VersionReq::matches`] does. Each takes whether pre-releases are restricted by npm's rule or admitted throughout, as
//! [`VersionReq::matches_with`] does. It takes `n log n` comparisons for the ranges of all requirements.

ghost use Rattle.std.specs.Prelude.{◌≡◌, ◌↔◌, IfOk, IfSome, IsTrue, None, true};
ghost use Rattle.semver_base.specs.Containment.{AreEquivalent, IsWithin, ReportsEquivalent, ReportsWithin};
ghost use Rattle.semver_base.specs.LowestVersion.{HasNoBuild, IsLowestPassing};
ghost use Rattle.semver_base.specs.VersionText.{ReadsBack};
ghost use Rattle.semver_req.specs.AnyOrder.{AllInAnyOrder, BothInAnyOrder, InAnyOrder};
ghost use Rattle.semver_req.specs.Parsers.{AreReadOrTags, IsReadOrTag};
ghost use Rattle.semver_req.specs.Requirement.{all_inners_mean_with, have_no_tag, inner_means_alone_with, inner_means_with, inners_mean_with, ranges_of, tag_of};

use crate::range_set_or_tag::RangeSetOrTag;
use crate::req::VersionReq;
use semver_base::laws::read_versions_are_readable;
use semver_base::range::{PreRelease, VersionRangeSet};
use semver_base::string::CowVec;
use semver_base::version::Version;
use std::alloc::{AllocError, Global};

impl VersionReq {
    // The ranges; a tag has none.
    fn ranges(&self, alloc: Global) -> Result<VersionRangeSet, AllocError>
        ensures { IfOk result (λ set. set ≡ ranges_of self.now.inner) }
    {
        match &self.inner {
            RangeSetOrTag::RangeSet(set) => set.copy(),
            RangeSetOrTag::Tag(_) => Ok(VersionRangeSet(CowVec::new(alloc))),
        }
    }

    /// Whether none of the requirements is a tag.
    pub fn have_no_tag(requirements: &[VersionReq]) -> bool
        ensures { result ≡ have_no_tag requirements.now }
    {
        requirements
            .iter()
            .all(|requirement| requirement.tag().is_none())
    }

    /// The lowest version that the requirement, not a tag, matches, with pre-releases restricted or admitted throughout, or
    /// `None` if it matches none.
    ///
    /// No lower version by precedence that a text parses to matches; on `None`, no version that a text parses to does. The
    /// version has no build, and for a parser's result its text parses back.
    ///
    /// Fails only out of memory.
    pub fn min_version(
        &self,
        alloc: Global,
        pre_release: PreRelease,
    ) -> Result<Option<Version>, AllocError>
        requires { tag_of self.now.inner ≡ None }
        ensures lowest { IfOk result
            (IsLowestPassing (inner_means_with pre_release self.now.inner)) }
        ensures no_build { IfOk result (λ lowest. IfSome lowest HasNoBuild) }
        ensures reads_back { IfOk result
            (λ lowest. IsReadOrTag self.now.inner → IfSome lowest ReadsBack) }
        ensures any_order { IfOk result (λ lowest. IsReadOrTag self.now.inner
            → InAnyOrder (inner_means_with pre_release) self.now.inner lowest) }
    {
        read_versions_are_readable();
        match &self.inner {
            RangeSetOrTag::RangeSet(set) => set.min_version(alloc, pre_release),
            RangeSetOrTag::Tag(_) => Ok(None),
        }
    }

    /// The lowest version that both requirements, neither a tag, match, with pre-releases restricted or admitted throughout,
    /// or `None` if no version matches both.
    ///
    /// No lower version by precedence that a text parses to matches both; on `None`, no version that a text parses to does.
    /// So `>1.0.0` and `<1.0.1` have none by npm's rule, and `1.0.1-0` with pre-releases admitted. The version has no build,
    /// and for parsers' results its text parses back.
    ///
    /// Fails only out of memory.
    pub fn common_version(
        &self,
        alloc: Global,
        other: &VersionReq,
        pre_release: PreRelease,
    ) -> Result<Option<Version>, AllocError>
        requires own_ranges { tag_of self.now.inner ≡ None }
        requires other_ranges { tag_of other.now.inner ≡ None }
        ensures lowest { let means = inners_mean_with pre_release in IfOk result
            (IsLowestPassing (means self.now.inner other.now.inner)) }
        ensures no_build { IfOk result (λ lowest. IfSome lowest HasNoBuild) }
        ensures reads_back { IfOk result
            (λ lowest. IsReadOrTag self.now.inner → IsReadOrTag other.now.inner
            → IfSome lowest ReadsBack) }
        ensures any_order { let means = inners_mean_with pre_release in IfOk result
            (λ lowest. IsReadOrTag self.now.inner → IsReadOrTag other.now.inner
            → BothInAnyOrder means self.now.inner other.now.inner lowest) }
    {
        read_versions_are_readable();
        match (&self.inner, &other.inner) {
            (RangeSetOrTag::RangeSet(set), RangeSetOrTag::RangeSet(others)) => {
                set.common_version(alloc, others, pre_release)
            }
            (_, _) => Ok(None),
        }
    }

    /// The lowest version that this requirement and all others match, none of them a tag ([`VersionReq::have_no_tag`]), with
    /// pre-releases restricted or admitted throughout, or `None` if no version matches all.
    ///
    /// No lower version by precedence that a text parses to matches all; on `None`, no version that a text parses to does.
    /// The version has no build, and for parsers' results its text parses back.
    ///
    /// Fails only out of memory.
    pub fn common_version_of_all(
        &self,
        alloc: Global,
        others: &[VersionReq],
        pre_release: PreRelease,
    ) -> Result<Option<Version>, AllocError>
        requires own_ranges { tag_of self.now.inner ≡ None }
        requires other_ranges { have_no_tag others.now ≡ true }
        ensures lowest { let means = all_inners_mean_with pre_release in IfOk result
            (IsLowestPassing (means self.now.inner others.now)) }
        ensures no_build { IfOk result (λ lowest. IfSome lowest HasNoBuild) }
        ensures reads_back { IfOk result
            (λ lowest. IsReadOrTag self.now.inner → AreReadOrTags others.now
            → IfSome lowest ReadsBack) }
        ensures any_order { IfOk result
            (λ lowest. IsReadOrTag self.now.inner → AreReadOrTags others.now
            → AllInAnyOrder pre_release self.now.inner others.now lowest) }
    {
        read_versions_are_readable();
        let own = self.ranges(alloc)?;
        let mut sets = Vec::new(alloc);
        for other in others {
            sets.push(other.ranges(alloc)?)?;
        }
        own.common_version_of_all(alloc, sets.as_slice(), pre_release)
    }

    /// The lowest version that this requirement matches and the other, not a tag either, doesn't, with pre-releases
    /// restricted or admitted throughout, or `None` if the other matches every version that this one matches.
    ///
    /// No lower version by precedence that a text parses to is matched by this one alone; on `None`, the other matches every
    /// version that a text parses to and this one matches. The version has no build, and for parsers' results its text parses
    /// back.
    ///
    /// Fails only out of memory.
    pub fn version_outside(
        &self,
        alloc: Global,
        other: &VersionReq,
        pre_release: PreRelease,
    ) -> Result<Option<Version>, AllocError>
        requires own_ranges { tag_of self.now.inner ≡ None }
        requires other_ranges { tag_of other.now.inner ≡ None }
        ensures lowest { let means = inner_means_alone_with pre_release in IfOk result
            (IsLowestPassing (means self.now.inner other.now.inner)) }
        ensures no_build { IfOk result (λ lowest. IfSome lowest HasNoBuild) }
        ensures reads_back { IfOk result
            (λ lowest. IsReadOrTag self.now.inner → IsReadOrTag other.now.inner
            → IfSome lowest ReadsBack) }
        ensures any_order { let means = inner_means_alone_with pre_release in IfOk result
            (λ lowest. IsReadOrTag self.now.inner → IsReadOrTag other.now.inner
            → BothInAnyOrder means self.now.inner other.now.inner lowest) }
    {
        read_versions_are_readable();
        match (&self.inner, &other.inner) {
            (RangeSetOrTag::RangeSet(set), RangeSetOrTag::RangeSet(others)) => {
                set.version_outside(alloc, others, pre_release)
            }
            (_, _) => Ok(None),
        }
    }

    /// Whether the other requirement matches every version that this one matches, with pre-releases restricted or admitted
    /// throughout; neither is a tag.
    ///
    /// True says so of every version that a text parses to, and false that some version matches only this requirement; for
    /// parsers' results, it is true exactly if that is so of every version that a text parses to.
    /// [`VersionReq::version_outside`] returns the lowest version that matches only this one.
    ///
    /// Fails only out of memory.
    pub fn is_subset(
        &self,
        alloc: Global,
        other: &VersionReq,
        pre_release: PreRelease,
    ) -> Result<bool, AllocError>
        requires own_ranges { tag_of self.now.inner ≡ None }
        requires other_ranges { tag_of other.now.inner ≡ None }
        ensures value { let means = inner_means_with pre_release in IfOk result
            (ReportsWithin (means self.now.inner) (means other.now.inner)) }
        ensures exact { let means = inner_means_with pre_release in IfOk result
            (λ reported. IsReadOrTag self.now.inner → IsReadOrTag other.now.inner
            → (IsTrue reported ↔ IsWithin (means self.now.inner) (means other.now.inner))) }
    {
        match (&self.inner, &other.inner) {
            (RangeSetOrTag::RangeSet(set), RangeSetOrTag::RangeSet(others)) => {
                set.is_subset(alloc, others, pre_release)
            }
            (_, _) => Ok(true),
        }
    }

    /// Whether both requirements, neither a tag, match the same versions, with pre-releases restricted or admitted
    /// throughout.
    ///
    /// True says so of every version that a text parses to, and false that some version matches only one of them; for
    /// parsers' results, it is true exactly if that is so of every version that a text parses to. Same as
    /// [`VersionReq::is_subset`] both ways.
    ///
    /// Fails only out of memory.
    pub fn is_equivalent(
        &self,
        alloc: Global,
        other: &VersionReq,
        pre_release: PreRelease,
    ) -> Result<bool, AllocError>
        requires own_ranges { tag_of self.now.inner ≡ None }
        requires other_ranges { tag_of other.now.inner ≡ None }
        ensures value { let means = inner_means_with pre_release in IfOk result
            (ReportsEquivalent (means self.now.inner) (means other.now.inner)) }
        ensures exact { let means = inner_means_with pre_release in IfOk result
            (λ reported. IsReadOrTag self.now.inner → IsReadOrTag other.now.inner
            → (IsTrue reported ↔ AreEquivalent (means self.now.inner) (means other.now.inner))) }
    {
        if !self.is_subset(alloc, other, pre_release)? {
            return Ok(false);
        }
        other.is_subset(alloc, self, pre_release)
    }
}
