//! What a requirement matches, as scans of sort keys.

ghost use Rattle.std.specs.Prelude.{◌≡◌, IfOk, None};
ghost use Rattle.semver_base.specs.Scans.{ScansAreSorted, ScansFind};
ghost use Rattle.semver_req.specs.Parsers.{IsReadOrTag};
ghost use Rattle.semver_req.specs.Requirement.{inner_means_with, tag_of};

use crate::range_set_or_tag::RangeSetOrTag;
use crate::req::VersionReq;
use semver_base::range::PreRelease;
use semver_base::range::scans::Scan;
use std::alloc::{AllocError, Global};

impl VersionReq {
    /// What the requirement, not a tag, matches, as scans of sort keys, with pre-releases restricted or admitted throughout.
    ///
    /// A parser's result matches a version that a text parses to exactly if some scan of its kind, release or pre-release, has
    /// its sort key: at or above `low` and below `high`, as bytes compare. The scans of releases come first. Those of a kind
    /// are sorted, with a gap between one and the next, and in each `low` is below `high`.
    ///
    /// Fails only out of memory.
    pub fn scans(&self, alloc: Global, pre_release: PreRelease) -> Result<Vec<Scan>, AllocError>
        requires { tag_of self.now.inner ≡ None }
        ensures matches { IfOk result (λ scans. IsReadOrTag self.now.inner
            → ScansFind scans.items (inner_means_with pre_release self.now.inner)) }
        ensures sorted { IfOk result (λ scans. ScansAreSorted scans.items) }
    {
        match &self.inner {
            RangeSetOrTag::RangeSet(set) => set.scans(alloc, pre_release),
            RangeSetOrTag::Tag(_) => Ok(Vec::new(alloc)),
        }
    }
}
