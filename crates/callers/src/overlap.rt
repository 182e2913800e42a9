//! Do two requirements allow a version in common?

ghost use Rattle.std.specs.Prelude.{◌≡◌, ◌&&◌, None, not};
ghost use Rattle.std.specs.Bool.{OnTrue};
ghost use Rattle.semver_req.specs.Requirement.{MatchNoVersion, inner_means, inner_overlap, tag_of};

use deno_semver::{Version, VersionReq};

/// Are the requirements so far apart that they have no version in common? Yes exactly if their bounds don't overlap; a no says
/// nothing about versions.
pub fn are_surely_apart(one: &VersionReq, other: &VersionReq) -> bool
    ensures bounds { result ≡ not (inner_overlap one.now.inner other.now.inner) }
    ensures no_common { OnTrue result (MatchNoVersion one.now.inner other.now.inner) }
{
    !one.intersects(other)
}

/// Is the version allowed by both requirements? If they don't overlap it isn't, and neither is checked.
pub fn is_allowed_by_both(one: &VersionReq, other: &VersionReq, version: &Version) -> bool
    requires one_is_no_tag { tag_of one.now.inner ≡ None }
    requires other_is_no_tag { tag_of other.now.inner ≡ None }
    ensures { result
        ≡ (inner_means one.now.inner version.now && inner_means other.now.inner version.now) }
{
    if are_surely_apart(one, other) {
        return false;
    }
    one.matches(version) && other.matches(version)
}
