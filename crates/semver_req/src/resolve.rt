//! Which of several versions is the best match, as `maxSatisfying` and `minSatisfying` of node-semver choose it.

ghost use Rattle.std.specs.Prelude.{◌≡◌, None};
ghost use Rattle.semver_req.specs.Requirement.{inner_means, inner_means_with, tag_of};
ghost use Rattle.semver_req.specs.Resolve.{IsBestMatch, IsOnlyMatch, higher, lower};
ghost use Rattle.semver_req.specs.ResolveSteps.{nearer};

use crate::req::VersionReq;
use semver_base::range::PreRelease;
use semver_base::version::Version;

// Which end of the precedence order is wanted.
#[derive(Clone, Copy)]
enum End {
    Highest,
    Lowest,
}

// The index of the first of the matches nearest to the end.
fn first_best(
    versions: &[Version],
    requirement: &VersionReq,
    pre_release: PreRelease,
    end: End,
) -> Option<usize>
    requires { tag_of requirement.now.inner ≡ None }
    ensures best { IsBestMatch (nearer end)
        (λ v. inner_means_with pre_release requirement.now.inner v) versions.now result }
    ensures only { IsOnlyMatch (nearer end)
        (λ v. inner_means_with pre_release requirement.now.inner v) versions.now result }
{
    let mut best: Option<(usize, &Version)> = None;
    for (place, version) in versions.iter().enumerate() {
        let is_better = requirement.matches_with(version, pre_release)
            && match (best, end) {
                (None, _) => true,
                (Some((_, known)), End::Highest) => known.cmp_precedence(version).is_lt(),
                (Some((_, known)), End::Lowest) => version.cmp_precedence(known).is_lt(),
            };
        if is_better {
            best = Some((place, version));
        }
    }
    match best {
        None => None,
        Some((place, _)) => Some(place),
    }
}

/// Returns the index of the highest version by precedence that matches `requirement`, which isn't a tag; of versions equal
/// but for builds, the first. Returns none exactly if no version matches.
pub fn max_satisfying(versions: &[Version], requirement: &VersionReq) -> Option<usize>
    requires { tag_of requirement.now.inner ≡ None }
    ensures highest { IsBestMatch higher (λ v. inner_means requirement.now.inner v)
        versions.now result }
    ensures only { IsOnlyMatch higher (λ v. inner_means requirement.now.inner v)
        versions.now result }
{
    max_satisfying_with(versions, requirement, PreRelease::Restricted)
}

/// Returns the index of the lowest version by precedence that matches `requirement`, which isn't a tag; of versions equal but
/// for builds, the first. Returns none exactly if no version matches.
pub fn min_satisfying(versions: &[Version], requirement: &VersionReq) -> Option<usize>
    requires { tag_of requirement.now.inner ≡ None }
    ensures lowest { IsBestMatch lower (λ v. inner_means requirement.now.inner v)
        versions.now result }
    ensures only { IsOnlyMatch lower (λ v. inner_means requirement.now.inner v)
        versions.now result }
{
    min_satisfying_with(versions, requirement, PreRelease::Restricted)
}

/// Like [`max_satisfying`], with pre-releases restricted by npm's rule or admitted throughout.
pub fn max_satisfying_with(
    versions: &[Version],
    requirement: &VersionReq,
    pre_release: PreRelease,
) -> Option<usize>
    requires { tag_of requirement.now.inner ≡ None }
    ensures highest { IsBestMatch higher
        (λ v. inner_means_with pre_release requirement.now.inner v) versions.now result }
    ensures only { IsOnlyMatch higher
        (λ v. inner_means_with pre_release requirement.now.inner v) versions.now result }
{
    first_best(versions, requirement, pre_release, End::Highest)
}

/// Like [`min_satisfying`], with pre-releases restricted by npm's rule or admitted throughout.
pub fn min_satisfying_with(
    versions: &[Version],
    requirement: &VersionReq,
    pre_release: PreRelease,
) -> Option<usize>
    requires { tag_of requirement.now.inner ≡ None }
    ensures lowest { IsBestMatch lower
        (λ v. inner_means_with pre_release requirement.now.inner v) versions.now result }
    ensures only { IsOnlyMatch lower
        (λ v. inner_means_with pre_release requirement.now.inner v) versions.now result }
{
    first_best(versions, requirement, pre_release, End::Lowest)
}
