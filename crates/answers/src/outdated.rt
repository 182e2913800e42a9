//! Is a range outdated, in a list of versions?

ghost use Rattle.std.specs.Prelude.{◌≡◌, None};
ghost use Rattle.semver_req.specs.Requirement.{inner_means_with, tag_of};
ghost use Rattle.semver_req.specs.Resolve.{IsBestMatch, IsOnlyMatch, higher};
ghost use Rattle.answers.specs.Outdated.{counts, is_outdated};

use semver_base::range::PreRelease;
use semver_base::version::Version;
use semver_req::laws::one_walk_finds_the_best;
use semver_req::req::VersionReq;
use semver_req::resolve::max_satisfying_with;

/// The two versions of a list that say whether a range is outdated, by their places.
#[derive(Drop)]
pub struct Standing {
    /// The highest version that the range matches.
    pub matching: Option<usize>,
    /// The highest version that counts: a release counts, whatever the range matches, and with all pre-releases admitted any version.
    pub highest: Option<usize>,
}

impl Standing {
    /// Whether the range is outdated: it matches no version, or a higher one counts.
    pub fn is_outdated(&self) -> bool
        ensures { result ≡ is_outdated self.now.matching self.now.highest }
    {
        match (self.matching, self.highest) {
            (Some(matching), Some(highest)) => matching != highest,
            _ => true,
        }
    }
}

// Whether the version counts.
fn counts(pre_release: PreRelease, range: &VersionReq, version: &Version) -> bool
    requires { tag_of range.now.inner ≡ None }
    ensures { result ≡ counts pre_release range.now.inner version.now }
{
    match pre_release {
        PreRelease::Admitted => true,
        PreRelease::Restricted => {
            version.pre.is_empty() || range.matches_with(version, PreRelease::Restricted)
        }
    }
}

// The place of the highest version that counts, of equal ones the first.
fn highest(pre_release: PreRelease, range: &VersionReq, versions: &[Version]) -> Option<usize>
    requires { tag_of range.now.inner ≡ None }
    ensures best { IsBestMatch higher (counts pre_release range.now.inner) versions.now result }
    ensures only { IsOnlyMatch higher (counts pre_release range.now.inner) versions.now result }
{
    one_walk_finds_the_best::<Version>();
    let mut best: Option<(usize, &Version)> = None;
    for (place, version) in versions.iter().enumerate() {
        let is_better = counts(pre_release, range, version)
            && match best {
                None => true,
                Some((_, known)) => known.cmp_precedence(version).is_lt(),
            };
        if is_better {
            best = Some((place, version));
        }
    }
    match best {
        None => None,
        Some((place, _)) => Some(place),
    }
}

/// How the list of versions stands to a range, which isn't a tag. Of versions equal but for builds, each place is the first one's.
pub fn standing_of(pre_release: PreRelease, range: &VersionReq, versions: &[Version]) -> Standing
    requires { tag_of range.now.inner ≡ None }
    ensures matching { IsBestMatch higher (λ v. inner_means_with pre_release range.now.inner v)
        versions.now result.matching }
    ensures only_matching { IsOnlyMatch higher
        (λ v. inner_means_with pre_release range.now.inner v) versions.now result.matching }
    ensures highest { IsBestMatch higher (counts pre_release range.now.inner)
        versions.now result.highest }
    ensures only_highest { IsOnlyMatch higher (counts pre_release range.now.inner)
        versions.now result.highest }
{
    Standing {
        matching: max_satisfying_with(versions, range, pre_release),
        highest: highest(pre_release, range, versions),
    }
}
