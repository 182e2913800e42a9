//! Of which kind the step between two versions is, as node-semver's `diff` has it.

ghost use Rattle.std.specs.Prelude.{◌≡◌};
ghost use Rattle.node_semver.specs.Difference.{difference, kind_of, step};

use crate::release_type::ReleaseType;
use semver_base::version::Version;
use std::cmp::Ordering;

// The kind of a release by its numbers.
fn kind_of(release: &Version) -> ReleaseType
    ensures { result ≡ kind_of release.now }
{
    if release.patch != 0 {
        ReleaseType::Patch
    } else if release.minor != 0 {
        ReleaseType::Minor
    } else {
        ReleaseType::Major
    }
}

// The kind of the step from a version to a higher one.
fn step(low: &Version, high: &Version) -> ReleaseType
    ensures { result ≡ step low.now high.now }
{
    let (to_release, to_pre_release) = if low.major != high.major {
        (ReleaseType::Major, ReleaseType::PreMajor)
    } else if low.minor != high.minor {
        (ReleaseType::Minor, ReleaseType::PreMinor)
    } else if low.patch != high.patch {
        (ReleaseType::Patch, ReleaseType::PrePatch)
    } else {
        (kind_of(high), ReleaseType::PreRelease)
    };
    if !high.pre.is_empty() {
        to_pre_release
    } else if !low.pre.is_empty() && low.minor == 0 && low.patch == 0 {
        ReleaseType::Major
    } else {
        to_release
    }
}

/// Returns of which kind the step between the two versions is, in either direction: by the first number that differs, and a
/// pre-release of that kind if the higher version is one. The step from a pre-release to its own release is the kind of that
/// release; that from a pre-release of a major version to any release is a major one.
///
/// Returns none exactly if the versions have the same precedence.
pub fn difference(one: &Version, other: &Version) -> Option<ReleaseType>
    ensures { result ≡ difference one.now other.now }
{
    match one.cmp_precedence(other) {
        Ordering::Less => Some(step(one, other)),
        Ordering::Equal => None,
        Ordering::Greater => Some(step(other, one)),
    }
}
