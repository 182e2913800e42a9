//! A short range that matches the same versions of a list, as node-semver's `simplifyRange` makes it.

ghost use Rattle.std.specs.Prelude.{◌≡◌, None, false, string_bytes};
ghost use Rattle.std.specs.List.{list_all};
ghost use Rattle.semver_req.specs.Requirement.{tag_of};
ghost use Rattle.answers.specs.Asking.{IsAnswer, OrElse};
ghost use Rattle.answers.specs.Filtering.{list_answer};
ghost use Rattle.answers.specs.Reading.{IsRangeAt, texts_of};
ghost use Rattle.answers.specs.Simplifying.{Simplifies, match_alike, match_same};

use crate::asking::{Answer, Problem};
use crate::reading::{range, versions};
use node_semver::simplify::ranges_of;
use semver_base::range::PreRelease;
use semver_base::version::Version;
use semver_req::common::values::Flavour;
use semver_req::laws::ascending_arrangements_tie;
use semver_req::range_set_or_tag::{PackageTag, RangeSetOrTag};
use semver_req::req::VersionReq;
use std::alloc::Global;

// Whether both ranges, none of which is a tag, match the same versions of the list.
fn match_alike(
    pre_release: PreRelease,
    one: &VersionReq,
    other: &VersionReq,
    versions: &[Version],
) -> bool
    requires one_is_no_tag { tag_of one.now.inner ≡ None }
    requires other_is_no_tag { tag_of other.now.inner ≡ None }
    ensures { result
        ≡ list_all (match_alike pre_release one.now.inner other.now.inner) versions.now }
{
    for version in versions {
        let matches = one.matches_with(version, pre_release);
        if other.matches_with(version, pre_release) != matches {
            return false;
        }
    }
    true
}

// Whether the text is a range that matches the same versions of the list as this one, which isn't a tag.
fn matches_same(
    alloc: Global,
    flavour: Flavour,
    pre_release: PreRelease,
    own: &VersionReq,
    versions: &[Version],
    text: &str,
) -> Result<bool, Problem>
    requires { tag_of own.now.inner ≡ None }
    ensures { IsAnswer (OrElse (IsRangeAt flavour 0 text.now)
        (λ other. match_same pre_release own.now.inner versions.now other.inner) false)
        (λ is. is) result }
{
    match range(alloc, flavour, 0, text) {
        Ok(other) => {
            let is_range = !versions.is_empty() && other.tag().is_none();
            Ok(is_range && match_alike(pre_release, own, &other, versions))
        }
        Err(Problem::Invalid(_)) => Ok(false),
        Err(Problem::OutOfMemory) => Err(Problem::OutOfMemory),
    }
}

/// What is a short range that matches the same versions of the list? It is the shorter of two: the range as it is written, and the ranges
/// in which the versions match, in canonical form, if they match the same when parsed again. The first invalid argument is the problem.
pub fn simplified(
    alloc: Global,
    flavour: Flavour,
    pre_release: PreRelease,
    range_text: &str,
    version_texts: &[&str],
) -> Result<Answer<String>, Problem>
    ensures { IsAnswer
        (Simplifies pre_release flavour range_text.now (texts_of version_texts.now))
        (λ answer. list_answer string_bytes answer) result }
{
    let range = range(alloc, flavour, 0, range_text)?;
    let mut versions = versions(alloc, version_texts)?;
    let set = match range.inner() {
        RangeSetOrTag::RangeSet(set) => set,
        RangeSetOrTag::Tag(tag) => {
            return Ok(Answer::Tag(PackageTag::from_str(alloc, tag.as_str())?));
        }
    };
    ascending_arrangements_tie::<Version>();
    versions.sort()?;
    let sorted = versions.as_slice();
    let ranges = ranges_of(alloc, set, sorted, pre_release)?;
    let made = format!(in alloc; "{ranges}")?;
    let is_same = matches_same(alloc, flavour, pre_release, &range, sorted, made.as_str())?;
    if is_same && made.len() < range_text.len() {
        Ok(Answer::Value(made))
    } else {
        Ok(Answer::Value(String::from_str(alloc, range_text)?))
    }
}
