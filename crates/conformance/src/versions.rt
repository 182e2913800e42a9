//! Calls on versions, and the choice of one among several.

use crate::answer::{Answer, Fault, Item, Reported, valid};
use crate::arguments::{only, pair, pre_release, push};
use crate::kinds::Parse;
use crate::requirements::requirement;
use deno_semver::npm::parse_npm_version;
use deno_semver::{IntoVersionReq, ParseFailure, Version, VersionRange, resolve};

/// `version`: `read` and the version that a text parses to, as displayed.
pub fn version(arguments: &[Item], answer: &mut Answer) -> Reported {
    let version = Version::parse(only(arguments)?, answer)?;
    answer.text("read")?;
    answer.displayed(&version)
}

/// `npm-version`: `read` and the version that npm's parser makes of a text, as displayed.
pub fn npm_version(arguments: &[Item], answer: &mut Answer) -> Reported {
    let parsed = parse_npm_version(answer.alloc, only(arguments)?).map_err(ParseFailure::from);
    let version = valid(parsed, answer)?;
    answer.text("read")?;
    answer.displayed(&version)
}

/// `version-requirement`: the text and the canonical form of the requirement that a version is turned into.
pub fn version_requirement(arguments: &[Item], answer: &mut Answer) -> Reported {
    let alloc = answer.alloc;
    let requirement = Version::parse(only(arguments)?, answer)?.into_req(alloc)?;
    answer.text(requirement.version_text())?;
    answer.made(requirement.to_string_normalized(alloc))
}

/// `intersects-version`: whether a version lies between the bounds of a range.
pub fn intersects_version(arguments: &[Item], answer: &mut Answer) -> Reported {
    let (range, version) = pair(arguments)?;
    let range = VersionRange::parse(range, answer)?;
    let version = Version::parse(version, answer)?;
    answer.yes_or_no(range.intersects_version(&version))
}

/// `precedence`: how one version compares to another by precedence.
pub fn precedence(arguments: &[Item], answer: &mut Answer) -> Reported {
    let (one, other) = pair(arguments)?;
    let one = Version::parse(one, answer)?;
    let other = Version::parse(other, answer)?;
    answer.order(one.cmp_precedence(&other))
}

/// `sort-key`: the sort keys of two versions, and how the first compares to the second by bytes.
pub fn sort_key(arguments: &[Item], answer: &mut Answer) -> Reported {
    let (one, other) = pair(arguments)?;
    let alloc = answer.alloc;
    let one = Version::parse(one, answer)?.sort_key(alloc)?;
    let other = Version::parse(other, answer)?.sort_key(alloc)?;
    answer.texts(&[one.as_str(), other.as_str()])?;
    answer.order(one.as_str().cmp(other.as_str()))
}

/// `max-satisfying` or `min-satisfying`: the index of the highest or lowest version that matches, from 0, or `none`, by the
/// rule for pre-releases in the arguments, else by npm's; or `tag` and the tag.
pub fn satisfying(call: &str, arguments: &[Item], answer: &mut Answer) -> Reported {
    let [Some(grammar), Some(text), texts @ ..] = arguments else {
        return Err(Fault::OtherArguments);
    };
    let (with, texts) = match texts {
        [Some(word), rest @ ..] if pre_release(word.as_str()).is_some() => {
            (pre_release(word.as_str()), rest)
        }
        _ => (None, texts),
    };
    let requirement = requirement(grammar.as_str(), text.as_str(), answer)?;
    let mut versions = Vec::new(answer.alloc);
    for text in texts {
        let text = text.as_deref().ok_or(Fault::OtherArguments)?;
        push(&mut versions, Version::parse(text, answer))?;
    }
    let (requirement, versions) = (&requirement, versions.as_slice());
    if let Some(tag) = requirement.tag() {
        return answer.texts(&["tag", tag]);
    }
    let place = match with {
        None if call == "max-satisfying" => resolve::max_satisfying(versions, requirement),
        None => resolve::min_satisfying(versions, requirement),
        Some(with) if call == "max-satisfying" => {
            resolve::max_satisfying_with(versions, requirement, with)
        }
        Some(with) => resolve::min_satisfying_with(versions, requirement, with),
    };
    match place {
        None => answer.text("none"),
        Some(place) => answer.displayed(&place),
    }
}
