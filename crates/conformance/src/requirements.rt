//! Calls on version requirements.

use crate::answer::{Answer, Fault, Item, OrFault, Reported, valid};
use crate::arguments::{pair, pre_release, push, triple};
use crate::kinds::Parse;
use crate::notation;
use deno_semver::errors::{error_place, invalid_pieces, version_error_place};
use deno_semver::package::PackageReq;
use deno_semver::{RangeSetOrTag, Version, VersionBoundKind, VersionReq};
use semver_base::lexical::values::Measured;
use semver_req::common;
use semver_req::common::values::Flavour;

/// The grammar of this name.
pub fn flavour(grammar: &str) -> OrFault<Flavour> {
    match grammar {
        "npm" => Ok(Flavour::Npm),
        "normal" => Ok(Flavour::Normal),
        "strict" => Ok(Flavour::Specifier),
        _ => Err(Fault::OtherArguments),
    }
}

/// Parses a version requirement by the grammar of this name.
pub fn requirement(grammar: &str, text: &str, answer: &mut Answer) -> OrFault<VersionReq> {
    let parsed = VersionReq::parse(answer.alloc, text, flavour(grammar)?);
    valid(parsed, answer)
}

/// `requirement`: the ranges of a copy, or `tag` and the tag; and the text stored in the copy. `normal`: `ranges` or `tag`, and the
/// canonical form.
pub fn of_one(call: &str, arguments: &[Item], answer: &mut Answer) -> Reported {
    let (grammar, text) = pair(arguments)?;
    let requirement = requirement(grammar, text, answer)?;
    if call == "normal" {
        let is_tag = requirement.tag().is_some();
        answer.text(if is_tag { "tag" } else { "ranges" })?;
        return answer.made(requirement.to_string_normalized(answer.alloc));
    }
    let copy = requirement.copy()?;
    match copy.inner() {
        RangeSetOrTag::RangeSet(set) => answer.made(notation::set(answer.alloc, set))?,
        RangeSetOrTag::Tag(tag) => answer.texts(&["tag", tag.as_str()])?,
    }
    answer.text(copy.version_text())
}

/// `same-requirement` or `overlap`: whether two requirements are equal, or overlap.
pub fn of_two(call: &str, arguments: &[Item], answer: &mut Answer) -> Reported {
    let (grammar, one, other) = triple(arguments)?;
    let one = requirement(grammar, one, answer)?;
    let other = requirement(grammar, other, answer)?;
    answer.yes_or_no(match call {
        "same-requirement" => one == other,
        _ => one.intersects(&other),
    })
}

/// `fits`: whether a version matches, by the rule for pre-releases in the arguments, else by npm's; or `tag` and the tag.
pub fn fits(arguments: &[Item], answer: &mut Answer) -> Reported {
    let [Some(grammar), Some(text), Some(version), rest @ ..] = arguments else {
        return Err(Fault::OtherArguments);
    };
    let with = match rest {
        [] => None,
        [Some(word)] => Some(pre_release(word.as_str()).ok_or(Fault::OtherArguments)?),
        _ => return Err(Fault::OtherArguments),
    };
    let requirement = requirement(grammar.as_str(), text.as_str(), answer)?;
    let version = Version::parse(version.as_str(), answer)?;
    if let Some(tag) = requirement.tag() {
        return answer.texts(&["tag", tag]);
    }
    answer.yes_or_no(match with {
        None => requirement.matches(&version),
        Some(with) => requirement.matches_with(&version, with),
    })
}

/// `reread`: whether the other grammar parses the canonical form to an equal requirement, and the canonical form of that.
pub fn reread(arguments: &[Item], answer: &mut Answer) -> Reported {
    let (grammar, text, other) = triple(arguments)?;
    let first = requirement(grammar, text, answer)?;
    let normal = first.to_string_normalized(answer.alloc)?;
    let again = requirement(other, normal.as_str(), answer)?;
    answer.text(if first == again { "equal" } else { "differs" })?;
    answer.made(again.to_string_normalized(answer.alloc))
}

/// `min-version`, `common-version`, `common-of-all`: the lowest version that the only one, both, or all match. `version-outside`:
/// the lowest version that the first matches and the second doesn't. `is-subset`: whether the second matches each version that
/// the first matches. `is-equivalent`: whether both match the same. The answer is `tag` if one of them is a tag.
pub fn lowest(call: &str, arguments: &[Item], answer: &mut Answer) -> Reported {
    let [Some(grammar), Some(with), texts @ ..] = arguments else {
        return Err(Fault::OtherArguments);
    };
    let with = pre_release(with.as_str()).ok_or(Fault::OtherArguments)?;
    let mut all = Vec::new(answer.alloc);
    for text in texts {
        let text = text.as_deref().ok_or(Fault::OtherArguments)?;
        push(&mut all, requirement(grammar.as_str(), text, answer))?;
    }
    let [own, others @ ..] = all.as_slice() else {
        return Err(Fault::OtherArguments);
    };
    if own.tag().is_some() || !VersionReq::have_no_tag(others) {
        return answer.text("tag");
    }
    let alloc = answer.alloc;
    let lowest = match others {
        _ if call == "common-of-all" => own.common_version_of_all(alloc, others, with)?,
        [] if call == "min-version" => own.min_version(alloc, with)?,
        [other] if other.tag().is_none() => match call {
            "common-version" => own.common_version(alloc, other, with)?,
            "version-outside" => own.version_outside(alloc, other, with)?,
            "is-subset" => return answer.yes_or_no(own.is_subset(alloc, other, with)?),
            "is-equivalent" => return answer.yes_or_no(own.is_equivalent(alloc, other, with)?),
            _ => return Err(Fault::OtherArguments),
        },
        _ => return Err(Fault::OtherArguments),
    };
    match lowest {
        None => answer.text("none"),
        Some(version) => answer.displayed(&version),
    }
}

/// `scans`: of each scan of what a requirement matches, `release` or `pre`, its low key and its high one; or `tag`.
pub fn scans(arguments: &[Item], answer: &mut Answer) -> Reported {
    let (grammar, with, text) = triple(arguments)?;
    let with = pre_release(with).ok_or(Fault::OtherArguments)?;
    let own = requirement(grammar, text, answer)?;
    if own.tag().is_some() {
        return answer.text("tag");
    }
    for scan in &own.scans(answer.alloc, with)? {
        let kind = if scan.is_pre { "pre" } else { "release" };
        answer.texts(&[kind, scan.low.as_str(), scan.high.as_str()])?;
    }
    Ok(())
}

/// `error-place`: the index at which a text leaves the grammar of versions or of requirements.
pub fn place_of_error(arguments: &[Item], answer: &mut Answer) -> Reported {
    let (grammar, text) = pair(arguments)?;
    let place = match grammar {
        "version" => version_error_place(answer.alloc, text)?,
        _ => error_place(answer.alloc, text, flavour(grammar)?)?,
    };
    answer.displayed(&place)
}

/// `invalid-pieces`: of each invalid alternative, its start, its end, where it is wrong, and why the parser rejects it.
pub fn pieces_of_error(arguments: &[Item], answer: &mut Answer) -> Reported {
    let (grammar, text) = pair(arguments)?;
    let pieces = invalid_pieces(answer.alloc, text, flavour(grammar)?)?;
    for piece in &pieces {
        answer.displayed(&piece.start)?;
        answer.displayed(&piece.end)?;
        answer.displayed(&piece.place)?;
        answer.text(piece.cause.rejection().message())?;
    }
    Ok(())
}

/// `partial`: the bound or the range that a copy of a partial version means at a place.
pub fn partial(arguments: &[Item], answer: &mut Answer) -> Reported {
    let (place, text) = pair(arguments)?;
    let parsed = common::partial_front(answer.alloc, text, Flavour::Npm)?;
    let Some((Measured::Fits(partial), _)) = parsed else {
        return Err(Fault::OtherArguments);
    };
    let copy = partial.copy();
    drop(partial);
    let partial = copy?;
    let alloc = answer.alloc;
    let range = match place {
        "lower" => {
            let bound = valid(partial.as_lower_bound(alloc), answer)?;
            return answer.made(notation::bound(alloc, '>', &bound));
        }
        "upper" => {
            let bound = valid(partial.as_upper_bound(alloc), answer)?;
            return answer.made(notation::bound(alloc, '<', &bound));
        }
        "tilde" => partial.as_tilde_version_range(alloc),
        "caret" => partial.as_caret_version_range(alloc),
        "equal" => partial.as_equal_range(alloc),
        "from-inclusive" => partial.as_greater_range(alloc, VersionBoundKind::Inclusive),
        "from-exclusive" => partial.as_greater_range(alloc, VersionBoundKind::Exclusive),
        ">=" => partial.as_greater_than(alloc, VersionBoundKind::Inclusive),
        ">" => partial.as_greater_than(alloc, VersionBoundKind::Exclusive),
        "<=" => partial.as_less_than(alloc, VersionBoundKind::Inclusive),
        "<" => partial.as_less_than(alloc, VersionBoundKind::Exclusive),
        _ => return Err(Fault::OtherArguments),
    };
    notation::report(range, answer)
}

/// `ample`: whether every parser has enough memory for a text, alone and with up to so many `1` after it.
pub fn ample(arguments: &[Item], answer: &mut Answer) -> Reported {
    let (text, count) = pair(arguments)?;
    let count = count.parse::<usize>().ok().ok_or(Fault::OtherArguments)?;
    let mut longer = String::from_str(answer.alloc, text)?;
    let mut is_ample = true;
    for _ in 0..=count {
        let text = longer.as_str();
        let mut other = Answer::new(answer.alloc);
        is_ample = is_ample
            && has_memory(requirement("npm", text, &mut other))
            && has_memory(requirement("normal", text, &mut other))
            && has_memory(requirement("strict", text, &mut other))
            && has_memory(Version::parse(text, &mut other))
            && has_memory(<PackageReq as Parse>::parse(text, &mut other));
        drop(other);
        longer.push('1')?;
    }
    answer.yes_or_no(is_ample)
}

fn has_memory<T: Drop>(parsed: OrFault<T>) -> bool {
    let has_memory = !matches!(parsed, Err(Fault::OutOfMemory));
    drop(parsed);
    has_memory
}
