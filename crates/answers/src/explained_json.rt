//! Explanations as JSON.

ghost use Rattle.std.specs.Prelude.{◌≡◌, ◌++◌, IfOk, OnOk, map, string_bytes};
ghost use Rattle.std.specs.Option.{option_copied};
ghost use Rattle.serde_json.specs.Data.{string};
ghost use Rattle.serde_json.specs.View.{view};
ghost use Rattle.answers.specs.Asking.{IsAnswer};
ghost use Rattle.answers.specs.Explained.{shown};
ghost use Rattle.answers.specs.ExplainedJson.{Explains, comparators_json, matches_json, numbers_text, option_list, pre_release_of, pre_releases, pre_releases_json, ranges_explained};
ghost use Rattle.answers.specs.Filtering.{list_answer};

use crate::asking::{Answer, Problem};
use crate::errors::error_json;
use crate::explained::{Comparator, Explanation, Matches, Meaning, Piece, explain};
use crate::object::{Object, json_text, text_json};
use crate::parts::{bound_json, displayed_json};
use semver_base::range::{PreRelease, RangeBound};
use semver_base::version::Version;
use semver_req::common::values::Flavour;
use semver_req::laws::{
    alternatives_have_one_list_of_comparators, tests_have_one_lowest_version,
    texts_are_rejected_for_one_reason, texts_have_one_list_of_alternatives, texts_have_one_outcome,
};
use serde_json::Value;
use std::alloc::{AllocError, Global};

// The version of a bound that is a pre-release, if pre-releases of its numbers match.
fn pre_release_of(bound: &RangeBound, matches: bool) -> Option<&Version>
    ensures { option_copied result ≡ pre_release_of bound.now matches }
{
    match bound {
        RangeBound::Version(bound) if matches && !bound.version.pre.is_empty() => {
            Some(&bound.version)
        }
        _ => None,
    }
}

impl Matches {
    /// Returns versions of whose three numbers pre-releases match by npm's rule: bounds that are pre-releases, but not two with the same
    /// numbers.
    pub fn pre_releases(&self) -> (Option<&Version>, Option<&Version>)
        ensures { option_list (option_copied result.0) ++ option_list (option_copied result.1)
            ≡ pre_releases self.now }
    {
        let first = pre_release_of(&self.range.start, self.pre_of_start);
        let second = pre_release_of(&self.range.end, self.pre_of_end);
        if let (Some(one), Some(other)) = (first, second) {
            if one.major == other.major && one.minor == other.minor && one.patch == other.patch {
                return (first, None);
            }
        }
        (first, second)
    }
}

// Adds the three numbers of a version, if there is one.
fn push_numbers(
    alloc: Global,
    items: &mut Vec<Value>,
    version: Option<&Version>,
) -> Result<(), AllocError>
    ensures { OnOk result (map view items.new.items ≡ map view items.old.items
        ++ map string (map numbers_text (option_list (option_copied version.entry)))) }
{
    if let Some(version) = version {
        let (major, minor, patch) = (version.major, version.minor, version.patch);
        let numbers = format!(in alloc; "{major}.{minor}.{patch}")?;
        items.push(Value::String(numbers))?;
    }
    Ok(())
}

// The numbers of which pre-releases match, or that all do.
fn pre_releases_json(
    alloc: Global,
    pre_release: PreRelease,
    matches: &Matches,
) -> Result<Value, AllocError>
    ensures { IfOk result (λ json. view json ≡ pre_releases_json pre_release matches.now) }
{
    match pre_release {
        PreRelease::Admitted => text_json(alloc, "all"),
        PreRelease::Restricted => {
            let (first, second) = matches.pre_releases();
            let mut items = Vec::new(alloc);
            push_numbers(alloc, &mut items, first)?;
            push_numbers(alloc, &mut items, second)?;
            Ok(Value::Array(items))
        }
    }
}

// Comparators.
fn comparators_json(alloc: Global, comparators: &[Comparator]) -> Result<Value, AllocError>
    ensures { IfOk result (λ json. view json ≡ comparators_json (map shown comparators.now)) }
{
    let mut items = Vec::new(alloc);
    for comparator in comparators {
        let text = comparator.text.as_str().trim();
        let json = Object::new(alloc)
            .put("end", bound_json(alloc, &comparator.range.end))
            .put("start", bound_json(alloc, &comparator.range.start))
            .put_text("text", Some(text))
            .into_json();
        items.push(json?)?;
    }
    Ok(Value::Array(items))
}

// An alternative that is a range.
fn matches_json(
    alloc: Global,
    pre_release: PreRelease,
    text: &str,
    comparators: &[Comparator],
    matches: &Matches,
) -> Result<Value, AllocError>
    ensures { IfOk result (λ json. view json
        ≡ matches_json pre_release text.now (map shown comparators.now) matches.now) }
{
    let lowest = match &matches.lowest {
        Some(version) => displayed_json(alloc, version),
        None => Ok(Value::Null),
    };
    Object::new(alloc)
        .put("comparators", comparators_json(alloc, comparators))
        .put("end", bound_json(alloc, &matches.range.end))
        .put("lowest", lowest)
        .put(
            "pre-releases",
            pre_releases_json(alloc, pre_release, matches),
        )
        .put("start", bound_json(alloc, &matches.range.start))
        .put_text("text", Some(text))
        .into_json()
}

/// Returns the alternatives of a text as JSON, the invalid ones with their errors, and its canonical form.
pub fn ranges_explained(
    alloc: Global,
    pre_release: PreRelease,
    pieces: &[Piece],
    normal: &str,
) -> Result<Value, AllocError>
    ensures { IfOk result (λ json. view json
        ≡ ranges_explained pre_release pieces.now normal.now) }
{
    let mut items = Vec::new(alloc);
    for piece in pieces {
        let text = piece.text.as_str().trim();
        let alternative = match &piece.meaning {
            Meaning::Range(matches) => {
                let comparators = piece.comparators.as_slice();
                matches_json(alloc, pre_release, text, comparators, matches)
            }
            Meaning::LeftOut(error) => Object::new(alloc)
                .put("error", error_json(alloc, error))
                .put_text("text", Some(text))
                .into_json(),
        };
        items.push(alternative?)?;
    }
    Object::new(alloc)
        .put("alternatives", Ok(Value::Array(items)))
        .put_text("normal", Some(normal))
        .into_json()
}

/// Returns what a grammar makes of a range's text, as the text of a JSON object; or the tag.
pub fn explain_as_json(
    alloc: Global,
    flavour: Flavour,
    pre_release: PreRelease,
    text: &str,
) -> Result<Answer<String>, Problem>
    ensures { IsAnswer (Explains pre_release flavour text.now)
        (λ answer. list_answer (λ text. string_bytes text) answer) result }
{
    texts_have_one_outcome();
    texts_are_rejected_for_one_reason();
    texts_have_one_list_of_alternatives();
    alternatives_have_one_list_of_comparators();
    tests_have_one_lowest_version();
    match explain(alloc, flavour, pre_release, text)? {
        Explanation::Tag(tag) => Ok(Answer::Tag(tag)),
        Explanation::Ranges { pieces, normal } => {
            let json = ranges_explained(alloc, pre_release, pieces.as_slice(), normal.as_str());
            Ok(Answer::Value(json_text(alloc, json)?))
        }
    }
}
