//! The parts of versions and ranges, as JSON.

ghost use Rattle.std.specs.Prelude.{◌≡◌, IfOk, string_bytes};
ghost use Rattle.serde_json.specs.Data.{string};
ghost use Rattle.serde_json.specs.View.{view};
ghost use Rattle.semver_base.specs.VersionText.{version_text};
ghost use Rattle.std.specs.Fmt.{decimal};
ghost use Rattle.answers.specs.Asking.{IsAnswer};
ghost use Rattle.answers.specs.Filtering.{list_answer};
ghost use Rattle.answers.specs.Parts.{RangeParts, VersionParts, bound_json, texts_json};
ghost use Rattle.answers.specs.declared.asking.Kind.TheVariants as kind;

use crate::asking::{Answer, Problem};
use crate::object::{Object, json_text, text_json};
use crate::questions::text_of_version;
use crate::reading::{range, version};
use semver_base::range::{RangeBound, VersionBoundKind};
use semver_base::version::{Version, VersionPreOrBuild};
use semver_req::common::values::Flavour;
use semver_req::range_set_or_tag::{PackageTag, RangeSetOrTag};
use serde_json::Value;
use std::alloc::{AllocError, Global};

// The JSON of the parts of a pre-release or a build.
fn texts_json(alloc: Global, texts: &[VersionPreOrBuild]) -> Result<Value, AllocError>
    ensures { IfOk result (λ json. view json ≡ texts_json texts.now) }
{
    let mut items = Vec::new(alloc);
    for text in texts {
        items.push(text_json(alloc, text.as_str())?)?;
    }
    Ok(Value::Array(items))
}

// The JSON of a number of a version: a text, since few programs that read JSON hold each number.
fn number_json(alloc: Global, number: u64) -> Result<Value, AllocError>
    ensures { IfOk result (λ json. view json ≡ string (decimal number)) }
{
    Ok(Value::String(format!(in alloc; "{number}")?))
}

/// The JSON of a version as displayed.
pub fn displayed_json(alloc: Global, version: &Version) -> Result<Value, AllocError>
    ensures { IfOk result (λ json. view json ≡ string (version_text version.now)) }
{
    Ok(Value::String(text_of_version(alloc, version)?))
}

/// Parses a version, and returns its parts as the text of a JSON object: its three numbers as texts, and the parts of its
/// pre-release and its build.
pub fn version_parts(alloc: Global, version_text: &str) -> Result<String, Problem>
    ensures { IsAnswer (VersionParts version_text.now) (λ text. string_bytes text) result }
{
    let version = version(alloc, 0, version_text)?;
    let json = Object::new(alloc)
        .put("build", texts_json(alloc, version.build.iter().as_slice()))
        .put("major", number_json(alloc, version.major))
        .put("minor", number_json(alloc, version.minor))
        .put("patch", number_json(alloc, version.patch))
        .put("pre", texts_json(alloc, version.pre.iter().as_slice()))
        .into_json();
    Ok(json_text(alloc, json)?)
}

/// Returns a bound as JSON: its version as displayed, and whether that lies within it; null, if there is no bound.
pub fn bound_json(alloc: Global, bound: &RangeBound) -> Result<Value, AllocError>
    ensures { IfOk result (λ json. view json ≡ bound_json bound.now) }
{
    match bound {
        RangeBound::Unbounded => Ok(Value::Null),
        RangeBound::Version(bound) => Object::new(alloc)
            .put(
                "inclusive",
                Ok(Value::from(bound.kind == VersionBoundKind::Inclusive)),
            )
            .put("version", displayed_json(alloc, &bound.version))
            .into_json(),
    }
}

/// Parses a range, and returns its ranges in the order in which they stand, as the text of a JSON array of their bounds.
pub fn range_parts(
    alloc: Global,
    flavour: Flavour,
    range_text: &str,
) -> Result<Answer<String>, Problem>
    ensures { IsAnswer (RangeParts flavour range_text.now)
        (λ answer. list_answer (λ text. string_bytes text) answer) result }
{
    let range = range(alloc, flavour, 0, range_text)?;
    match range.inner() {
        RangeSetOrTag::Tag(tag) => Ok(Answer::Tag(PackageTag::from_str(alloc, tag.as_str())?)),
        RangeSetOrTag::RangeSet(set) => {
            let mut items = Vec::new(alloc);
            for range in set.0.iter().as_slice() {
                let bounds = Object::new(alloc)
                    .put("end", bound_json(alloc, &range.end))
                    .put("start", bound_json(alloc, &range.start))
                    .into_json();
                items.push(bounds?).map_err(AllocError::from)?;
            }
            let json = Ok(Value::Array(items));
            Ok(Answer::Value(json_text(alloc, json)?))
        }
    }
}
