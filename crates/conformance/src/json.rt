//! Calls on the JSON of values.

use crate::answer::{Answer, Fault, Item, OrFault, ReportError, Reported, valid};
use crate::arguments::pair;
use crate::kinds::Parse;
use deno_semver::json::{JsonError, JsonForm};
use deno_semver::jsr::{JsrDepPackageReq, JsrPackageNvReference};
use deno_semver::npm::NpmPackageNvReference;
use deno_semver::package::{PackageNv, PackageReq};
use deno_semver::{
    RangeBound, RangeSetOrTag, SmallStackString, StackString, Version, VersionBound,
    VersionBoundKind, VersionRange, VersionRangeSet, VersionReq,
};
use serde_json::{Category, Value};
use std::alloc::Global;

impl ReportError for JsonError {
    fn report(&self, answer: &mut Answer) -> Reported {
        match self {
            JsonError::Memory => Err(Fault::OutOfMemory),
            JsonError::Json => {
                answer.text("rejected")?;
                answer.displayed(self)
            }
        }
    }
}

/// Parses JSON.
pub fn value_of(alloc: Global, text: &str) -> OrFault<Value> {
    match Value::from_str(alloc, text) {
        Ok(value) => Ok(value),
        Err(e) if e.classify() == Category::Memory => Err(Fault::OutOfMemory),
        Err(_) => Err(Fault::OtherArguments),
    }
}

/// `json`: `read` and the JSON of the value of a type that a JSON text parses to; or `rejected` and the error's line.
pub fn json(arguments: &[Item], answer: &mut Answer) -> Reported {
    let (of_type, text) = pair(arguments)?;
    match of_type {
        "SmallStackString" => form::<SmallStackString>(text, answer),
        "StackString" => form::<StackString>(text, answer),
        "Version" => form::<Version>(text, answer),
        "VersionBoundKind" => form::<VersionBoundKind>(text, answer),
        "VersionBound" => form::<VersionBound>(text, answer),
        "RangeBound" => form::<RangeBound>(text, answer),
        "VersionRange" => form::<VersionRange>(text, answer),
        "VersionRangeSet" => form::<VersionRangeSet>(text, answer),
        "RangeSetOrTag" => form::<RangeSetOrTag>(text, answer),
        "VersionReq" => form::<VersionReq>(text, answer),
        "PackageReq" => form::<PackageReq>(text, answer),
        "PackageNv" => form::<PackageNv>(text, answer),
        "JsrPackageNvReference" => form::<JsrPackageNvReference>(text, answer),
        "NpmPackageNvReference" => form::<NpmPackageNvReference>(text, answer),
        "JsrDepPackageReq" => form::<JsrDepPackageReq>(text, answer),
        _ => Err(Fault::OtherArguments),
    }
}

fn form<T: JsonForm>(text: &str, answer: &mut Answer) -> Reported {
    let json = value_of(answer.alloc, text)?;
    let value = valid(T::from_json(answer.alloc, &json), answer)?;
    answer.text("read")?;
    let json = value.to_json(answer.alloc)?;
    answer.made(json.to_string(answer.alloc))
}

/// `stored`: whether the value of a text equals the one that its JSON parses to.
pub fn stored(arguments: &[Item], answer: &mut Answer) -> Reported {
    let (kind, text) = pair(arguments)?;
    match kind {
        "package" => store::<PackageReq>(text, answer),
        "dependency" => store::<JsrDepPackageReq>(text, answer),
        _ => Err(Fault::OtherArguments),
    }
}

fn store<T: JsonForm + Parse>(text: &str, answer: &mut Answer) -> Reported {
    let value = T::parse(text, answer)?;
    let json = value.to_json(answer.alloc)?;
    let again = valid(T::from_json(answer.alloc, &json), answer)?;
    answer.yes_or_no(again == value)
}
