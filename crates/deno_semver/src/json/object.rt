//! Values whose JSON is an object or an array.

ghost use Rattle.std.specs.Prelude.{◌≡◌, IfOk, OnOk, map};
ghost use Rattle.serde_json.specs.Data.{put as with_member};
ghost use Rattle.serde_json.specs.View.{members_view, view};
ghost use Rattle.deno_semver.specs.Json.{IsJsonOfBound, IsJsonOfRange, IsJsonOfRangeBound, IsJsonOfSet, IsJsonOfVersionReq, IsMemberOf, bound_json, range_bound_json, range_json, set_json, version_req_json};
ghost use Rattle.deno_semver.specs.JsonAnswers.{IsJsonAnswer};

use super::{JsonError, JsonForm};
use semver_base::range::{
    RangeBound, VersionBound, VersionBoundKind, VersionRange, VersionRangeSet,
};
use semver_base::string::{CowVec, SmallStackString};
use semver_base::version::Version;
use semver_req::range_set_or_tag::RangeSetOrTag;
use semver_req::req::VersionReq;
use serde_json::{Map, Value, put};
use std::alloc::{AllocError, Global};

// The value that the object's member with this key parses to.
fn of_member<T: JsonForm>(alloc: Global, value: &Value, key: &str) -> Result<T, JsonError>
    ensures read { IfOk result (IsMemberOf T.parses_to key.now (view value.now)) }
    ensures answer { (x : T) → IsMemberOf T.parses_to key.now (view value.now) x
        → IsJsonAnswer x result }
{
    match value.get(key) {
        Some(member) => T::from_json(alloc, member),
        None => Err(JsonError::Json),
    }
}

// The values that the object's members with these two keys parse to.
fn of_members<A: JsonForm, B: JsonForm>(
    alloc: Global,
    value: &Value,
    first: &str,
    second: &str,
) -> Result<(A, B), JsonError>
    ensures read { IfOk result (λ both. IsMemberOf A.parses_to first.now (view value.now) both.0
        × IsMemberOf B.parses_to second.now (view value.now) both.1) }
    ensures answer { (a : A) (b : B) → IsMemberOf A.parses_to first.now (view value.now) a
        → IsMemberOf B.parses_to second.now (view value.now) b → IsJsonAnswer (a, b) result }
{
    let one = of_member(alloc, value, first)?;
    let other = of_member(alloc, value, second)?;
    Ok((one, other))
}

// Puts the JSON of a value into an object under this key.
#[inline(always)]
fn put_json<T: JsonForm>(
    alloc: Global,
    members: &mut Map<String, Value>,
    key: &str,
    value: &T,
) -> Result<(), AllocError>
    ensures { OnOk result (members_view members.new.entries
        ≡ with_member key.now (T.json value.now) (members_view members.old.entries)) }
{
    put(members, alloc, key, value.to_json(alloc)?)
}

/// An object with the members `kind` and `version`.
impl JsonForm for VersionBound {
    ghost json = { bound_json };

    ghost parses_to = { IsJsonOfBound };

    fn to_json(&self, alloc: Global) -> Result<Value, AllocError> {
        let mut members = Map::new(alloc);
        put_json(alloc, &mut members, "kind", &self.kind)?;
        put_json(alloc, &mut members, "version", &self.version)?;
        Ok(Value::Object(members))
    }

    fn from_json(alloc: Global, value: &Value) -> Result<Self, JsonError> {
        let (kind, version) = of_members::<VersionBoundKind, Version>(
            alloc, value, "kind", "version",
        )?;
        Ok(VersionBound::new(kind, version))
    }
}

/// The string `Unbounded`, or an object whose only member is `Version`; one with further members is rejected.
impl JsonForm for RangeBound {
    ghost json = { range_bound_json };

    ghost parses_to = { IsJsonOfRangeBound };

    fn to_json(&self, alloc: Global) -> Result<Value, AllocError> {
        match self {
            RangeBound::Unbounded => Value::try_from_str(alloc, "Unbounded"),
            RangeBound::Version(bound) => {
                let mut members = Map::new(alloc);
                put_json(alloc, &mut members, "Version", bound)?;
                Ok(Value::Object(members))
            }
        }
    }

    fn from_json(alloc: Global, value: &Value) -> Result<Self, JsonError> {
        if value.as_str() == Some("Unbounded") {
            return Ok(RangeBound::Unbounded);
        }
        let Some(members) = value.as_object() else {
            return Err(JsonError::Json);
        };
        if members.len() != 1 {
            return Err(JsonError::Json);
        }
        Ok(RangeBound::Version(of_member(alloc, value, "Version")?))
    }
}

/// An object with the members `end` and `start`.
impl JsonForm for VersionRange {
    ghost json = { range_json };

    ghost parses_to = { IsJsonOfRange };

    fn to_json(&self, alloc: Global) -> Result<Value, AllocError> {
        let mut members = Map::new(alloc);
        put_json(alloc, &mut members, "start", &self.start)?;
        put_json(alloc, &mut members, "end", &self.end)?;
        Ok(Value::Object(members))
    }

    fn from_json(alloc: Global, value: &Value) -> Result<Self, JsonError> {
        let (start, end) = of_members::<RangeBound, RangeBound>(alloc, value, "start", "end")?;
        Ok(VersionRange { start, end })
    }
}

/// The JSON of the values, in order.
pub(super) fn items_json<T: JsonForm>(alloc: Global, values: &[T]) -> Result<Vec<Value>, AllocError>
    ensures { IfOk result (λ items. map view items.items ≡ map T.json values.now) }
{
    let mut items = Vec::new(alloc);
    for value in values {
        items.push(value.to_json(alloc)?)?;
    }
    Ok(items)
}

/// The array of the ranges.
impl JsonForm for VersionRangeSet {
    ghost json = { set_json };

    ghost parses_to = { IsJsonOfSet };

    fn to_json(&self, alloc: Global) -> Result<Value, AllocError> {
        let items = items_json(alloc, self.0.iter().as_slice())?;
        Ok(Value::Array(items))
    }

    fn from_json(alloc: Global, value: &Value) -> Result<Self, JsonError> {
        let Some(items) = value.as_array() else {
            return Err(JsonError::Json);
        };
        let items = items.as_slice();
        let mut ranges = CowVec::new(alloc);
        for item in items {
            ranges.push(VersionRange::from_json(alloc, item)?)?;
        }
        Ok(VersionRangeSet(ranges))
    }
}

/// An object with the members `inner`, as [`RangeSetOrTag`] has it, and `raw_text`, any string.
impl JsonForm for VersionReq {
    ghost json = { version_req_json };

    ghost parses_to = { IsJsonOfVersionReq };

    fn to_json(&self, alloc: Global) -> Result<Value, AllocError> {
        let mut members = Map::new(alloc);
        put_json(alloc, &mut members, "inner", self.inner())?;
        let raw_text = Value::try_from_str(alloc, self.version_text())?;
        put(&mut members, alloc, "raw_text", raw_text)?;
        Ok(Value::Object(members))
    }

    fn from_json(alloc: Global, value: &Value) -> Result<Self, JsonError> {
        let (raw_text, inner) = of_members::<SmallStackString, RangeSetOrTag>(
            alloc, value, "raw_text", "inner",
        )?;
        Ok(VersionReq::from_raw_text_and_inner(raw_text, inner))
    }
}
