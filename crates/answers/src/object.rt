//! JSON objects, built member by member.

ghost use Rattle.std.specs.Prelude.{◌≡◌, IfOk, false, string_bytes};
ghost use Rattle.std.specs.Option.{option_copied};
ghost use Rattle.serde_json.specs.Data.{Data, Members, no_members, object, put as with_member, string};
ghost use Rattle.serde_json.specs.View.{view};
ghost use Rattle.serde_json.specs.Written.{compact_text, has_float};
ghost use Rattle.answers.specs.Object.{Has, text_or_null};

use serde_json::{Map, Value, put};
use std::alloc::{AllocError, Global};

/// A JSON object under construction. If memory runs out for a member, that is the outcome.
#[derive(Drop)]
pub struct Object {
    pub members: Result<Map<String, Value>, AllocError>,
    alloc: Global,
}

/// The JSON of a text.
pub fn text_json(alloc: Global, text: &str) -> Result<Value, AllocError>
    ensures { IfOk result (λ json. view json ≡ string text.now) }
{
    Value::try_from_str(alloc, text)
}

/// Returns the text of JSON without floats.
pub fn json_text(alloc: Global, json: Result<Value, AllocError>) -> Result<String, AllocError>
    ensures { (d : Data) → has_float d ≡ false → IfOk json (λ json. view json ≡ d)
        → IfOk result (λ text. string_bytes text ≡ compact_text d) }
{
    match json {
        Ok(json) => json.to_string(alloc),
        Err(error) => Err(error),
    }
}

impl Object {
    /// Starts without members.
    pub fn new(alloc: Global) -> Object
        ensures { Has result no_members }
    {
        Object {
            members: Ok(Map::new(alloc)),
            alloc,
        }
    }

    /// Adds a member; an earlier error stays.
    pub fn put(self, key: &str, value: Result<Value, AllocError>) -> Object
        ensures { (all : Members) (d : Data) → Has self all → IfOk value (λ value. view value ≡ d)
            → Has result (with_member key.now d all) }
    {
        let Object { members, alloc } = self;
        let members = match (members, value) {
            (Ok(mut members), Ok(value)) => {
                put(&mut members, alloc, key, value).map(|_| members)
            }
            _ => Err(AllocError),
        };
        Object { members, alloc }
    }

    /// Adds a text, or null.
    pub fn put_text(self, key: &str, text: Option<&str>) -> Object
        ensures { (all : Members) → Has self all
            → Has result (with_member key.now (text_or_null (option_copied text.entry)) all) }
    {
        let value = match text {
            Some(text) => text_json(self.alloc, text),
            None => Ok(Value::Null),
        };
        self.put(key, value)
    }

    /// Returns the object.
    pub fn into_json(self) -> Result<Value, AllocError>
        ensures { (all : Members) → Has self all → IfOk result (λ json. view json ≡ object all) }
    {
        Ok(Value::Object(self.members?))
    }
}
