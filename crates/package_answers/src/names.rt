//! The text of a name with a version, such as `@scope/name@1.2.3`.

ghost use Rattle.std.specs.Prelude.{◌≡◌, ◌≢◌, ◌⊎◌, [], IfOk, None, Some, string_bytes};
ghost use Rattle.serde_json.specs.View.{view};
ghost use Rattle.answers.specs.Asking.{IsAnswer};
ghost use Rattle.package_answers.specs.Names.{NameWithVersionParts, nv_json};

use crate::packages::scope_and_name;
use answers::asking::{Kind, Problem};
use answers::object::{Object, json_text};
use answers::parts::displayed_json;
use deno_semver::ParseFailure;
use deno_semver::package::PackageNv;
use serde_json::Value;
use std::alloc::{AllocError, Global};

/// Returns the parts of a name with a version as JSON: the name without its scope, the scope or null, and the version.
pub fn nv_json(alloc: Global, nv: &PackageNv) -> Result<Value, AllocError>
    ensures { IfOk result (λ json. view json ≡ nv_json nv.now) }
{
    let (scope, name) = scope_and_name(nv.name.as_str());
    Object::new(alloc)
        .put_text("name", Some(name))
        .put_text("scope", scope)
        .put("version", displayed_json(alloc, &nv.version))
        .into_json()
}

/// What is wrong with a text, by the message of its parse error, which is empty for out of memory.
pub(crate) fn message_failure(alloc: Global, message: &str) -> ParseFailure
    ensures { (result ≡ None) ⊎ ((message.now ≢ []) × (result ≡ Some (message.now, None))) }
{
    if message.is_empty() {
        return ParseFailure::memory();
    }
    ParseFailure::with_texts(alloc, message, None)
}

/// Parses a name with a version, such as `@scope/name@1.2.3`, and returns its parts as the text of a JSON object.
pub fn name_with_version_parts(alloc: Global, text: &str) -> Result<String, Problem>
    ensures { IsAnswer (NameWithVersionParts text.now) (λ text. string_bytes text) result }
{
    let nv = match PackageNv::from_str(alloc, text) {
        Ok(nv) => nv,
        Err(error) => {
            let failure = message_failure(alloc, error.message.as_str());
            return Err(Problem::of(Kind::Package, 0, failure));
        }
    };
    Ok(json_text(alloc, nv_json(alloc, &nv))?)
}
