//! Lists of package requirements as JSON.

ghost use Rattle.std.specs.Prelude.{◌≡◌, All, IfErr, IfOk, IsSorted, List, MatchResult};
ghost use Rattle.serde_json.specs.View.{view};
ghost use Rattle.deno_semver.specs.JsonAnswers.{IsJsonRejection};
ghost use Rattle.deno_semver.specs.ReqOrder.{req_cmp};
ghost use Rattle.deno_semver.specs.Stored.{IsStableReq};
ghost use Rattle.deno_semver.specs.StoredList.{AreEqualLists, IsJsonOfReqs, IsNpmReq, IsReadList, IsSortedFrom, IsStoredList, ParsesToEqualList, reqs_json};

use super::object::items_json;
use super::{JsonError, JsonForm};
use crate::laws::stored_requirements_are_read_again;
use crate::package::PackageReq;
use semver_req::laws::ascending_arrangements_tie;
use serde_json::Value;
use std::alloc::{AllocError, Global};

/// Returns the JSON array of the package requirements, in the given order. Fails only out of memory.
///
/// The JSON of requirements that [`PackageReq::from_str_loose`] parsed parses to requirements at the same places, as
/// [`PackageReq`]'s JSON says, and the JSON of those parses to equal ones.
pub fn reqs_to_json(alloc: Global, reqs: &[PackageReq]) -> Result<Value, AllocError>
    ensures value { IfOk result (λ json. view json ≡ reqs_json reqs.now) }
    ensures read_again { IfOk result (λ json. All IsNpmReq reqs.now
        → IsStoredList reqs.now (view json)) }
    ensures stable { IfOk result (λ json. All IsStableReq reqs.now
        → ParsesToEqualList (view json) reqs.now) }
{
    stored_requirements_are_read_again();
    Ok(Value::Array(items_json(alloc, reqs)?))
}

/// Parses an array to package requirements, each as often as it occurs, in ascending order. The order among equal ones is
/// unspecified.
///
/// Fails with [`JsonError::Json`] exactly if the JSON isn't an array or an item doesn't parse to a package requirement, and
/// with [`JsonError::Memory`] only out of memory. A list stored in ascending order parses to an equal one.
pub fn reqs_from_json(alloc: Global, value: &Value) -> Result<Vec<PackageReq>, JsonError>
    ensures read { IfOk result (λ reqs. IsReadList (view value.now) reqs.items) }
    ensures rejected { IfErr result (IsJsonRejection IsJsonOfReqs (view value.now)) }
    ensures answer { (reqs : List PackageReq) → IsJsonOfReqs (view value.now) reqs
        → MatchResult result (λ read. IsSortedFrom reqs read.items) (λ e. e ≡ JsonError.Memory) }
    ensures again { (reqs : List PackageReq) → IsSorted req_cmp reqs
        → ParsesToEqualList (view value.now) reqs
        → MatchResult result (λ read. AreEqualLists read.items reqs) (λ e. e ≡ JsonError.Memory) }
{
    let Some(items) = value.as_array() else {
        return Err(JsonError::Json);
    };
    ascending_arrangements_tie::<PackageReq>();
    let items = items.as_slice();
    let mut reqs = Vec::new(alloc);
    for item in items {
        let req = PackageReq::from_json(alloc, item)?;
        if reqs.push(req).is_err() {
            return Err(JsonError::Memory);
        }
    }
    reqs.sort()?;
    Ok(reqs)
}
