//! Does a package requirement, or a list of them, survive a lockfile, which stores it as JSON?

ghost use Rattle.std.specs.Prelude.{◌≡◌, All, IsSorted};
ghost use Rattle.deno_semver.specs.Equal.{AreEqualReqs};
ghost use Rattle.deno_semver.specs.ReqOrder.{req_cmp};
ghost use Rattle.deno_semver.specs.Stored.{IsSameWhenStored, IsStableReq};
ghost use Rattle.deno_semver.specs.StoredList.{AreEqualLists, IsNpmReq};
ghost use Rattle.callers.specs.Allowance.{allowance_of};
ghost use Rattle.callers.specs.Lockfile.{IsLockedList, KeepsMeaning, Locks, OfNpm};

use crate::requirements::{Allowance, allowance_by};
use deno_semver::Version;
use deno_semver::json::{JsonError, JsonForm, reqs_from_json, reqs_to_json};
use deno_semver::package::PackageReq;
use std::alloc::Global;

/// What does the entry that a lockfile stores for the requirement parse to? If npm's parser returned it, to one with the same
/// name, and with the same tag or with ranges that mean the same if each keeps its meaning; that one is stable. A stable one
/// to an equal one.
pub fn locked(alloc: Global, req: &PackageReq) -> Result<PackageReq, JsonError>
    ensures npm { OfNpm req.now (Locks (IsSameWhenStored req.now) result) }
    ensures stable { IsStableReq req.now → Locks (λ again. AreEqualReqs again req.now) result }
{
    let entry = req.to_json(alloc)?;
    PackageReq::from_json(alloc, &entry)
}

/// What does the entry of a requirement parse to, and what does that one's entry? If npm's parser returned it, to what
/// [`locked`] says, and then to an equal one.
pub fn locked_twice(alloc: Global, req: &PackageReq) -> Result<(PackageReq, PackageReq), JsonError>
    ensures once { OfNpm req.now (Locks (λ reqs. IsSameWhenStored req.now reqs.0) result) }
    ensures twice { OfNpm req.now (Locks (λ reqs. AreEqualReqs reqs.1 reqs.0) result) }
{
    let once = locked(alloc, req)?;
    let twice = locked(alloc, &once)?;
    Ok((once, twice))
}

/// Does the requirement allow the version once a lockfile has stored it? Exactly if it did before, if npm's parser returned
/// it and each of its ranges keeps its meaning. A tag is returned as one.
pub fn allows_when_locked(
    alloc: Global,
    req: &PackageReq,
    version: &Version,
) -> Result<Allowance, JsonError>
    ensures { OfNpm req.now (KeepsMeaning req.now.version_req.inner
        → Locks (λ allowance. allowance ≡ allowance_of req.now.version_req.inner version.now) result) }
{
    let again = locked(alloc, req)?;
    Ok(allowance_by(&again.version_req, version))
}

/// What does the entry of a list of requirements parse to? If npm's parser returned them, to what [`locked`] says of each, in
/// ascending order. An ascending list of stable ones to an equal list.
pub fn locked_list(alloc: Global, reqs: &[PackageReq]) -> Result<Vec<PackageReq>, JsonError>
    ensures npm { All IsNpmReq reqs.now
        → Locks (λ again. IsLockedList reqs.now again.items) result }
    ensures stable { All IsStableReq reqs.now → IsSorted req_cmp reqs.now
        → Locks (λ again. AreEqualLists again.items reqs.now) result }
{
    let entry = reqs_to_json(alloc, reqs)?;
    reqs_from_json(alloc, &entry)
}

/// What does a lockfile's list parse to, and what does that list's entry? If npm's parser returned the requirements, to an
/// ascending list, and then to an equal one.
pub fn locked_list_twice(
    alloc: Global,
    reqs: &[PackageReq],
) -> Result<(Vec<PackageReq>, Vec<PackageReq>), JsonError>
    ensures once { All IsNpmReq reqs.now
        → Locks (λ lists. IsLockedList reqs.now lists.0.items) result }
    ensures twice { All IsNpmReq reqs.now
        → Locks (λ lists. AreEqualLists lists.1.items lists.0.items) result }
{
    let once = locked_list(alloc, reqs)?;
    let twice = locked_list(alloc, once.as_slice())?;
    Ok((once, twice))
}
