//! Do sort keys alone order versions, as a database has to?

ghost use Rattle.std.specs.Prelude.{◌≡◌, IfOk};
ghost use Rattle.semver_base.specs.LowestVersion.{IsReadable};
ghost use Rattle.semver_base.specs.Precedence.{precedence_cmp};

use deno_semver::Version;
use semver_base::laws::sort_keys_follow_precedence;
use std::alloc::{AllocError, Global};
use std::cmp::Ordering;

/// How do two versions compare, by their keys as bytes? By precedence, if texts parse to them.
///
/// Fails only out of memory.
pub fn compared_by_key(
    alloc: Global,
    one: &Version,
    other: &Version,
) -> Result<Ordering, AllocError>
    requires one_is_readable { IsReadable one.now }
    requires other_is_readable { IsReadable other.now }
    ensures { IfOk result (λ ordering. ordering ≡ precedence_cmp one.now other.now) }
{
    sort_keys_follow_precedence();
    let one = one.sort_key(alloc)?;
    let other = other.sort_key(alloc)?;
    Ok(one.as_str().cmp(other.as_str()))
}
