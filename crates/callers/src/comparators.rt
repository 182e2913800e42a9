//! Is a string made of comparators?

ghost use Rattle.std.specs.Prelude.{◌↔◌, IfOk, IsTrue, List, ℕ};
ghost use Rattle.semver_req.specs.ComparatorLists.{AreComparators};
ghost use Rattle.semver_req.specs.declared.common.values.Flavour.TheVariants.{Npm};
ghost use Rattle.semver_req.specs.declared.range_set_or_tag.pieces.RangeOrInvalid.{RangeOrInvalid};

use semver_req::common::values::Flavour;
use semver_req::comparators::comparators;
use std::alloc::{AllocError, Global};

/// Is the string an alternative of npm's grammar that is made of comparators, such as `>=1.2 <2`? Fails only out of memory.
pub fn has_comparators(alloc: Global, alternative: &str) -> Result<bool, AllocError>
    ensures { IfOk result (λ has. IsTrue has
        ↔ ((items : List (List ℕ × RangeOrInvalid)) × AreComparators Npm alternative.now items)) }
{
    match comparators(alloc, alternative, Flavour::Npm)? {
        Some(_items) => Ok(true),
        None => Ok(false),
    }
}
