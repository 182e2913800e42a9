//! The three grammars of requirements, and comparators of comparison operators.

ghost use Rattle.std.specs.Prelude.{◌≡◌, IfErr, IfOk, OnOk, true};
ghost use Rattle.semver_base.specs.Comparators.{primitive_line};
ghost use Rattle.semver_base.specs.PartialTable.{IsBoundRejection, all_fit};
ghost use Rattle.semver_req.specs.Partials.{strictness_of};

use semver_base::failure::ParseFailure;
use semver_base::lexical::values::Strictness;
use semver_base::partial::Partial;
pub use semver_base::partial::PrimitiveKind;
use semver_base::range::VersionRange;
use std::alloc::{AllocError, Global};

/// Which grammar a requirement is parsed by.
#[derive(Clone, Copy, Debug, PartialEq, Eq)]
pub enum Flavour {
    /// npm's own, the widest: numbers may have leading zeros, a pre-release may lack its `-`, and a `v` may precede a partial
    /// version.
    Npm,
    /// The normalized grammar, whose only wildcard is `*`; its numbers and pre-releases are npm's.
    Normal,
    /// The strict grammar of package specifiers: no leading zeros, and a pre-release begins with `-`.
    Specifier,
}

impl Flavour {
    /// The grammar of the flavour's numbers and pre-releases.
    pub fn strictness(self) -> Strictness
        ensures { result ≡ strictness_of self }
    {
        match self {
            Flavour::Npm => Strictness::Loose,
            Flavour::Normal => Strictness::Loose,
            Flavour::Specifier => Strictness::Strict,
        }
    }
}

/// A comparison operator and the partial version after it.
#[derive(Drop)]
pub struct Primitive {
    pub kind: PrimitiveKind,
    pub partial: Partial,
}

impl Primitive {
    /// Returns a copy. Fails only out of memory.
    pub fn copy(&self) -> Result<Self, AllocError>
        ensures { IfOk result (λ primitive. primitive ≡ self.now) }
    {
        Ok(Primitive {
            kind: self.kind,
            partial: self.partial.copy()?,
        })
    }

    /// The range of the comparator (node-semver's primitives).
    ///
    /// Fails with "Version bound is too large." exactly if a number that the range increments exceeds 18446744073709551615;
    /// otherwise only out of memory.
    pub fn into_version_range(self, alloc: Global) -> Result<VersionRange, ParseFailure>
        ensures range { IfOk result
            (λ range. range ≡ (primitive_line self.kind self.partial).range) }
        ensures fits { OnOk result (all_fit (primitive_line self.kind self.partial).sums ≡ true) }
        ensures rejected { IfErr result
            (IsBoundRejection (primitive_line self.kind self.partial).sums) }
    {
        self.kind.range(alloc, &self.partial)
    }
}
