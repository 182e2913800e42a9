//! The values that the tokens of versions and requirements parse to.

ghost use Rattle.std.specs.Prelude.{◌≡◌, [], IfOk};

use crate::string::{CowVec, SmallStackString};
use std::alloc::{AllocError, Global};

/// Which grammar a token is parsed by.
#[derive(Clone, Copy)]
pub enum Strictness {
    /// Numbers may have leading zeros, and a pre-release may lack its `-`.
    Loose,
    /// A number has no leading zero, and a pre-release begins with `-`.
    Strict,
}

/// A parsed value, if each of its numbers is at most 18446744073709551615.
#[derive(Clone, Copy, Drop)]
pub enum Measured<T> {
    /// The value.
    Fits(T),
    /// Some number of the value is larger than that.
    TooLarge,
}

/// The pre-release and the build of a version, each a list of identifiers that may be empty.
#[derive(Drop)]
pub struct Qualifier {
    pub pre: CowVec<SmallStackString>,
    pub build: CowVec<SmallStackString>,
}

impl Qualifier {
    /// Creates a qualifier without a pre-release or a build.
    pub fn new(alloc: Global) -> Self
        ensures { result ≡ record { pre = []; build = [] } }
    {
        Qualifier {
            pre: CowVec::new(alloc),
            build: CowVec::new(alloc),
        }
    }

    /// Returns a copy. Fails only out of memory.
    pub fn copy(&self) -> Result<Self, AllocError>
        ensures { IfOk result (λ qualifier. qualifier ≡ self.now) }
    {
        Ok(Qualifier {
            pre: self.pre.copy()?,
            build: self.build.copy()?,
        })
    }
}
