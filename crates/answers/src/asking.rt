//! The results of questions, and why a question may have none.

ghost use Rattle.std.specs.Prelude.{◌≡◌};
ghost use Rattle.answers.specs.Asking.{fault_message, fault_of, problem_of};
ghost use Rattle.answers.specs.declared.asking.Problem.TheVariants as problem;

use semver_base::failure::ParseFailure;
use semver_req::range_set_or_tag::PackageTag;
use std::alloc::AllocError;

/// The result of a question about ranges.
#[derive(Drop)]
pub enum Answer<T> {
    Value(T),
    /// A range is this tag, which names a version in a registry, so there is no other result.
    Tag(PackageTag),
}

/// What an argument of a question should be.
#[derive(Clone, Copy)]
pub enum Kind {
    Range,
    Version,
    Package,
    Reference,
    /// A step to a next version: its identifiers are invalid, or there is no such version.
    Step,
}

/// An argument that isn't what it should be.
#[derive(Drop)]
pub struct InvalidArgument {
    pub kind: Kind,
    /// Its place among the arguments of its kind, counted from 0.
    pub place: usize,
    /// What is wrong with it.
    pub failure: ParseFailure,
}

/// Why a question has no result.
#[derive(Drop)]
pub enum Problem {
    /// The first argument that is invalid.
    Invalid(InvalidArgument),
    OutOfMemory,
}

impl Problem {
    /// The problem of the argument at this place: its failure, or that memory ran out.
    pub fn of(kind: Kind, place: usize, failure: ParseFailure) -> Problem
        ensures { result ≡ problem_of kind place failure }
    {
        if failure.is_memory() {
            Problem::OutOfMemory
        } else {
            Problem::Invalid(InvalidArgument {
                kind,
                place,
                failure,
            })
        }
    }

    /// What is wrong.
    pub fn message(&self) -> &str
        ensures { result.now ≡ fault_message (fault_of self.now) }
    {
        match self {
            Problem::Invalid(argument) => argument.failure.message(),
            Problem::OutOfMemory => "Out of memory.",
        }
    }
}

impl From<AllocError> for Problem {
    ghost from_gives = { λ _ made. made ≡ problem.OutOfMemory };

    fn from(_error: AllocError) -> Problem {
        Problem::OutOfMemory
    }
}
