//! What is wrong with an invalid alternative, and where.

ghost use Rattle.semver_base.specs.declared.partial.Partial.{Partial};
ghost use Rattle.std.specs.Prelude.{◌≡◌, IfOk, Option, ℕ};
ghost use Rattle.semver_base.specs.declared.failure.Rejection.TheVariants as rejection;
ghost use Rattle.semver_req.specs.Partials.{sized_partial};
ghost use Rattle.semver_req.specs.Written.{comparator_of};
ghost use Rattle.semver_req.specs.Causes.{IsBoundAt, IsCauseAt, IsFirstOutsideTag, IsRejected, overflows, rejection_of};

use crate::common::after_separator;
use crate::common::comparator::{Written, comparator_front};
use crate::common::values::Flavour;
use crate::error_places::expected::{Expected, expected_after};
use crate::error_places::{Grammar, Sizes, error_place, longest_viable};
use crate::range_set_or_tag::is_tag_character;
use semver_base::failure::Rejection;
use semver_base::lexical::values::Measured;
use std::alloc::{AllocError, Global};

/// What is wrong with an alternative.
#[derive(Debug, Drop)]
pub enum Cause {
    /// It leaves the grammar: no text of the grammar goes on as it does at the place of the error, where this is expected.
    Unexpected(Expected),
    /// It doesn't begin as a range does, and no tag has the character at the place of the error.
    NoTag,
    /// It is empty or only whitespace, which the strict grammar doesn't allow.
    Empty,
    /// A number is larger than 18446744073709551615; the place of the error is the digit with which it no longer fits.
    NumberTooLarge,
    /// A number of a bound, which is one more than a number in the text, is larger than 18446744073709551615; the place of the error is the
    /// start of the comparator.
    BoundTooLarge,
}

impl Cause {
    /// Why the parser rejects the alternative.
    pub fn rejection(&self) -> Rejection
        ensures { result ≡ rejection_of self.now }
    {
        match self {
            Cause::Unexpected(_) | Cause::NoTag => Rejection::UnexpectedCharacter,
            Cause::Empty => Rejection::EmptyConstraint,
            Cause::NumberTooLarge => Rejection::NumberTooLarge,
            Cause::BoundTooLarge => Rejection::BoundTooLarge,
        }
    }
}

/// A cause, and the index at which an alternative is wrong.
#[derive(Drop)]
pub(crate) struct CauseAt {
    pub(crate) place: usize,
    pub(crate) cause: Cause,
}

// Whether the numbers of a comparator fit, and a bound of it doesn't.
fn overflows(alloc: Global, written: Written) -> Result<bool, AllocError>
    ensures { (p : Partial) → written.partial ≡ sized_partial p
        → IfOk result (λ yes. yes ≡ overflows (comparator_of written.operator p)) }
{
    let Written { operator, partial } = written;
    let Measured::Fits(partial) = partial else {
        return Ok(false);
    };
    let range = operator.range(alloc, &partial);
    drop(partial);
    match range {
        Ok(range) => {
            drop(range);
            Ok(false)
        }
        Err(failure) if failure.is_memory() => Err(AllocError),
        Err(_) => Ok(true),
    }
}

// The start of the first comparator of which a bound is too large; 0 for a hyphen range.
fn large_bound(alloc: Global, piece: &str, flavour: Flavour) -> Result<usize, AllocError>
    requires { IsRejected flavour piece.now rejection.BoundTooLarge }
    ensures { IfOk result (IsBoundAt flavour piece.now) }
{
    let Some((first, mut rest)) = comparator_front(alloc, piece, flavour)? else {
        return Ok(0);
    };
    if overflows(alloc, first)? {
        return Ok(0);
    }
    while let Some(next) = after_separator(rest, flavour) {
        let Some((written, more)) = comparator_front(alloc, next, flavour)? else {
            return Ok(0);
        };
        if overflows(alloc, written)? {
            return Ok(piece.len() - next.len());
        }
        rest = more;
    }
    Ok(0)
}

/// What is wrong with an alternative that the parser rejects, and where.
///
/// Fails only out of memory.
pub(crate) fn cause_of(
    alloc: Global,
    piece: &str,
    rejection: Rejection,
    flavour: Flavour,
) -> Result<CauseAt, AllocError>
    requires { IsRejected flavour piece.now rejection }
    ensures value { IfOk result (λ c. (outside : Option ℕ) × IsFirstOutsideTag piece.now outside
        × IsCauseAt flavour piece.now outside c.cause c.place) }
    ensures rejected { IfOk result (λ c. IsRejected flavour piece.now (rejection_of c.cause)) }
{
    // The index of the first character that no tag has.
    let outside = piece.find(|c: char| !is_tag_character(c));
    match rejection {
        Rejection::EmptyConstraint => Ok(CauseAt {
            place: 0,
            cause: Cause::Empty,
        }),
        Rejection::NumberTooLarge => Ok(CauseAt {
            place: longest_viable(alloc, piece, Grammar::Ranges(flavour, Sizes::Fitting))?,
            cause: Cause::NumberTooLarge,
        }),
        Rejection::BoundTooLarge => Ok(CauseAt {
            place: large_bound(alloc, piece, flavour)?,
            cause: Cause::BoundTooLarge,
        }),
        _ => {
            let place = error_place(alloc, piece, flavour)?;
            match outside {
                Some(end) if place == 0 && end > 0 => Ok(CauseAt {
                    place: end,
                    cause: Cause::NoTag,
                }),
                _ => {
                    let expected = expected_after(alloc, &piece[..place], flavour)?;
                    Ok(CauseAt {
                        place,
                        cause: Cause::Unexpected(expected),
                    })
                }
            }
        }
    }
}
