//! How npm's and the normalized grammar split a text at each `||`, and how they parse each piece.

ghost use Rattle.std.specs.Prelude.{◌≡◌, ◌+◌, ◌++◌, ◌<◌, ◌^◌, ◌∷◌, [], IfOk, List, MatchOption, None, OnOk, length, true, ℕ};
ghost use Rattle.semver_base.specs.Grammar.{IsSeen};
ghost use Rattle.semver_base.specs.declared.failure.Rejection.TheVariants.{BoundTooLarge};
ghost use Rattle.semver_base.specs.declared.partial.Partial.{Partial};
ghost use Rattle.semver_req.specs.Partials.{sized_partial};
ghost use Rattle.semver_req.specs.PieceReading.{IsPieceRead, joined, retained_of};
ghost use Rattle.semver_req.specs.PieceSteps.{IsAdded, IsHyphenRead, IsNextPiece, IsPieceOf, IsWholeRead};
ghost use Rattle.semver_req.specs.Pieces.{HasNoBar, IsComparators, IsCutAt, IsCutting, hyphen};
ghost use Rattle.semver_req.specs.Comparators.{IsComparator};
ghost use Rattle.semver_req.specs.Written.{IsFront, comparator_of};
ghost use Rattle.semver_req.specs.declared.range_set_or_tag.pieces.RangeOrInvalid.TheVariants.{Invalid};

use crate::common::comparator::{Written, comparator_front};
use crate::common::short::short_piece;
use crate::common::values::Flavour;
use crate::common::{HyphenRange, after_separator, hyphen_front};
use semver_base::failure::{ParseFailure, Rejection};
use semver_base::lexical::after_whitespace;
use semver_base::lexical::values::Measured;
use semver_base::partial::Partial;
use semver_base::range::VersionRange;
use semver_base::string::CowVec;
use std::alloc::{AllocError, Global};

/// The result of parsing a piece of a text, which lies between two `||`.
#[derive(Drop)]
pub enum RangeOrInvalid {
    /// The range of its comparators.
    Range(VersionRange),
    /// The piece is invalid: it is outside the grammar, or a number or a bound in it is too large.
    Invalid(Rejection),
}

// Why a range couldn't be made: a bound is too large, or out of memory.
fn no_range(failure: ParseFailure) -> Result<RangeOrInvalid, AllocError>
    ensures { IfOk result (λ read. (read ≡ Invalid BoundTooLarge) × (failure ≡ None → ⊥)) }
{
    if failure.is_memory() {
        return Err(AllocError);
    }
    Ok(RangeOrInvalid::Invalid(Rejection::BoundTooLarge))
}

impl RangeOrInvalid {
    // The range of one comparator, passed on unchanged but for its start. (Here and below values are dropped by name: to the
    // prover that is one call, instead of its steps at each way out.)
    #[inline(always)]
    pub(crate) fn of_one(alloc: Global, written: Written) -> Result<RangeOrInvalid, AllocError>
        ensures { (p : Partial) → written.partial ≡ sized_partial p
            → IfOk result (λ read. read ≡ joined (comparator_of written.operator p ∷ [])) }
    {
        let Written { operator, partial } = written;
        let Measured::Fits(partial) = partial else {
            return Ok(RangeOrInvalid::Invalid(Rejection::NumberTooLarge));
        };
        let range = operator.range(alloc, &partial);
        drop(partial);
        match range {
            Ok(range) => Ok(RangeOrInvalid::Range(range.into_stopped()?)),
            Err(failure) => no_range(failure),
        }
    }

    // Parses the rest of leading comparators with separators between them, of which this is the first. In a call of its own, since most pieces
    // are one comparator.
    #[inline(never)]
    fn comparators(
        alloc: Global,
        first: Written,
        text: &str,
        flavour: Flavour,
    ) -> Result<(RangeOrInvalid, &str), AllocError>
        ensures { (piece : List ℕ) → IsFront (IsComparator flavour) piece first text.now
            → IfOk result (λ r. IsSeen joined (IsComparators flavour) piece r.0 r.1.now) }
    {
        let mut read = RangeOrInvalid::of_one(alloc, first)?;
        let mut rest = text;
        while let Some(next) = after_separator(rest, flavour) {
            let Some((written, more)) = comparator_front(alloc, next, flavour)? else {
                return Ok((read, next));
            };
            let Written { operator, partial } = written;
            read = match (read, partial) {
                (_read, Measured::TooLarge) => RangeOrInvalid::Invalid(Rejection::NumberTooLarge),
                (RangeOrInvalid::Invalid(rejection), Measured::Fits(_partial)) => {
                    RangeOrInvalid::Invalid(rejection)
                }
                (RangeOrInvalid::Range(range), Measured::Fits(partial)) => {
                    let next = operator.range(alloc, &partial);
                    drop(partial);
                    match next {
                        Ok(next) => RangeOrInvalid::Range(range.clamp_into(next)?),
                        Err(failure) => {
                            drop(range);
                            no_range(failure)?
                        }
                    }
                }
            };
            rest = more;
        }
        Ok((read, rest))
    }

    // Parses the whole piece as comparators.
    #[inline(always)]
    pub(crate) fn list(
        alloc: Global,
        piece: &str,
        flavour: Flavour,
    ) -> Result<Option<RangeOrInvalid>, AllocError>
        ensures { IfOk result (IsWholeRead (IsComparators flavour) piece.now) }
    {
        let Some((first, rest)) = comparator_front(alloc, piece, flavour)? else {
            return Ok(None);
        };
        if rest.is_empty() {
            return Ok(Some(RangeOrInvalid::of_one(alloc, first)?));
        }
        let (read, rest) = RangeOrInvalid::comparators(alloc, first, rest, flavour)?;
        if !rest.is_empty() {
            return Ok(None);
        }
        Ok(Some(read))
    }

    // The range of a hyphen range, if its numbers fit: from the lower bound of the first partial version to the upper bound of the second.
    pub(crate) fn between(alloc: Global, hyphen: &HyphenRange) -> Result<RangeOrInvalid, AllocError>
        ensures { IfOk result (IsHyphenRead hyphen.now) }
    {
        let Measured::Fits(lower) = &hyphen.lower else {
            return Ok(RangeOrInvalid::Invalid(Rejection::NumberTooLarge));
        };
        let Measured::Fits(upper) = &hyphen.upper else {
            return Ok(RangeOrInvalid::Invalid(Rejection::NumberTooLarge));
        };
        let Ok(start) = lower.as_lower_bound(alloc) else {
            return Err(AllocError);
        };
        match upper.as_upper_bound(alloc) {
            Ok(end) => Ok(RangeOrInvalid::Range(VersionRange { start, end })),
            Err(failure) => {
                drop(start);
                no_range(failure)
            }
        }
    }

    /// Parses a piece of npm's or the normalized grammar, which is followed by `||` or not. An empty piece, or whitespace
    /// followed by `||`, is the range without bounds; comparators with separators between them, and at most one at the end,
    /// are the intersection of their ranges; two partial versions around a `-` are npm's hyphen range; anything else is
    /// invalid. Fails only out of memory.
    #[inline(always)]
    pub fn parse(
        alloc: Global,
        piece: &str,
        is_followed: bool,
        flavour: Flavour,
    ) -> Result<RangeOrInvalid, AllocError>
        ensures { IfOk result (IsPieceRead flavour is_followed piece.now) }
    {
        let filling = if is_followed {
            after_whitespace(piece)
        } else {
            piece
        };
        if filling.is_empty() {
            return Ok(RangeOrInvalid::Range(VersionRange::all()));
        }
        // No piece is both a list and a hyphen range of npm's, so their order is free.
        let read = match flavour {
            Flavour::Npm => match RangeOrInvalid::list(alloc, piece, Flavour::Npm)? {
                Some(read) => Some(read),
                None => match hyphen_front(alloc, piece)? {
                    Some((hyphen, rest)) if rest.is_empty() => {
                        Some(RangeOrInvalid::between(alloc, &hyphen)?)
                    }
                    _ => None,
                },
            },
            Flavour::Normal => RangeOrInvalid::list(alloc, piece, Flavour::Normal)?,
            Flavour::Specifier => None,
        };
        Ok(read.unwrap_or(RangeOrInvalid::Invalid(Rejection::UnexpectedCharacter)))
    }

    /// The range that a set keeps of the piece: `None` if it is invalid or ends below 0.0.0.
    #[inline(always)]
    pub fn into_range(self) -> Option<VersionRange>
        ensures { result ≡ retained_of self }
    {
        match self {
            RangeOrInvalid::Range(range) if range.is_none() => None,
            RangeOrInvalid::Range(range) => Some(range),
            RangeOrInvalid::Invalid(_) => None,
        }
    }
}

// Splits the text at the leftmost `||`.
fn cut(text: &str) -> Option<(&str, &str)>
    ensures { MatchOption result (HasNoBar text.now) (λ p. IsCutAt text.now p.0.now p.1.now) }
{
    text.split_once("||")
}

/// A piece of a text, and what follows it.
#[derive(Clone, Copy)]
pub struct Piece<'a> {
    /// How many bytes stand before it.
    pub start: usize,
    /// The piece as written, without the whitespace that follows the `||` before it.
    pub text: &'a str,
    /// Whether it is the first piece, and a `||` follows it.
    pub is_followed: bool,
    // How many bytes stand before what follows its `||`.
    behind: usize,
    // What follows its `||`, or nothing.
    rest: &'a str,
}

impl<'a> Piece<'a> {
    // The piece at the start of the text, with so many bytes before it: what stands before the leftmost `||`, or the whole text.
    fn of(start: usize, text: &'a str, is_first: bool) -> Piece<'a>
        requires { start + length text.now < 2 ^ 64 }
        ensures { IsPieceOf is_first start text.now result }
    {
        match cut(text) {
            Some((piece, rest)) => Piece {
                start,
                text: piece,
                is_followed: is_first,
                behind: start + (text.len() - rest.len()),
                rest,
            },
            None => Piece {
                start,
                text,
                is_followed: false,
                behind: start + text.len(),
                rest: "",
            },
        }
    }

    /// Splits off the first piece of a text, with so many bytes before it (node-semver's `range-set`).
    pub fn first(before: usize, text: &'a str) -> Piece<'a>
        requires { before + length text.now < 2 ^ 64 }
        ensures { IsPieceOf true before text.now result }
    {
        Piece::of(before, text, true)
    }

    /// Splits off the next piece, without leading whitespace; `None` if only whitespace follows.
    pub fn next(self) -> Option<Piece<'a>>
        requires { self.behind + length self.rest.now < 2 ^ 64 }
        ensures { IsNextPiece self.entry result }
    {
        let text = after_whitespace(self.rest);
        if text.is_empty() {
            return None;
        }
        let start = self.behind + (self.rest.len() - text.len());
        Some(Piece::of(start, text, false))
    }
}

/// The parsed pieces of a text.
#[derive(Drop)]
pub(super) struct Alternatives {
    /// The ranges kept of the valid pieces, in order.
    pub(super) ranges: CowVec<VersionRange>,
    /// Why the first invalid piece is invalid.
    pub(super) rejected: Option<Rejection>,
    /// Whether there is only one piece.
    pub(super) is_only: bool,
}

impl Alternatives {
    // Adds a range.
    #[inline(always)]
    fn retain(&mut self, alloc: Global, range: VersionRange) -> Result<(), AllocError>
        ensures ranges { OnOk result (self.new.ranges ≡ self.old.ranges ++ range ∷ []) }
        ensures rejected { OnOk result (self.new.rejected ≡ self.old.rejected) }
        ensures is_only { OnOk result (self.new.is_only ≡ self.old.is_only) }
    {
        if self.ranges.is_empty() {
            self.ranges = CowVec::of_one(alloc, range)?;
        } else {
            self.ranges.push(range)?;
        }
        Ok(())
    }

    // Parses one piece by the full grammar, and adds it. In a call of its own, so that short pieces don't pay for it.
    #[inline(never)]
    fn add_by_grammar(
        &mut self,
        alloc: Global,
        piece: &str,
        is_followed: bool,
        flavour: Flavour,
    ) -> Result<(), AllocError>
        ensures { OnOk result (IsAdded flavour is_followed piece.now self.old self.new) }
    {
        let read = RangeOrInvalid::parse(alloc, piece, is_followed, flavour)?;
        if let RangeOrInvalid::Invalid(rejection) = &read {
            self.rejected = self.rejected.or(Some(*rejection));
        }
        if let Some(range) = read.into_range() {
            self.retain(alloc, range)?;
        }
        Ok(())
    }

    // Adds one piece. The only piece was tried as a short one before the text was split.
    #[inline(never)]
    pub(super) fn add(
        &mut self,
        alloc: Global,
        piece: &str,
        is_followed: bool,
        flavour: Flavour,
    ) -> Result<(), AllocError>
        requires { IsCutting flavour }
        ensures { OnOk result (IsAdded flavour is_followed piece.now self.old self.new) }
    {
        if is_followed || !self.is_only {
            if let Some(range) = short_piece(piece.strip_suffix(' ').unwrap_or(piece), flavour) {
                self.retain(alloc, range.into_range(alloc))?;
                return Ok(());
            }
        }
        self.add_by_grammar(alloc, piece, is_followed, flavour)
    }
}
