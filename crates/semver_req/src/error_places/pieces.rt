//! The alternatives of a text, which `||` separates, and what a grammar makes of each.

ghost use Rattle.std.specs.Prelude.{◌≡◌, ◌+◌, ◌<◌, ◌^◌, IfOk, length};
ghost use Rattle.semver_req.specs.Alternatives.{AreAlternatives, AreInvalidBehind, AreInvalidPieces, AreSplit, AreWritable, IsErrorOf, IsParsedPiece, IsStrictlyParsed};
ghost use Rattle.semver_req.specs.Causes.{IsRejected};
ghost use Rattle.semver_req.specs.Pieces.{IsCutting};

use crate::common::values::Flavour;
use crate::error_places::causes::{Cause, cause_of};
use crate::range_set_or_tag::{Piece, RangeOrInvalid};
use crate::specifier::{Single, parse_single};
use semver_base::failure::Rejection;
use semver_base::lexical::is_all_whitespace;
use semver_base::range::VersionRange;
use std::alloc::{AllocError, Global};

/// An alternative of a text.
#[derive(Drop)]
pub struct Alternative<'a> {
    /// The alternative as written, without the whitespace that follows the `||` before it.
    pub text: &'a str,
    pub parsed: Parsed,
}

/// What a grammar makes of an alternative.
#[derive(Drop)]
pub enum Parsed {
    /// The range that it means.
    Range(VersionRange),
    /// What is wrong with it.
    Invalid(InvalidPiece),
}

/// An invalid alternative, by indexes into its text.
#[derive(Debug, Drop)]
pub struct InvalidPiece {
    /// Where the alternative starts.
    pub start: usize,
    /// Where it ends.
    pub end: usize,
    /// Where it is wrong: at its end, if it only stops too early.
    pub place: usize,
    /// What is wrong there.
    pub cause: Cause,
}

impl InvalidPiece {
    // The error of an alternative that starts here.
    fn of(
        alloc: Global,
        start: usize,
        piece: &str,
        rejection: Rejection,
        flavour: Flavour,
    ) -> Result<InvalidPiece, AllocError>
        requires in_memory { start + length piece.now < 2 ^ 64 }
        requires rejected { IsRejected flavour piece.now rejection }
        ensures { IfOk result (IsErrorOf flavour start piece.now) }
    {
        let found = cause_of(alloc, piece, rejection, flavour)?;
        Ok(InvalidPiece {
            start,
            end: start + piece.len(),
            place: start + found.place,
            cause: found.cause,
        })
    }
}

impl Parsed {
    // Parses an alternative by npm's or the normalized grammar.
    fn of(alloc: Global, piece: Piece<'_>, flavour: Flavour) -> Result<Parsed, AllocError>
        requires in_memory { piece.start + length piece.text.now < 2 ^ 64 }
        requires splits { IsCutting flavour }
        ensures { let p = piece.entry in IfOk result
            (IsParsedPiece flavour p.is_followed p.start p.text.now) }
    {
        match RangeOrInvalid::parse(alloc, piece.text, piece.is_followed, flavour)? {
            RangeOrInvalid::Range(range) => Ok(Parsed::Range(range)),
            RangeOrInvalid::Invalid(rejection) => {
                let error = InvalidPiece::of(alloc, piece.start, piece.text, rejection, flavour)?;
                Ok(Parsed::Invalid(error))
            }
        }
    }

    // Parses a whole text by the strict grammar, with so many bytes before it.
    fn of_whole(alloc: Global, before: usize, text: &str) -> Result<Parsed, AllocError>
        requires { before + length text.now < 2 ^ 64 }
        ensures { IfOk result (IsStrictlyParsed before text.now) }
    {
        let found = parse_single(alloc, text)?;
        let rejection = match found {
            Single::Range(range) => return Ok(Parsed::Range(range)),
            Single::Absent if is_all_whitespace(text) => Rejection::EmptyConstraint,
            Single::Absent => Rejection::UnexpectedCharacter,
            Single::Followed => Rejection::UnexpectedCharacter,
            Single::TooLarge(rejection) => rejection,
        };
        let error = InvalidPiece::of(alloc, before, text, rejection, Flavour::Specifier)?;
        Ok(Parsed::Invalid(error))
    }
}

// The alternatives of a text that is split at each `||`, with so many bytes before it.
fn split<'a>(
    alloc: Global,
    before: usize,
    text: &'a str,
    flavour: Flavour,
) -> Result<Vec<Alternative<'a>>, AllocError>
    requires in_memory { before + length text.now < 2 ^ 64 }
    requires splits { IsCutting flavour }
    ensures { IfOk result (λ all. AreSplit flavour before text.now all.items) }
{
    let mut all = Vec::new(alloc);
    let mut piece = Piece::first(before, text);
    loop {
        let parsed = Parsed::of(alloc, piece, flavour)?;
        let text = piece.text;
        all.push(Alternative { text, parsed })?;
        let Some(next) = piece.next() else {
            return Ok(all);
        };
        piece = next;
    }
}

/// The alternatives of a text that stands behind so many bytes, which the indexes of errors count, too. npm's parser trims a text before
/// it splits it. In the strict grammar, which has no alternatives, the whole text is the only one.
///
/// Takes time that grows as n log n. Fails only out of memory.
pub fn alternatives<'a>(
    alloc: Global,
    before: usize,
    text: &'a str,
    flavour: Flavour,
) -> Result<Vec<Alternative<'a>>, AllocError>
    requires { before + length text.now < 2 ^ 64 }
    ensures are { IfOk result (λ all. AreAlternatives flavour before text.now all.items) }
    ensures writable { IfOk result (λ all. AreWritable all.items) }
{
    match flavour {
        Flavour::Npm => {
            let rest = text.trim_start();
            let before = before + (text.len() - rest.len());
            split(alloc, before, rest.trim_end(), Flavour::Npm)
        }
        Flavour::Normal => split(alloc, before, text, Flavour::Normal),
        Flavour::Specifier => {
            let parsed = Parsed::of_whole(alloc, before, text)?;
            let mut all = Vec::new(alloc);
            all.push(Alternative { text, parsed })?;
            Ok(all)
        }
    }
}

/// The invalid alternatives of a text, in their order, with what is wrong in each and where: none if the text is valid. Where the first
/// leaves the grammar, the whole text does, by
/// [`texts_leave_their_grammar_at_the_first_error`](crate::laws::texts_leave_their_grammar_at_the_first_error).
///
/// Takes time that grows as n log n. Fails only out of memory.
pub fn invalid_pieces(
    alloc: Global,
    text: &str,
    flavour: Flavour,
) -> Result<Vec<InvalidPiece>, AllocError>
    ensures { IfOk result (λ errors. AreInvalidPieces flavour text.now errors.items) }
{
    invalid_pieces_behind(alloc, 0, text, flavour)
}

/// The invalid alternatives as for [`invalid_pieces`], of a text that stands behind so many bytes, which the indexes count, too.
pub fn invalid_pieces_behind(
    alloc: Global,
    before: usize,
    text: &str,
    flavour: Flavour,
) -> Result<Vec<InvalidPiece>, AllocError>
    requires { before + length text.now < 2 ^ 64 }
    ensures { IfOk result
        (λ errors. AreInvalidBehind flavour before text.now errors.items) }
{
    let mut errors = Vec::new(alloc);
    for alternative in alternatives(alloc, before, text, flavour)? {
        match alternative.parsed {
            Parsed::Range(_range) => {}
            Parsed::Invalid(error) => errors.push(error)?,
        }
    }
    Ok(errors)
}
