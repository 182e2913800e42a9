//! The exact place of a syntax error: the end of the longest prefix with which some text of the grammar begins.
//!
//! No second parser decides it. Whether a prefix is viable is asked of the parser itself, on the prefix with a few endings behind it. A long
//! list of comparators isn't parsed again each time: see `listed_front`.

ghost use Rattle.std.specs.Prelude.{◌≡◌, ◌↔◌, ◌++◌, IfOk, IsTrue, List, MatchOption, ℕ, false, true};
ghost use Rattle.semver_req.specs.Fronts.{AreBars, HasList, IsBehind, IsFrontAt, IsItemBefore, IsListedAt, StandsBehind};
ghost use Rattle.semver_req.specs.Sizes.{Sized, admits, is_in_grammar};
ghost use Rattle.semver_req.specs.Viable.{HasPiece, HasRange, IsErrorPlace, IsPart, IsPieceOrCut, IsTextOf, IsViablePrefix, IsVersionText};
ghost use Rattle.semver_req.specs.Pieces.{IsCutting};
ghost use Rattle.semver_req.specs.declared.common.values.Flavour.TheVariants.{Specifier};

pub mod causes;
pub mod expected;
pub mod pieces;

use crate::common::after_separator;
use crate::common::comparator::{comparator_front, non_primitive_front};
use crate::common::values::Flavour;
use crate::range_set_or_tag::RangeOrInvalid;
use semver_base::failure::Rejection;
use semver_base::lexical::values::Measured;
use semver_base::partial::Partial;
use semver_base::version::Version;
use std::alloc::{AllocError, Global};

// The grammars in which places are found.
#[derive(Clone, Copy)]
pub(crate) enum Grammar {
    // Alternatives, or ranges of the strict grammar, whose numbers have these sizes.
    Ranges(Flavour, Sizes),
    // Versions whose numbers fit in 64 bits.
    Versions,
}

// The sizes of numbers that a grammar admits.
#[derive(Clone, Copy)]
pub(crate) enum Sizes {
    // Any size.
    Any,
    // What fits in 64 bits.
    Fitting,
}

// Whether an alternative that is rejected for this reason is one of the grammar.
fn is_in_grammar(rejection: Rejection, sizes: Sizes) -> bool
    ensures { result ≡ is_in_grammar sizes rejection }
{
    match (rejection, sizes) {
        (Rejection::UnexpectedCharacter, _) => false,
        (Rejection::NumberTooLarge, Sizes::Fitting) => false,
        _ => true,
    }
}

// Whether the text, which is followed by `||` or not, is an alternative of the grammar.
fn is_piece(
    alloc: Global,
    text: &str,
    is_followed: bool,
    flavour: Flavour,
    sizes: Sizes,
) -> Result<bool, AllocError>
    ensures { IfOk result
        (λ yes. IsTrue yes ↔ HasPiece flavour sizes is_followed text.now) }
{
    match RangeOrInvalid::parse(alloc, text, is_followed, flavour)? {
        RangeOrInvalid::Range(range) => {
            drop(range);
            Ok(true)
        }
        RangeOrInvalid::Invalid(rejection) => Ok(is_in_grammar(rejection, sizes)),
    }
}

// Whether the text is comparators with separators between them.
fn is_list(alloc: Global, text: &str, flavour: Flavour, sizes: Sizes) -> Result<bool, AllocError>
    ensures { IfOk result (λ yes. IsTrue yes ↔ HasList flavour sizes text.now) }
{
    match RangeOrInvalid::list(alloc, text, flavour)? {
        Some(RangeOrInvalid::Range(range)) => {
            drop(range);
            Ok(true)
        }
        Some(RangeOrInvalid::Invalid(rejection)) => Ok(is_in_grammar(rejection, sizes)),
        None => Ok(false),
    }
}

// Whether the front and the text behind it are an alternative of the grammar.
fn is_piece_behind(
    alloc: Global,
    front: &str,
    text: &str,
    is_followed: bool,
    flavour: Flavour,
    sizes: Sizes,
) -> Result<bool, AllocError>
    requires { IsBehind flavour sizes front.now text.now }
    ensures { IfOk result
        (λ yes. IsTrue yes ↔ HasPiece flavour sizes is_followed (front.now ++ text.now)) }
{
    if front.is_empty() {
        is_piece(alloc, text, is_followed, flavour, sizes)
    } else {
        is_list(alloc, text, flavour, sizes)
    }
}

// Whether the prefix, which stands behind the front, is an alternative with this ending.
fn is_piece_with(
    alloc: Global,
    front: &str,
    prefix: &str,
    ending: &str,
    flavour: Flavour,
    sizes: Sizes,
) -> Result<bool, AllocError>
    requires { IsBehind flavour sizes front.now prefix.now }
    ensures { IfOk result
        (λ yes. IsTrue yes
        ↔ HasPiece flavour sizes false ((front.now ++ prefix.now) ++ ending.now)) }
{
    let text = format!(in alloc; "{prefix}{ending}")?;
    is_piece_behind(alloc, front, &text, false, flavour, sizes)
}

// Whether the prefix, which stands behind the front, is an alternative with these bars behind it.
fn is_piece_before(
    alloc: Global,
    front: &str,
    prefix: &str,
    bars: &str,
    flavour: Flavour,
    sizes: Sizes,
) -> Result<bool, AllocError>
    requires behind { IsBehind flavour sizes front.now prefix.now }
    requires bars { AreBars bars.now }
    ensures { IfOk result (λ yes. IsTrue yes ↔ ((piece : List ℕ)
        × (front.now ++ prefix.now ≡ piece ++ bars.now) × HasPiece flavour sizes true piece)) }
{
    match prefix.strip_suffix(bars) {
        Some(piece) => is_piece_behind(alloc, front, piece, true, flavour, sizes),
        None => Ok(false),
    }
}

// Whether some alternative of the grammar, alone or with the `||` that follows it, begins with the front and then the prefix.
fn is_viable_piece(
    alloc: Global,
    front: &str,
    prefix: &str,
    flavour: Flavour,
    sizes: Sizes,
) -> Result<bool, AllocError>
    requires splits { IsCutting flavour }
    requires behind { IsBehind flavour sizes front.now prefix.now }
    ensures { IfOk result (λ yes. IsTrue yes
        ↔ IsViablePrefix (Sized sizes (IsPieceOrCut flavour)) (front.now ++ prefix.now)) }
{
    if is_piece_behind(alloc, front, prefix, true, flavour, sizes)? {
        return Ok(true);
    }
    if is_piece_with(alloc, front, prefix, "1", flavour, sizes)? {
        return Ok(true);
    }
    if is_piece_with(alloc, front, prefix, " 1", flavour, sizes)? {
        return Ok(true);
    }
    if is_piece_with(alloc, front, prefix, "&", flavour, sizes)? {
        return Ok(true);
    }
    if is_piece_before(alloc, front, prefix, "|", flavour, sizes)? {
        return Ok(true);
    }
    is_piece_before(alloc, front, prefix, "||", flavour, sizes)
}

// Whether the numbers of a partial version have these sizes.
fn is_admitted(sizes: Sizes, partial: &Measured<Partial>) -> bool
    ensures { result ≡ admits sizes partial.now }
{
    match (sizes, partial) {
        (Sizes::Fitting, Measured::TooLarge) => false,
        _ => true,
    }
}

// What follows the comparator at the start of the text and the separator behind it, if there are both, and the comparator's numbers have
// these sizes.
fn after_item<'a>(
    alloc: Global,
    text: &'a str,
    flavour: Flavour,
    sizes: Sizes,
) -> Result<Option<&'a str>, AllocError>
    ensures { IfOk result (λ r. MatchOption r (Unit {0})
        (λ rest. IsItemBefore flavour sizes text.now rest.now)) }
{
    let Some((written, rest)) = comparator_front(alloc, text, flavour)? else {
        return Ok(None);
    };
    let is_admitted = is_admitted(sizes, &written.partial);
    drop(written);
    if !is_admitted {
        return Ok(None);
    }
    Ok(after_separator(rest, flavour))
}

// The length of the front of a text: two or more comparators with a separator behind each, and with another comparator behind them. Behind
// a front, only lists of comparators are alternatives, and the front need not be parsed again. (No hyphen range begins with two
// comparators.) The length is 0 if the text has no such front.
fn listed_front(
    alloc: Global,
    text: &str,
    flavour: Flavour,
    sizes: Sizes,
) -> Result<usize, AllocError>
    requires { IsCutting flavour }
    ensures { IfOk result (IsListedAt flavour sizes text.now) }
{
    let Some(second) = after_item(alloc, text, flavour, sizes)? else {
        return Ok(0);
    };
    let Some(third) = after_item(alloc, second, flavour, sizes)? else {
        return Ok(0);
    };
    let mut front = 0;
    let mut rest = third;
    while let Some(next) = after_item(alloc, rest, flavour, sizes)? {
        front = text.len() - rest.len();
        rest = next;
    }
    Ok(front)
}

// The length of the front of a text, in a grammar with lists; 0 in another one.
pub(crate) fn front_of(alloc: Global, text: &str, grammar: Grammar) -> Result<usize, AllocError>
    ensures { IfOk result (IsFrontAt grammar text.now) }
{
    match grammar {
        Grammar::Ranges(flavour, sizes) => match flavour {
            Flavour::Npm => listed_front(alloc, text, Flavour::Npm, sizes),
            Flavour::Normal => listed_front(alloc, text, Flavour::Normal, sizes),
            Flavour::Specifier => Ok(0),
        },
        Grammar::Versions => Ok(0),
    }
}

// Whether the text is a range of the strict grammar.
fn is_range(alloc: Global, text: &str, sizes: Sizes) -> Result<bool, AllocError>
    ensures { IfOk result (λ yes. IsTrue yes ↔ HasRange sizes text.now) }
{
    let Some((written, rest)) = non_primitive_front(alloc, text, Flavour::Specifier)? else {
        return Ok(false);
    };
    let is_admitted = is_admitted(sizes, &written.partial);
    drop(written);
    if rest.is_empty() {
        return Ok(is_admitted);
    }
    Ok(false)
}

// With one of these endings, each prefix of a version's text is a version's text.
const ENDINGS: [&str; 6] = ["", "1", "1.1", "1.1.1", ".1", ".1.1"];

// Whether some text of the strict grammar begins with the prefix.
fn is_viable_range(alloc: Global, prefix: &str, sizes: Sizes) -> Result<bool, AllocError>
    ensures { IfOk result (λ yes. IsTrue yes
        ↔ IsViablePrefix (Sized sizes (IsPart Specifier)) prefix.now) }
{
    if is_range(alloc, prefix, sizes)? {
        return Ok(true);
    }
    let text = format!(in alloc; "{prefix}1")?;
    is_range(alloc, &text, sizes)
}

// Whether some version's text begins with the prefix.
fn is_viable_version(alloc: Global, prefix: &str) -> Result<bool, AllocError>
    ensures { IfOk result (λ yes. IsTrue yes ↔ IsViablePrefix IsVersionText prefix.now) }
{
    for ending in &ENDINGS {
        let text = format!(in alloc; "{prefix}{ending}")?;
        match Version::parse_standard(alloc, &text) {
            Ok(version) => {
                drop(version);
                return Ok(true);
            }
            Err(error) if error.is_memory() => return Err(AllocError),
            Err(_error) => {}
        }
    }
    Ok(false)
}

// Whether some text of the grammar begins with the front and then the prefix.
fn is_viable(alloc: Global, front: &str, prefix: &str, grammar: Grammar) -> Result<bool, AllocError>
    requires { StandsBehind grammar front.now prefix.now }
    ensures { IfOk result (λ yes. IsTrue yes
        ↔ IsViablePrefix (IsTextOf grammar) (front.now ++ prefix.now)) }
{
    match grammar {
        Grammar::Ranges(flavour, sizes) => match flavour {
            Flavour::Npm => is_viable_piece(alloc, front, prefix, Flavour::Npm, sizes),
            Flavour::Normal => is_viable_piece(alloc, front, prefix, Flavour::Normal, sizes),
            Flavour::Specifier => is_viable_range(alloc, prefix, sizes),
        },
        Grammar::Versions => is_viable_version(alloc, prefix),
    }
}

// The end of the longest prefix of the text with which some text of the grammar begins, by bisection: each shorter prefix is one too.
pub(crate) fn longest_viable(
    alloc: Global,
    text: &str,
    grammar: Grammar,
) -> Result<usize, AllocError>
    ensures { IfOk result (IsErrorPlace (IsTextOf grammar) text.now) }
{
    let behind = front_of(alloc, text, grammar)?;
    let front = &text[..behind];
    if is_viable(alloc, front, &text[behind..], grammar)? {
        return Ok(text.len());
    }
    let mut low = behind;
    let mut high = text.len();
    while high - low > 1 {
        let middle = low + (high - low) / 2;
        let end = text.floor_char_boundary(middle);
        if end == behind || is_viable(alloc, front, &text[behind..end], grammar)? {
            low = middle;
        } else {
            high = middle;
        }
    }
    Ok(text.floor_char_boundary(low))
}

// Whether some text of the grammar begins with the front, the prefix and then `next`.
pub(crate) fn is_viable_with(
    alloc: Global,
    front: &str,
    prefix: &str,
    next: &str,
    grammar: Grammar,
) -> Result<bool, AllocError>
    requires { StandsBehind grammar front.now prefix.now }
    ensures { IfOk result (λ yes. IsTrue yes
        ↔ IsViablePrefix (IsTextOf grammar) ((front.now ++ prefix.now) ++ next.now)) }
{
    let text = format!(in alloc; "{prefix}{next}")?;
    is_viable(alloc, front, &text, grammar)
}

/// The index in the text at which it leaves the grammar: the end of the longest prefix with which some text of the grammar begins. Texts of
/// npm's and the normalized grammar are alternatives here, alone or with the `||` that follows. A text of the grammar, and one
/// that only stops too early, has its length as that index. Sizes of numbers don't matter.
///
/// Takes time that grows as n log n. Fails only out of memory.
pub fn error_place(alloc: Global, text: &str, flavour: Flavour) -> Result<usize, AllocError>
    ensures { IfOk result (IsErrorPlace (IsPart flavour) text.now) }
{
    longest_viable(alloc, text, Grammar::Ranges(flavour, Sizes::Any))
}

/// Whether some text of the grammar begins with the prefix and then `next`. What could have followed at an [`error_place`] is asked with
/// the text before it as the prefix.
///
/// Fails only out of memory.
pub fn may_follow(
    alloc: Global,
    prefix: &str,
    next: &str,
    flavour: Flavour,
) -> Result<bool, AllocError>
    ensures { IfOk result
        (λ yes. IsTrue yes ↔ IsViablePrefix (IsPart flavour) (prefix.now ++ next.now)) }
{
    is_viable_with(
        alloc,
        "",
        prefix,
        next,
        Grammar::Ranges(flavour, Sizes::Any),
    )
}

/// The index in the text at which it stops being a version: the end of the longest prefix with which some version's text begins, with
/// whitespace around it or not. In a number that doesn't fit in 64 bits that is the digit at which it no longer does. A version's
/// text, and one that only stops too early, has its length as that index.
///
/// Takes time that grows as n log n. Fails only out of memory.
pub fn version_error_place(alloc: Global, text: &str) -> Result<usize, AllocError>
    ensures { IfOk result (IsErrorPlace IsVersionText text.now) }
{
    longest_viable(alloc, text, Grammar::Versions)
}

/// Whether some version's text begins with the prefix and then `next`. What could have followed at a [`version_error_place`] is asked
/// with the text before it as the prefix.
///
/// Fails only out of memory.
pub fn version_may_follow(alloc: Global, prefix: &str, next: &str) -> Result<bool, AllocError>
    ensures { IfOk result
        (λ yes. IsTrue yes ↔ IsViablePrefix IsVersionText (prefix.now ++ next.now)) }
{
    is_viable_with(alloc, "", prefix, next, Grammar::Versions)
}
