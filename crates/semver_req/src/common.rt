//! Parsers of partial versions, operators, separators and hyphen ranges, at the start of a text or at a position in it.
//!
//! Each parser takes the longest prefix that its grammar matches, and returns its value and what follows it; or `None` if no
//! prefix matches. A number that is too large is parsed to its end, so the rest is the same as if it fitted.

ghost use Rattle.std.specs.Prelude.{◌≡◌, IfOk, IfSome, drop, ◌<◌, ◌∷◌, [], false};
ghost use Rattle.std.specs.Str.{IsCharBoundary};
ghost use Rattle.semver_base.specs.Characters.{ampersand, bar};
ghost use Rattle.semver_base.specs.Grammar.{Reads, ReadsAs, answer_of, IsText, rest_answer};
ghost use Rattle.semver_base.specs.Lexical.{IsQualifier, IsSomeWhitespace};
ghost use Rattle.semver_req.specs.Comparators.{IsMaybeEqual, IsPrimitive, IsPrimitiveKind, sized_primitive};
ghost use Rattle.semver_req.specs.Partials.{IsComponent, IsLongestAt, IsPartial, IsBarePartial, ReadsAt, ReadsDotted, answer_at, assembled, sized_component, sized_partial, strictness_of};
ghost use Rattle.semver_req.specs.Pieces.{IsOperator, place_answer, IsHyphenPair, IsSeparator};
ghost use Rattle.semver_req.specs.PieceSteps.{sized_hyphen};
ghost use Rattle.std.specs.Char.{is_whitespace};

pub mod comparator;
pub(crate) mod short;
pub mod values;

use semver_base::lexical;
use semver_base::lexical::values::{Measured, Qualifier};
use semver_base::lexical::{after, after_whitespace};
use semver_base::partial::{Partial, XRange};
use std::alloc::{AllocError, Global};
use values::{Flavour, Primitive, PrimitiveKind};

// Parses a wildcard or a number.
#[inline(always)]
fn component(text: &str, flavour: Flavour) -> Option<(Measured<XRange>, &str)>
    ensures { ReadsAs sized_component (IsComponent flavour) text.now (answer_of result) }
{
    let after_wildcard = if let Some(rest) = after(text, '*') {
        Some(rest)
    } else if flavour == Flavour::Normal {
        None
    } else if let Some(rest) = after(text, 'x') {
        Some(rest)
    } else {
        after(text, 'X')
    };
    if let Some(rest) = after_wildcard {
        return Some((Measured::Fits(XRange::Wildcard), rest));
    }
    match lexical::number(text, flavour.strictness())? {
        (Measured::Fits(number), rest) => Some((Measured::Fits(XRange::Val(number)), rest)),
        (Measured::TooLarge, rest) => Some((Measured::TooLarge, rest)),
    }
}

// Parses `.` and a component.
#[inline(always)]
fn dotted_component(text: &str, flavour: Flavour) -> Option<(Measured<XRange>, &str)>
    ensures { ReadsDotted flavour text.now (answer_of result) }
{
    component(after(text, '.')?, flavour)
}

// Assembles the partial version of these components, if none is too large.
#[inline(always)]
fn assembled(
    major: Measured<XRange>,
    minor: Measured<XRange>,
    patch: Measured<XRange>,
    qualifier: Qualifier,
) -> Measured<Partial>
    ensures { result ≡ assembled major minor patch qualifier }
{
    match (major, minor, patch) {
        (Measured::Fits(major), Measured::Fits(minor), Measured::Fits(patch)) => {
            Measured::Fits(Partial {
                major,
                minor,
                patch,
                pre: qualifier.pre,
                build: qualifier.build,
            })
        }
        _ => Measured::TooLarge,
    }
}

// A component that is missing.
const MISSING: Measured<XRange> = Measured::Fits(XRange::Wildcard);

// Parses a partial version without a `v` before it.
#[inline(always)]
fn bare_partial(
    alloc: Global,
    text: &str,
    flavour: Flavour,
) -> Result<Option<(Measured<Partial>, &str)>, AllocError>
    ensures { IfOk result
        (λ r. ReadsAs sized_partial (IsBarePartial flavour) text.now (answer_of r)) }
{
    let Some((major, rest)) = component(text, flavour) else {
        return Ok(None);
    };
    let Some((minor, after_minor)) = dotted_component(rest, flavour) else {
        let only = assembled(major, MISSING, MISSING, Qualifier::new(alloc));
        return Ok(Some((only, rest)));
    };
    let Some((patch, after_patch)) = dotted_component(after_minor, flavour) else {
        let two = assembled(major, minor, MISSING, Qualifier::new(alloc));
        return Ok(Some((two, after_minor)));
    };
    let (qualifier, rest) = lexical::qualifier(alloc, after_patch, flavour.strictness())?;
    Ok(Some((assembled(major, minor, patch, qualifier), rest)))
}

/// Parses a leading partial version (node-semver's range grammar, `partial`).
///
/// The value is `Measured::TooLarge` exactly if a number among the components is larger than 18446744073709551615. Fails only
/// out of memory.
pub fn partial_front(
    alloc: Global,
    text: &str,
    flavour: Flavour,
) -> Result<Option<(Measured<Partial>, &str)>, AllocError>
    ensures { IfOk result (λ r. ReadsAs sized_partial (IsPartial flavour) text.now (answer_of r)) }
{
    match flavour {
        Flavour::Npm => match after(text, 'v') {
            Some(rest) => bare_partial(alloc, rest, Flavour::Npm),
            None => bare_partial(alloc, text, Flavour::Npm),
        },
        Flavour::Normal => bare_partial(alloc, text, Flavour::Normal),
        Flavour::Specifier => bare_partial(alloc, text, Flavour::Specifier),
    }
}

// The operator `with_equal` if a `=` comes next, otherwise `alone`; and what follows it.
fn with_equal(rest: &str, alone: PrimitiveKind, with_equal: PrimitiveKind) -> (PrimitiveKind, &str)
    ensures { IsMaybeEqual rest.now alone with_equal result.0 result.1.now }
{
    match after(rest, '=') {
        Some(rest) => (with_equal, rest),
        None => (alone, rest),
    }
}

/// Parses a leading operator.
pub fn primitive_kind_front(text: &str) -> Option<(PrimitiveKind, &str)>
    ensures { Reads IsPrimitiveKind text.now (answer_of result) }
{
    if let Some(rest) = after(text, '>') {
        return Some(with_equal(
            rest,
            PrimitiveKind::GreaterThan,
            PrimitiveKind::GreaterThanOrEqual,
        ));
    }
    if let Some(rest) = after(text, '<') {
        return Some(with_equal(
            rest,
            PrimitiveKind::LessThan,
            PrimitiveKind::LessThanOrEqual,
        ));
    }
    let rest = after(text, '=')?;
    Some((PrimitiveKind::Equal, rest))
}

/// Strips leading whitespace; `None` if there is none.
pub fn after_some_whitespace(text: &str) -> Option<&str>
    ensures { Reads IsSomeWhitespace text.now (rest_answer result) }
{
    let rest = after_whitespace(text);
    if rest.len() == text.len() {
        return None;
    }
    Some(rest)
}

/// Strips the ASCII character `operator`, twice, from the start.
pub fn after_twice(text: &str, operator: char) -> Option<&str>
    requires { operator < 128 }
    ensures { Reads (IsText (operator ∷ operator ∷ [])) text.now (rest_answer result) }
{
    let rest = after(text, operator)?;
    after(rest, operator)
}

/// Strips the ASCII character `operator`, twice, from the start, with the whitespace around it.
pub fn after_operator(text: &str, operator: char) -> Option<&str>
    requires ascii { operator < 128 }
    requires not_whitespace { is_whitespace operator ≡ false }
    ensures { Reads (IsOperator operator) text.now (rest_answer result) }
{
    match after_twice(after_whitespace(text), operator) {
        Some(rest) => Some(after_whitespace(rest)),
        None => None,
    }
}

/// Strips a leading separator of the grammar's comparators: in npm's grammar `&&` or `,` with optional whitespace around it,
/// or whitespace alone (node-semver's range grammar, `range`; npm accepts `&&` and `,`); in the normalized one whitespace.
pub fn after_separator(text: &str, flavour: Flavour) -> Option<&str>
    ensures { Reads (IsSeparator flavour) text.now (rest_answer result) }
{
    match flavour {
        Flavour::Npm => {
            let rest = after_whitespace(text);
            if let Some(more) = after(rest, ',') {
                return Some(after_whitespace(more));
            }
            if let Some(more) = after_twice(rest, '&') {
                return Some(after_whitespace(more));
            }
            if rest.len() == text.len() {
                return None;
            }
            Some(rest)
        }
        Flavour::Normal => after_some_whitespace(text),
        Flavour::Specifier => None,
    }
}

/// A parsed hyphen range.
#[derive(Drop)]
pub struct HyphenRange {
    /// The partial version before the `-`; `Measured::TooLarge` if a number in it exceeds 18446744073709551615.
    pub lower: Measured<Partial>,
    /// The partial version after it.
    pub upper: Measured<Partial>,
}

/// Parses a leading hyphen range, two partial versions around a `-` with whitespace on both sides, and the whitespace after
/// it (node-semver, "Hyphen Ranges"). Fails only out of memory.
pub fn hyphen_front(alloc: Global, text: &str) -> Result<Option<(HyphenRange, &str)>, AllocError>
    ensures { IfOk result (λ r. ReadsAs sized_hyphen IsHyphenPair text.now (answer_of r)) }
{
    let Some((lower, rest)) = partial_front(alloc, text, Flavour::Npm)? else {
        return Ok(None);
    };
    let Some(rest) = after_some_whitespace(rest) else {
        return Ok(None);
    };
    let Some(rest) = after(rest, '-') else {
        return Ok(None);
    };
    let Some(rest) = after_some_whitespace(rest) else {
        return Ok(None);
    };
    match partial_front(alloc, rest, Flavour::Npm)? {
        Some((upper, rest)) => {
            let hyphen = HyphenRange { lower, upper };
            Ok(Some((hyphen, after_whitespace(rest))))
        }
        None => Ok(None),
    }
}

/// Parses the partial version at a position in the text, and returns the position after it.
///
/// The value is `Measured::TooLarge` exactly if a number among the components is larger than 18446744073709551615. Fails only
/// out of memory.
pub fn partial(
    alloc: Global,
    text: &str,
    place: usize,
    flavour: Flavour,
) -> Result<Option<(Measured<Partial>, usize)>, AllocError>
    requires { IsCharBoundary text.now place }
    ensures value { IfOk result (ReadsAt sized_partial (IsPartial flavour) text.now place) }
    ensures reached { IfOk result (λ r. IfSome r (λ p. IsCharBoundary text.now p.1)) }
{
    match partial_front(alloc, &text[place..], flavour)? {
        Some((value, rest)) => Ok(Some((value, text.len() - rest.len()))),
        None => Ok(None),
    }
}

/// Parses the qualifier at a position in the text, which may be empty, and returns the position after it (node-semver's range
/// grammar, `qualifier`).
///
/// Fails only out of memory.
pub fn qualifier(
    alloc: Global,
    text: &str,
    place: usize,
    flavour: Flavour,
) -> Result<(Qualifier, usize), AllocError>
    requires { IsCharBoundary text.now place }
    ensures value { IfOk result
        (λ r. IsLongestAt (IsQualifier (strictness_of flavour)) text.now place r.0 r.1) }
    ensures reached { IfOk result (λ r. IsCharBoundary text.now r.1) }
{
    let (qualifier, rest) = lexical::qualifier(alloc, &text[place..], flavour.strictness())?;
    Ok((qualifier, text.len() - rest.len()))
}

/// Parses the operator at a position in the text, and returns the position after it.
pub fn primitive_kind(text: &str, place: usize) -> Option<(PrimitiveKind, usize)>
    requires { IsCharBoundary text.now place }
    ensures value { Reads IsPrimitiveKind (drop place text.now) (answer_at text.now result) }
    ensures reached { IfSome result (λ p. IsCharBoundary text.now p.1) }
{
    let (kind, rest) = primitive_kind_front(&text[place..])?;
    Some((kind, text.len() - rest.len()))
}

/// Parses the operator and the partial version at a position in the text, with optional whitespace between them, and returns
/// the position after them (node-semver's range grammar, `primitive`).
///
/// The value is `Measured::TooLarge` exactly if a number among the components is larger than 18446744073709551615. Fails only
/// out of memory.
pub fn primitive(
    alloc: Global,
    text: &str,
    place: usize,
    flavour: Flavour,
) -> Result<Option<(Measured<Primitive>, usize)>, AllocError>
    requires { IsCharBoundary text.now place }
    ensures value { IfOk result (ReadsAt sized_primitive (IsPrimitive flavour) text.now place) }
    ensures reached { IfOk result (λ r. IfSome r (λ p. IsCharBoundary text.now p.1)) }
{
    let Some((kind, rest)) = primitive_kind_front(&text[place..]) else {
        return Ok(None);
    };
    let Some((partial, rest)) = partial_front(alloc, after_whitespace(rest), flavour)? else {
        return Ok(None);
    };
    let end = text.len() - rest.len();
    match partial {
        Measured::Fits(partial) => Ok(Some((Measured::Fits(Primitive { kind, partial }), end))),
        Measured::TooLarge => Ok(Some((Measured::TooLarge, end))),
    }
}

/// Parses the `||` at a position in the text with the whitespace around it, and returns the position after them
/// (node-semver's range grammar, `logical-or`).
pub fn logical_or(text: &str, place: usize) -> Option<usize>
    requires { IsCharBoundary text.now place }
    ensures value { Reads (IsOperator bar) (drop place text.now) (place_answer text.now result) }
    ensures reached { IfSome result (IsCharBoundary text.now) }
{
    let rest = after_operator(&text[place..], '|')?;
    Some(text.len() - rest.len())
}

/// Parses the `&&` at a position in the text with the whitespace around it, and returns the position after them.
pub fn logical_and(text: &str, place: usize) -> Option<usize>
    requires { IsCharBoundary text.now place }
    ensures value { Reads (IsOperator ampersand) (drop place text.now)
        (place_answer text.now result) }
    ensures reached { IfSome result (IsCharBoundary text.now) }
{
    let rest = after_operator(&text[place..], '&')?;
    Some(text.len() - rest.len())
}
