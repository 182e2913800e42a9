//! Parsers of the tokens of versions and requirements.
//!
//! Each parser takes the longest prefix of the text that its grammar matches, and returns its value and the rest of the text;
//! or `None` if no prefix matches. A text is parsed in one pass.

ghost use Rattle.std.specs.Prelude.{◌≡◌, ◌↔◌, ◌<◌, ◌++◌, [], ◌∷◌, IfOk, IsTrue, OnOk};
ghost use Rattle.semver_base.specs.Grammar.{CutsRun, IsAfter, IsLongest, Reads, ReadsAs, answer_of};
ghost use Rattle.semver_base.specs.Lexical.{IsWhitespace, IsIdentifiers, IsLooseNumber, IsNumber, IsQualifier, is_identifier_byte, sized};

pub mod values;

use crate::string::{CowVec, SmallStackString};
use std::alloc::{AllocError, Global};
use values::{Measured, Qualifier, Strictness};

/// Strips the leading ASCII character `character`, if the text begins with it.
#[inline(always)]
pub fn after(text: &str, character: char) -> Option<&str>
    requires { character < 128 }
    ensures { IsAfter character text.now result }
{
    text.strip_prefix(character)
}

/// Strips leading whitespace, the characters for which `char::is_whitespace` is true.
#[inline(always)]
pub fn after_whitespace(text: &str) -> &str
    ensures { IsLongest IsWhitespace text.now tt result.now }
{
    text.trim_start()
}

/// Whether the text is empty or only whitespace.
pub fn is_all_whitespace(text: &str) -> bool
    ensures { IsTrue result ↔ IsWhitespace text.now tt }
{
    after_whitespace(text).is_empty()
}

// Splits off a leading identifier, which may be empty.
#[inline(always)]
fn identifier_front(text: &str) -> (&str, &str)
    ensures { CutsRun is_identifier_byte text.now result.0.now result.1.now }
{
    let bytes = text.as_bytes();
    let len = bytes
        .iter()
        .take_while(|b| b.is_ascii_alphanumeric() || **b == b'-')
        .count();
    text.split_at(len)
}

/// Parses one or more ASCII digits, leading zeros allowed.
#[inline(always)]
pub fn loose_number(text: &str) -> Option<(Measured<u64>, &str)>
    ensures { ReadsAs sized IsLooseNumber text.now (answer_of result) }
{
    let bytes = text.as_bytes();
    let len = bytes.iter().take_while(|b| b.is_ascii_digit()).count();
    let (digits, rest) = text.split_at(len);
    if digits.is_empty() {
        return None;
    }
    match digits.parse::<u64>() {
        Ok(number) => Some((Measured::Fits(number), rest)),
        Err(_) => Some((Measured::TooLarge, rest)),
    }
}

/// Parses a number by either grammar. By the strict one, only `0` begins with `0`.
#[inline(always)]
pub fn number(text: &str, strictness: Strictness) -> Option<(Measured<u64>, &str)>
    ensures { ReadsAs sized (IsNumber strictness) text.now (answer_of result) }
{
    match strictness {
        Strictness::Loose => loose_number(text),
        Strictness::Strict => match after(text, '0') {
            Some(rest) => Some((Measured::Fits(0), rest)),
            None => loose_number(text),
        },
    }
}

// Appends an identifier.
fn push_identifier(
    alloc: Global,
    identifiers: &mut Vec<SmallStackString>,
    identifier: &str,
) -> Result<(), AllocError>
    ensures { OnOk result (identifiers.new.items ≡ identifiers.old.items ++ identifier.now ∷ []) }
{
    identifiers.push(SmallStackString::from_str(alloc, identifier)?)?;
    Ok(())
}

// Parses one or more identifiers, each one or more of `0-9`, `A-Z`, `a-z` and `-`, with a `.` between neighbours and at most
// one trailing `.`, which adds no identifier.
#[inline(never)]
fn many_identifiers(
    alloc: Global,
    text: &str,
) -> Result<Option<(CowVec<SmallStackString>, &str)>, AllocError>
    ensures { IfOk result (λ r. Reads IsIdentifiers text.now (answer_of r)) }
{
    let (first, mut rest) = identifier_front(text);
    if first.is_empty() {
        return Ok(None);
    }
    let mut ids = Vec::new(alloc);
    push_identifier(alloc, &mut ids, first)?;
    while let Some(next) = after(rest, '.') {
        let (id, more) = identifier_front(next);
        if id.is_empty() {
            return Ok(Some((CowVec::from_vec(alloc, ids)?, next)));
        }
        push_identifier(alloc, &mut ids, id)?;
        rest = more;
    }
    Ok(Some((CowVec::from_vec(alloc, ids)?, rest)))
}

// Parses the same grammar. One or two identifiers, the usual case, take no `Vec`.
#[inline(never)]
fn identifiers(
    alloc: Global,
    text: &str,
) -> Result<Option<(CowVec<SmallStackString>, &str)>, AllocError>
    ensures { IfOk result (λ r. Reads IsIdentifiers text.now (answer_of r)) }
{
    let (first, rest) = identifier_front(text);
    if first.is_empty() {
        return Ok(None);
    }
    let Some(next) = after(rest, '.') else {
        let only = SmallStackString::from_str(alloc, first)?;
        return Ok(Some((CowVec::of_one(alloc, only)?, rest)));
    };
    let (second, rest) = identifier_front(next);
    if second.is_empty() || after(rest, '.').is_some() {
        return many_identifiers(alloc, text);
    }
    let first = SmallStackString::from_str(alloc, first)?;
    let second = SmallStackString::from_str(alloc, second)?;
    Ok(Some((CowVec::of_two(alloc, first, second)?, rest)))
}

/// Parses an optional pre-release and then an optional build. Fails only out of memory, as both may be absent.
#[inline(always)]
pub fn qualifier(
    alloc: Global,
    text: &str,
    strictness: Strictness,
) -> Result<(Qualifier, &str), AllocError>
    ensures { IfOk result (λ r. IsLongest (IsQualifier strictness) text.now r.0 r.1.now) }
{
    // A pre-release is identifiers after a `-`, which the loose grammar may omit.
    let pre = match (after(text, '-'), strictness) {
        (Some(rest), _) => identifiers(alloc, rest),
        (None, Strictness::Loose) => identifiers(alloc, text),
        (None, Strictness::Strict) => Ok(None),
    };
    let (pre, rest) = pre?.unwrap_or((CowVec::new(alloc), text));
    // A build is identifiers after a `+`.
    let build = match after(rest, '+') {
        Some(more) => identifiers(alloc, more),
        None => Ok(None),
    };
    let (build, rest) = build?.unwrap_or((CowVec::new(alloc), rest));
    Ok((Qualifier { pre, build }, rest))
}
