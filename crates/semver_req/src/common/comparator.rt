//! Comparators: the operator before a partial version, and the range of both.

ghost use Rattle.std.specs.Prelude.{◌≡◌, IfErr, IfOk, OnOk, true};
ghost use Rattle.semver_base.specs.Comparators.{comparator_line, comparator_range};
ghost use Rattle.semver_base.specs.Grammar.{answer_of};
ghost use Rattle.semver_base.specs.PartialTable.{IsBoundRejection, all_fit};
ghost use Rattle.semver_req.specs.Comparators.{IsComparator};
ghost use Rattle.semver_req.specs.Written.{IsOperatorCut, IsNpmFront, IsNonPrimitive, ReadsComparator, comparator_of, with_operator};

use crate::common::values::{Flavour, PrimitiveKind};
use crate::common::{after_some_whitespace, bare_partial, partial_front, primitive_kind_front};
use semver_base::failure::ParseFailure;
use semver_base::lexical::values::Measured;
use semver_base::lexical::{after, after_whitespace};
use semver_base::partial::Partial;
use semver_base::range::VersionRange;
use std::alloc::{AllocError, Global};

/// The operator before the partial version of a comparator.
#[derive(Clone, Copy)]
pub enum Operator {
    /// `~`
    Tilde,
    /// `^`
    Caret,
    /// `<`, `<=`, `>`, `>=` or `=`
    Primitive(PrimitiveKind),
    /// No operator: the range of the partial version itself.
    Absent,
}

impl Operator {
    /// The range of the operator and the partial version after it (node-semver, "Advanced Range Syntax").
    ///
    /// Fails with "Version bound is too large." exactly if a number that the range increments exceeds 18446744073709551615;
    /// otherwise only out of memory.
    #[inline(always)]
    pub fn range(self, alloc: Global, partial: &Partial) -> Result<VersionRange, ParseFailure>
        ensures range { IfOk result
            (λ range. range ≡ comparator_range (comparator_of self partial.now)) }
        ensures fits { OnOk result
            (all_fit (comparator_line (comparator_of self partial.now)).sums ≡ true) }
        ensures rejected { IfErr result
            (IsBoundRejection (comparator_line (comparator_of self partial.now)).sums) }
    {
        match self {
            Operator::Tilde => partial.as_tilde_version_range(alloc),
            Operator::Caret => partial.as_caret_version_range(alloc),
            Operator::Primitive(kind) => kind.range(alloc, partial),
            Operator::Absent => partial.as_equal_range(alloc),
        }
    }
}

/// A parsed comparator.
#[derive(Drop)]
pub struct Written {
    pub operator: Operator,
    /// The partial version after the operator; `Measured::TooLarge` if a number in it exceeds 18446744073709551615.
    pub partial: Measured<Partial>,
}

/// Splits off a leading operator.
#[inline(always)]
pub(crate) fn split_operator(text: &str) -> (Operator, &str)
    ensures { IsOperatorCut text.now result.0 result.1.now }
{
    if let Some(rest) = after(text, '~') {
        return (Operator::Tilde, rest);
    }
    if let Some(rest) = after(text, '^') {
        return (Operator::Caret, rest);
    }
    (Operator::Absent, text)
}

/// Parses a leading comparator without a comparison operator: `~`, `^` or nothing, and a partial version (node-semver's range
/// grammar, `simple` without `primitive`). Fails only out of memory.
#[inline(always)]
pub fn non_primitive_front(
    alloc: Global,
    text: &str,
    flavour: Flavour,
) -> Result<Option<(Written, &str)>, AllocError>
    ensures { IfOk result (λ r. ReadsComparator (IsNonPrimitive flavour) text.now (answer_of r)) }
{
    let (operator, rest) = split_operator(text);
    match partial_front(alloc, rest, flavour)? {
        Some((partial, rest)) => Ok(Some((Written { operator, partial }, rest))),
        None => Ok(None),
    }
}

// The parsed partial version with this operator.
#[inline(always)]
fn with_operator<'a>(
    operator: Operator,
    read: Option<(Measured<Partial>, &'a str)>,
) -> Option<(Written, &'a str)>
    ensures { answer_of result ≡ with_operator operator (answer_of read.entry) }
{
    let (partial, rest) = read?;
    Some((Written { operator, partial }, rest))
}

// Parses a leading npm comparator, with the operator `other` if it begins with neither `~` nor `^`.
#[inline(always)]
fn npm_by_operator(
    alloc: Global,
    text: &str,
    other: Operator,
) -> Result<Option<(Written, &str)>, AllocError>
    ensures { IfOk result (λ r. IsNpmFront other text.now (answer_of r)) }
{
    let (operator, rest) = split_operator(text);
    // `~>` is a `~`.
    let rest = match operator {
        Operator::Tilde => after(rest, '>').unwrap_or(rest),
        _ => rest,
    };
    match operator {
        Operator::Tilde | Operator::Caret => {
            // Any number of `=` and a `v` may stand before the partial version, with optional whitespace between them.
            let mut rest = rest;
            while let Some(next) = after(rest, '=') {
                rest = next;
            }
            let start = after_whitespace(rest);
            let led = match after(start, 'v') {
                Some(rest) => partial_front(alloc, after_whitespace(rest), Flavour::Npm)?,
                None => bare_partial(alloc, start, Flavour::Npm)?,
            };
            Ok(with_operator(operator, led))
        }
        Operator::Primitive(_) | Operator::Absent => {
            Ok(with_operator(other, partial_front(alloc, rest, Flavour::Npm)?))
        }
    }
}

/// Parses a leading comparator of the grammar (node-semver's range grammar, `simple`; npm's with `~>`, with what npm ignores
/// before a partial version, and with a comparison operator that is ignored before a `~` or a `^`). Fails only out of memory.
pub fn comparator_front(
    alloc: Global,
    text: &str,
    flavour: Flavour,
) -> Result<Option<(Written, &str)>, AllocError>
    ensures { IfOk result (λ r. ReadsComparator (IsComparator flavour) text.now (answer_of r)) }
{
    match flavour {
        Flavour::Npm => match primitive_kind_front(text) {
            None => npm_by_operator(alloc, text, Operator::Absent),
            Some((kind, rest)) => {
                let operator = Operator::Primitive(kind);
                match after_some_whitespace(rest) {
                    Some(start) => npm_by_operator(alloc, start, operator),
                    None => Ok(with_operator(operator, partial_front(alloc, rest, Flavour::Npm)?)),
                }
            }
        },
        Flavour::Normal => match primitive_kind_front(text) {
            None => non_primitive_front(alloc, text, Flavour::Normal),
            Some((kind, rest)) => {
                let partial = partial_front(alloc, after_whitespace(rest), Flavour::Normal)?;
                Ok(with_operator(Operator::Primitive(kind), partial))
            }
        },
        Flavour::Specifier => non_primitive_front(alloc, text, Flavour::Specifier),
    }
}
