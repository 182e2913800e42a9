//! The comparators of an alternative. node-semver's `toComparators` lists them in its canonical form; here each is as written, beside what it
//! parses to by itself.

ghost use Rattle.std.specs.Prelude.{◌≡◌, ◌↔◌, IfOk, IsTrue, List, MatchOption, map, ℕ};
ghost use Rattle.semver_base.specs.Comparators.{Comparator};
ghost use Rattle.semver_base.specs.Grammar.{HasNone, IsLongest, Listed};
ghost use Rattle.semver_base.specs.Lexical.{IsWhitespace};
ghost use Rattle.semver_req.specs.ComparatorLists.{AreComparators, IsItem, told};
ghost use Rattle.semver_req.specs.PieceReading.{as_retained};
ghost use Rattle.semver_req.specs.Pieces.{IsCutting, IsHyphen, IsSeparator};
ghost use Rattle.semver_req.specs.declared.common.values.Flavour.TheVariants.{Npm};
ghost use Rattle.semver_req.specs.declared.range_set_or_tag.pieces.RangeOrInvalid.{RangeOrInvalid};

use crate::common::comparator::comparator_front;
use crate::common::values::Flavour;
use crate::common::{after_separator, hyphen_front};
use crate::range_set_or_tag::RangeOrInvalid;
use semver_base::lexical::is_all_whitespace;
use std::alloc::{AllocError, Global};

/// A comparator of an alternative.
#[derive(Drop)]
pub struct ParsedComparator<'a> {
    /// The comparator as written.
    pub text: &'a str,
    /// The range that it means by itself, or that a number or a bound in it is too large.
    pub parsed: RangeOrInvalid,
}

// Parses a leading comparator.
fn item_front<'a>(
    alloc: Global,
    text: &'a str,
    flavour: Flavour,
) -> Result<Option<(ParsedComparator<'a>, &'a str)>, AllocError>
    ensures { IfOk result (λ r. MatchOption r (HasNone (IsItem flavour) text.now)
        (λ p. IsLongest (IsItem flavour) text.now (told p.0) p.1.now)) }
{
    let Some((written, rest)) = comparator_front(alloc, text, flavour)? else {
        return Ok(None);
    };
    let parsed = RangeOrInvalid::of_one(alloc, written)?;
    let text = &text[..text.len() - rest.len()];
    Ok(Some((ParsedComparator { text, parsed }, rest)))
}

// Parses leading comparators with separators between them, and at most one at the end.
fn list_front<'a>(
    alloc: Global,
    text: &'a str,
    flavour: Flavour,
) -> Result<Option<(Vec<ParsedComparator<'a>>, &'a str)>, AllocError>
    ensures { IfOk result (λ r. MatchOption r
        (HasNone (Listed (IsItem flavour) (IsSeparator flavour)) text.now)
        (λ p. IsLongest (Listed (IsItem flavour) (IsSeparator flavour)) text.now
        (map told p.0.items) p.1.now)) }
{
    let Some((first, rest)) = item_front(alloc, text, flavour)? else {
        return Ok(None);
    };
    let mut items = Vec::new(alloc);
    items.push(first)?;
    let mut rest = rest;
    while let Some(next) = after_separator(rest, flavour) {
        let Some((item, more)) = item_front(alloc, next, flavour)? else {
            return Ok(Some((items, next)));
        };
        items.push(item)?;
        rest = more;
    }
    Ok(Some((items, rest)))
}

// Whether the alternative is whitespace, and the grammar accepts that.
fn is_everything(alternative: &str, flavour: Flavour) -> bool
    ensures { IsTrue result ↔ IsCutting flavour × IsWhitespace alternative.now tt }
{
    match flavour {
        Flavour::Npm => is_all_whitespace(alternative),
        Flavour::Normal => is_all_whitespace(alternative),
        Flavour::Specifier => false,
    }
}

// The whole alternative as a hyphen range.
fn hyphen_range<'a>(
    alloc: Global,
    alternative: &'a str,
    flavour: Flavour,
) -> Result<Option<ParsedComparator<'a>>, AllocError>
    ensures { IfOk result (λ r. MatchOption r
        ((cs : List Comparator) → flavour ≡ Npm → IsHyphen alternative.now cs → ⊥)
        (λ item. (cs : List Comparator) × (flavour ≡ Npm) × IsHyphen alternative.now cs
        × (told item ≡ (alternative.now, as_retained cs)))) }
{
    let found = match flavour {
        Flavour::Npm => hyphen_front(alloc, alternative)?,
        Flavour::Normal => return Ok(None),
        Flavour::Specifier => return Ok(None),
    };
    match found {
        Some((hyphen, rest)) if rest.is_empty() => {
            let parsed = RangeOrInvalid::between(alloc, &hyphen)?;
            Ok(Some(ParsedComparator {
                text: alternative,
                parsed,
            }))
        }
        _ => Ok(None),
    }
}

/// The comparators of an alternative, in their order: whitespace has none, and npm's hyphen range is one. None if they aren't
/// comparators of the grammar. Fails only out of memory.
pub fn comparators<'a>(
    alloc: Global,
    alternative: &'a str,
    flavour: Flavour,
) -> Result<Option<Vec<ParsedComparator<'a>>>, AllocError>
    ensures { IfOk result (λ r. MatchOption r
        ((items : List (List ℕ × RangeOrInvalid)) → AreComparators flavour alternative.now items
        → ⊥) (λ list. AreComparators flavour alternative.now (map told list.items))) }
{
    if is_everything(alternative, flavour) {
        return Ok(Some(Vec::new(alloc)));
    }
    if let Some(range) = hyphen_range(alloc, alternative, flavour)? {
        let mut items = Vec::new(alloc);
        items.push(range)?;
        return Ok(Some(items));
    }
    match list_front(alloc, alternative, flavour)? {
        Some((items, rest)) if rest.is_empty() => Ok(Some(items)),
        _ => Ok(None),
    }
}
