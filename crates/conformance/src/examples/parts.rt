//! Parts of requirements after the first character of a text, and what may follow a text.

use crate::answer::{Answer, Reported, valid};
use crate::notation;
use deno_semver::Version;
use deno_semver::errors::{expected_after, may_follow, version_may_follow};
use deno_semver::npm::is_valid_npm_tag;
use semver_base::lexical::values::{Measured, Qualifier};
use semver_req::common;
use semver_req::common::values::{Flavour, PrimitiveKind};

/// A pre-release and a build, as those of 0.0.0, and what follows them.
pub fn qualifier_at(answer: &mut Answer) -> Reported {
    let text = "3a.b+c d";
    if !text.is_char_boundary(1) {
        return Ok(());
    }
    let (qualifier, reached) = common::qualifier(answer.alloc, text, 1, Flavour::Npm)?;
    let copy = qualifier.copy();
    drop(qualifier);
    let Qualifier { pre, build } = copy?;
    let mut version = Version::new(answer.alloc);
    version.pre = pre;
    version.build = build;
    answer.displayed(&version)?;
    answer.text(&text[reached..])
}

/// The range of a partial version, and what follows it.
pub fn partial_at(answer: &mut Answer) -> Reported {
    let text = "^v1.2.3b,";
    if text.is_char_boundary(1)
        && let Some((parsed, reached)) = common::partial(answer.alloc, text, 1, Flavour::Npm)?
        && let Measured::Fits(partial) = parsed
    {
        let range = partial.as_equal_range(answer.alloc);
        drop(partial);
        notation::report(range, answer)?;
        answer.text(&text[reached..])?;
    }
    Ok(())
}

/// The range of a copied comparator, and what follows it.
pub fn comparator_at(answer: &mut Answer) -> Reported {
    let text = "1<  1";
    if text.is_char_boundary(1)
        && let Some((parsed, reached)) = common::primitive(answer.alloc, text, 1, Flavour::Npm)?
        && let Measured::Fits(comparator) = parsed
    {
        let copy = comparator.copy();
        drop(comparator);
        notation::report(copy?.into_version_range(answer.alloc), answer)?;
        answer.text(&text[reached..])?;
    }
    Ok(())
}

/// Whether an operator, `||` and `&&` behind the first character of a text are found, with their ends.
pub fn operators_at(answer: &mut Answer) -> Reported {
    let (sign, or, and) = (">>=1", "1 || 2 || 3", "1 && 2");
    if sign.is_char_boundary(1) && or.is_char_boundary(1) && and.is_char_boundary(1) {
        let kind = common::primitive_kind(sign, 1);
        answer.yes_or_no(kind == Some((PrimitiveKind::GreaterThanOrEqual, 3)))?;
        answer.yes_or_no(common::logical_or(or, 1) == Some(5))?;
        answer.yes_or_no(common::logical_and(and, 1) == Some(5))?;
    }
    Ok(())
}

/// A text of each kind that may follow a prefix, and whether a text may end there; whether texts may follow others, and are valid
/// tags.
pub fn next(answer: &mut Answer) -> Reported {
    let alloc = answer.alloc;
    let expected = expected_after(alloc, "1.2.3 - 2 ", Flavour::Npm)?;
    for kind in &expected.kinds {
        answer.text(kind.text())?;
    }
    answer.yes_or_no(expected.may_end)?;
    let follows = may_follow(alloc, "1 |", "|", Flavour::Npm)?;
    answer.yes_or_no(follows)?;
    let follows = version_may_follow(alloc, "1.2.", "3")?;
    answer.yes_or_no(follows)?;
    answer.yes_or_no(is_valid_npm_tag("latest"))?;
    answer.yes_or_no(is_valid_npm_tag("a b"))
}
