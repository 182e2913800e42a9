//! Where an argument is invalid, and what is expected there.

use answers::asking::{InvalidArgument, Kind};
use answers::errors::{errors, expected_json};
use answers::object::Object;
use package_answers::errors::{PackageErrors, Part, missing_json};
use package_answers::packages::package_errors;
use package_answers::references::reference_errors;
use semver_req::common::values::Flavour;
use semver_req::error_places::pieces::invalid_pieces_behind;
use serde_json::Value;
use std::alloc::{AllocError, Global};
use std::io::Write;
use terminal::console::{Stop, Style, print_line};
use terminal::hints::{Suggestion, hint, scope_hint};
use terminal::pointing::{print_caret, print_error, version_errors};

/// The errors of the range that ends a text.
pub fn errors_at_end(
    alloc: Global,
    flavour: Flavour,
    text: &str,
    range: &str,
) -> Result<PackageErrors, AllocError> {
    let before = text.len().saturating_sub(range.len());
    let errors = invalid_pieces_behind(alloc, before, range, flavour)?;
    Ok(PackageErrors::Range(errors))
}

/// Where an argument is invalid: the invalid alternatives of a range, also of one in a package, the part that a package lacks, and where
/// a version goes wrong.
pub fn errors_of(
    alloc: Global,
    flavour: Flavour,
    text: &str,
    invalid: &InvalidArgument,
) -> Result<PackageErrors, AllocError> {
    match invalid.kind {
        Kind::Range => Ok(PackageErrors::Range(errors(alloc, flavour, text)?)),
        Kind::Package => package_errors(alloc, flavour, text),
        Kind::Reference => reference_errors(alloc, text),
        Kind::Version => Ok(PackageErrors::Range(version_errors(alloc, text)?)),
        // It has no place in a text.
        Kind::Step => Ok(PackageErrors::Range(Vec::new(alloc))),
    }
}

/// Prints a text with carets under the places of its errors: of ranges in this grammar, or of a version.
pub fn print_errors<O: Write>(
    out: &mut O,
    style: Style,
    text: &str,
    errors: &PackageErrors,
    grammar: Option<Flavour>,
) -> Result<(), Stop> {
    match errors {
        PackageErrors::Range(errors) => {
            for error in errors {
                print_error(out, style, text, error, grammar)?;
            }
            Ok(())
        }
        PackageErrors::Part(error) => {
            let note = match error.missing {
                Some(Part::At) => " expected `@`",
                Some(Part::Slash) => " expected `/`",
                Some(Part::Name) => " expected a name",
                Some(Part::Scheme) => " expected `jsr:` or `npm:`",
                None => "",
            };
            print_caret(out, style, text, error.place, note)?;
            match scope_hint(text) {
                Some(hint) if error.missing.is_none() => {
                    print_line(out, format_args!("  = {hint}"))
                }
                _ => Ok(()),
            }
        }
    }
}

/// What is wrong with a text that isn't a reference: the parser's message, but for a package of JSR whose scope lacks its `@`, since the
/// parser proposes another text than the hint does.
pub fn message_of<'m>(text: &str, errors: &PackageErrors, message: &'m str) -> &'m str {
    match errors {
        PackageErrors::Part(error) if error.missing.is_none() && scope_hint(text).is_some() => {
            "packages of JSR have a scope"
        }
        PackageErrors::Part(_) | PackageErrors::Range(_) => message,
    }
}

/// Where the first error of a text is, and where what is wrong ends.
pub fn first_place(text: &str, errors: &PackageErrors) -> Option<(usize, usize)> {
    match errors {
        PackageErrors::Range(errors) => {
            let first = errors.first()?;
            Some((first.place, first.end))
        }
        PackageErrors::Part(error) => Some((error.place, text.len())),
    }
}

/// What to write in place of the first mistake in a text.
pub fn first_hint<'a>(
    text: &'a str,
    errors: &PackageErrors,
    grammar: Option<Flavour>,
) -> Option<Suggestion<'a>> {
    match errors {
        PackageErrors::Range(errors) => hint(text, errors.first()?, grammar),
        PackageErrors::Part(error) if error.missing.is_none() => scope_hint(text),
        PackageErrors::Part(_) => None,
    }
}

/// Adds the place of the first error of a text, and what is expected there.
pub fn add_first(alloc: Global, json: Object, text: &str, errors: &PackageErrors) -> Object {
    let (start, end, expected) = match errors {
        PackageErrors::Range(errors) => match errors.as_slice() {
            [first, ..] => (first.place, first.end, expected_json(alloc, &first.cause)),
            [] => return json,
        },
        PackageErrors::Part(error) => {
            (error.place, text.len(), missing_json(alloc, error.missing))
        }
    };
    json.put("start", Ok(Value::from(start)))
        .put("end", Ok(Value::from(end)))
        .put("expected", expected)
}
