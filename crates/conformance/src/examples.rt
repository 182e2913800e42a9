//! Examples: public calls that few rows would make, on constants. They report what the calls return.

mod errors;
mod packages;
mod parts;
mod ranges;
mod texts;

use crate::answer::{Answer, Fault, Item, ReportError, Reported};
use crate::arguments::only;
use std::fmt::Display;

/// `example` and a name: what the calls of that example return.
pub fn example(arguments: &[Item], answer: &mut Answer) -> Reported {
    match only(arguments)? {
        "texts" => texts::made(answer),
        "grown-texts" => texts::grown(answer),
        "in-value" => texts::in_value(answer),
        "lists" => texts::lists(answer),
        "failures" => errors::failures(answer),
        "out-of-memory" => errors::out_of_memory(answer),
        "version-errors" => errors::of_versions(answer),
        "package-errors" => errors::of_packages(answer),
        "qualifier-at" => parts::qualifier_at(answer),
        "partial-at" => parts::partial_at(answer),
        "comparator-at" => parts::comparator_at(answer),
        "operators-at" => parts::operators_at(answer),
        "clamped" => ranges::clamped(answer),
        "ranges" => ranges::ranges(answer),
        "sets" => ranges::sets(answer),
        "versions" => packages::versions(answer),
        "requirements" => packages::requirements(answer),
        "next" => parts::next(answer),
        "specifiers" => packages::specifiers(answer),
        "exports" => packages::exports(answer),
        "references" => packages::references(answer),
        "dependencies" => packages::dependencies(answer),
        "json-list" => packages::json_list(answer),
        _ => Err(Fault::OtherArguments),
    }
}

// Reports the value that a parser returned, or its error and the error's line.
fn shown<T: Display + Drop, E: ReportError + Display>(
    parsed: Result<T, E>,
    answer: &mut Answer,
) -> Reported {
    match parsed {
        Ok(value) => answer.displayed(&value),
        Err(error) => {
            error.report(answer)?;
            answer.displayed(&error)
        }
    }
}
