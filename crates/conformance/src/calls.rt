//! The calls that a row can make, by name.

use crate::answer::{Answer, Fault, Item, Reported};
use crate::{examples, json, kinds, packages, requirements, versions};

/// Makes the call with this name, and reports what it returns for the arguments.
pub fn ask(call: &str, arguments: &[Item], answer: &mut Answer) -> Reported {
    match call {
        "version" => versions::version(arguments, answer),
        "npm-version" => versions::npm_version(arguments, answer),
        "version-requirement" => versions::version_requirement(arguments, answer),
        "intersects-version" => versions::intersects_version(arguments, answer),
        "precedence" => versions::precedence(arguments, answer),
        "sort-key" => versions::sort_key(arguments, answer),
        "max-satisfying" | "min-satisfying" => versions::satisfying(call, arguments, answer),
        "order-of" | "equal-of" | "written" => kinds::of_kind(call, arguments, answer),
        "requirement" | "normal" => requirements::of_one(call, arguments, answer),
        "same-requirement" | "overlap" => requirements::of_two(call, arguments, answer),
        "fits" => requirements::fits(arguments, answer),
        "reread" => requirements::reread(arguments, answer),
        "min-version"
        | "common-version"
        | "common-of-all"
        | "version-outside"
        | "is-subset"
        | "is-equivalent" => requirements::lowest(call, arguments, answer),
        "scans" => requirements::scans(arguments, answer),
        "error-place" => requirements::place_of_error(arguments, answer),
        "invalid-pieces" => requirements::pieces_of_error(arguments, answer),
        "partial" => requirements::partial(arguments, answer),
        "ample" => requirements::ample(arguments, answer),
        "package" => packages::package(arguments, answer),
        "name-version" => packages::name_version(arguments, answer),
        "dependency" => packages::dependency(arguments, answer),
        "reference" | "version-reference" => packages::reference(call, arguments, answer),
        "specifier" => packages::specifier(arguments, answer),
        "export" => packages::export(arguments, answer),
        "json" => json::json(arguments, answer),
        "stored" => json::stored(arguments, answer),
        "example" => examples::example(arguments, answer),
        _ => Err(Fault::NoCall),
    }
}
