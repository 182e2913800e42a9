//! `ranges package` and `ranges reference`: the parts of the text of a package.

use crate::comparing::{print_json, reject};
use deno_semver::jsr::normalized_export_name;
use deno_semver::package::{PackageKind, PackageReq};
use manifests::npm::is_package_name;
use package_answers::packages::{package_json, read_package, scope_and_name};
use package_answers::references::{Reference, read_reference, reference_json};
use std::io::Write;
use terminal::console::{Console, Status, Stop, print_line};
use terminal::given::Given;
use terminal::hints::url_behind;
use terminal::shown::Shown;

// Prints a part on a line, if there is one.
fn print_part<O: Write>(out: &mut O, part: &str, text: Option<&str>) -> Result<(), Stop> {
    match text {
        Some(text) => print_line(out, format_args!("{part}: {}", Shown(text))),
        None => Ok(()),
    }
}

// Prints the parts of a package, each on a line.
fn print_package<O: Write, E: Write>(
    console: &mut Console<O, E>,
    req: &PackageReq,
) -> Result<(), Stop> {
    let (scope, name) = scope_and_name(req.name.as_str());
    let normal = req.version_req.to_string_normalized(console.alloc)?;
    let out = &mut console.out;
    print_part(out, "scope", scope)?;
    print_part(out, "name", Some(name))?;
    print_part(out, "range", Some(req.version_req.version_text()))?;
    print_part(out, "canonical form", Some(normal.as_str()))
}

// Asks what is meant, if the package's name or tag looks like a mistake.
fn ask<O: Write, E: Write>(
    console: &mut Console<O, E>,
    what: &str,
    text: &str,
    req: &PackageReq,
) -> Result<(), Stop> {
    let name = req.name.as_str();
    if let Some(says) = url_behind(text) {
        console.ask(what, text, says);
    } else if !is_package_name(name) {
        let question = format!(in console.alloc; "is `{name}` a name? npm refuses it")?;
        console.ask(what, text, question.as_str());
    }
    if let Some(tag) = req.version_req.tag() {
        console.question(tag);
    }
    Ok(())
}

/// `ranges package TEXT`: the parts of a package with a range.
pub fn report_package<O: Write, E: Write>(
    console: &mut Console<O, E>,
    given: Given<'_, '_>,
) -> Result<Status, Stop> {
    let text = given.text("TEXT");
    let req = match read_package(console.alloc, console.options.flavour, text) {
        Ok(req) => req,
        Err(problem) => return reject(console, &[text], &problem),
    };
    if console.options.json {
        let json = package_json(console.alloc, &req);
        print_json(console, json)?;
    } else {
        print_package(console, &req)?;
    }
    ask(console, "package", text, &req)?;
    Ok(Status::Answered)
}

// Prints the parts of a reference, each on a line.
fn print_reference<O: Write, E: Write>(
    console: &mut Console<O, E>,
    read: &Reference,
) -> Result<(), Stop> {
    print_part(&mut console.out, "kind", Some(read.registry()))?;
    print_package(console, &read.reference.req)?;
    print_part(&mut console.out, "path", read.path())?;
    if read.kind != PackageKind::Jsr {
        return Ok(());
    }
    let export = normalized_export_name(console.alloc, read.path())?;
    print_part(&mut console.out, "export", Some(export.as_str()))
}

/// `ranges reference TEXT`: the parts of a reference to a package.
pub fn report_reference<O: Write, E: Write>(
    console: &mut Console<O, E>,
    given: Given<'_, '_>,
) -> Result<Status, Stop> {
    let text = given.text("TEXT");
    let read = match read_reference(console.alloc, text) {
        Ok(read) => read,
        Err(problem) => return reject(console, &[text], &problem),
    };
    if console.options.json {
        let json = reference_json(console.alloc, &read);
        print_json(console, json)?;
    } else {
        print_reference(console, &read)?;
    }
    ask(console, "reference", text, &read.reference.req)?;
    Ok(Status::Answered)
}
