//! The commands that print one line.

use crate::apart::first_apart;
use answers::asking::{Answer, Kind, Problem};
use answers::object::Object;
use answers::questions::{common_version, order, text_of_version, version_outside};
use answers::reading::{range, ranges};
use checks::errors::{add_first, errors_of, message_of, print_errors};
use deno_semver::Version;
use semver_req::common::values::Flavour;
use serde_json::{Value, put};
use std::alloc::{AllocError, Global};
use std::cmp::Ordering;
use std::fmt;
use std::io::Write;
use terminal::console::{Console, Status, Stop, print_line};
use terminal::given::Given;
use terminal::hints::url_behind;
use terminal::input::read_ranges;
use terminal::shown::{Quoted, Shown};

/// A line of standard input, by its number from 1, in front of what is said of it; nothing of an argument.
#[derive(Clone, Copy)]
pub struct Line(pub Option<usize>);

impl fmt::Display for Line {
    fn fmt<W: fmt::Write>(&self, f: &mut fmt::Formatter<W>) -> fmt::Result {
        match self.0 {
            Some(number) => write!(f, "line {number}: "),
            None => Ok(()),
        }
    }
}

/// Reports which of the arguments is invalid, and where, or that memory ran out.
pub fn reject<O: Write, E: Write>(
    console: &mut Console<O, E>,
    arguments: &[&str],
    problem: &Problem,
) -> Result<Status, Stop> {
    reject_line(console, Line(None), arguments, problem)
}

/// The same for arguments that are a line of standard input.
pub fn reject_line<O: Write, E: Write>(
    console: &mut Console<O, E>,
    line: Line,
    arguments: &[&str],
    problem: &Problem,
) -> Result<Status, Stop> {
    let Problem::Invalid(invalid) = problem else {
        return Err(Stop::OutOfMemory);
    };
    let argument = arguments.get(invalid.place).copied().unwrap_or("");
    let kind = match invalid.kind {
        Kind::Range => "range",
        Kind::Version => "version",
        Kind::Package => "package",
        Kind::Reference => "reference",
        Kind::Step => "increment",
    };
    let errors = errors_of(console.alloc, console.options.flavour, argument, invalid)?;
    let message = match url_behind(argument) {
        Some(message) => message,
        None => message_of(argument, &errors, invalid.failure.message()),
    };
    if console.options.json {
        let error = Object::new(console.alloc)
            .put_text("kind", Some(kind))
            .put_text("argument", Some(argument))
            .put_text("message", Some(message));
        let error = add_first(console.alloc, error, argument, &errors);
        let json = Object::new(console.alloc).put("error", error.into_json());
        console.json(json.into_json())?;
        return Ok(Status::Rejected);
    }
    let status = console.complain(format_args!("{line}{kind} {}", Quoted(argument)), message);
    let grammar = match invalid.kind {
        Kind::Range | Kind::Package => Some(console.options.flavour),
        Kind::Reference => Some(Flavour::Specifier),
        Kind::Version | Kind::Step => None,
    };
    let style = console.terminal.err;
    // What can't be written to standard error is left out.
    let _ = print_errors(&mut console.err, style, argument, &errors, grammar);
    Ok(status)
}

// What the crates below name in another way in their JSON, and its name here.
const NAMES: [(&str, &str); 2] = [("normal", "canonical"), ("requirement", "range")];

// Gives the members of an object this program's names.
fn rename(alloc: Global, json: &mut Value) -> Result<(), AllocError> {
    if let Value::Object(members) = json {
        for (old, new) in &NAMES {
            if let Some(value) = members.remove(*old) {
                put(members, alloc, new, value)?;
            }
        }
    }
    Ok(())
}

/// Prints JSON of the crates below under this program's names.
pub fn print_json<O: Write, E: Write>(
    console: &mut Console<O, E>,
    json: Result<Value, AllocError>,
) -> Result<(), Stop> {
    let mut json = json?;
    rename(console.alloc, &mut json)?;
    if let Some(package) = json.get_mut("package") {
        rename(console.alloc, package)?;
    }
    console.json(Ok(json))
}

/// Prints the tag that a range is.
pub fn print_tag<O: Write, E: Write>(
    console: &mut Console<O, E>,
    tag: &str,
) -> Result<Status, Stop> {
    if console.options.json {
        console.json(field_json(console.alloc, "tag", Some(tag)))?;
    } else {
        print_line(&mut console.out, format_args!("tag {tag}"))?;
    }
    console.question(tag);
    Ok(Status::Tag)
}

/// Prints an answer, in JSON under this name, or that there is none.
pub fn print_answer<O: Write, E: Write>(
    console: &mut Console<O, E>,
    name: &str,
    answer: Option<&str>,
) -> Result<Status, Stop> {
    if console.options.json {
        console.json(field_json(console.alloc, name, answer))?;
    } else {
        let (text, end) = (answer.unwrap_or("none"), console.options.line_end());
        write!(console.out, "{text}{end}")?;
    }
    Ok(Status::of(answer.is_some()))
}

// The JSON of one field.
fn field_json(alloc: Global, name: &str, text: Option<&str>) -> Result<Value, AllocError> {
    Object::new(alloc).put_text(name, text).into_json()
}

// The text of the lowest version that was found, if there is one; with a tag or an invalid argument the command ends.
fn lowest_text<O: Write, E: Write>(
    console: &mut Console<O, E>,
    texts: &[&str],
    answer: Result<Answer<Option<Version>>, Problem>,
) -> Result<Option<String>, Stop> {
    match answer {
        Ok(Answer::Value(Some(lowest))) => Ok(Some(text_of_version(console.alloc, &lowest)?)),
        Ok(Answer::Value(None)) => Ok(None),
        Ok(Answer::Tag(tag)) => Err(Stop::Ended(print_tag(console, tag.as_str())?)),
        Err(problem) => Err(Stop::Ended(reject(console, texts, &problem)?)),
    }
}

/// `ranges common RANGE RANGE..` and `ranges min RANGE`: the lowest version that all match, or `none`.
pub fn common<O: Write, E: Write>(
    console: &mut Console<O, E>,
    given: Given<'_, '_>,
) -> Result<Status, Stop> {
    let texts = given.texts(console.alloc, "RANGE")?;
    let texts = texts.as_slice();
    let options = console.options;
    let answer = common_version(console.alloc, options.flavour, options.pre_release, texts);
    let lowest = lowest_text(console, texts, answer)?;
    print_answer(console, "version", lowest.as_deref())
}

/// `ranges within NEW OLD`: `yes`, or `no` and the lowest version that only NEW allows.
pub fn within<O: Write, E: Write>(
    console: &mut Console<O, E>,
    given: Given<'_, '_>,
) -> Result<Status, Stop> {
    let (new, old) = (given.text("NEW"), given.text("OLD"));
    let options = console.options;
    let answer = version_outside(
        console.alloc,
        options.flavour,
        options.pre_release,
        new,
        old,
    );
    let lowest = lowest_text(console, &[new, old], answer)?;
    let lowest = lowest.as_deref();
    if options.json {
        let json = Object::new(console.alloc).put("within", Ok(Value::Bool(lowest.is_none())));
        let json = match lowest {
            Some(_) => json.put_text("version", lowest),
            None => json,
        };
        console.json(json.into_json())?;
    } else {
        match lowest {
            Some(version) => print_line(&mut console.out, format_args!("no {version}"))?,
            None => print_line(&mut console.out, "yes")?,
        }
    }
    Ok(Status::of(lowest.is_none()))
}

/// `ranges compare ONE OTHER`: `<`, `=` or `>`, as the first version comes before the other, is equal, or comes behind it.
pub fn compare<O: Write, E: Write>(
    console: &mut Console<O, E>,
    given: Given<'_, '_>,
) -> Result<Status, Stop> {
    let (one, other) = (given.text("ONE"), given.text("OTHER"));
    let sign = match order(console.alloc, one, other) {
        Ok(Ordering::Less) => "<",
        Ok(Ordering::Equal) => "=",
        Ok(Ordering::Greater) => ">",
        Err(problem) => return reject(console, &[one, other], &problem),
    };
    print_answer(console, "order", Some(sign))
}

/// `ranges overlap RANGE RANGE..`: `yes` if any two ranges match a version in common, or `no` and the first two that don't, or a tag.
pub fn overlap<O: Write, E: Write>(
    console: &mut Console<O, E>,
    given: Given<'_, '_>,
) -> Result<Status, Stop> {
    let texts = given.texts(console.alloc, "RANGE")?;
    let texts = texts.as_slice();
    let options = console.options;
    let ranges = match ranges(console.alloc, options.flavour, texts) {
        Ok(ranges) => ranges,
        Err(problem) => return reject(console, texts, &problem),
    };
    if let Some(tag) = ranges.iter().find_map(|range| range.tag()) {
        return print_tag(console, tag);
    }
    let apart = first_apart(console.alloc, ranges.as_slice(), options.pre_release)?;
    let apart = match apart {
        Some((one, other)) => Some((
            texts.get(one).copied().unwrap_or(""),
            texts.get(other).copied().unwrap_or(""),
        )),
        None => None,
    };
    if options.json {
        let alloc = console.alloc;
        let json = Object::new(alloc).put("overlap", Ok(Value::Bool(apart.is_none())));
        let json = match apart {
            Some((one, other)) => {
                let one = Value::try_from_str(alloc, one)?;
                let other = Value::try_from_str(alloc, other)?;
                json.put("apart", Ok(Value::Array(vec![in alloc; one, other]?)))
            }
            None => json,
        };
        console.json(json.into_json())?;
    } else {
        match apart {
            Some((one, other)) => print_line(
                &mut console.out,
                format_args!("no \"{}\" and \"{}\"", Shown(one), Shown(other)),
            )?,
            None => print_line(&mut console.out, "yes")?,
        }
    }
    Ok(Status::of(apart.is_none()))
}

// Prints the canonical form of a range, or its tag.
fn print_canonical<O: Write, E: Write>(
    console: &mut Console<O, E>,
    line: Line,
    text: &str,
) -> Result<Status, Stop> {
    let range = match range(console.alloc, console.options.flavour, 0, text) {
        Ok(range) => range,
        Err(problem) => return reject_line(console, line, &[text], &problem),
    };
    if let Some(tag) = range.tag() {
        return print_tag(console, tag);
    }
    let canonical = range.to_string_normalized(console.alloc)?;
    print_answer(console, "canonical", Some(canonical.as_str()))
}

/// `ranges canonical RANGE..`: the canonical form of each range, or its tag, and for `-` those of the lines of standard input.
pub fn canonical<R: Input, O: Write, E: Write>(
    rt: &R,
    console: &mut Console<O, E>,
    given: Given<'_, '_>,
) -> Result<Status, Stop> {
    let mut status = Status::Answered;
    for text in given.matches.get_strs("RANGE").unwrap_or(&[]) {
        if *text != "-" {
            status = status.worse(print_canonical(console, Line(None), text)?);
            continue;
        }
        let input = read_ranges(rt, console)?;
        for (place, text) in input.as_str().lines().enumerate() {
            if !text.is_empty() {
                let line = Line(Some(place.saturating_add(1)));
                status = status.worse(print_canonical(console, line, text)?);
            }
        }
    }
    Ok(status)
}
