//! The versions of a command: its arguments, or standard input, as lines or as a JSON array.

use crate::console::{Console, Status, Stop};
use crate::shown::Quoted;
use clap::ArgMatches;
use semver_base::version::Version;
use serde_json::Value;
use std::alloc::{AllocError, Global};
use std::io;
use std::io::{BufRead, BufReader, ErrorKind, Read, Write};

// What stands for standard input.
pub(crate) const HYPHEN: &str = "-";

// The place of a text that may be a version.
#[derive(Clone, Copy)]
enum Place {
    /// An argument of the command.
    Argument,
    /// The line or the item of standard input with this number, counted from 1.
    Input(&'static str, u64),
}

/// What to do with each version.
pub trait Take {
    /// Takes a version, and the text that it was parsed from.
    fn take<O: Write, E: Write>(
        &mut self,
        console: &mut Console<O, E>,
        text: &str,
        version: Version,
    ) -> Result<(), Stop>;

    /// Whether no further version changes the answer.
    fn is_done(&self) -> bool;
}

// What counts of a line of git with the name of a tag that begins so; none if nothing does.
fn behind_prefix<'t>(line: &'t str, prefix: &str) -> Option<&'t str> {
    if line.ends_with("^{}") {
        // The line repeats the tag before it.
        return None;
    }
    let (_, tag) = line.split_once("refs/tags/").unwrap_or(("", line));
    tag.strip_prefix(prefix)
}

// Takes a text if it is a version, or with a prefix, which may be empty, a line of git with the name of a tag that is one behind it;
// reports an invalid one, unless such are passed over.
fn take_one<O: Write, E: Write, T: Take>(
    console: &mut Console<O, E>,
    taker: &mut T,
    prefix: Option<&str>,
    text: &str,
    place: Place,
) -> Result<Status, Stop> {
    let text = match prefix {
        Some(prefix) => match behind_prefix(text, prefix) {
            Some(tag) => tag,
            None => return Ok(Status::Answered),
        },
        None => text,
    };
    let failure = match Version::parse_standard(console.alloc, text) {
        Ok(version) => {
            taker.take(console, text, version)?;
            return Ok(Status::Answered);
        }
        Err(error) => error.source,
    };
    if failure.is_memory() {
        return Err(Stop::OutOfMemory);
    }
    if console.options.skip_invalid {
        return Ok(Status::Answered);
    }
    match place {
        // With another argument it doesn't stand for standard input.
        Place::Argument if text == HYPHEN => {
            Ok(console.complain(HYPHEN, "stands alone, without versions beside it"))
        }
        Place::Argument => console.reject_version(text, &failure),
        Place::Input(what, number) => {
            let text = Quoted(text);
            let subject = format_args!("{what} {number}: version {text}");
            Ok(console.complain(subject, failure.message()))
        }
    }
}

// The text without the byte order mark with which some programs begin UTF-8.
fn without_mark(text: &[u8]) -> &[u8] {
    match text {
        [0xef, 0xbb, 0xbf, rest @ ..] => rest,
        _ => text,
    }
}

// Takes a line of standard input; one without text is passed over.
fn take_line<O: Write, E: Write, T: Take>(
    console: &mut Console<O, E>,
    taker: &mut T,
    prefix: Option<&str>,
    number: u64,
    line: &[u8],
) -> Result<Status, Stop> {
    let bytes = if number == 1 {
        without_mark(line)
    } else {
        line
    };
    let Ok(text) = str::from_utf8(bytes) else {
        if console.options.skip_invalid {
            return Ok(Status::Answered);
        }
        return Ok(console.complain(format_args!("line {number}"), "not valid UTF-8"));
    };
    let text = text.trim_end_matches(['\n', '\r', '\0'].as_slice());
    let place = Place::Input("line", number);
    // Most lines are versions as they are.
    if matches!(text.as_bytes(), [b'0'..=b'9' | b'v', ..]) {
        return take_one(console, taker, prefix, text, place);
    }
    let bare = text.trim();
    if bare.is_empty() {
        return Ok(Status::Answered);
    }
    // A JSON string, as `jq` prints one on a line.
    if let Some(rest) = bare.strip_prefix('"')
        && let Some(raw) = rest.strip_suffix('"')
    {
        let text = unescaped(console.alloc, raw)?;
        return take_one(console, taker, prefix, text.as_str(), place);
    }
    take_one(console, taker, prefix, text, place)
}

// Takes the items of all that the input holds, of which `line` was read: a JSON array of texts that begins in the line with this number.
fn take_json<I: BufRead, O: Write, E: Write, T: Take>(
    console: &mut Console<O, E>,
    taker: &mut T,
    prefix: Option<&str>,
    input: &mut I,
    number: u64,
    line: &mut Vec<u8>,
) -> Result<Status, Stop> {
    if let Err(error) = input.read_to_end(line) {
        return Err(Stop::of(error, Stop::Unread));
    }
    let Ok(text) = str::from_utf8(without_mark(line.as_slice())) else {
        return Ok(console.complain("standard input", "not valid UTF-8"));
    };
    match Value::from_str(console.alloc, text) {
        Ok(json) => take_items(console, taker, prefix, &json),
        Err(error) if error.is_memory() => Err(Stop::OutOfMemory),
        Err(error) => {
            let number = number.saturating_add(error.line() as u64).saturating_sub(1);
            let front = text.trim_start_matches(['[', ' ', '\n', '\r'].as_slice());
            let message = if front.starts_with('\'') {
                "not valid JSON: npm view prints JSON with --json"
            } else {
                "not valid JSON"
            };
            Ok(console.complain(format_args!("line {number}"), message))
        }
    }
}

// Takes the items of a JSON array of texts.
fn take_items<O: Write, E: Write, T: Take>(
    console: &mut Console<O, E>,
    taker: &mut T,
    prefix: Option<&str>,
    json: &Value,
) -> Result<Status, Stop> {
    let Some(items) = json.as_array() else {
        return Ok(console.complain("standard input", "expected a JSON array of versions"));
    };
    let (mut status, mut number) = (Status::Answered, 0u64);
    for item in items.iter() {
        number = number.saturating_add(1);
        let taken = match item.as_str() {
            Some(text) => take_one(console, taker, prefix, text, Place::Input("item", number))?,
            None if console.options.skip_invalid => Status::Answered,
            None => console.complain(format_args!("item {number}"), "not a string"),
        };
        status = status.worse(taken);
    }
    Ok(status)
}

/// The text that JSON means by this part between two quotes.
pub fn unescaped(alloc: Global, raw: &str) -> Result<String, AllocError> {
    if !raw.contains('\\') {
        return String::from_str(alloc, raw);
    }
    let quoted = format!(in alloc; "\"{raw}\"")?;
    match Value::from_str(alloc, quoted.as_str()) {
        Ok(value) => String::from_str(alloc, value.as_str().unwrap_or(raw)),
        Err(error) if error.is_memory() => Err(AllocError),
        Err(_) => String::from_str(alloc, raw),
    }
}

/// All of standard input, a range per line.
pub fn read_ranges<R: Input, O: Write, E: Write>(
    rt: &R,
    console: &mut Console<O, E>,
) -> Result<String, Stop> {
    console.announce("ranges");
    let mut text = String::new(console.alloc);
    match rt.reader().read_to_string(&mut text) {
        Ok(_) => Ok(text),
        Err(error) => Err(unread(console, error)),
    }
}

// Why a command stops where standard input can't be read; what isn't text is reported at once.
pub(crate) fn unread<O: Write, E: Write>(console: &mut Console<O, E>, error: io::Error) -> Stop {
    match error.kind() {
        ErrorKind::InvalidData => {
            Stop::Ended(console.complain("standard input", "not valid UTF-8"))
        }
        _ => Stop::of(error, Stop::Unread),
    }
}

// Takes each of the arguments.
fn take_arguments<O: Write, E: Write, T: Take>(
    console: &mut Console<O, E>,
    arguments: &[&str],
    prefix: Option<&str>,
    taker: &mut T,
) -> Result<Status, Stop> {
    let mut status = Status::Answered;
    for text in arguments {
        status = status.worse(take_one(console, taker, prefix, text, Place::Argument)?);
    }
    Ok(status)
}

// Takes a line, and shows what it gave on a terminal.
fn answer_line<O: Write, E: Write, T: Take>(
    console: &mut Console<O, E>,
    taker: &mut T,
    prefix: Option<&str>,
    number: u64,
    line: &[u8],
) -> Result<Status, Stop> {
    let status = take_line(console, taker, prefix, number, line)?;
    console.end_part()?;
    Ok(status)
}

// Takes each line of the input, or all of it if it begins with a JSON array or object.
fn take_lines<I: BufRead, O: Write, E: Write, T: Take>(
    console: &mut Console<O, E>,
    input: &mut I,
    prefix: Option<&str>,
    taker: &mut T,
) -> Result<Status, Stop> {
    let mut status = Status::Answered;
    let end = if console.options.null { 0 } else { b'\n' };
    let mut line = Vec::new(console.alloc);
    let mut is_front = true;
    for number in 1..u64::MAX {
        line.clear();
        match input.read_until(end, &mut line) {
            Ok(0) => break,
            Ok(_) => (),
            Err(error) => return Err(Stop::of(error, Stop::Unread)),
        }
        let text = without_mark(line.as_slice()).trim_ascii_start();
        if is_front && matches!(text, [b'[' | b'{', ..]) {
            return take_json(console, taker, prefix, input, number, &mut line);
        }
        is_front &= line.as_slice().trim_ascii().is_empty();
        status = status.worse(answer_line(console, taker, prefix, number, line.as_slice())?);
        if taker.is_done() {
            break;
        }
    }
    Ok(status)
}

// The prefix of git's tags that versions stand behind, if they are such.
fn prefix_of<'m>(matches: &'m ArgMatches<'_>) -> Option<&'m str> {
    match matches.get_str("tag-prefix") {
        None if matches.get_flag("tags") => Some(""),
        prefix => prefix,
    }
}

/// Takes each version among the arguments, or without any and for `-` each line of standard input, until no further one counts, or all
/// of it if it begins with a JSON array or object. The status is that of invalid arguments if one isn't a version.
pub fn take_all<R: Input, O: Write, E: Write, T: Take>(
    rt: &R,
    console: &mut Console<O, E>,
    matches: &ArgMatches<'_>,
    taker: &mut T,
) -> Result<Status, Stop> {
    let arguments = matches.get_strs("VERSION").unwrap_or(&[]);
    let prefix = prefix_of(matches);
    if !arguments.is_empty() && arguments != [HYPHEN].as_slice() {
        return take_arguments(console, arguments, prefix, taker);
    }
    console.announce("versions");
    let mut input = BufReader::new(console.alloc, rt.reader())?;
    take_lines(console, &mut input, prefix, taker)
}
