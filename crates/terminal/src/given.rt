//! The texts that a command is given, of which one may be a line of standard input.

use crate::console::{Console, Status, Stop};
use crate::input::{HYPHEN, unescaped, unread};
use clap::ArgMatches;
use std::alloc::{AllocError, Global};
use std::io::{BufRead, BufReader, Read, Write};

/// The arguments of a command, and what a `-` among them stands for.
#[derive(Clone, Copy)]
pub struct Given<'g, 'm> {
    pub matches: &'g ArgMatches<'m>,
    line: Option<&'g str>,
}

// The texts of these arguments that stand for standard input.
fn hyphens(matches: &ArgMatches<'_>, names: &[&str]) -> usize {
    let mut count = 0usize;
    for name in names {
        let texts = matches.get_strs(name).unwrap_or(&[]);
        let here = texts.iter().filter(|text| **text == HYPHEN).count();
        count = count.saturating_add(here);
    }
    count
}

// The one line of a text, which may be a JSON string.
fn only_line(alloc: Global, text: &str) -> Result<Option<String>, AllocError> {
    let text = text.strip_prefix('\u{feff}').unwrap_or(text);
    let line = text.trim_matches(['\n', '\r'].as_slice());
    if line.contains('\n') {
        return Ok(None);
    }
    match line
        .strip_prefix('"')
        .and_then(|rest| rest.strip_suffix('"'))
    {
        Some(raw) => Ok(Some(unescaped(alloc, raw)?)),
        None => Ok(Some(String::from_str(alloc, line)?)),
    }
}

/// What `-` stands for among the arguments with these names, if it is there: the one line of standard input. `is_read` says whether the
/// command reads more from there.
pub fn line_of<R: Input, O: Write, E: Write>(
    rt: &R,
    console: &mut Console<O, E>,
    matches: &ArgMatches<'_>,
    names: &[&str],
    is_read: bool,
) -> Result<Option<String>, Stop> {
    let count = hyphens(matches, names);
    if count == 0 {
        return Ok(None);
    }
    if count > 1 || is_read {
        let _ = console.complain(HYPHEN, "standard input is read only once");
        return Err(Stop::Ended(Status::Usage));
    }
    console.announce("one line");
    let mut text = String::new(console.alloc);
    let mut input = BufReader::new(console.alloc, rt.reader())?;
    // Who types ends the line, and no file.
    let read = if console.terminal.reads {
        input.read_line(&mut text)
    } else {
        input.read_to_string(&mut text)
    };
    if let Err(error) = read {
        return Err(unread(console, error));
    }
    let message = if text.as_str().trim().is_empty() {
        "standard input is empty"
    } else {
        match only_line(console.alloc, text.as_str())? {
            Some(line) => return Ok(Some(line)),
            None => "standard input has more than one line",
        }
    };
    Err(Stop::Ended(console.complain(HYPHEN, message)))
}

impl<'g, 'm> Given<'g, 'm> {
    /// The arguments of a command, of which `-` stands for a line.
    pub fn new(matches: &'g ArgMatches<'m>, line: Option<&'g str>) -> Given<'g, 'm> {
        Given { matches, line }
    }

    // What a text stands for.
    fn meant(&self, text: &'g str) -> &'g str {
        match self.line {
            Some(line) if text == HYPHEN => line,
            _ => text,
        }
    }

    /// The text of the argument with this name; an empty one if it isn't there.
    pub fn text(&self, name: &str) -> &'g str {
        match (self.matches.get_str(name), self.line) {
            (Some(HYPHEN), Some(line)) => line,
            (Some(text), _) => text,
            (None, _) => "",
        }
    }

    /// Whether the flag with this name was given.
    pub fn has(&self, name: &str) -> bool {
        self.matches.get_flag(name)
    }

    /// All texts of the argument with this name.
    pub fn texts(&self, alloc: Global, name: &str) -> Result<Vec<&'g str>, AllocError> {
        let mut texts = Vec::new(alloc);
        for text in self.matches.get_strs(name).unwrap_or(&[]) {
            texts.push(self.meant(text))?;
        }
        Ok(texts)
    }
}
