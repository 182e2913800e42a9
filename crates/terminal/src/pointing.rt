//! Where an invalid range leaves its grammar, and what could stand there.

use crate::console::{CARET, Console, END, Status, Stop, Style};
use crate::hints::hint;
use crate::shown::{Quoted, Shown, is_escaped, part};
use semver_base::failure::ParseFailure;
use semver_req::common::values::Flavour;
use semver_req::error_places::causes::Cause;
use semver_req::error_places::expected::{Expected, Kind};
use semver_req::error_places::pieces::InvalidPiece;
use semver_req::error_places::{version_error_place, version_may_follow};
use std::alloc::{AllocError, Global};
use std::fmt;
use std::io::Write;
use unicode_width::UnicodeWidthChar;

// A longer text is shown in part: so many bytes before the place and after it.
const LONG: usize = 120;

const BEFORE: usize = 60;

const AFTER: usize = 40;

// How many names of what is expected are listed.
const MANY: usize = 5;

// What may follow in a version's text, in the order in which it is listed.
const OF_VERSIONS: [Kind; 8] = [
    Kind::Digit,
    Kind::V,
    Kind::Letter,
    Kind::Dot,
    Kind::Hyphen,
    Kind::Plus,
    Kind::Equals,
    Kind::Space,
];

/// Where a text that isn't a version goes wrong, and what is expected there.
pub fn version_errors(alloc: Global, text: &str) -> Result<Vec<InvalidPiece>, AllocError> {
    let place = version_error_place(alloc, text)?;
    let mut kinds = Vec::new(alloc);
    for kind in &OF_VERSIONS {
        if version_may_follow(alloc, part(text, 0, place), kind.text())? {
            kinds.push(*kind)?;
        }
    }
    let expected = Expected {
        kinds,
        may_end: false,
    };
    let error = InvalidPiece {
        start: 0,
        end: text.len(),
        place,
        cause: Cause::Unexpected(expected),
    };
    Ok(vec![in alloc; error]?)
}

/// Prints the text with a caret under a place, and a note behind it.
pub fn print_caret<O: Write, T: fmt::Display + Drop>(
    out: &mut O,
    style: Style,
    text: &str,
    place: usize,
    note: T,
) -> Result<(), Stop> {
    let (start, end) = if text.len() <= LONG {
        (0, text.len())
    } else {
        let start = text.floor_char_boundary(place.saturating_sub(BEFORE));
        (start, text.floor_char_boundary(place.saturating_add(AFTER)))
    };
    let before = part(text, start, place);
    writeln!(out, "  | {}", Shown(part(text, start, end)))?;
    let (caret, end) = (style.code(CARET), style.code(END));
    Ok(writeln!(out, "  | {}{caret}^{note}{end}", Padding(before))?)
}

/// Prints the text with a caret under the place of an error, what is expected there, and a hint if there is one. It is the error of a range
/// in this grammar, or of a version.
pub fn print_error<O: Write>(
    out: &mut O,
    style: Style,
    text: &str,
    error: &InvalidPiece,
    grammar: Option<Flavour>,
) -> Result<(), Stop> {
    let expectation = Expectation(error, text);
    let note = format_args!(" {expectation}");
    print_caret(out, style, text, error.place, note)?;
    match hint(text, error, grammar) {
        Some(hint) => Ok(writeln!(out, "  = {hint}")?),
        None => Ok(()),
    }
}

impl<O: Write, E: Write> Console<O, E> {
    /// Reports that an argument isn't a version, and where it goes wrong.
    pub fn reject_version(&mut self, text: &str, failure: &ParseFailure) -> Result<Status, Stop> {
        let errors = version_errors(self.alloc, text)?;
        let status = self.complain(format_args!("version {}", Quoted(text)), failure.message());
        for error in &errors {
            let _ = print_error(&mut self.err, self.terminal.err, text, error, None);
        }
        if text.starts_with(['^', '~', '<', '>'].as_slice()) {
            let _ = writeln!(self.err, "  = the range is the first argument");
        }
        Ok(status)
    }
}

// As many columns as a text takes where it is shown; tabs stay tabs.
#[derive(Clone, Copy)]
struct Padding<'a>(&'a str);

impl fmt::Display for Padding<'_> {
    fn fmt<W: fmt::Write>(&self, f: &mut fmt::Formatter<W>) -> fmt::Result {
        for c in self.0.chars() {
            match (c, c.width()) {
                ('\t', _) => f.write_str("\t")?,
                (c, _) if is_escaped(c) => write!(f, "{:1$}", "", c.escape_unicode().count())?,
                (_, Some(1)) => f.write_str(" ")?,
                (_, Some(2)) => f.write_str("  ")?,
                (_, _) => (),
            }
        }
        Ok(())
    }
}

// What is expected at a place, in plain words.
#[derive(Clone, Copy)]
struct Expectation<'a>(&'a InvalidPiece, &'a str);

impl fmt::Display for Expectation<'_> {
    fn fmt<W: fmt::Write>(&self, f: &mut fmt::Formatter<W>) -> fmt::Result {
        let Expectation(error, text) = self;
        match &error.cause {
            Cause::NumberTooLarge => f.write_str("the number exceeds 18446744073709551615"),
            Cause::BoundTooLarge => f.write_str("a bound exceeds 18446744073709551615"),
            Cause::Empty => f.write_str("expected a range"),
            Cause::NoTag => f.write_str("neither a range nor a tag goes on like this"),
            Cause::Unexpected(expected) => {
                let names = Names {
                    expected,
                    before: part(text, 0, error.place),
                };
                write!(f, "expected {names}")
            }
        }
    }
}

// What could stand behind a text, as a list.
#[derive(Clone, Copy)]
struct Names<'a> {
    expected: &'a Expected,
    before: &'a str,
}

impl Names<'_> {
    fn has(&self, kind: Kind) -> bool {
        self.expected.kinds.as_slice().contains(&kind)
    }

    // The name of an expected kind, if it is to be listed; a comparator includes all that one may begin with.
    fn name(&self, kind: Kind) -> Option<&'static str> {
        let has_comparators = self.has(Kind::Tilde);
        match kind {
            Kind::Digit if has_comparators => Some("a comparator"),
            Kind::Star | Kind::Tilde | Kind::Caret | Kind::Less | Kind::Greater | Kind::Equals
                if has_comparators => { None }
            Kind::Digit if self.has(Kind::Letter) || !self.has(Kind::Star) => Some("a digit"),
            Kind::Digit => Some("a number"),
            Kind::Star => Some("a wildcard"),
            Kind::Letter => Some("a letter"),
            Kind::X | Kind::V => None,
            Kind::Space => Some("whitespace"),
            // They are legal, and node-semver rejects them.
            Kind::Comma => None,
            Kind::And if !self.before.ends_with('&') => None,
            Kind::Bar if !self.before.ends_with('|') => Some("`||`"),
            Kind::Dot => Some("`.`"),
            Kind::Hyphen => Some("`-`"),
            Kind::Plus => Some("`+`"),
            Kind::Caret => Some("`^`"),
            Kind::Less => Some("`<`"),
            Kind::Greater => Some("`>`"),
            Kind::Equals => Some("`=`"),
            Kind::And => Some("`&`"),
            Kind::Bar => Some("`|`"),
            kind => Some(kind.text()),
        }
    }
}

impl Names<'_> {
    // Whether an expected kind is left out, so that the list stays short: what people mean least often.
    fn is_left_out(&self, kind: Kind) -> bool {
        let kinds = self.expected.kinds.iter();
        let names = kinds.filter_map(|kind| self.name(*kind)).count();
        let many = if self.expected.may_end {
            MANY - 1
        } else {
            MANY
        };
        // In a pre-release a letter is meant, and directly behind three numbers it isn't.
        let is_identifier = self.has(Kind::Dot) || self.before.ends_with('.');
        let order = if self.has(Kind::Letter) && is_identifier {
            [Kind::Plus, Kind::Hyphen, Kind::Bar]
        } else {
            [Kind::Plus, Kind::Letter, Kind::Bar]
        };
        let listed = order.iter().filter(|it| self.has(**it));
        let mut out = listed.take(names.saturating_sub(many));
        out.any(|it| *it == kind)
    }
}

impl fmt::Display for Names<'_> {
    fn fmt<W: fmt::Write>(&self, f: &mut fmt::Formatter<W>) -> fmt::Result {
        let end = if self.expected.may_end {
            Some("the end")
        } else {
            None
        };
        let mut last = None;
        let mut is_first = true;
        let kinds = self.expected.kinds.iter();
        let kinds = kinds.filter(|kind| !self.is_left_out(**kind));
        for name in kinds.filter_map(|kind| self.name(*kind)).chain(end) {
            if let Some(last) = last.replace(name) {
                if !is_first {
                    f.write_str(", ")?;
                }
                f.write_str(last)?;
                is_first = false;
            }
        }
        if !is_first {
            f.write_str(" or ")?;
        }
        f.write_str(last.unwrap_or(""))
    }
}
