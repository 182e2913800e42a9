//! Texts of the input in messages.

use std::fmt;

// A longer text is shown in part.
const LONG: usize = 200;

/// The part of a text between two indexes.
pub fn part(text: &str, start: usize, end: usize) -> &str {
    text.get(start..end).unwrap_or("")
}

/// A text whose control characters, but tabs, are escaped, so that none reaches a terminal.
#[derive(Clone, Copy)]
pub struct Shown<'a>(pub &'a str);

/// Whether a character is shown escaped, as `\u{1b}`.
pub fn is_escaped(c: char) -> bool {
    c.is_control() && c != '\t'
}

impl fmt::Display for Shown<'_> {
    fn fmt<W: fmt::Write>(&self, f: &mut fmt::Formatter<W>) -> fmt::Result {
        for c in self.0.chars() {
            if is_escaped(c) {
                write!(f, "{}", c.escape_unicode())?;
            } else {
                f.write_char(c)?;
            }
        }
        Ok(())
    }
}

/// A text in quotes, of which only the front is shown if it is long.
#[derive(Clone, Copy)]
pub struct Quoted<'a>(pub &'a str);

impl fmt::Display for Quoted<'_> {
    fn fmt<W: fmt::Write>(&self, f: &mut fmt::Formatter<W>) -> fmt::Result {
        let text = self.0;
        let front = text.get(..text.floor_char_boundary(LONG)).unwrap_or(text);
        let more = if front.len() < text.len() { ".." } else { "" };
        write!(f, "\"{}{more}\"", Shown(front))
    }
}
