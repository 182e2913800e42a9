//! Unified diffs of texts with the same number of lines.

use std::alloc::{AllocError, Global};
use std::io::Write;
use terminal::console::{Console, END, Stop, Style};

// What begins a header, the numbers of lines, a line that goes, and one that comes: the colours of `git diff`.
const HEADER: &str = "\x1b[1m";

const NUMBERS: &str = "\x1b[36m";

const REMOVED: &str = "\x1b[31m";

const ADDED: &str = "\x1b[32m";

// So many lines are shown before and behind one that differs.
const CONTEXT: usize = 3;

// A line of both texts.
#[derive(Clone, Copy)]
struct Line<'t> {
    old: &'t str,
    new: &'t str,
}

impl Line<'_> {
    fn differs(&self) -> bool {
        self.old != self.new
    }
}

// The lines of both texts, each with what ends it.
fn lines<'t>(alloc: Global, old: &'t str, new: &'t str) -> Result<Vec<Line<'t>>, AllocError> {
    let mut lines = Vec::new(alloc);
    for (old, new) in old.split_inclusive('\n').zip(new.split_inclusive('\n')) {
        lines.push(Line { old, new })?;
    }
    Ok(lines)
}

// Whether a line is shown: one near it differs.
fn is_shown(lines: &[Line<'_>], place: usize) -> bool {
    let end = place
        .saturating_add(CONTEXT)
        .saturating_add(1)
        .min(lines.len());
    let near = lines.get(place.saturating_sub(CONTEXT)..end);
    near.unwrap_or(&[]).iter().any(|line| line.differs())
}

// How many lines from a place on are shown.
fn shown_from(lines: &[Line<'_>], place: usize) -> usize {
    let mut count = 0usize;
    for at in place..lines.len() {
        if !is_shown(lines, at) {
            break;
        }
        count = count.saturating_add(1);
    }
    count
}

// The name of a file in a header: behind a first name, which git takes off, but for standard input and for a path from the top of the
// system. As git writes it, in quotes if it has control characters.
fn name_in_header(alloc: Global, first: &str, path: &str) -> Result<String, AllocError> {
    let first = if path == "-" || path.starts_with('/') {
        ""
    } else {
        first
    };
    if !path.contains(|c: char| c.is_ascii_control()) {
        return format!(in alloc; "{first}{path}");
    }
    let mut name = format!(in alloc; "\"{first}")?;
    for c in path.chars() {
        match c {
            '\t' => name.push_str("\\t")?,
            '\n' => name.push_str("\\n")?,
            '"' | '\\' => {
                name.push('\\')?;
                name.push(c)?;
            }
            c if c.is_ascii_control() => {
                let code = u32::from(c);
                let (high, middle, low) = (code / 64, code / 8 % 8, code % 8);
                name.push_str(format!(in alloc; "\\{high}{middle}{low}")?.as_str())?;
            }
            c => name.push(c)?,
        }
    }
    name.push('"')?;
    Ok(name)
}

// Prints a line behind a sign.
fn print_line<O: Write>(out: &mut O, style: Style, sign: char, line: &str) -> Result<(), Stop> {
    let text = line.strip_suffix('\n').unwrap_or(line);
    let (start, end) = match sign {
        '-' => (style.code(REMOVED), style.code(END)),
        '+' => (style.code(ADDED), style.code(END)),
        _ => ("", ""),
    };
    writeln!(out, "{start}{sign}{text}{end}")?;
    if text.len() == line.len() {
        out.write_all(b"\\ No newline at end of file\n")?;
    }
    Ok(())
}

// Prints lines that are shown, of which each run that differs as it was, and then as it is.
fn print_hunk<O: Write>(out: &mut O, style: Style, hunk: &[Line<'_>]) -> Result<(), Stop> {
    let mut added = 0usize;
    for (place, line) in hunk.iter().enumerate() {
        if line.differs() {
            print_line(out, style, '-', line.old)?;
        } else {
            print_line(out, style, ' ', line.old)?;
        }
        let next = place.saturating_add(1);
        let ends = !hunk.get(next).is_some_and(|next| next.differs());
        if ends {
            for line in hunk.get(added..next).unwrap_or(&[]) {
                if line.differs() {
                    print_line(out, style, '+', line.new)?;
                }
            }
            added = next;
        }
    }
    Ok(())
}

/// Prints what differs between two texts of a file.
pub fn print_diff<'t, O: Write, E: Write>(
    console: &mut Console<O, E>,
    path: &str,
    old: &'t str,
    new: &'t str,
) -> Result<(), Stop> {
    let lines = lines(console.alloc, old, new)?;
    let lines = lines.as_slice();
    let before = name_in_header(console.alloc, "a/", path)?;
    let behind = name_in_header(console.alloc, "b/", path)?;
    let (out, style) = (&mut console.out, console.terminal.out);
    let (header, numbers, end) = (style.code(HEADER), style.code(NUMBERS), style.code(END));
    writeln!(out, "{header}--- {}{end}", before.as_str())?;
    writeln!(out, "{header}+++ {}{end}", behind.as_str())?;
    let mut done = 0usize;
    for place in 0..lines.len() {
        if place < done || !is_shown(lines, place) {
            continue;
        }
        let count = shown_from(lines, place);
        let first = place.saturating_add(1);
        match count {
            1 => writeln!(out, "{numbers}@@ -{first} +{first} @@{end}")?,
            _ => writeln!(out, "{numbers}@@ -{first},{count} +{first},{count} @@{end}")?,
        }
        done = place.saturating_add(count);
        print_hunk(out, style, lines.get(place..done).unwrap_or(&[]))?;
    }
    Ok(())
}
