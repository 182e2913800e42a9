//! `ranges explain`: what a range means.

use crate::comparing::{Line, print_json, print_tag, reject_line};
use answers::explained::{Explanation, Matches, Meaning, Piece, explain};
use answers::explained_json::ranges_explained;
use checks::advice::notes;
use checks::rewriting::pieces_of;
use deno_semver::{PreRelease, RangeBound, Version, VersionBound, VersionBoundKind, VersionRange};
use semver_req::common::values::Flavour;
use std::fmt;
use std::io::Write;
use terminal::console::{BOUNDS, Console, END, ERROR, Status, Stop, Style, print_line};
use terminal::given::Given;
use terminal::input::read_ranges;
use terminal::pointing::print_error;
use terminal::shown::Shown;

// The bounds of a range as comparators, such as `>=1.2.0 <2.0.0`.
#[derive(Clone, Copy)]
struct Bounds<'a>(&'a VersionRange);

impl fmt::Display for Bounds<'_> {
    fn fmt<W: fmt::Write>(&self, f: &mut fmt::Formatter<W>) -> fmt::Result {
        match (&self.0.start, &self.0.end) {
            (RangeBound::Unbounded, RangeBound::Unbounded) => f.write_str("any version"),
            (RangeBound::Unbounded, RangeBound::Version(end)) => bound(f, '<', end),
            (RangeBound::Version(start), RangeBound::Unbounded) => bound(f, '>', start),
            (RangeBound::Version(start), RangeBound::Version(end)) => {
                bound(f, '>', start)?;
                f.write_str(" ")?;
                bound(f, '<', end)
            }
        }
    }
}

// A bound with its operator, which has a `=` if the version itself matches.
fn bound<W: fmt::Write>(
    f: &mut fmt::Formatter<W>,
    operator: char,
    bound: &VersionBound,
) -> fmt::Result {
    let equal = match bound.kind {
        VersionBoundKind::Inclusive => "=",
        VersionBoundKind::Exclusive => "",
    };
    write!(f, "{operator}{equal}{}", bound.version)
}

// Whether the range starts and ends at the same version.
fn has_one_version(range: &VersionRange) -> bool {
    match (&range.start, &range.end) {
        (RangeBound::Version(start), RangeBound::Version(end)) => start.version == end.version,
        _ => false,
    }
}

// The three numbers of a version.
#[derive(Clone, Copy)]
struct Numbers<'a>(&'a Version);

impl fmt::Display for Numbers<'_> {
    fn fmt<W: fmt::Write>(&self, f: &mut fmt::Formatter<W>) -> fmt::Result {
        write!(f, "{}.{}.{}", self.0.major, self.0.minor, self.0.patch)
    }
}

// Which pre-releases match, in plain words.
#[derive(Clone, Copy)]
struct PreReleases<'a> {
    matches: &'a Matches,
    pre_release: PreRelease,
}

impl fmt::Display for PreReleases<'_> {
    fn fmt<W: fmt::Write>(&self, f: &mut fmt::Formatter<W>) -> fmt::Result {
        if self.pre_release == PreRelease::Admitted {
            return f.write_str("pre-releases included");
        }
        match self.matches.pre_releases() {
            (Some(first), Some(second)) => {
                let (first, second) = (Numbers(first), Numbers(second));
                write!(f, "pre-releases of {first} and {second}")
            }
            (Some(only), None) | (None, Some(only)) => {
                write!(f, "pre-releases of {}", Numbers(only))
            }
            (None, None) => f.write_str("no pre-releases"),
        }
    }
}

// A piece, in plain words, and the line that it stands in, if it is left out.
#[derive(Clone, Copy)]
struct Explained<'a> {
    line: Line,
    piece: &'a Piece,
    pre_release: PreRelease,
    style: Style,
}

impl fmt::Display for Explained<'_> {
    fn fmt<W: fmt::Write>(&self, f: &mut fmt::Formatter<W>) -> fmt::Result {
        let text = self.piece.text.as_str().trim();
        if matches!(self.piece.meaning, Meaning::LeftOut(_)) {
            write!(f, "{}", self.line)?;
        }
        write!(f, "\"{}\": ", Shown(text))?;
        let style = self.style;
        let (error, bounds, end) = (style.code(ERROR), style.code(BOUNDS), style.code(END));
        let matches = match &self.piece.meaning {
            Meaning::Range(matches) => matches,
            Meaning::LeftOut(invalid) => {
                let message = invalid.cause.rejection().message();
                return write!(f, "{error}left out: {message}{end}");
            }
        };
        let Some(lowest) = &matches.lowest else {
            return f.write_str("no version matches");
        };
        if has_one_version(&matches.range) {
            return write!(f, "only {bounds}{lowest}{end}");
        }
        let pre_releases = PreReleases {
            matches,
            pre_release: self.pre_release,
        };
        let range = Bounds(&matches.range);
        write!(f, "{bounds}{range}{end}, {pre_releases}, lowest {lowest}")
    }
}

// What npm reads differently.
#[derive(Clone, Copy)]
struct Note<'a>(&'a str);

impl fmt::Display for Note<'_> {
    fn fmt<W: fmt::Write>(&self, f: &mut fmt::Formatter<W>) -> fmt::Result {
        write!(f, "note: {}", Shown(self.0))
    }
}

/// Whether one of the alternatives is left out.
pub fn has_left_out(pieces: &[Piece]) -> bool {
    pieces
        .iter()
        .any(|piece| matches!(piece.meaning, Meaning::LeftOut(_)))
}

// Prints each alternative on a line, an invalid one with its error, the canonical form, and what npm reads differently; or, without the
// last, JSON.
fn report_pieces<O: Write, E: Write>(
    console: &mut Console<O, E>,
    line: Line,
    text: &str,
    pieces: &[Piece],
    normal: &str,
) -> Result<Status, Stop> {
    let (alloc, options) = (console.alloc, console.options);
    let status = if has_left_out(pieces) {
        Status::Rejected
    } else {
        Status::Answered
    };
    if options.json {
        let json = ranges_explained(alloc, options.pre_release, pieces, normal);
        print_json(console, json)?;
    } else {
        let style = console.terminal.out;
        for piece in pieces {
            let pre_release = options.pre_release;
            print_line(
                &mut console.out,
                Explained {
                    line,
                    piece,
                    pre_release,
                    style,
                },
            )?;
            if let Meaning::LeftOut(error) = &piece.meaning {
                print_error(&mut console.out, style, text, error, Some(options.flavour))?;
            }
        }
        print_line(&mut console.out, format_args!("canonical form: {normal}"))?;
        if options.flavour == Flavour::Npm {
            for note in notes(alloc, text, pieces)?.iter() {
                print_line(&mut console.out, Note(note.as_str()))?;
            }
        }
    }
    Ok(status)
}

// Reports the tag that a text is, or each alternative on a line, and the canonical form.
fn report_text<O: Write, E: Write>(
    console: &mut Console<O, E>,
    line: Line,
    text: &str,
) -> Result<Status, Stop> {
    let (alloc, options) = (console.alloc, console.options);
    match explain(alloc, options.flavour, options.pre_release, text) {
        Ok(Explanation::Tag(tag)) if options.json => print_tag(console, tag.as_str()),
        Ok(Explanation::Tag(tag)) => {
            print_line(
                &mut console.out,
                format_args!("\"{tag}\": a tag, a name that a registry gives a version"),
            )?;
            console.question(tag.as_str());
            Ok(Status::Tag)
        }
        Ok(Explanation::Ranges { pieces, normal }) => {
            report_pieces(console, line, text, pieces.as_slice(), normal.as_str())
        }
        Err(problem) => reject_line(console, line, &[text], &problem),
    }
}

/// Says on standard error what npm reads differently in the ranges that a command is given.
pub fn tell_notes<O: Write, E: Write>(
    console: &mut Console<O, E>,
    given: Given<'_, '_>,
) -> Result<(), Stop> {
    let (alloc, options) = (console.alloc, console.options);
    if options.json || options.quiet || options.flavour != Flavour::Npm {
        return Ok(());
    }
    for name in &["RANGE", "range"] {
        for text in given.texts(alloc, name)?.iter() {
            let pieces = pieces_of(alloc, Flavour::Npm, text)?.unwrap_or(Vec::new(alloc));
            for note in notes(alloc, text, pieces.as_slice())?.iter() {
                console.tell(Note(note.as_str()));
            }
        }
    }
    Ok(())
}

/// `ranges explain RANGE..`: what each range means, and for `-` each line of standard input. The status is that of invalid arguments
/// if an alternative is left out.
pub fn report<R: Input, O: Write, E: Write>(
    rt: &R,
    console: &mut Console<O, E>,
    given: Given<'_, '_>,
) -> Result<Status, Stop> {
    let mut status = Status::Answered;
    for text in given.matches.get_strs("RANGE").unwrap_or(&[]) {
        if *text != "-" {
            status = status.worse(report_text(console, Line(None), text)?);
            continue;
        }
        let input = read_ranges(rt, console)?;
        for (place, text) in input.as_str().lines().enumerate() {
            if !text.is_empty() {
                let line = Line(Some(place.saturating_add(1)));
                status = status.worse(report_text(console, line, text)?);
            }
        }
    }
    Ok(status)
}
