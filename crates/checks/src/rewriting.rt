//! What `--fix` writes in place of a range.

use crate::advice::{beside_everything, contained, has_dropped_pre, have_same_numbers};
use crate::rules::{Level, Levels, Rule};
use answers::asking::Problem;
use answers::explained::{Explanation, Matches, Meaning, Piece, explain};
use answers::reading;
use deno_semver::{PreRelease, RangeBound};
use manifests::entry::Entry;
use manifests::npm::{
    Reading, Source, is_reference, number_behind_wildcard, number_behind_zero, read_range,
    refused_part, renamed, source_of,
};
use manifests::sections::Kind;
use package_answers::references::read_reference;
use semver_req::common::values::Flavour;
use semver_req::error_places::pieces::invalid_pieces_behind;
use std::alloc::{AllocError, Global};
use terminal::console::Stop;
use terminal::hints::corrected;
use terminal::shown::part;

/// A range in a text.
#[derive(Clone, Copy)]
pub struct Found<'t> {
    pub range: &'t str,
    pub start: usize,
    flavour: Flavour,
}

/// The range in a specifier of npm or JSR, and where it starts there.
pub fn range_of_specifier(alloc: Global, text: &str) -> Result<Option<(&str, usize)>, Stop> {
    let reference = match read_reference(alloc, text) {
        Ok(reference) => reference,
        Err(Problem::Invalid(_)) => return Ok(None),
        Err(Problem::OutOfMemory) => return Err(Stop::OutOfMemory),
    };
    let req = &reference.reference.req;
    let (name, range) = (req.name.as_str(), req.version_req.version_text());
    let Some((front, behind)) = text.split_once(name) else {
        return Ok(None);
    };
    let start = front.len().saturating_add(name.len()).saturating_add(1);
    let is_there = behind
        .strip_prefix('@')
        .is_some_and(|it| it.starts_with(range));
    Ok(match text.get(start..start.saturating_add(range.len())) {
        Some(range) if is_there => Some((range, start)),
        _ => None,
    })
}

// What a specifier has in place of a range, up to its path, and where that starts.
fn range_behind_name(text: &str) -> Option<(&str, usize)> {
    let name = renamed(text)?;
    let start = text.find(':')?.saturating_add(name.len()).saturating_add(2);
    Some((text.get(start..)?.split('/').next()?, start))
}

/// The range in the text of an entry.
pub fn found_in(alloc: Global, entry: &Entry) -> Result<Option<Found<'_>>, Stop> {
    let text = entry.text.as_str();
    let range = match entry.kind {
        Kind::Specifier => {
            let valid = range_of_specifier(alloc, text)?;
            return Ok(match valid.or(range_behind_name(text)) {
                Some((range, start)) => Some(Found {
                    range,
                    start,
                    flavour: Flavour::Specifier,
                }),
                None => None,
            });
        }
        // VS Code reads its range by a pattern of its own, which takes no other form.
        Kind::Engine if entry.name.as_str() == "vscode" => return Ok(None),
        Kind::Engine => text,
        // A correction would be a guess.
        Kind::Dependency | Kind::Range if is_reference(text) => return Ok(None),
        Kind::Dependency | Kind::Range => match source_of(text) {
            Source::Registry(range) => range,
            _ if entry.kind == Kind::Range && text.contains(' ') => text,
            _ => return Ok(None),
        },
        _ => return Ok(None),
    };
    Ok(Some(Found {
        range,
        start: text.len().saturating_sub(range.len()),
        flavour: Flavour::Npm,
    }))
}

// Whether npm reads the range in the same way as this program, but for separators that are written as spaces here.
fn is_read_alike(range: &str) -> bool {
    let read = read_range(range);
    read.reading == Reading::Range && read.dropped.is_none() && read.ignored.is_none()
}

// The same range with a space in place of `,` or `&&`, and of more spaces.
fn with_spaces(alloc: Global, range: &str) -> Result<String, AllocError> {
    let mut spaced = String::new(alloc);
    for c in range.chars() {
        let c = if matches!(c, ',' | '&') { ' ' } else { c };
        if c != ' ' || !spaced.as_str().ends_with(' ') {
            spaced.push(c)?;
        }
    }
    Ok(spaced)
}

// The alternatives that no other contains.
fn joined(alloc: Global, pieces: &[Piece], levels: &Levels) -> Result<String, AllocError> {
    let needless = if levels.of(Rule::ContainedAlternative) == Level::Off {
        Vec::new(alloc)
    } else {
        contained(alloc, pieces)?
    };
    let mut kept = String::new(alloc);
    let mut separator = "";
    for (place, piece) in pieces.iter().enumerate() {
        if needless.iter().all(|pair| pair.0 != place) {
            kept.push_str(separator)?;
            kept.push_str(piece.text.as_str().trim())?;
            separator = " || ";
        }
    }
    Ok(kept)
}

/// The alternatives of a range, of which some may be left out; none of a tag.
pub fn pieces_of(alloc: Global, flavour: Flavour, range: &str) -> Result<Option<Vec<Piece>>, Stop> {
    match explain(alloc, flavour, PreRelease::Restricted, range) {
        Ok(Explanation::Ranges { pieces, .. }) => Ok(Some(pieces)),
        Ok(Explanation::Tag(_)) | Err(Problem::Invalid(_)) => Ok(None),
        Err(Problem::OutOfMemory) => Err(Stop::OutOfMemory),
    }
}

// The canonical form of a range.
fn canonical(alloc: Global, flavour: Flavour, range: &str) -> Result<Option<String>, Stop> {
    match reading::range(alloc, flavour, 0, range) {
        Ok(range) => Ok(Some(range.to_string_normalized(alloc)?)),
        Err(Problem::Invalid(_)) => Ok(None),
        Err(Problem::OutOfMemory) => Err(Stop::OutOfMemory),
    }
}

// Whether npm reads a number behind a wildcard, which it drops.
fn has_dropped_number(range: &str) -> bool {
    range.split('|').any(|alternative| number_behind_wildcard(alternative).is_some())
}

// Whether npm reads several comparators as Deno does. npm ends `^1` below all pre-releases of 2.0.0, and Deno doesn't. That counts only if
// a bound is a pre-release of 2.0.0.
fn has_same_end(matches: &Matches) -> bool {
    let (start, end) = (&matches.range.start, &matches.range.end);
    !matches.pre_of_end && !(matches.pre_of_start && have_same_numbers(start, end))
}

// Whether each alternative is a range that some version matches, and npm reads it as Deno does.
fn are_alike(pieces: &[Piece]) -> bool {
    pieces.iter().all(|piece| match &piece.meaning {
        Meaning::Range(matches) => {
            let has_several = piece.text.as_str().split_whitespace().count() > 1;
            let is_whole = !piece.comparators.iter().any(has_dropped_pre);
            is_whole && matches.lowest.is_some() && (!has_several || has_same_end(matches))
        }
        Meaning::LeftOut(_) => false,
    })
}

// Whether an alternative of a range is empty, so that every version matches it.
fn has_empty_alternative(range: &str) -> bool {
    range.split("||").any(|part| part.trim().is_empty())
}

// How many alternatives a range has.
fn alternatives(range: &str) -> usize {
    range.split("||").count()
}

// The alternatives of a range that no other contains; none if npm may read one in another way.
fn shortened(
    alloc: Global,
    levels: &Levels,
    flavour: Flavour,
    range: &str,
) -> Result<Option<String>, Stop> {
    let Some(pieces) = pieces_of(alloc, flavour, range)? else {
        return Ok(None);
    };
    let pieces = pieces.as_slice();
    if !are_alike(pieces) || beside_everything(pieces).is_some() {
        return Ok(None);
    }
    Ok(Some(joined(alloc, pieces, levels)?))
}

// Whether a range with mistakes is corrected: npm refuses it, or a rule that isn't off finds it. Of a tag that is only a guess.
fn is_found(levels: &Levels, kind: Kind, range: &str) -> bool {
    if kind == Kind::Engine {
        return refused_part(range).is_some() && levels.of(Rule::OddEngine) != Level::Off;
    }
    if kind != Kind::Dependency {
        return true;
    }
    let read = read_range(range);
    let rule = match read.reading {
        Reading::Tag => return false,
        Reading::Refused | Reading::TooLarge => return true,
        Reading::Range if read.ignored.is_some() => Rule::IgnoredComparator,
        Reading::Range if read.dropped.is_some() => Rule::DroppedAlternative,
        Reading::Range => Rule::NpmDiffers,
    };
    levels.of(rule) != Level::Off
}

// More mistakes in a range aren't corrected.
const MANY: usize = 8;

// The range without its mistakes, if there is one way to correct each of them.
fn without_mistakes(
    alloc: Global,
    flavour: Flavour,
    range: &str,
) -> Result<Option<String>, AllocError> {
    let mut range = String::from_str(alloc, range)?;
    for _ in 0..MANY {
        let errors = invalid_pieces_behind(alloc, 0, range.as_str(), flavour)?;
        let Some(first) = errors.first() else {
            return Ok(Some(range));
        };
        range = match corrected(alloc, range.as_str(), first, flavour)? {
            Some(better) => better,
            None => return Ok(None),
        };
    }
    Ok(None)
}

/// Whether a text is a tag in this grammar.
pub fn is_tag(alloc: Global, flavour: Flavour, text: &str) -> Result<bool, Stop> {
    match reading::range(alloc, flavour, 0, text) {
        Ok(range) => Ok(range.tag().is_some()),
        Err(Problem::Invalid(_)) => Ok(false),
        Err(Problem::OutOfMemory) => Err(Stop::OutOfMemory),
    }
}

/// What a range is rewritten to, if it means the same to npm, or has mistakes that can be corrected in one way.
pub fn better(
    alloc: Global,
    levels: &Levels,
    kind: Kind,
    found: Found<'_>,
) -> Result<Option<String>, Stop> {
    let (range, flavour) = (found.range, found.flavour);
    let has_commas = range.contains(',') || range.contains('&');
    let rule = match kind {
        Kind::Engine => Rule::OddEngine,
        _ => Rule::IgnoredComparator,
    };
    if has_commas && levels.of(rule) == Level::Off {
        return Ok(None);
    }
    let spaced = with_spaces(alloc, range)?;
    if is_tag(alloc, flavour, spaced.as_str())? {
        return Ok(None);
    }
    let Some(text) = without_mistakes(alloc, flavour, spaced.as_str())? else {
        return Ok(None);
    };
    let text = text.as_str();
    let is_corrected = text != spaced.as_str();
    let is_emptied = has_empty_alternative(text) && !has_empty_alternative(range);
    if is_corrected && (is_emptied || !is_found(levels, kind, range)) {
        return Ok(None);
    }
    // Deno has no version below 0.0.0, and npm has pre-releases of it.
    let is_odd = text.trim_end().ends_with("||")
        || text.contains("0.0.0-")
        || number_behind_zero(text).is_some()
        || has_dropped_number(text)
        || kind == Kind::Engine && refused_part(text).is_some();
    if is_odd || flavour == Flavour::Npm && !is_read_alike(text) {
        return Ok(None);
    }
    let Some(kept) = shortened(alloc, levels, flavour, text)? else {
        return Ok(None);
    };
    // npm lets pre-releases match an engine, and then another form may match others.
    if levels.of(Rule::NotCanonical) == Level::Off || kind == Kind::Engine {
        let is_new = has_commas || is_corrected || alternatives(kept.as_str()) < alternatives(text);
        return Ok(if is_new { Some(kept) } else { None });
    }
    match canonical(alloc, flavour, kept.as_str())? {
        // An empty alternative has become `*`, which contains all others.
        Some(form) => shortened(alloc, levels, flavour, form.as_str()),
        None => Ok(None),
    }
}

/// Whether the range of an entry is rewritten.
pub fn is_rewritten(alloc: Global, levels: &Levels, entry: &Entry) -> Result<bool, Stop> {
    let Some(found) = found_in(alloc, entry)? else {
        return Ok(false);
    };
    Ok(better(alloc, levels, entry.kind, found)?.is_some())
}

// Whether a key of resolutions ends with a package and its range.
fn ends_with_package(key: &str, package: &str) -> bool {
    match key.strip_suffix(package) {
        Some(front) => front.is_empty() || front.ends_with('/'),
        None => false,
    }
}

/// Whether a key of resolutions names a dependency by its string, with which Yarn compares the key.
pub fn is_pinned(alloc: Global, pins: &[String], entry: &Entry) -> Result<bool, AllocError> {
    if pins.is_empty() || entry.kind != Kind::Dependency {
        return Ok(false);
    }
    let (name, text) = (entry.name.as_str(), entry.text.as_str());
    let short = format!(in alloc; "{name}@{text}")?;
    let long = format!(in alloc; "{name}@npm:{text}")?;
    for pin in pins {
        let key = pin.as_str();
        if ends_with_package(key, short.as_str()) || ends_with_package(key, long.as_str()) {
            return Ok(true);
        }
    }
    Ok(false)
}

/// Whether a range is written in place of one that was found: it isn't the same, and needs no escapes in a string of JSON.
pub fn is_written(found: Found<'_>, range: &str) -> bool {
    // In a specifier whitespace is a mistake.
    let old = match found.flavour {
        Flavour::Specifier => found.range,
        _ => found.range.trim(),
    };
    range != old && !range.contains(|c: char| c.is_control() || matches!(c, '"' | '\\'))
}

/// The text of an entry with a better range, if it is rewritten. These are the keys of resolutions that name a package with a range.
pub fn replacement(
    alloc: Global,
    levels: &Levels,
    pins: &[String],
    entry: &Entry,
) -> Result<Option<String>, Stop> {
    let Some(found) = found_in(alloc, entry)? else {
        return Ok(None);
    };
    let Some(range) = better(alloc, levels, entry.kind, found)? else {
        return Ok(None);
    };
    let range = range.as_str();
    if !is_written(found, range) || is_pinned(alloc, pins, entry)? {
        return Ok(None);
    }
    let text = entry.text.as_str();
    let front = part(text, 0, found.start);
    let behind = part(
        text,
        found.start.saturating_add(found.range.len()),
        text.len(),
    );
    Ok(Some(format!(in alloc; "{front}{range}{behind}")?))
}
