//! What is legal in a range, and surely not meant, and what npm reads differently.

use crate::rules::Rule;
use answers::asking::{Answer, Problem};
use answers::explained::{Comparator, Matches, Meaning, Piece};
use answers::questions::{common_version, version_outside};
use deno_semver::{PreRelease, RangeBound, Version, VersionBound, VersionBoundKind, VersionRange};
use manifests::npm::{Reading, as_read, number_behind_wildcard, number_behind_zero, read_range};
use semver_req::common::values::Flavour;
use std::alloc::{AllocError, Global};
use terminal::shown::Quoted;

/// More alternatives than these aren't compared with one another.
const MANY: usize = 32;

/// What an alternative without comparators at the end of a range is.
pub const EMPTY_AT_END: &str =
    "node-semver reads the empty part behind the last `||` as every version";

/// Whether a range has separators that Deno takes, and npm doesn't.
pub fn has_separators(range: &str) -> bool {
    range.contains(',') || range.contains("&&")
}

/// Whether some version matches both ranges.
pub fn have_common_version(alloc: Global, one: &str, other: &str) -> Result<bool, AllocError> {
    match common_version(alloc, Flavour::Npm, PreRelease::Restricted, &[one, other]) {
        Ok(Answer::Value(lowest)) => Ok(lowest.is_some()),
        Ok(Answer::Tag(_)) | Err(Problem::Invalid(_)) => Ok(false),
        Err(Problem::OutOfMemory) => Err(AllocError),
    }
}

// Whether the text is a range that no version matches.
fn is_unmatched(alloc: Global, range: &str) -> Result<bool, AllocError> {
    match common_version(alloc, Flavour::Npm, PreRelease::Restricted, &[range]) {
        Ok(Answer::Value(lowest)) => Ok(lowest.is_none()),
        Ok(Answer::Tag(_)) | Err(Problem::Invalid(_)) => Ok(false),
        Err(Problem::OutOfMemory) => Err(AllocError),
    }
}

// What is meant by a comma at the end of a version, or in place of a `.`, if that is what stands in a range.
fn hint_at_comma(range: &str) -> Option<&'static str> {
    let range = range.trim();
    let numbers = range.trim_start_matches(|c: char| matches!(
        c,
        '^' | '~' | '<' | '>' | '=' | 'v'
    ));
    let bare = numbers.trim_matches(',');
    let is_number = |part: &str| !part.is_empty() && part.chars().all(|c| c.is_ascii_digit());
    let is_zero = |part: &str| part == "0";
    // Without an operator or a zero it may be a list of versions.
    let is_one = numbers.len() < range.len() || bare.split(',').any(is_zero);
    if bare.len() < numbers.len() && !has_separators(bare) && !bare.contains(char::is_whitespace) {
        Some(": leave the `,` out")
    } else if is_one && bare.contains(',') && bare.split(',').all(is_number) {
        Some(": write `.` for `,`")
    } else {
        None
    }
}

/// What to write in place of a separator in a range: `||` for a comma where no version matches all that it separates.
pub fn hint_of(alloc: Global, range: &str) -> Result<&'static str, AllocError> {
    if let Some(hint) = hint_at_comma(range) {
        return Ok(hint);
    }
    for part in range.split("||") {
        if has_separators(part) && is_unmatched(alloc, part)? {
            return Ok(if part.contains(',') {
                ": write `||`"
            } else {
                ""
            });
        }
    }
    Ok(if has_separators(range) {
        ": write a space"
    } else {
        ""
    })
}

/// What is said of a word of a range that npm ignores.
pub fn ignored(alloc: Global, range: &str, word: &str) -> Result<String, AllocError> {
    let is_separated = has_separators(word);
    let hint = if is_separated {
        hint_of(alloc, range)?
    } else {
        ""
    };
    let is_none = match as_read(alloc, range)? {
        Some(read) => is_unmatched(alloc, read.as_str())?,
        None => false,
    };
    let then = if is_none {
        ", so no version matches"
    } else {
        ""
    };
    format!(in alloc; "npm ignores {}{then}{hint}", Quoted(word))
}

/// What npm makes of a range with a `,` or `&&`.
pub fn of_separators(alloc: Global, range: &str) -> Result<Option<String>, AllocError> {
    if !has_separators(range) {
        return Ok(None);
    }
    let read = read_range(range);
    Ok(Some(match (read.reading, read.ignored, read.dropped) {
        (Reading::Range, Some(word), _) => ignored(alloc, range, word)?,
        (Reading::Range, None, Some(dropped)) => {
            let hint = hint_of(alloc, range)?;
            format!(in alloc; "npm leaves out `{dropped}`{hint}")?
        }
        (_, _, _) => {
            let hint = hint_of(alloc, range)?;
            let separator = if range.contains(',') { "," } else { "&&" };
            format!(in alloc; "npm refuses `{separator}`{hint}")?
        }
    }))
}

// Whether a word is a version with a wildcard in place of its third number, and a pre-release behind that.
fn is_wildcard_with_pre(word: &str) -> bool {
    let mut last = word.split('.').nth(2).unwrap_or("").chars();
    matches!(last.next(), Some('x' | 'X' | '*')) && !matches!(last.next(), None | Some('+'))
}

fn is_pre(bound: &RangeBound) -> bool {
    match bound {
        RangeBound::Version(bound) => !bound.version.pre.is_empty(),
        RangeBound::Unbounded => false,
    }
}

/// Whether npm drops a pre-release of the comparator, and Deno keeps it, as in `^1.2.x-beta`.
pub fn has_dropped_pre(comparator: &Comparator) -> bool {
    let range = &comparator.range;
    let mut words = comparator.text.as_str().split_whitespace();
    (is_pre(&range.start) || is_pre(&range.end)) && words.any(is_wildcard_with_pre)
}

// Whether the bound is this major version.
fn is_major(bound: &VersionBound, major: u64) -> bool {
    let version = &bound.version;
    version.major == major && version.minor == 0 && version.patch == 0 && version.pre.is_empty()
}

// Whether the range is from 0.0.0 on, or from below.
fn is_from_zero(range: &VersionRange) -> bool {
    match &range.start {
        RangeBound::Version(start) => {
            start.kind == VersionBoundKind::Inclusive && is_major(start, 0)
        }
        RangeBound::Unbounded => true,
    }
}

// Whether pre-releases match by a bound of the alternative.
fn names_pre(piece: &Piece) -> bool {
    match &piece.meaning {
        Meaning::Range(matches) => matches.pre_of_start || matches.pre_of_end,
        Meaning::LeftOut(_) => false,
    }
}

/// The alternative whose pre-releases npm doesn't match, since another one is `*`, or means the same.
pub fn beside_everything(pieces: &[Piece]) -> Option<&str> {
    let is_there = pieces.iter().any(|piece| match &piece.meaning {
        Meaning::Range(matches) => {
            let range = &matches.range;
            is_from_zero(range) && matches!(range.end, RangeBound::Unbounded)
        }
        Meaning::LeftOut(_) => false,
    });
    if !is_there {
        return None;
    }
    let piece = pieces.iter().find(|piece| names_pre(piece))?;
    Some(piece.text.as_str().trim())
}

/// Whether two bounds have the same three numbers.
pub fn have_same_numbers(one: &RangeBound, other: &RangeBound) -> bool {
    let (RangeBound::Version(one), RangeBound::Version(other)) = (one, other) else {
        return false;
    };
    let (one, other) = (&one.version, &other.version);
    one.major == other.major && one.minor == other.minor && one.patch == other.patch
}

// Whether a comparator is `<` or `<=` and three numbers, where npm ends as Deno does.
fn ends_at_version(comparator: &Comparator) -> bool {
    let text = comparator.text.as_str();
    text.starts_with('<')
        && text.split('.').count() == 3
        && !text.contains(['x', 'X', '*'].as_slice())
}

// Whether a comparator ends at a version, where npm ends below all pre-releases of it, and this bound is one of these.
fn ends_above(comparator: &Comparator, bound: &RangeBound) -> bool {
    let end = &comparator.range.end;
    is_pre(bound) && !is_pre(end) && have_same_numbers(bound, end) && !ends_at_version(comparator)
}

// The alternative of which npm matches no pre-releases of a version at which it ends, and Deno does.
fn at_pre_of_end(pieces: &[Piece]) -> Option<&str> {
    let piece = pieces.iter().find(|piece| {
        let Meaning::Range(Matches { range, .. }) = &piece.meaning else {
            return false;
        };
        let is_cut = piece.comparators.iter().any(|it| {
            ends_above(it, &range.start) || ends_above(it, &range.end)
        });
        is_cut && names_pre(piece)
    })?;
    Some(piece.text.as_str().trim())
}

fn is_pre_of_zero(bound: &RangeBound) -> bool {
    match bound {
        RangeBound::Version(VersionBound { version, .. }) => {
            let is_zero = version.major == 0 && version.minor == 0 && version.patch == 0;
            is_zero && !version.pre.is_empty()
        }
        RangeBound::Unbounded => false,
    }
}

// The alternative by which npm matches pre-releases of 0.0.0, and Deno doesn't.
fn below_zero(pieces: &[Piece]) -> Option<&str> {
    let piece = pieces.iter().find(|piece| {
        let is_cut = match &piece.meaning {
            Meaning::Range(Matches { range, .. }) => {
                is_from_zero(range) || is_pre_of_zero(&range.start)
            }
            Meaning::LeftOut(_) => false,
        };
        let is_named = piece.comparators.iter().any(|it| {
            is_pre_of_zero(&it.range.start) || is_pre_of_zero(&it.range.end)
        });
        is_cut && is_named && !names_pre(piece)
    })?;
    Some(piece.text.as_str().trim())
}

/// How node-semver, and so npm, reads parts of a range that it reads differently.
pub fn differences(
    alloc: Global,
    range: &str,
    pieces: &[Piece],
) -> Result<Vec<String>, AllocError> {
    let mut all = Vec::new(alloc);
    if range.trim_end().ends_with("||") {
        all.push(String::from_str(alloc, EMPTY_AT_END)?)?;
    }
    if let Some((word, read)) = number_behind_wildcard(range) {
        all.push(format!(in alloc; "npm reads `{word}` as `{read}`")?)?;
    }
    if let Some(number) = number_behind_zero(range) {
        all.push(format!(in alloc; "node-semver refuses the zero of `{number}`, or drops it")?)?;
    }
    for piece in pieces {
        if let Some(dropped) = piece.comparators.iter().find(|it| has_dropped_pre(it)) {
            let text = dropped.text.as_str();
            all.push(format!(in alloc; "npm drops the pre-release of `{text}`")?)?;
        }
    }
    if let Some(text) = beside_everything(pieces) {
        let so = "so no pre-release of";
        all.push(format!(in alloc; "npm reads the whole range as `*`, {so} `{text}` matches")?)?;
    }
    if let Some(text) = at_pre_of_end(pieces) {
        let what = "no pre-release of the version at which";
        all.push(format!(in alloc; "npm matches {what} `{text}` ends")?)?;
    }
    if let Some(text) = below_zero(pieces) {
        let note = format!(in alloc; "npm also matches pre-releases of 0.0.0 by `{text}`")?;
        all.push(note)?;
    }
    Ok(all)
}

/// How node-semver, and so npm, reads a range differently, separators included.
pub fn notes(alloc: Global, range: &str, pieces: &[Piece]) -> Result<Vec<String>, AllocError> {
    let mut all = Vec::new(alloc);
    if let Some(note) = of_separators(alloc, range)? {
        all.push(note)?;
    }
    for difference in differences(alloc, range, pieces)? {
        all.push(difference)?;
    }
    Ok(all)
}

/// The warnings about a range, and the rules that they come by.
pub type Warnings = Vec<(Rule, String)>;

// Whether the range is every 0.x, as of `^0`, `0`, `0.x` and `<1`.
fn is_any_zero(range: &VersionRange) -> bool {
    match &range.end {
        RangeBound::Version(end) => {
            is_from_zero(range) && end.kind == VersionBoundKind::Exclusive && is_major(end, 1)
        }
        RangeBound::Unbounded => false,
    }
}

// What is odd about one of several alternatives, or the only one.
fn of_piece(
    alloc: Global,
    piece: &Piece,
    is_only: bool,
) -> Result<Option<(Rule, String)>, AllocError> {
    let text = piece.text.as_str().trim();
    let Meaning::Range(matches) = &piece.meaning else {
        return Ok(None);
    };
    Ok(Some(if text.is_empty() {
        let what = if is_only { "range" } else { "alternative" };
        let warning = format!(in alloc; "an empty {what} matches every version")?;
        (Rule::EmptyAlternative, warning)
    } else if matches.lowest.is_none() {
        let warning = format!(in alloc; "`{text}` matches no version")?;
        (Rule::NoMatch, warning)
    } else if is_any_zero(&matches.range) {
        let hint = "matches every 0.x, though each may break: name its minor version";
        (Rule::AnyZero, format!(in alloc; "`{text}` {hint}")?)
    } else {
        return Ok(None);
    }))
}

// Whether each match of one alternative is one of the other.
fn is_contained(alloc: Global, one: &Piece, other: &Piece) -> Result<bool, AllocError> {
    let (one, other) = (one.text.as_str(), other.text.as_str());
    match version_outside(alloc, Flavour::Npm, PreRelease::Restricted, one, other) {
        Ok(Answer::Value(outside)) => Ok(outside.is_none()),
        Ok(Answer::Tag(_)) | Err(Problem::Invalid(_)) => Ok(false),
        Err(Problem::OutOfMemory) => Err(AllocError),
    }
}

// The version at which an alternative starts, if it has such, and the operator that the alternative begins with.
fn start_of(piece: &Piece) -> Option<(&Version, Option<char>)> {
    let operator = piece.text.as_str().trim().chars().next();
    match &piece.meaning {
        Meaning::Range(
            Matches {
                range: VersionRange {
                    start: RangeBound::Version(start),
                    ..
                },
                ..
            },
        ) => Some((&start.version, operator.filter(|c| !c.is_ascii_digit()))),
        _ => None,
    }
}

// Whether one alternative is another without its pre-release, as of `^6.0 || ^6.0.0-pre.1`, which packages write on purpose.
fn is_release_of(one: &Piece, other: &Piece) -> bool {
    let (Some((one, operator)), Some((other, other_operator))) = (start_of(one), start_of(other))
    else {
        return false;
    };
    let is_same = one.major == other.major && one.minor == other.minor && one.patch == other.patch;
    is_same && operator == other_operator && one.pre.is_empty() && !other.pre.is_empty()
}

/// Whether the alternative is a range, not empty, that some version matches.
pub fn has_match(piece: &Piece) -> bool {
    match &piece.meaning {
        Meaning::Range(matches) => matches.lowest.is_some()
            && !piece.text.as_str().trim().is_empty(),
        Meaning::LeftOut(_) => false,
    }
}

/// The places of alternatives that another contains, each with that of the first such. Of two that match the same, the second is needless.
pub fn contained(alloc: Global, pieces: &[Piece]) -> Result<Vec<(usize, usize)>, AllocError> {
    let mut pairs = Vec::new(alloc);
    if pieces.len() > MANY {
        return Ok(pairs);
    }
    for (place, piece) in pieces.iter().enumerate() {
        for (other_place, other) in pieces.iter().enumerate() {
            let is_asked = place != other_place && has_match(piece) && has_match(other);
            if !is_asked || is_release_of(piece, other) {
                continue;
            }
            let is_needless = is_contained(alloc, piece, other)?
                && (other_place < place || !is_contained(alloc, other, piece)?);
            if is_needless {
                pairs.push((place, other_place))?;
                break;
            }
        }
    }
    Ok(pairs)
}

/// The warnings about a range, given its alternatives.
pub fn warnings(alloc: Global, pieces: &[Piece]) -> Result<Warnings, AllocError> {
    let mut warnings = Vec::new(alloc);
    for piece in pieces {
        if let Some(warning) = of_piece(alloc, piece, pieces.len() == 1)? {
            warnings.push(warning)?;
        }
    }
    for pair in contained(alloc, pieces)?.iter() {
        if let (Some(piece), Some(other)) = (pieces.get(pair.0), pieces.get(pair.1)) {
            let (text, whole) = (piece.text.as_str().trim(), other.text.as_str().trim());
            let warning = format!(in alloc; "`{whole}` contains `{text}`")?;
            warnings.push((Rule::ContainedAlternative, warning))?;
        }
    }
    Ok(warnings)
}

/// The first alternative with a bound that is a pre-release. That of a single version is none.
pub fn bound_of_pre_releases(pieces: &[Piece]) -> Option<&str> {
    let piece = pieces.iter().find(|piece| {
        let text = piece.text.as_str().trim();
        let has_operator = text.starts_with(['^', '~', '<', '>'].as_slice());
        names_pre(piece) && (has_operator || text.contains(' '))
    })?;
    Some(piece.text.as_str().trim())
}
