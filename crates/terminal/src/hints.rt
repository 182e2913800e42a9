//! What to write in place of usual mistakes. These are guesses, and tested alone.

use crate::shown::{Shown, part};
use semver_req::common::values::Flavour;
use semver_req::error_places::causes::Cause;
use semver_req::error_places::pieces::InvalidPiece;
use std::alloc::{AllocError, Global};
use std::fmt;

// What package.json has in place of a range.
const PROTOCOLS: [&str; 24] = [
    "workspace:",
    "catalog:",
    "file:",
    "link:",
    "portal:",
    "patch:",
    "exec:",
    "npm:",
    "jsr:",
    "git:",
    "git+file:",
    "git+ftp:",
    "git+http:",
    "git+https:",
    "git+rsync:",
    "git+ssh:",
    "ssh:",
    "github:",
    "gitlab:",
    "bitbucket:",
    "gist:",
    "sourcehut:",
    "http:",
    "https:",
];

/// What follows a protocol, in capital letters or not, if the text begins with it.
pub fn behind_protocol<'t>(text: &'t str, protocol: &str) -> Option<&'t str> {
    let (front, behind) = text.split_at_checked(protocol.len())?;
    if front.eq_ignore_ascii_case(protocol) {
        Some(behind)
    } else {
        None
    }
}

/// Whether a text begins with one of package.json's protocols.
pub fn is_protocol(text: &str) -> bool {
    PROTOCOLS
        .iter()
        .any(|protocol| behind_protocol(text, protocol).is_some())
}

// How a text in quotes begins or ends.
const QUOTES: [char; 7] = [
    '"', '\'', '`', '\u{201c}', '\u{201d}', '\u{2018}', '\u{2019}',
];

// Dashes that are no `-`.
const DASHES: [char; 5] = ['\u{2010}', '\u{2011}', '\u{2013}', '\u{2014}', '\u{2212}'];

// A longer text isn't repeated in a hint.
const LONG: usize = 60;

/// A part of an alternative, and what stands in its place without a mistake.
#[derive(Clone, Copy)]
pub struct Edit {
    start: usize,
    end: usize,
    new: &'static str,
}

/// What to write in place of a mistake.
#[derive(Clone, Copy)]
pub enum Suggestion<'a> {
    /// A sentence.
    Says(&'static str),
    /// A sentence that leaves one way to write the alternative.
    Means(&'static str, Edit),
    /// What to write: a part of the text, what is missing behind it, and another part.
    Write(&'a str, &'static str, &'a str, Edit),
    /// What to leave of the alternative.
    Keep(&'a str),
}

impl fmt::Display for Suggestion<'_> {
    fn fmt<W: fmt::Write>(&self, f: &mut fmt::Formatter<W>) -> fmt::Result {
        match self {
            Suggestion::Says(text) | Suggestion::Means(text, _) => f.write_str(text),
            Suggestion::Write(one, middle, other, _) => {
                write!(f, "write `{}{middle}{}`", Shown(one), Shown(other))
            }
            Suggestion::Keep(text) => write!(f, "write `{}`", Shown(text)),
        }
    }
}

// A place in an alternative.
#[derive(Clone, Copy)]
struct Mistake<'a> {
    /// What stands before the place, from the start of the alternative on.
    before: &'a str,
    next: char,
    /// What stands from the place on.
    rest: &'a str,
    /// What stands behind `next`.
    behind: &'a str,
    /// The comparator up to the place.
    front: &'a str,
    /// What stands in it behind `next`.
    tail: &'a str,
}

fn ends_comparator(c: char) -> bool {
    c.is_whitespace() || matches!(c, ',' | '|' | '&')
}

fn is_operator(c: char) -> bool {
    matches!(c, '<' | '>' | '=' | '^' | '~')
}

fn is_of_version(c: char) -> bool {
    c.is_ascii_alphanumeric() || matches!(c, '.' | '*' | '-' | '+')
}

// Whether a version, perhaps a partial one, begins with the character.
fn begins_version(c: char) -> bool {
    c.is_ascii_digit() || matches!(c, 'v' | 'x' | 'X' | '*')
}

fn looks_like_digit(c: char) -> bool {
    matches!(c, 'l' | 'I' | 'O' | 'o')
}

// Whether the character stands between the two versions of a range with `-` in another form.
fn is_gap(c: char) -> bool {
    c.is_whitespace() || matches!(c, '-' | '.') || DASHES.as_slice().contains(&c)
}

// Whether the text looks like one version, perhaps a partial one.
fn is_version(text: &str) -> bool {
    text.starts_with(begins_version) && text.chars().all(is_of_version)
}

// Whether the text looks like one comparator.
fn is_comparator(text: &str) -> bool {
    let version = text.trim_start_matches(is_operator);
    version.starts_with(begins_version) && version.chars().all(is_of_version)
}

// Whether the text is a pre-release, a build, or both.
fn is_qualifier(text: &str) -> bool {
    let parts = ['.', '+'].as_slice();
    text.split(parts).all(|part| {
        !part.is_empty() && part.chars().all(|c| c.is_ascii_alphanumeric() || c == '-')
    }) && text.split('+').count() <= 2
}

impl<'a> Mistake<'a> {
    fn new(piece: &'a str, place: usize) -> Option<Mistake<'a>> {
        let (before, rest) = (piece.get(..place)?, piece.get(place..)?);
        let next = rest.chars().next()?;
        let behind = rest.get(next.len_utf8()..)?;
        Some(Mistake {
            before,
            next,
            rest,
            behind,
            front: before.rsplit(ends_comparator).next().unwrap_or(""),
            tail: behind.split(ends_comparator).next().unwrap_or(""),
        })
    }

    // An edit around the place: so many bytes before it, and so many from there on, become another text.
    fn edit(&self, before: usize, after: usize, new: &'static str) -> Edit {
        let place = self.before.len();
        Edit {
            start: place.saturating_sub(before),
            end: place.saturating_add(after),
            new,
        }
    }

    // A sentence that means such an edit.
    fn means(
        &self,
        says: &'static str,
        before: usize,
        after: usize,
        new: &'static str,
    ) -> Option<Suggestion<'a>> {
        Some(Suggestion::Means(says, self.edit(before, after, new)))
    }

    // How many bytes of whitespace stand before the place, and from there on.
    fn spaces(&self) -> (usize, usize) {
        let (before, after) = (self.before.trim_end(), self.rest.trim_start());
        (
            self.before.len().saturating_sub(before.len()),
            self.rest.len().saturating_sub(after.len()),
        )
    }

    // The version that the comparator has so far.
    fn version(&self) -> &'a str {
        self.front.trim_start_matches(is_operator)
    }

    // A quote at the place, or else at the front.
    fn in_quotes(&self) -> Option<Suggestion<'a>> {
        let says = "leave the quotes out";
        if QUOTES.as_slice().contains(&self.next) {
            return self.means(says, 0, self.next.len_utf8(), "");
        }
        let front = self.before.trim_start();
        let quote = front.chars().next()?;
        if !QUOTES.as_slice().contains(&quote) {
            return None;
        }
        let start = self.before.len().saturating_sub(front.len());
        let edit = Edit {
            start,
            end: start.saturating_add(quote.len_utf8()),
            new: "",
        };
        Some(Suggestion::Means(says, edit))
    }

    // What holds of a version, too.
    fn in_version(&self) -> Option<Suggestion<'a>> {
        if let Some(suggestion) = self.in_quotes() {
            return Some(suggestion);
        }
        let version = self.version();
        // Behind a qualifier begins no fourth number.
        let has_qualifier = version.contains(['-', '+'].as_slice());
        let has_numbers = !has_qualifier && version.split('.').count() == 3;
        let is_followed = self.behind.trim_start().starts_with(begins_version);
        let spaces = self.spaces();
        let says = match self.next {
            'V' if version.is_empty() && is_followed => {
                return self.means("write `v`, or leave it out", 0, 1, "");
            }
            '.' if self.behind.starts_with('.') => return None,
            '.' if self.before.ends_with(' ') => {
                return self.means("leave out the space before `.`", spaces.0, 0, "");
            }
            '.' if has_numbers => "a version has three numbers",
            c if c.is_whitespace() && version.ends_with('.') && is_followed => {
                return self.means("leave out the space after `.`", 0, spaces.1, "");
            }
            '_' if version.contains('+') => "a build has letters, digits, `-` and `.`",
            '_' if has_qualifier => "a pre-release has letters, digits, `-` and `.`",
            _ => return None,
        };
        Some(Suggestion::Says(says))
    }

    // What a comparator lacks, whichever the grammar is.
    fn in_comparator(&self) -> Option<Suggestion<'a>> {
        let (front, tail, version) = (self.front, self.tail, self.version());
        let count = version.split('.').count();
        let is_number = |part: &str| !part.is_empty() && part.chars().all(|c| c.is_ascii_digit());
        let has_numbers = version.split('.').all(is_number);
        let missing = match (self.next, count) {
            ('-', 1) => ".0.0-",
            ('-', 2) => ".0-",
            ('+', 1) => ".0.0+",
            ('+', 2) => ".0+",
            (_, _) => "",
        };
        let is_qualified = is_qualifier(tail) && !tail.starts_with(|c: char| c.is_ascii_digit());
        if has_numbers && is_qualified && !missing.is_empty() {
            let edit = self.edit(0, self.next.len_utf8(), missing);
            return Some(Suggestion::Write(front, missing, tail, edit));
        }
        let digit = match self.next {
            'O' | 'o' => "0",
            'I' | 'l' => "1",
            _ => return None,
        };
        let follows = front.ends_with(|c: char| c.is_ascii_digit() || c == '.' || is_operator(c));
        let numbers = count
            .saturating_add(tail.split('.').count())
            .saturating_sub(1);
        let is_rest = |c: char| c.is_ascii_digit() || c == '.';
        if !follows || numbers > 3 {
            None
        } else if tail.chars().all(is_rest) && !tail.ends_with('.') {
            let edit = self.edit(0, self.next.len_utf8(), digit);
            Some(Suggestion::Write(front, digit, tail, edit))
        } else if tail.chars().all(|c| is_rest(c) || looks_like_digit(c)) {
            Some(Suggestion::Says("write digits for the letters"))
        } else {
            None
        }
    }

    // A range with `-` in another form.
    fn as_hyphen(&self) -> Option<Suggestion<'a>> {
        let (before, behind) = (self.before, self.behind);
        let (one, other) = match self.next {
            // `1.2- 2` and `1.2-2`.
            '-' => (before, behind),
            // `1.2.3- 2`
            c if c.is_whitespace() && before.ends_with('-') => (before.strip_suffix('-')?, behind),
            '.' if behind.starts_with('.') => (before, behind.trim_start_matches('.')),
            c if DASHES.as_slice().contains(&c) => (before, behind),
            // `1.2.3 -2`
            _ if before.ends_with(" -") => (before.strip_suffix('-')?, self.rest),
            _ => return None,
        };
        let (one, other) = (one.trim(), other.trim());
        if is_version(one) && is_version(other) {
            let gap = (
                before.trim_end_matches(is_gap),
                self.rest.trim_start_matches(is_gap),
            );
            let edit = self.edit(
                before.len().saturating_sub(gap.0.len()),
                self.rest.len().saturating_sub(gap.1.len()),
                " - ",
            );
            Some(Suggestion::Write(one, " - ", other, edit))
        } else {
            None
        }
    }

    // A word in place of a sign, at the place.
    fn as_word(&self, has_hyphen: bool) -> Option<Suggestion<'a>> {
        let is_between = self.front.is_empty() && self.before.trim_end().ends_with(is_of_version);
        if !is_between || self.behind.trim().len() <= self.tail.len() {
            return None;
        }
        let length = self.tail.len().saturating_add(1);
        match (self.next, self.tail) {
            ('o' | 'O', "r" | "R") => self.means("write `||` for `or`", 0, length, "||"),
            ('a' | 'A', "nd" | "ND") => {
                let before = self.spaces().0;
                self.means("write a space for `and`", before, length, "")
            }
            ('t' | 'T', "o" | "O") if has_hyphen => {
                self.means("write ` - ` for `to`", 0, length, "-")
            }
            (_, _) => None,
        }
    }

    // A sign in place of another, or where none can be.
    fn as_sign(&self, flavour: Flavour) -> Option<Suggestion<'a>> {
        let before = self.before;
        let ahead = before.trim_end();
        let follows_word = before.ends_with(|c: char| c.is_ascii_alphanumeric() || c == '*');
        let is_followed = (self.behind.trim_start_matches(is_operator).trim_start()).starts_with(
            begins_version,
        );
        let has_equals = before.ends_with('=')
            && !before.ends_with(">=")
            && !before.ends_with("<=")
            && !before.ends_with("==");
        let length = self.next.len_utf8();
        let says = match self.next {
            '>' if has_equals => return self.means("write `>=`", 1, 1, ">="),
            '<' if has_equals => return self.means("write `<=`", 1, 1, "<="),
            c if is_operator(c) && before.ends_with(is_operator) => "write one operator",
            '=' if ahead.len() < before.len() && ahead.ends_with(['<', '>'].as_slice()) => {
                return self.means("leave out the space before `=`", self.spaces().0, 0, "");
            }
            c if is_operator(c) && follows_word && is_followed => {
                return self.means("put a space between two comparators", 0, 0, " ");
            }
            ',' | '&' if before.ends_with(',') => "write one separator",
            ',' | '&' if flavour == Flavour::Normal => "put a space between two comparators",
            // Of three, one may be too many, or an alternative missing.
            c if c != '|' && before.trim_start() == "|" => "write `||`",
            c if c != '|' && before.ends_with('|') => {
                return self.means("write `||`", 0, 0, "|");
            }
            c if c != '&' && before.ends_with('&') => "write a space for `&`",
            ';' if self.behind.trim().is_empty() => {
                return self.means("leave the `;` out", 0, 1, "");
            }
            ';' => "write `||` for `or`, a space for `and`",
            '\u{2265}' => return self.means("write `>=`", 0, length, ">="),
            '\u{2264}' => return self.means("write `<=`", 0, length, "<="),
            _ => return None,
        };
        Some(Suggestion::Says(says))
    }
}

// A range behind the name of a package.
fn named(piece: &str) -> Option<Suggestion<'_>> {
    let (name, range) = piece.trim().split_once(' ')?;
    let is_name = |c: char| c.is_ascii_alphanumeric() || matches!(c, '@' | '/' | '-' | '_' | '.');
    let is_front = |c: char| c == '@' || c.is_ascii_alphabetic();
    let is_named = name.chars().take(2).all(is_front) && name.chars().all(is_name);
    let range = range.trim();
    if is_named && name.len() > 1 && name != LATEST && is_comparator(range) {
        Some(Suggestion::Keep(range))
    } else {
        None
    }
}

// Whether the text may be a tag, and no version is meant.
fn is_word(text: &str) -> bool {
    text.len() > 1
        && text.chars().take(2).all(|c| c.is_ascii_alphabetic())
        && (text.chars()).all(|c| c.is_ascii_alphanumeric() || matches!(c, '-' | '_' | '.'))
}

// Whether a text is the place of a repository as git takes it, `user@host:path`.
fn is_place_for_git(text: &str) -> bool {
    match text.split_once('@') {
        Some((user, place)) => !user.is_empty() && place.contains(':') && !is_protocol(place),
        None => false,
    }
}

// What is meant by an alternative as a whole.
fn of_range(piece: &str, mistake: Mistake<'_>, has_hyphen: bool) -> Option<&'static str> {
    let is_not = mistake.next == '!' && mistake.front.is_empty() && is_comparator(mistake.tail);
    if piece.starts_with("between ") && has_hyphen {
        Some("write `1 - 2` for the versions between 1 and 2")
    } else if piece.contains("!=") || mistake.next == '\u{2260}' || is_not {
        Some("no operator means `not`: write two ranges, such as `<1.2 || >1.2`")
    } else if piece.starts_with("[object ") {
        Some("a script wrote an object in place of a range")
    } else if piece.starts_with('[') || matches!(mistake.next, '[' | ']') {
        Some("ranges have no brackets: write `>=` and `<`")
    } else if piece.contains('(') || mistake.next == ')' {
        Some("ranges have no parentheses")
    } else if is_place_for_git(piece) {
        Some("for a repository, write `git+ssh://user@host/path`")
    } else if piece.contains('@') {
        Some("leave the package's name out: the range follows `@`")
    } else {
        None
    }
}

// A hint for an alternative of a range.
fn in_range<'a>(
    text: &'a str,
    error: &InvalidPiece,
    mistake: Mistake<'a>,
    flavour: Flavour,
) -> Option<Suggestion<'a>> {
    let whole = part(text, error.start, error.end);
    let piece = whole.trim();
    if is_protocol(piece) {
        return Some(Suggestion::Says("this is a protocol of package.json, not a range"));
    }
    if piece.starts_with('V') && piece.chars().nth(1).is_some_and(begins_version) {
        let start = whole.len().saturating_sub(whole.trim_start().len());
        let edit = Edit {
            start,
            end: start.saturating_add(1),
            new: "",
        };
        return Some(Suggestion::Means("write `v`, or leave it out", edit));
    }
    let has_hyphen = flavour == Flavour::Npm;
    if has_hyphen && let Some(suggestion) = mistake.as_hyphen() {
        return Some(suggestion);
    }
    let sign = mistake.as_sign(flavour);
    if let Some(suggestion) = sign.or(mistake.as_word(has_hyphen)) {
        return Some(suggestion);
    }
    if let Some(suggestion) = named(piece) {
        return Some(suggestion);
    }
    if let Some(says) = of_range(piece, mistake, has_hyphen) {
        return Some(Suggestion::Says(says));
    }
    let has_neighbour = part(text, 0, error.start).trim_end().ends_with('|')
        || part(text, error.end, text.len())
            .trim_start()
            .starts_with('|');
    if piece.starts_with("latest ") || has_neighbour && is_word(piece) {
        return Some(Suggestion::Says("a tag stands alone, without ranges"));
    }
    None
}

// A hint for the one comparator of a specifier.
fn in_specifier(mistake: Mistake<'_>) -> Option<Suggestion<'_>> {
    let c = mistake.next;
    let is_space = c.is_whitespace();
    if is_space && (mistake.before.is_empty() || mistake.behind.trim().is_empty()) {
        mistake.means("leave the whitespace out", 0, mistake.spaces().1, "")
    } else if is_space || is_operator(c) || matches!(c, ',' | '|' | '&' | '\u{2264}' | '\u{2265}') {
        Some(Suggestion::Says("a specifier takes one comparator: `^1.2`, `~1.2` or `1.2`"))
    } else {
        None
    }
}

/// A hint for an invalid alternative of a range in this grammar, or for an invalid version.
pub fn hint<'a>(
    text: &'a str,
    error: &InvalidPiece,
    grammar: Option<Flavour>,
) -> Option<Suggestion<'a>> {
    if matches!(error.cause, Cause::NumberTooLarge | Cause::BoundTooLarge) {
        return None;
    }
    let piece = part(text, error.start, error.end);
    let mistake = Mistake::new(piece, error.place.saturating_sub(error.start))?;
    let bare = piece.trim();
    if bare.ends_with(".txt") || bare.ends_with(".json") {
        return Some(Suggestion::Says("to read versions from a file, write `<` before its name"));
    }
    if let Some(suggestion) = mistake.in_version() {
        return Some(suggestion);
    }
    let comparator = mistake.in_comparator();
    let hint = match grammar {
        None => None,
        Some(_) if comparator.is_some() => comparator,
        Some(Flavour::Specifier) => in_specifier(mistake),
        Some(flavour) => in_range(text, error, mistake, flavour),
    };
    match hint {
        Some(Suggestion::Write(_, _, _, _) | Suggestion::Keep(_)) if piece.len() > LONG => None,
        None if !mistake.next.is_ascii() => Some(Suggestion::Says("this character isn't ASCII")),
        hint => hint,
    }
}

/// The text without the mistake of an alternative that is invalid in this grammar, if there is one way to correct it.
pub fn corrected(
    alloc: Global,
    text: &str,
    error: &InvalidPiece,
    grammar: Flavour,
) -> Result<Option<String>, AllocError> {
    let Edit { start, end, new } = match hint(text, error, Some(grammar)) {
        Some(Suggestion::Means(_, edit) | Suggestion::Write(_, _, _, edit)) => edit,
        _ => return Ok(None),
    };
    let front = part(text, 0, error.start.saturating_add(start));
    let behind = part(text, error.start.saturating_add(end), text.len());
    Ok(Some(format!(in alloc; "{front}{new}{behind}")?))
}

/// A hint for a reference to a package of JSR whose scope lacks its `@`, so that a version stands behind its path.
pub fn scope_hint(text: &str) -> Option<Suggestion<'_>> {
    let path = text.strip_prefix("jsr:")?.trim_start_matches('/');
    let (scope, name) = path.split_once('/')?;
    let is_name = !name.contains(['/', ' '].as_slice());
    if is_name && scope.starts_with(|c: char| c.is_ascii_alphabetic()) && text.len() <= LONG {
        let end = text.len().saturating_sub(path.len());
        let new = "jsr:@";
        let edit = Edit { start: 0, end, new };
        Some(Suggestion::Write("", new, path, edit))
    } else {
        None
    }
}

/// What is wrong with a reference in which a URL stands behind `jsr:` or `npm:`.
pub fn url_behind(reference: &str) -> Option<&'static str> {
    let behind = reference
        .strip_prefix("jsr:")
        .or(reference.strip_prefix("npm:"))?;
    if behind.starts_with("http:") || behind.starts_with("https:") {
        Some("a URL stands in place of a name: write `jsr:@scope/name` or `npm:name`")
    } else {
        None
    }
}

const LATEST: &str = "latest";

/// Whether a text is a word with one letter too many, missing, or wrong, or with two neighbours swapped.
pub fn is_nearly(text: &str, word: &str) -> bool {
    let ahead = |(a, b): &(u8, u8)| a == b;
    let front = text.bytes().zip(word.bytes()).take_while(ahead).count();
    let tail = (text.bytes().rev())
        .zip(word.bytes().rev())
        .take_while(ahead)
        .count();
    let shorter = text.len().min(word.len());
    let tail = tail.min(shorter.saturating_sub(front));
    let own = text.as_bytes().get(front..text.len().saturating_sub(tail));
    let other = word.as_bytes().get(front..word.len().saturating_sub(tail));
    match (own, other) {
        (Some([_]), Some([_] | [])) | (Some([]), Some([_])) => true,
        (Some([a, b]), Some([c, d])) => a == d && b == c,
        (_, _) => false,
    }
}

// Whether a number is larger than npm's are.
fn is_too_large(digits: &str) -> bool {
    match digits.parse::<u64>() {
        Ok(number) => number > 9_007_199_254_740_991,
        Err(_) => true,
    }
}

// What is asked of a tag that begins as a version does.
fn question_of_version(tag: &str) -> &'static str {
    let numbers = tag.split(['-', '+'].as_slice()).next().unwrap_or("");
    if tag.ends_with('-') {
        "is a version meant? A pre-release follows `-`"
    } else if numbers.split('.').count() > 3 {
        "is a version meant? One has three numbers"
    } else {
        "is a version meant?"
    }
}

/// What may be meant by a tag that looks like a typing mistake: by `latest`, by a version, or by a range.
pub fn question(tag: &str) -> Option<&'static str> {
    if is_nearly(tag, LATEST) || tag != LATEST && tag.eq_ignore_ascii_case(LATEST) {
        return Some("is `latest` meant?");
    }
    if matches!(tag, "undefined" | "null" | "NaN" | "true" | "false") {
        return Some("did a script write a value in place of a range?");
    }
    if tag.eq_ignore_ascii_case("lts") {
        return Some("is a range meant? Hardly any package has this tag");
    }
    if tag.contains(['~', '*'].as_slice()) {
        return Some("is a range meant?");
    }
    let first = tag.chars().next()?;
    let is_digit = |c: char| c.is_ascii_digit();
    let is_number = |text: &str| !text.is_empty() && text.chars().all(is_digit);
    if let Some((from, to)) = tag.split_once('-')
        && is_number(from)
        && is_number(to)
    {
        return Some("is a range meant? Put spaces around its `-`");
    }
    if first == 'V' && tag.contains(is_digit) {
        return Some("write `v`, or leave it out");
    }
    if is_number(tag) && is_too_large(tag) {
        return Some("is a version meant? npm's numbers go up to 9007199254740991");
    }
    if !tag.contains('.') || !tag.contains(is_digit) {
        return None;
    }
    let is_version = |c: char| c == '.' || is_digit(c) || looks_like_digit(c);
    if tag.contains(looks_like_digit) && tag.chars().all(is_version) {
        return Some("is a letter written for a digit?");
    }
    if first != '.' && !is_digit(first) {
        return None;
    }
    Some(question_of_version(tag))
}
