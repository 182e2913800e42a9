//! What npm makes of the text of a dependency: where it comes from, and how its range is read, leniently. These rules are npm's own, and
//! tested alone.

use semver_req::common::values::Flavour;
use semver_req::error_places::pieces::invalid_pieces_behind;
use std::alloc::{AllocError, Global};
use terminal::hints::{behind_protocol, is_protocol};

/// Where a dependency comes from.
#[derive(Clone, Copy)]
pub enum Source<'t> {
    /// A registry: this range or tag, which ends the text.
    Registry(&'t str),
    /// A path, a URL, or what another protocol names.
    Elsewhere,
    /// A path or a repository that looks like a range, and what it is.
    Odd(&'static str),
    /// Nowhere, as the message says.
    Refused(&'static str),
}

/// What npm makes of a range or a tag.
#[derive(Clone, Copy, PartialEq, Eq)]
pub enum Reading {
    Range,
    Tag,
    /// A number is larger than npm's numbers are, or a version longer.
    TooLarge,
    Refused,
}

/// A range or a tag as npm reads it.
#[derive(Clone, Copy)]
pub struct Read<'t> {
    pub reading: Reading,
    /// The first alternative that npm leaves out.
    pub dropped: Option<&'t str>,
    /// The first word that npm ignores in an alternative that it keeps.
    pub ignored: Option<&'t str>,
}

// ---- names and places

// Whether the text stays as it is in a URL.
fn is_url_text(text: &str) -> bool {
    let marks = ['-', '_', '.', '!', '~', '*', '\'', '(', ')'].as_slice();
    text.chars()
        .all(|c| c.is_ascii_alphanumeric() || marks.contains(&c))
}

/// Whether npm lets a package have this name.
pub fn is_package_name(text: &str) -> bool {
    let (scope, name) = match text.strip_prefix('@') {
        Some(scoped) => scoped.split_once('/').unwrap_or(("", "")),
        None => ("scope", text),
    };
    let is_reserved = text.eq_ignore_ascii_case("node_modules")
        || text.eq_ignore_ascii_case("favicon.ico");
    let is_hidden = text.starts_with(['.', '_'].as_slice());
    let is_there = !scope.is_empty() && !name.is_empty();
    is_there && is_url_text(scope) && is_url_text(name) && !is_reserved && !is_hidden
}

// Whether the text is a path by how it begins.
fn is_path(text: &str) -> bool {
    let mut chars = text.chars();
    match (chars.next(), chars.next()) {
        (Some('.' | '/'), _) | (Some('~'), Some('/')) => true,
        (Some(drive), Some(':')) => drive.is_ascii_alphabetic(),
        (_, _) => false,
    }
}

// Whether the text is the name of an archive.
fn is_archive(text: &str) -> bool {
    let ends_with = |end: &str| match text.len().checked_sub(end.len()) {
        Some(start) => text
            .get(start..)
            .is_some_and(|it| it.eq_ignore_ascii_case(end)),
        None => false,
    };
    ends_with(".tgz") || ends_with(".tar.gz") || ends_with(".tar")
}

// Whether the text begins as a URL does, with a protocol.
fn has_protocol(text: &str) -> bool {
    match text.strip_prefix("git+").unwrap_or(text).split_once(':') {
        Some((name, _)) => !name.is_empty() && name.chars().all(|c| c.is_ascii_alphabetic()),
        None => false,
    }
}

// What follows the `@` behind a name, whose scope begins with `@`, too.
fn behind_name(text: &str) -> Option<&str> {
    let name = text.strip_prefix('@').unwrap_or(text);
    let (_, range) = name.rsplit_once('@')?;
    Some(range)
}

// What a range begins with, if not with a number.
const OPERATOR_SIGNS: &[char] = &['^', '~', '<', '>', '=', '*'];

// Whether a text with a `/` looks like a range: it begins as one, with an operator or with numbers.
fn looks_like_range(text: &str) -> bool {
    let front = text.split(['/', ' '].as_slice()).next().unwrap_or("");
    let is_numbers = front.contains('.') && front.chars().all(|c| c.is_ascii_digit() || c == '.');
    is_numbers || text.starts_with(OPERATOR_SIGNS)
}

// Where the name ends of a name with a range behind an `@`.
fn name_end(alias: &str) -> Option<usize> {
    match alias.strip_prefix('@') {
        Some(scoped) => scoped.find('@').map(|place| place.saturating_add(1)),
        None => alias.find('@'),
    }
}

/// The name of the package that the text of a dependency names before its range; none if the text leaves the name to its key.
pub fn renamed(text: &str) -> Option<&str> {
    let other = behind_protocol(text, "npm:").or(behind_protocol(text, "jsr:"));
    let alias = other.or(behind_protocol(text, "workspace:"))?;
    alias.get(..name_end(alias)?)
}

/// The name of a package, and the range behind its `@`, which is empty if there is none.
pub fn name_and_range(text: &str) -> (&str, &str) {
    let Some(end) = name_end(text) else {
        return (text, "");
    };
    let (name, range) = text.split_at_checked(end).unwrap_or((text, ""));
    (name, range.strip_prefix('@').unwrap_or(range))
}

/// Whether the text is the name of a package in a scope and, behind its `@`, a range or a tag.
pub fn is_scoped_with_range(text: &str) -> bool {
    let (name, range) = name_and_range(text);
    name.starts_with('@') && is_package_name(name) && !range.is_empty() && !range.contains('/')
}

/// The indexes at which the names with their ranges end in a key of overrides, between which this text stands. pnpm's `a@>1` has none at the
/// `>`.
pub fn ends_in_key(alloc: Global, key: &str, separator: &str) -> Result<Vec<usize>, AllocError> {
    let mut ends = Vec::new(alloc);
    let mut before = '@';
    for (index, c) in key.char_indices() {
        if separator.starts_with(c) && !matches!(before, ' ' | '|' | '@') {
            ends.push(index)?;
        }
        before = c;
    }
    ends.push(key.len())?;
    Ok(ends)
}

// What npm makes of what follows `npm:`, a name and a range or a tag.
fn of_alias(alias: &str) -> Source<'_> {
    let name_end = name_end(alias);
    let (name, range) = match name_end {
        Some(end) => {
            let (name, range) = alias.split_at_checked(end).unwrap_or((alias, ""));
            (name, range.strip_prefix('@').unwrap_or(range))
        }
        None if alias.is_empty() => {
            return Source::Odd("npm asks for the package `undefined`: a name follows `npm:`");
        }
        None if is_package_name(alias) && !is_archive(alias) => return Source::Elsewhere,
        None
            if alias.starts_with('@')
                && !alias.contains('/')
                && read_range(alias).reading == Reading::Refused => {
            return Source::Refused("npm refuses it: a name follows the scope, as in `@scope/name`");
        }
        // Without a name this is a range.
        None => (alias, alias),
    };
    let names_no_range = is_path(range) || has_protocol(range) || range.contains('/');
    let is_path = name.contains('/') && !name.starts_with('@');
    if is_path || names_no_range || is_archive(range) {
        Source::Refused("npm refuses it: an alias takes the range or the tag of a package")
    } else if name_end.is_none() || is_package_name(name) {
        Source::Registry(range)
    } else if read_range(range).reading == Reading::Refused {
        Source::Registry(range)
    } else {
        Source::Refused("npm refuses it: no package has such a name")
    }
}

// What the place of a repository begins with.
const REPOSITORIES: [&str; 13] = [
    "git:",
    "git+ssh:",
    "git+http:",
    "git+https:",
    "git+file:",
    "git+rsync:",
    "git+ftp:",
    "github:",
    "gitlab:",
    "bitbucket:",
    "gist:",
    "sourcehut:",
    "ssh:",
];

// The protocols that name a host that npm knows.
const SHORT: [&str; 5] = ["github:", "gitlab:", "bitbucket:", "gist:", "sourcehut:"];

// The protocols of repositories with a host behind them.
const WITH_HOST: [&str; 6] = [
    "git:",
    "git+ssh:",
    "git+http:",
    "git+https:",
    "git+rsync:",
    "git+ftp:",
];

// The hosts whose URLs npm takes for repositories.
const HOSTS: [&str; 5] = [
    "github.com",
    "gitlab.com",
    "bitbucket.org",
    "gist.github.com",
    "git.sr.ht",
];

// What follows the protocol of a URL of the web.
fn behind_web(text: &str) -> Option<&str> {
    behind_protocol(text, "https:").or(behind_protocol(text, "http:"))
}

// The host of a URL and the path there, from what follows its `//`. A port follows a colon, or the path does.
fn host_and_path(url: &str) -> (&str, &str) {
    let place = url.split(['?', '#'].as_slice()).next().unwrap_or("");
    let (front, _) = place.split_once('/').unwrap_or((place, ""));
    let start = match front.rfind('@') {
        Some(at) => at.saturating_add(1),
        None => 0,
    };
    let place = place.get(start..).unwrap_or("");
    let end = place.find([':', '/'].as_slice()).unwrap_or(place.len());
    let (host, behind) = place.split_at_checked(end).unwrap_or((place, ""));
    let Some(behind) = behind.strip_prefix(':') else {
        return (host, behind.strip_prefix('/').unwrap_or(""));
    };
    let (port, path) = behind.split_once('/').unwrap_or((behind, ""));
    if port.chars().all(|c| c.is_ascii_digit()) {
        (host, path)
    } else {
        (host, behind)
    }
}

// Whether a repository of GitLab, in groups, is at a path.
fn is_of_gitlab(path: &str) -> bool {
    let (user, name) = path.rsplit_once('/').unwrap_or(("", ""));
    let is_archive = path.contains("/-/") || path.contains("/archive.tar.gz");
    !user.is_empty() && !name.strip_suffix(".git").unwrap_or(name).is_empty() && !is_archive
}

// Whether npm finds a repository at this path of a host.
fn has_repository(host: &str, path: &str) -> bool {
    let (user, rest) = path.split_once('/').unwrap_or((path, ""));
    let (name, rest) = rest.split_once('/').unwrap_or((rest, ""));
    let (kind, _) = rest.split_once('/').unwrap_or((rest, ""));
    let is_named = !name.strip_suffix(".git").unwrap_or(name).is_empty();
    let is_there = !user.is_empty() && is_named;
    let host = host.strip_prefix("www.").unwrap_or(host);
    match host {
        "github.com" => is_there && matches!(kind, "" | "tree"),
        "bitbucket.org" => is_there && kind != "get",
        "gist.github.com" => (!user.is_empty() || !name.is_empty()) && kind != "raw",
        "gitlab.com" => is_of_gitlab(path),
        "git.sr.ht" => is_there && kind != "archive",
        _ => false,
    }
}

/// Whether a text has the protocol `ssh:` where npm refuses it; pnpm, yarn and Bun take it from any host.
pub fn is_refused_ssh(text: &str) -> bool {
    if behind_protocol(text, "ssh:").is_none() {
        return false;
    }
    let Some(url) = text.strip_prefix("ssh://") else {
        return true;
    };
    let (host, path) = host_and_path(url);
    host == "git.sr.ht" || !has_repository(host, path) || has_bad_escape(url)
}

// The host of a repository that is written as `git@HOST:PATH`, as git takes it.
fn host_for_git(text: &str) -> Option<&str> {
    let place = text.split('#').next().unwrap_or("");
    let (user, place) = place.split_once('@')?;
    let (host, path) = place.split_once(':')?;
    let is_there = !user.is_empty() && host.contains('.') && !path.is_empty();
    if is_there && !host.contains('/') && !user.contains([':', '/'].as_slice()) {
        Some(host)
    } else {
        None
    }
}

// Whether npm takes every repository of a host by its URL.
fn is_known_host(host: &str) -> bool {
    HOSTS.contains(&host.strip_prefix("www.").unwrap_or(host))
}

// Whether a text without its `#` is the place of a repository, or its name on GitHub.
fn is_repository(text: &str) -> bool {
    if let Some(url) = behind_web(text) {
        let (host, path) = host_and_path(url.trim_start_matches('/'));
        // npm takes `http:` only from GitHub.
        let is_taken = behind_protocol(text, "https:").is_some()
            || matches!(host, "github.com" | "www.github.com");
        return is_taken && has_repository(host, path);
    }
    if let Some(host) = host_for_git(text) {
        return is_known_host(host);
    }
    let names_one = |(_, name): (&str, &str)| !name.is_empty() && !name.contains('/');
    let is_sign = |c: char| c.is_whitespace() || matches!(c, '@' | ':');
    let is_name = text.split_once('/').is_some_and(names_one) && !text.contains(is_sign);
    let is_place = |front: &&str| behind_protocol(text, *front).is_some();
    is_name && !looks_like_range(text) || REPOSITORIES.iter().any(is_place)
}

/// Whether npm takes a text for the URL of a package, and not of a repository.
pub fn is_remote(text: &str) -> bool {
    behind_web(text).is_some() && !is_repository(text)
}

// What stands behind the `#` of a repository: parts with `::` between neighbours, of which one may name a commit or a range, and one a path.
fn of_repository(behind: &str) -> Source<'_> {
    let mut range = None;
    let (mut has_version, mut has_path, mut is_odd) = (false, false, false);
    for part in behind.split("::") {
        match part.split_once(':') {
            None if part.is_empty() => (),
            Some(("path", _)) if has_path => {
                return Source::Refused("npm refuses it: a repository takes one path");
            }
            Some(("path", _)) => has_path = true,
            Some(("semver", _)) | None if has_version => {
                return Source::Refused(
                    "npm refuses it: a repository takes one commit or one range",
                );
            }
            Some(("semver", text)) => (has_version, range) = (true, Some(text)),
            None => (has_version, is_odd) = (true, part.starts_with(OPERATOR_SIGNS)),
            Some(_) => (),
        }
    }
    match range {
        None if is_odd => Source::Odd(
            "npm takes it for the name of a branch or a tag: write `#semver:` before a range",
        ),
        // An escape stands for another character, and npm drops what follows a second colon.
        Some(range) if behind.ends_with(range) && !range.contains(['%', ':'].as_slice()) => {
            Source::Registry(range)
        }
        _ => Source::Elsewhere,
    }
}

// Whether JavaScript drops a character of a URL.
fn is_dropped(c: char) -> bool {
    matches!(c, '\t' | '\n' | '\r')
}

// A number of an address in IPv4: decimal, octal behind a zero, or hexadecimal behind `0x`.
fn address_number(text: &str) -> Option<u64> {
    if text.is_empty() {
        return None;
    }
    let (digits, radix) = match behind_protocol(text, "0x") {
        Some(digits) => (digits, 16u32),
        None if has_zero(text) => (text, 8),
        None => (text, 10),
    };
    let mut number = 0u64;
    for c in digits.chars() {
        let digit = c.to_digit(radix)?;
        number = number
            .saturating_mul(u64::from(radix))
            .saturating_add(u64::from(digit));
    }
    Some(number)
}

// Whether a host ends in a number, and so must be an address in IPv4, and isn't one.
fn is_bad_address(host: &str) -> bool {
    let host = host.strip_suffix('.').unwrap_or(host);
    let (front, last) = host.rsplit_once('.').unwrap_or(("0", host));
    let number = address_number(last);
    if number.is_none() && !is_number(last) {
        return false;
    }
    // The last number stands for all bytes that are left.
    let limit = match host.split('.').count() {
        1 => 0x1_0000_0000u64,
        2 => 0x100_0000,
        3 => 0x1_0000,
        4 => 0x100,
        _ => 0,
    };
    let is_byte = |part: &str| address_number(part).is_some_and(|number| number < 256);
    !front.split('.').all(is_byte) || !number.is_some_and(|number| number < limit)
}

// The character that the first two hexadecimal digits of a text mean in an escape.
fn escaped_char(digits: &str) -> Option<char> {
    let mut chars = digits.chars();
    let high = chars.next()?.to_digit(16)?;
    let low = chars.next()?.to_digit(16)?;
    char::from_u32(high.saturating_mul(16).saturating_add(low))
}

// Whether an escape doesn't stand for a character that the name of a host may have.
fn is_bad_in_name(behind: &str) -> bool {
    let is_sign = |c: char| c <= ' ' || c == '\u{7f}' || "#%/:<>?@[\\]^|".contains(c);
    match escaped_char(behind) {
        Some(c) => is_sign(c),
        None => true,
    }
}

// Whether a part of a host begins as a name in Punycode does, and is too short for one.
fn is_bad_punycode(part: &str) -> bool {
    behind_protocol(part, "xn--").is_some_and(|name| name.len() < 2)
}

// Whether no URL of the web or of a file has this host.
fn is_bad_name(host: &str) -> bool {
    is_bad_address(host)
        || host.split('%').skip(1).any(is_bad_in_name)
        || host.split('.').any(is_bad_punycode)
}

// Whether a URL may have this host, a colon and this port behind its user.
fn is_host(place: &str, is_of_web: bool) -> bool {
    // An address of IPv6 stands in brackets.
    let (address, rest) = match place.strip_prefix('[') {
        Some(behind) => behind.split_once(']').unwrap_or(("", "[")),
        None => ("", place),
    };
    let (host, port) = rest.split_once(':').unwrap_or((rest, ""));
    let is_port = port.is_empty() || is_number(port) && port.parse::<u16>().is_ok();
    let is_sign = |c: char| {
        c.is_whitespace() || "<>^|[]\\".contains(c) || is_of_web && c.is_control()
    };
    let has_sign = host.contains(|c: char| is_sign(c) && !is_dropped(c));
    let is_there = if address.is_empty() {
        !host.is_empty()
    } else {
        host.is_empty() && is_address(address)
    };
    is_port && is_there && !has_sign && !(is_of_web && is_bad_name(host))
}

// Whether npm takes what stands behind `git+ssh://` for `git@HOST:PATH`: no number follows a colon.
fn has_path_behind_colon(url: &str) -> bool {
    let place = url.split('#').next().unwrap_or("");
    let (front, behind) = place.split_once(':').unwrap_or(("", ""));
    let is_digit = |c: char| c.is_ascii_digit();
    let is_there = !front.is_empty() && !behind.is_empty();
    is_there && !behind.split(':').any(|part| part.starts_with(is_digit))
}

// What follows the `//` in the URL of a repository with a host.
fn behind_slashes(text: &str) -> Option<&str> {
    for front in &WITH_HOST {
        if let Some(url) = behind_protocol(text, front) {
            return url.strip_prefix("//");
        }
    }
    None
}

// A URL without the spaces and control characters behind it, which JavaScript drops.
fn without_spaces_behind(url: &str) -> &str {
    url.trim_end_matches(|c: char| c <= ' ')
}

// Whether a text is a URL whose host or port npm doesn't take.
fn has_bad_host(text: &str) -> bool {
    let text = without_spaces_behind(text);
    let (url, is_of_web) = match behind_web(text) {
        Some(url) => (url.trim_start_matches(['/', '\\'].as_slice()), true),
        None => (behind_slashes(text).unwrap_or(""), false),
    };
    if behind_protocol(text, "git+ssh:").is_some() && has_path_behind_colon(url) {
        return false;
    }
    let is_end = |c: char| matches!(c, '/' | '?' | '#') || is_of_web && c == '\\';
    let place = url.split(is_end).next().unwrap_or("");
    let (has_user, place) = match place.rsplit_once('@') {
        Some((_, place)) => (true, place),
        None => (false, place),
    };
    let (host, _) = place.split_once(':').unwrap_or((place, ""));
    // A URL needs a host if it is of the web or has a user, and npm mends one of a host that it knows.
    let has_place = is_of_web || has_user || !place.is_empty();
    has_place && !is_known_host(host) && !is_host(place, is_of_web)
}

// Whether the text is the address of a host in IPv6.
fn is_address(text: &str) -> bool {
    let is_part = |c: char| c.is_ascii_hexdigit() || matches!(c, ':' | '.');
    text.contains(':') && text.chars().all(is_part)
}

// Whether the text is a drive, which JavaScript takes for the front of a path.
fn is_drive(text: &str) -> bool {
    let is_letter = |c: char| c.is_ascii_alphabetic();
    text.len() == 2 && text.starts_with(is_letter) && text.ends_with([':', '|'].as_slice())
}

// Whether the URL of a file may have this host.
fn is_host_of_file(host: &str) -> bool {
    if let Some(behind) = host.strip_prefix('[') {
        return is_address(behind.strip_suffix(']').unwrap_or(""));
    }
    let is_sign = |c: char| c.is_whitespace() || c.is_control() || "<>^|@:[]".contains(c);
    !host.contains(|c: char| is_sign(c) && !is_dropped(c)) && !is_bad_name(host)
}

// The host in the path or the URL of a file: what stands behind two slashes, up to the next.
fn host_of_file(path: &str) -> &str {
    let slashes = ['/', '\\'].as_slice();
    let path = without_spaces_behind(path);
    let behind = path.strip_prefix(slashes).unwrap_or("");
    let place = behind.strip_prefix(slashes).unwrap_or("");
    let ends = ['/', '\\', '?', '#'].as_slice();
    place.split(ends).next().unwrap_or("")
}

// Why npm refuses the path or the URL of a file, if it does.
fn refusal_of_file(text: &str) -> Option<&'static str> {
    let url = text.strip_prefix("file:");
    if url.is_none() && !text.starts_with('/') {
        return None;
    }
    let host = host_of_file(url.unwrap_or(text));
    let is_taken = url.is_some() || host.is_empty() || host.eq_ignore_ascii_case("localhost");
    if !is_drive(host) && !(is_taken && is_host_of_file(host)) {
        return Some("npm refuses it: a host stands behind `//`; begin a path with `/` or `./`");
    }
    let rest = text.trim_start_matches('/');
    let slashes = text.len().saturating_sub(rest.len());
    let is_back = matches!(rest.split('/').next(), Some("." | ".."));
    if url.is_none() && is_back && slashes <= 3 {
        return Some("npm refuses it: write `file:` before the path");
    }
    None
}

// Whether some `%` isn't followed by two hexadecimal digits.
fn has_bad_escape(text: &str) -> bool {
    let is_digit = |c: Option<char>| c.is_some_and(|c| c.is_ascii_hexdigit());
    let is_bad = |behind: &str| {
        let mut chars = behind.chars();
        !is_digit(chars.next()) || !is_digit(chars.next())
    };
    text.split('%').skip(1).any(is_bad)
}

// Whether npm reads an escape in a text as in the path of a file, or in the name of a repository or of a commit, and can't.
fn has_refused_escape(text: &str) -> bool {
    let (place, commit) = text.split_once('#').unwrap_or((text, ""));
    let path = place.split('?').next().unwrap_or("");
    let is_place = |front: &&str| behind_protocol(text, *front).is_some();
    if SHORT.iter().any(is_place) {
        return has_bad_escape(path) || has_bad_escape(commit);
    }
    let is_file = is_path(text) || behind_protocol(text, "file:").is_some();
    let is_named = !has_protocol(text) && (text.contains('/') || is_archive(text));
    // npm takes a name on GitHub with such an escape for a folder.
    (is_file || is_named) && has_bad_escape(path)
}

// What a text is whose first `/` has these texts before and behind it, and that may be the path of a folder or the name of a repository.
fn of_folder<'t>(text: &str, front: &str, rest: &str) -> Source<'t> {
    let place = text.split('#').next().unwrap_or("");
    if is_repository(place) {
        Source::Elsewhere
    } else if text.contains("://") {
        Source::Odd("npm reads it as a folder: it doesn't know the protocol")
    } else if is_known_host(front) {
        Source::Odd("npm reads it as a folder: write `https://` before it for a repository")
    } else if place.len() < text.len() && place.ends_with(is_space) {
        Source::Odd("npm reads it as a folder: leave out the space before `#`")
    } else if rest.contains('@') && !rest.contains('/') && !front.starts_with('@') {
        Source::Odd(
            "npm reads it as a folder: the tag of a repository follows `#`, and a range `#semver:`",
        )
    } else {
        Source::Elsewhere
    }
}

// Whether npm takes a text with whitespace before `github:` or the like for a repository, and drops the name of its user.
fn is_moved(text: &str) -> bool {
    let behind = text.trim_start_matches(|c: char| c <= ' ');
    let is_place = |front: &&str| behind_protocol(behind, *front).is_some();
    let is_sign = |c: char| c.is_whitespace() || c == '@';
    behind.len() < text.len() && SHORT.iter().any(is_place) && !behind.contains(is_sign)
}

/// Where a dependency comes from, by its text. The protocols of other package managers are known as well.
pub fn source_of(text: &str) -> Source<'_> {
    if has_refused_escape(text) {
        return Source::Refused("npm refuses it: two hexadecimal digits follow a `%`");
    }
    if let Some(message) = refusal_of_file(text) {
        return Source::Refused(message);
    }
    if is_path(text) {
        let is_number = |c: char| c.is_ascii_digit();
        return match text.strip_prefix('.') {
            Some(rest) if rest.starts_with(is_number) => Source::Odd("npm reads it as a folder"),
            _ => Source::Elsewhere,
        };
    }
    if let Some(alias) = behind_protocol(text, "npm:") {
        return of_alias(alias);
    }
    let own = behind_protocol(text, "jsr:");
    if let Some(range) = own.or(behind_protocol(text, "workspace:")) {
        return match range {
            "^" | "~" => Source::Elsewhere,
            _ if is_path(range) => Source::Elsewhere,
            _ if range.contains(['@', '/'].as_slice()) => match behind_name(range) {
                Some(range) => Source::Registry(range),
                None => Source::Elsewhere,
            },
            _ => Source::Registry(range),
        };
    }
    if is_moved(text) {
        return Source::Odd(
            "npm reads it as another repository: leave out the whitespace before it",
        );
    }
    if is_refused_ssh(text) {
        return Source::Refused("npm refuses it: write `git+ssh:` in place of `ssh:`");
    }
    if has_bad_host(text) {
        return Source::Refused("npm refuses it: the URL has no valid host or port");
    }
    if let Some((place, behind)) = text.split_once('#')
        && is_repository(place)
    {
        return of_repository(behind);
    }
    match host_for_git(text) {
        // A gist has a name alone.
        Some("gist.github.com") => return Source::Elsewhere,
        Some(host) if !is_known_host(host) && text.contains('/') => {
            return Source::Odd(
                "npm reads it as a folder: write `git+ssh://git@HOST/PATH` for a repository",
            );
        }
        _ => (),
    }
    if is_protocol(text) {
        return Source::Elsewhere;
    }
    if has_protocol(text) {
        return Source::Refused("no package manager knows this protocol");
    }
    if is_archive(text) {
        return Source::Elsewhere;
    }
    if is_scoped_with_range(text) {
        return Source::Odd("npm reads it as a folder: leave the package's name out");
    }
    match text.split_once('/') {
        None => Source::Registry(text),
        Some((front, rest)) if !looks_like_range(text) => of_folder(text, front, rest),
        Some((_, rest)) if rest.contains('/') || text.contains(' ') || rest.is_empty() => {
            Source::Odd("npm reads it as a folder")
        }
        Some(_) => Source::Odd("npm reads it as a repository of GitHub"),
    }
}

// The protocols that npm doesn't know, and other package managers do.
const FOREIGN: [&str; 7] = [
    "workspace:",
    "catalog:",
    "link:",
    "portal:",
    "patch:",
    "exec:",
    "jsr:",
];

/// Whether npm refuses the text of a dependency, which another package manager may take.
pub fn is_refused(text: &str) -> bool {
    let is_bad = |reading: Reading| matches!(reading, Reading::Refused | Reading::TooLarge);
    match source_of(text) {
        _ if is_foreign(text) => true,
        Source::Refused(_) => true,
        Source::Registry(range) => is_bad(read_range(range).reading),
        Source::Elsewhere | Source::Odd(_) => false,
    }
}

/// Whether the text of a dependency has a protocol of other package managers than npm.
pub fn is_foreign(text: &str) -> bool {
    FOREIGN
        .iter()
        .any(|protocol| behind_protocol(text, protocol).is_some())
}

// ---- ranges

// npm's numbers go up to this one.
const LARGEST: u64 = 9_007_199_254_740_991;

// A longer version is none.
const LONG: usize = 256;

// What npm makes of a word of an alternative.
#[derive(Clone, Copy, PartialEq, Eq)]
enum Word {
    Comparator,
    /// A comparator that every version matches. npm takes it only at the front or at the end of an alternative.
    Any,
    /// A comparator with a number that is too large, or a version that is too long.
    TooLarge,
    Ignored,
}

// Whether JavaScript, and so npm, takes the character for whitespace.
fn is_space(c: char) -> bool {
    c == '\u{feff}' || c.is_whitespace() && c != '\u{85}'
}

fn is_wildcard(text: &str) -> bool {
    matches!(text, "x" | "X" | "*")
}

fn is_number(text: &str) -> bool {
    !text.is_empty() && text.chars().all(|c| c.is_ascii_digit())
}

// Whether the number is too large, or the one behind it, where that ends the range.
fn is_large(digits: &str, is_stepped: bool) -> bool {
    match digits.parse::<u64>() {
        Ok(number) => number > LARGEST || is_stepped && number == LARGEST,
        Err(_) => is_number(digits),
    }
}

// Whether the text is identifiers with a `.` between two.
fn are_identifiers(text: &str) -> bool {
    text.split('.').all(|part| {
        !part.is_empty() && part.chars().all(|c| c.is_ascii_alphanumeric() || c == '-')
    })
}

// Whether a pre-release, whose `-` may be missing, and a build may be this text.
fn ends_version(text: &str) -> bool {
    match text.split_once('+') {
        Some((pre, build)) => (pre.is_empty() || are_identifiers(pre)) && are_identifiers(build),
        None => text.is_empty() || are_identifiers(text),
    }
}

// Whether the text is a number with a zero in front.
fn has_zero(text: &str) -> bool {
    text.len() > 1 && text.starts_with('0') && is_number(text)
}

// Whether a pre-release and a build may be this text in the strict grammar.
fn ends_version_strictly(text: &str) -> bool {
    let (pre, is_build) = match text.split_once('+') {
        Some((pre, build)) => (pre, are_identifiers(build)),
        None => (text, true),
    };
    let is_pre = match pre.strip_prefix('-') {
        Some(pre) => are_identifiers(pre) && !pre.split('.').any(has_zero),
        None => pre.is_empty(),
    };
    is_pre && is_build
}

// How npm reads a range.
#[derive(Clone, Copy, PartialEq, Eq)]
enum Mode {
    /// It ignores what isn't a comparator, as in dependencies.
    Loose,
    /// It refuses that, as in `engines` and in the keys of `overrides`.
    Strict,
}

// What may stand for a version.
#[derive(Clone, Copy, PartialEq, Eq)]
enum Form {
    Whole,
    /// It may lack numbers, or have wildcards.
    Partial,
    /// The same behind a `~`.
    Tilde,
    /// The same behind a `^`.
    Caret,
}

// Whether a version in this form, as npm reads it loosely, with these signs in front of its numbers is one in the strict grammar, too.
fn is_strict(signs: &str, numbers: &str, form: Form) -> bool {
    let (major, rest) = numbers.split_once('.').unwrap_or((numbers, ""));
    let (minor, last) = rest.split_once('.').unwrap_or((rest, ""));
    let patch_end = last
        .find(|c: char| !c.is_ascii_digit())
        .unwrap_or(last.len());
    let (patch, behind) = last.split_at_checked(patch_end).unwrap_or((last, ""));
    let behind = if patch.is_empty() {
        behind
            .strip_prefix(['x', 'X', '*'].as_slice())
            .unwrap_or(behind)
    } else {
        behind
    };
    let is_full = is_number(major) && is_number(minor) && is_number(patch);
    let has_signs = !matches!(signs, "" | "v") && matches!(form, Form::Whole | Form::Partial);
    let has_zeros = has_zero(major) || has_zero(minor) || has_zero(patch);
    !has_zeros && !(is_full && has_signs) && ends_version_strictly(behind)
}

// What npm makes of a version in this form.
fn version(text: &str, form: Form, mode: Mode) -> Word {
    let numbers = text.trim_start_matches(['v', '='].as_slice());
    match read_version(numbers, form) {
        Word::Ignored => Word::Ignored,
        found => {
            let signs = text.strip_suffix(numbers).unwrap_or("");
            if mode == Mode::Strict && !is_strict(signs, numbers, form) {
                Word::Ignored
            } else {
                found
            }
        }
    }
}

// What npm makes of a version in this form, without signs, where it reads loosely.
fn read_version(text: &str, form: Form) -> Word {
    let is_whole = form == Form::Whole;
    let (major, rest) = match text.split_once('.') {
        Some((major, rest)) => (major, Some(rest)),
        None => (text, None),
    };
    let (minor, rest) = match rest.and_then(|rest| rest.split_once('.')) {
        Some((minor, rest)) => (Some(minor), Some(rest)),
        None => (rest, None),
    };
    let is_part = |part: &str| is_number(part) || !is_whole && is_wildcard(part);
    if !is_part(major) || minor.is_some_and(|minor| !is_part(minor)) {
        return Word::Ignored;
    }
    let Some(rest) = rest else {
        let is_caret = form == Form::Caret;
        let is_too_large = is_large(major, is_caret || minor.is_none())
            || minor.is_some_and(|minor| is_large(minor, !is_caret));
        return match (is_whole, is_too_large) {
            (true, _) => Word::Ignored,
            (false, _) if is_wildcard(major) => Word::Any,
            (false, true) => Word::TooLarge,
            (false, false) => Word::Comparator,
        };
    };
    // Digits behind the first one may be of the patch version or of a pre-release.
    let is_patch = |c: char| c.is_ascii_digit() || !is_whole && matches!(c, 'x' | 'X' | '*');
    match rest.strip_prefix(is_patch) {
        Some(behind) if ends_version(behind) => (),
        _ => return Word::Ignored,
    }
    if is_wildcard(major) {
        return Word::Any;
    }
    let patch_end = rest.find(|c: char| !c.is_ascii_digit());
    let patch = rest.get(..patch_end.unwrap_or(rest.len())).unwrap_or("");
    let is_too_large = is_large(major, form == Form::Caret)
        || minor.is_some_and(|minor| is_large(minor, false))
        || is_large(patch, false);
    if is_too_large || text.split('+').next().unwrap_or("").len() > LONG {
        Word::TooLarge
    } else {
        Word::Comparator
    }
}

// The text behind `<`, `<=`, `>`, `>=`, `=` or nothing.
fn behind_operator(text: &str) -> &str {
    let text = text.strip_prefix(['<', '>'].as_slice()).unwrap_or(text);
    text.strip_prefix('=').unwrap_or(text)
}

// What npm makes of a word behind an operator that stands alone, or behind nothing.
fn word_of(operator: &str, word: &str, mode: Mode) -> Word {
    let (is_tilde, bare) = match operator {
        "^" | "^=" => return version(word, Form::Caret, mode),
        "~" | "~=" | "~>" | "~>=" => (true, word),
        "" => match (word.strip_prefix('^'), word.strip_prefix('~')) {
            (Some(bare), _) => return version(bare, Form::Caret, mode),
            (_, Some(bare)) => (true, bare),
            (None, None) => (false, behind_operator(word)),
        },
        "<" | ">" => (false, word.strip_prefix('=').unwrap_or(word)),
        _ => (false, word),
    };
    if is_tilde {
        let bare = bare.strip_prefix('>').unwrap_or(bare);
        return version(bare, Form::Tilde, mode);
    }
    match version(bare, Form::Partial, mode) {
        Word::Ignored => (),
        // No version is below all others or above them.
        Word::Any if matches!(operator, "<" | ">") => return Word::Comparator,
        Word::Any if word.starts_with(['<', '>'].as_slice()) && !word.contains('=') => {
            return Word::Comparator;
        }
        found => return found,
    }
    // npm drops the first `*` of any other word, with the operator in front of it.
    match bare.split_once('*') {
        Some(("", behind)) => version(behind_operator(behind), Form::Whole, mode),
        Some((before, "")) => {
            let before = before.strip_suffix('=').unwrap_or(before);
            let before = before.strip_suffix(['<', '>'].as_slice()).unwrap_or(before);
            version(before, Form::Whole, mode)
        }
        _ => Word::Ignored,
    }
}

// What stands in front of a partial version.
fn is_sign(c: char) -> bool {
    matches!(c, '^' | '~' | '<' | '>' | '=' | 'v')
}

// The operators that npm joins with what follows them, the longer ones first.
const OPERATORS: [&str; 11] = ["~>=", "~>", "~=", "^=", "<=", ">=", "<", ">", "=", "^", "~"];

// What a word is before the operator that ends it, and this operator, which is empty if there is none.
fn split_operator(word: &str) -> (&str, &str) {
    let Some(operator) = OPERATORS.iter().find(|it| word.ends_with(**it)) else {
        return (word, "");
    };
    let (front, operator) = word
        .split_at_checked(word.len().saturating_sub(operator.len()))
        .unwrap_or((word, ""));
    // npm reads these signs as a part of the version behind them.
    if operator == "=" && front.ends_with(['=', 'v'].as_slice()) {
        (word, "")
    } else {
        (front, operator)
    }
}

// Whether npm joins an operator with this word.
fn is_joined(operator: &str, word: &str) -> bool {
    let number = word.trim_start_matches(['v', '='].as_slice());
    matches!(operator, "^" | "~" | "~>")
        || number.starts_with(|c: char| c.is_ascii_digit() || "xX*".contains(c))
}

// An operator that ends a word, and waits for what follows.
#[derive(Clone, Copy)]
struct Operator<'t> {
    /// The word.
    word: &'t str,
    sign: &'t str,
    /// Whether it is the whole word.
    is_bare: bool,
}

impl<'t> Operator<'t> {
    // The operator with which this word goes on or ends, if it does.
    fn next(before: Option<Operator<'t>>, word: &'t str) -> Option<Operator<'t>> {
        let (front, sign) = split_operator(word);
        let Some(before) = before else {
            let is_bare = front.is_empty();
            return match sign {
                "" => None,
                sign => Some(Operator {
                    word,
                    sign,
                    is_bare,
                }),
            };
        };
        match (before.sign, word) {
            _ if sign.is_empty() => None,
            ("~", ">" | ">=") if before.is_bare => Some(Operator {
                sign: "~>",
                ..before
            }),
            ("^" | "~" | "~>", "=") => Some(before),
            (_, _) => Some(Operator {
                sign,
                is_bare: false,
                ..before
            }),
        }
    }
}

// An alternative as npm reads it.
#[derive(Clone, Copy)]
struct Alternative<'t> {
    mode: Mode,
    is_kept: bool,
    is_too_large: bool,
    ignored: Option<&'t str>,
    /// What the last word was.
    last: Option<Word>,
}

impl<'t> Alternative<'t> {
    fn take(&mut self, text: &'t str, word: Word) {
        match word {
            Word::Comparator => self.is_kept = true,
            Word::Any => self.is_kept |= self.last.is_none(),
            Word::TooLarge => self.is_too_large = true,
            Word::Ignored => self.ignored = self.ignored.or(Some(text)),
        }
        self.last = Some(word);
    }

    // Takes a word, with the operator that npm joins with it.
    fn join(&mut self, operator: Option<Operator<'t>>, text: &'t str) {
        match operator {
            Some(operator) if operator.is_bare => {
                self.take(text, word_of(operator.sign, text, self.mode));
            }
            Some(operator) => self.take(operator.word, Word::Ignored),
            None => self.take(text, word_of("", text, self.mode)),
        }
    }
}

// The versions at both ends of a text with a hyphen between them, if it has such.
fn ends_of(text: &str, mode: Mode) -> Option<(Word, Word)> {
    let (from, rest) = text.split_once(is_space)?;
    let (hyphen, to) = rest.trim_start_matches(is_space).split_once(is_space)?;
    if hyphen != "-" {
        return None;
    }
    // A version with whitespace in it is none.
    let to = to.trim_start_matches(is_space);
    let from = version(from, Form::Partial, mode);
    // npm writes a second version with a pre-release anew, without its signs.
    let has_pre = to.split('+').next().unwrap_or("").contains('-');
    let form = if has_pre { Form::Tilde } else { Form::Partial };
    let to = version(to, form, mode);
    if from == Word::Ignored || to == Word::Ignored {
        None
    } else {
        Some((from, to))
    }
}

fn alternative_of(text: &str, mode: Mode) -> Alternative<'_> {
    let text = text.trim_matches(is_space);
    let mut all = Alternative {
        mode,
        is_kept: text.is_empty(),
        is_too_large: false,
        ignored: None,
        last: None,
    };
    if let Some((from, to)) = ends_of(text, mode) {
        all.is_too_large = from == Word::TooLarge || to == Word::TooLarge;
        all.is_kept = !all.is_too_large;
        return all;
    }
    let mut waiting: Option<Operator<'_>> = None;
    for word in text.split(is_space) {
        if word.is_empty() {
            continue;
        }
        let operator = match waiting.take() {
            Some(operator) if !is_joined(operator.sign, word) => {
                all.take(operator.word, Word::Ignored);
                None
            }
            operator => operator,
        };
        waiting = Operator::next(operator, word);
        if waiting.is_none() {
            all.join(operator, word);
        }
    }
    if let Some(operator) = waiting {
        all.take(operator.word, Word::Ignored);
    }
    all.is_kept |= all.last == Some(Word::Any);
    all
}

/// How npm reads a range or a tag.
pub fn read_range(text: &str) -> Read<'_> {
    let mut read = Read {
        reading: Reading::Refused,
        dropped: None,
        ignored: None,
    };
    let mut is_too_large = false;
    for part in text.split("||") {
        let alternative = alternative_of(part, Mode::Loose);
        is_too_large |= alternative.is_too_large;
        if alternative.is_kept {
            read.reading = Reading::Range;
            read.ignored = read.ignored.or(alternative.ignored);
        } else {
            read.dropped = read.dropped.or(Some(part.trim_matches(is_space)));
        }
    }
    if is_too_large || read.reading == Reading::Refused {
        read.reading = if is_url_text(text.trim_matches(is_space)) {
            Reading::Tag
        } else if is_too_large {
            Reading::TooLarge
        } else {
            Reading::Refused
        };
    }
    read
}

/// What npm refuses in a range of `engines` or of a key in `overrides`, which it reads strictly; none if it takes the range.
pub fn refused_part(text: &str) -> Option<&str> {
    for part in text.split("||") {
        let alternative = alternative_of(part, Mode::Strict);
        if alternative.is_too_large {
            return Some(part.trim_matches(is_space));
        }
        if alternative.ignored.is_some() {
            return alternative.ignored;
        }
    }
    None
}

// The operator of a comparator that npm reads, and its numbers up to a wildcard, as npm drops what follows.
fn parts_of(word: &str) -> (&'static str, &str) {
    let numbers = word.trim_start_matches(is_sign);
    let operator = match word.strip_suffix(numbers).unwrap_or("") {
        signs if signs.starts_with("<=") => "<=",
        signs if signs.starts_with(">=") => ">=",
        signs if signs.starts_with('<') => "<",
        signs if signs.starts_with('>') => ">",
        signs if signs.starts_with('^') => "^",
        signs if signs.starts_with('~') => "~",
        _ => "",
    };
    let mut end = 0usize;
    for (place, part) in numbers.split('.').enumerate() {
        end = end.saturating_add(1);
        let has_pre = place == 2 && part.starts_with(['x', 'X', '*'].as_slice());
        if has_pre || is_wildcard(part) {
            return (operator, numbers.get(..end).unwrap_or(numbers));
        }
        if !is_number(part) {
            break;
        }
        end = end.saturating_add(part.len());
    }
    (operator, numbers)
}

/// The range that npm reads in a text, written so that Deno reads the same: without the words that npm ignores, the alternatives that it
/// leaves out, and what it drops behind a wildcard. None if npm reads no range, or ignores a word beside an operator that stands alone, or
/// if Deno can't read all of it, such as `1.0.0beta`.
pub fn as_read(alloc: Global, text: &str) -> Result<Option<String>, AllocError> {
    if read_range(text).reading != Reading::Range {
        return Ok(None);
    }
    let mut kept = String::new(alloc);
    let mut is_first = true;
    for part in text.split("||") {
        let alternative = alternative_of(part, Mode::Loose);
        if !alternative.is_kept {
            continue;
        }
        if !is_first {
            kept.push_str("|| ")?;
        }
        is_first = false;
        let has_operator = part
            .split(is_space)
            .any(|word| !split_operator(word).1.is_empty());
        if has_operator && alternative.ignored.is_some() {
            return Ok(None);
        }
        let has_ends = ends_of(part.trim_matches(is_space), Mode::Loose).is_some();
        let mut joined = String::new(alloc);
        for word in part.split(is_space) {
            joined.push_str(word)?;
            if word.is_empty() || !split_operator(word).1.is_empty() {
                continue;
            }
            if has_ends && word == "-" {
                kept.push_str("- ")?;
            } else if word_of("", joined.as_str(), Mode::Loose) != Word::Ignored {
                let (operator, numbers) = parts_of(joined.as_str());
                kept.push_str(operator)?;
                kept.push_str(numbers)?;
                kept.push(' ')?;
            }
            joined.clear();
        }
    }
    // Deno doesn't read an empty alternative there.
    if kept.as_str().ends_with("|| ") {
        kept.push('*')?;
    }
    if invalid_pieces_behind(alloc, 0, kept.as_str(), Flavour::Npm)?.is_empty() {
        Ok(Some(kept))
    } else {
        Ok(None)
    }
}

// The number that a text is.
fn number(text: &str) -> Option<u64> {
    if !is_number(text) {
        return None;
    }
    match text.parse::<u64>() {
        Ok(number) => Some(number),
        Err(_) => None,
    }
}

// The three numbers that a text is.
fn numbers(text: &str) -> Option<(u64, u64, u64)> {
    let (major, rest) = text.split_once('.')?;
    let (minor, patch) = rest.split_once('.')?;
    Some((number(major)?, number(minor)?, number(patch)?))
}

// Whether the first of two versions is the lower one.
fn is_below(one: (u64, u64, u64), other: (u64, u64, u64)) -> bool {
    if one.0 != other.0 {
        one.0 < other.0
    } else if one.1 != other.1 {
        one.1 < other.1
    } else {
        one.2 < other.2
    }
}

/// A version in a range whose pre-release is itself a higher version, as of `1.0.0-2.0.0`: what stands before the `-`, and behind it.
pub fn version_as_pre_release(range: &str) -> Option<(&str, &str)> {
    for part in range.split("||") {
        if let Some((from, to)) = part.trim().split_once('-')
            && let Some(one) = numbers(from)
            && let Some(other) = numbers(to)
            && is_below(one, other)
        {
            return Some((from, to));
        }
    }
    None
}

/// Whether a version in the text is longer than npm's are.
pub fn has_long_word(text: &str) -> bool {
    for word in text.split(is_space) {
        if word.len() > LONG {
            return true;
        }
    }
    false
}

/// A comparator with a number behind a wildcard, which npm drops, and what npm reads in its place.
pub fn number_behind_wildcard(text: &str) -> Option<(&str, &str)> {
    for word in text.split_whitespace() {
        let (mut start, mut wildcard_end) = (0usize, None);
        for part in word.split('.') {
            let number = part.split(['-', '+'].as_slice()).next().unwrap_or("");
            let end = start.saturating_add(part.len());
            match wildcard_end {
                Some(end) if is_number(number) => return Some((word, word.get(..end)?)),
                None if is_wildcard(part.trim_start_matches(is_sign)) => wildcard_end = Some(end),
                _ => (),
            }
            if number.len() < part.len() {
                break;
            }
            start = end.saturating_add(1);
        }
    }
    None
}

/// Whether an identifier is empty in the pre-release or the build of a version in the text.
pub fn has_empty_identifier(text: &str) -> bool {
    for word in text.split(is_space) {
        let start = word.find(['-', '+'].as_slice()).unwrap_or(word.len());
        let behind = word.get(start..).unwrap_or("");
        let is_empty = behind.contains("..") || behind.contains(".+");
        if is_empty || behind.ends_with(['.', '+'].as_slice()) {
            return true;
        }
    }
    false
}

/// A number of a pre-release with a zero in front, which node-semver refuses.
pub fn number_behind_zero(text: &str) -> Option<&str> {
    for word in text.split([' ', '\t', '|', ','].as_slice()) {
        let version = word.split('+').next().unwrap_or("");
        let (_, pre) = version.split_once('-').unwrap_or(("", ""));
        for part in pre.split('.') {
            if part.len() > 1 && part.starts_with('0') && is_number(part) {
                return Some(part);
            }
        }
    }
    None
}

/// Why npm refuses the range behind the name in a key of overrides whatever the tree has, if it does.
pub fn refusal_of_key_range(text: &str) -> Option<&'static str> {
    if is_foreign(text) {
        return Some("npm refuses it: it doesn't know this protocol");
    }
    match source_of(text) {
        Source::Refused(message) => Some(message),
        // npm reads the range of a repository's tags only when it fetches one.
        Source::Registry(range)
            if range.len() == text.len() || behind_protocol(text, "npm:").is_some() => {
            match read_range(range).reading {
                Reading::Refused | Reading::TooLarge => Some("npm refuses it: Invalid tag name"),
                Reading::Range | Reading::Tag => None,
            }
        }
        Source::Registry(_) | Source::Elsewhere | Source::Odd(_) => None,
    }
}

/// Why npm refuses a key of overrides that names no package. It reads a key without a slash as a range or a tag.
pub fn refusal_of_key(key: &str) -> &'static str {
    let (name, _) = name_and_range(key);
    let is_place = is_path(name) || name.contains(['/', ':'].as_slice()) || is_archive(name);
    let is_refused = matches!(
        read_range(key).reading,
        Reading::Refused | Reading::TooLarge
    );
    if !is_place && name.len() < key.len() {
        "npm refuses it: Invalid package name"
    } else if !is_place && is_refused {
        "npm refuses it: Invalid tag name"
    } else {
        "npm refuses it: Override without name"
    }
}

/// Whether the text refers to a dependency, as a text of overrides may.
pub fn is_reference(text: &str) -> bool {
    text.starts_with('$')
}

/// Whether npm takes a text as a version.
pub fn is_version(text: &str) -> bool {
    version(text.trim_matches(is_space), Form::Whole, Mode::Loose) == Word::Comparator
}
