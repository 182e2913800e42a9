//! The commands over lists of versions: `filter`, `best`, `outdated`, `simplify`, `sort` and `key`.

use crate::comparing::{print_answer, print_tag, reject};
use answers::asking::Answer;
use answers::object::Object;
use answers::outdated::standing_of;
use answers::reading::ranges;
use answers::simplifying::simplified;
use answers::sorting::{Order, sorted_places};
use deno_semver::resolve::max_satisfying_with;
use deno_semver::{PreRelease, Version, VersionReq};
use serde_json::Value;
use std::alloc::Global;
use std::io::Write;
use terminal::console::{Console, Status, Stop};
use terminal::given::Given;
use terminal::input::{Take, take_all};

// Prints the text of a version, as a line or as an item of an array.
fn print_text<O: Write, E: Write>(console: &mut Console<O, E>, text: &str) -> Result<(), Stop> {
    if console.options.json {
        return console.item(Value::try_from_str(console.alloc, text));
    }
    let end = console.options.line_end();
    console.out.write_all(text.as_bytes())?;
    Ok(console.out.write_all(end.as_bytes())?)
}

// Whether each of the ranges matches the version.
fn all_match(ranges: &[VersionReq], version: &Version, pre_release: PreRelease) -> bool {
    ranges.iter().all(|range| range.tag().is_none() && range.matches_with(version, pre_release))
}

// Prints each version that all ranges match, or each that they don't.
#[derive(Drop)]
struct Filtering<'a> {
    ranges: &'a [VersionReq],
    pre_release: PreRelease,
    is_inverted: bool,
    /// Whether only the status tells if a version is printed.
    is_quiet: bool,
    has_printed: bool,
}

impl Take for Filtering<'_> {
    fn take<O: Write, E: Write>(
        &mut self,
        console: &mut Console<O, E>,
        text: &str,
        version: Version,
    ) -> Result<(), Stop> {
        if all_match(self.ranges, &version, self.pre_release) != self.is_inverted {
            self.has_printed = true;
            print_text(console, text)?;
        }
        Ok(())
    }

    fn is_done(&self) -> bool {
        self.is_quiet && self.has_printed
    }
}

// The versions that all of some ranges match, each with the text it was parsed from.
#[derive(Drop)]
struct Listed<'a> {
    ranges: &'a [VersionReq],
    pre_release: PreRelease,
    texts: Vec<String>,
    versions: Vec<Version>,
}

impl<'a> Listed<'a> {
    fn new(alloc: Global, ranges: &'a [VersionReq], pre_release: PreRelease) -> Listed<'a> {
        Listed {
            ranges,
            pre_release,
            texts: Vec::new(alloc),
            versions: Vec::new(alloc),
        }
    }

    // The text of the highest version that the range matches; a tag matches none.
    fn highest(&self, range: &VersionReq) -> Option<&str> {
        if range.tag().is_some() {
            return None;
        }
        self.text(max_satisfying_with(self.versions.as_slice(), range, self.pre_release))
    }

    // The text of the version at a place, if there is one.
    fn text(&self, place: Option<usize>) -> Option<&str> {
        Some(self.texts.get(place?)?.as_str())
    }
}

impl Take for Listed<'_> {
    fn take<O: Write, E: Write>(
        &mut self,
        console: &mut Console<O, E>,
        text: &str,
        version: Version,
    ) -> Result<(), Stop> {
        if all_match(self.ranges, &version, self.pre_release) {
            self.versions.push(version)?;
            self.texts.push(String::from_str(console.alloc, text)?)?;
        }
        Ok(())
    }

    fn is_done(&self) -> bool {
        false
    }
}

// Parses RANGE, and then the ranges of --range; with an invalid one or a tag the command ends.
fn all_ranges<O: Write, E: Write>(
    console: &mut Console<O, E>,
    given: Given<'_, '_>,
) -> Result<Vec<VersionReq>, Stop> {
    let mut texts = Vec::new(console.alloc);
    texts.push(given.text("RANGE"))?;
    for text in given.texts(console.alloc, "range")?.iter() {
        texts.push(*text)?;
    }
    let parsed = ranges(console.alloc, console.options.flavour, texts.as_slice());
    match parsed {
        Ok(parsed) => match parsed.iter().find_map(|range| range.tag()) {
            Some(tag) => Err(Stop::Ended(print_tag(console, tag)?)),
            None => Ok(parsed),
        },
        Err(problem) => Err(Stop::Ended(reject(console, texts.as_slice(), &problem)?)),
    }
}

/// `ranges filter RANGE [VERSION..]`: the versions that match, or with `--invert-match` the others, in the order given.
pub fn filter<R: Input, O: Write, E: Write>(
    rt: &R,
    console: &mut Console<O, E>,
    given: Given<'_, '_>,
) -> Result<Status, Stop> {
    let ranges = all_ranges(console, given)?;
    let mut filter = Filtering {
        ranges: ranges.as_slice(),
        pre_release: console.options.pre_release,
        is_inverted: given.has("invert-match"),
        is_quiet: console.options.quiet,
        has_printed: false,
    };
    let status = take_all(rt, console, given.matches, &mut filter)?;
    if console.options.json {
        console.end_items()?;
    }
    Ok(status.worse(Status::of(filter.has_printed)))
}

/// `ranges best RANGE [VERSION..]`: the highest version that matches, or `none`.
pub fn best<R: Input, O: Write, E: Write>(
    rt: &R,
    console: &mut Console<O, E>,
    given: Given<'_, '_>,
) -> Result<Status, Stop> {
    let ranges = all_ranges(console, given)?;
    let Some((first, others)) = ranges.as_slice().split_first() else {
        return Ok(Status::Usage);
    };
    let mut listed = Listed::new(console.alloc, others, console.options.pre_release);
    let status = take_all(rt, console, given.matches, &mut listed)?;
    Ok(status.worse(print_answer(console, "version", listed.highest(first))?))
}

/// `ranges outdated RANGE [VERSION..]`: the highest version that matches, and the highest that counts. The status is 1 if the range is
/// outdated.
pub fn outdated<R: Input, O: Write, E: Write>(
    rt: &R,
    console: &mut Console<O, E>,
    given: Given<'_, '_>,
) -> Result<Status, Stop> {
    let ranges = all_ranges(console, given)?;
    // With a tag the command has ended already.
    let range = match ranges.as_slice() {
        [range, ..] if range.tag().is_none() => range,
        _ => return Ok(Status::Usage),
    };
    let mut listed = Listed::new(console.alloc, &[], console.options.pre_release);
    let status = take_all(rt, console, given.matches, &mut listed)?;
    let standing = standing_of(
        console.options.pre_release,
        range,
        listed.versions.as_slice(),
    );
    let (matching, highest) = (
        listed.text(standing.matching),
        listed.text(standing.highest),
    );
    if console.options.json {
        let json = Object::new(console.alloc)
            .put_text("highest", highest)
            .put_text("matching", matching)
            .into_json();
        console.json(json)?;
    } else {
        let matching = matching.unwrap_or("none");
        let highest = highest.unwrap_or("none");
        let end = console.options.line_end();
        write!(console.out, "{matching} {highest}{end}")?;
    }
    Ok(status.worse(Status::of(!standing.is_outdated())))
}

/// `ranges simplify RANGE [VERSION..]`: a short range that matches the same versions of the list.
pub fn simplify<R: Input, O: Write, E: Write>(
    rt: &R,
    console: &mut Console<O, E>,
    given: Given<'_, '_>,
) -> Result<Status, Stop> {
    // An invalid range is reported before standard input is read.
    let _ranges = all_ranges(console, given)?;
    let options = console.options;
    let mut listed = Listed::new(console.alloc, &[], options.pre_release);
    let status = take_all(rt, console, given.matches, &mut listed)?;
    let mut versions = Vec::new(console.alloc);
    for text in listed.texts.iter() {
        versions.push(text.as_str())?;
    }
    let (range, versions) = (given.text("RANGE"), versions.as_slice());
    let (flavour, pre_release) = (options.flavour, options.pre_release);
    let answered = match simplified(console.alloc, flavour, pre_release, range, versions) {
        Ok(Answer::Value(short)) => print_answer(console, "range", Some(short.as_str()))?,
        Ok(Answer::Tag(tag)) => print_tag(console, tag.as_str())?,
        Err(problem) => reject(console, &[range], &problem)?,
    };
    Ok(status.worse(answered))
}

/// `ranges sort [VERSION..]`: the versions in the order of precedence; equal ones keep theirs.
pub fn sort<R: Input, O: Write, E: Write>(
    rt: &R,
    console: &mut Console<O, E>,
    given: Given<'_, '_>,
) -> Result<Status, Stop> {
    let mut listed = Listed::new(console.alloc, &[], console.options.pre_release);
    let status = take_all(rt, console, given.matches, &mut listed)?;
    let order = if console.options.reverse {
        Order::Descending
    } else {
        Order::Ascending
    };
    let Listed {
        texts,
        versions,
        ..
    } = listed;
    let places = sorted_places(console.alloc, versions, order)?;
    for place in places.iter() {
        if let Some(text) = texts.get(*place) {
            print_text(console, text.as_str())?;
        }
    }
    if console.options.json {
        console.end_items()?;
    }
    Ok(status)
}

// Prints the sort key of each version, what the version is, and its text.
#[derive(Drop)]
struct Keys {}

impl Take for Keys {
    fn take<O: Write, E: Write>(
        &mut self,
        console: &mut Console<O, E>,
        text: &str,
        version: Version,
    ) -> Result<(), Stop> {
        let key = version.sort_key(console.alloc)?;
        let is_pre = !version.pre.is_empty();
        if console.options.json {
            let json = Object::new(console.alloc)
                .put_text("key", Some(key.as_str()))
                .put("pre", Ok(Value::Bool(is_pre)))
                .put_text("version", Some(text.trim()))
                .into_json();
            return console.item(json);
        }
        let kind = if is_pre { "pre" } else { "release" };
        let (text, end) = (text.trim(), console.options.line_end());
        write!(console.out, "{key}\t{kind}\t{text}{end}")?;
        Ok(())
    }

    fn is_done(&self) -> bool {
        false
    }
}

/// `ranges key [VERSION..]`: the sort key of each version, `release` or `pre`, and the version, with tabs between.
pub fn key<R: Input, O: Write, E: Write>(
    rt: &R,
    console: &mut Console<O, E>,
    given: Given<'_, '_>,
) -> Result<Status, Stop> {
    let status = take_all(rt, console, given.matches, &mut Keys {})?;
    if console.options.json {
        console.end_items()?;
    }
    Ok(status)
}
