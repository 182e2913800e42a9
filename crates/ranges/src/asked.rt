//! `ranges asked`: what several manifests ask of the same packages.

use crate::apart::first_apart;
use answers::asking::Problem;
use answers::object::Object;
use answers::questions::text_of_version;
use answers::reading::range;
use checks::catalogs::{Catalogs, resolved, shelve};
use checks::findings::Position;
use checks::known::is_own;
use checks::rewriting::range_of_specifier;
use checks::walking::{Group, Manifests, find, read_file, without_mark};
use clap::ArgMatches;
use deno_semver::{PreRelease, VersionReq};
use manifests::entry::Entry;
use manifests::manifest::entries;
use manifests::npm::{Reading, Source, as_read, is_package_name, read_range, renamed, source_of};
use manifests::sections::Kind;
use package_answers::references::read_reference;
use semver_req::common::values::Flavour;
use serde_json::Value;
use std::alloc::{AllocError, Global};
use std::collections::BTreeMap;
use std::fs;
use std::io::Write;
use std::rt::{Files, Runtime};
use terminal::console::{Console, Status, Stop, print_line};
use terminal::hints::behind_protocol;
use terminal::shown::{Quoted, Shown};

// Who asks for a range.
#[derive(Drop)]
struct Asker {
    file: String,
    section: &'static str,
    /// What stands in the file.
    text: String,
    range: String,
    /// Why it is left out, if it is.
    left_out: Option<&'static str>,
}

// Who asks for a package by a range, and who by something else.
struct Package {
    askers: Vec<Asker>,
    /// The ranges, but for those of any version.
    reqs: Vec<VersionReq>,
    /// The places of their askers.
    places: Vec<usize>,
    /// The ranges of any version, which exclude nothing.
    any: Vec<VersionReq>,
    others: Vec<Asker>,
}

impl Drop for Package {
    fn drop(self) {
        let Package {
            askers,
            reqs,
            places,
            any,
            others,
        } = self;
        drop(askers);
        drop(reqs);
        drop(places);
        drop(any);
        drop(others);
    }
}

// The packages that were asked for, by name.
type Packages = BTreeMap<String, Package>;

// What all who ask for a package accept.
#[derive(Drop)]
struct Agreement {
    lowest: Option<String>,
    /// The places of the first two ranges that exclude each other.
    apart: Option<(usize, usize)>,
}

impl Package {
    // Whether several manifests ask for it.
    fn is_shared(&self) -> bool {
        let mut all = self.askers.iter().chain(self.others.iter());
        match all.next() {
            Some(first) => all.any(|asker| asker.file.as_str() != first.file.as_str()),
            None => false,
        }
    }

    // The text of the range at a place among those that aren't of any version.
    fn range(&self, place: usize) -> &str {
        let place = self.places.get(place).copied().unwrap_or(0);
        match self.askers.get(place) {
            Some(asker) => asker.range.as_str(),
            None => "",
        }
    }

    // Adds who asks for it by a range.
    fn add(&mut self, alloc: Global, asker: Asker, req: VersionReq) -> Result<(), AllocError> {
        let place = self.askers.len();
        self.askers.push(asker)?;
        if req.to_string_normalized(alloc)?.as_str() == "*" {
            return Ok(self.any.push(req)?);
        }
        self.places.push(place)?;
        Ok(self.reqs.push(req)?)
    }
}

// ---- what entries ask for

// A package that is asked for by a range of a grammar, or by something that is left out.
#[derive(Drop)]
struct Request {
    name: String,
    range: String,
    flavour: Flavour,
    /// Why it is left out, if it is.
    left_out: Option<&'static str>,
}

// A manifest, and what stands in it.
#[derive(Drop)]
struct Manifest {
    path: String,
    entries: Vec<Entry>,
}

// What a specifier of npm or JSR asks for.
fn of_specifier(alloc: Global, text: &str) -> Result<Option<Request>, Stop> {
    let reference = match read_reference(alloc, text) {
        Ok(reference) => reference,
        Err(Problem::Invalid(_)) => return Ok(None),
        Err(Problem::OutOfMemory) => return Err(Stop::OutOfMemory),
    };
    let name = reference.reference.req.name.as_str();
    let kind = if text.starts_with("jsr:") { "jsr:" } else { "" };
    let name = format!(in alloc; "{kind}{name}")?;
    // Without a range any version will do.
    let (range, flavour) = match range_of_specifier(alloc, text)? {
        Some((range, _)) => (range, Flavour::Specifier),
        None => ("*", Flavour::Npm),
    };
    Ok(Some(Request {
        name,
        range: String::from_str(alloc, range)?,
        flavour,
        left_out: None,
    }))
}

// What the text of a dependency with this name asks a registry for, or another package of the workspace.
fn of_dependency(alloc: Global, name: &str, text: &str) -> Result<Option<Request>, AllocError> {
    let of_other = behind_protocol(text, "npm:").or(behind_protocol(text, "jsr:"));
    let (range, left_out) = match source_of(text) {
        _ if is_own(text) => (text, Some("the workspace's own version")),
        Source::Registry(range) if !text.contains("#semver:") => (range, None),
        Source::Refused(_) => (text, Some("npm refuses it")),
        // What names another package, and no range.
        _ if of_other.is_some() => return Ok(None),
        Source::Registry(_) | Source::Elsewhere | Source::Odd(_) => {
            (text, Some("no range of a registry"))
        }
    };
    let name = renamed(text).unwrap_or(name);
    let kind = if behind_protocol(text, "jsr:").is_some() {
        "jsr:"
    } else {
        ""
    };
    Ok(Some(Request {
        name: format!(in alloc; "{kind}{name}")?,
        range: String::from_str(alloc, range)?,
        flavour: Flavour::Npm,
        left_out,
    }))
}

// What an entry asks for.
fn asked_by(alloc: Global, catalogs: &Catalogs, entry: &Entry) -> Result<Option<Request>, Stop> {
    match (entry.kind, entry.section) {
        (Kind::Specifier, _) => of_specifier(alloc, entry.text.as_str()),
        (
            Kind::Dependency,
            "dependencies" | "devDependencies" | "optionalDependencies" | "peerDependencies",
        ) => match resolved(catalogs, entry) {
            Some(text) => Ok(of_dependency(alloc, entry.name.as_str(), text)?),
            None => Ok(Some(Request {
                name: String::from_str(alloc, entry.name.as_str())?,
                range: String::from_str(alloc, entry.text.as_str())?,
                flavour: Flavour::Npm,
                left_out: Some("the catalog has no entry for it"),
            })),
        },
        (_, _) => Ok(None),
    }
}

// The range as npm reads it, which ignores words that aren't comparators.
fn text_read(alloc: Global, asked: &Request) -> Result<String, AllocError> {
    let text = asked.range.as_str();
    let read = read_range(text);
    let is_loose = read.reading == Reading::Range && read.ignored.is_some();
    if is_loose
        && asked.flavour == Flavour::Npm
        && let Some(kept) = as_read(alloc, text)?
    {
        return Ok(kept);
    }
    String::from_str(alloc, text)
}

// The range that a package is asked for by, or why that is left out.
fn read(
    alloc: Global,
    asked: &Request,
) -> Result<(Option<VersionReq>, Option<&'static str>), AllocError> {
    if asked.left_out.is_some() {
        return Ok((None, asked.left_out));
    }
    let text = text_read(alloc, asked)?;
    match range(alloc, asked.flavour, 0, text.as_str()) {
        Ok(req) => {
            if req.tag().is_some() {
                drop(req);
                return Ok((None, Some("a tag")));
            }
            Ok((Some(req), None))
        }
        Err(Problem::Invalid(_)) => Ok((None, Some("not a version range"))),
        Err(Problem::OutOfMemory) => Err(AllocError),
    }
}

// Adds what an entry of a file asks for.
fn add(
    alloc: Global,
    packages: &mut Packages,
    path: &str,
    entry: &Entry,
    asked: Request,
) -> Result<(), Stop> {
    let (req, left_out) = read(alloc, &asked)?;
    let Request { name, range, .. } = asked;
    let asker = Asker {
        file: String::from_str(alloc, path)?,
        section: entry.section,
        text: String::from_str(alloc, entry.text.as_str())?,
        range,
        left_out,
    };
    let name = name.as_str();
    if !packages.contains_key(name) {
        let package = Package {
            askers: Vec::new(alloc),
            reqs: Vec::new(alloc),
            places: Vec::new(alloc),
            any: Vec::new(alloc),
            others: Vec::new(alloc),
        };
        let _ = packages.insert(String::from_str(alloc, name)?, package)?;
    }
    if let Some(package) = packages.get_mut(name) {
        match req {
            Some(req) => package.add(alloc, asker, req)?,
            None => package.others.push(asker)?,
        }
    }
    Ok(())
}

// The packages that manifests ask for.
fn all_packages(alloc: Global, manifests: &[Manifest]) -> Result<Packages, Stop> {
    let mut catalogs = BTreeMap::new(alloc);
    for manifest in manifests {
        for entry in manifest.entries.iter() {
            shelve(alloc, &mut catalogs, entry)?;
        }
    }
    let mut packages = BTreeMap::new(alloc);
    for manifest in manifests {
        for entry in manifest.entries.iter() {
            if let Some(asked) = asked_by(alloc, &catalogs, entry)? {
                add(alloc, &mut packages, manifest.path.as_str(), entry, asked)?;
            }
        }
    }
    Ok(packages)
}

// ---- what they agree on

// What all who ask for a package accept.
fn agreed(
    alloc: Global,
    package: &Package,
    pre_release: PreRelease,
) -> Result<Agreement, AllocError> {
    let mut reqs = package.reqs.as_slice();
    if reqs.is_empty() {
        reqs = package.any.as_slice();
    }
    let lowest = match reqs.split_first() {
        Some((first, others)) if first.tag().is_none() && VersionReq::have_no_tag(others) => {
            first.common_version_of_all(alloc, others, pre_release)?
        }
        _ => None,
    };
    Ok(match lowest {
        Some(lowest) => Agreement {
            lowest: Some(text_of_version(alloc, &lowest)?),
            apart: None,
        },
        None => Agreement {
            lowest: None,
            apart: first_apart(alloc, reqs, pre_release)?,
        },
    })
}

fn json(
    alloc: Global,
    name: &str,
    package: &Package,
    agreement: &Agreement,
) -> Result<Value, AllocError> {
    let mut askers = Vec::new(alloc);
    for asker in package.askers.iter().chain(package.others.iter()) {
        let json = Object::new(alloc)
            .put_text("file", Some(asker.file.as_str()))
            .put_text("left-out", asker.left_out)
            .put_text("range", Some(asker.range.as_str()))
            .put_text("section", Some(asker.section))
            .put_text("text", Some(asker.text.as_str()));
        askers.push(json.into_json()?)?;
    }
    let mut apart = Vec::new(alloc);
    if let Some((one, other)) = agreement.apart {
        apart.push(Value::try_from_str(alloc, package.range(one))?)?;
        apart.push(Value::try_from_str(alloc, package.range(other))?)?;
    }
    Object::new(alloc)
        .put("apart", Ok(Value::Array(apart)))
        .put("asked", Ok(Value::Array(askers)))
        .put_text("name", Some(name))
        .put_text("version", agreement.lowest.as_deref())
        .into_json()
}

// Prints a package, and each who asks for it on a line.
fn print<O: Write, E: Write>(
    console: &mut Console<O, E>,
    name: &str,
    package: &Package,
    agreement: &Agreement,
) -> Result<(), Stop> {
    let (out, name) = (&mut console.out, Shown(name));
    match (agreement.lowest.as_deref(), agreement.apart) {
        (Some(lowest), _) => print_line(out, format_args!("{name}: {lowest}"))?,
        (None, Some((one, other))) => {
            let (one, other) = (Shown(package.range(one)), Shown(package.range(other)));
            print_line(
                out,
                format_args!("{name}: \"{one}\" and \"{other}\" exclude each other"),
            )?;
        }
        (None, None) if package.askers.is_empty() => {
            print_line(out, format_args!("{name}: nobody asks by a range"))?;
        }
        (None, None) if package.reqs.len() == 1 => {
            let range = Shown(package.range(0));
            print_line(out, format_args!("{name}: no version matches \"{range}\""))?;
        }
        (None, None) => print_line(out, format_args!("{name}: no version matches all"))?,
    }
    for asker in package.askers.iter().chain(package.others.iter()) {
        let (file, text) = (Shown(asker.file.as_str()), Quoted(asker.text.as_str()));
        let section = asker.section;
        write!(out, "  {file}: {section}: {text}")?;
        // Of an alias the range stands at the end of the text.
        if !asker.text.as_str().ends_with(asker.range.as_str()) {
            write!(out, ", {}", Quoted(asker.range.as_str()))?;
        }
        if let Some(left_out) = asker.left_out {
            write!(out, ": left out: {left_out}")?;
        }
        print_line(out, "")?;
    }
    Ok(())
}

// Adds what stands in a manifest.
fn add_manifest<R: Runtime + AllocGlobal, O: Write, E: Write>(
    rt: &R,
    console: &mut Console<O, E>,
    path: &str,
    manifests: &mut Vec<Manifest>,
) -> Result<Status, Stop> {
    let read = match read_file(rt, console, path) {
        Ok(read) => read,
        Err(Stop::Ended(unread)) => return Ok(unread),
        Err(stop) => return Err(stop),
    };
    let text = without_mark(read.text.as_str());
    let entries = entries(console.alloc, path, text)?;
    let status = complain_of(console, path, text, entries.as_slice());
    let path = String::from_str(console.alloc, path)?;
    manifests.push(Manifest { path, entries })?;
    Ok(status)
}

// Reports what isn't read of a manifest.
fn complain_of<O: Write, E: Write>(
    console: &mut Console<O, E>,
    path: &str,
    text: &str,
    entries: &[Entry],
) -> Status {
    let mut status = Status::Answered;
    let mut position = Position::START;
    for entry in entries {
        let Kind::Mistake(message) = entry.kind else {
            continue;
        };
        position.move_to(text, entry.start);
        let place = format_args!("{}:{}", Shown(path), position);
        status = status.worse(console.complain(place, message));
    }
    status
}

// Adds what stands in the manifests of a group.
fn add_manifests<R: Runtime + AllocGlobal, O: Write, E: Write>(
    rt: &R,
    console: &mut Console<O, E>,
    group: &Group,
    manifests: &mut Vec<Manifest>,
) -> Result<Status, Stop> {
    let mut status = Status::Answered;
    for path in group.paths.iter() {
        status = status.worse(add_manifest(rt, console, path.as_str(), manifests)?);
    }
    Ok(status)
}

// Reports a package of --package that no manifest asks for.
fn tell_unasked<O: Write, E: Write>(
    console: &mut Console<O, E>,
    packages: &Packages,
    names: &[&str],
) -> Status {
    let mut status = Status::Answered;
    for name in names {
        if !packages.contains_key(*name) {
            console.tell(format_args!("no manifest asks for {}", Quoted(name)));
            status = Status::Nothing;
        }
    }
    status
}

// Says how to ask about one package, if the folder that was given may be the name of one, and isn't there.
fn hint_at_package<R: Files, O: Write, E: Write>(
    rt: &R,
    console: &mut Console<O, E>,
    folder: Option<&str>,
) {
    let Some(name) = folder else {
        return;
    };
    if is_package_name(name) && !fs::exists(rt, name).unwrap_or(true) {
        let _ = writeln!(
            console.err,
            "  = to ask about one package, run: ranges asked --package {name}"
        );
    }
}

/// `ranges asked [FOLDER]`: the packages that several manifests ask for, by name, or those of --package; and the lowest version that all
/// accept, or two ranges that exclude each other; with --apart only those with no such version.
pub fn report<R: Runtime + AllocGlobal, O: Write, E: Write>(
    rt: &R,
    console: &mut Console<O, E>,
    matches: &ArgMatches<'_>,
) -> Result<Status, Stop> {
    let alloc = console.alloc;
    let excludes = matches.get_strs("exclude").unwrap_or(&[]);
    let found = find(rt, console, matches.get_strs("FOLDER"), excludes)?;
    let Manifests { groups, mut status } = found;
    let mut manifests = Vec::new(alloc);
    for group in groups.iter() {
        status = status.worse(add_manifests(rt, console, group, &mut manifests)?);
    }
    hint_at_package(rt, console, matches.get_str("FOLDER"));
    let names = matches.get_strs("package").unwrap_or(&[]);
    if manifests.len() == 1 && names.is_empty() {
        console.tell("only one manifest was found: asked compares several");
    }
    let is_apart = matches.get_flag("apart");
    let packages = all_packages(alloc, manifests.as_slice())?;
    for (name, package) in packages.iter() {
        let is_listed = if names.is_empty() {
            package.is_shared()
        } else {
            names.contains(&name.as_str())
        };
        if !is_listed {
            continue;
        }
        let agreement = agreed(alloc, package, console.options.pre_release)?;
        // Of tags alone nothing is known.
        let is_agreed = agreement.lowest.is_some() || package.askers.is_empty();
        status = status.worse(Status::of(is_agreed));
        if is_agreed && is_apart {
            continue;
        }
        if console.options.json {
            console.item(json(alloc, name.as_str(), package, &agreement))?;
        } else {
            print(console, name.as_str(), package, &agreement)?;
        }
    }
    if console.options.json {
        console.end_items()?;
    }
    Ok(status.worse(tell_unasked(console, &packages, names)))
}
