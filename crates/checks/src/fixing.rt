//! `ranges check --fix`: how files are rewritten.

use crate::diff::print_diff;
use crate::relative::paths_in_diff;
use crate::rewriting::{Found, better, found_in, is_pinned, is_written};
use crate::rules::Levels;
use crate::walking::{Group, Text, entries_of, named, read_file, split_path, without_mark};
use manifests::entry::Entry;
use manifests::manifest::entries;
use manifests::sections::Kind;
use std::alloc::{AllocError, Global};
use std::collections::HashSet;
use std::fs::{Metadata, OpenFile, OpenOptions, Permissions};
use std::io::{ErrorKind, Write};
use std::os::unix::fs as unix;
use std::os::unix::fs::MetadataExt;
use std::path::PathBuf;
use std::rt::Files;
use std::{fmt, fs, io};
use terminal::console::{Console, Status, Stop};
use terminal::shown::Shown;

// Whether YAML takes a text without quotes for a string.
fn is_plain(text: &str) -> bool {
    text.starts_with(['^', '~', '<'].as_slice())
}

// Sets the levels that a file asks for.
fn set_levels(alloc: Global, levels: &mut Levels, entries: &[Entry]) -> Result<(), AllocError> {
    for entry in entries.iter().filter(|entry| entry.kind == Kind::Level) {
        let _ = levels.set(alloc, entry.name.as_str(), entry.text.as_str())?;
    }
    Ok(())
}

/// Sets the levels that the manifests of the workspace ask for that a given file belongs to.
pub fn set_above<R: Files + AllocGlobal>(
    rt: &R,
    levels: &mut Levels,
    group: &Group,
) -> Result<(), Stop> {
    for path in group.above.iter() {
        let entries = entries_of(rt, path.as_str())?;
        set_levels(rt.alloc(), levels, entries.as_slice())?;
    }
    for setting in group.over.iter() {
        let (rule, level) = (setting.rule.as_str(), setting.level.as_str());
        let _ = levels.set(rt.alloc(), rule, level)?;
    }
    Ok(())
}

/// Sets the levels that the arguments ask for, which were tried before.
pub fn apply(alloc: Global, levels: &mut Levels, settings: &[&str]) -> Result<(), AllocError> {
    for setting in settings {
        let (name, level) = setting.split_once('=').unwrap_or((*setting, ""));
        let _ = levels.set(alloc, name, level)?;
    }
    Ok(())
}

// A file that is rewritten.
#[derive(Drop)]
struct Edit<'t> {
    text: &'t str,
    is_yaml: bool,
    /// What it was rewritten to, and how much of the text that stands for.
    new: String,
    taken: usize,
    /// How many ranges were rewritten.
    count: usize,
}

impl Edit<'_> {
    // Writes a range in place of one in an entry.
    fn put(&mut self, entry: &Entry, found: Found<'_>, range: &str) -> Result<(), AllocError> {
        let start = entry.index_of(self.text, found.start);
        let found_end = found.start.saturating_add(found.range.len());
        let end = entry.index_of(self.text, found_end);
        if !is_written(found, range) {
            return Ok(());
        }
        let before = self.text.get(self.taken..start).unwrap_or("");
        let is_bare = self.is_yaml && found.start == 0 && !before.ends_with(['"', '\''].as_slice());
        let quote = if is_bare && !is_plain(range) {
            "\""
        } else {
            ""
        };
        self.taken = end;
        self.count = self.count.saturating_add(1);
        for part in &[before, quote, range, quote] {
            self.new.push_str(part)?;
        }
        Ok(())
    }
}

/// The keys of Yarn's resolutions that name a package with a range, in the manifests of a group's root.
pub fn pins_of<R: Files + AllocGlobal>(rt: &R, group: &Group) -> Result<Vec<String>, Stop> {
    let mut pins = Vec::new(rt.alloc());
    let roots = group.paths.iter().take(group.root_count());
    for path in group.above.iter().chain(roots) {
        if !path.as_str().ends_with("package.json") {
            continue;
        }
        for entry in entries_of(rt, path.as_str())? {
            // npm compares a key of its overrides with what the manifest asks for, and Yarn one of resolutions.
            let is_key = matches!(entry.kind, Kind::Override("" | "/"));
            if is_key && entry.text.as_str().contains('@') {
                pins.push(entry.text.clone()?)?;
            }
        }
    }
    Ok(pins)
}

// A file with better ranges. Its other bytes stay, so one with bytes that aren't valid UTF-8 stays as it is.
fn with_fixes(
    alloc: Global,
    path: &str,
    is_yaml: bool,
    read: Text,
    entries: &[Entry],
    levels: &Levels,
    pins: &[String],
) -> Result<Rewritten, Stop> {
    let Text { text: old, invalid } = read;
    let entries = if invalid.is_some() { &[] } else { entries };
    // Places count from behind the byte order mark.
    let file = old.as_str();
    let text = without_mark(file);
    let mark = file.len().saturating_sub(text.len());
    let mut edit = Edit {
        text,
        is_yaml,
        new: String::from_str(alloc, file.get(..mark).unwrap_or(""))?,
        taken: 0,
        count: 0,
    };
    let mut left = 0usize;
    for entry in entries {
        if let Some(found) = found_in(alloc, entry)?
            && let Some(range) = better(alloc, levels, entry.kind, found)?
        {
            if is_pinned(alloc, pins, entry)? {
                left = left.saturating_add(usize::from(range.as_str() != found.range.trim()));
            } else {
                edit.put(entry, found, range.as_str())?;
            }
        }
    }
    let Edit {
        mut new,
        taken,
        count,
        ..
    } = edit;
    new.push_str(text.get(taken..).unwrap_or(""))?;
    let path = String::from_str(alloc, path)?;
    Ok(Rewritten {
        path,
        old,
        new,
        invalid,
        count,
        left,
    })
}

// ---- files

/// A file with better ranges.
pub struct Rewritten {
    pub path: String,
    old: String,
    pub new: String,
    /// The index of the first byte that isn't valid UTF-8.
    pub invalid: Option<usize>,
    /// How many ranges were rewritten.
    pub count: usize,
    /// How many weren't, since a key of resolutions names them.
    left: usize,
}

impl Drop for Rewritten {
    fn drop(self) {
        let Rewritten {
            path,
            old,
            new,
            invalid: _,
            count: _,
            left: _,
        } = self;
        drop(path);
        drop(old);
        drop(new);
    }
}

// Where a file is written: beside the old one, and then under its name.
#[derive(Drop)]
struct Spot {
    real: PathBuf,
    beside: String,
    data: Metadata,
}

// A file that is to be written.
#[derive(Drop)]
struct Target {
    file: Rewritten,
    spot: Spot,
}

// More files that were left beside a file end the command.
const MANY_LEFT: u32 = 1000;

// Where a file is written that may be written to.
fn spot_of<R: Files + AllocGlobal>(rt: &R, path: &str) -> io::Result<Spot> {
    let real = fs::canonicalize(rt, path)?;
    let data = fs::metadata(rt, real.as_str())?;
    let mut options = OpenOptions::new();
    let _ = options.write(true);
    let opened = options.open(rt, real.as_str())?;
    drop(opened);
    let beside = free_name(rt, real.as_str())?;
    Ok(Spot { real, beside, data })
}

// A name beside a file that no file has. One of a run that was cut off may stay there.
fn free_name<R: Files + AllocGlobal>(rt: &R, path: &str) -> io::Result<String> {
    let mut name = format!(in rt.alloc(); "{path}.ranges-new")?;
    for number in 1..=MANY_LEFT {
        match fs::symlink_metadata(rt, name.as_str()) {
            Ok(_) => name = format!(in rt.alloc(); "{path}.ranges-new{number}")?,
            Err(error) if error.kind() == ErrorKind::OutOfMemory => return Err(error),
            Err(_) => break,
        }
    }
    Ok(name)
}

impl Spot {
    // Writes a text beside the file. Only a whole one stays there.
    fn write<R: Files>(&self, rt: &R, text: &str) -> io::Result<()> {
        let mut file = fs::File::create_new(rt, self.beside.as_str())?;
        let written = fill(&mut file, text, self.data.permissions());
        if written.is_err() {
            self.remove(rt);
        }
        written
    }

    // Gives what stands beside the file the file's owner and group. The system lets only some do so.
    fn keep_owner<R: Files>(&self, rt: &R) -> io::Result<()> {
        let data = fs::metadata(rt, self.beside.as_str())?;
        let (user, group) = (self.data.uid(), self.data.gid());
        if data.uid() == user && data.gid() == group {
            return Ok(());
        }
        unix::chown(rt, self.beside.as_str(), Some(user), Some(group))
    }

    // Gives what stands beside the file its name.
    fn rename<R: Files>(&self, rt: &R) -> io::Result<()> {
        fs::rename(rt, self.beside.as_str(), self.real.as_str())
    }

    fn remove<R: Files>(&self, rt: &R) {
        let _ = fs::remove_file(rt, self.beside.as_str());
    }

    // Writes what the file held before.
    fn restore<R: Files>(&self, rt: &R, old: &str) -> io::Result<()> {
        self.write(rt, old)?;
        let _ = self.keep_owner(rt);
        let renamed = self.rename(rt);
        if renamed.is_err() {
            self.remove(rt);
        }
        renamed
    }
}

fn fill<F: Write + OpenFile>(file: &mut F, text: &str, mode: Permissions) -> io::Result<()> {
    file.write_all(text.as_bytes())?;
    file.set_permissions(mode)?;
    file.sync_all()
}

// Reports why a file can't be written.
fn complain<O: Write, E: Write>(
    console: &mut Console<O, E>,
    path: &str,
    error: &io::Error,
) -> Result<Status, Stop> {
    let reason = match error.kind() {
        ErrorKind::OutOfMemory => return Err(Stop::OutOfMemory),
        ErrorKind::PermissionDenied => "permission denied",
        ErrorKind::AlreadyExists => "is there already: remove it",
        _ => "can't be written",
    };
    Ok(console.complain(Shown(path), reason))
}

// Where to write each file, once if it is given under several names.
fn all_targets<R: Files + AllocGlobal, O: Write, E: Write>(
    rt: &R,
    console: &mut Console<O, E>,
    all: Vec<Rewritten>,
) -> Result<Vec<Target>, Stop> {
    let mut targets: Vec<Target> = Vec::new(console.alloc);
    for file in all {
        let spot = match spot_of(rt, file.path.as_str()) {
            Ok(spot) => spot,
            Err(error) => {
                return Err(Stop::Ended(complain(console, file.path.as_str(), &error)?));
            }
        };
        let real = spot.real.as_str();
        let is_new = targets.iter().all(|it| it.spot.real.as_str() != real);
        if is_new {
            targets.push(Target { file, spot })?;
        }
    }
    Ok(targets)
}

// Removes what stands beside the files.
fn remove_all<R: Files>(rt: &R, targets: &[Target]) {
    for target in targets {
        target.spot.remove(rt);
    }
}

// The first file that isn't any more what it was when it was read.
fn first_changed<'t, R: Files + AllocGlobal>(
    rt: &R,
    targets: &'t [Target],
) -> Result<Option<&'t Target>, Stop> {
    for target in targets {
        match fs::read_to_string(rt, target.spot.real.as_str()) {
            Ok(text) if text.as_str() == target.file.old.as_str() => (),
            Err(error) if error.kind() == ErrorKind::OutOfMemory => return Err(Stop::OutOfMemory),
            Ok(_) | Err(_) => return Ok(Some(target)),
        }
    }
    Ok(None)
}

// The folder in which a file is written that was given by this path.
fn folder_of<'p, R: Files + AllocGlobal>(rt: &R, spot: &'p Spot, path: &'p str) -> &'p str {
    let is_link = match fs::symlink_metadata(rt, path) {
        Ok(data) => data.file_type().is_symlink(),
        Err(_) => false,
    };
    let (folder, _) = if is_link {
        split_path(spot.real.as_str())
    } else {
        split_path(path)
    };
    match folder.trim_end_matches('/') {
        "" if folder.is_empty() => ".",
        "" => "/",
        folder => folder,
    }
}

// Writes all new files beside the old ones, or none, and reports what can't be written, or has changed.
fn write_beside<R: Files + AllocGlobal, O: Write, E: Write>(
    rt: &R,
    console: &mut Console<O, E>,
    targets: &[Target],
) -> Result<Status, Stop> {
    for (place, Target { file, spot }) in targets.iter().enumerate() {
        if let Err(error) = spot.write(rt, file.new.as_str()) {
            remove_all(rt, targets.get(..place).unwrap_or(&[]));
            let path = match error.kind() {
                ErrorKind::AlreadyExists => spot.beside.as_str(),
                // The file may be written to, so it is the folder that may not.
                ErrorKind::PermissionDenied => folder_of(rt, spot, file.path.as_str()),
                _ => file.path.as_str(),
            };
            return complain(console, path, &error);
        }
        if spot.keep_owner(rt).is_err() {
            remove_all(rt, targets.get(..=place).unwrap_or(&[]));
            let message = "its owner or group would change: no file is rewritten";
            return Ok(console.complain(Shown(file.path.as_str()), message));
        }
    }
    let changed = first_changed(rt, targets);
    if !matches!(changed, Ok(None)) {
        remove_all(rt, targets);
    }
    Ok(match changed? {
        Some(target) => {
            let message = "changed since it was read: no file is rewritten";
            console.complain(Shown(target.file.path.as_str()), message)
        }
        None => Status::Answered,
    })
}

/// Writes all files that were rewritten, or none, and says how many ranges of how many files, or reports what can't be written.
pub fn write_all<R: Files + AllocGlobal, O: Write, E: Write>(
    rt: &R,
    console: &mut Console<O, E>,
    all: Vec<Rewritten>,
) -> Result<Status, Stop> {
    let targets = all_targets(rt, console, all)?;
    let targets = targets.as_slice();
    let status = write_beside(rt, console, targets)?;
    if status != Status::Answered {
        return Ok(status);
    }
    let mut count = 0usize;
    for (place, target) in targets.iter().enumerate() {
        if let Err(error) = target.spot.rename(rt) {
            remove_all(rt, targets.get(place..).unwrap_or(&[]));
            return undo(rt, console, targets, place, &error);
        }
        count = count.saturating_add(target.file.count);
    }
    let (ranges, files) = (Counted(count, "range"), Counted(targets.len(), "file"));
    if count == 0 {
        console.tell("found nothing to rewrite");
    } else {
        console.tell(format_args!("rewrote {ranges} in {files}"));
    }
    Ok(Status::Answered)
}

// So many things of a name.
#[derive(Clone, Copy)]
struct Counted(usize, &'static str);

impl fmt::Display for Counted {
    fn fmt<W: fmt::Write>(&self, f: &mut fmt::Formatter<W>) -> fmt::Result {
        let Counted(count, name) = *self;
        let end = if count == 1 { "" } else { "s" };
        write!(f, "{count} {name}{end}")
    }
}

// Writes what the files before a place held, since the one there can't be written.
fn undo<R: Files, O: Write, E: Write>(
    rt: &R,
    console: &mut Console<O, E>,
    targets: &[Target],
    place: usize,
    error: &io::Error,
) -> Result<Status, Stop> {
    let mut status = Status::Answered;
    for (at, Target { file, spot }) in targets.iter().enumerate() {
        let path = file.path.as_str();
        if at == place {
            return Ok(status.worse(complain(console, path, error)?));
        }
        if spot.restore(rt, file.old.as_str()).is_err() {
            let message = "rewritten, and can't be restored";
            status = status.worse(console.complain(Shown(path), message));
        }
    }
    Ok(status)
}

/// The files of a group with better ranges. One that can't be read ends the command. Standard input is read as the file `stdin` would be.
pub fn rewrite<R: Input + Files + AllocGlobal, O: Write, E: Write>(
    rt: &R,
    console: &mut Console<O, E>,
    group: &Group,
    settings: &[&str],
    stdin: &str,
) -> Result<Vec<Rewritten>, Stop> {
    let alloc = console.alloc;
    let mut all = Vec::new(alloc);
    let mut shared = Levels::new();
    set_above(rt, &mut shared, group)?;
    let pins = pins_of(rt, group)?;
    for (place, path) in group.paths.iter().enumerate() {
        let path = path.as_str();
        let read = read_file(rt, console, path)?;
        let name = named(path, stdin);
        let entries = entries(alloc, name, without_mark(read.text.as_str()))?;
        let mut levels = shared;
        set_levels(alloc, &mut levels, entries.as_slice())?;
        if place < group.own {
            shared = levels;
        }
        apply(alloc, &mut levels, settings)?;
        let file = with_fixes(
            alloc,
            path,
            name.ends_with(".yaml"),
            read,
            entries.as_slice(),
            &levels,
            pins.as_slice(),
        )?;
        if file.left > 0 {
            let (path, ranges) = (Shown(name), Counted(file.left, "range"));
            console.tell(format_args!(
                "{path}: left {ranges} alone: a key of `resolutions` or `overrides` has the same string"
            ));
        }
        all.push(file)?;
    }
    Ok(all)
}

/// Prints what changes in the files of groups. The status says whether something does.
pub fn print_diffs<R: Files + AllocGlobal, O: Write, E: Write>(
    rt: &R,
    console: &mut Console<O, E>,
    groups: &[Vec<Rewritten>],
) -> Result<Status, Stop> {
    let mut changed = Vec::new(console.alloc);
    let mut files = Vec::new(console.alloc);
    for file in groups.iter().flat_map(|group| group.iter()) {
        if file.count > 0 {
            changed.push(file)?;
            files.push(file.path.as_str())?;
        }
    }
    let paths = paths_in_diff(rt, console, files.as_slice())?;
    // A file that is reached by several names has one path.
    let mut printed = HashSet::new(console.alloc);
    for (file, path) in changed.iter().zip(paths.iter()) {
        let path = path.as_str();
        if printed.insert(path)? {
            print_diff(console, path, file.old.as_str(), file.new.as_str())?;
        }
    }
    Ok(if changed.is_empty() {
        Status::Answered
    } else {
        Status::Found
    })
}
