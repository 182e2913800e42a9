//! The manifests of folders and of workspaces, and the files of arguments.

use crate::findings::Position;
use answers::asking::Problem;
use answers::reading;
use manifests::entry::Entry;
use manifests::manifest::entries;
use manifests::sections::Kind;
use patterns::ignored::{Ignored, is_ignored};
use patterns::paths::names_of;
use patterns::workspaces::{Way, Workspace, is_workspace, undo, way_to};
use semver_req::common::values::Flavour;
use std::alloc::{AllocError, Global};
use std::collections::{BTreeMap, HashMap, HashSet};
use std::env::VarError;
use std::io::{BufRead, ErrorKind, Read, Write};
use std::rt::{Files, Runtime};
use std::{env, fs, io, str};
use terminal::console::{Console, Status, Stop};
use terminal::shown::{Quoted, Shown};

// The names of manifests, in their order.
const NAMES: [&str; 5] = [
    "deno.json",
    "deno.jsonc",
    "import_map.json",
    "package.json",
    "pnpm-workspace.yaml",
];

// What a folder holds, by paths.
#[derive(Drop)]
struct Folder {
    manifests: Vec<String>,
    folders: Vec<String>,
    /// Links to something else than a manifest.
    links: Vec<String>,
    /// Whether a name in it isn't valid UTF-8.
    has_other: bool,
}

/// A level that a manifest sets for others.
#[derive(Drop)]
pub struct Setting {
    pub rule: String,
    pub level: String,
}

/// Manifests that were found together: in a folder and below it, or one that was given.
#[derive(Drop)]
pub struct Group {
    pub paths: Vec<String>,
    /// How many of them, the first, stand in the folder itself. The levels that these set count for all.
    pub own: usize,
    /// The patterns of workspaces in these that no folder matches.
    pub unmatched: Vec<String>,
    /// Whether these are all manifests of a workspace.
    pub is_whole: bool,
    /// The manifests of the workspace that the folder or the file belongs to. The levels that they set count, too.
    pub above: Vec<String>,
    /// The manifests that were found with these, and that another group has.
    pub others: Vec<String>,
    /// The package.json of each one's root, as `by_project` finds it; empty if there is none.
    pub roots: Vec<String>,
    /// Whether these were found in a folder and below it, and may be of several projects.
    pub is_walked: bool,
    /// The levels that count behind those of `above`: of the folder in which these were found, and of its root.
    pub over: Vec<Setting>,
}

impl Group {
    /// How many of the manifests, the first, may be of the root of a workspace: they stand in no other, and in the folder itself if one was given.
    pub fn root_count(&self) -> usize {
        match (self.above.is_empty(), self.own) {
            (false, _) => 0,
            (true, 0) => self.paths.len(),
            (true, own) => own,
        }
    }

    /// A group without files.
    pub fn new(alloc: Global) -> Group {
        Group {
            paths: Vec::new(alloc),
            own: 0,
            unmatched: Vec::new(alloc),
            is_whole: false,
            above: Vec::new(alloc),
            others: Vec::new(alloc),
            roots: Vec::new(alloc),
            is_walked: false,
            over: Vec::new(alloc),
        }
    }

    // Whether no levels but those of the same manifests above count for all of both.
    fn shares(&self, other: &Group) -> bool {
        self.own == 0 && is_of_same(self.above.as_slice(), other.above.as_slice())
    }
}

/// Whether two lists of a root's manifests are of the same root.
pub fn is_of_same(one: &[String], another: &[String]) -> bool {
    match (one.first(), another.first()) {
        (Some(one), Some(another)) => one.as_str() == another.as_str(),
        (_, _) => false,
    }
}

/// Whether a file with this name is a manifest.
pub fn is_manifest(name: &str) -> bool {
    NAMES.contains(&name)
}

/// What was found.
#[derive(Drop)]
pub struct Manifests {
    pub groups: Vec<Group>,
    /// The status of what can't be read, or of nothing.
    pub status: Status,
}

// The path of a name in a folder; that of this folder is empty.
fn joined(alloc: Global, folder: &str, name: &str) -> Result<String, AllocError> {
    if folder.is_empty() || folder.ends_with('/') {
        format!(in alloc; "{folder}{name}")
    } else {
        format!(in alloc; "{folder}/{name}")
    }
}

/// The text of a file.
#[derive(Drop)]
pub struct Text {
    pub text: String,
    /// The index of the first byte that isn't valid UTF-8; U+FFFD stands in the place of each.
    pub invalid: Option<usize>,
}

// Whether a file is JSON by its name.
fn is_json(path: &str) -> bool {
    path.ends_with(".json") || path.ends_with(".jsonc")
}

// Reads a file in which some bytes aren't valid UTF-8.
fn read_with_marks<R: Files + AllocGlobal>(rt: &R, path: &str) -> io::Result<Text> {
    let bytes = fs::read(rt, path)?;
    let bytes = bytes.as_slice();
    let invalid = match str::from_utf8(bytes) {
        Ok(_) => None,
        Err(error) => Some(error.valid_up_to()),
    };
    let text = String::from_utf8_lossy(rt.alloc(), bytes)?;
    Ok(Text { text, invalid })
}

// Reads a file. In JSON, JavaScript takes U+FFFD for what isn't valid UTF-8.
fn read_text<R: Files + AllocGlobal>(rt: &R, path: &str) -> io::Result<Text> {
    match fs::read_to_string(rt, path) {
        Ok(text) => Ok(Text {
            text,
            invalid: None,
        }),
        Err(error) if error.kind() == ErrorKind::InvalidData && is_json(path) => {
            read_with_marks(rt, path)
        }
        Err(error) => Err(error),
    }
}

/// The entries of a file; none if it can't be read.
pub fn entries_of<R: Files + AllocGlobal>(rt: &R, path: &str) -> Result<Vec<Entry>, Stop> {
    match read_text(rt, path) {
        Ok(read) => Ok(entries(rt.alloc(), path, without_mark(read.text.as_str()))?),
        Err(error) if error.kind() == ErrorKind::OutOfMemory => Err(Stop::OutOfMemory),
        Err(_) => Ok(Vec::new(rt.alloc())),
    }
}

// ---- .gitignore

// Adds the lines of a .gitignore at this path, but for comments. They count below a folder, to which the names of `lead` lead.
fn read_ignored<R: Runtime + AllocGlobal>(
    rt: &R,
    path: &str,
    folder: &str,
    lead: &str,
    ignored: &mut Vec<Ignored>,
) -> io::Result<()> {
    let alloc = rt.alloc();
    let text = match fs::read(rt, path) {
        Ok(text) => text,
        Err(error) if error.kind() == ErrorKind::OutOfMemory => return Err(error),
        Err(_) => return Ok(()),
    };
    let text = text.as_slice();
    let text = text
        .strip_prefix(b"\xef\xbb\xbf".as_slice())
        .unwrap_or(text);
    for line in text.split(|byte| *byte == b'\n') {
        if let Ok(line) = str::from_utf8(line)
            && let Some(line) = Ignored::new(alloc, folder, lead, line)?
        {
            ignored.push(line)?;
        }
    }
    Ok(())
}

/// How many of these names lead to the nearest folder that has a `.git`, if one has.
pub fn repository<R: Files + AllocGlobal>(rt: &R, names: &[&str]) -> io::Result<Option<usize>> {
    for count in (0..=names.len()).rev() {
        let folder = path_of(rt.alloc(), names.get(..count).unwrap_or(&[]))?;
        let git = format!(in rt.alloc(); "{folder}/.git")?;
        if fs::exists(rt, git.as_str()).unwrap_or(false) {
            return Ok(Some(count));
        }
    }
    Ok(None)
}

/// The path that begins at the top of the system, and has these names; an empty one is that top.
pub fn path_of(alloc: Global, names: &[&str]) -> Result<String, AllocError> {
    let mut path = String::new(alloc);
    for name in names {
        path.push('/')?;
        path.push_str(name)?;
    }
    Ok(path)
}

/// The path of a file from the top of the git repository that holds it; the same path if none does.
pub fn path_in_repository<R: Files + AllocGlobal>(rt: &R, path: &str) -> io::Result<String> {
    let alloc = rt.alloc();
    if path == "-" {
        return Ok(String::from_str(alloc, path)?);
    }
    let (folder, name) = split_path(path);
    let real = match fs::canonicalize(rt, shown_folder(folder)) {
        Ok(real) => real,
        Err(error) if error.kind() == ErrorKind::OutOfMemory => return Err(error),
        Err(_) => return Ok(String::from_str(alloc, path)?),
    };
    let names = names_of(alloc, real.as_str())?;
    let Some(top) = repository(rt, names.as_slice())? else {
        return Ok(String::from_str(alloc, path)?);
    };
    let below = path_of(alloc, names.get(top..).unwrap_or(&[]))?;
    let whole = format!(in alloc; "{below}/{name}")?;
    Ok(String::from_str(alloc, whole.as_str().trim_start_matches('/'))?)
}

// A value of git's settings, without the quotes around it and a comment behind it.
fn without_quotes(value: &str) -> &str {
    let value = value.trim();
    match value.strip_prefix('"') {
        Some(quoted) => quoted.split('"').next().unwrap_or(""),
        None => value
            .split(['#', ';'].as_slice())
            .next()
            .unwrap_or("")
            .trim_end(),
    }
}

// The value of core.excludesFile in a file of git's settings.
fn excludes_setting(settings: &str) -> Option<&str> {
    let mut is_core = false;
    let mut last = None;
    for line in settings.lines().map(|line| line.trim()) {
        if line.starts_with('[') {
            is_core = line.eq_ignore_ascii_case("[core]");
        } else if is_core
            && let Some((name, value)) = line.split_once('=')
            && name.trim().eq_ignore_ascii_case("excludesfile")
        {
            last = Some(without_quotes(value));
        }
    }
    last
}

// The value of a variable of the environment; an empty one if it isn't set.
fn variable<R: Runtime + AllocGlobal>(rt: &R, name: &str) -> io::Result<String> {
    match env::var(rt, name) {
        Ok(value) => Ok(value),
        Err(VarError::OutOfMemory) => Err(io::Error::from(AllocError)),
        Err(_) => Ok(String::new(rt.alloc())),
    }
}

// The file of what the user ignores in all repositories: git's core.excludesFile, if ~/.gitconfig sets it, or git's own place for it.
fn excludes_file<R: Runtime + AllocGlobal>(rt: &R) -> io::Result<String> {
    let alloc = rt.alloc();
    let home = variable(rt, "HOME")?;
    let settings = format!(in alloc; "{home}/.gitconfig")?;
    let settings = match fs::read_to_string(rt, settings.as_str()) {
        Ok(settings) => settings,
        Err(error) if error.kind() == ErrorKind::OutOfMemory => return Err(error),
        Err(_) => String::new(alloc),
    };
    if let Some(file) = excludes_setting(settings.as_str()) {
        return Ok(match file.strip_prefix("~/") {
            Some(below) => format!(in alloc; "{home}/{below}")?,
            None => String::from_str(alloc, file)?,
        });
    }
    let config = variable(rt, "XDG_CONFIG_HOME")?;
    if config.is_empty() {
        format!(in alloc; "{home}/.config/git/ignore").map_err(io::Error::from)
    } else {
        format!(in alloc; "{config}/git/ignore").map_err(io::Error::from)
    }
}

// What git ignores in a folder by files above it: the user's own, the exclude file of its repository, and each .gitignore from there down.
fn ignored_above<R: Runtime + AllocGlobal>(rt: &R, folder: &str) -> io::Result<Vec<Ignored>> {
    let alloc = rt.alloc();
    let real = match fs::canonicalize(rt, shown_folder(folder)) {
        Ok(real) => real,
        Err(error) if error.kind() == ErrorKind::OutOfMemory => return Err(error),
        Err(_) => return Ok(Vec::new(alloc)),
    };
    let names = names_of(alloc, real.as_str())?;
    let mut ignored = Vec::new(alloc);
    if let Some(top) = repository(rt, names.as_slice())? {
        read_above(rt, folder, names.as_slice(), top, &mut ignored)?;
    }
    Ok(ignored)
}

// The path that one of git's files names, if the file can be read. A relative path begins in a folder.
fn path_in_file<R: Files + AllocGlobal>(
    rt: &R,
    file: &str,
    front: &str,
    folder: &str,
) -> io::Result<Option<String>> {
    let text = match fs::read_to_string(rt, file) {
        Ok(text) => text,
        Err(error) if error.kind() == ErrorKind::OutOfMemory => return Err(error),
        Err(_) => return Ok(None),
    };
    let line = text.as_str().trim_end_matches(['\n', '\r'].as_slice());
    Ok(match line.strip_prefix(front) {
        Some(path) if path.starts_with('/') => Some(String::from_str(rt.alloc(), path)?),
        Some(path) => Some(joined(rt.alloc(), folder, path)?),
        None => None,
    })
}

// The exclude file of the repository at a folder. In a worktree or a submodule `.git` is a file, which names the folder of the repository;
// and that of a worktree names the one that all worktrees have in common.
fn exclude_file<R: Files + AllocGlobal>(rt: &R, top: &str) -> io::Result<String> {
    let alloc = rt.alloc();
    let git = joined(alloc, top, ".git")?;
    let git = path_in_file(rt, git.as_str(), "gitdir: ", top)?.unwrap_or(git);
    let common = joined(alloc, git.as_str(), "commondir")?;
    let common = path_in_file(rt, common.as_str(), "", git.as_str())?.unwrap_or(git);
    Ok(joined(alloc, common.as_str(), "info/exclude")?)
}

// Adds what git ignores in all of the repository at a folder: the user's own, and its exclude file. The lines count below a folder, to
// which the names of `lead` lead.
fn read_shared<R: Runtime + AllocGlobal>(
    rt: &R,
    top: &str,
    folder: &str,
    lead: &str,
    ignored: &mut Vec<Ignored>,
) -> io::Result<()> {
    let own = excludes_file(rt)?;
    read_ignored(rt, own.as_str(), folder, lead, ignored)?;
    let shared = exclude_file(rt, top)?;
    read_ignored(rt, shared.as_str(), folder, lead, ignored)
}

// Adds the lines of the .gitignore in the folder that so many of these names lead to. They count below a folder, to which all lead.
fn read_at<R: Runtime + AllocGlobal>(
    rt: &R,
    folder: &str,
    names: &[&str],
    count: usize,
    ignored: &mut Vec<Ignored>,
) -> io::Result<()> {
    let (front, behind) = names.split_at_checked(count).unwrap_or((names, &[]));
    let above = path_of(rt.alloc(), front)?;
    let lead = path_of(rt.alloc(), behind)?;
    let file = format!(in rt.alloc(); "{above}/.gitignore")?;
    read_ignored(rt, file.as_str(), folder, lead.as_str(), ignored)
}

// Adds what git ignores by files above a folder, to which these names lead, so many of them to its repository.
fn read_above<R: Runtime + AllocGlobal>(
    rt: &R,
    folder: &str,
    names: &[&str],
    top: usize,
    ignored: &mut Vec<Ignored>,
) -> io::Result<()> {
    let (front, behind) = names.split_at_checked(top).unwrap_or((names, &[]));
    let (above, lead) = (path_of(rt.alloc(), front)?, path_of(rt.alloc(), behind)?);
    let above = format!(in rt.alloc(); "{above}/")?;
    read_shared(rt, above.as_str(), folder, lead.as_str(), ignored)?;
    for count in top..names.len() {
        read_at(rt, folder, names, count, ignored)?;
    }
    Ok(())
}

// ---- folders

// What is left out of a folder: what git and .ignore ignore, and what the arguments exclude.
#[derive(Drop)]
struct Left {
    ignored: Vec<Ignored>,
    /// How many lines, the first, are of outer repositories, and don't count.
    outer: usize,
    excluded: Vec<Ignored>,
    /// Whether the files of folders say what is ignored.
    has_files: bool,
}

impl Left {
    fn new(ignored: Vec<Ignored>, excluded: Vec<Ignored>, has_files: bool) -> Left {
        Left {
            ignored,
            outer: 0,
            excluded,
            has_files,
        }
    }

    fn has(&self, alloc: Global, path: &str, is_folder: bool) -> Result<bool, AllocError> {
        let ignored = self.ignored.get(self.outer..).unwrap_or(&[]);
        Ok(
            is_ignored(alloc, self.excluded.as_slice(), path, is_folder)?
                || is_ignored(alloc, ignored, path, is_folder)?,
        )
    }

    // Goes on with so many lines, of which the first, of outer repositories, don't count.
    fn go_back(&mut self, ignored: usize, outer: usize) {
        self.ignored.truncate(ignored);
        self.outer = outer;
    }

    // Goes into a folder below another. If it has a repository of its own, git ignores nothing in it by files of the outer one.
    fn enter<R: Runtime + AllocGlobal>(&mut self, rt: &R, folder: &str) -> io::Result<()> {
        let git = joined(rt.alloc(), folder, ".git")?;
        if !self.has_files || !fs::exists(rt, git.as_str()).unwrap_or(false) {
            return Ok(());
        }
        self.outer = self.ignored.len();
        read_shared(rt, folder, folder, "", &mut self.ignored)
    }
}

// The patterns of --exclude.
fn excluded(alloc: Global, patterns: &[&str]) -> Result<Vec<Ignored>, AllocError> {
    let mut all = Vec::new(alloc);
    for pattern in patterns {
        if let Some(line) = Ignored::new(alloc, "", "", pattern)? {
            all.push(line)?;
        }
    }
    Ok(all)
}

// Lists a folder, by the order of names, but for what is left out, also by its own .gitignore and .ignore.
fn list<R: Runtime + AllocGlobal>(rt: &R, folder: &str, left: &mut Left) -> io::Result<Folder> {
    let alloc = rt.alloc();
    if left.has_files {
        // The lines of .ignore come last, and so count more.
        for name in [".gitignore", ".ignore"] {
            let file = joined(alloc, folder, name)?;
            read_ignored(rt, file.as_str(), folder, "", &mut left.ignored)?;
        }
    }
    let mut held = Folder {
        manifests: Vec::new(alloc),
        folders: Vec::new(alloc),
        links: Vec::new(alloc),
        has_other: false,
    };
    let path = if folder.is_empty() { "." } else { folder };
    for entry in fs::read_dir(rt, path)? {
        let entry = match entry {
            Ok(entry) => entry,
            Err(error) if error.kind() == ErrorKind::InvalidFilename => {
                held.has_other = true;
                continue;
            }
            Err(error) => return Err(error),
        };
        let name = entry.file_name();
        let kind = entry.file_type()?;
        let is_folder = kind.is_dir();
        let is_manifest = NAMES.contains(&name) && (kind.is_file() || kind.is_symlink());
        let is_other = !is_folder && !is_manifest && !kind.is_symlink();
        if matches!(name, "node_modules" | ".git") || is_other {
            continue;
        }
        let path = joined(alloc, folder, name)?;
        if left.has(alloc, path.as_str(), !is_manifest)? {
            continue;
        }
        if is_manifest {
            held.manifests.push(path)?;
        } else if is_folder {
            held.folders.push(path)?;
        } else {
            held.links.push(path)?;
        }
    }
    held.manifests.sort()?;
    held.folders.sort()?;
    held.links.sort()?;
    Ok(held)
}

// Reports that a folder can't be read.
fn complain<O: Write, E: Write>(
    console: &mut Console<O, E>,
    folder: &str,
    error: &io::Error,
) -> Result<Status, Stop> {
    let reason = match error.kind() {
        ErrorKind::OutOfMemory => return Err(Stop::OutOfMemory),
        ErrorKind::PermissionDenied => "permission denied",
        _ => "can't be read",
    };
    Ok(console.complain(Shown(shown_folder(folder)), reason))
}

fn shown_folder(folder: &str) -> &str {
    if folder.is_empty() { "." } else { folder }
}

// Whether a path leads to a folder.
fn is_folder<R: Files + AllocGlobal>(rt: &R, path: &str) -> Result<bool, AllocError> {
    match fs::metadata(rt, path) {
        Ok(data) => Ok(data.is_dir()),
        Err(error) if error.kind() == ErrorKind::OutOfMemory => Err(AllocError),
        Err(_) => Ok(false),
    }
}

// A folder that isn't listed yet, how many lines say what is ignored there, without its own, and how many are of outer repositories.
#[derive(Drop)]
struct Waiting {
    folder: String,
    ignored: usize,
    outer: usize,
}

// What is said of a folder in which a name isn't valid UTF-8. The standard library doesn't tell that name.
const PASSED_OVER: &str =
    "passed over a name that isn't valid UTF-8, and what is below it; if it's a folder, run ranges there";

// Lists a folder, or reports that it can't be read. A note says whether a name in it can't: most such names are no manifests.
fn listed<R: Runtime + AllocGlobal, O: Write, E: Write>(
    rt: &R,
    console: &mut Console<O, E>,
    folder: &str,
    left: &mut Left,
    status: &mut Status,
) -> Result<Option<Folder>, Stop> {
    match list(rt, folder, left) {
        Ok(held) => {
            if held.has_other {
                let folder = Shown(shown_folder(folder));
                console.tell(format_args!("{folder}: {PASSED_OVER}"));
            }
            Ok(Some(held))
        }
        Err(error) => {
            *status = status.worse(complain(console, folder, &error)?);
            Ok(None)
        }
    }
}

// What files above a folder say is ignored there; nothing with --no-ignore.
fn ignored_for<R: Runtime + AllocGlobal, O: Write, E: Write>(
    rt: &R,
    console: &Console<O, E>,
    folder: &str,
) -> Result<Vec<Ignored>, Stop> {
    if console.options.no_ignore {
        return Ok(Vec::new(console.alloc));
    }
    match ignored_above(rt, folder) {
        Ok(ignored) => Ok(ignored),
        // Nothing else goes wrong.
        Err(_) => Err(Stop::OutOfMemory),
    }
}

// Finds the manifests in a folder and in those below it, but in none named `node_modules` or `.git`, nor in what is left out. The
// folder's own come first.
fn manifests_in<R: Runtime + AllocGlobal, O: Write, E: Write>(
    rt: &R,
    console: &mut Console<O, E>,
    folder: &str,
    excluded: Vec<Ignored>,
    status: &mut Status,
) -> Result<Group, Stop> {
    let alloc = console.alloc;
    let mut found = Group::new(alloc);
    found.is_walked = true;
    let ignored = ignored_for(rt, console, folder)?;
    let first = Waiting {
        folder: String::from_str(alloc, folder)?,
        ignored: ignored.len(),
        outer: 0,
    };
    let mut left = Left::new(ignored, excluded, !console.options.no_ignore);
    let mut waiting = vec![in alloc; first]?;
    for turn in 0..u64::MAX {
        let Some(
            Waiting {
                folder,
                ignored,
                outer,
            },
        ) = waiting.pop()
        else {
            break;
        };
        left.go_back(ignored, outer);
        if turn > 0 && left.enter(rt, folder.as_str()).is_err() {
            return Err(Stop::OutOfMemory);
        }
        let Some(
            Folder {
                manifests,
                mut folders,
                ..
            },
        ) = listed(rt, console, folder.as_str(), &mut left, status)?
        else {
            continue;
        };
        for path in manifests {
            found.paths.push(path)?;
        }
        if turn == 0 {
            found.own = found.paths.len();
        }
        for _ in 0..folders.len() {
            if let Some(folder) = folders.pop() {
                let (ignored, outer) = (left.ignored.len(), left.outer);
                waiting.push(Waiting {
                    folder,
                    ignored,
                    outer,
                })?;
            }
        }
    }
    Ok(found)
}

// ---- workspaces

// Adds the patterns of workspaces that a manifest names; one that can't be read names none.
fn add_workspaces<R: Runtime + AllocGlobal, O: Write, E: Write>(
    rt: &R,
    console: &mut Console<O, E>,
    path: &str,
    workspaces: &mut Vec<Workspace>,
) -> Result<Status, Stop> {
    let alloc = console.alloc;
    let mut status = Status::Answered;
    let entries = entries_of(rt, path)?;
    let first = workspaces.len();
    let is_of_npm = path.ends_with("package.json");
    for entry in entries.iter().filter(|entry| entry.kind == Kind::Workspace) {
        let pattern = entry.text.as_str();
        let is_extended = is_extended(pattern);
        let read = with_slashes(alloc, pattern, is_of_npm)?;
        let read = without_way_back(alloc, read.as_str())?;
        let workspace = if is_extended {
            None
        } else {
            Workspace::new(alloc, read.as_str())?
        };
        let Some(mut workspace) = workspace else {
            let message = if is_extended {
                "a pattern with `!(`, `?(`, `*(`, `+(` or `@(` isn't read: write one for each folder"
            } else {
                "its braces stand for more than 1000 patterns"
            };
            let subject = format_args!("{}: {}", Shown(path), Quoted(pattern));
            status = status.worse(console.complain(subject, message));
            continue;
        };
        workspace.text = String::from_str(alloc, pattern)?;
        if is_of_npm {
            undo(alloc, workspaces.as_mut_slice(), first, &workspace)?;
        }
        workspaces.push(workspace)?;
    }
    Ok(status)
}

// A pattern of workspaces with `/` for `\`, as npm reads one, unless it begins with it or leaves folders out.
fn with_slashes(alloc: Global, pattern: &str, is_of_npm: bool) -> Result<String, AllocError> {
    let has_odd_front = pattern.starts_with(['!', '\\'].as_slice()) || pattern.starts_with(".\\");
    let mut all = String::new(alloc);
    for c in pattern.chars() {
        if c == '\\' && is_of_npm && !has_odd_front {
            all.push('/')?;
        } else {
            all.push(c)?;
        }
    }
    Ok(all)
}

// A pattern without the names that a `..` behind them leaves again.
fn without_way_back(alloc: Global, pattern: &str) -> Result<String, AllocError> {
    let mut names = Vec::new(alloc);
    for name in pattern.split('/') {
        match names.last() {
            Some(last) if name == ".." && !matches!(*last, "" | "." | ".." | "!" | "**") => {
                let _ = names.pop();
            }
            _ => names.push(name)?,
        }
    }
    let mut all = String::new(alloc);
    let mut separator = "";
    for name in names.iter() {
        all.push_str(separator)?;
        all.push_str(*name)?;
        separator = "/";
    }
    Ok(all)
}

// Whether a pattern has lists of patterns in parentheses, of which npm takes one, none, several or all others.
fn is_extended(pattern: &str) -> bool {
    let pattern = pattern.trim_start_matches('!');
    ["!(", "?(", "*(", "+(", "@("]
        .iter()
        .any(|sign| pattern.contains(*sign))
}

// The manifests in a folder.
fn manifests_at<R: Files + AllocGlobal>(rt: &R, folder: &str) -> Result<Vec<String>, AllocError> {
    let mut found = Vec::new(rt.alloc());
    for name in &NAMES {
        let path = format!(in rt.alloc(); "{folder}/{name}")?;
        if fs::exists(rt, path.as_str()).unwrap_or(false) {
            found.push(path)?;
        }
    }
    Ok(found)
}

// Whether a folder is a workspace, or holds one among the manifests that were found in it. The patterns name it by the second path.
fn holds_workspace(
    alloc: Global,
    workspaces: &mut [Workspace],
    folder: &str,
    below: &str,
    found: &[String],
) -> Result<bool, AllocError> {
    if workspaces.is_empty() || is_workspace(alloc, workspaces, below)? {
        return Ok(!workspaces.is_empty());
    }
    for path in found {
        let (own, _) = split_path(path.as_str());
        let rest = own.strip_prefix(folder).unwrap_or("");
        let whole = format!(in alloc; "{below}/{rest}")?;
        if is_workspace(alloc, workspaces, whole.as_str())? {
            return Ok(true);
        }
    }
    Ok(false)
}

/// A folder that may be the root of a workspace.
#[derive(Drop)]
pub struct Root {
    manifests: Vec<String>,
    workspaces: Vec<Workspace>,
}

/// The folders that were asked so far, by paths.
pub type Roots = BTreeMap<String, Root>;

// What a folder says of workspaces. It is read once.
fn root_at<'r, R: Runtime + AllocGlobal, O: Write, E: Write>(
    rt: &R,
    console: &mut Console<O, E>,
    folder: &str,
    roots: &'r mut Roots,
) -> Result<Option<&'r mut Root>, Stop> {
    let alloc = rt.alloc();
    if !roots.contains_key(folder) {
        let manifests = manifests_at(rt, folder)?;
        let mut workspaces = Vec::new(alloc);
        for manifest in manifests.iter() {
            let _ = add_workspaces(rt, console, manifest.as_str(), &mut workspaces)?;
        }
        let root = Root {
            manifests,
            workspaces,
        };
        let _ = roots.insert(String::from_str(alloc, folder)?, root)?;
    }
    Ok(roots.get_mut(folder))
}

/// The manifests of the workspace that a folder belongs to, or what was found in it: those of the nearest folder above whose patterns match.
pub fn manifests_above<R: Runtime + AllocGlobal, O: Write, E: Write>(
    rt: &R,
    console: &Console<O, E>,
    folder: &str,
    found: &[String],
    roots: &mut Roots,
) -> Result<Vec<String>, Stop> {
    let alloc = console.alloc;
    let real = match fs::canonicalize(rt, shown_folder(folder)) {
        Ok(real) => real,
        Err(error) if error.kind() == ErrorKind::OutOfMemory => return Err(Stop::OutOfMemory),
        Err(_) => return Ok(Vec::new(alloc)),
    };
    let names = names_of(alloc, real.as_str())?;
    // Who checks that folder is told which patterns aren't read.
    let (out, err) = (io::sink(), io::sink());
    let mut silent = Console::new(alloc, out, err, console.terminal, console.options);
    for count in (0..names.len()).rev() {
        let (front, behind) = names
            .as_slice()
            .split_at_checked(count)
            .unwrap_or((&[], &[]));
        let (path, below) = (path_of(alloc, front)?, path_of(alloc, behind)?);
        let Some(root) = root_at(rt, &mut silent, path.as_str(), roots)? else {
            continue;
        };
        let patterns = root.workspaces.as_mut_slice();
        if holds_workspace(alloc, patterns, folder, below.as_str(), found)? {
            let mut manifests = Vec::new(alloc);
            for manifest in root.manifests.iter() {
                manifests.push(manifest.clone()?)?;
            }
            return Ok(manifests);
        }
    }
    Ok(Vec::new(alloc))
}

// A folder on the way to workspaces, and whether none are in it.
#[derive(Drop)]
struct Step {
    folder: String,
    is_last: bool,
}

// Adds those of some folders that lead to workspaces of a root to the ones that wait. They stand below a folder, and perhaps are links.
fn add_steps<R: Files + AllocGlobal>(
    rt: &R,
    workspaces: &[Workspace],
    root: &str,
    mut folders: Vec<String>,
    are_links: bool,
    waiting: &mut Vec<Step>,
) -> Result<(), AllocError> {
    for _ in 0..folders.len() {
        let Some(folder) = folders.pop() else {
            break;
        };
        let below = folder.as_str().strip_prefix(root).unwrap_or("");
        let way = way_to(rt.alloc(), workspaces, below, are_links)?;
        if way == Way::Nowhere || are_links && !is_folder(rt, folder.as_str())? {
            continue;
        }
        let is_last = way == Way::Here;
        waiting.push(Step { folder, is_last })?;
    }
    Ok(())
}

// Finds the manifests of the workspaces below a root's folder, of each real folder once. Package managers find them by links, too, and
// whatever git ignores.
fn members_in<R: Runtime + AllocGlobal, O: Write, E: Write>(
    rt: &R,
    console: &mut Console<O, E>,
    root: &str,
    excluded: Vec<Ignored>,
    workspaces: &mut [Workspace],
    status: &mut Status,
) -> Result<Vec<String>, Stop> {
    let alloc = console.alloc;
    let mut found = Vec::new(alloc);
    let mut left = Left::new(Vec::new(alloc), excluded, false);
    let mut seen = HashSet::new(alloc);
    let first = Step {
        folder: String::from_str(alloc, root)?,
        is_last: false,
    };
    let mut waiting = vec![in alloc; first]?;
    for turn in 0..u64::MAX {
        let Some(Step { folder, is_last }) = waiting.pop() else {
            break;
        };
        let Some(
            Folder {
                manifests,
                folders,
                links,
                ..
            },
        ) = listed(rt, console, folder.as_str(), &mut left, status)?
        else {
            continue;
        };
        let below = folder.as_str().strip_prefix(root).unwrap_or("");
        let has_any = !manifests.is_empty();
        let is_taken = turn == 0 || has_any && is_workspace(alloc, workspaces, below)?;
        let inner = joined(alloc, folder.as_str(), "")?;
        if is_taken && seen.insert(real_path(rt, inner.as_str())?)? && turn > 0 {
            for path in manifests {
                found.push(path)?;
            }
        }
        if !is_last {
            add_steps(rt, workspaces, root, links, true, &mut waiting)?;
            add_steps(rt, workspaces, root, folders, false, &mut waiting)?;
        }
    }
    Ok(found)
}

/// The workspaces of a root.
#[derive(Drop)]
pub struct Members {
    /// The package.json of each.
    pub manifests: Vec<String>,
    /// Whether these are all.
    is_whole: bool,
}

/// The workspaces that a manifest of a root names.
pub fn members_of<R: Runtime + AllocGlobal, O: Write, E: Write>(
    rt: &R,
    console: &Console<O, E>,
    root: &str,
) -> Result<Members, Stop> {
    let alloc = console.alloc;
    let (out, err) = (io::sink(), io::sink());
    let mut silent = Console::new(alloc, out, err, console.terminal, console.options);
    let mut workspaces = Vec::new(alloc);
    let mut status = add_workspaces(rt, &mut silent, root, &mut workspaces)?;
    let mut manifests = Vec::new(alloc);
    if !workspaces.is_empty() {
        let (folder, _) = split_path(root);
        let patterns = workspaces.as_mut_slice();
        let none = Vec::new(alloc);
        for path in members_in(rt, &mut silent, folder, none, patterns, &mut status)? {
            if split_path(path.as_str()).1 == "package.json" {
                manifests.push(path)?;
            }
        }
    }
    let is_whole = status == Status::Answered && !workspaces.iter().any(is_elsewhere);
    Ok(Members {
        manifests,
        is_whole,
    })
}

// Adds the manifests of the other workspaces of the root that this folder belongs to, which `workspace:` may name.
fn add_siblings<R: Runtime + AllocGlobal, O: Write, E: Write>(
    rt: &R,
    console: &Console<O, E>,
    found: &mut Group,
) -> Result<(), Stop> {
    let alloc = console.alloc;
    let mut seen = HashSet::new(alloc);
    for path in found.paths.iter() {
        let _ = seen.insert(real_path(rt, path.as_str())?)?;
    }
    let (mut others, mut is_whole) = (Vec::new(alloc), true);
    for root in found.above.iter() {
        let members = members_of(rt, console, root.as_str())?;
        is_whole &= members.is_whole;
        for path in members.manifests {
            if seen.insert(real_path(rt, path.as_str())?)? {
                others.push(path)?;
            }
        }
    }
    found.others = others;
    found.is_whole = is_whole;
    Ok(())
}

// Whether no folder matches a pattern.
fn is_unmatched(workspace: &Workspace) -> bool {
    !workspace.has_match && !workspace.is_without
}

// Whether a pattern names folders outside this one, which aren't read.
fn is_elsewhere(workspace: &Workspace) -> bool {
    workspace.text.as_str().split('/').any(|part| part == "..")
}

// Finds the manifests of this folder, and those of its workspaces.
fn manifests_here<R: Runtime + AllocGlobal, O: Write, E: Write>(
    rt: &R,
    console: &mut Console<O, E>,
    excludes: &[&str],
    status: &mut Status,
) -> Result<Group, Stop> {
    let alloc = console.alloc;
    let mut found = Group::new(alloc);
    let has_files = !console.options.no_ignore;
    let mut left = Left::new(Vec::new(alloc), excluded(alloc, excludes)?, has_files);
    match list(rt, "", &mut left) {
        Ok(Folder { manifests, .. }) => found.paths = manifests,
        Err(error) => {
            *status = complain(console, "", &error)?;
            return Ok(found);
        }
    }
    found.own = found.paths.len();
    let mut workspaces = Vec::new(alloc);
    for path in found.paths.iter() {
        let told = add_workspaces(rt, console, path.as_str(), &mut workspaces)?;
        *status = status.worse(told);
    }
    if workspaces.is_empty() {
        return Ok(found);
    }
    // A pattern may name this folder itself.
    let _ = is_workspace(alloc, workspaces.as_mut_slice(), "")?;
    let left = excluded(alloc, excludes)?;
    let patterns = workspaces.as_mut_slice();
    for path in members_in(rt, console, "", left, patterns, status)? {
        found.paths.push(path)?;
    }
    if !excludes.is_empty() {
        return Ok(found);
    }
    let mut has_elsewhere = false;
    for workspace in workspaces {
        if is_elsewhere(&workspace) {
            has_elsewhere = true;
        } else if is_unmatched(&workspace) {
            found.unmatched.push(workspace.text)?;
        }
    }
    found.is_whole = !has_elsewhere && *status == Status::Answered;
    Ok(found)
}

// ---- import maps

// A path without `.`, and without `..` behind a name.
fn normalized(alloc: Global, path: &str) -> Result<String, AllocError> {
    let mut kept: Vec<&str> = Vec::new(alloc);
    for name in names_of(alloc, path)?.iter() {
        let is_back = *name == ".." && kept.last().is_some_and(|last| *last != "..");
        if is_back {
            let _ = kept.pop();
        } else {
            kept.push(*name)?;
        }
    }
    let mut whole = String::from_str(alloc, if path.starts_with('/') { "/" } else { "" })?;
    let mut separator = "";
    for name in kept.iter() {
        whole.push_str(separator)?;
        whole.push_str(name)?;
        separator = "/";
    }
    Ok(whole)
}

/// The folder of a path, with what ends it, and the name.
pub fn split_path(path: &str) -> (&str, &str) {
    let start = match path.rfind('/') {
        Some(slash) => slash.saturating_add(1),
        None => 0,
    };
    path.split_at_checked(start).unwrap_or(("", path))
}

// Whether a file may name an import map.
fn is_of_deno(path: &str) -> bool {
    matches!(split_path(path).1, "deno.json" | "deno.jsonc")
}

// The path of the import map that Deno's manifest names, unless that is a URL.
fn import_map_of<R: Runtime + AllocGlobal>(rt: &R, path: &str) -> Result<Option<String>, Stop> {
    let alloc = rt.alloc();
    let entries = entries_of(rt, path)?;
    let Some(entry) = entries.iter().find(|entry| entry.kind == Kind::ImportMap) else {
        return Ok(None);
    };
    let named = entry.text.as_str();
    if named.contains("://") || named.starts_with("data:") {
        return Ok(None);
    }
    let (folder, _) = split_path(path);
    let whole = if named.starts_with('/') {
        normalized(alloc, named)?
    } else {
        normalized(alloc, format!(in alloc; "{folder}{named}")?.as_str())?
    };
    Ok(Some(whole))
}

// Adds the import maps that manifests of Deno name, each once.
fn add_import_maps<R: Runtime + AllocGlobal>(rt: &R, groups: &mut [Group]) -> Result<(), Stop> {
    let alloc = rt.alloc();
    let is_of_deno_any = |group: &Group| group.paths.iter().any(|path| is_of_deno(path.as_str()));
    if !groups.iter().any(is_of_deno_any) {
        return Ok(());
    }
    let mut known = HashSet::new(alloc);
    for group in groups.iter() {
        for path in group.paths.iter() {
            let _ = known.insert(normalized(alloc, path.as_str())?)?;
        }
    }
    for group in groups.iter_mut() {
        let mut added = Vec::new(alloc);
        for path in group.paths.iter().filter(|path| is_of_deno(path.as_str())) {
            if let Some(map) = import_map_of(rt, path.as_str())?
                && known.insert(map.clone()?)?
            {
                added.push(map)?;
            }
        }
        for map in added {
            group.paths.push(map)?;
        }
    }
    Ok(())
}

// ---- arguments

// Whether a text is a range of npm's grammar.
fn is_range(alloc: Global, text: &str) -> Result<bool, Stop> {
    match reading::range(alloc, Flavour::Npm, 0, text) {
        Ok(range) => Ok(range.tag().is_none()),
        Err(Problem::Invalid(_)) => Ok(false),
        Err(Problem::OutOfMemory) => Err(Stop::OutOfMemory),
    }
}

// Says what to run if the name of a file that isn't there is a range.
fn hint_at_range<O: Write, E: Write>(console: &mut Console<O, E>, file: &str) -> Result<(), Stop> {
    if !file.contains('\'') && is_range(console.alloc, file)? {
        let _ = writeln!(
            console.err,
            "  = to check a range, run: ranges explain '{}'",
            Shown(file)
        );
    }
    Ok(())
}

// Reports where a file isn't valid UTF-8.
fn complain_of_byte<R: Files + AllocGlobal, O: Write, E: Write>(
    rt: &R,
    console: &mut Console<O, E>,
    file: &str,
) -> Result<Status, Stop> {
    let reason = "not valid UTF-8";
    let bytes = match fs::read(rt, file) {
        Ok(bytes) => bytes,
        Err(error) if error.kind() == ErrorKind::OutOfMemory => return Err(Stop::OutOfMemory),
        Err(_) => return Ok(console.complain(Shown(file), reason)),
    };
    let valid = match str::from_utf8(bytes.as_slice()) {
        Ok(text) => text.len(),
        Err(error) => error.valid_up_to(),
    };
    let text = str::from_utf8(bytes.get(..valid).unwrap_or(&[])).unwrap_or("");
    let mut position = Position::START;
    position.move_to(text, text.len());
    Ok(console.complain(format_args!("{}:{position}", Shown(file)), reason))
}

/// A text without the byte order mark with which some programs begin UTF-8.
pub fn without_mark(text: &str) -> &str {
    text.strip_prefix('\u{feff}').unwrap_or(text)
}

/// Reads a file, or standard input for `-`; what is wrong with the file itself is reported on standard error.
pub fn read_file<R: Input + Files + AllocGlobal, O: Write, E: Write>(
    rt: &R,
    console: &mut Console<O, E>,
    file: &str,
) -> Result<Text, Stop> {
    let read = if file == "-" {
        console.announce("ranges");
        let mut text = String::new(console.alloc);
        let invalid = None;
        rt.reader()
            .read_to_string(&mut text)
            .map(|_| Text { text, invalid })
    } else {
        read_text(rt, file)
    };
    let mut is_missing = false;
    let reason = match read {
        Ok(read) if read.text.is_empty() && file == "-" => "standard input is empty",
        Ok(read) => return Ok(read),
        Err(error) => match error.kind() {
            ErrorKind::OutOfMemory => return Err(Stop::OutOfMemory),
            ErrorKind::NotFound if file.contains(char::REPLACEMENT_CHARACTER) => {
                "no such file, or its name isn't valid UTF-8"
            }
            ErrorKind::NotFound => {
                is_missing = true;
                "no such file"
            }
            ErrorKind::PermissionDenied => "permission denied",
            ErrorKind::IsADirectory => "is a directory",
            ErrorKind::InvalidData if file != "-" => {
                return Err(Stop::Ended(complain_of_byte(rt, console, file)?));
            }
            ErrorKind::InvalidData => "not valid UTF-8",
            _ => "can't be read",
        },
    };
    let status = console.complain(Shown(file), reason);
    if is_missing {
        hint_at_range(console, file)?;
    }
    Err(Stop::Ended(status))
}

/// The path that a file goes by, which for standard input is this name.
pub fn named<'p>(path: &'p str, stdin: &'p str) -> &'p str {
    if path == "-" { stdin } else { path }
}

/// The manifests to check: the files, and those in folders, but for what is excluded; without any, those of this folder and its workspaces.
pub fn find<R: Runtime + AllocGlobal, O: Write, E: Write>(
    rt: &R,
    console: &mut Console<O, E>,
    files: Option<&[&str]>,
    excludes: &[&str],
) -> Result<Manifests, Stop> {
    let alloc = console.alloc;
    let mut roots = BTreeMap::new(alloc);
    let mut all = Manifests {
        groups: Vec::new(alloc),
        status: Status::Answered,
    };
    if files.is_none() {
        let mut status = Status::Answered;
        let mut found = manifests_here(rt, console, excludes, &mut status)?;
        found.above = manifests_above(rt, console, "", &[], &mut roots)?;
        if !found.above.is_empty() && excludes.is_empty() {
            add_siblings(rt, console, &mut found)?;
        }
        all.status = with_something_here(rt, console, &found, status, excludes)?;
        all.groups.push(found)?;
    }
    for file in files.unwrap_or(&[]) {
        let mut found = Group::new(alloc);
        if *file != "-" && is_folder(rt, file)? {
            let mut status = Status::Answered;
            found = manifests_in(rt, console, file, excluded(alloc, excludes)?, &mut status)?;
            let status = with_something(console, file, &found, status, NONE_BELOW);
            all.status = all.status.worse(status);
            let paths = found.paths.as_slice();
            found.above = manifests_above(rt, console, file, paths, &mut roots)?;
        } else {
            let path = String::from_str(alloc, file)?;
            let (folder, name) = split_path(file);
            if NAMES.contains(&name) {
                found.above = manifests_above(rt, console, folder, &[], &mut roots)?;
            }
            if let Some(last) = all.groups.last_mut()
                && last.shares(&found)
            {
                last.paths.push(path)?;
                continue;
            }
            found.paths.push(path)?;
        }
        all.groups.push(found)?;
    }
    add_import_maps(rt, all.groups.as_mut_slice())?;
    let Manifests { groups, status } = all;
    let groups = without_repeated(rt, groups)?;
    Ok(Manifests { groups, status })
}

/// The path of a file without links on the way; if the folder isn't there, the same path without `.` and `..`.
pub fn real_path<R: Files + AllocGlobal>(rt: &R, path: &str) -> Result<String, AllocError> {
    let alloc = rt.alloc();
    if path == "-" {
        return String::from_str(alloc, path);
    }
    let (folder, name) = split_path(path);
    match fs::canonicalize(rt, shown_folder(folder)) {
        Ok(real) => joined(alloc, real.as_str(), name),
        Err(error) if error.kind() == ErrorKind::OutOfMemory => Err(AllocError),
        Err(_) => normalized(alloc, path),
    }
}

// A group without the files that one before it has, and with each of its own once. `seen` has the turns in which the paths came first. The
// manifests of its folder still count for the others, as those above do.
fn without_seen<R: Files + AllocGlobal>(
    rt: &R,
    seen: &mut HashMap<String, usize>,
    turn: usize,
    group: Group,
) -> Result<Group, AllocError> {
    let alloc = rt.alloc();
    let Group {
        paths,
        own,
        unmatched,
        is_whole,
        mut above,
        mut others,
        roots,
        is_walked,
        over,
    } = group;
    let mut kept = Vec::new(alloc);
    let (mut kept_own, mut place) = (0usize, 0usize);
    for path in paths {
        let is_own = place < own;
        place = place.saturating_add(1);
        let name = real_path(rt, path.as_str())?;
        let first = seen.get(name.as_str()).copied();
        match first {
            None => {
                let _ = seen.insert(name, turn)?;
                kept.push(path)?;
                kept_own = kept_own.saturating_add(usize::from(is_own));
            }
            Some(first) if first == turn => (),
            Some(_) if is_own => above.push(path)?,
            Some(_) => others.push(path)?,
        }
    }
    Ok(Group {
        paths: kept,
        own: kept_own,
        unmatched,
        is_whole,
        above,
        others,
        roots,
        is_walked,
        over,
    })
}

// The groups with each file once.
fn without_repeated<R: Files + AllocGlobal>(
    rt: &R,
    groups: Vec<Group>,
) -> Result<Vec<Group>, AllocError> {
    let alloc = rt.alloc();
    // A folder has each of its files once.
    if groups.len() == 1 && groups.iter().all(|group| group.own > 0) {
        return Ok(groups);
    }
    let mut seen = HashMap::new(alloc);
    let mut all = Vec::new(alloc);
    let mut turn = 0usize;
    for group in groups {
        all.push(without_seen(rt, &mut seen, turn, group)?)?;
        turn = turn.saturating_add(1);
    }
    Ok(all)
}

// What is said of this folder, where nothing is named.
const NONE_HERE: &str =
    "no package.json, deno.json, import_map.json or pnpm-workspace.yaml in this folder; to look below it too, name it: `.`";

// What is said of this folder where --exclude leaves out what it has.
const EXCLUDED: &str = "--exclude leaves out every manifest of this folder";

// Whether --exclude leaves out a manifest of this folder.
fn has_excluded<R: Files + AllocGlobal>(rt: &R, excludes: &[&str]) -> Result<bool, AllocError> {
    let patterns = excluded(rt.alloc(), excludes)?;
    for name in &NAMES {
        let is_there = fs::exists(rt, name).unwrap_or(false);
        if is_there && is_ignored(rt.alloc(), patterns.as_slice(), name, false)? {
            return Ok(true);
        }
    }
    Ok(false)
}

// The path of the nearest manifest above this folder, if there is one.
fn nearest_above<R: Files + AllocGlobal>(rt: &R) -> Result<Option<String>, Stop> {
    let real = match fs::canonicalize(rt, ".") {
        Ok(real) => real,
        Err(error) if error.kind() == ErrorKind::OutOfMemory => return Err(Stop::OutOfMemory),
        Err(_) => return Ok(None),
    };
    let mut folder = String::from_str(rt.alloc(), "..")?;
    for _ in names_of(rt.alloc(), real.as_str())?.iter() {
        let mut manifests = manifests_at(rt, folder.as_str())?;
        if let Some(last) = manifests.pop() {
            return Ok(Some(last));
        }
        folder.push_str("/..")?;
    }
    Ok(None)
}

// Reports that this folder has no manifests, as `with_something` does, and where the nearest one above it is.
fn with_something_here<R: Files + AllocGlobal, O: Write, E: Write>(
    rt: &R,
    console: &mut Console<O, E>,
    found: &Group,
    status: Status,
    excludes: &[&str],
) -> Result<Status, Stop> {
    if !found.paths.is_empty() || status != Status::Answered {
        return Ok(status);
    }
    if has_excluded(rt, excludes)? {
        return Ok(console.complain(".", EXCLUDED));
    }
    let status = console.complain(".", NONE_HERE);
    if let Some(path) = nearest_above(rt)? {
        let path = Shown(path.as_str());
        let _ = writeln!(console.err, "  = the nearest one above is {path}");
    }
    Ok(status)
}

// What is said of a folder that is named.
const NONE_BELOW: &str =
    "no package.json, deno.json, import_map.json or pnpm-workspace.yaml in or below this folder, apart from what is ignored";

// Reports that a folder has no manifests, if nothing was found and all of it was read.
fn with_something<O: Write, E: Write>(
    console: &mut Console<O, E>,
    folder: &str,
    found: &Group,
    status: Status,
    message: &'static str,
) -> Status {
    if !found.paths.is_empty() || status != Status::Answered {
        return status;
    }
    console.complain(Shown(folder), message)
}
