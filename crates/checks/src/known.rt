//! What the files of a workspace say of one another: the names and versions of its packages, and pnpm's catalogs.

use crate::catalogs::{Catalogs, Gap, catalog_name, shelve, text_in};
use crate::walking::{Group, entries_of, members_of, split_path};
use answers::asking::{Answer, Problem};
use answers::questions::matches;
use deno_semver::PreRelease;
use manifests::entry::Entry;
use manifests::npm::{
    Reading, Source, as_read, ends_in_key, is_package_name, is_refused, name_and_range, read_range,
    renamed, source_of,
};
use manifests::sections::Kind;
use semver_req::common::values::Flavour;
use std::alloc::{AllocError, Global};
use std::collections::{BTreeMap, HashSet};
use std::fs;
use std::io::Write;
use std::rt::{Files, Runtime};
use terminal::console::{Console, Stop};
use terminal::hints::behind_protocol;
use terminal::shown::part;

const WORKSPACE: &str = "pnpm-workspace.yaml";

/// Whose workspace the files are.
#[derive(Clone, Copy, PartialEq, Eq)]
enum Workspace {
    None,
    /// One of package.json, which npm, yarn and bun read.
    Package,
    /// One of pnpm-workspace.yaml.
    Pnpm,
}

/// What is known of a workspace.
#[derive(Drop)]
pub struct Known {
    workspace: Workspace,
    catalogs: Catalogs,
    /// What can't be read of the catalogs.
    gaps: Vec<Gap>,
    /// The versions of packages, by name. It's empty if a package.json gives its package a name alone.
    versions: BTreeMap<String, String>,
    /// How many workspaces have a name; the root of all isn't counted.
    names: BTreeMap<String, usize>,
    /// The packages that the root's manifest asks for, if it is known.
    direct: Option<HashSet<String>>,
    /// Whether all of them are known.
    is_whole: bool,
    /// Who installs each file.
    installers: Vec<Installer>,
}

/// A package manager.
#[derive(Clone, Copy, PartialEq, Eq)]
pub enum Manager {
    Npm,
    Pnpm,
    Yarn,
    Bun,
    Other,
}

/// Who installs a file, by its root.
#[derive(Clone, Copy)]
pub struct Installer {
    /// The package manager that `packageManager` of the root names.
    pub named: Option<Manager>,
    /// The one that has a lockfile beside the root's manifest; none if several have.
    pub locked: Option<Manager>,
}

impl Installer {
    // Nothing says who.
    const UNKNOWN: Installer = Installer {
        named: None,
        locked: None,
    };
}

// The name of the package that a key of pnpm's overrides is about.
fn last_name(alloc: Global, key: &str) -> Result<&str, AllocError> {
    let mut start = 0usize;
    for end in ends_in_key(alloc, key, ">")?.iter() {
        if *end < key.len() {
            start = end.saturating_add(1);
        }
    }
    Ok(name_and_range(part(key, start, key.len())).0)
}

// The packages that a manifest asks for.
fn direct_of(alloc: Global, entries: &[Entry]) -> Result<HashSet<String>, AllocError> {
    let mut names = HashSet::new(alloc);
    for entry in entries {
        let is_asked = matches!(
            entry.section,
            "dependencies" | "devDependencies" | "optionalDependencies"
        );
        if is_asked && !entry.text.is_empty() {
            let _ = names.insert(String::from_str(alloc, entry.name.as_str())?)?;
        }
    }
    Ok(names)
}

// The text of the first entry of a kind, if there is one.
fn text_of(entries: &[Entry], kind: Kind) -> Option<&str> {
    let found = entries.iter().find(|entry| entry.kind == kind)?;
    Some(found.text.as_str())
}

// Whether a manifest names its package itself, and not by its folder.
fn has_own_name(entries: &[Entry]) -> bool {
    entries.iter().any(|entry| entry.kind == Kind::Name && entry.start < entry.end)
}

/// Whether a version matches a range, or can't be compared.
pub fn is_match(
    alloc: Global,
    pre_release: PreRelease,
    range: &str,
    version: &str,
) -> Result<bool, AllocError> {
    match matches(alloc, Flavour::Npm, pre_release, range, version) {
        Ok(Answer::Value(is_match)) => Ok(is_match),
        Ok(Answer::Tag(_)) | Err(Problem::Invalid(_)) => Ok(true),
        Err(Problem::OutOfMemory) => Err(AllocError),
    }
}

// Whether an entry of pnpm-workspace.yaml is a mistake by which the list of packages can't be read, or not all of it: one in that list, or
// one at which the YAML of the file isn't read on.
fn hides_packages(entry: &Entry) -> bool {
    let (object, name) = (entry.object.as_str(), entry.name.as_str());
    let is_there = match entry.depth {
        0 => matches!(name, "" | "packages"),
        1 => object == "packages",
        _ => false,
    };
    is_there && matches!(entry.kind, Kind::Mistake(_))
}

impl Known {
    /// Nothing so far.
    pub fn new(alloc: Global) -> Known {
        Known {
            workspace: Workspace::None,
            catalogs: BTreeMap::new(alloc),
            gaps: Vec::new(alloc),
            versions: BTreeMap::new(alloc),
            names: BTreeMap::new(alloc),
            direct: None,
            is_whole: false,
            installers: Vec::new(alloc),
        }
    }

    /// Who installs the file at a place of the group.
    pub fn installer(&self, place: usize) -> Installer {
        self.installers
            .get(place)
            .copied()
            .unwrap_or(Installer::UNKNOWN)
    }

    /// Whether the workspace is pnpm's.
    pub fn is_of_pnpm(&self) -> bool {
        self.workspace == Workspace::Pnpm
    }

    /// Whether npm links a workspace with this name.
    pub fn is_linked(&self, name: &str) -> bool {
        self.is_whole && self.workspace == Workspace::Package && self.has_workspace(name)
    }

    // Learns the name of the root, or of a workspace.
    fn learn_name(&mut self, alloc: Global, name: &str, is_root: bool) -> Result<(), AllocError> {
        let before = self.names.get(name).copied().unwrap_or(0);
        let count = before.saturating_add(usize::from(!is_root));
        let _ = self.names.insert(String::from_str(alloc, name)?, count)?;
        Ok(())
    }

    // Learns what a file says.
    fn learn(&mut self, alloc: Global, path: &str, entries: &[Entry]) -> Result<(), AllocError> {
        if path.ends_with(WORKSPACE) {
            self.workspace = if entries.iter().any(hides_packages) {
                Workspace::None
            } else {
                Workspace::Pnpm
            };
            for entry in entries {
                shelve(alloc, &mut self.catalogs, entry)?;
                if let Some(gap) = Gap::of(alloc, entry)? {
                    self.gaps.push(gap)?;
                }
            }
        } else if let Some(name) = text_of(entries, Kind::Name) {
            let name = String::from_str(alloc, name)?;
            if let Some(version) = text_of(entries, Kind::Version) {
                let version = String::from_str(alloc, version)?;
                let _ = self.versions.insert(name, version)?;
            } else if path.ends_with("package.json") && has_own_name(entries) {
                let _ = self.versions.insert(name, String::new(alloc))?;
            }
        }
        Ok(())
    }

    // Whether a workspace has this name.
    fn has_workspace(&self, name: &str) -> bool {
        self.names.get(name).copied().unwrap_or(0) > 0
    }

    /// Why npm refuses a value that isn't a string in place of the name of a workspace, if it does. This is the file from that value on.
    pub fn refusal_of_odd_name(&self, value: &str) -> Option<&'static str> {
        // `false` and 0 are no name to npm, which then takes the folder's.
        let behind = value.trim_start_matches(['-', '0', '.'].as_slice());
        let is_zero = behind.len() < value.len()
            && !behind.starts_with(|c: char| c.is_ascii_digit());
        let is_none = value.starts_with("false") || is_zero;
        if self.workspace != Workspace::Package || is_none {
            None
        } else {
            Some("npm refuses it: must provide dependency name")
        }
    }

    /// Why npm refuses the name of a workspace, if it does.
    pub fn refusal_of_name(&self, name: &str) -> Option<&'static str> {
        // A workspace with an empty name has that of its folder.
        if self.workspace != Workspace::Package || name.is_empty() {
            None
        } else if !is_package_name(name) {
            Some("npm refuses it: no package has such a name")
        } else if self.names.get(name).copied().unwrap_or(0) > 1 {
            Some("npm refuses it: another workspace has the same name")
        } else {
            None
        }
    }

    // Why pnpm refuses a reference to a catalog for a package, if it does.
    fn refusal_of_catalog(
        &self,
        alloc: Global,
        catalog: &str,
        name: &str,
    ) -> Result<Option<String>, AllocError> {
        let is_unread = self.gaps.iter().any(|gap| gap.covers(catalog, name));
        if is_unread || text_in(&self.catalogs, catalog, name).is_some() {
            return Ok(None);
        }
        let catalog = match catalog_name(catalog) {
            "catalog" => "default",
            catalog => catalog,
        };
        let message = format!(in alloc;
            "pnpm refuses it: the catalog `{catalog}` has no entry for it"
        )?;
        Ok(Some(message))
    }

    /// Why pnpm refuses the text of one of its overrides, if what is known says so.
    pub fn refusal_of_override(
        &self,
        alloc: Global,
        entry: &Entry,
    ) -> Result<Option<String>, AllocError> {
        let text = entry.text.as_str();
        if self.workspace != Workspace::Pnpm || entry.object.as_str() != "overrides" {
            return Ok(None);
        }
        if let Some(catalog) = text.strip_prefix("catalog:") {
            let name = last_name(alloc, entry.name.as_str())?;
            return self.refusal_of_catalog(alloc, catalog, name);
        }
        match text.strip_prefix('$') {
            // The manifest itself has the others.
            Some(name) if entry.section == "overrides" && self.lacks(name) => {
                let message = format!(in alloc;
                    "pnpm refuses it: no dependency is named `{name}`"
                )?;
                Ok(Some(message))
            }
            _ => Ok(None),
        }
    }

    // Whether the root's manifest is known, and doesn't depend on a package.
    fn lacks(&self, name: &str) -> bool {
        match &self.direct {
            Some(direct) => !direct.contains(name),
            None => false,
        }
    }

    /// Why no package manager takes the text of a dependency, if what is known says so.
    pub fn refusal(&self, alloc: Global, entry: &Entry) -> Result<Option<String>, AllocError> {
        let text = entry.text.as_str();
        let who = match self.workspace {
            Workspace::None => return Ok(None),
            Workspace::Package => "no package manager takes it",
            Workspace::Pnpm => "pnpm refuses it",
        };
        if let Some(catalog) = text.strip_prefix("catalog:")
            && self.workspace == Workspace::Pnpm
        {
            return self.refusal_of_catalog(alloc, catalog, entry.name.as_str());
        }
        let Some(asked) = behind_protocol(text, "workspace:") else {
            return Ok(None);
        };
        let name = renamed(text).unwrap_or(entry.name.as_str());
        let is_path = asked.starts_with(['.', '/'].as_slice());
        if self.is_whole && !is_path && !self.names.contains_key(name) {
            let message = format!(in alloc; "{who}: no workspace is named `{name}`")?;
            return Ok(Some(message));
        }
        let (Source::Registry(range), Some(version)) = (source_of(text), self.versions.get(name))
        else {
            return Ok(None);
        };
        let version = version.as_str();
        if is_match(alloc, PreRelease::Admitted, range, version)? {
            return Ok(None);
        }
        // npm takes a workspace of its own by its name.
        let who = match self.workspace {
            Workspace::Package => "pnpm and Yarn refuse it",
            _ => who,
        };
        let message = format!(in alloc; "{who}: its version in the workspace is {version}")?;
        Ok(Some(message))
    }

    /// The version of a workspace that a manifest asks a registry for by its name, if the range doesn't match that version, or is a tag. It's
    /// empty if the workspace has none.
    pub fn other_version(
        &self,
        alloc: Global,
        entry: &Entry,
        is_root: bool,
    ) -> Result<Option<&str>, AllocError> {
        let (name, text) = (entry.name.as_str(), entry.text.as_str());
        let is_known = self.workspace != Workspace::None && self.has_workspace(name);
        let Source::Registry(range) = source_of(text) else {
            return Ok(None);
        };
        // An alias and a repository name another package.
        if !is_known || range.len() != text.len() {
            return Ok(None);
        }
        // Every version matches `*` and an empty range, and a pre-release matches another range by npm's rule.
        let pre_release = match range.trim() {
            "" | "*" => PreRelease::Admitted,
            _ => PreRelease::Restricted,
        };
        // npm takes a workspace without a version for `*` alone, or for what the root asks of it.
        let is_other = self.workspace == Workspace::Package && !is_root;
        let is_asked = matches!(read_range(range).reading, Reading::Range | Reading::Tag);
        let version = match self.versions.get(name) {
            Some(version) if !version.is_empty() => version.as_str(),
            Some(_) if is_other && pre_release == PreRelease::Restricted && is_asked => {
                return Ok(Some(""));
            }
            _ => return Ok(None),
        };
        let Some(read) = as_read(alloc, range)? else {
            // pnpm links a workspace by a tag, and npm one of the root.
            let is_tag = read_range(range).reading == Reading::Tag;
            return Ok(if is_other && is_tag {
                Some(version)
            } else {
                None
            });
        };
        if is_match(alloc, pre_release, read.as_str(), version)? {
            Ok(None)
        } else {
            Ok(Some(version))
        }
    }
}

/// Whether a text asks for a package of the workspace, whatever version it has there.
pub fn is_own(text: &str) -> bool {
    let Some(asked) = behind_protocol(text, "workspace:") else {
        return false;
    };
    let range = match renamed(text) {
        Some(name) => asked.get(name.len().saturating_add(1)..).unwrap_or(""),
        None => asked,
    };
    matches!(range, "^" | "~" | "*") || range.starts_with(['.', '/'].as_slice())
}

// The name that npm gives a workspace without one, by the path of its manifest: that of its folder, behind the scope that the folder above
// may be. An empty one is none.
fn folder_name(path: &str) -> &str {
    let (folder, _) = split_path(path);
    let folder = folder.trim_end_matches('/');
    let (above, name) = folder.rsplit_once('/').unwrap_or(("", folder));
    let scope = above.rsplit('/').next().unwrap_or("");
    if matches!(name, "." | "..") {
        ""
    } else if scope.starts_with('@') {
        let start = above.len().saturating_sub(scope.len());
        folder.get(start..).unwrap_or(name)
    } else {
        name
    }
}

/// Adds the name that npm gives a workspace by its folder, if its manifest gives it none. It stands at the start of the file. What has
/// patterns of workspaces is taken for a root.
pub fn add_folder_name(
    alloc: Global,
    path: &str,
    entries: &mut Vec<Entry>,
) -> Result<(), AllocError> {
    let name = folder_name(path);
    let is_read = |entry: &Entry| !(entry.depth == 0 && entry.name.is_empty());
    let is_other = !path.ends_with("package.json") || name.is_empty();
    let is_named = |entry: &Entry| is_name(entry) || is_pattern(entry);
    if is_other || !entries.iter().all(is_read) || entries.iter().any(is_named) {
        return Ok(());
    }
    let entry = Entry {
        section: "name",
        object: String::new(alloc),
        name: String::from_str(alloc, "name")?,
        depth: 0,
        text: String::from_str(alloc, name)?,
        start: 0,
        end: 0,
        kind: Kind::Name,
    };
    Ok(entries.insert(0, entry)?)
}

// Whether the entry is the name of the package, or stands in its place.
fn is_name(entry: &Entry) -> bool {
    match entry.kind {
        Kind::Name => !entry.text.is_empty(),
        Kind::OddName => true,
        _ => false,
    }
}

// Whose workspace a group is, by the manifests of its folder and of those above.
fn workspace_of<R: Files + AllocGlobal>(rt: &R, group: &Group) -> Result<Workspace, Stop> {
    let mut found = Workspace::None;
    let own = group.paths.iter().take(group.own);
    for path in own.chain(group.above.iter()) {
        let path = path.as_str();
        if path.ends_with(WORKSPACE) {
            return Ok(Workspace::Pnpm);
        }
        if path.ends_with("package.json") && entries_of(rt, path)?.iter().any(is_pattern) {
            found = Workspace::Package;
        }
    }
    Ok(found)
}

// Whether the entry is a pattern of workspaces.
fn is_pattern(entry: &Entry) -> bool {
    entry.kind == Kind::Workspace && entry.section == "workspaces"
}

// The lockfiles of package managers, and pnpm's list of workspaces.
const LOCKFILES: [(&str, Manager); 7] = [
    ("package-lock.json", Manager::Npm),
    ("npm-shrinkwrap.json", Manager::Npm),
    ("pnpm-lock.yaml", Manager::Pnpm),
    ("pnpm-workspace.yaml", Manager::Pnpm),
    ("yarn.lock", Manager::Yarn),
    ("bun.lock", Manager::Bun),
    ("bun.lockb", Manager::Bun),
];

// The one package manager that has a lockfile in a folder; none if no one has, or several have.
fn locked_by<R: Files + AllocGlobal>(rt: &R, folder: &str) -> Result<Option<Manager>, AllocError> {
    let mut found = None;
    for (name, manager) in &LOCKFILES {
        let path = format!(in rt.alloc(); "{folder}{name}")?;
        if !fs::exists(rt, path.as_str()).unwrap_or(false) {
            continue;
        }
        if found.is_some_and(|other| other != *manager) {
            return Ok(None);
        }
        found = Some(*manager);
    }
    Ok(found)
}

/// The package manager that the entries name.
pub fn named_by(entries: &[Entry]) -> Option<Manager> {
    let (name, _) = text_of(entries, Kind::Manager)?
        .split_once('@')
        .unwrap_or(("", ""));
    Some(match name {
        "npm" => Manager::Npm,
        "pnpm" => Manager::Pnpm,
        "yarn" => Manager::Yarn,
        "bun" => Manager::Bun,
        _ => Manager::Other,
    })
}

// Who installs the files of a root; an empty path is none.
fn installer_of<R: Files + AllocGlobal>(rt: &R, root: &str) -> Result<Installer, Stop> {
    if root.is_empty() {
        return Ok(Installer::UNKNOWN);
    }
    let (folder, _) = split_path(root);
    Ok(Installer {
        named: named_by(entries_of(rt, root)?.as_slice()),
        locked: locked_by(rt, folder)?,
    })
}

// Who installs each file of a group. Those of a root stand together.
fn installers_of<R: Files + AllocGlobal>(rt: &R, group: &Group) -> Result<Vec<Installer>, Stop> {
    let mut installers = Vec::new(rt.alloc());
    let (mut last, mut installer) = ("", Installer::UNKNOWN);
    for root in group.roots.iter() {
        let root = root.as_str();
        if root != last {
            installer = installer_of(rt, root)?;
            last = root;
        }
        installers.push(installer)?;
    }
    Ok(installers)
}

/// The names of the workspaces that npm links for a root, if the root asks for a package by what npm refuses.
pub fn linked_by<R: Runtime + AllocGlobal, O: Write, E: Write>(
    rt: &R,
    console: &Console<O, E>,
    root: &str,
) -> Result<HashSet<String>, Stop> {
    let alloc = rt.alloc();
    let mut names = HashSet::new(alloc);
    let entries = entries_of(rt, root)?;
    let is_bad = |entry: &Entry| entry.kind == Kind::Dependency && is_refused(entry.text.as_str());
    if !entries.iter().any(is_bad) {
        return Ok(names);
    }
    let members = members_of(rt, console, root)?;
    for member in members.manifests {
        let mut entries = entries_of(rt, member.as_str())?;
        add_folder_name(alloc, member.as_str(), &mut entries)?;
        if let Some(name) = text_of(entries.as_slice(), Kind::Name) {
            let _ = names.insert(String::from_str(alloc, name)?)?;
        }
    }
    Ok(names)
}

/// What the manifests of a group and those further up say of one another, if they are of a workspace.
pub fn known_of<R: Files + AllocGlobal>(rt: &R, group: &Group) -> Result<Known, Stop> {
    let alloc = rt.alloc();
    let mut known = Known::new(alloc);
    known.installers = installers_of(rt, group)?;
    known.workspace = workspace_of(rt, group)?;
    if known.workspace == Workspace::None {
        return Ok(known);
    }
    known.is_whole = group.is_whole;
    for path in group.above.iter() {
        let entries = entries_of(rt, path.as_str())?;
        known.learn(alloc, path.as_str(), entries.as_slice())?;
        if let Some(name) = text_of(entries.as_slice(), Kind::Name) {
            known.learn_name(alloc, name, true)?;
        }
    }
    for (place, path) in group.paths.iter().chain(group.others.iter()).enumerate() {
        let is_root = place < group.own;
        // In a workspace's folder pnpm's list is of another root, or of none.
        if !is_root && path.as_str().ends_with(WORKSPACE) {
            continue;
        }
        let mut entries = entries_of(rt, path.as_str())?;
        if !is_root && known.workspace == Workspace::Package {
            add_folder_name(alloc, path.as_str(), &mut entries)?;
        }
        known.learn(alloc, path.as_str(), entries.as_slice())?;
        if !path.as_str().ends_with("package.json") {
            continue;
        }
        if is_root {
            known.direct = Some(direct_of(alloc, entries.as_slice())?);
        }
        if let Some(name) = text_of(entries.as_slice(), Kind::Name) {
            known.learn_name(alloc, name, is_root)?;
        }
    }
    Ok(known)
}
