//! The projects whose manifests were found together, in a folder and below it: each is a root with its workspaces.

use crate::walking::{
    Group, Roots, Setting, entries_of, is_manifest, is_of_same, manifests_above, real_path,
    split_path,
};
use manifests::sections::Kind;
use std::alloc::{AllocError, Global};
use std::collections::{BTreeMap, HashMap};
use std::io::Write;
use std::rt::{Files, Runtime};
use terminal::console::{Console, Stop};

// Where a file belongs.
#[derive(Drop)]
struct Home {
    /// The real path of the root's folder.
    folder: String,
    /// The manifests of the root, if the file is in a workspace of it; without any, the file's own folder is the root's.
    above: Vec<String>,
}

// Finds where a file belongs, by its own place.
fn home_of<R: Runtime + AllocGlobal, O: Write, E: Write>(
    rt: &R,
    console: &Console<O, E>,
    path: &str,
    asked: &mut Roots,
) -> Result<Home, Stop> {
    let (own, _) = split_path(path);
    let above = manifests_above(rt, console, own, &[], asked)?;
    let folder = match above.first() {
        Some(manifest) => String::from_str(rt.alloc(), split_path(manifest.as_str()).0)?,
        None => real_path(rt, own)?,
    };
    Ok(Home { folder, above })
}

// The package.json of the root that a manifest belongs to, which may be its own; an empty path if there is none.
fn package_of(alloc: Global, path: &str, above: &[String]) -> Result<String, AllocError> {
    let (folder, name) = split_path(path);
    if !is_manifest(name) {
        return Ok(String::new(alloc));
    }
    if above.is_empty() {
        return format!(in alloc; "{folder}package.json");
    }
    for manifest in above {
        if manifest.as_str().ends_with("/package.json") {
            return manifest.clone();
        }
    }
    Ok(String::new(alloc))
}

// Adds copies of paths.
fn add_all(all: &mut Vec<String>, paths: &[String]) -> Result<(), AllocError> {
    for path in paths {
        all.push(path.clone()?)?;
    }
    Ok(())
}

// Adds a level.
fn add_setting(
    alloc: Global,
    all: &mut Vec<Setting>,
    rule: &str,
    level: &str,
) -> Result<(), AllocError> {
    let rule = String::from_str(alloc, rule)?;
    let level = String::from_str(alloc, level)?;
    Ok(all.push(Setting { rule, level })?)
}

// Adds the levels that manifests set.
fn add_settings<R: Files + AllocGlobal>(
    rt: &R,
    all: &mut Vec<Setting>,
    paths: &[String],
) -> Result<(), Stop> {
    for path in paths {
        let entries = entries_of(rt, path.as_str())?;
        for entry in entries.iter().filter(|entry| entry.kind == Kind::Level) {
            add_setting(rt.alloc(), all, entry.name.as_str(), entry.text.as_str())?;
        }
    }
    Ok(())
}

// What counts for all projects that were found in a folder and below it.
#[derive(Drop)]
struct Shared {
    /// The manifests of the root that the folder is a workspace of.
    above: Vec<String>,
    /// The levels that these set, and behind them those that the folder's own manifests set.
    settings: Vec<Setting>,
    /// How many of the levels these set.
    outer: usize,
}

impl Shared {
    fn of<R: Files + AllocGlobal>(
        rt: &R,
        above: Vec<String>,
        own: &[String],
    ) -> Result<Shared, Stop> {
        let mut settings = Vec::new(rt.alloc());
        add_settings(rt, &mut settings, above.as_slice())?;
        let outer = settings.len();
        add_settings(rt, &mut settings, own)?;
        Ok(Shared {
            above,
            settings,
            outer,
        })
    }

    // A project without files. The folder's own manifests set their levels in any case.
    fn project<R: Files + AllocGlobal>(
        &self,
        rt: &R,
        above: &[String],
        is_own: bool,
    ) -> Result<Group, Stop> {
        let count = if is_own {
            self.outer
        } else {
            self.settings.len()
        };
        let mut project = Group::new(rt.alloc());
        add_all(&mut project.above, above)?;
        for setting in self.settings.iter().take(count) {
            let (rule, level) = (setting.rule.as_str(), setting.level.as_str());
            add_setting(rt.alloc(), &mut project.over, rule, level)?;
        }
        // The levels of a root below the folder count behind the folder's.
        if !is_of_same(above, self.above.as_slice()) {
            add_settings(rt, &mut project.over, above)?;
        }
        Ok(project)
    }
}

// Takes apart what was found in a folder and below it: each manifest goes to its root's project, as if it had been found alone.
fn projects_of<R: Runtime + AllocGlobal, O: Write, E: Write>(
    rt: &R,
    console: &Console<O, E>,
    found: Group,
    asked: &mut Roots,
) -> Result<Vec<Group>, Stop> {
    let alloc = console.alloc;
    let Group {
        paths,
        own,
        above,
        others,
        ..
    } = found;
    let shared = Shared::of(rt, above, paths.get(..own).unwrap_or(&[]))?;
    let mut projects: Vec<Group> = Vec::new(alloc);
    let mut places: HashMap<String, usize> = HashMap::new(alloc);
    let mut turn = 0usize;
    for path in paths {
        let is_first = turn < own;
        turn = turn.saturating_add(1);
        let Home { folder, above } = home_of(rt, console, path.as_str(), asked)?;
        let root = package_of(alloc, path.as_str(), above.as_slice())?;
        let is_own = is_first || above.is_empty() && !root.is_empty();
        let place = places
            .get(folder.as_str())
            .copied()
            .unwrap_or(projects.len());
        if place == projects.len() {
            projects.push(shared.project(rt, above.as_slice(), is_first)?)?;
            let _ = places.insert(folder, place)?;
        }
        if let Some(project) = projects.get_mut(place) {
            project.paths.push(path)?;
            project.roots.push(root)?;
            project.own = project.own.saturating_add(usize::from(is_own));
        }
    }
    for path in others {
        let Home { folder, .. } = home_of(rt, console, path.as_str(), asked)?;
        let place = places
            .get(folder.as_str())
            .copied()
            .unwrap_or(projects.len());
        if let Some(project) = projects.get_mut(place) {
            project.others.push(path)?;
        }
    }
    Ok(projects)
}

// Finds the root of each manifest of a group by its own place.
fn add_roots<R: Runtime + AllocGlobal, O: Write, E: Write>(
    rt: &R,
    console: &Console<O, E>,
    group: &mut Group,
    asked: &mut Roots,
) -> Result<(), Stop> {
    let mut roots = Vec::new(console.alloc);
    for path in group.paths.iter() {
        let path = path.as_str();
        let (folder, name) = split_path(path);
        let above = if is_manifest(name) {
            manifests_above(rt, console, folder, &[], asked)?
        } else {
            Vec::new(console.alloc)
        };
        roots.push(package_of(console.alloc, path, above.as_slice())?)?;
    }
    group.roots = roots;
    Ok(())
}

/// The groups by projects, with the root of each manifest: what was found below a folder may be of several.
pub fn by_project<R: Runtime + AllocGlobal, O: Write, E: Write>(
    rt: &R,
    console: &Console<O, E>,
    groups: Vec<Group>,
) -> Result<Vec<Group>, Stop> {
    let mut asked = BTreeMap::new(console.alloc);
    let mut all = Vec::new(console.alloc);
    for group in groups {
        if group.is_walked {
            for project in projects_of(rt, console, group, &mut asked)? {
                all.push(project)?;
            }
        } else {
            let mut group = group;
            add_roots(rt, console, &mut group, &mut asked)?;
            all.push(group)?;
        }
    }
    Ok(all)
}
