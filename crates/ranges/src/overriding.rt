//! What npm makes of the overrides of a manifest.

use answers::asking::Problem;
use answers::reading;
use deno_semver::VersionReq;
use manifests::entry::Entry;
use manifests::npm::{
    Reading, Source, as_read, is_remote, name_and_range, read_range, refused_part, source_of,
};
use manifests::sections::Kind;
use semver_req::common::values::Flavour;
use std::alloc::{AllocError, Global};
use std::collections::HashMap;

// The sections of dependencies. Of a package in several of them npm takes the last one.
const SECTIONS: [&str; 4] = [
    "peerDependencies",
    "dependencies",
    "optionalDependencies",
    "devDependencies",
];

/// The overrides of a manifest, and what they refer to.
#[derive(Drop)]
pub struct Overrides<'e> {
    /// What the manifest itself asks for, by the names of packages.
    direct: HashMap<&'e str, &'e Entry>,
    /// The keys at the top of the overrides, by the names of packages.
    keys: HashMap<&'e str, Vec<&'e str>>,
    /// The places of these keys among those with the same name.
    places: HashMap<&'e str, usize>,
    /// What npm finds for what the manifest itself asks for, by the names of packages.
    found: HashMap<&'e str, Found<'e>>,
    /// What npm finds for workspaces with these names.
    linked: HashMap<&'e str, Found<'e>>,
    /// What stands for a package, by the key that names it.
    values: HashMap<&'e str, &'e Entry>,
}

// The keys that npm finds for a package. It looks for the first one that counts for what is asked for, and once more for the first one that
// counts for what the key stands for.
#[derive(Clone, Copy)]
struct Found<'e> {
    first: Option<&'e str>,
    last: Option<&'e str>,
}

// npm asks for the folder of a workspace, for which every key counts.
const FOLDER: &str = "file:";

// The key of overrides that a text stands for at the top of them.
fn key_of(entry: &Entry) -> Option<&str> {
    if entry.kind != Kind::Dependency || entry.section != "overrides" {
        return None;
    }
    let name = entry.name.as_str();
    match entry.depth {
        1 => Some(name),
        2 if name == "." => Some(entry.object.as_str()),
        _ => None,
    }
}

// The range that npm reads in a text; none if it reads none, or Deno can't.
fn read(alloc: Global, text: &str) -> Result<Option<VersionReq>, AllocError> {
    let Some(range) = as_read(alloc, text)? else {
        return Ok(None);
    };
    match reading::range(alloc, Flavour::Npm, 0, range.as_str()) {
        Ok(range) => Ok(Some(range)),
        Err(Problem::Invalid(_)) => Ok(None),
        Err(Problem::OutOfMemory) => Err(AllocError),
    }
}

// Whether two ranges overlap, by their bounds.
fn overlap(alloc: Global, one: &str, other: &str) -> Result<bool, AllocError> {
    let Some(one) = read(alloc, one)? else {
        return Ok(false);
    };
    let Some(other) = read(alloc, other)? else {
        return Ok(false);
    };
    Ok(one.intersects(&other))
}

// Whether a key with this range counts for a dependency with this text.
fn counts(alloc: Global, range: &str, text: &str) -> Result<bool, AllocError> {
    if matches!(range, "" | "*") {
        return Ok(true);
    }
    let Source::Registry(asked) = source_of(text) else {
        let is_folder = text.starts_with("file:") || text.starts_with(['.', '/'].as_slice());
        return Ok(is_folder || is_remote(text));
    };
    match read_range(asked).reading {
        Reading::Tag => Ok(true),
        Reading::Range => overlap(alloc, range, asked),
        Reading::TooLarge | Reading::Refused => Ok(false),
    }
}

// Whether npm stops where it compares a text with a key, since the text or, as this says, the key has no range in the strict grammar.
fn is_incomparable(text: &str, is_range: bool) -> bool {
    match source_of(text) {
        Source::Registry(range) if read_range(range).reading == Reading::Range => {
            !is_range || refused_part(range).is_some()
        }
        _ => false,
    }
}

impl<'e> Overrides<'e> {
    /// The overrides among the entries of a manifest.
    pub fn of(alloc: Global, entries: &'e [Entry]) -> Result<Overrides<'e>, AllocError> {
        let mut all = Overrides {
            direct: HashMap::new(alloc),
            keys: HashMap::new(alloc),
            places: HashMap::new(alloc),
            found: HashMap::new(alloc),
            linked: HashMap::new(alloc),
            values: HashMap::new(alloc),
        };
        if !entries
            .iter()
            .any(|entry| matches!(entry.kind, Kind::Override(_)))
        {
            return Ok(all);
        }
        for section in &SECTIONS {
            for entry in entries.iter().filter(|entry| entry.section == *section) {
                let _ = all.direct.insert(entry.name.as_str(), entry)?;
            }
        }
        let mut names = Vec::new(alloc);
        for entry in entries {
            if let Some(key) = key_of(entry) {
                let _ = all.values.insert(key, entry)?;
            }
            if matches!(entry.kind, Kind::Override("")) && entry.depth == 1 {
                all.add_key(alloc, entry.text.as_str(), &mut names)?;
            }
        }
        for name in names.iter() {
            all.look_for(alloc, *name)?;
        }
        Ok(all)
    }

    // Adds a key at the top of the overrides, and its name if it's new.
    fn add_key(
        &mut self,
        alloc: Global,
        key: &'e str,
        names: &mut Vec<&'e str>,
    ) -> Result<(), AllocError> {
        let (name, _) = name_and_range(key);
        if !self.keys.contains_key(name) {
            names.push(name)?;
            let _ = self.keys.insert(name, Vec::new(alloc))?;
        }
        if let Some(keys) = self.keys.get_mut(name) {
            let _ = self.places.insert(key, keys.len())?;
            keys.push(key)?;
        }
        Ok(())
    }

    // Looks for the keys that npm finds for a name.
    fn look_for(&mut self, alloc: Global, name: &'e str) -> Result<(), AllocError> {
        let direct = self.direct.get(name).copied();
        if let Some(direct) = direct {
            let found = self.find(alloc, name, direct.text.as_str())?;
            let _ = self.found.insert(name, found)?;
        }
        let linked = self.find(alloc, name, FOLDER)?;
        let _ = self.linked.insert(name, linked)?;
        Ok(())
    }

    // The keys that npm finds for a name and what is asked for.
    fn find(&self, alloc: Global, name: &str, asked: &str) -> Result<Found<'e>, AllocError> {
        let first = self.key_for(alloc, name, asked)?;
        let Some(key) = first else {
            return Ok(Found { first, last: None });
        };
        let (_, range) = name_and_range(key);
        let last = match self.other_for(key, range, asked) {
            Some(value) => self.key_for(alloc, name, value)?,
            None => None,
        };
        Ok(Found { first, last })
    }

    // The first key that counts for a dependency with this name and this text.
    fn key_for(
        &self,
        alloc: Global,
        name: &str,
        text: &str,
    ) -> Result<Option<&'e str>, AllocError> {
        let Some(keys) = self.keys.get(name) else {
            return Ok(None);
        };
        for key in keys.iter() {
            let (_, range) = name_and_range(*key);
            if counts(alloc, range, text)? {
                return Ok(Some(*key));
            }
        }
        Ok(None)
    }

    /// The name that a text refers to, if the manifest asks for no such package.
    pub fn missing<'t>(&self, text: &'t str) -> Option<&'t str> {
        let name = text.strip_prefix('$')?;
        match self.direct.get(name) {
            Some(entry) if !entry.text.is_empty() => None,
            _ => Some(name),
        }
    }

    // What a text stands for, which may refer to a dependency.
    fn meant<'t>(&'t self, text: &'t str) -> Option<&'t str> {
        let Some(name) = text.strip_prefix('$') else {
            return Some(text);
        };
        match self.direct.get(name) {
            Some(entry) => Some(entry.text.as_str()),
            None => None,
        }
    }

    // The place of a key among those with its name.
    fn place_of(&self, key: &str) -> usize {
        self.places.get(key).copied().unwrap_or(0)
    }

    // Whether npm compares a key before it finds another one.
    fn is_reached(&self, key: &str, found: Option<&str>) -> bool {
        match found {
            Some(found) => self.place_of(key) <= self.place_of(found),
            None => true,
        }
    }

    /// Whether npm reads this key for what the manifest itself asks for, or stops since it can't compare the two ranges.
    pub fn is_read(&self, alloc: Global, key: &str, is_range: bool) -> Result<bool, AllocError> {
        let (name, range) = name_and_range(key);
        let Some(direct) = self.direct.get(name) else {
            return Ok(false);
        };
        let Some(found) = self.found.get(name) else {
            return Ok(false);
        };
        let asked = direct.text.as_str();
        // Where npm can't compare what is asked for, it takes the override, unless that asks for the same.
        let is_taken = is_range || self.other_for(key, range, asked).is_some();
        let is_first = is_incomparable(asked, is_range) || is_taken && counts(alloc, range, asked)?;
        if is_first && self.is_reached(key, found.first) {
            return Ok(true);
        }
        // npm asks again with what the first key stands for.
        let Some(first) = found.first else {
            return Ok(false);
        };
        let (_, range) = name_and_range(first);
        Ok(match self.other_for(first, range, asked) {
            Some(value) => is_incomparable(value, is_range) && self.is_reached(key, found.last),
            None => false,
        })
    }

    // What a key with this range stands for, if that isn't what the manifest asks for.
    fn other_for<'t>(&'t self, key: &str, range: &'t str, asked: &str) -> Option<&'t str> {
        let value = match self.values.get(key) {
            Some(value) => value.text.as_str(),
            // npm takes the range of the key.
            None => range,
        };
        let value = self.meant(value)?;
        if matches!(value, "" | "*") || value == asked {
            None
        } else {
            Some(value)
        }
    }

    /// What the manifest itself asks for, if npm compares this key with it.
    pub fn asked(&self, key: &str) -> Option<&'e Entry> {
        let (name, _) = name_and_range(key);
        let direct = self.direct.get(name)?;
        let found = self.found.get(name)?;
        if self.is_reached(key, found.first) {
            Some(*direct)
        } else {
            None
        }
    }

    // Whether this key, if it's the last that npm finds, stands for something else in place of what is asked for.
    fn replaces(&self, key: &str, found: &Found<'e>, asked: &str) -> bool {
        let (_, range) = name_and_range(key);
        found.last == Some(key) && self.other_for(key, range, asked).is_some()
    }

    /// What the manifest itself asks for, if this key asks for something else in its place, which npm refuses.
    pub fn conflict(&self, key: &str) -> Option<&'e Entry> {
        let (name, _) = name_and_range(key);
        let direct = self.direct.get(name)?;
        let found = self.found.get(name)?;
        if self.replaces(key, found, direct.text.as_str()) {
            Some(*direct)
        } else {
            None
        }
    }

    /// Whether this key asks for something else in place of the workspace that it names, which npm refuses.
    pub fn moves_workspace(&self, key: &str) -> bool {
        let (name, _) = name_and_range(key);
        match self.linked.get(name) {
            Some(found) => self.replaces(key, found, FOLDER),
            None => false,
        }
    }
}
