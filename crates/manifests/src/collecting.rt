//! Collects the values of a file that hold ranges, and what is there in place of one, while a reader goes over its objects, arrays and texts.

use crate::entry::Entry;
use crate::sections::{ITEM, Kind, Place, place_of};
use std::alloc::{AllocError, Global};
use std::collections::HashMap;
use terminal::hints::is_nearly;

/// What a value is.
#[derive(Clone, Copy, PartialEq, Eq)]
pub enum Shape {
    Text,
    Object,
    Array,
    Null,
    /// A number, or `true` or `false`.
    Other,
}

/// Which file is read.
#[derive(Clone, Copy, PartialEq, Eq)]
pub enum Format {
    /// package.json, in which `imports` is Node's.
    Package,
    /// Other JSON.
    Json,
    /// pnpm-workspace.yaml.
    Yaml,
}

// Sections of package.json, and what is said of an object whose key is nearly the name of one.
const MISSPELLED: [(&str, &str); 5] = [
    (
        "dependencies",
        "npm passes over it: is `dependencies` meant?",
    ),
    (
        "devDependencies",
        "npm passes over it: is `devDependencies` meant?",
    ),
    (
        "optionalDependencies",
        "npm passes over it: is `optionalDependencies` meant?",
    ),
    (
        "peerDependencies",
        "npm passes over it: is `peerDependencies` meant?",
    ),
    ("overrides", "npm passes over it: is `overrides` meant?"),
];

// Whether patterns of workspaces may stand at a place, or one.
fn has_patterns(place: Place) -> bool {
    place.has_array || matches!(place.text, Some((Kind::Workspace, _)))
}

// What is said of a value, where something else belongs. npm passes over what it doesn't expect in some sections.
fn misplaced(
    shape: Shape,
    place: Place,
    is_of_npm: bool,
    is_section: bool,
    is_engines: bool,
    is_of_workspaces: bool,
) -> Option<Kind> {
    let message = match place.text {
        Some((Kind::Engine, _)) if shape == Shape::Null => return None,
        Some((Kind::Engine, _)) => {
            return Some(Kind::Odd("not a string: no version satisfies it"));
        }
        // An import map turns off a specifier by `null`.
        Some((Kind::Specifier, _)) if shape == Shape::Null => return None,
        Some((Kind::Specifier, _)) => "expected a string, such as \"npm:preact@10\"",
        Some((Kind::Version, _)) => "expected a string, such as \"1.2.3\"",
        Some((Kind::Manager, _)) => "expected a string, such as \"npm@1.2.3\"",
        Some((Kind::Workspace, _)) => "expected a string, such as \"packages/*\"",
        Some((_, "overrides")) if is_of_npm && shape != Shape::Null => {
            return Some(Kind::OddSection("not a string: npm passes over it"));
        }
        Some(_) => "expected a string, such as \"^1.2\"",
        None if is_engines => {
            return Some(Kind::Odd("not an object: package managers pass over it"));
        }
        None if is_of_workspaces && place.has_array => {
            "npm refuses it: workspaces config expects an Array"
        }
        None if place.has_object && is_section && is_of_npm => {
            return Some(Kind::OddSection("not an object: npm finds no names in it"));
        }
        None if place.has_object => "expected an object",
        None if place.has_array => "expected a list",
        None => return None,
    };
    Some(Kind::Mistake(message))
}

// The keys of an object so far.
#[derive(Drop)]
struct Keys {
    /// Where the last key with each name stands among them.
    places: HashMap<String, usize>,
    /// How many entries stand before each key.
    starts: Vec<usize>,
}

impl Keys {
    fn new(alloc: Global) -> Keys {
        Keys {
            places: HashMap::new(alloc),
            starts: Vec::new(alloc),
        }
    }

    // Takes a key before which this many entries stand. Of a key that stands before, too, it returns where the entries of that one begin,
    // and where they end.
    fn take(&mut self, key: String, entries: usize) -> Result<Option<(usize, usize)>, AllocError> {
        let place = self.starts.len();
        self.starts.push(entries)?;
        let Some(old) = self.places.insert(key, place)? else {
            return Ok(None);
        };
        let start_of = |place: usize| self.starts.get(place).copied().unwrap_or(entries);
        Ok(Some((start_of(old), start_of(old.saturating_add(1)))))
    }

    // Forgets so many entries that stood before an index.
    fn forget(&mut self, count: usize, index: usize) {
        for start in self.starts.iter_mut().filter(|start| **start >= index) {
            *start = start.saturating_sub(count);
        }
    }
}

// An object or an array that isn't closed.
#[derive(Drop)]
struct Open {
    is_array: bool,
    /// How many items or keys stand before the next one.
    items: usize,
    /// The keys so far, in an object on the way to ranges.
    keys: Option<Keys>,
}

/// The values so far, and the way to the next one.
#[derive(Drop)]
pub struct Collector {
    alloc: Global,
    format: Format,
    open: Vec<Open>,
    /// How many of them are arrays.
    arrays: usize,
    /// The keys on the way.
    path: Vec<String>,
    key: Option<String>,
    pub is_lockfile: bool,
    pub entries: Vec<Entry>,
}

impl Collector {
    pub fn new(alloc: Global, format: Format) -> Collector {
        Collector {
            alloc,
            format,
            open: Vec::new(alloc),
            arrays: 0,
            path: Vec::new(alloc),
            key: None,
            is_lockfile: false,
            entries: Vec::new(alloc),
        }
    }

    /// How many objects and arrays are open.
    pub fn depth(&self) -> usize {
        self.open.len()
    }

    pub fn is_in_array(&self) -> bool {
        self.open.last().is_some_and(|open| open.is_array)
    }

    // Whether the next value stands below the key `.` of npm's overrides themselves, which npm passes over.
    fn is_under_dot(&self) -> bool {
        let second = match self.path.get(1) {
            Some(second) => second.as_str(),
            None => self.key.as_deref().unwrap_or(""),
        };
        self.format != Format::Yaml && self.first_key() == "overrides" && second == "."
    }

    // What may stand where the next value is.
    fn place(&self) -> Place {
        if self.is_under_dot() {
            return Place::NOWHERE;
        }
        let last = if self.is_in_array() {
            ITEM
        } else {
            self.key.as_deref().unwrap_or("")
        };
        let first = match self.path.first() {
            Some(first) => first.as_str(),
            None => last,
        };
        if self.format == Format::Package && matches!(first, "imports" | "scopes" | "importMap") {
            // Node reads these, and Deno only in its own files.
            return Place::NOWHERE;
        }
        place_of(self.path.as_slice(), last, self.arrays > 0)
    }

    /// Whether the next value holds ranges, or is on the way to some.
    pub fn is_asked(&self) -> bool {
        let place = self.place();
        place.text.is_some() || place.has_object || place.has_array
    }

    // The first key on the way.
    fn first_key(&self) -> &str {
        match self.path.first() {
            Some(first) => first.as_str(),
            None => "",
        }
    }

    // Whether the next value is the workspaces of package.json.
    fn is_workspaces(&self) -> bool {
        self.format == Format::Package
            && self.path.is_empty()
            && self.key.as_deref() == Some("workspaces")
    }

    // What stands between the names in a key of overrides, if the next key is one, and the section that it's in.
    fn separator(&self) -> Option<(&'static str, &'static str)> {
        let is_of_pnpm = self
            .path
            .get(1)
            .is_some_and(|key| key.as_str() == "overrides");
        match (self.first_key(), self.path.len()) {
            ("overrides", 1) if self.format == Format::Yaml => Some((">", "overrides")),
            ("overrides", _) if self.format != Format::Yaml && !self.is_under_dot() => {
                Some(("", "overrides"))
            }
            ("pnpm", 2) if is_of_pnpm => Some((">", "pnpm")),
            ("resolutions", 1) => Some(("/", "resolutions")),
            (_, _) => None,
        }
    }

    // Adds an entry of the next key, if it's one of overrides. npm's key `.` stands for the package of the object.
    fn add_override(&mut self, key: &str, start: usize, end: usize) -> Result<(), AllocError> {
        let Some((separator, section)) = self.separator() else {
            return Ok(());
        };
        if key == "." && separator.is_empty() {
            return Ok(());
        }
        let text = String::from_str(self.alloc, key)?;
        self.add(text, start, end, Kind::Override(separator), section)
    }

    // Adds an entry of the last key, if it says something itself.
    fn add_key(&mut self, start: usize) -> Result<(), AllocError> {
        if self.path.len() != 1 {
            return Ok(());
        }
        let is_packages = self.key.as_deref() == Some("packages");
        let is_rules = self.key.as_deref() == Some("rules");
        let kind = match self.first_key() {
            "workspaces" if is_packages => Kind::Packages,
            "ranges" if !is_rules => Kind::Setting,
            _ => return Ok(()),
        };
        self.add_kind(start, kind, "")
    }

    // Whether a value of another shape is a mistake where the next value is.
    fn is_strict(&self, place: Place, shape: Shape) -> bool {
        let key = self.key.as_deref().unwrap_or("");
        let first = match self.path.first() {
            Some(first) => first.as_str(),
            None => key,
        };
        match self.format {
            // Only npm's own file has npm's workspaces.
            Format::Json | Format::Yaml if first == "workspaces" && has_patterns(place) => false,
            // pnpm passes over a section without a value.
            Format::Yaml => shape != Shape::Null || !self.path.is_empty(),
            // npm and Deno take `null` for none, and Corepack doesn't.
            _ if self.path.is_empty() && shape == Shape::Null => {
                self.is_workspaces() || key == "packageManager"
            }
            // The keys of Node's imports.
            _ if first == "imports" && key.starts_with('#') => false,
            _ => place.is_strict,
        }
    }

    // The section of dependencies in whose place a list stands, if the next value is an item of it.
    fn listed(&self) -> Option<&'static str> {
        let is_item = self.format == Format::Package && self.path.len() == 1 && self.is_in_array();
        match self.first_key() {
            "dependencies" if is_item => Some("dependencies"),
            "devDependencies" if is_item => Some("devDependencies"),
            "optionalDependencies" if is_item => Some("optionalDependencies"),
            "peerDependencies" if is_item => Some("peerDependencies"),
            _ => None,
        }
    }

    // Whether the next value of overrides stands for the package of its object.
    fn is_stand_in(&self) -> bool {
        let is_dot = self.key.as_deref() == Some(".");
        is_dot && self.path.len() > 1 && matches!(self.separator(), Some(("", _)))
    }

    // The key of the next value. npm names an item of a list in place of dependencies by its index.
    fn name(&self) -> Result<String, AllocError> {
        let items = self.open.last().map_or(0, |open| open.items);
        match &self.key {
            Some(key) => String::from_str(self.alloc, key.as_str()),
            None if self.listed().is_some() => format!(in self.alloc; "{items}"),
            None => Ok(String::new(self.alloc)),
        }
    }

    // What is said of the next value, if its key is nearly the name of a section of package.json.
    fn misspelled(&self) -> Option<&'static str> {
        let key = self.key.as_deref().unwrap_or("");
        if self.format != Format::Package || self.open.len() != 1 {
            return None;
        }
        for (name, message) in &MISSPELLED {
            if key != *name && (key.eq_ignore_ascii_case(name) || is_nearly(key, name)) {
                return Some(*message);
            }
        }
        None
    }

    // What is said of a value of another shape where the next value is, if that is a setting, or a section in which npm finds names.
    fn misplaced_here(&self, shape: Shape, place: Place) -> Option<Kind> {
        let key = self.key.as_deref().unwrap_or("");
        let is_top = self.path.is_empty();
        if self.first_key() == "ranges" || is_top && key == "ranges" {
            return Some(Kind::OddSetting(match place.text {
                Some(_) => "expected \"off\", \"warn\" or \"error\"",
                None => "expected an object",
            }));
        }
        let is_read = match key {
            "dependencies" | "devDependencies" | "optionalDependencies" => true,
            "peerDependencies" => shape == Shape::Array,
            _ => false,
        };
        if !is_top || !is_read || self.format != Format::Package {
            return None;
        }
        match shape {
            Shape::Array => Some(Kind::OddSection(
                "not an object: npm names its items `0`, `1` and so on",
            )),
            Shape::Text => Some(Kind::OddSection(
                "not an object: npm names its characters `0`, `1` and so on",
            )),
            _ => None,
        }
    }

    /// Adds an entry of the last key.
    pub fn add(
        &mut self,
        text: String,
        start: usize,
        end: usize,
        kind: Kind,
        section: &'static str,
    ) -> Result<(), AllocError> {
        let name = self.name()?;
        let object = match self.path.last() {
            Some(object) => String::from_str(self.alloc, object.as_str())?,
            None => String::new(self.alloc),
        };
        let entry = Entry {
            section,
            object,
            name,
            depth: self.path.len(),
            text,
            start,
            end,
            kind,
        };
        Ok(self.entries.push(entry)?)
    }

    /// Adds an entry without a text.
    pub fn add_kind(
        &mut self,
        index: usize,
        kind: Kind,
        section: &'static str,
    ) -> Result<(), AllocError> {
        self.add(String::new(self.alloc), index, index, kind, section)
    }

    /// Takes the beginning of a value at this index of the file. Of a text it says what it is, if it is to be added.
    pub fn begin(
        &mut self,
        shape: Shape,
        index: usize,
    ) -> Result<Option<(Kind, &'static str)>, AllocError> {
        if let Some(section) = self.listed() {
            if shape == Shape::Text {
                return Ok(Some((Kind::Dependency, section)));
            }
            let message = "npm refuses it: expected a string, such as \"^1.2\"";
            self.add_kind(index, Kind::Mistake(message), "")?;
            return Ok(None);
        }
        if self.is_stand_in() && shape != Shape::Text {
            if shape != Shape::Null {
                let message = "npm refuses it: expected a string, such as \"^1.2\"";
                self.add_kind(index, Kind::Mistake(message), "overrides")?;
            }
            return Ok(None);
        }
        let place = self.place();
        if shape == Shape::Object
            && let Some(message) = self.misspelled()
        {
            self.add_kind(index, Kind::OddSection(message), "")?;
        }
        let is_there = match (shape, place.text) {
            (Shape::Text, Some(text)) => return Ok(Some(text)),
            (_, Some((Kind::Tool, section))) => {
                self.add_kind(index, Kind::Tool, section)?;
                return Ok(None);
            }
            (Shape::Null, Some((Kind::Name, _))) => return Ok(None),
            (_, Some((Kind::Name, section))) if self.format == Format::Package => {
                self.add_kind(index, Kind::OddName, section)?;
                return Ok(None);
            }
            (Shape::Other, Some((Kind::Private, section))) => {
                self.add_kind(index, Kind::Private, section)?;
                return Ok(None);
            }
            (Shape::Object, Some((Kind::Meta, section))) => {
                self.add_kind(index, Kind::Meta, section)?;
                true
            }
            (Shape::Object, _) if self.is_workspaces() => {
                self.add_kind(index, Kind::Workspaces, "workspaces")?;
                true
            }
            (Shape::Object, _) => place.has_object,
            (Shape::Array, _) => place.has_array,
            (_, _) => false,
        };
        if is_there || !self.is_strict(place, shape) {
            return Ok(None);
        }
        let is_of_npm = self.format == Format::Package;
        let is_section = self.path.is_empty();
        let is_engines = is_section && self.key.as_deref() == Some("engines");
        let is_of_workspaces = self.is_workspaces() || self.first_key() == "workspaces";
        let found = self.misplaced_here(shape, place).or(misplaced(
            shape,
            place,
            is_of_npm,
            is_section,
            is_engines,
            is_of_workspaces,
        ));
        let kind = match found {
            Some(_)
                if shape == Shape::Other && self.format == Format::Yaml && place.text.is_some() => {
                Kind::Mistake("YAML doesn't read it as a string: write it in quotes")
            }
            Some(kind) => kind,
            None => return Ok(None),
        };
        let section = match (self.first_key(), kind) {
            ("devEngines", _) => "devEngines",
            ("overrides", Kind::Mistake(_)) => "overrides",
            (_, _) => "",
        };
        self.add_kind(index, kind, section)?;
        Ok(None)
    }

    /// Opens an object or an array, the next value.
    pub fn open(&mut self, is_array: bool) -> Result<(), AllocError> {
        let is_file = self.open.is_empty();
        let keys = if !is_array && (is_file || self.place().has_object) {
            Some(Keys::new(self.alloc))
        } else {
            None
        };
        let is_item = self.is_in_array();
        let key = match self.key.take() {
            Some(key) => key,
            None if is_item => String::from_str(self.alloc, ITEM)?,
            None => String::new(self.alloc),
        };
        if !is_file {
            self.path.push(key)?;
        }
        if is_array {
            self.arrays = self.arrays.saturating_add(1);
        }
        let items = 0usize;
        Ok(
            self.open.push(Open {
                is_array,
                items,
                keys,
            })?,
        )
    }

    /// Closes the last object or array.
    pub fn close(&mut self) {
        if self.is_in_array() {
            self.arrays = self.arrays.saturating_sub(1);
        }
        let _ = self.open.pop();
        let _ = self.path.pop();
        self.key = None;
    }

    /// Goes on to the next item or key.
    pub fn end_item(&mut self) {
        self.key = None;
        if let Some(open) = self.open.last_mut() {
            open.items = open.items.saturating_add(1);
        }
    }

    // Drops the entries of an earlier key with the name of the next one, since parsers of JSON take the last value. It says whether there is
    // such a key.
    fn drop_earlier(&mut self, key: &str) -> Result<bool, AllocError> {
        let count = self.entries.len();
        let name = String::from_str(self.alloc, key)?;
        let Some(
            Open {
                keys: Some(keys),
                ..
            },
        ) = self.open.last_mut()
        else {
            return Ok(false);
        };
        let Some((start, end)) = keys.take(name, count)? else {
            return Ok(false);
        };
        if self.format != Format::Yaml {
            let end = end.min(count);
            let start = start.min(end);
            keys.forget(end.saturating_sub(start), end);
            let _ = self.entries.drain(start..end);
        }
        Ok(true)
    }

    /// Takes a key, which stands between these indexes.
    pub fn take_key(&mut self, key: String, start: usize, end: usize) -> Result<(), AllocError> {
        self.is_lockfile |= self.path.is_empty() && key.as_str() == "lockfileVersion";
        // A key for comments may stand several times.
        let is_repeated = self.drop_earlier(key.as_str())? && key.as_str() != "//";
        self.add_override(key.as_str(), start, end)?;
        self.key = Some(key);
        self.add_key(start)?;
        match self.format {
            _ if !is_repeated => Ok(()),
            Format::Yaml => {
                let message = "the same key stands further up: pnpm refuses the file";
                self.add_kind(start, Kind::Mistake(message), "")
            }
            Format::Package | Format::Json => self.add_kind(start, Kind::Repeated, ""),
        }
    }
}
