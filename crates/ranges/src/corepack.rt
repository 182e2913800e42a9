//! What Corepack reads of package.json: `packageManager`, and `packageManager` of `devEngines`.

use checks::known::is_match;
use deno_semver::PreRelease;
use manifests::entry::Entry;
use manifests::npm::{as_read, refused_part};
use manifests::sections::Kind;
use std::alloc::{AllocError, Global};

/// What `devEngines.packageManager` says of the package manager.
#[derive(Clone, Copy)]
pub struct Wanted<'e> {
    /// The name and the range that `packageManager` must match.
    name: Option<&'e Entry>,
    version: Option<&'e Entry>,
    /// Whether Corepack goes on where it doesn't.
    is_lenient: bool,
    /// Where the entry starts that Corepack refuses, if it does.
    refused: Option<usize>,
    /// Whether Corepack takes it in place of `packageManager`.
    is_usable: bool,
}

// A member of devEngines.packageManager, an object.
fn member<'e>(entries: &'e [Entry], name: &str) -> Option<&'e Entry> {
    entries.iter().find(|entry| {
        let is_there = entry.section == "devEngines" && entry.object.as_str() == "packageManager";
        is_there && entry.name.as_str() == name
    })
}

// Where the object starts that devEngines.packageManager is. Corepack passes over anything else.
fn start_of_object(file: &str, entries: &[Entry]) -> Option<usize> {
    let entry = entries
        .iter()
        .find(|entry| entry.kind == Kind::Tool && entry.depth == 1)?;
    let value = file.get(entry.start..).unwrap_or("");
    if entry.text.is_empty() && value.starts_with('{') {
        Some(entry.start)
    } else {
        None
    }
}

// Whether packageManager has a text, which Corepack reads in a workspace, too.
fn has_manager(entries: &[Entry]) -> bool {
    entries.iter().any(|entry| entry.kind == Kind::Manager && !entry.text.is_empty())
}

// Whether Corepack goes on after a mistake: `onFail` is something else than `error`.
fn is_lenient(entries: &[Entry]) -> bool {
    match member(entries, "onFail") {
        Some(entry) => entry.text.as_str() != "error",
        None => false,
    }
}

// Whether Corepack takes the range, which is a string.
fn is_valid(entry: &Entry) -> bool {
    entry.kind == Kind::Engine && refused_part(entry.text.as_str()).is_none()
}

impl<'e> Wanted<'e> {
    /// Corepack reads nothing.
    pub const NONE: Wanted<'static> = Wanted {
        name: None,
        version: None,
        is_lenient: false,
        refused: None,
        is_usable: false,
    };

    // What is refused at this index of the file, unless Corepack goes on after a mistake.
    fn refused_at(start: usize, is_lenient: bool) -> Wanted<'e> {
        Wanted {
            refused: if is_lenient { None } else { Some(start) },
            ..Wanted::NONE
        }
    }

    /// What these entries of a package.json say. Corepack reads that of the root, or beside packageManager.
    pub fn of(file: &str, entries: &'e [Entry], is_root: bool) -> Wanted<'e> {
        let Some(start) = start_of_object(file, entries) else {
            return Wanted::NONE;
        };
        if !is_root && !has_manager(entries) {
            return Wanted::NONE;
        }
        let is_lenient = is_lenient(entries);
        let Some(name) = member(entries, "name") else {
            return Wanted::refused_at(start, is_lenient);
        };
        let text = name.text.as_str();
        // Without a packageManager, Corepack isn't asked for these two.
        if matches!(text, "bun" | "deno") {
            return Wanted {
                name: Some(name),
                is_lenient,
                ..Wanted::NONE
            };
        }
        if text.is_empty() || text.contains('@') {
            return Wanted::refused_at(name.start, is_lenient);
        }
        let version = member(entries, "version");
        if let Some(version) = version
            && !is_valid(version)
        {
            return Wanted::refused_at(version.start, is_lenient);
        }
        Wanted {
            name: Some(name),
            version,
            is_lenient,
            refused: None,
            is_usable: true,
        }
    }

    /// Whether Corepack refuses the entry.
    pub fn refuses(&self, entry: &Entry) -> bool {
        entry.section == "devEngines" && self.refused == Some(entry.start)
    }

    /// Whether Corepack takes it in place of an empty packageManager.
    pub fn is_usable(&self) -> bool {
        self.is_usable
    }

    /// What is said of packageManager, if it names another package manager or another version.
    pub fn mismatch(
        &self,
        alloc: Global,
        name: &str,
        version: &str,
    ) -> Result<Option<String>, AllocError> {
        let Some(wanted) = self.name else {
            return Ok(None);
        };
        if self.is_lenient {
            return Ok(None);
        }
        let wanted = wanted.text.as_str();
        if wanted != name {
            let message = format!(in alloc;
                "Corepack refuses it: devEngines.packageManager names {wanted}"
            )?;
            return Ok(Some(message));
        }
        let Some(asked) = self.version else {
            return Ok(None);
        };
        let range = asked.text.as_str();
        let Some(read) = as_read(alloc, range)? else {
            return Ok(None);
        };
        if is_match(alloc, PreRelease::Restricted, read.as_str(), version)? {
            return Ok(None);
        }
        let message = format!(in alloc;
            "Corepack refuses it: devEngines.packageManager asks for `{range}`"
        )?;
        Ok(Some(message))
    }
}

/// Whether a value of packageManager is `null`, in whose place Corepack takes `devEngines`, or the package.json of a folder above.
pub fn is_null_manager(file: &str, entry: &Entry) -> bool {
    let value = file.get(entry.start..).unwrap_or("");
    entry.depth == 0 && entry.name.as_str() == "packageManager" && value.starts_with("null")
}
