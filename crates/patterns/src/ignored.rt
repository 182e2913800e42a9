//! The lines of a .gitignore.

use crate::names::{Reader, matches_name};
use crate::paths::{matches_path, names_of};
use std::alloc::{AllocError, Global};

/// A line of a .gitignore.
#[derive(Drop)]
pub struct Ignored {
    /// The folder below which it counts.
    folder: String,
    /// The names on the way to this folder from the one that the line speaks of.
    lead: String,
    pattern: String,
}

// The path of a file or a folder below another, if it is there.
fn below<'p>(path: &'p str, folder: &str) -> Option<&'p str> {
    if folder.is_empty() {
        return Some(path);
    }
    let rest = path.strip_prefix(folder)?;
    if folder.ends_with('/') {
        Some(rest)
    } else {
        rest.strip_prefix('/')
    }
}

// A line without the spaces at its end, but for one behind a `\`.
fn without_spaces(line: &str) -> &str {
    let bare = line.trim_end_matches(' ');
    if bare.len() < line.len() && bare.ends_with('\\') {
        line.get(..bare.len().saturating_add(1)).unwrap_or(bare)
    } else {
        bare
    }
}

impl Ignored {
    /// A line that counts below a folder, to which the names of `lead` lead; none if it's empty or a comment.
    pub fn new(
        alloc: Global,
        folder: &str,
        lead: &str,
        line: &str,
    ) -> Result<Option<Ignored>, AllocError> {
        let line = without_spaces(line.strip_suffix('\r').unwrap_or(line));
        if line.is_empty() || line.starts_with('#') {
            return Ok(None);
        }
        Ok(Some(Ignored {
            folder: String::from_str(alloc, folder)?,
            lead: String::from_str(alloc, lead)?,
            pattern: String::from_str(alloc, line)?,
        }))
    }

    // Whether the line ignores this path, or takes it again; none if it says nothing of it.
    fn answer(
        &self,
        alloc: Global,
        path: &str,
        is_folder: bool,
    ) -> Result<Option<bool>, AllocError> {
        let Some(path) = below(path, self.folder.as_str()) else {
            return Ok(None);
        };
        let pattern = self.pattern.as_str();
        let bare = pattern.strip_prefix('!').unwrap_or(pattern);
        let shape = bare.strip_suffix('/').unwrap_or(bare);
        let is_match = if shape.len() < bare.len() && !is_folder {
            false
        } else if shape.contains('/') {
            self.matches_below(alloc, shape, path)?
        } else {
            matches_name(shape, path.rsplit('/').next().unwrap_or(path), Reader::Git)
        };
        Ok(if is_match {
            Some(bare.len() == pattern.len())
        } else {
            None
        })
    }

    // Whether a pattern with several names matches a path. No name is empty or `.`, so that `./a` and `a//b` match nothing.
    fn matches_below(&self, alloc: Global, shape: &str, path: &str) -> Result<bool, AllocError> {
        let mut parts = Vec::new(alloc);
        for part in shape.strip_prefix('/').unwrap_or(shape).split('/') {
            parts.push(part)?;
        }
        if parts.last() == Some(&"**") {
            // It matches all in a folder, and not the folder.
            parts.push("*")?;
        }
        let mut names = names_of(alloc, self.lead.as_str())?;
        for name in names_of(alloc, path)?.iter() {
            names.push(*name)?;
        }
        Ok(matches_path(parts.as_slice(), names.as_slice(), Reader::Git))
    }
}

/// Whether a path is ignored: the last line that says something of it counts.
pub fn is_ignored(
    alloc: Global,
    ignored: &[Ignored],
    path: &str,
    is_folder: bool,
) -> Result<bool, AllocError> {
    for line in ignored.iter().rev() {
        if let Some(answer) = line.answer(alloc, path, is_folder)? {
            return Ok(answer);
        }
    }
    Ok(false)
}
