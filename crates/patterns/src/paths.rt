//! Patterns of paths, name by name.

use crate::names::{Reader, matches_name};
use std::alloc::{AllocError, Global};

// Whether a name is hidden from a part of a pattern.
fn is_hidden(part: &str, name: &str, reader: Reader) -> bool {
    reader == Reader::Npm && name.starts_with('.') && !part.starts_with('.')
}

// Whether a name matches a part of a pattern.
fn takes(part: &str, name: &str, reader: Reader) -> bool {
    !is_hidden(part, name, reader) && matches_name(part, name, reader)
}

/// The names of a path.
pub fn names_of<'p>(alloc: Global, path: &'p str) -> Result<Vec<&'p str>, AllocError> {
    let mut names = Vec::new(alloc);
    for name in path.split('/') {
        if !matches!(name, "" | ".") {
            names.push(name)?;
        }
    }
    Ok(names)
}

/// Whether the names of a path match a pattern, in which `**` stands for any number of names.
pub fn matches_path(pattern: &[&str], names: &[&str], reader: Reader) -> bool {
    let (mut at, mut taken) = (0usize, 0usize);
    // Where the pattern goes on behind the last `**`, and the first name that it could take there.
    let mut again = None;
    for _ in 0..u64::MAX {
        match (pattern.get(at), names.get(taken)) {
            (None, None) => return true,
            (Some(part), _) if *part == "**" => {
                at = at.saturating_add(1);
                again = Some((at, taken));
            }
            (Some(part), Some(name)) if takes(part, name, reader) => {
                at = at.saturating_add(1);
                taken = taken.saturating_add(1);
            }
            (_, _) => match again {
                Some((behind, first))
                    if names
                        .get(first)
                        .is_some_and(|name| !is_hidden("**", name, reader)) => {
                    at = behind;
                    taken = first.saturating_add(1);
                    again = Some((at, taken));
                }
                _ => return false,
            },
        }
    }
    false
}

/// Whether a pattern may match something in the folder to which these names lead. npm goes through a link only where no `**` takes it.
pub fn leads_on(pattern: &[&str], names: &[&str], is_link: bool) -> bool {
    for (place, name) in names.iter().enumerate() {
        match pattern.get(place) {
            Some(part) if *part == "**" => {
                let hidden = names.get(place..).unwrap_or(&[]);
                let is_hidden = hidden.iter().any(|name| name.starts_with('.'));
                return !is_link && (!is_hidden || pattern.iter().any(|it| it.starts_with('.')));
            }
            Some(part) if takes(part, name, Reader::Npm) => (),
            _ => return false,
        }
    }
    pattern.len() > names.len()
}
