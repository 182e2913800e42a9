//! The paths that a diff names.

use crate::walking::{path_of, repository};
use patterns::paths::names_of;
use std::alloc::{AllocError, Global};
use std::fs;
use std::io::{ErrorKind, Write};
use std::rt::Files;
use terminal::console::{Console, Stop};
use terminal::shown::Shown;

// The path of a file from a folder above it; standard input lies in every folder.
fn path_below<'p>(path: &'p str, folder: &str) -> Option<&'p str> {
    if path == "-" {
        return Some(path);
    }
    path.strip_prefix(folder)?.strip_prefix('/')
}

// The path of a file or a folder from the top of the system, without links; one that has no such path keeps its own.
fn whole_path<R: Files + AllocGlobal>(rt: &R, file: &str) -> Result<String, AllocError> {
    if file == "-" {
        return String::from_str(rt.alloc(), file);
    }
    match fs::canonicalize(rt, file) {
        Ok(path) => String::from_str(rt.alloc(), path.as_str()),
        Err(error) if error.kind() == ErrorKind::OutOfMemory => Err(AllocError),
        Err(_) => String::from_str(rt.alloc(), file),
    }
}

// Whether all of the files lie in a folder or below it.
fn are_below(paths: &[String], folder: &str) -> bool {
    paths
        .iter()
        .all(|path| path_below(path.as_str(), folder).is_some())
}

// The paths from a folder; a file that lies elsewhere keeps its path.
fn paths_from(alloc: Global, folder: &str, paths: &[String]) -> Result<Vec<String>, AllocError> {
    let mut all = Vec::new(alloc);
    for path in paths {
        let path = path.as_str();
        let below = path_below(path, folder).unwrap_or(path);
        all.push(String::from_str(alloc, below)?)?;
    }
    Ok(all)
}

// The top of the git repository that holds a folder, to which these names lead; none if no repository does.
fn top_of<R: Files + AllocGlobal>(rt: &R, names: &[&str]) -> Result<Option<String>, Stop> {
    match repository(rt, names) {
        Ok(Some(count)) => {
            let names = names.get(..count).unwrap_or(&[]);
            Ok(Some(path_of(rt.alloc(), names)?))
        }
        Ok(None) => Ok(None),
        // Nothing else goes wrong.
        Err(_) => Err(Stop::OutOfMemory),
    }
}

/// The paths that a diff of these files names, so that `git apply` takes it: from this folder, or if a file lies outside, from the top of
/// the repository. What `git apply` needs besides, or doesn't take, is said on standard error.
pub fn paths_in_diff<R: Files + AllocGlobal, O: Write, E: Write>(
    rt: &R,
    console: &mut Console<O, E>,
    files: &[&str],
) -> Result<Vec<String>, Stop> {
    let alloc = console.alloc;
    let mut paths = Vec::new(alloc);
    for file in files {
        paths.push(whole_path(rt, file)?)?;
    }
    let paths = paths.as_slice();
    let here = whole_path(rt, ".")?;
    let names = names_of(alloc, here.as_str())?;
    let here = path_of(alloc, names.as_slice())?;
    if !are_below(paths, here.as_str())
        && let Some(top) = top_of(rt, names.as_slice())?
        && are_below(paths, top.as_str())
    {
        console.tell("a file lies outside this folder: run git apply at the top of the repository");
        return Ok(paths_from(alloc, top.as_str(), paths)?);
    }
    for (file, path) in files.iter().zip(paths.iter()) {
        if path_below(path.as_str(), here.as_str()).is_none() {
            let file = Shown(file);
            console.tell(format_args!("{file}: outside this folder: git apply refuses its diff"));
        }
    }
    Ok(paths_from(alloc, here.as_str(), paths)?)
}
