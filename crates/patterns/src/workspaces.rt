//! The patterns of the folders of workspaces, as npm reads them.

use crate::braces::expanded;
use crate::names::Reader;
use crate::paths::{leads_on, matches_path, names_of};
use std::alloc::{AllocError, Global};

/// A pattern of folders.
#[derive(Drop)]
pub struct Workspace {
    /// As the manifest has it.
    pub text: String,
    /// Without braces.
    patterns: Vec<String>,
    /// Whether it leaves folders out.
    pub is_without: bool,
    /// Whether a folder matched it.
    pub has_match: bool,
    /// Whether a pattern behind it takes back what it leaves out.
    is_undone: bool,
}

impl Workspace {
    /// The pattern that a text is; none if its braces stand for too many.
    pub fn new(alloc: Global, text: &str) -> Result<Option<Workspace>, AllocError> {
        let bare = text.trim_start_matches('!');
        let Some(patterns) = expanded(alloc, bare)? else {
            return Ok(None);
        };
        // Of two `!` one takes back the other.
        let is_without = text.len().saturating_sub(bare.len()) % 2 == 1;
        Ok(Some(Workspace {
            text: String::from_str(alloc, text)?,
            patterns,
            is_without,
            has_match: false,
            is_undone: false,
        }))
    }

    fn matches(&self, alloc: Global, names: &[&str]) -> Result<bool, AllocError> {
        for pattern in self.patterns.iter() {
            let parts = names_of(alloc, pattern.as_str())?;
            if matches_path(parts.as_slice(), names, Reader::Npm) {
                return Ok(true);
            }
        }
        Ok(false)
    }

    // Whether folders in the one to which the names lead may match.
    fn leads_on(&self, alloc: Global, names: &[&str], is_link: bool) -> Result<bool, AllocError> {
        for pattern in self.patterns.iter() {
            let parts = names_of(alloc, pattern.as_str())?;
            if leads_on(parts.as_slice(), names, is_link) {
                return Ok(true);
            }
        }
        Ok(false)
    }

    // Whether the text of a pattern matches this one, as a path does. It matches all in a folder by `**`, and not the folder.
    fn covers(&self, alloc: Global, text: &str) -> Result<bool, AllocError> {
        let names = names_of(alloc, text)?;
        for pattern in self.patterns.iter() {
            let mut parts = names_of(alloc, pattern.as_str())?;
            if parts.last() == Some(&"**") {
                parts.push("*")?;
            }
            if matches_path(parts.as_slice(), names.as_slice(), Reader::Npm) {
                return Ok(true);
            }
        }
        Ok(false)
    }
}

/// Takes back the patterns from a place on that leave folders out, if they match the text of one behind them that doesn't, as npm does.
pub fn undo(
    alloc: Global,
    workspaces: &mut [Workspace],
    first: usize,
    behind: &Workspace,
) -> Result<(), AllocError> {
    if behind.is_without {
        return Ok(());
    }
    let text = behind.text.as_str().trim_start_matches('!');
    for workspace in workspaces.iter_mut().skip(first) {
        if workspace.is_without && workspace.covers(alloc, text)? {
            workspace.is_undone = true;
        }
    }
    Ok(())
}

/// Whether a folder is a workspace: it matches a pattern, and none that leaves it out. Each pattern that it matches keeps that.
pub fn is_workspace(
    alloc: Global,
    workspaces: &mut [Workspace],
    folder: &str,
) -> Result<bool, AllocError> {
    let names = names_of(alloc, folder)?;
    let (mut is_in, mut is_out) = (false, false);
    for workspace in workspaces.iter_mut() {
        if !workspace.is_undone && workspace.matches(alloc, names.as_slice())? {
            workspace.has_match = true;
            is_in |= !workspace.is_without;
            is_out |= workspace.is_without;
        }
    }
    Ok(is_in && !is_out)
}

/// How far a folder leads to workspaces.
#[derive(Clone, Copy, PartialEq, Eq)]
pub enum Way {
    Nowhere,
    /// It may be one.
    Here,
    /// Folders in it may be some, too.
    On,
}

/// How far a folder leads to workspaces, to which perhaps a link leads.
pub fn way_to(
    alloc: Global,
    workspaces: &[Workspace],
    folder: &str,
    is_link: bool,
) -> Result<Way, AllocError> {
    let names = names_of(alloc, folder)?;
    let mut way = Way::Nowhere;
    for workspace in workspaces.iter().filter(|it| !it.is_without) {
        if workspace.leads_on(alloc, names.as_slice(), is_link)? {
            return Ok(Way::On);
        }
        if workspace.matches(alloc, names.as_slice())? {
            way = Way::Here;
        }
    }
    Ok(way)
}
