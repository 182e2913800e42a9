//! Patterns of names and of paths: those of .gitignore, and those of workspaces.
#![tactic(auto)]

pub mod braces;
pub mod ignored;
pub mod names;
pub mod paths;
pub mod workspaces;
