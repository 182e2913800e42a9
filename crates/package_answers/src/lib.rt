//! Questions about the texts of packages, names with versions, references and dependencies, and their parts as JSON.
#![tactic(auto)]

pub mod errors;
pub mod names;
pub mod packages;
pub mod references;
pub mod specifiers;
