//! What `ranges check` knows of manifests: which there are, the rules and what they find, and how to rewrite a range.
#![tactic(auto)]

pub mod advice;
pub mod catalogs;
pub mod diff;
pub mod errors;
pub mod findings;
pub mod fixing;
pub mod known;
pub mod projects;
pub mod relative;
pub mod rewriting;
pub mod rules;
pub mod walking;
