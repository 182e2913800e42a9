//! Questions about versions and ranges, each answered in one place, from texts. The programs and the C API use these.
#![tactic(auto)]

pub mod asking;
pub mod errors;
pub mod explained;
pub mod explained_json;
pub mod filtering;
pub mod object;
pub mod outdated;
pub mod parts;
pub mod questions;
pub mod reading;
pub mod simplifying;
pub mod sorting;
pub mod steps;
