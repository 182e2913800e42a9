//! Versions, version ranges and partial versions, and the lexical grammar they share.
//!
//! The lowest crate of the port of `deno_semver`. Its modules, bottom up: `string`, texts and lists; `failure`, why a parse
//! failed; `lexical`, parsers of the tokens at the start of a text; `short`, fast paths for one to three numbers with dots;
//! `version`; `sort_key`, for databases; `range`; `partial`, partial versions and their ranges after each operator; and
//! `laws`, facts about `==`, hashes and texts of all of these. Each module depends only on those before it.
#![tactic(auto)]

pub mod failure;
pub mod laws;
pub mod lexical;
pub mod partial;
pub mod range;
pub mod short;
mod sort_key;
pub mod string;
pub mod version;
