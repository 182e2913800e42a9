//! What node-semver has beside `deno_semver`: the version that comes next, how two versions differ, whether a version lies outside
//! a range, which version a string holds, and in which ranges a list matches.
//!
//! `release_type` has the kinds of releases, `identifiers` parses those of a pre-release, `increment` raises a version to the next
//! of a kind, and `laws` has facts about such versions. `difference` says of which kind the step between two versions is, `outside`
//! whether a version lies above or below all that a set of ranges matches, `coerce` finds the version that a string holds, and
//! `simplify` the ranges in which a list matches.
#![tactic(auto)]

pub mod coerce;
pub mod difference;
pub mod identifiers;
pub mod increment;
pub mod laws;
pub mod outside;
pub mod release_type;
pub mod simplify;
