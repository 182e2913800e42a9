//! Version requirements and their three parsers.
//!
//! The second crate of the port of `deno_semver`. Its modules, bottom up: `common`, comparators parsed from a text;
//! `range_set_or_tag` and `req`, which texts are tags, requirements and their canonical form, and the normalized parser;
//! `specifier`, the strict parser; `npm`, npm's parser; `parse`, the parser of any of the three grammars; `comparators`, those of an alternative; `resolve`, the best of
//! several versions; `error_places`, where a text leaves its grammar; and `laws`.
#![tactic(auto)]

pub mod common;
pub mod comparators;
pub mod error_places;
pub mod laws;
pub mod npm;
mod parse;
pub mod range_set_or_tag;
pub mod req;
pub mod resolve;
pub mod specifier;
