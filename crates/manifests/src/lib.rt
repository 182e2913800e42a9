//! What manifests hold: the ranges of package.json, deno.json, import maps, pnpm-workspace.yaml and plain lines, each with its place, and
//! how npm reads each.
#![tactic(auto)]

mod collecting;
mod commented;
pub mod entry;
mod escaped;
mod json;
pub mod manifest;
pub mod npm;
mod quoted;
pub mod sections;
mod yaml;
