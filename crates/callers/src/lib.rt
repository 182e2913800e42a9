//! Questions about versions and requirements, each with its result as the contract.
//!
//! The proofs use only the public contracts of the crates below, and none of their lemmas.
#![tactic(auto)]

pub mod comparators;
pub mod import_map;
pub mod lockfile;
pub mod overlap;
pub mod packages;
pub mod releasing;
pub mod requirements;
pub mod sort_keys;
pub mod stored;
pub mod texts;
