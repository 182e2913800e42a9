//! What the program `ranges` reads and prints: arguments, versions, ranges, messages, hints and carets.
#![tactic(auto)]

pub mod args;
pub mod console;
pub mod given;
pub mod hints;
pub mod input;
pub mod pointing;
pub mod shown;
