//! The one tree of a script, or its first fault. `docs/SCRIPTS.md` describes the grammar.
#![tactic(auto)]

mod faults;
mod reader;
#[cfg(test)]
mod tests;

pub use reader::{ScriptEnd, parse};
