//! Whether a script is refused before it runs: by the grammar, or for an early fault.
//! `docs/SCRIPTS.md` describes both.
#![tactic(auto)]

mod script;
#[cfg(test)]
mod tests;

pub use script::{ScriptRefusal, check};
