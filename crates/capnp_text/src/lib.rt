//! The text form of Cap'n Proto that configurations are written in: its one tree, or its first
//! fault. `docs/CAPNP_TEXT.md` describes the format.
#![tactic(auto)]

mod lex;
mod machine;
mod reader;
mod scan;
mod steps;
#[cfg(test)]
mod tests;
mod token;
mod tree;

pub use reader::{ParseEnd, TextFault, TextKind, parse};
pub use tree::{Decl, Field, File, Placed, Value};
