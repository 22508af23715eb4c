//! The text of a script's tree.
#![tactic(auto)]

mod lists;
mod piece;
#[cfg(test)]
mod print_tests;
mod split;
mod stmts;
#[cfg(test)]
mod token_tests;
mod token_text;
mod walk;

pub use walk::print;
