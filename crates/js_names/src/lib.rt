//! The names of properties that a script may not use.
#![tactic(auto)]

mod names;
#[cfg(test)]
mod tests;

pub use names::refused_name;
