//! The strengths of a script's binary operators, and the words of ECMA-262 that scripts have not.
#![tactic(auto)]

#[cfg(test)]
mod tests;
mod word;
mod words;

pub use word::{Spot, Word};
pub use words::{strength, word_of};
