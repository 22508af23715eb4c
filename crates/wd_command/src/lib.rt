//! The words of the command line: the command that they are, or the text that is printed in its place.
#![tactic(auto)]

mod command;
mod notice;
mod program;
#[cfg(test)]
mod tests;

pub use command::{Asks, CommandLine, Verb, asks_of, serves};
pub use notice::Notice;
