//! The requests in the bytes of a link.
#![tactic(auto)]

mod conn;
mod head;
mod queue;
mod request;
mod target;
#[cfg(test)]
mod tests;

pub use conn::{Conn, Fed, Phase};
