//! The world that a configuration describes: its services by number and by name, its sockets, and
//! which services each of them reaches.
#![tactic(auto)]

mod directory;
mod linking;
#[cfg(test)]
mod tests;
mod walk;
mod workers;
mod world;

pub use linking::{GraphFault, LinkEnd, link};
pub use world::World;
