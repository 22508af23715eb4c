//! The server from the command line's words to the bytes on its links: the requests on a link, the
//! session over a port, and the top call.
#![tactic(auto)]

mod board;
mod outcome;
mod seat;
mod session;
#[cfg(test)]
mod tests;
mod top;

pub use top::{Ended, offline, workerd};
