//! The response that a peer sends on a link, read piece by piece: interim heads are skipped, and the
//! head behind them tells how far the body goes.
#![tactic(auto)]

mod find;
mod head;
mod reach;
mod reader;
mod response;
#[cfg(test)]
mod tests;

pub use reach::{Reach, Told};
pub use reader::{Heard, Phase, Response, response_of};
