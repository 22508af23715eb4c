//! What the words of a command line and the files ask for: the command, the configuration's
//! reading and linking, and the start of its scripts.
#![tactic(auto)]

mod constant;
mod folder;
mod ready;
mod reason;
mod refusal;
mod script;
mod starts;
#[cfg(test)]
mod tests;
mod text;

pub use constant::Constant;
pub use ready::{PlanEnd, Ready, prepare};
pub use reason::{Reason, RefusedScript};
pub use refusal::Refusal;
pub use text::framed;
