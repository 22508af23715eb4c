//! The early faults of scripts. `docs/SCRIPTS.md` lists them.
#![tactic(auto)]

mod fault;
mod lists;
mod names;
mod program;
mod scope;
mod split;
mod stmts;
mod task;
#[cfg(test)]
mod tests;
mod walk;

pub use fault::{EarlyEnd, EarlyFault, EarlyKind};
pub use program::{Program, resolve};
