//! The steps of the parser of scripts: what each token does to what was read before it.
#![tactic(auto)]

mod expressions;
mod steps;
mod values;

pub use steps::step;
