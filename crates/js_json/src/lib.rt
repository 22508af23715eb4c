//! JSON as scripts read it. `docs/JS_JSON.md` has the grammar and its limits.
#![tactic(auto)]

mod levels;
mod machine;
mod name;
mod number;
mod part;
mod reader;
#[cfg(test)]
mod tests;
mod units;

pub use reader::valid;
