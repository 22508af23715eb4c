//! The grammar of scripts, as a function from trees to patterns of tokens, and the letters of its
//! words. `docs/SCRIPTS.md` describes it; the definitions are in `specs`.
#![tactic(auto)]

mod spelling;

pub use spelling::{letters, reserved_letters};
