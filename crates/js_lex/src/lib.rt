//! The tokens of a script, after ECMA-262, section 12. `docs/SCRIPTS.md` describes them.
#![tactic(auto)]

mod front;
mod letters;
mod scan;
mod tables;
#[cfg(test)]
mod tests;
mod token;
mod units;

pub use front::same_text;
pub use scan::lex;
pub use token::{
    Punctuator, Reserved, ScriptFault, ScriptKind, TemplatePart, Token, TokenKind, Tokens,
};
