//! The machine that reads scripts, one token at a time: what it has read, and what its steps stand
//! on: what a token is, what is open round the place that is read, and how an operand begins. In
//! `specs` stands what each token does, in `proofs` the laws that it reads just the grammar.
#![tactic(auto)]

mod begins;
mod machine;
mod outer;
mod tokens;

pub use begins::{begin, operand};
pub use machine::{
    Asked, At, Block, Body, Callee, Cover, Declared, Frame, Head, Logic, Open, Opening, Operator,
    Outer, Position, Purpose, Refusal, State, StepEnd, Tail,
};
pub use outer::{
    because, begins_statement, boxed, complete, constructs, in_body, innermost, inside, is_top,
    is_whole, open_block, plus, pop, position_of, push, refuse, refuse_at, refused, settle, to,
    wait, wait_body, wait_operand, wait_tail, with,
};
pub use tokens::{
    any_name, is_arrow, is_async, is_close_brace, is_close_bracket, is_close_paren, is_colon,
    is_comma, is_default, is_else, is_equal, is_finally, is_of, is_open_brace, is_open_bracket,
    is_open_paren, is_semicolon, may_end, name_at, units_of_letters,
};
