//! The trees of scripts. `docs/SCRIPTS.md` describes what they stand for.
#![tactic(auto)]

mod names;
#[cfg(test)]
mod tests;
mod tree;

pub use tree::{
    ArrowBody, AssignOp, BinaryOp, Catch, Declaration, DeclareKind, Expr, ForBegin, Function, Item,
    Key, Name, Property, Stmt, Target, TemplateItem, Tree, UnaryOp, UpdateOp, UpdateSide,
};
