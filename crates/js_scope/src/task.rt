use crate::fault::EarlyFault;
use js_tree::{Declaration, Expr, Name, Property, Stmt, TemplateItem};

/// What opens a scope.
#[derive(Clone, Copy)]
pub(crate) enum ScopeKind {
    /// a block, a `for` or a `catch`
    Block,
    /// the body of a loop
    Loop,
    /// a function, which is async or not
    Function(bool),
}

/// A piece of a script.
#[derive(Clone, Copy)]
pub(crate) enum Piece<'a> {
    /// a declared name
    Declares(&'a Name),
    /// declared names
    Names(&'a [Name]),
    /// a word that is a fault unless something around it allows it
    Word(EarlyFault),
    Expr(&'a Expr),
    Exprs(&'a [Expr]),
    TemplateItems(&'a [TemplateItem]),
    Properties(&'a [Property]),
    Declarations(&'a [Declaration]),
    Stmt(&'a Stmt),
    Stmts(&'a [Stmt]),
}

/// What a walk has to do: enter a scope, leave it, or go through a piece.
#[derive(Clone, Copy)]
pub(crate) enum Task<'a> {
    Enter(ScopeKind),
    Leave,
    Piece(Piece<'a>),
}
