use js_lex::{Punctuator, Reserved, TemplatePart};
use js_tree::{
    ArrowBody, Catch, Declaration, Expr, ForBegin, Function, Key, Name, Property, Stmt, Target,
    TemplateItem,
};
use sqlite_items::Boxed;
use wd_base::Seq;

/// A piece of a script's text: a token, or a part of the tree.
#[derive(Clone, Copy)]
pub(crate) enum Piece<'a> {
    Sign(Punctuator),
    Word(Reserved),
    /// a name in ASCII that is a word where it stands
    Plain(&'a [u8]),
    Name(&'a Name),
    Number(u64),
    Text(&'a [u16]),
    Part(TemplatePart, &'a [u16]),
    /// the word `async`, or nothing
    Async(bool),
    Key(&'a Key),
    OptionalName(&'a Option<Name>),
    /// what a `catch` names, in its parentheses
    CatchName(&'a Option<Name>),
    /// names with a comma behind each
    Names(&'a [Name]),
    ArrowParameters(&'a [Name]),
    ArrowBody(&'a ArrowBody),
    Function(&'a Function),
    Target(&'a Target),
    Expr(&'a Expr),
    OptionalExpr(&'a Option<Expr>),
    /// expressions with a comma behind each
    Exprs(&'a [Expr]),
    /// the parts of a template from the second one on
    TemplateRest(&'a [TemplateItem], &'a [u16]),
    Property(&'a Property),
    /// members of an object with a comma behind each
    Properties(&'a [Property]),
    Declaration(&'a Declaration),
    /// declared names with a comma between each two
    Declarations(&'a [Declaration]),
    /// .. with a comma before each
    MoreDeclarations(&'a [Declaration]),
    ForBegin(&'a ForBegin),
    Stmt(&'a Stmt),
    Stmts(&'a [Stmt]),
    Else(&'a Option<Boxed<Stmt>>),
    Catch(&'a Option<Catch>),
    Finally(&'a Option<Seq<Stmt>>),
}
