use js_tree::{
    AssignOp, BinaryOp, Catch, Declaration, DeclareKind, Expr, ForBegin, Item, Key, Name, Property,
    Stmt, Target, TemplateItem, UnaryOp, UpdateOp,
};
use js_words::Spot;
use wd_base::{NoMemory, Seq, Stack, Units};

/// An operator that waits for its operand.
#[derive(Drop)]
pub enum Operator {
    /// with the left operand
    Binary(Expr, BinaryOp),
    Unary(UnaryOp),
    /// with the place of the word
    Await(usize),
    /// `++` or `--` before its target
    Update(UpdateOp),
}

/// What ends with the value that it waits for.
#[derive(Drop)]
pub enum Tail {
    Assign(AssignOp, Target),
    /// `test ? yes :`
    Else(Expr, Expr),
    /// `(parameters) =>`
    Arrow(bool, Seq<Name>),
}

/// What arguments are for.
#[derive(Drop)]
pub enum Callee {
    /// a value, and how many calls and member accesses its chain has
    Value(Expr, usize),
    /// `new` and the name
    New(Name),
}

/// What a whole value is for.
#[derive(Drop)]
pub enum Purpose {
    /// `test ?`
    Then(Expr),
    /// `(`
    Group,
    /// `(` and the arguments before
    Argument(Callee, Seq<Expr>),
    /// `object[`, and how many calls and member accesses the object's chain has
    Index(Expr, usize),
    /// `[` and the items before
    Element(Seq<Expr>),
    /// `{`, the members before, and `key:`
    Pair(Seq<Property>, Key),
    /// the parts before, and the units of the last one
    Hole(Seq<TemplateItem>, Units),
    /// `if (`
    If,
    /// `while (`
    While,
    /// `for (`
    ForStart,
    /// `for (begin;`
    ForTest(ForBegin),
    /// `for (begin; test;`
    ForUpdate(ForBegin, Option<Expr>),
    /// `for (let name of`
    ForOf(DeclareKind, Name),
    /// an expression as a statement
    Statement,
    /// the declarations before, and `name =`
    Initial(Declared, Name),
    /// with the place of the word
    Return(usize),
    Throw,
}

/// `let` or `const`, whether within the brackets of a `for`, and the declarations so far.
#[derive(Drop)]
pub struct Declared {
    pub kind: DeclareKind,
    pub in_for: bool,
    pub declarations: Seq<Declaration>,
}

/// What waits for a statement as its body.
#[derive(Drop)]
pub enum Body {
    Then(Expr),
    Else(Expr, Stmt),
    For(ForBegin, Option<Expr>, Option<Expr>),
    ForOf(DeclareKind, Name, Expr),
    While(Expr),
}

/// A function before its parameters.
#[derive(Drop)]
pub enum Head {
    Declaration(bool, Name),
    Expression(bool, Option<Name>),
    /// with the members of the object before it, and its key
    Method(bool, Seq<Property>, Key),
}

/// What the statements between braces are.
#[derive(Drop)]
pub enum Block {
    Plain,
    Function(Head, Seq<Name>),
    Arrow(bool, Seq<Name>),
    Try,
    /// with the block of the `try`, and the name
    Catch(Seq<Stmt>, Option<Name>),
    /// with the block of the `try`, and its `catch`
    Finally(Seq<Stmt>, Option<Catch>),
}

/// What was begun, and waits for its end.
#[derive(Drop)]
pub enum Frame {
    Operator(Operator),
    Tail(Tail),
    Purpose(Purpose),
    Body(Body),
    /// with the statements so far
    Block(Block, Seq<Stmt>),
    /// `export default`
    Export,
}

/// A frame, and how many constructs are open within it.
#[derive(Drop)]
pub struct Open {
    pub constructs: usize,
    pub frame: Frame,
}

/// What stands before brackets in which arrow parameters may stand.
#[derive(Drop)]
pub enum Cover {
    Plain,
    /// the name `async`
    Async(Name),
}

/// A word that brackets follow.
#[derive(Clone, Copy)]
pub enum Opening {
    If,
    While,
    For,
}

/// What was read of the innermost frame.
#[derive(Drop)]
pub enum At {
    /// whole statements
    Statement,
    /// nothing: an operand has to come
    Begin,
    /// an operand, and how many calls and member accesses its chain has
    Operand(Expr, usize),
    /// a value with `++` or `--` behind it
    Updated(Expr),
    /// a value that no operator follows
    Whole(Expr),
    /// the name `async`
    Async(Name),
    /// `(` or `async(`, and names that each have a comma
    CoverOpen(Cover, Seq<Name>),
    /// .. and one more name
    CoverName(Cover, Seq<Name>, Name),
    /// .. and `)`; whether there was no comma
    Covered(Cover, Seq<Name>, bool),
    /// the parameters of an arrow
    Arrow(bool, Seq<Name>),
    /// .. and `=>`
    ArrowBody(bool, Seq<Name>),
    /// `new`
    NewName,
    /// `new name`
    NewOpen(Name),
    /// an operand, its accesses, and `.`
    MemberName(Expr, usize),
    /// `(`, and arguments that each have a comma
    NextArgument(Callee, Seq<Expr>),
    /// `[`, and items that each have a comma
    NextElement(Seq<Expr>),
    /// `{`, and members that each have a comma
    Key(Seq<Property>),
    /// .. and a name
    NameKey(Seq<Property>, Name),
    /// .. and another key
    OtherKey(Seq<Property>, Key),
    /// .. and the name `async`
    AsyncKey(Seq<Property>, Name),
    /// .. `async` and a key
    AsyncMethod(Seq<Property>, Key),
    /// `{`, and members, the last one a method
    PropertyEnd(Seq<Property>),
    /// `function`, as a declaration or not, and whether `async` stands before it
    FunctionName(bool, bool),
    /// a function before its `(`
    ParametersOpen(Head),
    /// `(`, and parameters that each have a comma
    Parameters(Head, Seq<Name>),
    /// .. and one more
    ParameterRead(Head, Seq<Name>, Name),
    /// a function before its `{`
    BodyOpen(Head, Seq<Name>),
    /// `let` or `const`, and declarations that each have a comma
    DeclaredName(Declared),
    /// .. and a name
    NameDeclared(Declared, Name),
    /// `if`, `while` or `for`
    Opening(Opening),
    /// `for (`
    ForHead,
    /// `for (begin;`
    ForTest(ForBegin),
    /// `for (begin; test;`
    ForUpdate(ForBegin, Option<Expr>),
    /// `if (test) yes`
    AfterThen(Expr, Stmt),
    /// `break` or `continue`
    Jump(Stmt),
    /// `return`, with its place
    Return(usize),
    Throw,
    /// `try`
    TryOpen,
    /// `try {}`
    AfterTry(Seq<Stmt>),
    /// `try {} catch`
    CatchOpen(Seq<Stmt>),
    /// `try {} catch (`
    CatchName(Seq<Stmt>),
    /// `try {} catch (name`
    CatchClose(Seq<Stmt>, Name),
    /// `try {} catch (name)`
    CatchBody(Seq<Stmt>, Name),
    /// `try {} catch {}`
    AfterCatch(Seq<Stmt>, Catch),
    /// `finally`
    FinallyOpen(Seq<Stmt>, Option<Catch>),
    /// `export`
    ExportDefault,
    /// `export default`
    ExportObject,
    /// `export default {}`
    AfterExport,
}

/// What stands round the place that is read: the items before, whether `export default` is among
/// them, and what is open.
#[derive(Drop)]
pub struct Outer {
    pub items: Seq<Item>,
    pub exported: bool,
    pub frames: Stack<Open>,
}

/// What was read.
#[derive(Drop)]
pub struct State {
    pub outer: Outer,
    pub at: At,
}

/// Where an operand stands.
#[derive(Clone, Copy)]
pub enum Position {
    /// an assignment or an arrow may stand there
    Whole,
    /// behind an operator
    Operand,
    /// behind `++` or `--`
    Target,
}

/// Operators that are not mixed (ECMA-262, section 13.13).
#[derive(Clone, Copy)]
pub enum Logic {
    Coalescing,
    AndOr,
    Other,
}

/// What to ask for the word of a token that is refused.
#[derive(Clone, Copy)]
pub struct Asked {
    /// the spot of the token before, where that one can have the word
    pub before: Option<Spot>,
    /// the spot of the token, if it is one
    pub here: Option<Spot>,
    /// an automatic end may stand before it
    pub ended: bool,
}

/// Why a token is refused.
#[derive(Clone, Copy)]
pub enum Refusal {
    /// no continuation allows it
    Token(Asked),
    /// .. and it has no word
    Plain,
    /// it opens one construct too many
    Nesting,
    /// the token before does
    NestingBefore,
}

/// Why a step was not made.
#[derive(Clone, Copy)]
pub enum StepEnd {
    Refused(Refusal),
    NoMemory,
}

impl From<NoMemory> for StepEnd {
    ghost use Rattle.std.specs.Prelude.{◌≡◌};
    ghost use Rattle.js_parse_core.specs.declared.machine.StepEnd.TheVariants as ends;

    ghost from_gives = { λ _ e. e ≡ ends.NoMemory };

    fn from(_error: NoMemory) -> StepEnd {
        StepEnd::NoMemory
    }
}
