use sqlite_items::Boxed;
use wd_base::{Seq, Units};

/// A name, and the place of its first unit. Places count UTF-16 units from the script's begin.
#[derive(Debug, Drop)]
pub struct Name {
    pub place: usize,
    pub units: Units,
}

/// The operators between two operands (ECMA-262, sections 13.7 to 13.13).
#[derive(Clone, Copy, Debug, PartialEq, Eq)]
pub enum BinaryOp {
    /// `??`
    Coalesce,
    /// `||`
    Or,
    /// `&&`
    And,
    /// `===`
    Identical,
    /// `!==`
    NotIdentical,
    /// `<`
    Less,
    /// `<=`
    LessEqual,
    /// `>`
    Greater,
    /// `>=`
    GreaterEqual,
    /// `+`
    Add,
    /// `-`
    Subtract,
    /// `*`
    Multiply,
    /// `/`
    Divide,
    /// `%`
    Remainder,
}

/// The operators before an operand (section 13.5), but `await` and those that write.
#[derive(Clone, Copy, Debug, PartialEq, Eq)]
pub enum UnaryOp {
    /// `!`
    Not,
    /// `-`
    Negate,
    /// `typeof`
    TypeOf,
}

/// `++` or `--` (section 13.4).
#[derive(Clone, Copy, Debug, PartialEq, Eq)]
pub enum UpdateOp {
    Increment,
    Decrement,
}

/// Where `++` or `--` stands: before its target it gives the new number, behind it the old one.
#[derive(Clone, Copy, Debug, PartialEq, Eq)]
pub enum UpdateSide {
    Before,
    Behind,
}

/// The operators that write (section 13.15).
#[derive(Clone, Copy, Debug, PartialEq, Eq)]
pub enum AssignOp {
    /// `=`
    Set,
    /// `+=`
    Add,
    /// `-=`
    Subtract,
}

/// `let` or `const`.
#[derive(Clone, Copy, Debug, PartialEq, Eq)]
pub enum DeclareKind {
    Let,
    Const,
}

/// What can be written to: a name or a member.
#[derive(Debug, Drop)]
#[cycle(tree)]
pub enum Target {
    /// a name
    Variable(Name),
    /// `object.name`
    Field(Boxed<Expr>, Name),
    /// `object[key]`
    Item(Boxed<Expr>, Boxed<Expr>),
}

/// A key of an object literal.
#[derive(Debug, Drop)]
pub enum Key {
    /// a name or a reserved word
    Name(Name),
    /// the units that a string stands for
    Text(Units),
    Number(u64),
}

/// A member of an object literal (section 13.2.5).
#[derive(Debug, Drop)]
#[cycle(tree)]
pub enum Property {
    /// `key: value`
    Pair(Key, Expr),
    /// `name`
    Short(Name),
    /// `key(parameters) {}` and `async key(parameters) {}`
    Method(Key, Function),
}

/// What a function or a method runs: whether it is `async`, its parameters and its body.
#[derive(Debug, Drop)]
#[cycle(tree)]
pub struct Function {
    pub is_async: bool,
    pub parameters: Seq<Name>,
    pub body: Seq<Stmt>,
}

/// What stands behind `=>`.
#[derive(Debug, Drop)]
#[cycle(tree)]
pub enum ArrowBody {
    /// the statements between braces
    Statements(Seq<Stmt>),
    /// an expression, whose value is returned
    Value(Boxed<Expr>),
}

/// A part of a template with what follows it: the units that it stands for, and the expression
/// behind it.
#[derive(Debug, Drop)]
#[cycle(tree)]
pub struct TemplateItem {
    pub units: Units,
    pub value: Expr,
}

/// An expression.
#[derive(Debug, Drop)]
#[cycle(tree)]
pub enum Expr {
    Name(Name),
    Number(u64),
    /// the units that a string stands for
    Text(Units),
    True,
    False,
    Null,
    This,
    /// `` `a${b}c` ``: the parts with an expression behind them, and the last part
    Template(Seq<TemplateItem>, Units),
    Array(Seq<Expr>),
    Object(Seq<Property>),
    /// `function name(parameters) {}`, whose name may be missing
    Function(Option<Name>, Function),
    /// `(parameters) => body`
    Arrow {
        is_async: bool,
        parameters: Seq<Name>,
        body: ArrowBody,
    },
    /// `(expression)`
    Group(Boxed<Expr>),
    Unary(UnaryOp, Boxed<Expr>),
    /// `await value`, with the place of the word
    Await(usize, Boxed<Expr>),
    Update(UpdateSide, UpdateOp, Target),
    Binary(BinaryOp, Boxed<Expr>, Boxed<Expr>),
    /// `test ? yes : no`
    Conditional(Boxed<Expr>, Boxed<Expr>, Boxed<Expr>),
    Assign(AssignOp, Target, Boxed<Expr>),
    /// `callee(arguments)`
    Call(Boxed<Expr>, Seq<Expr>),
    /// `new Name(arguments)`
    New(Name, Seq<Expr>),
    /// `object.name`
    Member(Boxed<Expr>, Name),
    /// `object[key]`
    Index(Boxed<Expr>, Boxed<Expr>),
}

/// A declared name, with its value where it has one.
#[derive(Debug, Drop)]
#[cycle(tree)]
pub struct Declaration {
    pub name: Name,
    pub value: Option<Expr>,
}

/// What a `for` begins with.
#[derive(Debug, Drop)]
#[cycle(tree)]
pub enum ForBegin {
    Nothing,
    Declarations(DeclareKind, Seq<Declaration>),
    Start(Expr),
}

/// The part of a `try` for what was thrown: its name, where it has one, and its block.
#[derive(Debug, Drop)]
#[cycle(tree)]
pub struct Catch {
    pub name: Option<Name>,
    pub body: Seq<Stmt>,
}

/// A statement or a declaration (section 14).
#[derive(Debug, Drop)]
#[cycle(tree)]
pub enum Stmt {
    Declare(DeclareKind, Seq<Declaration>),
    DeclareFunction(Name, Function),
    Block(Seq<Stmt>),
    /// `if (test) yes else no`
    If(Expr, Boxed<Stmt>, Option<Boxed<Stmt>>),
    /// `for (begin; test; update) body`
    For {
        begin: ForBegin,
        test: Option<Expr>,
        update: Option<Expr>,
        body: Boxed<Stmt>,
    },
    /// `for (const name of value) body`
    ForOf {
        kind: DeclareKind,
        name: Name,
        value: Expr,
        body: Boxed<Stmt>,
    },
    While(Expr, Boxed<Stmt>),
    /// with the place of the word
    Break(usize),
    /// with the place of the word
    Continue(usize),
    /// with the place of the word
    Return(usize, Option<Expr>),
    Throw(Expr),
    /// `try` with `catch` or `finally` or both
    Try {
        body: Seq<Stmt>,
        catch: Option<Catch>,
        finally: Option<Seq<Stmt>>,
    },
    Empty,
    Expr(Expr),
}

/// An item at the top level of a script.
#[derive(Debug, Drop)]
pub enum Item {
    Stmt(Stmt),
    /// `export default {}`
    Export(Seq<Property>),
}

/// A script: its items, in order.
pub type Tree = Seq<Item>;
