ghost use Rattle.std.specs.Prelude.{◌≡◌, ◌+◌, map, option_map, OnOk};
ghost use Rattle.js_grammar.specs.Grammar as grammar;
ghost use Rattle.js_tree.specs.Weight as weight;
ghost use Rattle.js_tree.specs.declared.tree.Stmt.TheVariants as stmts;
ghost use Rattle.js_print.specs.Splits.{SplitsCatch, SplitsElse, SplitsFinally, SplitsStmt};
ghost use Rattle.js_print.specs.Walk.{IsSplit};

use crate::piece::Piece;
use crate::split::put;
use js_lex::{Punctuator, Reserved};
use js_tree::{Catch, Declaration, DeclareKind, Expr, ForBegin, Function, Name, Stmt};
use sqlite_items::Boxed;
use wd_base::{NoMemory, Seq, Stack};

fn declare_word(kind: DeclareKind) -> Reserved
    ensures { result ≡ grammar.declare_word kind }
{
    match kind {
        DeclareKind::Let => Reserved::Let,
        DeclareKind::Const => Reserved::Const,
    }
}

/// Puts what a `for` begins with on the tasks.
#[tactic(auto, using(crate::proofs::StmtSplits::on_nothing))]
pub(crate) fn split_begin<'a>(
    tasks: &mut Stack<Piece<'a>>,
    begin: &'a ForBegin,
) -> Result<(), NoMemory>
    ensures { OnOk result (IsSplit tasks.old (grammar.of_for begin.now) (weight.of_begin begin.now) tasks.new) }
{
    match begin {
        ForBegin::Nothing => Ok(()),
        ForBegin::Declarations(kind, declarations) => put(
            tasks,
            &[
                Piece::Word(declare_word(*kind)),
                Piece::Declarations(declarations.as_slice()),
            ],
        ),
        ForBegin::Start(expr) => put(tasks, &[Piece::Expr(expr)]),
    }
}

/// Puts an `else` on the tasks, where there is one.
#[tactic(auto, using(crate::proofs::ListSplits::ends))]
pub(crate) fn split_else<'a>(
    tasks: &mut Stack<Piece<'a>>,
    stmt: &'a Option<Boxed<Stmt>>,
) -> Result<(), NoMemory>
    ensures { OnOk result (SplitsElse tasks.old stmt.now tasks.new) }
{
    match stmt {
        None => Ok(()),
        Some(stmt) => put(
            tasks,
            &[Piece::Word(Reserved::Else), Piece::Stmt(stmt.get())],
        ),
    }
}

/// Puts a `catch` on the tasks, where there is one.
#[tactic(auto, using(crate::proofs::ListSplits::ends))]
pub(crate) fn split_catch<'a>(
    tasks: &mut Stack<Piece<'a>>,
    catch: &'a Option<Catch>,
) -> Result<(), NoMemory>
    ensures { OnOk result (SplitsCatch tasks.old catch.now tasks.new) }
{
    match catch {
        None => Ok(()),
        Some(catch) => put(
            tasks,
            &[
                Piece::Word(Reserved::Catch),
                Piece::CatchName(&catch.name),
                Piece::Sign(Punctuator::OpenBrace),
                Piece::Stmts(catch.body.as_slice()),
                Piece::Sign(Punctuator::CloseBrace),
            ],
        ),
    }
}

/// Puts a `finally` on the tasks, where there is one.
#[tactic(auto, using(crate::proofs::ListSplits::ends))]
pub(crate) fn split_finally<'a>(
    tasks: &mut Stack<Piece<'a>>,
    stmts: &'a Option<Seq<Stmt>>,
) -> Result<(), NoMemory>
    ensures { OnOk result (SplitsFinally tasks.old stmts.now tasks.new) }
{
    match stmts {
        None => Ok(()),
        Some(stmts) => put(
            tasks,
            &[
                Piece::Word(Reserved::Finally),
                Piece::Sign(Punctuator::OpenBrace),
                Piece::Stmts(stmts.as_slice()),
                Piece::Sign(Punctuator::CloseBrace),
            ],
        ),
    }
}

/// Puts declarations with their word on the tasks.
fn put_declare<'a>(
    tasks: &mut Stack<Piece<'a>>,
    kind: DeclareKind,
    declarations: &'a Seq<Declaration>,
) -> Result<(), NoMemory>
    ensures { OnOk result (SplitsStmt tasks.old (stmts.Declare kind declarations.now) tasks.new) }
{
    put(
        tasks,
        &[
            Piece::Word(declare_word(kind)),
            Piece::Declarations(declarations.as_slice()),
            Piece::Sign(Punctuator::Semicolon),
        ],
    )
}

/// Puts the declaration of a function on the tasks.
fn put_declare_function<'a>(
    tasks: &mut Stack<Piece<'a>>,
    name: &'a Name,
    function: &'a Function,
) -> Result<(), NoMemory>
    ensures { OnOk result (SplitsStmt tasks.old (stmts.DeclareFunction name.now function.now) tasks.new) }
{
    put(
        tasks,
        &[
            Piece::Async(function.is_async),
            Piece::Word(Reserved::Function),
            Piece::Name(name),
            Piece::Function(function),
        ],
    )
}

/// Puts a block on the tasks.
fn put_block<'a>(tasks: &mut Stack<Piece<'a>>, body: &'a Seq<Stmt>) -> Result<(), NoMemory>
    ensures { OnOk result (SplitsStmt tasks.old (stmts.Block body.now) tasks.new) }
{
    put(
        tasks,
        &[
            Piece::Sign(Punctuator::OpenBrace),
            Piece::Stmts(body.as_slice()),
            Piece::Sign(Punctuator::CloseBrace),
        ],
    )
}

/// Puts an `if` on the tasks.
fn put_if<'a>(
    tasks: &mut Stack<Piece<'a>>,
    test: &'a Expr,
    yes: &'a Boxed<Stmt>,
    no: &'a Option<Boxed<Stmt>>,
) -> Result<(), NoMemory>
    ensures { OnOk result (SplitsStmt tasks.old (stmts.If test.now yes.now no.now) tasks.new) }
{
    put(
        tasks,
        &[
            Piece::Word(Reserved::If),
            Piece::Sign(Punctuator::OpenParen),
            Piece::Expr(test),
            Piece::Sign(Punctuator::CloseParen),
            Piece::Stmt(yes.get()),
            Piece::Else(no),
        ],
    )
}

/// Puts a `for` with its three parts on the tasks.
fn put_for<'a>(
    tasks: &mut Stack<Piece<'a>>,
    begin: &'a ForBegin,
    test: &'a Option<Expr>,
    update: &'a Option<Expr>,
    body: &'a Boxed<Stmt>,
) -> Result<(), NoMemory>
    ensures { OnOk result (SplitsStmt tasks.old (stmts.For begin.now test.now update.now body.now) tasks.new) }
{
    put(
        tasks,
        &[
            Piece::Word(Reserved::For),
            Piece::Sign(Punctuator::OpenParen),
            Piece::ForBegin(begin),
            Piece::Sign(Punctuator::Semicolon),
            Piece::OptionalExpr(test),
            Piece::Sign(Punctuator::Semicolon),
            Piece::OptionalExpr(update),
            Piece::Sign(Punctuator::CloseParen),
            Piece::Stmt(body.get()),
        ],
    )
}

/// Puts a `for` along a value on the tasks.
fn put_for_of<'a>(
    tasks: &mut Stack<Piece<'a>>,
    kind: DeclareKind,
    name: &'a Name,
    value: &'a Expr,
    body: &'a Boxed<Stmt>,
) -> Result<(), NoMemory>
    ensures { OnOk result (SplitsStmt tasks.old (stmts.ForOf kind name.now value.now body.now) tasks.new) }
{
    put(
        tasks,
        &[
            Piece::Word(Reserved::For),
            Piece::Sign(Punctuator::OpenParen),
            Piece::Word(declare_word(kind)),
            Piece::Name(name),
            Piece::Plain(b"of"),
            Piece::Expr(value),
            Piece::Sign(Punctuator::CloseParen),
            Piece::Stmt(body.get()),
        ],
    )
}

/// Puts a `while` on the tasks.
fn put_while<'a>(
    tasks: &mut Stack<Piece<'a>>,
    test: &'a Expr,
    body: &'a Boxed<Stmt>,
) -> Result<(), NoMemory>
    ensures { OnOk result (SplitsStmt tasks.old (stmts.While test.now body.now) tasks.new) }
{
    put(
        tasks,
        &[
            Piece::Word(Reserved::While),
            Piece::Sign(Punctuator::OpenParen),
            Piece::Expr(test),
            Piece::Sign(Punctuator::CloseParen),
            Piece::Stmt(body.get()),
        ],
    )
}

/// Puts a `throw` on the tasks.
fn put_throw<'a>(tasks: &mut Stack<Piece<'a>>, value: &'a Expr) -> Result<(), NoMemory>
    ensures { OnOk result (SplitsStmt tasks.old (stmts.Throw value.now) tasks.new) }
{
    put(
        tasks,
        &[
            Piece::Word(Reserved::Throw),
            Piece::Expr(value),
            Piece::Sign(Punctuator::Semicolon),
        ],
    )
}

/// Puts a `try` on the tasks.
fn put_try<'a>(
    tasks: &mut Stack<Piece<'a>>,
    body: &'a Seq<Stmt>,
    catch: &'a Option<Catch>,
    finally: &'a Option<Seq<Stmt>>,
) -> Result<(), NoMemory>
    ensures { OnOk result (SplitsStmt tasks.old (stmts.Try body.now catch.now finally.now) tasks.new) }
{
    put(
        tasks,
        &[
            Piece::Word(Reserved::Try),
            Piece::Sign(Punctuator::OpenBrace),
            Piece::Stmts(body.as_slice()),
            Piece::Sign(Punctuator::CloseBrace),
            Piece::Catch(catch),
            Piece::Finally(finally),
        ],
    )
}

/// Puts the tokens and the parts of a statement on the tasks.
pub(crate) fn split_stmt<'a>(tasks: &mut Stack<Piece<'a>>, stmt: &'a Stmt) -> Result<(), NoMemory>
    ensures { OnOk result (IsSplit tasks.old ((grammar.of_stmt stmt.now).forms) (weight.of_stmt stmt.now) tasks.new) }
{
    match stmt {
        Stmt::Declare(kind, declarations) => put_declare(tasks, *kind, declarations),
        Stmt::DeclareFunction(name, function) => put_declare_function(tasks, name, function),
        Stmt::Block(stmts) => put_block(tasks, stmts),
        Stmt::If(test, yes, no) => put_if(tasks, test, yes, no),
        Stmt::For {
            begin,
            test,
            update,
            body,
        } => put_for(tasks, begin, test, update, body),
        Stmt::ForOf {
            kind,
            name,
            value,
            body,
        } => put_for_of(tasks, *kind, name, value, body),
        Stmt::While(test, body) => put_while(tasks, test, body),
        Stmt::Break(_) => put(
            tasks,
            &[
                Piece::Word(Reserved::Break),
                Piece::Sign(Punctuator::Semicolon),
            ],
        ),
        Stmt::Continue(_) => put(
            tasks,
            &[
                Piece::Word(Reserved::Continue),
                Piece::Sign(Punctuator::Semicolon),
            ],
        ),
        Stmt::Return(_, value) => put(
            tasks,
            &[
                Piece::Word(Reserved::Return),
                Piece::OptionalExpr(value),
                Piece::Sign(Punctuator::Semicolon),
            ],
        ),
        Stmt::Throw(value) => put_throw(tasks, value),
        Stmt::Try {
            body,
            catch,
            finally,
        } => put_try(tasks, body, catch, finally),
        Stmt::Empty => put(tasks, &[Piece::Sign(Punctuator::Semicolon)]),
        Stmt::Expr(expr) => put(
            tasks,
            &[Piece::Expr(expr), Piece::Sign(Punctuator::Semicolon)],
        ),
    }
}
