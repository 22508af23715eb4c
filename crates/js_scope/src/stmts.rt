ghost use Rattle.std.specs.Prelude.{◌+◌, ◌∷◌, ◌++◌, map, option_map, OnOk};
ghost use Rattle.js_scope.specs.Early as early;
ghost use Rattle.js_tree.specs.Weight as weight;
ghost use Rattle.js_scope.specs.Splits.{SplitsBody, SplitsCatch, SplitsElse, SplitsFinally};
ghost use Rattle.js_scope.specs.Splits.{SplitsFor, SplitsForOf, SplitsIf, SplitsScope, SplitsTry};
ghost use Rattle.js_scope.specs.Verdict.{IsSplit};

use crate::fault::EarlyKind;
use crate::lists::put_optional;
use crate::split::{put, put_function, put_word};
use crate::task::{Piece, ScopeKind, Task};
use js_tree::{Catch, Expr, ForBegin, Name, Stmt};
use sqlite_items::Boxed;
use wd_base::{NoMemory, Seq, Stack};

/// Puts statements on the tasks that stand in a scope of their own.
#[tactic(auto, using(crate::proofs::Splits::on_block))]
fn put_block<'a>(
    tasks: &mut Stack<Task<'a>>,
    how: ScopeKind,
    stmts: &'a [Stmt],
) -> Result<(), NoMemory>
    ensures { OnOk result (SplitsScope tasks.old how stmts.now tasks.new) }
{
    tasks.push(Task::Leave)?;
    put(tasks, Piece::Stmts(stmts))?;
    tasks.push(Task::Enter(how))
}

/// Puts a statement on the tasks that stands in a scope of its own.
#[tactic(auto, using(crate::proofs::Splits::on_body))]
fn put_body<'a>(tasks: &mut Stack<Task<'a>>, how: ScopeKind, stmt: &'a Stmt) -> Result<(), NoMemory>
    ensures { OnOk result (SplitsBody tasks.old how stmt.now tasks.new) }
{
    tasks.push(Task::Leave)?;
    put(tasks, Piece::Stmt(stmt))?;
    tasks.push(Task::Enter(how))
}

/// Puts what stands behind `else` on the tasks.
#[tactic(auto, using(crate::proofs::StmtSplits::elses))]
fn put_else<'a>(tasks: &mut Stack<Task<'a>>, stmt: &'a Option<Boxed<Stmt>>) -> Result<(), NoMemory>
    ensures { OnOk result (SplitsElse tasks.old stmt.now tasks.new) }
{
    match stmt {
        None => Ok(()),
        Some(stmt) => put_body(tasks, ScopeKind::Block, stmt.get()),
    }
}

/// Puts what a `for` begins with on the tasks.
#[tactic(auto, using(crate::proofs::StmtSplits::begins))]
fn put_begin<'a>(tasks: &mut Stack<Task<'a>>, begin: &'a ForBegin) -> Result<(), NoMemory>
    ensures { OnOk result (IsSplit tasks.old (early.of_begin begin.now) (weight.of_begin begin.now) tasks.new) }
{
    match begin {
        ForBegin::Nothing => Ok(()),
        ForBegin::Declarations(_, declarations) => {
            put(tasks, Piece::Declarations(declarations.as_slice()))
        }
        ForBegin::Start(expr) => put(tasks, Piece::Expr(expr)),
    }
}

/// Puts a `for` on the tasks.
#[tactic(auto, using(crate::proofs::StmtSplits::on_for))]
fn put_for<'a>(
    tasks: &mut Stack<Task<'a>>,
    begin: &'a ForBegin,
    test: &'a Option<Expr>,
    update: &'a Option<Expr>,
    body: &'a Stmt,
) -> Result<(), NoMemory>
    ensures { OnOk result (SplitsFor tasks.old begin.now test.now update.now body.now tasks.new) }
{
    tasks.push(Task::Leave)?;
    put_body(tasks, ScopeKind::Loop, body)?;
    put_optional(tasks, update)?;
    put_optional(tasks, test)?;
    put_begin(tasks, begin)?;
    tasks.push(Task::Enter(ScopeKind::Block))
}

/// Puts a `for` of `of` on the tasks.
#[tactic(auto, using(crate::proofs::StmtSplits::on_for_of))]
fn put_for_of<'a>(
    tasks: &mut Stack<Task<'a>>,
    name: &'a Name,
    value: &'a Expr,
    body: &'a Stmt,
) -> Result<(), NoMemory>
    ensures { OnOk result (SplitsForOf tasks.old name.now value.now body.now tasks.new) }
{
    tasks.push(Task::Leave)?;
    put_body(tasks, ScopeKind::Loop, body)?;
    put(tasks, Piece::Expr(value))?;
    put(tasks, Piece::Declares(name))?;
    tasks.push(Task::Enter(ScopeKind::Block))
}

/// Puts a declared name on the tasks, where there is one.
#[tactic(auto, using(crate::proofs::StmtSplits::names))]
fn put_name<'a>(tasks: &mut Stack<Task<'a>>, name: &'a Option<Name>) -> Result<(), NoMemory>
    ensures { OnOk result (IsSplit tasks.old (early.named name.now) 1 tasks.new) }
{
    match name {
        None => Ok(()),
        Some(name) => put(tasks, Piece::Declares(name)),
    }
}

/// Puts a `catch` on the tasks.
#[tactic(auto, using(crate::proofs::StmtSplits::on_catch))]
fn put_caught<'a>(tasks: &mut Stack<Task<'a>>, catch: &'a Catch) -> Result<(), NoMemory>
    ensures { OnOk result (IsSplit tasks.old (early.of_catch catch.now) (weight.of_catch catch.now) tasks.new) }
{
    tasks.push(Task::Leave)?;
    put(tasks, Piece::Stmts(catch.body.as_slice()))?;
    put_name(tasks, &catch.name)?;
    tasks.push(Task::Enter(ScopeKind::Block))
}

/// Puts a `catch` on the tasks, where there is one.
#[tactic(auto, using(crate::proofs::StmtSplits::catches))]
fn put_catch<'a>(tasks: &mut Stack<Task<'a>>, catch: &'a Option<Catch>) -> Result<(), NoMemory>
    ensures { OnOk result (SplitsCatch tasks.old catch.now tasks.new) }
{
    match catch {
        None => Ok(()),
        Some(catch) => put_caught(tasks, catch),
    }
}

/// Puts the block of a `finally` on the tasks, where there is one.
#[tactic(auto, using(crate::proofs::StmtSplits::finallies))]
fn put_finally<'a>(
    tasks: &mut Stack<Task<'a>>,
    stmts: &'a Option<Seq<Stmt>>,
) -> Result<(), NoMemory>
    ensures { OnOk result (SplitsFinally tasks.old stmts.now tasks.new) }
{
    match stmts {
        None => Ok(()),
        Some(stmts) => put_block(tasks, ScopeKind::Block, stmts.as_slice()),
    }
}

/// Puts an `if` on the tasks.
#[tactic(auto, using(crate::proofs::StmtSplits::on_if))]
fn put_if<'a>(
    tasks: &mut Stack<Task<'a>>,
    test: &'a Expr,
    yes: &'a Stmt,
    no: &'a Option<Boxed<Stmt>>,
) -> Result<(), NoMemory>
    ensures { OnOk result (SplitsIf tasks.old test.now yes.now no.now tasks.new) }
{
    put_else(tasks, no)?;
    put_body(tasks, ScopeKind::Block, yes)?;
    put(tasks, Piece::Expr(test))
}

/// Puts a `try` on the tasks.
#[tactic(auto, using(crate::proofs::StmtSplits::on_try))]
fn put_try<'a>(
    tasks: &mut Stack<Task<'a>>,
    body: &'a [Stmt],
    catch: &'a Option<Catch>,
    finally: &'a Option<Seq<Stmt>>,
) -> Result<(), NoMemory>
    ensures { OnOk result (SplitsTry tasks.old body.now catch.now finally.now tasks.new) }
{
    put_finally(tasks, finally)?;
    put_catch(tasks, catch)?;
    put_block(tasks, ScopeKind::Block, body)
}

/// Puts the parts of a statement on the tasks.
#[tactic(auto, using(crate::proofs::StmtSplits::stmts))]
pub(crate) fn split_stmt<'a>(tasks: &mut Stack<Task<'a>>, stmt: &'a Stmt) -> Result<(), NoMemory>
    ensures { OnOk result (IsSplit tasks.old (early.of_stmt stmt.now) (weight.of_stmt stmt.now) tasks.new) }
{
    match stmt {
        Stmt::Declare(_, declarations) => {
            put(tasks, Piece::Declarations(declarations.as_slice()))
        }
        Stmt::DeclareFunction(name, function) => {
            put_function(tasks, function)?;
            put(tasks, Piece::Declares(name))
        }
        Stmt::Block(stmts) => put_block(tasks, ScopeKind::Block, stmts.as_slice()),
        Stmt::If(test, yes, no) => put_if(tasks, test, yes.get(), no),
        Stmt::For {
            begin,
            test,
            update,
            body,
        } => put_for(tasks, begin, test, update, body.get()),
        Stmt::ForOf {
            name,
            value,
            body,
            ..
        } => put_for_of(tasks, name, value, body.get()),
        Stmt::While(test, body) => {
            put_body(tasks, ScopeKind::Loop, body.get())?;
            put(tasks, Piece::Expr(test))
        }
        Stmt::Break(place) => put_word(tasks, EarlyKind::BreakOutside, *place),
        Stmt::Continue(place) => put_word(tasks, EarlyKind::BreakOutside, *place),
        Stmt::Return(place, value) => {
            put_optional(tasks, value)?;
            put_word(tasks, EarlyKind::ReturnOutside, *place)
        }
        Stmt::Throw(value) => put(tasks, Piece::Expr(value)),
        Stmt::Try {
            body,
            catch,
            finally,
        } => put_try(tasks, body.as_slice(), catch, finally),
        Stmt::Empty => Ok(()),
        Stmt::Expr(expr) => put(tasks, Piece::Expr(expr)),
    }
}
