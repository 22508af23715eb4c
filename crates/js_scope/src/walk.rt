ghost use Rattle.std.specs.Prelude.{◌≡◌, ◌≤◌, ◌<◌, ◌+◌, [], ◌∷◌, map, OnOk};
ghost use Rattle.js_scope.specs.Early as early;
ghost use Rattle.js_tree.specs.Weight as weight;
ghost use Rattle.js_scope.specs.Splits.{SplitsItems};
ghost use Rattle.js_scope.specs.Verdict.{IsSplit, Goes, Comes, answered, piece_weight, top_scope, total, verdict};
ghost use Rattle.js_scope.specs.Walks.{verdict_behind, verdict_from, verdict_of, verdict_outside, verdict_within};

use crate::fault::EarlyEnd;
use crate::lists::{
    split_declarations, split_exprs, split_names, split_properties, split_stmts, split_template,
};
use crate::scope::Scope;
use crate::split::{put, split_expr};
use crate::stmts::split_stmt;
use crate::task::{Piece, ScopeKind, Task};
use js_tree::Item;
use std::alloc::Global;
use wd_base::{NoMemory, Stack};

/// A walk through a script: the scope in which it stands, those around it, and what it has to do.
#[derive(Drop)]
struct Walk<'a> {
    scope: Scope<'a>,
    outer: Stack<Scope<'a>>,
    tasks: Stack<Task<'a>>,
}

/// Enters a scope.
fn enter<'a>(alloc: Global, walk: &mut Walk<'a>, how: ScopeKind) -> Result<(), EarlyEnd>
    ensures fault { Goes (verdict_within how walk.old) (verdict_of walk.new) result }
    ensures tasks { walk.new.tasks ≡ walk.old.tasks }
{
    let inner = walk.scope.entered(alloc, how);
    let around = std::mem::replace(&mut walk.scope, inner);
    match walk.outer.push(around) {
        Ok(()) => Ok(()),
        Err(NoMemory) => Err(EarlyEnd::NoMemory),
    }
}

/// Leaves a scope.
fn go_out<'a>(walk: &mut Walk<'a>)
    ensures fault { verdict_outside walk.old ≡ verdict_of walk.new }
    ensures tasks { walk.new.tasks ≡ walk.old.tasks }
{
    if let Some(scope) = walk.outer.pop() {
        walk.scope = scope;
    }
}

/// Goes through a piece.
#[tactic(auto, using(crate::proofs::WalkLaws::goes))]
fn go_through<'a>(walk: &mut Walk<'a>, piece: Piece<'a>) -> Result<(), EarlyEnd>
    ensures fault { Goes (verdict_behind piece.entry walk.old) (verdict_of walk.new) result }
    ensures weight { OnOk result (total walk.new.tasks ≤ piece_weight piece.entry + total walk.old.tasks) }
{
    match piece {
        Piece::Declares(name) => walk.scope.declare(name),
        Piece::Word(word) => walk.scope.check(word),
        Piece::Names(names) => grown(split_names(&mut walk.tasks, names)),
        Piece::Expr(expr) => grown(split_expr(&mut walk.tasks, expr)),
        Piece::Exprs(exprs) => grown(split_exprs(&mut walk.tasks, exprs)),
        Piece::TemplateItems(items) => grown(split_template(&mut walk.tasks, items)),
        Piece::Properties(properties) => grown(split_properties(&mut walk.tasks, properties)),
        Piece::Declarations(declarations) => {
            grown(split_declarations(&mut walk.tasks, declarations))
        }
        Piece::Stmt(stmt) => grown(split_stmt(&mut walk.tasks, stmt)),
        Piece::Stmts(stmts) => grown(split_stmts(&mut walk.tasks, stmts)),
    }
}

/// An answer of the tasks as an answer of the walk.
fn grown(answer: Result<(), NoMemory>) -> Result<(), EarlyEnd>
    ensures { result ≡ answered answer }
{
    match answer {
        Ok(()) => Ok(()),
        Err(NoMemory) => Err(EarlyEnd::NoMemory),
    }
}

/// Does one task.
fn step<'a>(alloc: Global, walk: &mut Walk<'a>, task: Task<'a>) -> Result<(), EarlyEnd>
    ensures fault { Goes (verdict_from task.entry walk.old) (verdict_of walk.new) result }
    ensures weight { OnOk result (total walk.new.tasks < total (task.entry ∷ walk.old.tasks)) }
{
    match task {
        Task::Enter(how) => enter(alloc, walk, how),
        Task::Leave => {
            go_out(walk);
            Ok(())
        }
        Task::Piece(piece) => go_through(walk, piece),
    }
}

/// Puts an item on the tasks.
fn put_item<'a>(tasks: &mut Stack<Task<'a>>, item: &'a Item) -> Result<(), NoMemory>
    ensures { OnOk result (IsSplit tasks.old (early.of_item item.now) (1 + weight.of_item item.now) tasks.new) }
{
    match item {
        Item::Stmt(stmt) => put(tasks, Piece::Stmt(stmt)),
        Item::Export(properties) => put(tasks, Piece::Properties(properties.as_slice())),
    }
}

/// Puts the items of a script on the tasks.
fn put_items<'a>(tasks: &mut Stack<Task<'a>>, items: &'a [Item]) -> Result<(), NoMemory>
    ensures { OnOk result (SplitsItems tasks.old items.now tasks.new) }
{
    let mut left = items.len();
    while left > 0 {
        left -= 1;
        put_item(tasks, &items[left])?;
    }
    Ok(())
}

/// Does all tasks.
fn run<'a>(alloc: Global, walk: &mut Walk<'a>) -> Result<(), EarlyEnd>
    ensures { Comes (verdict_of walk.old) result }
{
    while let Some(task) = walk.tasks.pop() {
        step(alloc, walk, task)?;
    }
    Ok(())
}

/// Does all tasks, from a script's top level.
fn run_from_top<'a>(alloc: Global, tasks: Stack<Task<'a>>) -> Result<(), EarlyEnd>
    ensures { Comes (verdict tasks.entry top_scope []) result }
{
    let mut walk = Walk {
        scope: Scope::top(alloc),
        outer: Stack::new(alloc),
        tasks,
    };
    run(alloc, &mut walk)
}

/// The first early fault of a script, as the error.
#[tactic(auto, using(crate::proofs::WalkLaws::first_of_walk))]
pub(crate) fn first_fault(alloc: Global, items: &[Item]) -> Result<(), EarlyEnd>
    ensures { early.IsFirst (early.early_faults items.now) result }
{
    let mut tasks = Stack::new(alloc);
    match put_items(&mut tasks, items) {
        Ok(()) => run_from_top(alloc, tasks),
        Err(NoMemory) => Err(EarlyEnd::NoMemory),
    }
}
