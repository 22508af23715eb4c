ghost use Rattle.std.specs.Prelude.{◌+◌, [], ◌∷◌, ◌++◌, OnOk};
ghost use Rattle.js_scope.specs.Early as early;
ghost use Rattle.js_tree.specs.Weight as weight;
ghost use Rattle.js_scope.specs.Splits.{SplitsArrow, SplitsFunction, SplitsTwo};
ghost use Rattle.js_scope.specs.Verdict.{IsSplit, piece_marks, piece_weight};

use crate::fault::{EarlyFault, EarlyKind};
use crate::task::{Piece, ScopeKind, Task};
use js_tree::{ArrowBody, Expr, Function, Name, Target};
use wd_base::{NoMemory, Stack};

/// Puts a piece on the tasks.
#[tactic(auto, using(crate::proofs::Splits::on_piece))]
pub(crate) fn put<'a>(tasks: &mut Stack<Task<'a>>, piece: Piece<'a>) -> Result<(), NoMemory>
    ensures { OnOk result (IsSplit tasks.old (piece_marks piece.entry) (1 + piece_weight piece.entry) tasks.new) }
{
    tasks.push(Task::Piece(piece))
}

/// Puts a word on the tasks that is a fault unless something around it allows it.
pub(crate) fn put_word<'a>(
    tasks: &mut Stack<Task<'a>>,
    kind: EarlyKind,
    place: usize,
) -> Result<(), NoMemory>
    ensures { OnOk result (IsSplit tasks.old (early.word kind place ∷ []) 1 tasks.new) }
{
    put(tasks, Piece::Word(EarlyFault { kind, place }))
}

/// Puts two expressions on the tasks, the first one on top.
#[tactic(auto, using(crate::proofs::Splits::on_two))]
fn put_two<'a>(
    tasks: &mut Stack<Task<'a>>,
    first: &'a Expr,
    second: &'a Expr,
) -> Result<(), NoMemory>
    ensures { OnOk result (SplitsTwo tasks.old first.now second.now tasks.new) }
{
    put(tasks, Piece::Expr(second))?;
    put(tasks, Piece::Expr(first))
}

/// Puts a target on the tasks.
#[tactic(auto, using(crate::proofs::Splits::targets))]
fn put_target<'a>(tasks: &mut Stack<Task<'a>>, target: &'a Target) -> Result<(), NoMemory>
    ensures { OnOk result (IsSplit tasks.old (early.of_target target.now) (weight.of_target target.now) tasks.new) }
{
    match target {
        Target::Variable(_) => Ok(()),
        Target::Field(object, _) => put(tasks, Piece::Expr(object.get())),
        Target::Item(object, key) => put_two(tasks, object.get(), key.get()),
    }
}

/// Puts a function on the tasks.
#[tactic(auto, using(crate::proofs::Splits::on_function))]
pub(crate) fn put_function<'a>(
    tasks: &mut Stack<Task<'a>>,
    function: &'a Function,
) -> Result<(), NoMemory>
    ensures { OnOk result (SplitsFunction tasks.old function.now tasks.new) }
{
    tasks.push(Task::Leave)?;
    put(tasks, Piece::Stmts(function.body.as_slice()))?;
    put(tasks, Piece::Names(function.parameters.as_slice()))?;
    tasks.push(Task::Enter(ScopeKind::Function(function.is_async)))
}

/// Puts the body of an arrow on the tasks.
#[tactic(auto, using(crate::proofs::Splits::arrow_bodies))]
fn put_arrow_body<'a>(tasks: &mut Stack<Task<'a>>, body: &'a ArrowBody) -> Result<(), NoMemory>
    ensures { OnOk result (IsSplit tasks.old (early.of_arrow body.now) (weight.of_arrow body.now) tasks.new) }
{
    match body {
        ArrowBody::Statements(stmts) => put(tasks, Piece::Stmts(stmts.as_slice())),
        ArrowBody::Value(value) => put(tasks, Piece::Expr(value.get())),
    }
}

/// Puts an arrow on the tasks.
fn put_arrow<'a>(
    tasks: &mut Stack<Task<'a>>,
    is_async: bool,
    parameters: &'a [Name],
    body: &'a ArrowBody,
) -> Result<(), NoMemory>
    ensures { OnOk result (SplitsArrow tasks.old is_async parameters.now body.now tasks.new) }
{
    tasks.push(Task::Leave)?;
    put_arrow_body(tasks, body)?;
    put(tasks, Piece::Names(parameters))?;
    tasks.push(Task::Enter(ScopeKind::Function(is_async)))
}

/// Puts the parts of an expression on the tasks.
#[tactic(auto, using(crate::proofs::Splits::exprs))]
pub(crate) fn split_expr<'a>(tasks: &mut Stack<Task<'a>>, expr: &'a Expr) -> Result<(), NoMemory>
    ensures { OnOk result (IsSplit tasks.old (early.of_expr expr.now) (weight.of_expr expr.now) tasks.new) }
{
    match expr {
        Expr::Name(_) => Ok(()),
        Expr::Number(_) => Ok(()),
        Expr::Text(_) => Ok(()),
        Expr::True => Ok(()),
        Expr::False => Ok(()),
        Expr::Null => Ok(()),
        Expr::This => Ok(()),
        Expr::Template(items, _) => put(tasks, Piece::TemplateItems(items.as_slice())),
        Expr::Array(items) => put(tasks, Piece::Exprs(items.as_slice())),
        Expr::Object(properties) => put(tasks, Piece::Properties(properties.as_slice())),
        Expr::Function(_, function) => put_function(tasks, function),
        Expr::Arrow {
            is_async,
            parameters,
            body,
        } => put_arrow(tasks, *is_async, parameters.as_slice(), body),
        Expr::Group(inner) => put(tasks, Piece::Expr(inner.get())),
        Expr::Unary(_, value) => put(tasks, Piece::Expr(value.get())),
        Expr::Await(place, value) => {
            put(tasks, Piece::Expr(value.get()))?;
            put_word(tasks, EarlyKind::AwaitOutside, *place)
        }
        Expr::Update(_, _, target) => put_target(tasks, target),
        Expr::Binary(_, left, right) => put_two(tasks, left.get(), right.get()),
        Expr::Conditional(test, yes, no) => {
            put(tasks, Piece::Expr(no.get()))?;
            put_two(tasks, test.get(), yes.get())
        }
        Expr::Assign(_, target, value) => {
            put(tasks, Piece::Expr(value.get()))?;
            put_target(tasks, target)
        }
        Expr::Call(callee, arguments) => {
            put(tasks, Piece::Exprs(arguments.as_slice()))?;
            put(tasks, Piece::Expr(callee.get()))
        }
        Expr::New(_, arguments) => put(tasks, Piece::Exprs(arguments.as_slice())),
        Expr::Member(object, _) => put(tasks, Piece::Expr(object.get())),
        Expr::Index(object, key) => put_two(tasks, object.get(), key.get()),
    }
}
