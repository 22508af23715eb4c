ghost use Rattle.std.specs.Prelude.{map, option_map, OnOk};
ghost use Rattle.js_scope.specs.Early as early;
ghost use Rattle.js_tree.specs.Weight as weight;
ghost use Rattle.js_scope.specs.Splits.{SplitsDeclaration, SplitsDeclarations, SplitsExprs};
ghost use Rattle.js_scope.specs.Splits.{SplitsOptionalExpr, SplitsProperties, SplitsProperty};
ghost use Rattle.js_scope.specs.Splits.{SplitsStmts, SplitsTemplate};
ghost use Rattle.js_scope.specs.Verdict.{IsSplit};

use crate::split::{put, put_function};
use crate::task::{Piece, Task};
use js_tree::{Declaration, Expr, Name, Property, Stmt, TemplateItem};
use wd_base::{NoMemory, Stack};

/// Puts the first name and the others on the tasks.
#[tactic(auto, using(crate::proofs::ListSplits::lists))]
pub(crate) fn split_names<'a>(
    tasks: &mut Stack<Task<'a>>,
    names: &'a [Name],
) -> Result<(), NoMemory>
    ensures { OnOk result (IsSplit tasks.old (early.declares names.now) (weight.names names.now) tasks.new) }
{
    match names {
        [] => Ok(()),
        [first, others @ ..] => {
            put(tasks, Piece::Names(others))?;
            put(tasks, Piece::Declares(first))
        }
    }
}

/// Puts the first expression and the others on the tasks.
#[tactic(auto, using(crate::proofs::ListSplits::lists))]
pub(crate) fn split_exprs<'a>(
    tasks: &mut Stack<Task<'a>>,
    exprs: &'a [Expr],
) -> Result<(), NoMemory>
    ensures { OnOk result (SplitsExprs tasks.old exprs.now tasks.new) }
{
    match exprs {
        [] => Ok(()),
        [first, others @ ..] => {
            put(tasks, Piece::Exprs(others))?;
            put(tasks, Piece::Expr(first))
        }
    }
}

/// Puts the first part of a template and the others on the tasks.
#[tactic(auto, using(crate::proofs::ListSplits::lists))]
pub(crate) fn split_template<'a>(
    tasks: &mut Stack<Task<'a>>,
    items: &'a [TemplateItem],
) -> Result<(), NoMemory>
    ensures { OnOk result (SplitsTemplate tasks.old items.now tasks.new) }
{
    match items {
        [] => Ok(()),
        [first, others @ ..] => {
            put(tasks, Piece::TemplateItems(others))?;
            put(tasks, Piece::Expr(&first.value))
        }
    }
}

/// Puts a member of an object literal on the tasks.
#[tactic(auto, using(crate::proofs::ListSplits::properties))]
fn put_property<'a>(tasks: &mut Stack<Task<'a>>, property: &'a Property) -> Result<(), NoMemory>
    ensures { OnOk result (SplitsProperty tasks.old property.now tasks.new) }
{
    match property {
        Property::Pair(_, value) => put(tasks, Piece::Expr(value)),
        Property::Short(_) => Ok(()),
        Property::Method(_, function) => put_function(tasks, function),
    }
}

/// Puts the first member of an object literal and the others on the tasks.
#[tactic(auto, using(crate::proofs::ListSplits::lists))]
pub(crate) fn split_properties<'a>(
    tasks: &mut Stack<Task<'a>>,
    properties: &'a [Property],
) -> Result<(), NoMemory>
    ensures { OnOk result (SplitsProperties tasks.old properties.now tasks.new) }
{
    match properties {
        [] => Ok(()),
        [first, others @ ..] => {
            put(tasks, Piece::Properties(others))?;
            put_property(tasks, first)
        }
    }
}

/// Puts an expression on the tasks, where there is one.
#[tactic(auto, using(crate::proofs::ListSplits::optionals))]
pub(crate) fn put_optional<'a>(
    tasks: &mut Stack<Task<'a>>,
    expr: &'a Option<Expr>,
) -> Result<(), NoMemory>
    ensures { OnOk result (SplitsOptionalExpr tasks.old expr.now tasks.new) }
{
    match expr {
        None => Ok(()),
        Some(expr) => put(tasks, Piece::Expr(expr)),
    }
}

/// Puts a declared name and its value on the tasks.
#[tactic(auto, using(crate::proofs::ListSplits::split_declaration))]
fn put_declaration<'a>(
    tasks: &mut Stack<Task<'a>>,
    declaration: &'a Declaration,
) -> Result<(), NoMemory>
    ensures { OnOk result (SplitsDeclaration tasks.old declaration.now tasks.new) }
{
    put_optional(tasks, &declaration.value)?;
    put(tasks, Piece::Declares(&declaration.name))
}

/// Puts the first declared name and the others on the tasks.
#[tactic(auto, using(crate::proofs::ListSplits::lists))]
pub(crate) fn split_declarations<'a>(
    tasks: &mut Stack<Task<'a>>,
    declarations: &'a [Declaration],
) -> Result<(), NoMemory>
    ensures { OnOk result (SplitsDeclarations tasks.old declarations.now tasks.new) }
{
    match declarations {
        [] => Ok(()),
        [first, others @ ..] => {
            put(tasks, Piece::Declarations(others))?;
            put_declaration(tasks, first)
        }
    }
}

/// Puts the first statement and the others on the tasks.
#[tactic(auto, using(crate::proofs::ListSplits::lists))]
pub(crate) fn split_stmts<'a>(
    tasks: &mut Stack<Task<'a>>,
    stmts: &'a [Stmt],
) -> Result<(), NoMemory>
    ensures { OnOk result (SplitsStmts tasks.old stmts.now tasks.new) }
{
    match stmts {
        [] => Ok(()),
        [first, others @ ..] => {
            put(tasks, Piece::Stmts(others))?;
            put(tasks, Piece::Stmt(first))
        }
    }
}
