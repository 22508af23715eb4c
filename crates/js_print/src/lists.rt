ghost use Rattle.std.specs.Prelude.{[], ◌∷◌, ◌+◌, map, option_map, OnOk};
ghost use Rattle.js_grammar.specs.Grammar as grammar;
ghost use Rattle.js_grammar.specs.Marks as marks;
ghost use Rattle.js_tree.specs.Weight as weight;
ghost use Rattle.js_print.specs.Splits.{SplitsDeclaration, SplitsDeclarations, SplitsExprs};
ghost use Rattle.js_print.specs.Splits.{SplitsMoreDeclarations, SplitsNames, SplitsOptionalExpr};
ghost use Rattle.js_print.specs.Splits.{SplitsProperties, SplitsProperty, SplitsStmts};
ghost use Rattle.js_print.specs.Splits.{SplitsTemplateRest};
ghost use Rattle.js_print.specs.Walk.{IsSplit, caught};

use crate::piece::Piece;
use crate::split::put;
use js_lex::{Punctuator, TemplatePart};
use js_tree::{Declaration, Expr, Key, Name, Property, Stmt, TemplateItem};
use wd_base::{NoMemory, Stack};

/// Puts the word `async` on the tasks, or nothing.
#[tactic(auto, using(crate::proofs::ListSplits::ends))]
pub(crate) fn split_async<'a>(tasks: &mut Stack<Piece<'a>>, is_async: bool) -> Result<(), NoMemory>
    ensures { OnOk result (IsSplit tasks.old (grammar.perhaps_async is_async []) (2) tasks.new) }
{
    if is_async {
        put(tasks, &[Piece::Plain(b"async")])
    } else {
        Ok(())
    }
}

/// Puts a key on the tasks.
pub(crate) fn split_key<'a>(tasks: &mut Stack<Piece<'a>>, key: &'a Key) -> Result<(), NoMemory>
    ensures { OnOk result (IsSplit tasks.old (grammar.key key.now ∷ []) (2) tasks.new) }
{
    match key {
        Key::Name(name) => put(tasks, &[Piece::Name(name)]),
        Key::Text(units) => put(tasks, &[Piece::Text(units.as_slice())]),
        Key::Number(number) => put(tasks, &[Piece::Number(*number)]),
    }
}

/// Puts a name on the tasks, where there is one.
#[tactic(auto, using(crate::proofs::ListSplits::ends))]
pub(crate) fn split_optional_name<'a>(
    tasks: &mut Stack<Piece<'a>>,
    name: &'a Option<Name>,
) -> Result<(), NoMemory>
    ensures { OnOk result (IsSplit tasks.old (grammar.option_name name.now) (2) tasks.new) }
{
    match name {
        None => Ok(()),
        Some(name) => put(tasks, &[Piece::Name(name)]),
    }
}

/// Puts what a `catch` names on the tasks, where it names something.
#[tactic(auto, using(crate::proofs::ListSplits::ends))]
pub(crate) fn split_catch_name<'a>(
    tasks: &mut Stack<Piece<'a>>,
    name: &'a Option<Name>,
) -> Result<(), NoMemory>
    ensures { OnOk result (IsSplit tasks.old (caught name.now) (4) tasks.new) }
{
    match name {
        None => Ok(()),
        Some(name) => put(
            tasks,
            &[
                Piece::Sign(Punctuator::OpenParen),
                Piece::Name(name),
                Piece::Sign(Punctuator::CloseParen),
            ],
        ),
    }
}

/// Puts an expression on the tasks, where there is one.
#[tactic(auto, using(crate::proofs::ListSplits::ends))]
pub(crate) fn split_optional_expr<'a>(
    tasks: &mut Stack<Piece<'a>>,
    expr: &'a Option<Expr>,
) -> Result<(), NoMemory>
    ensures { OnOk result (SplitsOptionalExpr tasks.old expr.now tasks.new) }
{
    match expr {
        None => Ok(()),
        Some(expr) => put(tasks, &[Piece::Expr(expr)]),
    }
}

/// Puts the first name and the others on the tasks.
#[tactic(auto, using(crate::proofs::ListSplits::ends))]
pub(crate) fn split_names<'a>(
    tasks: &mut Stack<Piece<'a>>,
    names: &'a [Name],
) -> Result<(), NoMemory>
    ensures { OnOk result (SplitsNames tasks.old names.now tasks.new) }
{
    match names {
        [] => Ok(()),
        [first, others @ ..] => put(
            tasks,
            &[
                Piece::Name(first),
                Piece::Sign(Punctuator::Comma),
                Piece::Names(others),
            ],
        ),
    }
}

/// Puts the first expression and the others on the tasks.
#[tactic(auto, using(crate::proofs::ListSplits::ends))]
pub(crate) fn split_exprs<'a>(
    tasks: &mut Stack<Piece<'a>>,
    exprs: &'a [Expr],
) -> Result<(), NoMemory>
    ensures { OnOk result (SplitsExprs tasks.old exprs.now tasks.new) }
{
    match exprs {
        [] => Ok(()),
        [first, others @ ..] => put(
            tasks,
            &[
                Piece::Expr(first),
                Piece::Sign(Punctuator::Comma),
                Piece::Exprs(others),
            ],
        ),
    }
}

/// Puts the next part of a template and the others on the tasks.
pub(crate) fn split_template_rest<'a>(
    tasks: &mut Stack<Piece<'a>>,
    items: &'a [TemplateItem],
    last: &'a [u16],
) -> Result<(), NoMemory>
    ensures { OnOk result (SplitsTemplateRest tasks.old items.now last.now tasks.new) }
{
    match items {
        [] => put(tasks, &[Piece::Part(TemplatePart::Tail, last)]),
        [first, others @ ..] => put(
            tasks,
            &[
                Piece::Part(TemplatePart::Middle, first.units.as_slice()),
                Piece::Expr(&first.value),
                Piece::TemplateRest(others, last),
            ],
        ),
    }
}

/// Puts the tokens and the parts of a member of an object on the tasks.
pub(crate) fn split_property<'a>(
    tasks: &mut Stack<Piece<'a>>,
    property: &'a Property,
) -> Result<(), NoMemory>
    ensures { OnOk result (SplitsProperty tasks.old property.now tasks.new) }
{
    match property {
        Property::Pair(key, value) => put(
            tasks,
            &[
                Piece::Key(key),
                Piece::Sign(Punctuator::Colon),
                Piece::Expr(value),
            ],
        ),
        Property::Short(name) => put(tasks, &[Piece::Name(name)]),
        Property::Method(key, function) => put(
            tasks,
            &[
                Piece::Async(function.is_async),
                Piece::Key(key),
                Piece::Function(function),
            ],
        ),
    }
}

/// Puts the first member of an object and the others on the tasks.
#[tactic(auto, using(crate::proofs::ListSplits::ends))]
pub(crate) fn split_properties<'a>(
    tasks: &mut Stack<Piece<'a>>,
    properties: &'a [Property],
) -> Result<(), NoMemory>
    ensures { OnOk result (SplitsProperties tasks.old properties.now tasks.new) }
{
    match properties {
        [] => Ok(()),
        [first, others @ ..] => put(
            tasks,
            &[
                Piece::Property(first),
                Piece::Sign(Punctuator::Comma),
                Piece::Properties(others),
            ],
        ),
    }
}

/// Puts a declared name and its value on the tasks.
pub(crate) fn split_declaration<'a>(
    tasks: &mut Stack<Piece<'a>>,
    declaration: &'a Declaration,
) -> Result<(), NoMemory>
    ensures { OnOk result (SplitsDeclaration tasks.old declaration.now tasks.new) }
{
    match &declaration.value {
        None => put(tasks, &[Piece::Name(&declaration.name)]),
        Some(value) => put(
            tasks,
            &[
                Piece::Name(&declaration.name),
                Piece::Sign(Punctuator::Equal),
                Piece::Expr(value),
            ],
        ),
    }
}

/// Puts the first declared name and the others on the tasks.
#[tactic(auto, using(crate::proofs::ListSplits::ends))]
pub(crate) fn split_declarations<'a>(
    tasks: &mut Stack<Piece<'a>>,
    declarations: &'a [Declaration],
) -> Result<(), NoMemory>
    ensures { OnOk result (SplitsDeclarations tasks.old declarations.now tasks.new) }
{
    match declarations {
        [] => Ok(()),
        [first, others @ ..] => put(
            tasks,
            &[Piece::Declaration(first), Piece::MoreDeclarations(others)],
        ),
    }
}

/// Puts the next declared name and the others on the tasks, with a comma before each.
#[tactic(auto, using(crate::proofs::ListSplits::ends))]
pub(crate) fn split_more_declarations<'a>(
    tasks: &mut Stack<Piece<'a>>,
    declarations: &'a [Declaration],
) -> Result<(), NoMemory>
    ensures { OnOk result (SplitsMoreDeclarations tasks.old declarations.now tasks.new) }
{
    match declarations {
        [] => Ok(()),
        [first, others @ ..] => put(
            tasks,
            &[
                Piece::Sign(Punctuator::Comma),
                Piece::Declaration(first),
                Piece::MoreDeclarations(others),
            ],
        ),
    }
}

/// Puts the first statement and the others on the tasks.
#[tactic(auto, using(crate::proofs::ListSplits::ends))]
pub(crate) fn split_stmts<'a>(
    tasks: &mut Stack<Piece<'a>>,
    stmts: &'a [Stmt],
) -> Result<(), NoMemory>
    ensures { OnOk result (SplitsStmts tasks.old stmts.now tasks.new) }
{
    match stmts {
        [] => Ok(()),
        [first, others @ ..] => put(tasks, &[Piece::Stmt(first), Piece::Stmts(others)]),
    }
}
