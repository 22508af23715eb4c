ghost use Rattle.std.specs.Prelude.{◌≡◌, ℕ, List, [], ◌∷◌, ◌++◌, map, IfOk, OnOk};
ghost use Rattle.js_grammar.specs.Grammar as grammar;
ghost use Rattle.js_lex.specs.declared.token.TokenKind.TheVariants as tok;
ghost use Rattle.js_grammar.specs.Fault.{IsTreeOf};
ghost use Rattle.js_print.specs.Printed as spec;
ghost use Rattle.js_print.specs.Same.{Reprinted};
ghost use Rattle.js_print.specs.TokenText as token;
ghost use Rattle.js_tree.specs.Weight as weight;
ghost use Rattle.js_print.specs.Splits.{SplitsItems};
ghost use Rattle.js_print.specs.Walk.{IsSplit, IsStep, item_forms, kinds};

use crate::lists::{
    split_async, split_catch_name, split_declaration, split_declarations, split_exprs, split_key,
    split_more_declarations, split_names, split_optional_expr, split_optional_name,
    split_properties, split_property, split_stmts, split_template_rest,
};
use crate::piece::Piece;
use crate::split::{
    put, split_arrow_body, split_arrow_parameters, split_expr, split_function, split_target,
};
use crate::stmts::{split_begin, split_catch, split_else, split_finally, split_stmt};
use crate::token_text::{push_ascii, push_number, push_part, push_string, sign_text, word_text};
use js_lex::{Punctuator, Reserved, TemplatePart};
use js_tree::{Item, Name, Tree};
use std::alloc::Global;
use wd_base::{NoMemory, Seq, Stack, Units};

const SPACE: u16 = 32;

fn write_ascii(out: &mut Units, text: &[u8]) -> Result<(), NoMemory>
    ensures { OnOk result (out.new ≡ out.old ++ (text.now ++ 32 ∷ [])) }
{
    push_ascii(out, text)?;
    out.push(SPACE)?;
    Ok(())
}

fn write_name(out: &mut Units, name: &Name) -> Result<(), NoMemory>
    ensures { OnOk result (out.new ≡ out.old ++ token.spaced (tok.Name name.now.units)) }
{
    out.extend(name.units.as_slice())?;
    out.push(SPACE)?;
    Ok(())
}

fn write_number(alloc: Global, out: &mut Units, number: u64) -> Result<(), NoMemory>
    ensures { OnOk result (out.new ≡ out.old ++ token.spaced (tok.Number number)) }
{
    push_number(alloc, out, number)?;
    out.push(SPACE)?;
    Ok(())
}

fn write_string(out: &mut Units, units: &[u16]) -> Result<(), NoMemory>
    ensures { OnOk result (out.new ≡ out.old ++ token.spaced (tok.Text units.now)) }
{
    push_string(out, units)?;
    out.push(SPACE)?;
    Ok(())
}

fn write_part(out: &mut Units, part: TemplatePart, units: &[u16]) -> Result<(), NoMemory>
    ensures { OnOk result (out.new ≡ out.old ++ token.spaced (tok.Template part units.now)) }
{
    push_part(out, part, units)?;
    out.push(SPACE)?;
    Ok(())
}

/// Does one task: a token is written, and any other piece is split.
fn step<'a>(
    alloc: Global,
    out: &mut Units,
    tasks: &mut Stack<Piece<'a>>,
    piece: Piece<'a>,
) -> Result<(), NoMemory>
    ensures { OnOk result (IsStep piece.entry out.old tasks.old out.new tasks.new) }
{
    match piece {
        Piece::Sign(sign) => write_ascii(out, sign_text(sign)),
        Piece::Word(word) => write_ascii(out, word_text(word)),
        Piece::Plain(name) => write_ascii(out, name),
        Piece::Name(name) => write_name(out, name),
        Piece::Number(number) => write_number(alloc, out, number),
        Piece::Text(units) => write_string(out, units),
        Piece::Part(part, units) => write_part(out, part, units),
        Piece::Async(is_async) => split_async(tasks, is_async),
        Piece::Key(key) => split_key(tasks, key),
        Piece::OptionalName(name) => split_optional_name(tasks, name),
        Piece::CatchName(name) => split_catch_name(tasks, name),
        Piece::Names(names) => split_names(tasks, names),
        Piece::ArrowParameters(names) => split_arrow_parameters(tasks, names),
        Piece::ArrowBody(body) => split_arrow_body(tasks, body),
        Piece::Function(function) => split_function(tasks, function),
        Piece::Target(target) => split_target(tasks, target),
        Piece::Expr(expr) => split_expr(tasks, expr),
        Piece::OptionalExpr(expr) => split_optional_expr(tasks, expr),
        Piece::Exprs(exprs) => split_exprs(tasks, exprs),
        Piece::TemplateRest(items, last) => split_template_rest(tasks, items, last),
        Piece::Property(property) => split_property(tasks, property),
        Piece::Properties(properties) => split_properties(tasks, properties),
        Piece::Declaration(declaration) => split_declaration(tasks, declaration),
        Piece::Declarations(declarations) => split_declarations(tasks, declarations),
        Piece::MoreDeclarations(declarations) => split_more_declarations(tasks, declarations),
        Piece::ForBegin(begin) => split_begin(tasks, begin),
        Piece::Stmt(stmt) => split_stmt(tasks, stmt),
        Piece::Stmts(stmts) => split_stmts(tasks, stmts),
        Piece::Else(stmt) => split_else(tasks, stmt),
        Piece::Catch(catch) => split_catch(tasks, catch),
        Piece::Finally(stmts) => split_finally(tasks, stmts),
    }
}

/// Puts an item on the tasks.
fn put_item<'a>(tasks: &mut Stack<Piece<'a>>, item: &'a Item) -> Result<(), NoMemory>
    ensures { OnOk result (IsSplit tasks.old (item_forms item.now) (weight.of_item item.now) tasks.new) }
{
    match item {
        Item::Stmt(stmt) => put(tasks, &[Piece::Stmt(stmt)]),
        Item::Export(properties) => put(
            tasks,
            &[
                Piece::Word(Reserved::Export),
                Piece::Word(Reserved::Default),
                Piece::Sign(Punctuator::OpenBrace),
                Piece::Properties(properties.as_slice()),
                Piece::Sign(Punctuator::CloseBrace),
                Piece::Sign(Punctuator::Semicolon),
            ],
        ),
    }
}

/// Puts the items of a script on the tasks.
fn put_items<'a>(tasks: &mut Stack<Piece<'a>>, items: &'a [Item]) -> Result<(), NoMemory>
    ensures { OnOk result (SplitsItems tasks.old items.now tasks.new) }
{
    let mut left = items.len();
    while left > 0 {
        left -= 1;
        put_item(tasks, &items[left])?;
    }
    Ok(())
}

/// Does all tasks.
fn run<'a>(alloc: Global, out: &mut Units, tasks: &mut Stack<Piece<'a>>) -> Result<(), NoMemory>
    ensures { OnOk result (out.new ≡ out.old ++ token.texts (kinds tasks.old)) }
{
    while let Some(piece) = tasks.pop() {
        step(alloc, out, tasks, piece)?;
    }
    Ok(())
}

/// The text of a tree.
fn written(alloc: Global, tree: &Tree) -> Result<Units, NoMemory>
    ensures { IfOk result (λ units. units ≡ spec.printed tree.now) }
{
    let mut tasks = Stack::new(alloc);
    put_items(&mut tasks, tree.as_slice())?;
    let mut out = Seq::new(alloc);
    run(alloc, &mut out, &mut tasks)?;
    Ok(out)
}

/// The text of a tree, in UTF-16 units: its tokens (ECMA-262, sections 12 to 16) with a space
/// behind each, `;` at the end of each statement, and a comma behind the last item of each list.
/// The text of a script's tree is a script of that tree, places aside. `Err` is want of memory.
#[tactic(auto, using(crate::proofs::Reprinted::all_reprinted))]
pub fn print(alloc: Global, tree: &Tree) -> Result<Units, NoMemory>
    ensures text { IfOk result (λ units. units ≡ spec.printed tree.now) }
    ensures same { IfOk result (λ units. (s : List ℕ) → IsTreeOf tree.now s → Reprinted tree.now units) }
{
    written(alloc, tree)
}
