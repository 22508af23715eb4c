ghost use Rattle.js_parse_core.specs.Outer as machine;
ghost use Rattle.js_parse_core.specs.Begin as spec;
ghost use Rattle.js_parse_core.specs.Steps.{Steps};
ghost use Rattle.js_parse_core.specs.Tokens as tokens;

use crate::machine::{At, Cover, Operator, Outer, Position, Purpose, State, StepEnd};
use crate::outer::{constructs, is_whole, plus, position_of, refuse_at, to, wait, wait_operand};
use crate::tokens::{is_async, name_at};
use js_lex::{Punctuator, Reserved, TemplatePart, Token, TokenKind};
use js_tree::{Expr, UnaryOp, UpdateOp};
use js_words::Spot;
use std::alloc::Global;
use wd_base::{Seq, TryClone, Units};

/// An operand without calls and member accesses was read.
pub fn operand(outer: Outer, value: Expr) -> Result<State, StepEnd>
    ensures { Steps (spec.operand outer value) result }
{
    to(outer, At::Operand(value, 0))
}

fn begin_name(alloc: Global, outer: Outer, place: usize, units: &Units) -> Result<State, StepEnd>
    ensures { Steps (spec.begin_name outer (tokens.name place units.now) (tokens.is_async units.now)) result }
{
    let name = name_at(alloc, place, units)?;
    if is_async(units) {
        to(outer, At::Async(name))
    } else {
        operand(outer, Expr::Name(name))
    }
}

fn begin_template(
    alloc: Global,
    outer: Outer,
    part: TemplatePart,
    units: &Units,
) -> Result<State, StepEnd>
    ensures { Steps (spec.begin_template outer part units.now) result }
{
    let units = units.try_clone(alloc)?;
    match part {
        TemplatePart::Whole => operand(outer, Expr::Template(Seq::new(alloc), units)),
        TemplatePart::Head => wait(outer, 1, Purpose::Hole(Seq::new(alloc), units)),
        TemplatePart::Middle | TemplatePart::Tail => refuse_at(Spot::ExpressionBegin),
    }
}

/// A prefix operator, which stands not behind `++` or `--`.
fn prefix(outer: Outer, operator: Operator) -> Result<State, StepEnd>
    ensures { Steps (spec.prefix outer operator) result }
{
    match position_of(&outer) {
        Position::Target => refuse_at(Spot::ExpressionBegin),
        Position::Whole | Position::Operand => {
            let inside = plus(constructs(&outer), 1);
            wait_operand(outer, inside, operator)
        },
    }
}

fn begin_by_word(outer: Outer, place: usize, word: Reserved) -> Result<State, StepEnd>
    ensures { Steps (spec.begin_by_word outer place word) result }
{
    match word {
        Reserved::True => operand(outer, Expr::True),
        Reserved::False => operand(outer, Expr::False),
        Reserved::Null => operand(outer, Expr::Null),
        Reserved::This => operand(outer, Expr::This),
        Reserved::Function => to(outer, At::FunctionName(false, false)),
        Reserved::New => to(outer, At::NewName),
        Reserved::TypeOf => prefix(outer, Operator::Unary(UnaryOp::TypeOf)),
        Reserved::Await => prefix(outer, Operator::Await(place)),
        _ => refuse_at(Spot::ExpressionBegin),
    }
}

/// `(` where an operand begins: a group, or the parameters of an arrow where one may stand.
fn begin_paren(alloc: Global, outer: Outer) -> Result<State, StepEnd>
    ensures { Steps (spec.begin_paren outer (machine.is_whole outer)) result }
{
    if is_whole(&outer) {
        to(outer, At::CoverOpen(Cover::Plain, Seq::new(alloc)))
    } else {
        wait(outer, 1, Purpose::Group)
    }
}

fn begin_by_sign(alloc: Global, outer: Outer, sign: Punctuator) -> Result<State, StepEnd>
    ensures { Steps (spec.begin_by_sign outer sign) result }
{
    match sign {
        Punctuator::OpenParen => begin_paren(alloc, outer),
        Punctuator::OpenBracket => to(outer, At::NextElement(Seq::new(alloc))),
        Punctuator::OpenBrace => to(outer, At::Key(Seq::new(alloc))),
        Punctuator::Not => prefix(outer, Operator::Unary(UnaryOp::Not)),
        Punctuator::Minus => prefix(outer, Operator::Unary(UnaryOp::Negate)),
        Punctuator::PlusPlus => prefix(outer, Operator::Update(UpdateOp::Increment)),
        Punctuator::MinusMinus => prefix(outer, Operator::Update(UpdateOp::Decrement)),
        _ => refuse_at(Spot::ExpressionBegin),
    }
}

/// An operand begins.
pub fn begin(alloc: Global, outer: Outer, token: &Token) -> Result<State, StepEnd>
    ensures { Steps (spec.begin outer token.now) result }
{
    match &token.kind {
        TokenKind::Name(units) => begin_name(alloc, outer, token.place, units),
        TokenKind::Number(number) => operand(outer, Expr::Number(*number)),
        TokenKind::Text(units) => {
            let units = units.try_clone(alloc)?;
            operand(outer, Expr::Text(units))
        }
        TokenKind::Template(part, units) => begin_template(alloc, outer, *part, units),
        TokenKind::Reserved(word) => begin_by_word(outer, token.place, *word),
        TokenKind::Punctuator(sign) => begin_by_sign(alloc, outer, *sign),
        _ => refuse_at(Spot::ExpressionBegin),
    }
}
