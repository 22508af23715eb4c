ghost use Rattle.std.specs.Prelude.{◌≡◌, true, None, Some, IfOk};
ghost use Rattle.js_tree.specs.declared.tree.Expr.{out-Expr};
ghost use Rattle.js_grammar.specs.Shapes.{strength as strength_of};
ghost use Rattle.js_parse_core.specs.Outer as machine;
ghost use Rattle.js_parse_core.specs.Statements as statements;
ghost use Rattle.js_parse_core.specs.Values as spec;
ghost use Rattle.js_parse_core.specs.Steps.{Steps, Gives, Folds};

use js_lex::{Punctuator, TemplatePart, Token, TokenKind};
use js_parse_core::{
    At, Body, Callee, Declared, Frame, Logic, Open, Operator, Outer, Purpose, State, StepEnd, Tail,
    because, boxed, innermost, inside, is_close_bracket, is_close_paren, is_colon, is_comma,
    is_semicolon, plus, pop, refuse, refuse_at, to, wait, wait_body, wait_operand, wait_tail, with,
};
use js_parse_statements::{close_object, end, with_declaration};
use js_tree::{
    ArrowBody, BinaryOp, Expr, ForBegin, Name, Property, Stmt, TemplateItem, UpdateSide,
};
use js_words::Spot;
use std::alloc::Global;
use wd_base::{NoMemory, Seq, Stack, TryClone, Units};

/// The binary operator that a sign is.
fn binary_op(sign: Punctuator) -> Option<BinaryOp>
    ensures { result ≡ spec.binary_op sign }
{
    match sign {
        Punctuator::QuestionQuestion => Some(BinaryOp::Coalesce),
        Punctuator::OrOr => Some(BinaryOp::Or),
        Punctuator::AndAnd => Some(BinaryOp::And),
        Punctuator::Identical => Some(BinaryOp::Identical),
        Punctuator::NotIdentical => Some(BinaryOp::NotIdentical),
        Punctuator::Less => Some(BinaryOp::Less),
        Punctuator::LessEqual => Some(BinaryOp::LessEqual),
        Punctuator::Greater => Some(BinaryOp::Greater),
        Punctuator::GreaterEqual => Some(BinaryOp::GreaterEqual),
        Punctuator::Plus => Some(BinaryOp::Add),
        Punctuator::Minus => Some(BinaryOp::Subtract),
        Punctuator::Star => Some(BinaryOp::Multiply),
        Punctuator::Slash => Some(BinaryOp::Divide),
        Punctuator::Percent => Some(BinaryOp::Remainder),
        _ => None,
    }
}

/// How tightly an operator binds (ECMA-262, sections 13.6 to 13.13).
fn strength(op: BinaryOp) -> u8
    ensures { result ≡ strength_of op }
{
    match op {
        BinaryOp::Coalesce | BinaryOp::Or => 1,
        BinaryOp::And => 2,
        BinaryOp::Identical | BinaryOp::NotIdentical => 3,
        BinaryOp::Less | BinaryOp::LessEqual | BinaryOp::Greater | BinaryOp::GreaterEqual => 4,
        BinaryOp::Add | BinaryOp::Subtract => 5,
        BinaryOp::Multiply | BinaryOp::Divide | BinaryOp::Remainder => 6,
    }
}

/// What the operator is among those that are not mixed.
fn logic_of(op: BinaryOp) -> Logic
    ensures { result ≡ spec.logic_of op }
{
    match op {
        BinaryOp::Coalesce => Logic::Coalescing,
        BinaryOp::Or | BinaryOp::And => Logic::AndOr,
        _ => Logic::Other,
    }
}

/// `??` stands beside `&&` or `||` (ECMA-262, section 13.13).
fn are_mixed(a: Logic, b: Logic) -> bool
    ensures { result ≡ spec.are_mixed a b }
{
    match a {
        Logic::Coalescing => match b {
            Logic::AndOr => true,
            Logic::Coalescing | Logic::Other => false,
        },
        Logic::AndOr => match b {
            Logic::Coalescing => true,
            Logic::AndOr | Logic::Other => false,
        },
        Logic::Other => false,
    }
}

/// .. for the outermost operator of a value.
fn outermost(value: &Expr) -> Logic
    ensures { result ≡ spec.outermost value.now }
{
    match value {
        Expr::Binary(op, _, _) => logic_of(*op),
        _ => Logic::Other,
    }
}

/// .. for the operator that waits, if one does.
fn waiting(outer: &Outer) -> Logic
    ensures { result ≡ spec.waiting outer.now }
{
    match innermost(outer) {
        Some(frame) => match frame {
            Frame::Operator(operator) => match operator {
                Operator::Binary(_, op) => logic_of(*op),
                _ => Logic::Other,
            },
            _ => Logic::Other,
        },
        None => Logic::Other,
    }
}

/// The operator binds at least so tightly.
fn binds(least: u8, operator: &Operator) -> bool
    ensures { result ≡ spec.operator_binds least operator.now }
{
    match operator {
        Operator::Binary(_, op) => least <= strength(*op),
        _ => true,
    }
}

/// The operator with its operand. A value that cannot be written to is refused behind `++`.
fn apply(alloc: Global, operator: Operator, value: Expr) -> Result<Expr, StepEnd>
    ensures { Gives (spec.apply operator value) result }
{
    match operator {
        Operator::Binary(left, op) => {
            Ok(Expr::Binary(op, boxed(alloc, left)?, boxed(alloc, value)?))
        }
        Operator::Unary(op) => Ok(Expr::Unary(op, boxed(alloc, value)?)),
        Operator::Await(place) => Ok(Expr::Await(place, boxed(alloc, value)?)),
        Operator::Update(op) => match value.into_target() {
            Ok(target) => Ok(Expr::Update(UpdateSide::Before, op, target)),
            Err(_) => Err(StepEnd::Refused(because(None, None))),
        },
    }
}

/// The operators that bind at least so tightly get their operand.
fn fold(
    alloc: Global,
    least: u8,
    frames: Stack<Open>,
    value: Expr,
) -> Result<(Stack<Open>, Expr), StepEnd>
    ensures { Folds (spec.fold least frames value) result }
{
    let mut frames = frames;
    match frames.pop() {
        None => Ok((frames, value)),
        Some(open) => {
            let Open { constructs, frame } = open;
            match frame {
                Frame::Operator(operator) => {
                    if binds(least, &operator) {
                        let value = apply(alloc, operator, value)?;
                        fold(alloc, least, frames, value)
                    } else {
                        let frame = Frame::Operator(operator);
                        Ok((frames.with(Open { constructs, frame })?, value))
                    }
                }
                frame => Ok((frames.with(Open { constructs, frame })?, value)),
            }
        }
    }
}

/// A binary operator behind its left operand, with so many constructs open around it.
fn joins(
    alloc: Global,
    outer: Outer,
    op: BinaryOp,
    inside: usize,
    value: Expr,
    token: &Token,
) -> Result<State, StepEnd>
    ensures { Steps (spec.joins true outer op inside token.now (record { frames = outer.frames; value = value })) result }
{
    if are_mixed(logic_of(op), outermost(&value)) || are_mixed(logic_of(op), waiting(&outer)) {
        return after_whole(alloc, outer, value, token);
    }
    wait_operand(outer, plus(inside, 1), Operator::Binary(value, op))
}

/// A binary operator. Prefix operators end before it, and the operators of its chain do not.
fn binary(
    alloc: Global,
    outer: Outer,
    op: BinaryOp,
    value: Expr,
    token: &Token,
) -> Result<State, StepEnd>
    ensures { Steps (spec.on_binary true outer op value token.now) result }
{
    let Outer {
        items,
        exported,
        frames,
    } = outer;
    let (frames, value) = fold(alloc, 7, frames, value)?;
    let inside = inside(&frames);
    let (frames, value) = fold(alloc, strength(op), frames, value)?;
    let outer = Outer {
        items,
        exported,
        frames,
    };
    joins(alloc, outer, op, inside, value, token)
}

/// `?` behind its test (ECMA-262, section 13.14).
fn tests(alloc: Global, outer: Outer, value: Expr) -> Result<State, StepEnd>
    ensures { Steps (spec.tests outer (spec.fold 1 outer.frames value)) result }
{
    let Outer {
        items,
        exported,
        frames,
    } = outer;
    let (frames, test) = fold(alloc, 1, frames, value)?;
    let outer = Outer {
        items,
        exported,
        frames,
    };
    wait(outer, 1, Purpose::Then(test))
}

/// A sign behind a value that a binary operator or `?` may follow.
fn after_sign(
    alloc: Global,
    outer: Outer,
    value: Expr,
    token: &Token,
    sign: Punctuator,
) -> Result<State, StepEnd>
    ensures { Steps (spec.after_operator true outer value token.now sign (spec.binary_op sign)) result }
{
    match binary_op(sign) {
        Some(op) => binary(alloc, outer, op, value, token),
        None => match sign {
            Punctuator::Question => tests(alloc, outer, value),
            _ => after_whole(alloc, outer, value, token),
        },
    }
}

/// The token behind a value that a binary operator or `?` may follow (ECMA-262, sections 13.6 to
/// 13.14).
pub fn after_value(
    alloc: Global,
    outer: Outer,
    value: Expr,
    token: &Token,
) -> Result<State, StepEnd>
    ensures { Steps (spec.after_value true outer value token.now) result }
{
    match &token.kind {
        TokenKind::Punctuator(sign) => after_sign(alloc, outer, value, token, *sign),
        _ => after_whole(alloc, outer, value, token),
    }
}

/// The value that ends with this one.
fn end_tail(alloc: Global, tail: Tail, value: Expr) -> Result<Expr, NoMemory>
    ensures { IfOk result (λ whole. whole ≡ spec.end_tail tail value) }
{
    match tail {
        Tail::Assign(op, target) => Ok(Expr::Assign(op, target, boxed(alloc, value)?)),
        Tail::Else(test, yes) => {
            let test = boxed(alloc, test)?;
            let yes = boxed(alloc, yes)?;
            Ok(Expr::Conditional(test, yes, boxed(alloc, value)?))
        }
        Tail::Arrow(is_async, parameters) => Ok(Expr::Arrow {
            is_async,
            parameters,
            body: ArrowBody::Value(boxed(alloc, value)?),
        }),
    }
}

/// What ends with the value ends.
fn fold_tails(
    alloc: Global,
    frames: Stack<Open>,
    value: Expr,
) -> Result<(Stack<Open>, Expr), NoMemory>
    ensures { IfOk result (λ over. spec.fold_tails frames value ≡ record { frames = over.0; value = over.1 }) }
{
    let mut frames = frames;
    match frames.pop() {
        None => Ok((frames, value)),
        Some(open) => {
            let Open { constructs, frame } = open;
            match frame {
                Frame::Tail(tail) => {
                    let value = end_tail(alloc, tail, value)?;
                    fold_tails(alloc, frames, value)
                }
                frame => Ok((frames.with(Open { constructs, frame })?, value)),
            }
        }
    }
}

/// The token behind a value that no operator follows: the value is whole, and ends what waits for it.
pub fn after_whole(
    alloc: Global,
    outer: Outer,
    value: Expr,
    token: &Token,
) -> Result<State, StepEnd>
    ensures { Steps (spec.after_whole true outer value token.now) result }
{
    let Outer {
        items,
        exported,
        frames,
    } = outer;
    let (frames, value) = fold(alloc, 0, frames, value)?;
    let (frames, value) = fold_tails(alloc, frames, value)?;
    let outer = Outer {
        items,
        exported,
        frames,
    };
    let (outer, frame) = pop(outer);
    on_frame(alloc, outer, frame, value, token)
}

/// A whole value, and the frame that waits for it.
fn on_frame(
    alloc: Global,
    outer: Outer,
    frame: Option<Frame>,
    value: Expr,
    token: &Token,
) -> Result<State, StepEnd>
    ensures { Steps (spec.on_frame true outer value token.now frame) result }
{
    match frame {
        Some(frame) => match frame {
            Frame::Purpose(purpose) => on_value(alloc, outer, purpose, value, token),
            _ => refuse(),
        },
        None => refuse(),
    }
}

/// The call, or the `new`, whose arguments are whole (ECMA-262, sections 13.3.5 and 13.3.6).
pub fn call(
    alloc: Global,
    outer: Outer,
    callee: Callee,
    arguments: Seq<Expr>,
) -> Result<State, StepEnd>
    ensures { Steps (spec.call outer callee arguments) result }
{
    match callee {
        Callee::Value(value, accesses) => {
            let call = Expr::Call(boxed(alloc, value)?, arguments);
            to(outer, At::Operand(call, plus(accesses, 1)))
        }
        Callee::New(name) => to(outer, At::Operand(Expr::New(name, arguments), 0)),
    }
}

/// The argument is whole (ECMA-262, section 13.3.8).
fn on_argument_end(
    alloc: Global,
    outer: Outer,
    callee: Callee,
    arguments: Seq<Expr>,
    token: &Token,
) -> Result<State, StepEnd>
    ensures { Steps (spec.on_argument_end outer callee arguments token.now.kind) result }
{
    match &token.kind {
        TokenKind::Punctuator(sign) => match sign {
            Punctuator::Comma => to(outer, At::NextArgument(callee, arguments)),
            Punctuator::CloseParen => call(alloc, outer, callee, arguments),
            _ => refuse_at(Spot::OperandEnd),
        },
        _ => refuse_at(Spot::OperandEnd),
    }
}

/// The item of an array is whole (ECMA-262, section 13.2.4).
fn on_element_end(outer: Outer, items: Seq<Expr>, token: &Token) -> Result<State, StepEnd>
    ensures { Steps (spec.on_element_end outer items token.now.kind) result }
{
    match &token.kind {
        TokenKind::Punctuator(sign) => match sign {
            Punctuator::Comma => to(outer, At::NextElement(items)),
            Punctuator::CloseBracket => to(outer, At::Operand(Expr::Array(items), 0)),
            _ => refuse_at(Spot::OperandEnd),
        },
        _ => refuse_at(Spot::OperandEnd),
    }
}

/// The value of a member is whole (ECMA-262, section 13.2.5).
fn on_pair_end(outer: Outer, members: Seq<Property>, token: &Token) -> Result<State, StepEnd>
    ensures { Steps (spec.on_pair_end outer members token.now.kind) result }
{
    match &token.kind {
        TokenKind::Punctuator(sign) => match sign {
            Punctuator::Comma => to(outer, At::Key(members)),
            Punctuator::CloseBrace => close_object(outer, members),
            _ => refuse_at(Spot::OperandEnd),
        },
        _ => refuse_at(Spot::OperandEnd),
    }
}

/// The text of a template goes on behind the value (ECMA-262, section 13.2.8).
fn on_hole_end(
    alloc: Global,
    outer: Outer,
    items: Seq<TemplateItem>,
    token: &Token,
) -> Result<State, StepEnd>
    ensures { Steps (spec.on_hole_end outer items token.now.kind) result }
{
    match &token.kind {
        TokenKind::Template(part, units) => match part {
            TemplatePart::Middle => {
                let units = units.try_clone(alloc)?;
                wait(outer, 1, Purpose::Hole(items, units))
            }
            TemplatePart::Tail => {
                let units = units.try_clone(alloc)?;
                to(outer, At::Operand(Expr::Template(items, units), 0))
            }
            TemplatePart::Whole | TemplatePart::Head => refuse_at(Spot::OperandEnd),
        },
        _ => refuse_at(Spot::OperandEnd),
    }
}

/// The spot of the token before: a name that begins a statement may be a label.
fn label_before(value: &Expr) -> Option<Spot>
    ensures { result ≡ spec.label_before (out-Expr value.now) }
{
    match value {
        Expr::Name(_) => Some(Spot::StatementBegin),
        _ => None,
    }
}

/// An expression as a statement is whole. A name that `:` follows is a label.
fn on_statement_end(
    alloc: Global,
    outer: Outer,
    value: Expr,
    token: &Token,
) -> Result<State, StepEnd>
    ensures { Steps (spec.on_statement_end true outer value token.now) result }
{
    let why = because(label_before(&value), Some(Spot::OperandEnd));
    end(alloc, outer, Stmt::Expr(value), token, why)
}

/// The value of a declaration is whole.
fn on_initial_end(
    alloc: Global,
    outer: Outer,
    declared: Declared,
    token: &Token,
) -> Result<State, StepEnd>
    ensures { Steps (spec.on_initial_end true outer declared token.now) result }
{
    if is_comma(token) {
        return to(outer, At::DeclaredName(declared));
    }
    let Declared {
        kind,
        in_for,
        declarations,
    } = declared;
    if !in_for {
        return on_last_value(alloc, outer, Stmt::Declare(kind, declarations), token);
    }
    if is_semicolon(token) {
        let start = ForBegin::Declarations(kind, declarations);
        return to(outer, At::ForTest(start));
    }
    refuse_at(Spot::OperandEnd)
}

/// The value in the brackets of a statement is whole.
fn on_head_end(outer: Outer, body: Body, token: &Token) -> Result<State, StepEnd>
    ensures { Steps (spec.on_head_end outer body token.now) result }
{
    if is_close_paren(token) {
        return wait_body(outer, body);
    }
    refuse_at(Spot::OperandEnd)
}

/// The value is whole where its last token stands behind it.
fn on_part_end(outer: Outer, at: At, is_last: bool) -> Result<State, StepEnd>
    ensures { Steps (spec.on_part_end outer at is_last) result }
{
    if is_last {
        return to(outer, at);
    }
    refuse_at(Spot::OperandEnd)
}

/// The first value behind `?` is whole (ECMA-262, section 13.14).
fn on_then_end(outer: Outer, test: Expr, yes: Expr, token: &Token) -> Result<State, StepEnd>
    ensures { Steps (spec.on_then_end outer test yes token.now) result }
{
    if is_colon(token) {
        return wait_tail(outer, Tail::Else(test, yes));
    }
    refuse_at(Spot::OperandEnd)
}

/// The value in brackets of its own is whole (ECMA-262, section 13.2.9).
fn on_group_end(alloc: Global, outer: Outer, value: Expr, token: &Token) -> Result<State, StepEnd>
    ensures { Steps (spec.on_value true outer Purpose.Group value token.now) result }
{
    let group = Expr::Group(boxed(alloc, value)?);
    on_part_end(outer, At::Operand(group, 0), is_close_paren(token))
}

/// The value in `[` `]` behind an object is whole (ECMA-262, section 13.3.2).
fn on_index_end(
    alloc: Global,
    outer: Outer,
    object: Expr,
    accesses: usize,
    value: Expr,
    token: &Token,
) -> Result<State, StepEnd>
    ensures { Steps (spec.on_value true outer (Purpose.Index object accesses) value token.now) result }
{
    let index = Expr::Index(boxed(alloc, object)?, boxed(alloc, value)?);
    let at = At::Operand(index, plus(accesses, 1));
    on_part_end(outer, at, is_close_bracket(token))
}

/// The value in a template is whole (ECMA-262, section 13.2.8).
fn on_hole(
    alloc: Global,
    outer: Outer,
    items: Seq<TemplateItem>,
    units: Units,
    value: Expr,
    token: &Token,
) -> Result<State, StepEnd>
    ensures { Steps (spec.on_value true outer (Purpose.Hole items units) value token.now) result }
{
    let items = with(items, TemplateItem { units, value })?;
    on_hole_end(alloc, outer, items, token)
}

/// The value that a `for` begins with is whole (ECMA-262, section 14.7.4).
fn on_start_end(outer: Outer, value: Expr, token: &Token) -> Result<State, StepEnd>
    ensures { Steps (spec.on_value true outer Purpose.ForStart value token.now) result }
{
    let at = At::ForTest(ForBegin::Start(value));
    on_part_end(outer, at, is_semicolon(token))
}

/// The test of a `for` is whole (ECMA-262, section 14.7.4).
fn on_test_end(outer: Outer, start: ForBegin, value: Expr, token: &Token) -> Result<State, StepEnd>
    ensures { Steps (spec.on_value true outer (Purpose.ForTest start) value token.now) result }
{
    let at = At::ForUpdate(start, Some(value));
    on_part_end(outer, at, is_semicolon(token))
}

/// The value of a name is whole, which is declared with it.
fn on_initial(
    alloc: Global,
    outer: Outer,
    declared: Declared,
    name: Name,
    value: Expr,
    token: &Token,
) -> Result<State, StepEnd>
    ensures { Steps (spec.on_value true outer (Purpose.Initial declared name) value token.now) result }
{
    let declared = with_declaration(declared, name, Some(value))?;
    on_initial_end(alloc, outer, declared, token)
}

/// The statement that ends with a value is whole but for its end.
fn on_last_value(alloc: Global, outer: Outer, stmt: Stmt, token: &Token) -> Result<State, StepEnd>
    ensures { Steps (statements.end true outer stmt token.now (machine.because None (Some Spot.OperandEnd))) result }
{
    let why = because(None, Some(Spot::OperandEnd));
    end(alloc, outer, stmt, token, why)
}

/// A whole value, what it is for, and the token behind it.
fn on_value(
    alloc: Global,
    outer: Outer,
    purpose: Purpose,
    value: Expr,
    token: &Token,
) -> Result<State, StepEnd>
    ensures { Steps (spec.on_value true outer purpose value token.now) result }
{
    match purpose {
        Purpose::Then(test) => on_then_end(outer, test, value, token),
        Purpose::Group => on_group_end(alloc, outer, value, token),
        Purpose::Argument(callee, arguments) => {
            on_argument_end(alloc, outer, callee, with(arguments, value)?, token)
        }
        Purpose::Index(object, accesses) => {
            on_index_end(alloc, outer, object, accesses, value, token)
        }
        Purpose::Element(items) => on_element_end(outer, with(items, value)?, token),
        Purpose::Pair(members, key) => {
            on_pair_end(outer, with(members, Property::Pair(key, value))?, token)
        }
        Purpose::Hole(items, units) => on_hole(alloc, outer, items, units, value, token),
        Purpose::If => on_head_end(outer, Body::Then(value), token),
        Purpose::While => on_head_end(outer, Body::While(value), token),
        Purpose::ForOf(kind, name) => on_head_end(outer, Body::ForOf(kind, name, value), token),
        Purpose::ForUpdate(start, test) => {
            on_head_end(outer, Body::For(start, test, Some(value)), token)
        }
        Purpose::ForStart => on_start_end(outer, value, token),
        Purpose::ForTest(start) => on_test_end(outer, start, value, token),
        Purpose::Statement => on_statement_end(alloc, outer, value, token),
        Purpose::Initial(declared, name) => on_initial(alloc, outer, declared, name, value, token),
        Purpose::Return(place) => on_last_value(
            alloc,
            outer,
            Stmt::Return(place, Some(value)),
            token,
        ),
        Purpose::Throw => on_last_value(alloc, outer, Stmt::Throw(value), token),
    }
}
