ghost use Rattle.std.specs.Prelude.{◌≡◌, true, IfOk};
ghost use Rattle.js_parse_core.specs.Expressions as spec;
ghost use Rattle.js_parse_core.specs.Steps.{Steps};

use crate::values::{after_value, after_whole, call};
use js_lex::{Punctuator, Reserved, Token, TokenKind};
use js_parse_core::{
    At, Block, Callee, Cover, Frame, Outer, Position, Purpose, Refusal, State, StepEnd, Tail,
    any_name, begin, begins_statement, boxed, constructs, in_body, is_arrow, is_async,
    is_close_bracket, is_close_paren, is_comma, is_open_brace, is_open_paren, is_whole, name_at,
    open_block, operand, plus, pop, position_of, push, refuse, refuse_at, refused, to, wait,
    wait_tail, with,
};
use js_tree::{AssignOp, Expr, Name, UpdateOp, UpdateSide};
use js_words::Spot;
use std::alloc::Global;
use wd_base::{NoMemory, Seq};

/// The operator that assigns.
fn assign_op(sign: Punctuator) -> Option<AssignOp>
    ensures { result ≡ spec.assign_op sign }
{
    match sign {
        Punctuator::Equal => Some(AssignOp::Set),
        Punctuator::PlusEqual => Some(AssignOp::Add),
        Punctuator::MinusEqual => Some(AssignOp::Subtract),
        _ => None,
    }
}

/// `=`, `+=` or `-=` behind an operand (ECMA-262, section 13.15).
fn assign(
    alloc: Global,
    outer: Outer,
    op: AssignOp,
    value: Expr,
    token: &Token,
) -> Result<State, StepEnd>
    ensures { Steps (spec.on_assign true outer op value token.now) result }
{
    if !is_whole(&outer) {
        return after_whole(alloc, outer, value, token);
    }
    match value.into_target() {
        Ok(target) => wait_tail(outer, Tail::Assign(op, target)),
        Err(value) => after_whole(alloc, outer, value, token),
    }
}

/// `++` or `--` behind an operand, on the same line (ECMA-262, section 13.4).
fn update(
    alloc: Global,
    outer: Outer,
    op: UpdateOp,
    value: Expr,
    token: &Token,
) -> Result<State, StepEnd>
    ensures { Steps (spec.on_update true outer op value token.now) result }
{
    if token.after_line_end {
        return after_whole(alloc, outer, value, token);
    }
    match position_of(&outer) {
        Position::Target => after_whole(alloc, outer, value, token),
        Position::Whole | Position::Operand => match value.into_target() {
            Ok(target) => to(
                outer,
                At::Updated(Expr::Update(UpdateSide::Behind, op, target)),
            ),
            Err(value) => after_whole(alloc, outer, value, token),
        },
    }
}

/// `=>` behind an operand: a name is the parameter of an arrow, where one may stand (ECMA-262,
/// section 15.3).
fn arrow_behind(alloc: Global, outer: Outer, value: Expr, token: &Token) -> Result<State, StepEnd>
    ensures { Steps (spec.arrow_behind true outer value token.now) result }
{
    if token.after_line_end || !is_whole(&outer) {
        return after_whole(alloc, outer, value, token);
    }
    match value {
        Expr::Name(name) => {
            let parameters = with(Seq::new(alloc), name)?;
            to(outer, At::ArrowBody(false, parameters))
        }
        value => after_whole(alloc, outer, value, token),
    }
}

/// A sign behind an operand.
fn operand_sign(
    alloc: Global,
    outer: Outer,
    value: Expr,
    accesses: usize,
    token: &Token,
    sign: Punctuator,
) -> Result<State, StepEnd>
    ensures { Steps (spec.operand_sign true outer value accesses token.now sign) result }
{
    match sign {
        Punctuator::Dot => to(outer, At::MemberName(value, accesses)),
        Punctuator::OpenParen => {
            let callee = Callee::Value(value, accesses);
            to(outer, At::NextArgument(callee, Seq::new(alloc)))
        }
        Punctuator::OpenBracket => {
            wait(outer, plus(accesses, 1), Purpose::Index(value, accesses))
        }
        Punctuator::PlusPlus => update(alloc, outer, UpdateOp::Increment, value, token),
        Punctuator::MinusMinus => update(alloc, outer, UpdateOp::Decrement, value, token),
        Punctuator::Arrow => arrow_behind(alloc, outer, value, token),
        _ => match assign_op(sign) {
            Some(op) => assign(alloc, outer, op, value, token),
            None => after_value(alloc, outer, value, token),
        },
    }
}

/// The token behind an operand, whose chain has so many calls and member accesses: one more of these,
/// an assignment, `++` or `--`, an arrow, or what may follow a value (ECMA-262, sections 13.3, 13.4,
/// 13.15 and 15.3).
pub fn after_operand(
    alloc: Global,
    outer: Outer,
    value: Expr,
    accesses: usize,
    token: &Token,
) -> Result<State, StepEnd>
    ensures { Steps (spec.after_operand true outer value accesses token.now) result }
{
    match &token.kind {
        TokenKind::Punctuator(sign) => operand_sign(alloc, outer, value, accesses, token, *sign),
        _ => after_whole(alloc, outer, value, token),
    }
}

/// The token behind the name `async`, where an operand began with it: on the same line, what it
/// begins (ECMA-262, sections 15.8 and 15.9).
pub fn after_async(alloc: Global, outer: Outer, name: Name, token: &Token) -> Result<State, StepEnd>
    ensures { Steps (spec.after_async true outer name token.now) result }
{
    if !token.after_line_end {
        return async_kind(alloc, outer, name, token);
    }
    after_operand(alloc, outer, Expr::Name(name), 0, token)
}

/// .. on the same line.
fn async_kind(alloc: Global, outer: Outer, name: Name, token: &Token) -> Result<State, StepEnd>
    ensures { Steps (spec.async_kind true outer name token.now token.now.kind) result }
{
    match &token.kind {
        TokenKind::Reserved(word) => match word {
            Reserved::Function => async_function(outer),
            _ => after_operand(alloc, outer, Expr::Name(name), 0, token),
        },
        TokenKind::Name(units) => {
            if is_whole(&outer) {
                let parameter = name_at(alloc, token.place, units)?;
                to(outer, At::Arrow(true, with(Seq::new(alloc), parameter)?))
            } else {
                after_operand(alloc, outer, Expr::Name(name), 0, token)
            }
        }
        TokenKind::Punctuator(sign) => match sign {
            Punctuator::OpenParen => async_paren(alloc, outer, name),
            _ => after_operand(alloc, outer, Expr::Name(name), 0, token),
        },
        _ => after_operand(alloc, outer, Expr::Name(name), 0, token),
    }
}

/// `async` `function` at the begin of a statement declares, and stands not as a body.
fn async_function(outer: Outer) -> Result<State, StepEnd>
    ensures { Steps (spec.async_function outer) result }
{
    if !begins_statement(&outer) {
        return to(outer, At::FunctionName(false, true));
    }
    let (outer, _) = pop(outer);
    if in_body(&outer) {
        return refuse();
    }
    to(outer, At::FunctionName(true, true))
}

/// `async` `(`: a call, or the parameters of an arrow where one may stand.
fn async_paren(alloc: Global, outer: Outer, name: Name) -> Result<State, StepEnd>
    ensures { Steps (spec.async_paren outer name) result }
{
    if is_whole(&outer) {
        return to(outer, At::CoverOpen(Cover::Async(name), Seq::new(alloc)));
    }
    let callee = Callee::Value(Expr::Name(name), 0);
    to(outer, At::NextArgument(callee, Seq::new(alloc)))
}

/// The names as values.
fn as_values(alloc: Global, names: Seq<Name>) -> Result<Seq<Expr>, NoMemory>
    ensures { IfOk result (λ values. values ≡ spec.as_values names) }
{
    let mut values = Seq::new(alloc);
    for name in names.into_vec() {
        values.push(Expr::Name(name))?;
    }
    Ok(values)
}

/// What the brackets are, where the names are values: a group, or those of a call.
fn uncovered(alloc: Global, cover: Cover, names: Seq<Name>) -> Result<Purpose, NoMemory>
    ensures { IfOk result (λ purpose. purpose ≡ spec.uncovered cover names) }
{
    match cover {
        Cover::Plain => Ok(Purpose::Group),
        Cover::Async(name) => {
            let callee = Callee::Value(Expr::Name(name), 0);
            Ok(Purpose::Argument(callee, as_values(alloc, names)?))
        }
    }
}

/// The names are values, and a value follows them.
fn uncover(alloc: Global, outer: Outer, cover: Cover, names: Seq<Name>) -> Result<Outer, NoMemory>
    ensures { IfOk result (λ inside. inside ≡ spec.uncover outer cover names) }
{
    push(outer, 1, Frame::Purpose(uncovered(alloc, cover, names)?))
}

/// The name `async` stands before the brackets.
fn is_async_cover(cover: &Cover) -> bool
    ensures { result ≡ spec.is_async_cover cover.now }
{
    match cover {
        Cover::Plain => false,
        Cover::Async(_) => true,
    }
}

/// There is no name.
fn has_none(names: &Seq<Name>) -> bool
    ensures { result ≡ spec.has_none names.now }
{
    match names.as_slice() {
        [] => true,
        _ => false,
    }
}

/// A value other than a name may stand in the brackets.
fn may_be_values(cover: &Cover, names: &Seq<Name>) -> bool
    ensures { result ≡ spec.may_be_values cover.now names.now }
{
    match cover {
        Cover::Plain => has_none(names),
        Cover::Async(_) => true,
    }
}

/// The token behind `(` or a comma, where the names in the brackets may be parameters: a name, `)`, or
/// what begins a value (ECMA-262, sections 13.2 and 15.3).
pub fn on_cover_open(
    alloc: Global,
    outer: Outer,
    cover: Cover,
    names: Seq<Name>,
    token: &Token,
) -> Result<State, StepEnd>
    ensures { Steps (spec.on_cover_open outer cover names token.now) result }
{
    match &token.kind {
        TokenKind::Name(units) => {
            let name = name_at(alloc, token.place, units)?;
            to(outer, At::CoverName(cover, names, name))
        }
        _ => on_cover_other(alloc, outer, cover, names, token),
    }
}

/// .. and the token is no name.
fn on_cover_other(
    alloc: Global,
    outer: Outer,
    cover: Cover,
    names: Seq<Name>,
    token: &Token,
) -> Result<State, StepEnd>
    ensures { Steps (spec.on_cover_other outer cover names token.now) result }
{
    if is_close_paren(token) {
        return to(outer, At::Covered(cover, names, false));
    }
    if may_be_values(&cover, &names) {
        return begin(alloc, uncover(alloc, outer, cover, names)?, token);
    }
    refuse_at(Spot::Parameter)
}

/// Behind a name where an operand began with it.
fn after_name(alloc: Global, outer: Outer, name: Name, token: &Token) -> Result<State, StepEnd>
    ensures { Steps (spec.after_name true outer name token.now) result }
{
    if is_async(&name.units) {
        after_async(alloc, outer, name, token)
    } else {
        after_operand(alloc, outer, Expr::Name(name), 0, token)
    }
}

/// The token behind a name that may be a parameter: a comma or `)`, or the name begins a value
/// (ECMA-262, sections 13.2 and 15.3).
pub fn on_cover_name(
    alloc: Global,
    outer: Outer,
    cover: Cover,
    names: Seq<Name>,
    last: Name,
    token: &Token,
) -> Result<State, StepEnd>
    ensures { Steps (spec.on_cover_name true outer cover names last token.now) result }
{
    if is_comma(token) {
        return to(outer, At::CoverOpen(cover, with(names, last)?));
    }
    if is_close_paren(token) {
        let is_alone = has_none(&names);
        return to(outer, At::Covered(cover, with(names, last)?, is_alone));
    }
    if !may_be_values(&cover, &names) {
        return refuse_at(Spot::Parameter);
    }
    after_name(alloc, uncover(alloc, outer, cover, names)?, last, token)
}

/// The name, where it is the only one.
fn only_name(names: Seq<Name>) -> Option<Name>
    ensures { result ≡ spec.only_name names }
{
    let mut names = names.into_vec();
    match names.pop() {
        Some(name) => { if names.is_empty() { Some(name) } else { None } }
        None => None,
    }
}

/// The brackets round the only name, which is a value.
fn group_of(alloc: Global, outer: Outer, names: Seq<Name>, token: &Token) -> Result<State, StepEnd>
    ensures { Steps (spec.group_of true outer token.now (spec.only_name names)) result }
{
    match only_name(names) {
        Some(name) => {
            let group = Expr::Group(boxed(alloc, Expr::Name(name))?);
            after_operand(alloc, outer, group, 0, token)
        }
        None => refuse(),
    }
}

/// The token behind brackets round names: `=>` on the same line makes them parameters, and another
/// token a group or a call (ECMA-262, sections 13.2.9, 13.3.6 and 15.3).
pub fn on_covered(
    alloc: Global,
    outer: Outer,
    cover: Cover,
    names: Seq<Name>,
    is_alone: bool,
    token: &Token,
) -> Result<State, StepEnd>
    ensures { Steps (spec.on_covered true outer cover names is_alone token.now) result }
{
    if is_arrow(token) && !token.after_line_end {
        return to(outer, At::ArrowBody(is_async_cover(&cover), names));
    }
    match cover {
        Cover::Async(name) => {
            let callee = boxed(alloc, Expr::Name(name))?;
            let call = Expr::Call(callee, as_values(alloc, names)?);
            after_operand(alloc, outer, call, 1, token)
        }
        Cover::Plain => {
            if is_alone {
                group_of(alloc, outer, names, token)
            } else {
                refuse()
            }
        }
    }
}

/// The token behind the parameters of an arrow: `=>` on the same line (ECMA-262, section 15.3).
pub fn on_arrow(
    outer: Outer,
    is_async: bool,
    parameters: Seq<Name>,
    token: &Token,
) -> Result<State, StepEnd>
    ensures { Steps (spec.on_arrow outer is_async parameters token.now) result }
{
    if is_arrow(token) && !token.after_line_end {
        return to(outer, At::ArrowBody(is_async, parameters));
    }
    refuse()
}

/// The token behind `=>`: the `{` of a body, or what begins a value (ECMA-262, section 15.3). A body
/// without braces is a construct from the arrow on.
pub fn on_arrow_body(
    alloc: Global,
    outer: Outer,
    is_async: bool,
    parameters: Seq<Name>,
    most: usize,
    token: &Token,
) -> Result<State, StepEnd>
    ensures { Steps (spec.on_arrow_body most outer is_async parameters token.now) result }
{
    if is_open_brace(token) {
        return open_block(alloc, outer, 1, Block::Arrow(is_async, parameters));
    }
    let is_full = constructs(&outer) >= most;
    let outer = push(outer, 1, Frame::Tail(Tail::Arrow(is_async, parameters)))?;
    let state = begin(alloc, outer, token)?;
    if is_full {
        return refused(Refusal::NestingBefore);
    }
    Ok(state)
}

/// The token behind `new`: a name (ECMA-262, section 13.3.5).
pub fn on_new(alloc: Global, outer: Outer, token: &Token) -> Result<State, StepEnd>
    ensures { Steps (spec.on_new outer token.now.place token.now.kind) result }
{
    match &token.kind {
        TokenKind::Name(units) => {
            let name = name_at(alloc, token.place, units)?;
            to(outer, At::NewOpen(name))
        }
        _ => refuse(),
    }
}

/// The token behind `new` and a name: `(` (ECMA-262, section 13.3.5).
pub fn on_new_open(alloc: Global, outer: Outer, name: Name, token: &Token) -> Result<State, StepEnd>
    ensures { Steps (spec.on_new_open outer name token.now.kind) result }
{
    if is_open_paren(token) {
        let callee = Callee::New(name);
        return to(outer, At::NextArgument(callee, Seq::new(alloc)));
    }
    refuse()
}

/// The token behind the `.` of an object: a name or a reserved word (ECMA-262, section 13.3.2).
pub fn on_member(
    alloc: Global,
    outer: Outer,
    object: Expr,
    accesses: usize,
    token: &Token,
) -> Result<State, StepEnd>
    ensures { Steps (spec.on_member outer object accesses token.now) result }
{
    match any_name(alloc, token)? {
        Some(name) => {
            let member = Expr::Member(boxed(alloc, object)?, name);
            to(outer, At::Operand(member, plus(accesses, 1)))
        }
        None => refuse(),
    }
}

/// How many calls and member accesses stand before the arguments.
fn callee_accesses(callee: &Callee) -> usize
    ensures { result ≡ spec.callee_accesses callee.now }
{
    match callee {
        Callee::Value(_, accesses) => *accesses,
        Callee::New(_) => 0,
    }
}

/// The token behind the `(` of arguments or a comma between them: `)`, or what begins an argument
/// (ECMA-262, section 13.3.8).
pub fn on_argument(
    alloc: Global,
    outer: Outer,
    callee: Callee,
    arguments: Seq<Expr>,
    token: &Token,
) -> Result<State, StepEnd>
    ensures { Steps (spec.on_argument outer callee arguments token.now) result }
{
    if is_close_paren(token) {
        return call(alloc, outer, callee, arguments);
    }
    let more = plus(callee_accesses(&callee), 1);
    let purpose = Purpose::Argument(callee, arguments);
    begin(alloc, push(outer, more, Frame::Purpose(purpose))?, token)
}

/// The token behind `[` or a comma in an array: `]`, or what begins an item (ECMA-262, section
/// 13.2.4).
pub fn on_element(
    alloc: Global,
    outer: Outer,
    items: Seq<Expr>,
    token: &Token,
) -> Result<State, StepEnd>
    ensures { Steps (spec.on_element outer items token.now) result }
{
    if is_close_bracket(token) {
        return operand(outer, Expr::Array(items));
    }
    let purpose = Purpose::Element(items);
    begin(alloc, push(outer, 1, Frame::Purpose(purpose))?, token)
}
