ghost use Rattle.std.specs.Prelude.{◌≡◌, true};
ghost use Rattle.js_grammar.specs.Script.{most_open};
ghost use Rattle.js_parse_core.specs.Machine as spec;
ghost use Rattle.js_parse_core.specs.Steps.{Steps};

use crate::expressions::{
    after_async, after_operand, on_argument, on_arrow, on_arrow_body, on_cover_name, on_cover_open,
    on_covered, on_element, on_member, on_new, on_new_open,
};
use crate::values::{after_value, after_whole};
use js_lex::Token;
use js_parse_core::{
    At, Callee, Outer, Refusal, State, StepEnd, begin, constructs, plus, refuse, refused,
};
use js_parse_statements::{
    after_catch, after_export, after_then, after_try, head_constructs, on_async_key,
    on_async_method, on_body_open, on_catch, on_catch_body, on_catch_close, on_catch_name,
    on_declared_name, on_export_object, on_export_word, on_finally, on_for_head, on_for_test,
    on_for_update, on_function_name, on_jump, on_key, on_name_declared, on_name_key, on_opening,
    on_other_key, on_parameter_read, on_parameters, on_parameters_open, on_property_end, on_return,
    on_statement, on_throw, on_try,
};
use std::alloc::Global;

/// So many constructs may be open at once.
pub const MOST_OPEN: usize = 128;

/// What the token does in expressions, or in what is left.
fn step_in(alloc: Global, outer: Outer, at: At, token: &Token) -> Result<State, StepEnd>
    ensures { Steps (spec.step_in most_open true outer at token.now) result }
{
    match at {
        At::Statement => on_statement(alloc, outer, token),
        At::Begin => begin(alloc, outer, token),
        At::Operand(value, accesses) => after_operand(alloc, outer, value, accesses, token),
        At::Updated(value) => after_value(alloc, outer, value, token),
        At::Whole(value) => after_whole(alloc, outer, value, token),
        At::MemberName(object, accesses) => on_member(alloc, outer, object, accesses, token),
        At::NextArgument(callee, values) => on_argument(alloc, outer, callee, values, token),
        At::NextElement(items) => on_element(alloc, outer, items, token),
        at => step_in_arrow(alloc, outer, at, token),
    }
}

/// .. in arrows and `new`.
fn step_in_arrow(alloc: Global, outer: Outer, at: At, token: &Token) -> Result<State, StepEnd>
    ensures { Steps (spec.step_in_arrow most_open true outer at token.now) result }
{
    match at {
        At::Async(name) => after_async(alloc, outer, name, token),
        At::CoverOpen(cover, names) => on_cover_open(alloc, outer, cover, names, token),
        At::CoverName(cover, names, last) => on_cover_name(alloc, outer, cover, names, last, token),
        At::Covered(cover, names, is_alone) => on_covered(
            alloc, outer, cover, names, is_alone, token,
        ),
        At::Arrow(is_async, names) => on_arrow(outer, is_async, names, token),
        At::ArrowBody(is_async, names) => on_arrow_body(
            alloc, outer, is_async, names, MOST_OPEN, token,
        ),
        At::NewName => on_new(alloc, outer, token),
        At::NewOpen(name) => on_new_open(alloc, outer, name, token),
        at => step_in_object(alloc, outer, at, token),
    }
}

/// .. in objects.
fn step_in_object(alloc: Global, outer: Outer, at: At, token: &Token) -> Result<State, StepEnd>
    ensures { Steps (spec.step_in_object true outer at token.now) result }
{
    match at {
        At::Key(members) => on_key(alloc, outer, members, token),
        At::NameKey(members, name) => on_name_key(alloc, outer, members, name, token),
        At::OtherKey(members, key) => on_other_key(alloc, outer, members, key, token),
        At::AsyncKey(members, name) => on_async_key(alloc, outer, members, name, token),
        At::AsyncMethod(members, key) => on_async_method(alloc, outer, members, key, token),
        At::PropertyEnd(members) => on_property_end(outer, members, token),
        at => step_in_function(alloc, outer, at, token),
    }
}

/// .. in functions.
fn step_in_function(alloc: Global, outer: Outer, at: At, token: &Token) -> Result<State, StepEnd>
    ensures { Steps (spec.step_in_function true outer at token.now) result }
{
    match at {
        At::FunctionName(is_declaration, is_async) => on_function_name(
            alloc,
            outer,
            is_declaration,
            is_async,
            token,
        ),
        At::ParametersOpen(head) => on_parameters_open(alloc, outer, head, token),
        At::Parameters(head, names) => on_parameters(alloc, outer, head, names, token),
        At::ParameterRead(head, names, name) => on_parameter_read(outer, head, names, name, token),
        At::BodyOpen(head, names) => on_body_open(alloc, outer, head, names, token),
        at => step_in_head(alloc, outer, at, token),
    }
}

/// .. in declarations and what stands before the body of a statement.
fn step_in_head(alloc: Global, outer: Outer, at: At, token: &Token) -> Result<State, StepEnd>
    ensures { Steps (spec.step_in_head true outer at token.now) result }
{
    match at {
        At::DeclaredName(declared) => on_declared_name(alloc, outer, declared, token),
        At::NameDeclared(declared, name) => on_name_declared(alloc, outer, declared, name, token),
        At::Opening(opening) => on_opening(outer, opening, token),
        At::ForHead => on_for_head(alloc, outer, token),
        At::ForTest(start) => on_for_test(alloc, outer, start, token),
        At::ForUpdate(start, test) => on_for_update(alloc, outer, start, test, token),
        at => step_in_statement(alloc, outer, at, token),
    }
}

/// .. in other statements and exports.
fn step_in_statement(alloc: Global, outer: Outer, at: At, token: &Token) -> Result<State, StepEnd>
    ensures { Steps (spec.step_in_statement true outer at token.now) result }
{
    match at {
        At::AfterThen(test, yes) => after_then(alloc, outer, test, yes, token),
        At::Jump(stmt) => on_jump(alloc, outer, stmt, token),
        At::Return(place) => on_return(alloc, outer, place, token),
        At::Throw => on_throw(alloc, outer, token),
        At::ExportDefault => on_export_word(outer, token),
        At::ExportObject => on_export_object(alloc, outer, token),
        At::AfterExport => after_export(alloc, outer, token),
        at => step_in_try(alloc, outer, at, token),
    }
}

/// .. in `try`.
fn step_in_try(alloc: Global, outer: Outer, at: At, token: &Token) -> Result<State, StepEnd>
    ensures { Steps (spec.step_in_try outer at token.now) result }
{
    match at {
        At::TryOpen => on_try(alloc, outer, token),
        At::AfterTry(tried) => after_try(outer, tried, token),
        At::CatchOpen(tried) => on_catch(alloc, outer, tried, token),
        At::CatchName(tried) => on_catch_name(alloc, outer, tried, token),
        At::CatchClose(tried, name) => on_catch_close(outer, tried, name, token),
        At::CatchBody(tried, name) => on_catch_body(alloc, outer, tried, name, token),
        At::AfterCatch(tried, catch) => after_catch(alloc, outer, tried, catch, token),
        At::FinallyOpen(tried, catch) => on_finally(alloc, outer, tried, catch, token),
        _ => refuse(),
    }
}

/// How many constructs the arguments of this stand in.
fn callee_constructs(callee: &Callee) -> usize
    ensures { result ≡ spec.callee_constructs callee.now }
{
    match callee {
        Callee::Value(_, accesses) => plus(*accesses, 1),
        Callee::New(_) => 1,
    }
}

/// How many constructs are open behind what was read, beside those of the innermost frame.
fn more_constructs(at: &At) -> usize
    ensures { result ≡ spec.more_constructs at.now }
{
    match at {
        At::Operand(_, accesses) => *accesses,
        At::MemberName(_, accesses) => plus(*accesses, 1),
        At::NextArgument(callee, _) => callee_constructs(callee),
        At::Parameters(head, _) | At::ParameterRead(head, _, _) => head_constructs(head),
        At::CoverOpen(_, _) | At::CoverName(_, _, _) | At::NextElement(_) => 1,
        At::Key(_) | At::NameKey(_, _) | At::OtherKey(_, _) | At::AsyncKey(_, _) => 1,
        At::AsyncMethod(_, _) | At::PropertyEnd(_) => 1,
        At::ForHead | At::ForTest(_) | At::ForUpdate(_, _) => 1,
        At::CatchName(_) | At::CatchClose(_, _) => 1,
        At::Statement | At::Begin | At::Updated(_) | At::Whole(_) => 0,
        At::Async(_) | At::Covered(_, _, _) | At::Arrow(_, _) | At::ArrowBody(_, _) => 0,
        At::NewName | At::NewOpen(_) | At::FunctionName(_, _) | At::ParametersOpen(_) => 0,
        At::BodyOpen(_, _) | At::DeclaredName(_) | At::NameDeclared(_, _) => 0,
        At::Opening(_) | At::AfterThen(_, _) | At::Jump(_) | At::Return(_) | At::Throw => 0,
        At::TryOpen | At::AfterTry(_) | At::CatchOpen(_) | At::CatchBody(_, _) => 0,
        At::AfterCatch(_, _) | At::FinallyOpen(_, _) => 0,
        At::ExportDefault | At::ExportObject | At::AfterExport => 0,
    }
}

/// No more constructs are open than may be.
fn is_shallow(state: &State) -> bool
    ensures { result ≡ spec.is_shallow most_open state.now }
{
    plus(constructs(&state.outer), more_constructs(&state.at)) <= MOST_OPEN
}

/// What the token does to what was read, unless it opens one construct too many: the next state, or
/// why no continuation of the script allows it. The state is lost where memory runs out.
pub fn step(alloc: Global, state: State, token: &Token) -> Result<State, StepEnd>
    ensures { Steps (spec.step most_open true state token.now) result }
{
    let State { outer, at } = state;
    let state = step_in(alloc, outer, at, token)?;
    if is_shallow(&state) {
        Ok(state)
    } else {
        refused(Refusal::Nesting)
    }
}
