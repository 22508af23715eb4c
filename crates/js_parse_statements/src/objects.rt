ghost use Rattle.std.specs.Prelude.{◌≡◌, IfOk};
ghost use Rattle.js_parse_core.specs.Outer as machine;
ghost use Rattle.js_parse_core.specs.Objects as spec;
ghost use Rattle.js_parse_core.specs.Steps.{Steps};

use js_lex::{Punctuator, Token, TokenKind};
use js_parse_core::{
    At, Block, Frame, Head, Outer, Purpose, State, StepEnd, any_name, because, innermost, is_async,
    is_close_brace, is_comma, is_open_brace, is_open_bracket, is_open_paren, name_at, open_block,
    pop, refuse, refuse_at, refused, to, wait, with,
};
use js_tree::{Expr, Item, Key, Name, Property};
use js_words::Spot;
use std::alloc::Global;
use wd_base::{NoMemory, Seq, TryClone};

/// The object is what `export default` gives.
fn is_exported(outer: &Outer) -> bool
    ensures { result ≡ spec.is_export (machine.innermost outer.now) }
{
    match innermost(outer) {
        Some(frame) => match frame {
            Frame::Export => true,
            _ => false,
        },
        None => false,
    }
}

/// The exported object is whole.
fn export(outer: Outer, members: Seq<Property>) -> Result<State, StepEnd>
    ensures { Steps (spec.export outer members) result }
{
    let Outer {
        items,
        exported: _,
        frames,
    } = outer;
    let items = with(items, Item::Export(members))?;
    let outer = Outer {
        items,
        exported: true,
        frames,
    };
    to(outer, At::AfterExport)
}

/// The object is whole: a value, or what the script exports (ECMA-262, sections 13.2.5 and 16.2.3).
pub fn close_object(outer: Outer, members: Seq<Property>) -> Result<State, StepEnd>
    ensures { Steps (spec.close_object outer members) result }
{
    if is_exported(&outer) {
        let (outer, _) = pop(outer);
        return export(outer, members);
    }
    to(outer, At::Operand(Expr::Object(members), 0))
}

/// The token behind the `{` of an object or a comma in it: a key or `}` (ECMA-262, section 13.2.5).
pub fn on_key(
    alloc: Global,
    outer: Outer,
    members: Seq<Property>,
    token: &Token,
) -> Result<State, StepEnd>
    ensures { Steps (spec.on_key outer members token.now.place token.now.kind) result }
{
    match &token.kind {
        TokenKind::Name(units) => {
            let name = name_at(alloc, token.place, units)?;
            if is_async(units) {
                to(outer, At::AsyncKey(members, name))
            } else {
                to(outer, At::NameKey(members, name))
            }
        }
        TokenKind::Punctuator(sign) => match sign {
            Punctuator::CloseBrace => close_object(outer, members),
            _ => refuse_at(Spot::Key),
        },
        _ => match key(alloc, token)? {
            Some(key) => to(outer, At::OtherKey(members, key)),
            None => refuse_at(Spot::Key),
        },
    }
}

/// The key that the token is (ECMA-262, section 13.2.5, LiteralPropertyName).
fn key(alloc: Global, token: &Token) -> Result<Option<Key>, NoMemory>
    ensures { IfOk result (λ found. found ≡ spec.key token.now.place token.now.kind) }
{
    match &token.kind {
        TokenKind::Text(units) => Ok(Some(Key::Text(units.try_clone(alloc)?))),
        TokenKind::Number(number) => Ok(Some(Key::Number(*number))),
        _ => match any_name(alloc, token)? {
            Some(name) => Ok(Some(Key::Name(name))),
            None => Ok(None),
        },
    }
}

/// The token behind a key that cannot stand alone: `:`, or `(` of a method (ECMA-262, sections
/// 13.2.5 and 15.4).
pub fn on_other_key(
    alloc: Global,
    outer: Outer,
    members: Seq<Property>,
    key: Key,
    token: &Token,
) -> Result<State, StepEnd>
    ensures { Steps (spec.on_other_key outer members key token.now.kind) result }
{
    match &token.kind {
        TokenKind::Punctuator(sign) => match sign {
            Punctuator::Colon => wait(outer, 1, Purpose::Pair(members, key)),
            Punctuator::OpenParen => {
                let head = Head::Method(false, members, key);
                to(outer, At::Parameters(head, Seq::new(alloc)))
            }
            _ => refused(because(Some(Spot::Key), None)),
        },
        _ => refused(because(Some(Spot::Key), None)),
    }
}

/// The token behind a name as a key, which may stand alone (ECMA-262, section 13.2.5).
pub fn on_name_key(
    alloc: Global,
    outer: Outer,
    members: Seq<Property>,
    name: Name,
    token: &Token,
) -> Result<State, StepEnd>
    ensures { Steps (spec.on_name_key outer members name token.now.kind) result }
{
    if is_comma(token) {
        return to(outer, At::Key(with(members, Property::Short(name))?));
    }
    if is_close_brace(token) {
        return close_object(outer, with(members, Property::Short(name))?);
    }
    on_other_key(alloc, outer, members, Key::Name(name), token)
}

/// The token behind the name `async` as a key.
fn on_async_name(
    alloc: Global,
    outer: Outer,
    members: Seq<Property>,
    name: Name,
    token: &Token,
) -> Result<State, StepEnd>
    ensures { Steps (spec.on_async_name outer members name token.now.kind) result }
{
    if is_open_bracket(token) {
        return refuse_at(Spot::Key);
    }
    on_name_key(alloc, outer, members, name, token)
}

/// The token behind the name `async` in an object: the key of an asynchronous method on the same
/// line, or `async` is itself a key (ECMA-262, section 15.8).
pub fn on_async_key(
    alloc: Global,
    outer: Outer,
    members: Seq<Property>,
    name: Name,
    token: &Token,
) -> Result<State, StepEnd>
    ensures { Steps (spec.on_async_key outer members name token.now) result }
{
    if token.after_line_end {
        return on_async_name(alloc, outer, members, name, token);
    }
    match key(alloc, token)? {
        Some(key) => to(outer, At::AsyncMethod(members, key)),
        None => on_async_name(alloc, outer, members, name, token),
    }
}

/// The token behind `async` and a key: `(` (ECMA-262, section 15.8).
pub fn on_async_method(
    alloc: Global,
    outer: Outer,
    members: Seq<Property>,
    key: Key,
    token: &Token,
) -> Result<State, StepEnd>
    ensures { Steps (spec.on_async_method outer members key token.now.kind) result }
{
    if is_open_paren(token) {
        let head = Head::Method(true, members, key);
        return to(outer, At::Parameters(head, Seq::new(alloc)));
    }
    refuse()
}

/// The token behind a method: a comma or `}` (ECMA-262, section 13.2.5).
pub fn on_property_end(
    outer: Outer,
    members: Seq<Property>,
    token: &Token,
) -> Result<State, StepEnd>
    ensures { Steps (spec.on_property_end outer members token.now.kind) result }
{
    if is_comma(token) {
        return to(outer, At::Key(members));
    }
    if is_close_brace(token) {
        return close_object(outer, members);
    }
    refuse()
}

/// A function with a name, before its parameters.
fn named_head(is_declaration: bool, is_async: bool, name: Name) -> Head
    ensures { result ≡ spec.named_head is_declaration is_async name }
{
    if is_declaration {
        Head::Declaration(is_async, name)
    } else {
        Head::Expression(is_async, Some(name))
    }
}

/// The token behind `function`: its name, or `(` where it has none and is a value (ECMA-262, section
/// 15.2).
pub fn on_function_name(
    alloc: Global,
    outer: Outer,
    is_declaration: bool,
    is_async: bool,
    token: &Token,
) -> Result<State, StepEnd>
    ensures { Steps (spec.on_function_name outer is_declaration is_async token.now.place token.now.kind) result }
{
    match &token.kind {
        TokenKind::Name(units) => {
            let name = name_at(alloc, token.place, units)?;
            to(
                outer,
                At::ParametersOpen(named_head(is_declaration, is_async, name)),
            )
        }
        TokenKind::Punctuator(sign) => match sign {
            Punctuator::OpenParen => {
                if is_declaration {
                    return refuse();
                }
                let head = Head::Expression(is_async, None);
                to(outer, At::Parameters(head, Seq::new(alloc)))
            }
            _ => refuse(),
        },
        _ => refuse(),
    }
}

/// The token before the parameters of a function: `(` (ECMA-262, section 15.2).
pub fn on_parameters_open(
    alloc: Global,
    outer: Outer,
    head: Head,
    token: &Token,
) -> Result<State, StepEnd>
    ensures { Steps (spec.on_parameters_open outer head token.now.kind) result }
{
    if is_open_paren(token) {
        return to(outer, At::Parameters(head, Seq::new(alloc)));
    }
    refuse()
}

/// The token behind the `(` of parameters or a comma between them: a parameter or `)` (ECMA-262,
/// section 15.1).
pub fn on_parameters(
    alloc: Global,
    outer: Outer,
    head: Head,
    names: Seq<Name>,
    token: &Token,
) -> Result<State, StepEnd>
    ensures { Steps (spec.on_parameters outer head names token.now.place token.now.kind) result }
{
    match &token.kind {
        TokenKind::Name(units) => {
            let name = name_at(alloc, token.place, units)?;
            to(outer, At::ParameterRead(head, names, name))
        }
        TokenKind::Punctuator(sign) => match sign {
            Punctuator::CloseParen => to(outer, At::BodyOpen(head, names)),
            _ => refuse_at(Spot::Parameter),
        },
        _ => refuse_at(Spot::Parameter),
    }
}

/// The token behind a parameter: a comma or `)` (ECMA-262, section 15.1).
pub fn on_parameter_read(
    outer: Outer,
    head: Head,
    names: Seq<Name>,
    name: Name,
    token: &Token,
) -> Result<State, StepEnd>
    ensures { Steps (spec.on_parameter_read outer head names name token.now.kind) result }
{
    let names = with(names, name)?;
    match &token.kind {
        TokenKind::Punctuator(sign) => match sign {
            Punctuator::Comma => to(outer, At::Parameters(head, names)),
            Punctuator::CloseParen => to(outer, At::BodyOpen(head, names)),
            _ => refuse_at(Spot::Parameter),
        },
        _ => refuse_at(Spot::Parameter),
    }
}

/// The constructs that a function's body opens, the object of a method among them.
pub fn head_constructs(head: &Head) -> usize
    ensures { result ≡ spec.head_constructs head.now }
{
    match head {
        Head::Method(_, _, _) => 2,
        Head::Declaration(_, _) | Head::Expression(_, _) => 1,
    }
}

/// The token before the body of a function: `{` (ECMA-262, section 15.2).
pub fn on_body_open(
    alloc: Global,
    outer: Outer,
    head: Head,
    names: Seq<Name>,
    token: &Token,
) -> Result<State, StepEnd>
    ensures { Steps (spec.on_body_open outer head names token.now.kind) result }
{
    if is_open_brace(token) {
        let more = head_constructs(&head);
        return open_block(alloc, outer, more, Block::Function(head, names));
    }
    refuse()
}
