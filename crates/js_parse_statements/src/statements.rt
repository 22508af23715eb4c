ghost use Rattle.std.specs.Prelude.{◌≡◌, ◌&&◌, cond, true, false, Err, IfOk};
ghost use Rattle.js_parse_core.specs.Outer as machine;
ghost use Rattle.js_parse_core.specs.Statements as spec;
ghost use Rattle.js_parse_core.specs.Steps.{Steps};

use js_lex::{Punctuator, Reserved, Token, TokenKind};
use js_parse_core::{
    Asked, At, Block, Body, Declared, Frame, Head, Opening, Outer, Purpose, Refusal, State,
    StepEnd, because, begin, boxed, complete, in_body, is_close_paren, is_comma, is_default,
    is_else, is_equal, is_finally, is_of, is_open_brace, is_open_paren, is_semicolon, is_top,
    may_end, name_at, open_block, pop, push, refuse, refuse_at, refused, settle, to, wait,
    wait_body, with,
};
use js_tree::{
    ArrowBody, Catch, Declaration, DeclareKind, Expr, ForBegin, Function, Name, Property, Stmt,
};
use js_words::Spot;
use std::alloc::Global;
use wd_base::{NoMemory, Seq};

/// A declaration begins, which cannot be the body of another statement (ECMA-262, section 14).
fn not_in_body(outer: Outer, at: At) -> Result<State, StepEnd>
    ensures { Steps (spec.not_in_body outer at) result }
{
    if in_body(&outer) {
        refuse_at(Spot::StatementBegin)
    } else {
        to(outer, at)
    }
}

/// `let` or `const`, with nothing declared so far.
fn declares(alloc: Global, kind: DeclareKind, in_for: bool) -> Declared
    ensures { result ≡ spec.declares kind in_for }
{
    Declared {
        kind,
        in_for,
        declarations: Seq::new(alloc),
    }
}

/// `let` or `const` at the begin of a statement.
fn declare(alloc: Global, outer: Outer, kind: DeclareKind) -> Result<State, StepEnd>
    ensures { Steps (spec.not_in_body outer (At.DeclaredName (spec.declares kind false))) result }
{
    not_in_body(outer, At::DeclaredName(declares(alloc, kind, false)))
}

/// .. behind `for (`.
fn declare_in_for(alloc: Global, outer: Outer, kind: DeclareKind) -> Result<State, StepEnd>
    ensures { Steps (machine.to outer (At.DeclaredName (spec.declares kind true))) result }
{
    to(outer, At::DeclaredName(declares(alloc, kind, true)))
}

/// `export` stands at the top level, and once at most (ECMA-262, section 16.2.3).
fn on_export(outer: Outer) -> Result<State, StepEnd>
    ensures { Steps (spec.on_export outer) result }
{
    if is_top(&outer) && !outer.exported {
        to(outer, At::ExportDefault)
    } else {
        refuse_at(Spot::StatementBegin)
    }
}

/// An expression begins as a statement.
fn expression_statement(alloc: Global, outer: Outer, token: &Token) -> Result<State, StepEnd>
    ensures { Steps (spec.expression_statement outer token.now) result }
{
    let outer = push(outer, 0, Frame::Purpose(Purpose::Statement))?;
    begin(alloc, outer, token)
}

/// A reserved word where a statement begins.
fn begin_by_word(
    alloc: Global,
    outer: Outer,
    word: Reserved,
    token: &Token,
) -> Result<State, StepEnd>
    ensures { Steps (spec.begin_by_word outer token.now word) result }
{
    match word {
        Reserved::If => to(outer, At::Opening(Opening::If)),
        Reserved::While => to(outer, At::Opening(Opening::While)),
        Reserved::For => to(outer, At::Opening(Opening::For)),
        Reserved::Break => to(outer, At::Jump(Stmt::Break(token.place))),
        Reserved::Continue => to(outer, At::Jump(Stmt::Continue(token.place))),
        Reserved::Return => to(outer, At::Return(token.place)),
        Reserved::Throw => to(outer, At::Throw),
        Reserved::Try => to(outer, At::TryOpen),
        Reserved::Function => not_in_body(outer, At::FunctionName(true, false)),
        Reserved::Export => on_export(outer),
        Reserved::Let => declare(alloc, outer, DeclareKind::Let),
        Reserved::Const => declare(alloc, outer, DeclareKind::Const),
        _ => expression_statement(alloc, outer, token),
    }
}

/// `{` as the begin of a statement: the braces of a body are the body.
fn begin_block(alloc: Global, outer: Outer) -> Result<State, StepEnd>
    ensures { Steps (machine.open_block outer (spec.block_constructs (machine.in_body outer)) Block.Plain) result }
{
    let more = block_constructs(in_body(&outer));
    open_block(alloc, outer, more, Block::Plain)
}

/// How many constructs a block opens: none where it is a body, which is counted already.
fn block_constructs(is_body: bool) -> usize
    ensures { result ≡ spec.block_constructs is_body }
{
    if is_body { 0 } else { 1 }
}

/// The end of the script, where a statement may begin.
fn end_script(outer: Outer) -> Result<State, StepEnd>
    ensures { Steps (spec.end_script outer) result }
{
    if is_top(&outer) {
        to(outer, At::Statement)
    } else {
        refuse_at(Spot::StatementBegin)
    }
}

/// A sign where a statement begins, or where the braces round it end.
fn begin_by_sign(
    alloc: Global,
    outer: Outer,
    sign: Punctuator,
    token: &Token,
) -> Result<State, StepEnd>
    ensures { Steps (spec.begin_by_sign outer token.now sign) result }
{
    match sign {
        Punctuator::OpenBrace => begin_block(alloc, outer),
        Punctuator::CloseBrace => close_block(alloc, outer),
        Punctuator::Semicolon => complete(alloc, outer, Stmt::Empty),
        _ => expression_statement(alloc, outer, token),
    }
}

/// The token stands where a statement, the end of a block or the end of the script may stand
/// (ECMA-262, section 14).
pub fn on_statement(alloc: Global, outer: Outer, token: &Token) -> Result<State, StepEnd>
    ensures { Steps (spec.on_statement outer token.now) result }
{
    match &token.kind {
        TokenKind::Punctuator(sign) => begin_by_sign(alloc, outer, *sign, token),
        TokenKind::Reserved(word) => begin_by_word(alloc, outer, *word, token),
        TokenKind::End => end_script(outer),
        _ => expression_statement(alloc, outer, token),
    }
}

/// The function of these parts.
fn function_of(is_async: bool, parameters: Seq<Name>, body: Seq<Stmt>) -> Function
    ensures { result ≡ spec.function is_async parameters body }
{
    Function {
        is_async,
        parameters,
        body,
    }
}

/// The body of a function is whole.
fn close_function(
    alloc: Global,
    outer: Outer,
    head: Head,
    parameters: Seq<Name>,
    body: Seq<Stmt>,
) -> Result<State, StepEnd>
    ensures { Steps (spec.close_function outer head parameters body) result }
{
    match head {
        Head::Declaration(is_async, name) => {
            let function = function_of(is_async, parameters, body);
            complete(alloc, outer, Stmt::DeclareFunction(name, function))
        }
        Head::Expression(is_async, name) => {
            let function = function_of(is_async, parameters, body);
            to(outer, At::Operand(Expr::Function(name, function), 0))
        }
        Head::Method(is_async, members, key) => {
            let function = function_of(is_async, parameters, body);
            let members = with(members, Property::Method(key, function))?;
            to(outer, At::PropertyEnd(members))
        }
    }
}

/// The statements between braces are whole.
fn close(alloc: Global, outer: Outer, block: Block, body: Seq<Stmt>) -> Result<State, StepEnd>
    ensures { Steps (spec.close outer block body) result }
{
    match block {
        Block::Plain => complete(alloc, outer, Stmt::Block(body)),
        Block::Function(head, parameters) => close_function(alloc, outer, head, parameters, body),
        Block::Arrow(is_async, parameters) => {
            let body = ArrowBody::Statements(body);
            let arrow = Expr::Arrow {
                is_async,
                parameters,
                body,
            };
            to(outer, At::Whole(arrow))
        }
        Block::Try => to(outer, At::AfterTry(body)),
        Block::Catch(tried, name) => to(outer, At::AfterCatch(tried, Catch { name, body })),
        Block::Finally(tried, catch) => {
            let stmt = Stmt::Try {
                body: tried,
                catch,
                finally: Some(body),
            };
            complete(alloc, outer, stmt)
        }
    }
}

/// `}` where a statement may begin ends the innermost block.
fn close_block(alloc: Global, outer: Outer) -> Result<State, StepEnd>
    ensures { Steps (spec.close_block outer) result }
{
    let (outer, frame) = pop(outer);
    close_frame(alloc, outer, frame)
}

/// The innermost frame ends, if it is a block.
fn close_frame(alloc: Global, outer: Outer, frame: Option<Frame>) -> Result<State, StepEnd>
    ensures { Steps (spec.close_frame outer frame) result }
{
    match frame {
        Some(frame) => match frame {
            Frame::Block(block, body) => close(alloc, outer, block, body),
            _ => refuse_at(Spot::StatementBegin),
        },
        None => refuse_at(Spot::StatementBegin),
    }
}

/// Why a token is refused that stands behind a line end: for the reason on its line, where it is
/// refused behind the line end too.
fn behind_end(found: Refusal, why: Refusal) -> Refusal
    ensures { spec.behind_end (Err found) why ≡ Err result }
{
    match found {
        Refusal::Token(_) => with_end(why),
        Refusal::Plain => Refusal::Plain,
        Refusal::Nesting => Refusal::Nesting,
        Refusal::NestingBefore => Refusal::NestingBefore,
    }
}

/// The same reason, where an automatic end may stand before the token.
fn with_end(why: Refusal) -> Refusal
    ensures { result ≡ spec.with_end why }
{
    match why {
        Refusal::Token(asked) => Refusal::Token(Asked {
            before: asked.before,
            here: asked.here,
            ended: true,
        }),
        Refusal::Plain => Refusal::Plain,
        Refusal::Nesting => Refusal::Nesting,
        Refusal::NestingBefore => Refusal::NestingBefore,
    }
}

/// `else` stands there, behind the first branch of its `if`.
fn to_else(outer: Outer, at: At) -> Result<State, StepEnd>
    ensures { Steps (spec.to_else outer at) result }
{
    match at {
        At::AfterThen(test, yes) => wait_body(outer, Body::Else(test, yes)),
        _ => refuse_at(Spot::StatementBegin),
    }
}

/// `else` stands behind a statement that is whole.
fn else_behind(alloc: Global, outer: Outer, stmt: Stmt) -> Result<State, StepEnd>
    ensures { Steps (spec.else_behind (machine.complete outer stmt)) result }
{
    let State { outer, at } = complete(alloc, outer, stmt)?;
    to_else(outer, at)
}

/// The token stands behind a statement that is whole, and that an `else` may follow.
fn resume(alloc: Global, outer: Outer, stmt: Stmt, token: &Token) -> Result<State, StepEnd>
    ensures { Steps (spec.resume outer stmt token.now) result }
{
    if is_else(token) {
        return else_behind(alloc, outer, stmt);
    }
    let State { outer, at: _ } = settle(alloc, outer, stmt)?;
    on_statement(alloc, outer, token)
}

/// The statement is whole but for its end: `;`, or an automatic one before the token (ECMA-262,
/// section 12.10). A token that is no end is refused for this reason.
pub fn end(
    alloc: Global,
    outer: Outer,
    stmt: Stmt,
    token: &Token,
    why: Refusal,
) -> Result<State, StepEnd>
    ensures { Steps (spec.end true outer stmt token.now why) result }
{
    if is_semicolon(token) {
        return complete(alloc, outer, stmt);
    }
    if may_end(token) {
        return match resume(alloc, outer, stmt, token) {
            Ok(state) => Ok(state),
            Err(end) => match end {
                StepEnd::Refused(found) => refused(behind_end(found, why)),
                StepEnd::NoMemory => Err(StepEnd::NoMemory),
            },
        };
    }
    refused(why)
}

/// The token behind the first branch of an `if`: `else`, or what follows the whole statement
/// (ECMA-262, section 14.6).
pub fn after_then(
    alloc: Global,
    outer: Outer,
    test: Expr,
    yes: Stmt,
    token: &Token,
) -> Result<State, StepEnd>
    ensures { Steps (spec.after_then outer test yes token.now) result }
{
    if is_else(token) {
        return wait_body(outer, Body::Else(test, yes));
    }
    resume(
        alloc,
        outer,
        Stmt::If(test, boxed(alloc, yes)?, None),
        token,
    )
}

/// The token behind `if`, `while` or `for`: `(` (ECMA-262, sections 14.6 and 14.7).
pub fn on_opening(outer: Outer, opening: Opening, token: &Token) -> Result<State, StepEnd>
    ensures { Steps (spec.on_opening outer opening token.now.kind) result }
{
    if !is_open_paren(token) {
        return refuse();
    }
    match opening {
        Opening::If => wait(outer, 1, Purpose::If),
        Opening::While => wait(outer, 1, Purpose::While),
        Opening::For => to(outer, At::ForHead),
    }
}

/// An expression begins behind `for (`.
fn for_start(alloc: Global, outer: Outer, token: &Token) -> Result<State, StepEnd>
    ensures { Steps (spec.for_start outer token.now) result }
{
    let outer = push(outer, 1, Frame::Purpose(Purpose::ForStart))?;
    begin(alloc, outer, token)
}

/// A reserved word behind `for (`.
fn on_for_word(alloc: Global, outer: Outer, word: Reserved, token: &Token) -> Result<State, StepEnd>
    ensures { Steps (spec.on_for_kind outer token.now (TokenKind.Reserved word)) result }
{
    match word {
        Reserved::Let => declare_in_for(alloc, outer, DeclareKind::Let),
        Reserved::Const => declare_in_for(alloc, outer, DeclareKind::Const),
        _ => for_start(alloc, outer, token),
    }
}

/// The token behind `for (`: declarations, an expression or nothing (ECMA-262, section 14.7.4).
pub fn on_for_head(alloc: Global, outer: Outer, token: &Token) -> Result<State, StepEnd>
    ensures { Steps (spec.on_for_head outer token.now) result }
{
    match &token.kind {
        TokenKind::Reserved(word) => on_for_word(alloc, outer, *word, token),
        TokenKind::Punctuator(sign) => match sign {
            Punctuator::Semicolon => to(outer, At::ForTest(ForBegin::Nothing)),
            _ => for_start(alloc, outer, token),
        },
        _ => for_start(alloc, outer, token),
    }
}

/// The token behind `for (begin;`: the test begins, or there is none (ECMA-262, section 14.7.4).
pub fn on_for_test(
    alloc: Global,
    outer: Outer,
    start: ForBegin,
    token: &Token,
) -> Result<State, StepEnd>
    ensures { Steps (spec.on_for_test outer start token.now) result }
{
    if is_semicolon(token) {
        return to(outer, At::ForUpdate(start, None));
    }
    let outer = push(outer, 1, Frame::Purpose(Purpose::ForTest(start)))?;
    begin(alloc, outer, token)
}

/// The token behind `for (begin; test;`: the update begins, or there is none and the body comes
/// (ECMA-262, section 14.7.4).
pub fn on_for_update(
    alloc: Global,
    outer: Outer,
    start: ForBegin,
    test: Option<Expr>,
    token: &Token,
) -> Result<State, StepEnd>
    ensures { Steps (spec.on_for_update outer start test token.now) result }
{
    if is_close_paren(token) {
        return wait_body(outer, Body::For(start, test, None));
    }
    let outer = push(outer, 1, Frame::Purpose(Purpose::ForUpdate(start, test)))?;
    begin(alloc, outer, token)
}

/// The token behind `return`: the value begins on the same line, or there is none (ECMA-262,
/// section 14.10).
pub fn on_return(alloc: Global, outer: Outer, place: usize, token: &Token) -> Result<State, StepEnd>
    ensures { Steps (spec.on_return true outer place token.now) result }
{
    let why = because(None, Some(Spot::ExpressionBegin));
    if may_end(token) || is_semicolon(token) {
        return end(alloc, outer, Stmt::Return(place, None), token, why);
    }
    let outer = push(outer, 0, Frame::Purpose(Purpose::Return(place)))?;
    begin(alloc, outer, token)
}

/// The token behind `throw`: the value begins, on the same line (ECMA-262, section 14.14).
pub fn on_throw(alloc: Global, outer: Outer, token: &Token) -> Result<State, StepEnd>
    ensures { Steps (spec.on_throw outer token.now) result }
{
    if token.after_line_end {
        return refused(Refusal::Plain);
    }
    let outer = push(outer, 0, Frame::Purpose(Purpose::Throw))?;
    begin(alloc, outer, token)
}

/// The token behind `break` or `continue`: the statement ends (ECMA-262, sections 14.8 and 14.9).
pub fn on_jump(alloc: Global, outer: Outer, stmt: Stmt, token: &Token) -> Result<State, StepEnd>
    ensures { Steps (spec.on_jump true outer stmt token.now) result }
{
    let why = because(None, None);
    end(alloc, outer, stmt, token, why)
}

/// The token behind `let`, `const` or a comma of their list: a name (ECMA-262, section 14.3.1).
pub fn on_declared_name(
    alloc: Global,
    outer: Outer,
    declared: Declared,
    token: &Token,
) -> Result<State, StepEnd>
    ensures { Steps (spec.on_declared_name outer declared token.now.place token.now.kind) result }
{
    match &token.kind {
        TokenKind::Name(units) => {
            let name = name_at(alloc, token.place, units)?;
            to(outer, At::NameDeclared(declared, name))
        }
        _ => refuse_at(Spot::DeclaredName),
    }
}

/// The list of `let` or `const` with one more declaration, with its value if it has one.
pub fn with_declaration(
    declared: Declared,
    name: Name,
    value: Option<Expr>,
) -> Result<Declared, NoMemory>
    ensures { IfOk result (λ longer. longer ≡ spec.with_declaration declared name value) }
{
    let Declared {
        kind,
        in_for,
        declarations,
    } = declared;
    let declarations = with(declarations, Declaration { name, value })?;
    Ok(Declared {
        kind,
        in_for,
        declarations,
    })
}

/// The token behind a declaration without a value.
fn on_bare_name(
    alloc: Global,
    outer: Outer,
    declared: Declared,
    token: &Token,
) -> Result<State, StepEnd>
    ensures { Steps (spec.on_bare_name true outer declared token.now) result }
{
    if is_comma(token) {
        return to(outer, At::DeclaredName(declared));
    }
    let Declared {
        kind,
        in_for,
        declarations,
    } = declared;
    if in_for {
        if is_semicolon(token) {
            let start = ForBegin::Declarations(kind, declarations);
            return to(outer, At::ForTest(start));
        }
        return refuse();
    }
    let why = because(None, None);
    end(alloc, outer, Stmt::Declare(kind, declarations), token, why)
}

/// How many constructs are open round a declared value: the brackets of a `for`, or none.
fn value_constructs(in_for: bool) -> usize
    ensures { result ≡ cond in_for 1 0 }
{
    if in_for { 1 } else { 0 }
}

/// Nothing was declared before within the brackets of a `for`.
fn is_first_in_for(declared: &Declared) -> bool
    ensures { result ≡ (declared.now.in_for && spec.is_first declared.now.declarations) }
{
    if !declared.in_for {
        return false;
    }
    match declared.declarations.as_slice() {
        [] => true,
        _ => false,
    }
}

/// The token behind a declared name: `=`, `of` in a `for`, or the end of a `let` without a value
/// (ECMA-262, sections 14.3.1 and 14.7.5).
pub fn on_name_declared(
    alloc: Global,
    outer: Outer,
    declared: Declared,
    name: Name,
    token: &Token,
) -> Result<State, StepEnd>
    ensures { Steps (spec.on_name_declared true outer declared name token.now) result }
{
    if is_equal(token) {
        let more = value_constructs(declared.in_for);
        return wait(outer, more, Purpose::Initial(declared, name));
    }
    if is_first_in_for(&declared) && is_of(token) {
        return wait(outer, 1, Purpose::ForOf(declared.kind, name));
    }
    match declared.kind {
        DeclareKind::Let => {
            let declared = with_declaration(declared, name, None)?;
            on_bare_name(alloc, outer, declared, token)
        }
        DeclareKind::Const => refuse(),
    }
}

/// The token behind `try`: `{` (ECMA-262, section 14.15).
pub fn on_try(alloc: Global, outer: Outer, token: &Token) -> Result<State, StepEnd>
    ensures { Steps (spec.on_try outer token.now.kind) result }
{
    if is_open_brace(token) {
        return open_block(alloc, outer, 1, Block::Try);
    }
    refuse()
}

/// The token behind the block of a `try`: `catch` or `finally` (ECMA-262, section 14.15).
pub fn after_try(outer: Outer, tried: Seq<Stmt>, token: &Token) -> Result<State, StepEnd>
    ensures { Steps (spec.after_try outer tried token.now.kind) result }
{
    match &token.kind {
        TokenKind::Reserved(word) => match word {
            Reserved::Catch => to(outer, At::CatchOpen(tried)),
            Reserved::Finally => to(outer, At::FinallyOpen(tried, None)),
            _ => refuse(),
        },
        _ => refuse(),
    }
}

/// The token behind `catch`: the brackets of its name, or its block (ECMA-262, section 14.15).
pub fn on_catch(
    alloc: Global,
    outer: Outer,
    tried: Seq<Stmt>,
    token: &Token,
) -> Result<State, StepEnd>
    ensures { Steps (spec.on_catch outer tried token.now.kind) result }
{
    match &token.kind {
        TokenKind::Punctuator(sign) => match sign {
            Punctuator::OpenParen => to(outer, At::CatchName(tried)),
            Punctuator::OpenBrace => open_block(alloc, outer, 1, Block::Catch(tried, None)),
            _ => refuse(),
        },
        _ => refuse(),
    }
}

/// The token behind `catch (`: a name (ECMA-262, section 14.15).
pub fn on_catch_name(
    alloc: Global,
    outer: Outer,
    tried: Seq<Stmt>,
    token: &Token,
) -> Result<State, StepEnd>
    ensures { Steps (spec.on_catch_name outer tried token.now.place token.now.kind) result }
{
    match &token.kind {
        TokenKind::Name(units) => {
            let name = name_at(alloc, token.place, units)?;
            to(outer, At::CatchClose(tried, name))
        }
        _ => refuse_at(Spot::DeclaredName),
    }
}

/// The token behind `catch (name`: `)` (ECMA-262, section 14.15).
pub fn on_catch_close(
    outer: Outer,
    tried: Seq<Stmt>,
    name: Name,
    token: &Token,
) -> Result<State, StepEnd>
    ensures { Steps (spec.on_catch_close outer tried name token.now.kind) result }
{
    if is_close_paren(token) {
        return to(outer, At::CatchBody(tried, name));
    }
    refuse()
}

/// The token behind `catch (name)`: `{` (ECMA-262, section 14.15).
pub fn on_catch_body(
    alloc: Global,
    outer: Outer,
    tried: Seq<Stmt>,
    name: Name,
    token: &Token,
) -> Result<State, StepEnd>
    ensures { Steps (spec.on_catch_body outer tried name token.now.kind) result }
{
    if is_open_brace(token) {
        return open_block(alloc, outer, 1, Block::Catch(tried, Some(name)));
    }
    refuse()
}

/// The token behind the block of a `catch`: `finally`, or what follows the whole statement
/// (ECMA-262, section 14.15).
pub fn after_catch(
    alloc: Global,
    outer: Outer,
    tried: Seq<Stmt>,
    catch: Catch,
    token: &Token,
) -> Result<State, StepEnd>
    ensures { Steps (spec.after_catch outer tried catch token.now) result }
{
    if is_finally(token) {
        return to(outer, At::FinallyOpen(tried, Some(catch)));
    }
    let stmt = Stmt::Try {
        body: tried,
        catch: Some(catch),
        finally: None,
    };
    resume(alloc, outer, stmt, token)
}

/// The token behind `finally`: `{` (ECMA-262, section 14.15).
pub fn on_finally(
    alloc: Global,
    outer: Outer,
    tried: Seq<Stmt>,
    catch: Option<Catch>,
    token: &Token,
) -> Result<State, StepEnd>
    ensures { Steps (spec.on_finally outer tried catch token.now.kind) result }
{
    if is_open_brace(token) {
        return open_block(alloc, outer, 1, Block::Finally(tried, catch));
    }
    refuse()
}

/// The token behind `export`: `default` (ECMA-262, section 16.2.3).
pub fn on_export_word(outer: Outer, token: &Token) -> Result<State, StepEnd>
    ensures { Steps (spec.on_export_word outer token.now.kind) result }
{
    if is_default(token) {
        return to(outer, At::ExportObject);
    }
    refuse()
}

/// The token behind `export default`: `{`, which begins the exported object.
pub fn on_export_object(alloc: Global, outer: Outer, token: &Token) -> Result<State, StepEnd>
    ensures { Steps (spec.on_export_object outer token.now.kind) result }
{
    if is_open_brace(token) {
        let outer = push(outer, 0, Frame::Export)?;
        return to(outer, At::Key(Seq::new(alloc)));
    }
    refuse()
}

/// The token behind the exported object: `;`, or a statement begins.
pub fn after_export(alloc: Global, outer: Outer, token: &Token) -> Result<State, StepEnd>
    ensures { Steps (spec.after_export outer token.now) result }
{
    if is_semicolon(token) {
        return to(outer, At::Statement);
    }
    on_statement(alloc, outer, token)
}
