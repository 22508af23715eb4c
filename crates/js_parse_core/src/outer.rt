ghost use Rattle.std.specs.Prelude.{◌≡◌, ◌∷◌, ◌++◌, [], Err, IfOk};
ghost use Rattle.std.specs.Option.{option_copied};
ghost use Rattle.js_parse_core.specs.Outer as spec;
ghost use Rattle.js_parse_core.specs.Statements as statements;
ghost use Rattle.js_parse_core.specs.Steps.{Steps};

use crate::machine::{
    Asked, At, Block, Body, Frame, Open, Operator, Outer, Position, Purpose, Refusal, State,
    StepEnd, Tail,
};
use js_tree::{Item, Stmt};
use js_words::Spot;
use sqlite_items::Boxed;
use std::alloc::Global;
use wd_base::{NoMemory, Seq, Stack};

/// Refused, with the spots that tell the word: that of the token before, and the token's own.
pub fn because(before: Option<Spot>, here: Option<Spot>) -> Refusal
    ensures { result ≡ spec.because before here }
{
    Refusal::Token(Asked {
        before,
        here,
        ended: false,
    })
}

/// No step.
pub fn refused(why: Refusal) -> Result<State, StepEnd>
    ensures { Steps (Err why) result }
{
    Err(StepEnd::Refused(why))
}

/// Refused where no spot of the words stands.
pub fn refuse() -> Result<State, StepEnd>
    ensures { Steps spec.refuse result }
{
    refused(because(None, None))
}

/// Refused at a spot of the words.
pub fn refuse_at(spot: Spot) -> Result<State, StepEnd>
    ensures { Steps (spec.refuse_at spot) result }
{
    refused(because(None, Some(spot)))
}

/// The step that leads there.
pub fn to(outer: Outer, at: At) -> Result<State, StepEnd>
    ensures { Steps (spec.to outer at) result }
{
    Ok(State { outer, at })
}

/// The list with one more item at its end.
pub fn with<T: Drop>(list: Seq<T>, item: T) -> Result<Seq<T>, NoMemory>
    ensures { IfOk result (λ longer. longer ≡ list ++ item ∷ []) }
{
    let mut list = list;
    list.push(item)?;
    Ok(list)
}

/// The value in a box of its own.
pub fn boxed<T: Drop>(alloc: Global, value: T) -> Result<Boxed<T>, NoMemory>
    ensures { IfOk result (λ boxed. boxed ≡ value) }
{
    match Boxed::new(alloc, value) {
        Ok(boxed) => Ok(boxed),
        Err(_) => Err(NoMemory),
    }
}

/// A sum of counts of constructs. It stands still far above what may be open.
pub fn plus(a: usize, b: usize) -> usize
    ensures { result ≡ spec.plus a b }
{
    if a < 1000 && b < 1000 { a + b } else { 1000 }
}

/// How many constructs are open within the innermost of these frames.
pub fn inside(frames: &Stack<Open>) -> usize
    ensures { result ≡ spec.constructs_in frames.now }
{
    match frames.top() {
        Some(open) => open.constructs,
        None => 0,
    }
}

/// How many constructs are open within the innermost frame.
pub fn constructs(outer: &Outer) -> usize
    ensures { result ≡ spec.constructs outer.now }
{
    inside(&outer.frames)
}

/// One more frame, within which so many constructs are open.
pub fn push_at(outer: Outer, constructs: usize, frame: Frame) -> Result<Outer, NoMemory>
    ensures { IfOk result (λ found. found ≡ spec.push_at outer constructs frame) }
{
    let Outer {
        items,
        exported,
        frames,
    } = outer;
    Ok(Outer {
        items,
        exported,
        frames: frames.with(Open { constructs, frame })?,
    })
}

/// .. so many more than around it.
pub fn push(outer: Outer, more: usize, frame: Frame) -> Result<Outer, NoMemory>
    ensures { IfOk result (λ found. found ≡ spec.push outer more frame) }
{
    let inside = plus(constructs(&outer), more);
    push_at(outer, inside, frame)
}

/// What stands round the innermost frame, and that frame.
pub fn pop(outer: Outer) -> (Outer, Option<Frame>)
    ensures rest { result.0 ≡ spec.without outer }
    ensures frame { result.1 ≡ spec.innermost outer }
{
    let Outer {
        items,
        exported,
        mut frames,
    } = outer;
    match frames.pop() {
        Some(open) => {
            let outer = Outer {
                items,
                exported,
                frames,
            };
            (outer, Some(open.frame))
        }
        None => {
            let outer = Outer {
                items,
                exported,
                frames,
            };
            (outer, None)
        }
    }
}

/// The innermost frame.
pub fn innermost(outer: &Outer) -> Option<&Frame>
    ensures { option_copied result ≡ spec.innermost outer.now }
{
    match outer.frames.top() {
        Some(open) => Some(&open.frame),
        None => None,
    }
}

/// Nothing is open.
pub fn is_top(outer: &Outer) -> bool
    ensures { result ≡ statements.is_top outer.now.frames }
{
    match outer.frames.top() {
        Some(_) => false,
        None => true,
    }
}

/// A value has to come for this.
pub fn wait(outer: Outer, more: usize, purpose: Purpose) -> Result<State, StepEnd>
    ensures { Steps (spec.wait outer more purpose) result }
{
    to(push(outer, more, Frame::Purpose(purpose))?, At::Begin)
}

/// An operand has to come for this operator.
pub fn wait_operand(outer: Outer, inside: usize, operator: Operator) -> Result<State, StepEnd>
    ensures { Steps (spec.wait_operand outer inside operator) result }
{
    to(
        push_at(outer, inside, Frame::Operator(operator))?,
        At::Begin,
    )
}

/// A value has to come, and this ends with it.
pub fn wait_tail(outer: Outer, tail: Tail) -> Result<State, StepEnd>
    ensures { Steps (spec.wait_tail outer tail) result }
{
    to(push(outer, 1, Frame::Tail(tail))?, At::Begin)
}

/// A statement has to come as this body.
pub fn wait_body(outer: Outer, body: Body) -> Result<State, StepEnd>
    ensures { Steps (spec.wait_body outer body) result }
{
    to(push(outer, 1, Frame::Body(body))?, At::Statement)
}

/// Statements have to come, within so many constructs more.
pub fn open_block(alloc: Global, outer: Outer, more: usize, block: Block) -> Result<State, StepEnd>
    ensures { Steps (spec.open_block outer more block) result }
{
    let frame = Frame::Block(block, Seq::new(alloc));
    to(push(outer, more, frame)?, At::Statement)
}

/// Where an operand that begins now stands.
pub fn position_of(outer: &Outer) -> Position
    ensures { result ≡ spec.position outer.now }
{
    match innermost(outer) {
        Some(frame) => match frame {
            Frame::Operator(operator) => match operator {
                Operator::Update(_) => Position::Target,
                _ => Position::Operand,
            },
            _ => Position::Whole,
        },
        None => Position::Whole,
    }
}

/// An assignment or an arrow may stand there.
pub fn is_whole(outer: &Outer) -> bool
    ensures { result ≡ spec.is_whole outer.now }
{
    match position_of(outer) {
        Position::Whole => true,
        Position::Operand | Position::Target => false,
    }
}

/// A statement waits for another as its body.
pub fn in_body(outer: &Outer) -> bool
    ensures { result ≡ spec.in_body outer.now }
{
    match innermost(outer) {
        Some(frame) => match frame {
            Frame::Body(_) => true,
            _ => false,
        },
        None => false,
    }
}

/// An expression as a statement begins.
pub fn begins_statement(outer: &Outer) -> bool
    ensures { result ≡ spec.begins_statement outer.now }
{
    match innermost(outer) {
        Some(frame) => match frame {
            Frame::Purpose(purpose) => match purpose {
                Purpose::Statement => true,
                _ => false,
            },
            _ => false,
        },
        None => false,
    }
}

/// With one statement more among those of the innermost block.
fn add(
    outer: Outer,
    constructs: usize,
    block: Block,
    stmts: Seq<Stmt>,
    stmt: Stmt,
) -> Result<State, StepEnd>
    ensures { Steps (spec.add outer constructs block stmts stmt) result }
{
    let stmts = with(stmts, stmt)?;
    to(
        push_at(outer, constructs, Frame::Block(block, stmts))?,
        At::Statement,
    )
}

/// With one statement more at the top level.
fn add_item(outer: Outer, stmt: Stmt) -> Result<State, StepEnd>
    ensures { Steps (spec.add_item outer stmt) result }
{
    let Outer {
        items,
        exported,
        frames,
    } = outer;
    let items = with(items, Item::Stmt(stmt))?;
    let outer = Outer {
        items,
        exported,
        frames,
    };
    to(outer, At::Statement)
}

/// The statement that ends with this one as its body.
fn with_body(alloc: Global, body: Body, stmt: Stmt) -> Result<Stmt, NoMemory>
    ensures { IfOk result (λ whole. whole ≡ spec.with_body body stmt) }
{
    let stmt = boxed(alloc, stmt)?;
    match body {
        Body::Then(test) => Ok(Stmt::If(test, stmt, None)),
        Body::Else(test, yes) => Ok(Stmt::If(test, boxed(alloc, yes)?, Some(stmt))),
        Body::For(begin, test, update) => Ok(Stmt::For {
            begin,
            test,
            update,
            body: stmt,
        }),
        Body::ForOf(kind, name, value) => Ok(Stmt::ForOf {
            kind,
            name,
            value,
            body: stmt,
        }),
        Body::While(test) => Ok(Stmt::While(test, stmt)),
    }
}

/// The statement is whole, its last token was taken, and the next one is `else` or may be.
pub fn complete(alloc: Global, outer: Outer, stmt: Stmt) -> Result<State, StepEnd>
    ensures { Steps (spec.complete outer stmt) result }
{
    let Outer {
        items,
        exported,
        mut frames,
    } = outer;
    let open = frames.pop();
    let outer = Outer {
        items,
        exported,
        frames,
    };
    match open {
        None => add_item(outer, stmt),
        Some(open) => {
            let Open { constructs, frame } = open;
            match frame {
                Frame::Block(block, stmts) => add(outer, constructs, block, stmts, stmt),
                Frame::Body(body) => match body {
                    Body::Then(test) => to(outer, At::AfterThen(test, stmt)),
                    body => complete(alloc, outer, with_body(alloc, body, stmt)?),
                },
                _ => refuse(),
            }
        }
    }
}

/// The statement is whole, its last token was taken, and the next one is not `else`.
pub fn settle(alloc: Global, outer: Outer, stmt: Stmt) -> Result<State, StepEnd>
    ensures { Steps (spec.settle outer stmt) result }
{
    let Outer {
        items,
        exported,
        mut frames,
    } = outer;
    let open = frames.pop();
    let outer = Outer {
        items,
        exported,
        frames,
    };
    match open {
        None => add_item(outer, stmt),
        Some(open) => {
            let Open { constructs, frame } = open;
            match frame {
                Frame::Block(block, stmts) => add(outer, constructs, block, stmts, stmt),
                Frame::Body(body) => settle(alloc, outer, with_body(alloc, body, stmt)?),
                _ => refuse(),
            }
        }
    }
}
