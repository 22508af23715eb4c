use crate::{Binary, Unary, binary, unary};
use js_arena::{Arena, CellNo, ErrKind, Msg, NameSpace, Native, OpEnd, Value};
use std::alloc::Global;
use std::test::Fail;
use wd_base::{NoMemory, Seq, Units, units_of};

/// What an operation came to: a value that is no string, the units of a string, or what is thrown.
#[derive(Clone, Copy)]
enum Came {
    Is(Value),
    Says(&'static [u8]),
    NotConvertible,
    NotSafe,
    ByZero,
    Full,
}

fn texts(alloc: Global) -> Result<Seq<Units>, NoMemory> {
    let mut texts = Seq::new(alloc);
    texts.push(units_of(alloc, b"")?)?;
    texts.push(units_of(alloc, b"12")?)?;
    texts.push(units_of(alloc, b"-3")?)?;
    texts.push(units_of(alloc, b"b")?)?;
    texts.push(units_of(alloc, b"9007199254740992")?)?;
    Ok(texts)
}

const EMPTY: Value = Value::Literal(0);

const TWELVE: Value = Value::Literal(1);

const MINUS_THREE: Value = Value::Literal(2);

const B: Value = Value::Literal(3);

const TOO_LARGE: Value = Value::Literal(4);

const TRUE: Value = Value::Bool(true);

const FALSE: Value = Value::Bool(false);

const OBJECT: Value = Value::Cell(CellNo(0));

const JSON: Value = Value::Native(Native::NameSpace(NameSpace::Json));

const MOST: i64 = 9007199254740991;

/// The string has the units of these bytes.
fn says(alloc: Global, arena: &Arena, value: Value, text: &[u8]) -> Result<bool, NoMemory> {
    let units = units_of(alloc, text)?;
    match arena.text(value) {
        Some(found) => Ok(*found == *units.as_slice()),
        None => Ok(false),
    }
}

fn is_as(
    alloc: Global,
    arena: &Arena,
    found: Result<Value, OpEnd>,
    came: &Came,
) -> Result<bool, NoMemory> {
    match (found, came) {
        (Err(OpEnd::NoMemory), _) => Err(NoMemory),
        (Ok(value), Came::Says(text)) => says(alloc, arena, value, text),
        (Ok(value), Came::Is(wanted)) => Ok(value == *wanted),
        (Err(OpEnd::Throw(ErrKind::TypeError, Msg::NotConvertible)), Came::NotConvertible) => Ok(
            true,
        ),
        (Err(OpEnd::Throw(ErrKind::RangeError, Msg::NotSafe)), Came::NotSafe) => Ok(true),
        (Err(OpEnd::Throw(ErrKind::RangeError, Msg::DivisionByZero)), Came::ByZero) => Ok(true),
        (Err(OpEnd::Full), Came::Full) => Ok(true),
        _ => Ok(false),
    }
}

// The heap of the last two rows has room for a string of two units and no more.
#[test]
fn operators_are_those_of_the_table(rt: HostRuntime) -> Result<(), Fail> {
    let rows: [(u32, Binary, Value, Value, Came); 46] = [
        (
            99,
            Binary::Add,
            Value::Number(2),
            Value::Number(3),
            Came::Is(Value::Number(5)),
        ),
        (
            99,
            Binary::Add,
            Value::Number(MOST),
            Value::Number(1),
            Came::NotSafe,
        ),
        (
            99,
            Binary::Add,
            Value::Number(1),
            TWELVE,
            Came::Says(b"112"),
        ),
        (
            99,
            Binary::Add,
            MINUS_THREE,
            Value::Number(-4),
            Came::Says(b"-3-4"),
        ),
        (
            99,
            Binary::Add,
            B,
            Value::Undefined,
            Came::Says(b"bundefined"),
        ),
        (99, Binary::Add, Value::Null, B, Came::Says(b"nullb")),
        (99, Binary::Add, TRUE, EMPTY, Came::Says(b"true")),
        (99, Binary::Add, EMPTY, FALSE, Came::Says(b"false")),
        (
            99,
            Binary::Add,
            TRUE,
            Value::Null,
            Came::Is(Value::Number(1)),
        ),
        (
            99,
            Binary::Add,
            Value::Number(1),
            Value::Undefined,
            Came::NotSafe,
        ),
        (99, Binary::Add, B, OBJECT, Came::NotConvertible),
        (
            99,
            Binary::Add,
            OBJECT,
            Value::Number(1),
            Came::NotConvertible,
        ),
        (
            99,
            Binary::Subtract,
            TWELVE,
            MINUS_THREE,
            Came::Is(Value::Number(15)),
        ),
        (
            99,
            Binary::Subtract,
            Value::Number(-MOST),
            Value::Number(1),
            Came::NotSafe,
        ),
        (
            99,
            Binary::Subtract,
            Value::Undefined,
            OBJECT,
            Came::NotSafe,
        ),
        (
            99,
            Binary::Subtract,
            OBJECT,
            Value::Undefined,
            Came::NotConvertible,
        ),
        (99, Binary::Subtract, B, Value::Number(1), Came::NotSafe),
        (
            99,
            Binary::Subtract,
            TOO_LARGE,
            Value::Number(1),
            Came::NotSafe,
        ),
        (
            99,
            Binary::Multiply,
            Value::Number(0),
            Value::Number(-5),
            Came::Is(Value::Number(0)),
        ),
        (
            99,
            Binary::Multiply,
            Value::Number(94906267),
            Value::Number(94906267),
            Came::NotSafe,
        ),
        (
            99,
            Binary::Divide,
            Value::Number(-12),
            Value::Number(4),
            Came::Is(Value::Number(-3)),
        ),
        (
            99,
            Binary::Divide,
            Value::Number(7),
            Value::Number(2),
            Came::NotSafe,
        ),
        (99, Binary::Divide, Value::Number(7), EMPTY, Came::ByZero),
        (
            99,
            Binary::Remainder,
            Value::Number(-7),
            Value::Number(4),
            Came::Is(Value::Number(-3)),
        ),
        (
            99,
            Binary::Remainder,
            Value::Number(7),
            Value::Number(-4),
            Came::Is(Value::Number(3)),
        ),
        (
            99,
            Binary::Remainder,
            Value::Number(7),
            Value::Null,
            Came::ByZero,
        ),
        (99, Binary::Less, TWELVE, B, Came::Is(TRUE)),
        (99, Binary::Less, TWELVE, Value::Number(3), Came::Is(FALSE)),
        (99, Binary::Less, MINUS_THREE, TWELVE, Came::Is(TRUE)),
        (
            99,
            Binary::LessEqual,
            Value::Null,
            Value::Number(0),
            Came::Is(TRUE),
        ),
        (99, Binary::Greater, TRUE, FALSE, Came::Is(TRUE)),
        (99, Binary::GreaterEqual, B, B, Came::Is(TRUE)),
        (
            99,
            Binary::GreaterEqual,
            Value::Undefined,
            Value::Number(0),
            Came::NotSafe,
        ),
        (
            99,
            Binary::Less,
            Value::Number(0),
            OBJECT,
            Came::NotConvertible,
        ),
        (99, Binary::Identical, TWELVE, TWELVE, Came::Is(TRUE)),
        (
            99,
            Binary::Identical,
            TWELVE,
            Value::Number(12),
            Came::Is(FALSE),
        ),
        (99, Binary::Identical, OBJECT, OBJECT, Came::Is(TRUE)),
        (
            99,
            Binary::Identical,
            OBJECT,
            Value::Cell(CellNo(1)),
            Came::Is(FALSE),
        ),
        (
            99,
            Binary::Identical,
            Value::Null,
            Value::Undefined,
            Came::Is(FALSE),
        ),
        (99, Binary::Identical, JSON, JSON, Came::Is(TRUE)),
        (99, Binary::Identical, FALSE, FALSE, Came::Is(TRUE)),
        (
            99,
            Binary::NotIdentical,
            Value::Number(1),
            Value::Number(1),
            Came::Is(FALSE),
        ),
        (99, Binary::NotIdentical, B, EMPTY, Came::Is(TRUE)),
        (6, Binary::Add, TWELVE, EMPTY, Came::Says(b"12")),
        (6, Binary::Add, TWELVE, B, Came::Full),
        (6, Binary::Add, TWELVE, OBJECT, Came::NotConvertible),
    ];
    let alloc = rt.alloc();
    for (limit, op, a, b, came) in &rows {
        let mut arena = Arena::new(alloc, *limit).with_texts(texts(alloc)?);
        let found = binary(alloc, &mut arena, *op, *a, *b);
        assert!(rt; is_as(alloc, &arena, found, came)?);
    }
    Ok(())
}

#[test]
fn operators_before_an_operand_are_those_of_the_table(rt: HostRuntime) -> Result<(), Fail> {
    let rows: [(Unary, Value, Came); 16] = [
        (Unary::Not, EMPTY, Came::Is(TRUE)),
        (Unary::Not, B, Came::Is(FALSE)),
        (Unary::Not, Value::Number(0), Came::Is(TRUE)),
        (Unary::Not, Value::Undefined, Came::Is(TRUE)),
        (Unary::Not, OBJECT, Came::Is(FALSE)),
        (Unary::Negate, Value::Number(0), Came::Is(Value::Number(0))),
        (Unary::Negate, MINUS_THREE, Came::Is(Value::Number(3))),
        (Unary::Negate, Value::Undefined, Came::NotSafe),
        (Unary::Negate, OBJECT, Came::NotConvertible),
        (Unary::TypeOf, Value::Undefined, Came::Says(b"undefined")),
        (Unary::TypeOf, Value::Null, Came::Says(b"object")),
        (Unary::TypeOf, TRUE, Came::Says(b"boolean")),
        (Unary::TypeOf, Value::Number(1), Came::Says(b"number")),
        (Unary::TypeOf, B, Came::Says(b"string")),
        (Unary::TypeOf, JSON, Came::Says(b"object")),
        (
            Unary::TypeOf,
            Value::Native(Native::IsArray),
            Came::Says(b"function"),
        ),
    ];
    let alloc = rt.alloc();
    for (op, value, came) in &rows {
        let mut arena = Arena::new(alloc, 99).with_texts(texts(alloc)?);
        let found = unary(alloc, &mut arena, *op, *value);
        assert!(rt; is_as(alloc, &arena, found, came)?);
    }
    Ok(())
}
