ghost use Rattle.std.specs.Prelude.{◌≡◌};
ghost use Rattle.js_ops.specs.Compare.{kind_no, string_call_no, array_call_no, space_no, native_no, same_plain};
ghost use Rattle.js_ops.specs.Compare.{identical, order, of_both, ordered};

use crate::convert::to_number;
use crate::kinds::Fault;
use js_arena::{Arena, ArrayCall, ErrKind, NameSpace, Native, StringCall, Value};
use std::cmp::Ordering;

fn kind_no(kind: ErrKind) -> u32
    ensures { result ≡ kind_no kind }
{
    match kind {
        ErrKind::Error => 0,
        ErrKind::TypeError => 1,
        ErrKind::RangeError => 2,
        ErrKind::ReferenceError => 3,
        ErrKind::SyntaxError => 4,
    }
}

fn string_call_no(call: StringCall) -> u32
    ensures { result ≡ string_call_no call }
{
    match call {
        StringCall::CharCodeAt => 0,
        StringCall::IndexOf => 1,
        StringCall::Includes => 2,
        StringCall::StartsWith => 3,
        StringCall::EndsWith => 4,
        StringCall::Slice => 5,
        StringCall::Split => 6,
        StringCall::Trim => 7,
    }
}

fn array_call_no(call: ArrayCall) -> u32
    ensures { result ≡ array_call_no call }
{
    match call {
        ArrayCall::Push => 0,
        ArrayCall::Pop => 1,
        ArrayCall::Slice => 2,
        ArrayCall::Concat => 3,
        ArrayCall::IndexOf => 4,
        ArrayCall::Includes => 5,
        ArrayCall::Join => 6,
        ArrayCall::Map => 7,
        ArrayCall::Filter => 8,
        ArrayCall::ForEach => 9,
    }
}

fn space_no(space: NameSpace) -> u32
    ensures { result ≡ space_no space }
{
    match space {
        NameSpace::Console => 0,
        NameSpace::Json => 1,
        NameSpace::Object => 2,
        NameSpace::Array => 3,
    }
}

/// A number for each built-in; all differ by theirs.
fn native_no(native: Native) -> u64
    ensures { result ≡ native_no native }
{
    match native {
        Native::Log => 0,
        Native::JsonParse => 1,
        Native::JsonStringify => 2,
        Native::ObjectKeys => 3,
        Native::ObjectValues => 4,
        Native::ObjectEntries => 5,
        Native::IsArray => 6,
        Native::ToText => 7,
        Native::ToNumber => 8,
        Native::NameSpace(space) => 10 + space_no(space) as u64,
        Native::ErrorKind(kind) => 20 + kind_no(kind) as u64,
        Native::StringCall(call) => 30 + string_call_no(call) as u64,
        Native::ArrayCall(call) => 40 + array_call_no(call) as u64,
    }
}

/// Two values that are no strings are the same.
fn same_plain(a: Value, b: Value) -> bool
    ensures { result ≡ same_plain a b }
{
    match (a, b) {
        (Value::Undefined, Value::Undefined) => true,
        (Value::Null, Value::Null) => true,
        (Value::Bool(a), Value::Bool(b)) => if a { b } else { !b },
        (Value::Number(a), Value::Number(b)) => a == b,
        (Value::Cell(a), Value::Cell(b)) => a.0 == b.0,
        (Value::Native(a), Value::Native(b)) => native_no(a) == native_no(b),
        (Value::Handle(a), Value::Handle(b)) => a.0 == b.0,
        _ => false,
    }
}

/// Strict equality (ECMA-262, section 7.2.13): strings by their units.
pub fn identical(arena: &Arena, a: Value, b: Value) -> bool
    ensures { result ≡ identical a b arena.now }
{
    match (arena.text(a), arena.text(b)) {
        (Some(s), Some(t)) => *s == *t,
        (None, None) => same_plain(a, b),
        _ => false,
    }
}

fn ordered(a: Result<i64, Fault>, b: Result<i64, Fault>) -> Result<Ordering, Fault>
    ensures { result ≡ of_both ordered a b }
{
    match (a, b) {
        (Ok(a), Ok(b)) => Ok(a.cmp(&b)),
        (Ok(_), Err(fault)) => Err(fault),
        (Err(fault), _) => Err(fault),
    }
}

/// The order of two strings by their units, else of two numbers (section 7.2.14).
pub fn order(arena: &Arena, a: Value, b: Value) -> Result<Ordering, Fault>
    ensures { result ≡ order a b arena.now }
{
    match (arena.text(a), arena.text(b)) {
        (Some(s), Some(t)) => Ok(s.cmp(t)),
        _ => ordered(to_number(arena, a), to_number(arena, b)),
    }
}
