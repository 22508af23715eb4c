ghost use Rattle.std.specs.Prelude.{◌≡◌, ◌&&◌, Ok, Err, IfOk, nat_lt, pos, if◌then◌else◌};
ghost use Rattle.js_ops.specs.declared.kinds.Fault.TheVariants.{NotSafe};
ghost use Rattle.std.specs.List.{list_all};
ghost use Rattle.js_arena.specs.Keys.{is_digit};
ghost use Rattle.js_ops.specs.Convert.{to_text, plain_text, to_number, plain_number, text_number, spelled_number};
ghost use Rattle.js_ops.specs.Convert.{digits_number, negated, truth, plain_truth};
ghost use Rattle.js_ops.specs.Capped.{digit_step, capped};

use crate::kinds::Fault;
use crate::numbers::difference;
use js_arena::{Arena, Value};
use std::alloc::Global;
use wd_base::{NoMemory, Seq, Units, decimal};

/// The units that are the bytes' numbers.
pub fn widened(alloc: Global, bytes: &[u8]) -> Result<Units, NoMemory>
    ensures { IfOk result (λ units. units ≡ bytes.now) }
{
    let mut units = Vec::with_capacity(alloc, bytes.len())?;
    for byte in bytes {
        if units.push(*byte as u16).is_err() {
            return Err(NoMemory);
        }
    }
    Ok(Seq::from_vec(units))
}

fn decimal_units(alloc: Global, number: i64) -> Result<Units, NoMemory>
    ensures { IfOk result (λ units. Ok units ≡ plain_text (Value.Number number)) }
{
    let text = decimal(alloc, number)?;
    widened(alloc, text.as_slice())
}

/// The text of a value that is no string.
fn plain_text(alloc: Global, value: Value) -> Result<Result<Units, Fault>, NoMemory>
    ensures { IfOk result (λ text. text ≡ plain_text value) }
{
    match value {
        Value::Undefined => Ok(Ok(widened(alloc, b"undefined")?)),
        Value::Null => Ok(Ok(widened(alloc, b"null")?)),
        Value::Bool(true) => Ok(Ok(widened(alloc, b"true")?)),
        Value::Bool(false) => Ok(Ok(widened(alloc, b"false")?)),
        Value::Number(number) => Ok(Ok(decimal_units(alloc, number)?)),
        _ => Ok(Err(Fault::NotConvertible)),
    }
}

/// The text of a value (ECMA-262, section 7.1.17): a string as it is, a number in decimal, `true`,
/// `false`, `null` or `undefined`. Any other value is not convertible.
pub fn text_of_value(
    alloc: Global,
    arena: &Arena,
    value: Value,
) -> Result<Result<Units, Fault>, NoMemory>
    ensures { IfOk result (λ text. text ≡ to_text value arena.now) }
{
    match arena.text(value) {
        Some(units) => Ok(Ok(Seq::copy(alloc, units)?)),
        None => plain_text(alloc, value),
    }
}

fn is_digit(unit: u16) -> bool
    ensures { result ≡ is_digit unit }
{
    48 <= unit && unit <= 57
}

fn all_digits(units: &[u16]) -> bool
    ensures { result ≡ list_all is_digit units.now }
{
    units.iter().all(|unit| is_digit(*unit))
}

/// The number that one more digit makes, and 2 ^ 53 where it is that or more.
fn with_digit(number: u64, unit: u16) -> u64
    ensures { result ≡ digit_step number unit }
{
    let digit = unit.saturating_sub(48) as u128;
    let more = number as u128 * 10 + digit;
    if more < 9007199254740992 {
        more as u64
    } else {
        9007199254740992
    }
}

fn capped(units: &[u16]) -> u64
    ensures { result ≡ capped units.now }
{
    units
        .iter()
        .fold(0, |number, unit| with_digit(number, *unit))
}

fn below_greatest(digits: bool, number: u64) -> Result<i64, Fault>
    ensures { result ≡ (if digits && nat_lt number 9007199254740992 then Ok (pos number) else Err NotSafe) }
{
    if digits && number < 9007199254740992 {
        Ok(number as i64)
    } else {
        Err(Fault::NotSafe)
    }
}

/// The number that digits spell, where it is safe.
#[tactic(auto, using(crate::proofs::Digits::same_number))]
fn spelled_number(units: &[u16]) -> Result<i64, Fault>
    ensures { result ≡ spelled_number units.now }
{
    below_greatest(all_digits(units), capped(units))
}

/// The number of digits, one at least.
fn digits_number(units: &[u16]) -> Result<i64, Fault>
    ensures { result ≡ digits_number units.now }
{
    match units {
        [] => Err(Fault::NotSafe),
        [_, ..] => spelled_number(units),
    }
}

/// The number with the other sign.
pub fn negated(number: Result<i64, Fault>) -> Result<i64, Fault>
    ensures { result ≡ negated number }
{
    match number {
        Ok(n) => difference(0, n),
        Err(fault) => Err(fault),
    }
}

/// The number of a string.
fn text_number(units: &[u16]) -> Result<i64, Fault>
    ensures { result ≡ text_number units.now }
{
    match units {
        [] => Ok(0),
        [first, rest @ ..] => if *first == 45 {
            negated(digits_number(rest))
        } else {
            digits_number(units)
        },
    }
}

/// The number of a value that is no string.
fn plain_number(value: Value) -> Result<i64, Fault>
    ensures { result ≡ plain_number value }
{
    match value {
        Value::Undefined => Err(Fault::NotSafe),
        Value::Null => Ok(0),
        Value::Bool(true) => Ok(1),
        Value::Bool(false) => Ok(0),
        Value::Number(number) => Ok(number),
        _ => Err(Fault::NotConvertible),
    }
}

/// The number of a value (ECMA-262, section 7.1.4): a number as it is, 1 of true, 0 of false, null
/// and the empty string, and that of an optional `-` and digits where it is a safe integer.
/// Undefined and other strings are not a safe integer, and any other value is not convertible.
pub fn to_number(arena: &Arena, value: Value) -> Result<i64, Fault>
    ensures { result ≡ to_number value arena.now }
{
    match arena.text(value) {
        Some(units) => text_number(units),
        None => plain_number(value),
    }
}

fn plain_truth(value: Value) -> bool
    ensures { result ≡ plain_truth value }
{
    match value {
        Value::Undefined => false,
        Value::Null => false,
        Value::Bool(b) => b,
        Value::Number(number) => number != 0,
        _ => true,
    }
}

/// The truth of a value (ECMA-262, section 7.1.2): false for undefined, null, false, 0 and the
/// empty string.
pub fn truth(arena: &Arena, value: Value) -> bool
    ensures { result ≡ truth value arena.now }
{
    match arena.text(value) {
        Some(units) => 0 < units.len(),
        None => plain_truth(value),
    }
}
