ghost use Rattle.std.specs.Prelude.{◌≡◌};
ghost use Rattle.js_ops.specs.Numbers.{sum, difference, product, quotient, exact, remainder, is_safe, result_of};

use crate::kinds::{Fault, NumberOp};

fn is_safe(number: i64) -> bool
    ensures { result ≡ is_safe number }
{
    -9007199254740991 <= number && number <= 9007199254740991
}

/// The sum, where it is a safe integer.
pub fn sum(a: i64, b: i64) -> Result<i64, Fault>
    ensures { result ≡ sum a b }
{
    match a.checked_add(b) {
        Some(c) if -9007199254740991 <= c && c <= 9007199254740991 => Ok(c),
        _ => Err(Fault::NotSafe),
    }
}

/// The difference, where it is a safe integer.
pub fn difference(a: i64, b: i64) -> Result<i64, Fault>
    ensures { result ≡ difference a b }
{
    match a.checked_sub(b) {
        Some(c) if -9007199254740991 <= c && c <= 9007199254740991 => Ok(c),
        _ => Err(Fault::NotSafe),
    }
}

/// The product, where it is a safe integer.
pub fn product(a: i64, b: i64) -> Result<i64, Fault>
    ensures { result ≡ product a b }
{
    match a.checked_mul(b) {
        Some(c) if -9007199254740991 <= c && c <= 9007199254740991 => Ok(c),
        _ => Err(Fault::NotSafe),
    }
}

/// The quotient, where the division is exact and gives a safe integer.
pub fn quotient(a: i64, b: i64) -> Result<i64, Fault>
    ensures { result ≡ quotient a b }
{
    if b == 0 {
        return Err(Fault::DivisionByZero);
    }
    match a.checked_div(b) {
        Some(c) if a.wrapping_rem(b) == 0 && is_safe(c) => Ok(c),
        _ => Err(Fault::NotSafe),
    }
}

/// What a division toward zero leaves, with the sign of the dividend.
pub fn remainder(a: i64, b: i64) -> Result<i64, Fault>
    ensures { result ≡ remainder a b }
{
    if b == 0 {
        return Err(Fault::DivisionByZero);
    }
    let rest = a.wrapping_rem(b);
    if is_safe(rest) {
        Ok(rest)
    } else {
        Err(Fault::NotSafe)
    }
}

/// The result of an operation on two numbers.
pub fn result_of(op: NumberOp, a: i64, b: i64) -> Result<i64, Fault>
    ensures { result ≡ result_of op a b }
{
    match op {
        NumberOp::Sum => sum(a, b),
        NumberOp::Difference => difference(a, b),
        NumberOp::Product => product(a, b),
        NumberOp::Quotient => quotient(a, b),
        NumberOp::Remainder => remainder(a, b),
    }
}
