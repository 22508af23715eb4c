ghost use Rattle.std.specs.Prelude.{◌≡◌, ◌≤◌, ◌<◌, ◌*◌, ◌^◌, ◌&&◌, nat_lt, nat_le};
ghost use Rattle.js_json.specs.Machine as spec;

use crate::machine::{Digits, NumberAt, Part, Taken};
use crate::units::{is_digit, is_mark};

/// The greatest safe integer (ECMA-262, section 21.1.2.6).
const MOST_SAFE: u128 = 9_007_199_254_740_991;

/// A power of 10.
fn power_of_ten(exponent: u64) -> u128
    requires { exponent ≤ 16 }
    ensures value { result ≡ 10 ^ exponent }
    ensures small { result ≤ 10 ^ 16 }
{
    match exponent {
        0 => 1,
        1 => 10,
        2 => 100,
        3 => 1_000,
        4 => 10_000,
        5 => 100_000,
        6 => 1_000_000,
        7 => 10_000_000,
        8 => 100_000_000,
        9 => 1_000_000_000,
        10 => 10_000_000_000,
        11 => 100_000_000_000,
        12 => 1_000_000_000_000,
        13 => 10_000_000_000_000,
        14 => 100_000_000_000_000,
        15 => 1_000_000_000_000_000,
        _ => 10_000_000_000_000_000,
    }
}

#[tactic(auto, using(crate::proofs::Products::product_small))]
fn times_power(number: u64, exponent: u64) -> u128
    requires { exponent ≤ 16 }
    ensures value { result ≡ number * 10 ^ exponent }
    ensures small { result < 2 ^ 120 }
{
    u128::from(number) * power_of_ten(exponent)
}

fn fitted(number: u128) -> Digits
    ensures { result ≡ spec.fitted number }
{
    if number <= MOST_SAFE {
        Digits::Exact(number as u64, 0)
    } else {
        Digits::Wide
    }
}

fn grown(number: u64, zeros: u64, value: u16) -> Digits
    ensures { result ≡ spec.grown number zeros value }
{
    if zeros < 16 {
        fitted(times_power(number, zeros + 1) + u128::from(value))
    } else {
        Digits::Wide
    }
}

/// One more digit.
pub fn push(digits: Digits, digit: u16) -> Digits
    requires { 48 ≤ digit }
    ensures { result ≡ spec.push digits digit }
{
    match digits {
        Digits::Zero => {
            if digit == 0x30 {
                Digits::Zero
            } else {
                Digits::Exact(u64::from(digit - 0x30), 0)
            }
        }
        Digits::Exact(number, zeros) => {
            if digit == 0x30 {
                Digits::Exact(number, zeros.saturating_add(1))
            } else {
                grown(number, zeros, digit - 0x30)
            }
        }
        Digits::Wide => Digits::Wide,
    }
}

/// One more digit of an exponent.
fn raised(exponent: u64, digit: u16) -> u64
    requires { 48 ≤ digit }
    ensures { result ≡ spec.raised exponent digit }
{
    exponent
        .saturating_mul(10)
        .saturating_add(u64::from(digit - 0x30))
}

fn is_within(number: u64, exponent: u128) -> bool
    ensures { result ≡ (nat_lt exponent 16 && nat_le (number * 10 ^ exponent) spec.most_safe) }
{
    exponent < 16 && times_power(number, exponent as u64) <= MOST_SAFE
}

/// The number times 10 to the `up` by 10 to the `down` is a safe integer.
fn fits(number: u64, up: u128, down: u128) -> bool
    ensures { result ≡ spec.fits number up down }
{
    down <= up && is_within(number, up - down)
}

fn is_safe(digits: Digits, up: u64, down: u128) -> bool
    ensures { result ≡ spec.is_safe digits up down }
{
    match digits {
        Digits::Zero => true,
        Digits::Exact(number, zeros) => fits(number, u128::from(zeros) + u128::from(up), down),
        Digits::Wide => false,
    }
}

fn is_safe_with(digits: Digits, places: u64, down: bool, exponent: u64) -> bool
    ensures { result ≡ spec.is_safe_with digits places down exponent }
{
    if down {
        is_safe(digits, 0, u128::from(places) + u128::from(exponent))
    } else {
        is_safe(digits, exponent, u128::from(places))
    }
}

/// The number may end here: it is whole, and a safe integer.
pub fn is_whole(number: NumberAt) -> bool
    ensures { result ≡ spec.is_whole number }
{
    match number {
        NumberAt::Zero => true,
        NumberAt::Whole(digits) => is_safe(digits, 0, 0),
        NumberAt::Fraction(digits, places) => is_safe(digits, 0, u128::from(places)),
        NumberAt::Exponent(digits, places, down, exponent) => {
            is_safe_with(digits, places, down, exponent)
        }
        NumberAt::Minus | NumberAt::Point(_) | NumberAt::Mark(..) | NumberAt::Sign(..) => false,
    }
}

fn number_at(number: NumberAt) -> Taken
    ensures { result ≡ spec.number_at number }
{
    Taken::More(Part::Number(number))
}

fn ended(safe: bool) -> Taken
    ensures { result ≡ spec.ended safe }
{
    if safe { Taken::Ended } else { Taken::Bad }
}

fn behind_fraction(digits: Digits, places: u64, unit: u16) -> Taken
    ensures { result ≡ spec.behind_fraction digits places unit }
{
    if is_mark(unit) {
        number_at(NumberAt::Mark(digits, places))
    } else {
        ended(is_safe(digits, 0, u128::from(places)))
    }
}

fn behind_whole(digits: Digits, unit: u16) -> Taken
    ensures { result ≡ spec.behind_whole digits unit }
{
    if unit == 0x2E {
        number_at(NumberAt::Point(digits))
    } else {
        behind_fraction(digits, 0, unit)
    }
}

#[tactic(auto, using(crate::proofs::Products::digit_low))]
fn in_minus(unit: u16) -> Taken
    ensures { result ≡ spec.in_minus unit }
{
    if unit == 0x30 {
        number_at(NumberAt::Zero)
    } else if is_digit(unit) {
        number_at(NumberAt::Whole(push(Digits::Zero, unit)))
    } else {
        Taken::Bad
    }
}

#[tactic(auto, using(crate::proofs::Products::digit_low))]
fn in_whole(digits: Digits, unit: u16) -> Taken
    ensures { result ≡ spec.in_whole digits unit }
{
    if is_digit(unit) {
        number_at(NumberAt::Whole(push(digits, unit)))
    } else {
        behind_whole(digits, unit)
    }
}

#[tactic(auto, using(crate::proofs::Products::digit_low))]
fn in_point(digits: Digits, unit: u16) -> Taken
    ensures { result ≡ spec.in_point digits unit }
{
    if is_digit(unit) {
        number_at(NumberAt::Fraction(push(digits, unit), 1))
    } else {
        Taken::Bad
    }
}

#[tactic(auto, using(crate::proofs::Products::digit_low))]
fn in_fraction(digits: Digits, places: u64, unit: u16) -> Taken
    ensures { result ≡ spec.in_fraction digits places unit }
{
    if is_digit(unit) {
        number_at(NumberAt::Fraction(push(digits, unit), places.saturating_add(1)))
    } else {
        behind_fraction(digits, places, unit)
    }
}

#[tactic(auto, using(crate::proofs::Products::digit_low))]
fn in_sign(digits: Digits, places: u64, down: bool, unit: u16) -> Taken
    ensures { result ≡ spec.in_sign digits places down unit }
{
    if is_digit(unit) {
        number_at(NumberAt::Exponent(digits, places, down, raised(0, unit)))
    } else {
        Taken::Bad
    }
}

fn in_mark(digits: Digits, places: u64, unit: u16) -> Taken
    ensures { result ≡ spec.in_mark digits places unit }
{
    if unit == 0x2B {
        number_at(NumberAt::Sign(digits, places, false))
    } else if unit == 0x2D {
        number_at(NumberAt::Sign(digits, places, true))
    } else {
        in_sign(digits, places, false, unit)
    }
}

#[tactic(auto, using(crate::proofs::Products::digit_low))]
fn in_exponent(digits: Digits, places: u64, down: bool, exponent: u64, unit: u16) -> Taken
    ensures { result ≡ spec.in_exponent digits places down exponent unit }
{
    if is_digit(unit) {
        let exponent = raised(exponent, unit);
        number_at(NumberAt::Exponent(digits, places, down, exponent))
    } else {
        ended(is_safe_with(digits, places, down, exponent))
    }
}

/// What the unit does to a number (ECMA-404, section 8).
pub fn in_number(number: NumberAt, unit: u16) -> Taken
    ensures { result ≡ spec.in_number number unit }
{
    match number {
        NumberAt::Minus => in_minus(unit),
        NumberAt::Zero => behind_whole(Digits::Zero, unit),
        NumberAt::Whole(digits) => in_whole(digits, unit),
        NumberAt::Point(digits) => in_point(digits, unit),
        NumberAt::Fraction(digits, places) => in_fraction(digits, places, unit),
        NumberAt::Mark(digits, places) => in_mark(digits, places, unit),
        NumberAt::Sign(digits, places, down) => in_sign(digits, places, down, unit),
        NumberAt::Exponent(digits, places, down, exponent) => {
            in_exponent(digits, places, down, exponent, unit)
        }
    }
}
