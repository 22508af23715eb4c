ghost use Rattle.std.specs.Prelude.{◌≡◌, ◌≢◌, ◌≤◌, ◌<◌, ◌^◌, ◌+◌, drop, length, slice_index, IfSome, IsTrue};
ghost use Rattle.js_lex.specs.Lists.{is, some};
ghost use Rattle.js_lex.specs.Runs as runs;
ghost use Rattle.js_lex.specs.Units as spec;

/// A class of UTF-16 units.
#[derive(Clone, Copy, Debug)]
pub enum Class {
    /// units of names, of ASCII or not
    Name,
    /// units of names of ASCII
    Part,
    Digit,
    Hex,
    Octal,
    Binary,
    /// all but line ends
    Line,
}

fn is_between(low: u16, high: u16, unit: u16) -> bool
    ensures { result ≡ spec.is_between low high unit }
{
    low <= unit && unit <= high
}

pub fn is_line_end(unit: u16) -> bool
    ensures { result ≡ spec.is_line_end unit }
{
    (unit == 10 || unit == 13) || (unit == 0x2028 || unit == 0x2029)
}

pub fn is_white(unit: u16) -> bool
    ensures { result ≡ spec.is_white unit }
{
    ((unit == 9 || unit == 11) || (unit == 12 || unit == 0xFEFF))
        || (((unit == 32 || unit == 0xA0) || (unit == 0x1680 || is_between(0x2000, 0x200A, unit)))
            || (unit == 0x202F || (unit == 0x205F || unit == 0x3000)))
}

pub fn is_digit(unit: u16) -> bool
    ensures { result ≡ spec.is_digit unit }
{
    is_between(48, 57, unit)
}

pub fn is_hex(unit: u16) -> bool
    ensures { result ≡ spec.is_hex unit }
{
    is_digit(unit) || (is_between(65, 70, unit) || is_between(97, 102, unit))
}

pub fn is_part(unit: u16) -> bool
    ensures { result ≡ spec.is_part unit }
{
    (is_between(65, 90, unit) || is_between(97, 122, unit))
        || (is_digit(unit) || (unit == 95 || unit == 36))
}

pub fn is_name(unit: u16) -> bool
    ensures { result ≡ spec.is_name unit }
{
    is_part(unit) || (128 <= unit && !(is_white(unit) || is_line_end(unit)))
}

fn is_in(class: Class, unit: u16) -> bool
    ensures { result ≡ runs.is_in class unit }
{
    match class {
        Class::Name => is_name(unit),
        Class::Part => is_part(unit),
        Class::Digit => is_digit(unit),
        Class::Hex => is_hex(unit),
        Class::Octal => is_between(48, 55, unit),
        Class::Binary => is_between(48, 49, unit),
        Class::Line => !is_line_end(unit),
    }
}

/// The unit at a place, and 0 from the text's end on.
pub fn unit(text: &[u16], at: usize) -> u16
    ensures value { result ≡ slice_index text.now at }
    ensures within { result ≢ 0 → at < length text.now }
{
    if at < text.len() { text[at] } else { 0 }
}

/// The first place from `at` on whose unit is not of the class.
pub fn past(class: Class, text: &[u16], at: usize) -> usize
    requires { at ≤ length text.now }
    ensures value { result ≡ runs.past class text.now at }
    ensures within { (at ≤ result) × (result ≤ length text.now) }
{
    let mut end = at;
    while end < text.len() && is_in(class, text[end]) {
        end += 1;
    }
    end
}

/// The unit at a place is a digit of the class, or a separator, `_`, before one.
fn goes_on(class: Class, text: &[u16], at: usize) -> bool
    requires { at < length text.now }
    ensures { result ≡ runs.goes_on (runs.is_in class) (slice_index text.now at) (drop (at + 1) text.now) }
{
    is_in(class, text[at]) || (text[at] == 95 && is_in(class, unit(text, at + 1)))
}

/// The first place from `at` on whose unit is neither a digit of the class nor a separator between
/// two of them, where a digit stands before `at`.
pub fn past_digits(class: Class, text: &[u16], at: usize) -> usize
    requires { at ≤ length text.now }
    ensures value { result ≡ runs.past_digits class text.now at }
    ensures within { (at ≤ result) × (result ≤ length text.now) }
{
    let mut end = at;
    while end < text.len() && goes_on(class, text, end) {
        end += 1;
    }
    end
}

/// The same, where a digit has to be the first.
pub fn past_some(class: Class, text: &[u16], at: usize) -> usize
    requires { at ≤ length text.now }
    ensures value { result ≡ runs.past_some class text.now at }
    ensures within { (at ≤ result) × (result ≤ length text.now) }
{
    if is_in(class, unit(text, at)) {
        past_digits(class, text, at)
    } else {
        at
    }
}

/// A separator stands among the units.
pub fn has_separator(mut text: &[u16]) -> bool
    ensures { result ≡ some (is 95) text.entry.now }
{
    while let [unit, rest @ ..] = text {
        if *unit == 95 {
            return true;
        }
        text = rest;
    }
    false
}

/// The value of a digit of any base, and 0 for another unit.
pub fn digit_of(unit: u16) -> u64
    ensures value { result ≡ spec.digit_of unit }
    ensures small { result ≤ 15 }
{
    if is_digit(unit) {
        u64::from(unit - 48)
    } else if is_between(65, 70, unit) {
        u64::from(unit - 65 + 10)
    } else if is_between(97, 102, unit) {
        u64::from(unit - 97 + 10)
    } else {
        0
    }
}

/// The number of the digits that follow those of another one, where it is at most `max`.
pub fn numeral(max: u64, base: u64, first: u64, mut digits: &[u16]) -> Option<u64>
    requires max { max < 2 ^ 58 }
    requires first { first ≤ max }
    requires base { (1 ≤ base) × (base ≤ 16) }
    ensures value { result ≡ runs.numeral max base first digits.entry.now }
    ensures within { IfSome result (λ number. number ≤ max) }
{
    let mut value = first;
    while let [digit, rest @ ..] = digits {
        value = value * base + digit_of(*digit);
        if max < value {
            return None;
        }
        digits = rest;
    }
    Some(value)
}

/// The text begins with the word.
pub fn begins(mut text: &[u16], mut word: &[u8]) -> bool
    ensures value { result ≡ runs.begins text.entry.now word.entry.now }
    ensures fits { IsTrue result → length word.entry.now ≤ length text.entry.now }
{
    while let [byte, others @ ..] = word {
        match text {
            [unit, rest @ ..] if *unit == u16::from(*byte) => text = rest,
            _ => return false,
        }
        word = others;
    }
    true
}
