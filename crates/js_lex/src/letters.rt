ghost use Rattle.std.specs.Prelude.{◌≡◌, ◌≤◌, ◌<◌, ◌+◌, [], ◌++◌, length, IfOk, IfSome, OnOk};
ghost use Rattle.js_lex.specs.Letters as spec;
ghost use Rattle.js_lex.specs.Letters.{encoded, meant};
ghost use Rattle.js_lex.specs.Values.{escaped};

use crate::units::{Class, digit_of, is_digit, is_hex, is_line_end, numeral, past, unit};
use std::alloc::Global;
use wd_base::{NoMemory, Seq, Units};

/// What a string literal or a part of a template ends with.
#[derive(Clone, Copy, Debug)]
pub enum Quote {
    Single,
    Double,
    Template,
}

/// What a letter stands for.
#[derive(Clone, Copy, Debug)]
pub enum Meaning {
    Nothing,
    One(u16),
    Pair(u16, u16),
}

/// A letter of a literal: how many units it has behind its first one, and what it stands for.
#[derive(Clone, Copy, Debug)]
pub struct Letter {
    pub more: usize,
    pub meaning: Meaning,
}

/// How a literal ends.
#[derive(Clone, Copy, Debug)]
pub enum Ending {
    /// by its quote
    Closed,
    /// by `${`
    Hole,
}

/// What comes next within a literal.
#[derive(Clone, Copy, Debug)]
pub enum Next {
    End(Ending),
    Letter(Letter),
    Broken,
}

/// What a literal's units stand for, how many they are with its end, and that end.
#[derive(Debug, Drop)]
pub struct Body {
    pub value: Units,
    pub units: usize,
    pub ending: Ending,
}

fn one(more: usize, unit: u16) -> Option<Letter>
    ensures { result ≡ spec.one more unit }
{
    Some(Letter {
        more,
        meaning: Meaning::One(unit),
    })
}

fn encoded(code: u64) -> Meaning
    requires { code ≤ 1114111 }
    ensures { result ≡ encoded code }
{
    if 65536 <= code {
        let above = code - 65536;
        let high = (55296 + above / 1024) as u16;
        let low = (56320 + above % 1024) as u16;
        Meaning::Pair(high, low)
    } else {
        Meaning::One(code as u16)
    }
}

/// Two digits behind `\x`.
fn hex_escape(text: &[u16]) -> Option<Letter>
    ensures value { result ≡ spec.hex_escape text.now }
    ensures fits { IfSome result (λ letter. letter.more ≤ 1 + length text.now) }
{
    let (high, low) = (unit(text, 0), unit(text, 1));
    if 2 <= text.len() && (is_hex(high) && is_hex(low)) {
        one(3, (16 * digit_of(high) + digit_of(low)) as u16)
    } else {
        None
    }
}

/// Four digits behind `\u`.
fn four_digits(text: &[u16]) -> Option<Letter>
    ensures value { result ≡ spec.four_digits text.now }
    ensures fits { IfSome result (λ letter. letter.more ≤ 1 + length text.now) }
{
    let (a, b) = (unit(text, 0), unit(text, 1));
    let (c, d) = (unit(text, 2), unit(text, 3));
    if 4 <= text.len() && ((is_hex(a) && is_hex(b)) && (is_hex(c) && is_hex(d))) {
        let high = 4096 * digit_of(a) + 256 * digit_of(b);
        one(5, (high + (16 * digit_of(c) + digit_of(d))) as u16)
    } else {
        None
    }
}

fn of_code(more: usize, code: Option<u64>) -> Option<Letter>
    requires { IfSome code (λ c. c ≤ 1114111) }
    ensures value { result ≡ spec.of_code more code }
    ensures more { IfSome result (λ letter. letter.more ≡ more) }
{
    match code {
        Some(code) => Some(Letter {
            more,
            meaning: encoded(code),
        }),
        None => None,
    }
}

/// Digits and `}` behind `\u{`.
fn code_point(text: &[u16]) -> Option<Letter>
    ensures value { result ≡ spec.code_point text.now }
    ensures fits { IfSome result (λ letter. letter.more ≤ 2 + length text.now) }
{
    let digits = past(Class::Hex, text, 0);
    if digits == 0 || !(unit(text, digits) == 125) {
        None
    } else {
        of_code(digits + 3, numeral(0x10FFFF, 16, 0, &text[..digits]))
    }
}

fn unicode_escape(text: &[u16]) -> Option<Letter>
    ensures value { result ≡ spec.unicode_escape text.now }
    ensures fits { IfSome result (λ letter. letter.more ≤ 1 + length text.now) }
{
    if unit(text, 0) == 123 {
        code_point(&text[1..])
    } else {
        four_digits(text)
    }
}

/// What a unit stands for behind `\`.
fn escaped(unit: u16) -> u16
    ensures { result ≡ escaped unit }
{
    match unit {
        110 => 10,
        116 => 9,
        114 => 13,
        98 => 8,
        102 => 12,
        118 => 11,
        _ => unit,
    }
}

fn digit_escape(first: u16, text: &[u16]) -> Option<Letter>
    ensures value { result ≡ spec.digit_escape first text.now }
    ensures fits { IfSome result (λ letter. letter.more ≤ 1 + length text.now) }
{
    if first == 48 && !is_digit(unit(text, 0)) {
        one(1, 0)
    } else {
        None
    }
}

/// How many units of a line end stand behind its first one.
fn line_units(first: u16, text: &[u16]) -> usize
    ensures value { result ≡ spec.line_units first text.now }
    ensures within { result ≤ length text.now }
{
    if first == 13 && unit(text, 0) == 10 {
        1
    } else {
        0
    }
}

fn line_continuation(first: u16, text: &[u16]) -> Option<Letter>
    ensures value { result ≡ spec.line_continuation first text.now }
    ensures fits { IfSome result (λ letter. letter.more ≤ 1 + length text.now) }
{
    Some(Letter {
        more: 1 + line_units(first, text),
        meaning: Meaning::Nothing,
    })
}

fn escape_of(first: u16, text: &[u16]) -> Option<Letter>
    ensures value { result ≡ spec.escape_of first text.now }
    ensures fits { IfSome result (λ letter. letter.more ≤ 1 + length text.now) }
{
    if first == 120 {
        hex_escape(text)
    } else if first == 117 {
        unicode_escape(text)
    } else if is_digit(first) {
        digit_escape(first, text)
    } else if is_line_end(first) {
        line_continuation(first, text)
    } else {
        one(1, escaped(first))
    }
}

/// The escape behind `\`.
fn escape(text: &[u16]) -> Option<Letter>
    ensures value { result ≡ spec.escape text.now }
    ensures fits { IfSome result (λ letter. letter.more ≤ length text.now) }
{
    match text {
        [first, rest @ ..] => escape_of(*first, rest),
        [] => None,
    }
}

/// A unit for itself.
fn raw(quote: Quote, first: u16, text: &[u16]) -> Option<Letter>
    ensures value { result ≡ spec.raw quote first text.now }
    ensures fits { IfSome result (λ letter. letter.more ≤ length text.now) }
{
    match quote {
        Quote::Template => {
            if first == 13 {
                one(line_units(first, text), 10)
            } else {
                one(0, first)
            }
        }
        Quote::Single | Quote::Double => {
            if first == 10 || first == 13 {
                None
            } else {
                one(0, first)
            }
        }
    }
}

fn letter_of(quote: Quote, first: u16, text: &[u16]) -> Option<Letter>
    ensures value { result ≡ spec.letter_of quote first text.now }
    ensures fits { IfSome result (λ letter. letter.more ≤ length text.now) }
{
    if first == 92 {
        escape(text)
    } else {
        raw(quote, first, text)
    }
}

fn ends(quote: Quote, first: u16, text: &[u16]) -> Option<Ending>
    ensures value { result ≡ spec.ends quote first text.now }
    ensures fits { IfSome result (λ ending. spec.ending_units ending ≤ 1 + length text.now) }
{
    match quote {
        Quote::Single => {
            if first == 39 {
                Some(Ending::Closed)
            } else {
                None
            }
        }
        Quote::Double => {
            if first == 34 {
                Some(Ending::Closed)
            } else {
                None
            }
        }
        Quote::Template => {
            if first == 96 {
                Some(Ending::Closed)
            } else if first == 36 && unit(text, 0) == 123 {
                Some(Ending::Hole)
            } else {
                None
            }
        }
    }
}

fn ending_units(ending: Ending) -> usize
    ensures { result ≡ spec.ending_units ending }
{
    match ending {
        Ending::Closed => 1,
        Ending::Hole => 2,
    }
}

/// What comes next: a unit and those behind it.
fn next_of(quote: Quote, first: u16, text: &[u16]) -> Next
    ensures value { result ≡ spec.next_of quote first text.now }
    ensures fits { spec.Fits result (length text.now) }
{
    match ends(quote, first, text) {
        Some(ending) => Next::End(ending),
        None => match letter_of(quote, first, text) {
            Some(letter) => Next::Letter(letter),
            None => Next::Broken,
        },
    }
}

fn push_meaning(units: &mut Units, meaning: Meaning) -> Result<(), NoMemory>
    ensures { OnOk result (units.new ≡ units.old ++ meant meaning) }
{
    match meaning {
        Meaning::Nothing => {}
        Meaning::One(unit) => units.push(unit)?,
        Meaning::Pair(high, low) => units.extend(&[high, low])?,
    }
    Ok(())
}

/// What stands behind a quote, up to the literal's end; None where it has no end.
pub fn body_of(alloc: Global, quote: Quote, mut text: &[u16]) -> Result<Option<Body>, NoMemory>
    ensures value { IfOk result (λ body. body ≡ spec.body_of quote 0 text.entry.now) }
    ensures fits { IfOk result (λ body. IfSome body (λ b. b.units ≤ length text.entry.now)) }
{
    let mut value = Seq::new(alloc);
    let mut units = 0;
    while let [first, rest @ ..] = text {
        match next_of(quote, *first, rest) {
            Next::Broken => return Ok(None),
            Next::End(ending) => {
                return Ok(Some(Body {
                    value,
                    units: units + ending_units(ending),
                    ending,
                }))
            }
            Next::Letter(letter) => {
                push_meaning(&mut value, letter.meaning)?;
                units = units + (1 + letter.more);
                text = &text[1 + letter.more..];
            }
        }
    }
    Ok(None)
}
