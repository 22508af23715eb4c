ghost use Rattle.std.specs.Prelude.{◌≡◌, ◌≢◌, ◌-◌, IsTrue, ◌≤◌, ◌<◌, ◌+◌, [], ◌∷◌, ◌++◌, length, map, IfOk, IfSome, OnOk};
ghost use Rattle.std.specs.Str.{bytes_eq};
ghost use Rattle.js_lex.specs.Runs as runs;
ghost use Rattle.js_lex.specs.Values.{part_of};
ghost use Rattle.js_lex.specs.Front as spec;
ghost use Rattle.js_lex.specs.Tables as tables;

use crate::letters::{Body, Ending, Quote, body_of};
use crate::tables::{PUNCTUATORS, RESERVED};
use crate::token::{Punctuator, Reserved, TemplatePart, TokenKind};
use crate::units::{
    Class, begins, digit_of, has_separator, is_digit, is_line_end, is_name, is_part, is_white,
    numeral, past, past_digits, past_some, unit,
};
use std::alloc::Global;
use wd_base::{NoMemory, Seq, Units};

/// Why no token can be read.
#[derive(Clone, Copy, Debug)]
pub enum Unread {
    /// no token of ECMA-262 stands here
    Syntax,
    /// a number with a fraction, an exponent or a suffix, or one that is not safe
    Number,
    /// a name that is not of ASCII
    Identifier,
}

/// What stands at the front of a text, and how many units it has behind its first one.
#[derive(Debug, Drop)]
pub enum Front {
    /// white space, a line end or a comment, and whether a line ends in it
    Gap(usize, bool),
    Token(TokenKind, usize),
    Bad(Unread),
}

/// How many units it has behind its first one.
pub fn more_units(front: &Front) -> usize
    ensures { result ≡ spec.more_units front.now }
{
    match front {
        Front::Gap(more, _) => *more,
        Front::Token(_, more) => *more,
        Front::Bad(_) => 0,
    }
}

/// The largest safe integer, 2^53 - 1.
const MAX_SAFE: u64 = 9007199254740991;

/// The text's units are the bytes of an ASCII word, as those of `async` or `of`.
#[tactic(auto, using(crate::proofs::Words::same_told))]
pub fn same_text(text: &[u16], word: &[u8]) -> bool
    ensures { result ≡ bytes_eq text.now word.now }
{
    begins(text, word) && text.len() == word.len()
}

fn find_word(mut words: &[(&[u8], Reserved)], text: &[u16]) -> Option<Reserved>
    ensures { result ≡ spec.find_word (map (λ k. (k.0.now, k.1)) words.entry.now) text.now }
{
    while let [entry, rest @ ..] = words {
        if same_text(text, entry.0) {
            return Some(entry.1);
        }
        words = rest;
    }
    None
}

fn reserved(text: &[u16]) -> Option<Reserved>
    ensures { result ≡ spec.find_word tables.reserved_words text.now }
{
    find_word(&RESERVED, text)
}

fn name_kind(text: Units) -> TokenKind
    ensures { result ≡ spec.name_kind text }
{
    match reserved(text.as_slice()) {
        Some(word) => TokenKind::Reserved(word),
        None => TokenKind::Name(text),
    }
}

/// A unit and those of a slice.
fn with_first(alloc: Global, first: u16, more: &[u16]) -> Result<Units, NoMemory>
    ensures { IfOk result (λ units. units ≡ first ∷ more.now) }
{
    let mut units = Seq::copy(alloc, &[first])?;
    units.extend(more)?;
    Ok(units)
}

/// A name's units are of ASCII alone.
fn is_ascii(first: u16, text: &[u16], more: usize) -> bool
    ensures { result ≡ spec.is_ascii first text.now more }
{
    is_part(first) && more == past(Class::Part, text, 0)
}

fn word(alloc: Global, first: u16, text: &[u16], more: usize) -> Result<Front, NoMemory>
    requires { more ≤ length text.now }
    ensures value { IfOk result (λ front. front ≡ spec.word first text.now more) }
    ensures fits { IfOk result (λ front. spec.Fits front (length text.now)) }
{
    let units = with_first(alloc, first, &text[..more])?;
    Ok(Front::Token(name_kind(units), more))
}

fn name(alloc: Global, first: u16, text: &[u16]) -> Result<Front, NoMemory>
    ensures value { IfOk result (λ front. front ≡ spec.name first text.now) }
    ensures fits { IfOk result (λ front. spec.Fits front (length text.now)) }
{
    let more = past(Class::Name, text, 0);
    if is_ascii(first, text, more) {
        word(alloc, first, text, more)
    } else {
        Ok(Front::Bad(Unread::Identifier))
    }
}

/// The literal ends before a place: neither a digit nor a name may stand there.
fn ended(text: &[u16], at: usize, front: Front) -> Front
    requires { spec.Fits front (length text.now) }
    ensures value { result ≡ spec.ended text.now at front }
    ensures fits { spec.Fits result (length text.now) }
{
    if is_name(unit(text, at)) {
        Front::Bad(Unread::Syntax)
    } else {
        front
    }
}

fn sized(more: usize, value: Option<u64>) -> Front
    ensures value { result ≡ spec.sized more value }
    ensures fits { spec.Fits result more }
{
    match value {
        Some(value) => Front::Token(TokenKind::Number(value), more),
        None => Front::Bad(Unread::Number),
    }
}

/// Digits that end before a place, and their value where it is safe.
fn integer(text: &[u16], at: usize, value: Option<u64>) -> Front
    requires { at ≤ length text.now }
    ensures value { result ≡ spec.integer text.now at value }
    ensures fits { spec.Fits result (length text.now) }
{
    if unit(text, at) == 110 {
        ended(text, at + 1, Front::Bad(Unread::Number))
    } else {
        ended(text, at, sized(at, value))
    }
}

/// The class of the digits behind `0x`, `0o` and `0b`.
fn radix(unit: u16) -> Option<Class>
    ensures value { result ≡ spec.radix unit }
    ensures some { IfSome result (λ class. unit ≢ 0) }
{
    match unit {
        120 | 88 => Some(Class::Hex),
        111 | 79 => Some(Class::Octal),
        98 | 66 => Some(Class::Binary),
        _ => None,
    }
}

fn base(class: Class) -> u64
    ensures value { result ≡ spec.base class }
    ensures within { (1 ≤ result) × (result ≤ 16) }
{
    match class {
        Class::Hex => 16,
        Class::Octal => 8,
        Class::Binary => 2,
        _ => 10,
    }
}

fn past_fraction(text: &[u16], at: usize) -> usize
    requires { at ≤ length text.now }
    ensures value { result ≡ spec.past_fraction text.now at }
    ensures within { (at ≤ result) × (result ≤ length text.now) }
{
    if unit(text, at) == 46 {
        past_some(Class::Digit, text, at + 1)
    } else {
        at
    }
}

/// An `e`, and a digit or a sign and a digit, stand at the place.
fn begins_exponent(text: &[u16], at: usize) -> bool
    requires { at ≤ length text.now }
    ensures value { result ≡ spec.begins_exponent text.now at }
    ensures within { IsTrue result → at + 2 ≤ length text.now }
{
    let (e, next) = (unit(text, at), unit(text, at + 1));
    at + 2 <= text.len()
        && ((e == 101 || e == 69)
            && (is_digit(next) || ((next == 43 || next == 45) && is_digit(unit(text, at + 2)))))
}

fn past_exponent(text: &[u16], at: usize) -> usize
    requires { at ≤ length text.now }
    ensures value { result ≡ spec.past_exponent text.now at }
    ensures within { (at ≤ result) × (result ≤ length text.now) }
{
    if begins_exponent(text, at) {
        past_digits(Class::Digit, text, at + 2)
    } else {
        at
    }
}

/// A `0` before a digit or a separator.
fn is_legacy(first: u16, text: &[u16]) -> bool
    ensures { result ≡ spec.is_legacy first text.now }
{
    first == 48 && (is_digit(unit(text, 0)) || unit(text, 0) == 95)
}

/// The value of digits, where it is safe and no separator stands among them.
fn safe_value(base: u64, first: u64, digits: &[u16]) -> Option<u64>
    requires first { first ≤ 15 }
    requires base { (1 ≤ base) × (base ≤ 16) }
    ensures { result ≡ spec.safe_value base first digits.now }
{
    if has_separator(digits) {
        None
    } else {
        numeral(MAX_SAFE, base, first, digits)
    }
}

/// Digits up to a place, in a literal that ends before another one.
fn literal(first: u16, text: &[u16], whole: usize, end: usize) -> Front
    requires { whole ≤ length text.now }
    ensures value { result ≡ spec.literal first text.now whole end }
    ensures fits { spec.Fits result (length text.now) }
{
    if end == whole {
        let value = safe_value(10, digit_of(first), &text[..whole]);
        integer(text, whole, value)
    } else {
        ended(text, end, Front::Bad(Unread::Number))
    }
}

fn digits(first: u16, text: &[u16]) -> Front
    ensures value { result ≡ spec.digits first text.now }
    ensures fits { spec.Fits result (length text.now) }
{
    let whole = past_digits(Class::Digit, text, 0);
    let end = past_exponent(text, past_fraction(text, whole));
    literal(first, text, whole, end)
}

fn decimal(first: u16, text: &[u16]) -> Front
    ensures value { result ≡ spec.decimal first text.now }
    ensures fits { spec.Fits result (length text.now) }
{
    if is_legacy(first, text) {
        Front::Bad(Unread::Syntax)
    } else {
        digits(first, text)
    }
}

fn in_base(class: Class, text: &[u16]) -> Front
    requires { 1 ≤ length text.now }
    ensures value { result ≡ spec.in_base class text.now }
    ensures fits { spec.Fits result (length text.now) }
{
    let end = past_some(class, text, 1);
    if end == 1 {
        Front::Bad(Unread::Syntax)
    } else {
        integer(text, end, safe_value(base(class), 0, &text[1..end]))
    }
}

fn number(first: u16, text: &[u16]) -> Front
    ensures value { result ≡ spec.number first text.now }
    ensures fits { spec.Fits result (length text.now) }
{
    match radix(unit(text, 0)) {
        Some(class) => {
            if first == 48 {
                in_base(class, text)
            } else {
                decimal(first, text)
            }
        }
        None => decimal(first, text),
    }
}

/// A fraction behind its point.
fn point(text: &[u16]) -> Front
    ensures value { result ≡ spec.point text.now }
    ensures fits { spec.Fits result (length text.now) }
{
    let end = past_exponent(text, past_some(Class::Digit, text, 0));
    ended(text, end, Front::Bad(Unread::Number))
}

fn string(alloc: Global, quote: Quote, text: &[u16]) -> Result<Front, NoMemory>
    ensures value { IfOk result (λ front. front ≡ spec.string quote text.now) }
    ensures fits { IfOk result (λ front. spec.Fits front (length text.now)) }
{
    match body_of(alloc, quote, text)? {
        Some(body) => Ok(Front::Token(TokenKind::Text(body.value), body.units)),
        None => Ok(Front::Bad(Unread::Syntax)),
    }
}

fn part_of(is_first: bool, ending: Ending) -> TemplatePart
    ensures { result ≡ part_of is_first ending }
{
    match (is_first, ending) {
        (true, Ending::Closed) => TemplatePart::Whole,
        (true, Ending::Hole) => TemplatePart::Head,
        (false, Ending::Closed) => TemplatePart::Tail,
        (false, Ending::Hole) => TemplatePart::Middle,
    }
}

fn template(alloc: Global, is_first: bool, text: &[u16]) -> Result<Front, NoMemory>
    ensures value { IfOk result (λ front. front ≡ spec.template is_first text.now) }
    ensures fits { IfOk result (λ front. spec.Fits front (length text.now)) }
{
    match body_of(alloc, Quote::Template, text)? {
        Some(body) => {
            let Body {
                value,
                units,
                ending,
            } = body;
            let part = part_of(is_first, ending);
            Ok(Front::Token(TokenKind::Template(part, value), units))
        }
        None => Ok(Front::Bad(Unread::Syntax)),
    }
}

/// How many units stand up to the end of `*/`.
fn comment(mut text: &[u16]) -> Option<usize>
    ensures value { result ≡ spec.comment text.entry.now }
    ensures within { IfSome result (λ n. n ≤ length text.entry.now) }
{
    let mut units = 0;
    while let [first, rest @ ..] = text {
        if *first == 42 && unit(rest, 0) == 47 {
            return Some(units + 2);
        }
        units += 1;
        text = rest;
    }
    None
}

fn has_line_end(text: &[u16]) -> bool
    ensures { result ≡ spec.has_line_end text.now }
{
    past(Class::Line, text, 0) < text.len()
}

fn commented(text: &[u16]) -> Front
    requires { 1 ≤ length text.now }
    ensures value { result ≡ spec.commented text.now }
    ensures fits { spec.Fits result (length text.now) }
{
    match comment(&text[1..]) {
        Some(n) => Front::Gap(1 + n, has_line_end(&text[..1 + n])),
        None => Front::Bad(Unread::Syntax),
    }
}

/// A unit and the text behind it begin with the word.
fn begins_with(first: u16, text: &[u16], word: &[u8]) -> bool
    ensures value { result ≡ runs.begins (first ∷ text.now) word.now }
    ensures fits { IsTrue result → length word.now - 1 ≤ length text.now }
{
    match word {
        [byte, others @ ..] => first == u16::from(*byte) && begins(text, others),
        [] => true,
    }
}

fn longest(mut words: &[(&[u8], Punctuator)], first: u16, text: &[u16]) -> Front
    ensures value { result ≡ spec.longest (map (λ k. (k.0.now, k.1)) words.entry.now) first text.now }
    ensures fits { spec.Fits result (length text.now) }
{
    while let [entry, rest @ ..] = words {
        if begins_with(first, text, entry.0) {
            let more = entry.0.len().saturating_sub(1);
            return Front::Token(TokenKind::Punctuator(entry.1), more);
        }
        words = rest;
    }
    Front::Bad(Unread::Syntax)
}

fn listed(first: u16, text: &[u16]) -> Front
    ensures value { result ≡ spec.longest tables.punctuators first text.now }
    ensures fits { spec.Fits result (length text.now) }
{
    longest(&PUNCTUATORS, first, text)
}

fn punctuator(first: u16, text: &[u16]) -> Front
    ensures value { result ≡ spec.punctuator first text.now }
    ensures fits { spec.Fits result (length text.now) }
{
    if first == 63 && (unit(text, 0) == 46 && is_digit(unit(text, 1))) {
        Front::Token(TokenKind::Punctuator(Punctuator::Question), 0)
    } else {
        listed(first, text)
    }
}

fn slash(text: &[u16]) -> Front
    ensures value { result ≡ spec.slash text.now }
    ensures fits { spec.Fits result (length text.now) }
{
    if unit(text, 0) == 47 {
        Front::Gap(past(Class::Line, text, 1), false)
    } else if unit(text, 0) == 42 {
        commented(text)
    } else {
        punctuator(47, text)
    }
}

/// What is no literal of text.
fn plain(alloc: Global, first: u16, text: &[u16]) -> Result<Front, NoMemory>
    ensures value { IfOk result (λ front. front ≡ spec.plain first text.now) }
    ensures fits { IfOk result (λ front. spec.Fits front (length text.now)) }
{
    if is_digit(first) {
        Ok(number(first, text))
    } else if is_name(first) {
        name(alloc, first, text)
    } else if first == 46 && is_digit(unit(text, 0)) {
        Ok(point(text))
    } else if first == 47 {
        Ok(slash(text))
    } else {
        Ok(punctuator(first, text))
    }
}

/// What stands at the front; `in_hole` where `}` goes on with a template.
pub fn front_of(alloc: Global, in_hole: bool, first: u16, text: &[u16]) -> Result<Front, NoMemory>
    ensures value { IfOk result (λ front. front ≡ spec.front_of in_hole first text.now) }
    ensures fits { IfOk result (λ front. spec.Fits front (length text.now)) }
{
    if is_line_end(first) {
        Ok(Front::Gap(0, true))
    } else if is_white(first) {
        Ok(Front::Gap(0, false))
    } else if first == 34 {
        string(alloc, Quote::Double, text)
    } else if first == 39 {
        string(alloc, Quote::Single, text)
    } else if first == 96 {
        template(alloc, true, text)
    } else if first == 125 && in_hole {
        template(alloc, false, text)
    } else {
        plain(alloc, first, text)
    }
}
