ghost use Rattle.std.specs.Prelude.{◌≡◌};
ghost use Rattle.js_json.specs.Machine as spec;

use crate::machine::{Digits, Inner, NumberAt, Part, Taken, Word};
use crate::name::Name;
use crate::number::{in_number, is_whole, push};
use crate::units::{code_of, escaped, is_digit, is_escape, is_hex};

fn next_of(word: Word) -> u16
    ensures { result ≡ spec.next_of word }
{
    match word {
        Word::Rue => 0x72,
        Word::Ue => 0x75,
        Word::E => 0x65,
        Word::Alse => 0x61,
        Word::Lse => 0x6C,
        Word::Se => 0x73,
        Word::Ull => 0x75,
        Word::Ll => 0x6C,
        Word::L => 0x6C,
    }
}

fn word_on(word: Word) -> Taken
    ensures { result ≡ spec.word_on word }
{
    match word {
        Word::Rue => Taken::More(Part::Word(Word::Ue)),
        Word::Ue => Taken::More(Part::Word(Word::E)),
        Word::E => Taken::Closed,
        Word::Alse => Taken::More(Part::Word(Word::Lse)),
        Word::Lse => Taken::More(Part::Word(Word::Se)),
        Word::Se => Taken::More(Part::Word(Word::E)),
        Word::Ull => Taken::More(Part::Word(Word::Ll)),
        Word::Ll => Taken::More(Part::Word(Word::L)),
        Word::L => Taken::Closed,
    }
}

fn in_word(word: Word, unit: u16) -> Taken
    ensures { result ≡ spec.in_word word unit }
{
    if unit == next_of(word) {
        word_on(word)
    } else {
        Taken::Bad
    }
}

fn text(key: bool, name: Name, inner: Inner) -> Taken
    ensures { result ≡ spec.text key name inner }
{
    Taken::More(Part::Text(key, name, inner))
}

fn closed(key: bool, name: &Name) -> Taken
    ensures { result ≡ spec.closed key name.now }
{
    if key && name.is_refused() {
        Taken::Bad
    } else {
        Taken::Closed
    }
}

fn in_plain(key: bool, name: Name, unit: u16) -> Taken
    ensures { result ≡ spec.in_plain key name unit }
{
    if unit == 0x22 {
        closed(key, &name)
    } else if unit == 0x5C {
        text(key, name, Inner::Escape)
    } else if unit < 0x20 {
        Taken::Bad
    } else {
        text(key, name.with(unit), Inner::Plain)
    }
}

fn in_escape(key: bool, name: Name, unit: u16) -> Taken
    ensures { result ≡ spec.in_escape key name unit }
{
    if unit == 0x75 {
        text(key, name, Inner::Code0)
    } else if is_escape(unit) {
        text(key, name.with(escaped(unit)), Inner::Plain)
    } else {
        Taken::Bad
    }
}

fn in_code(key: bool, name: Name, inner: Inner, unit: u16) -> Taken
    ensures { result ≡ spec.in_code key name inner unit }
{
    if is_hex(unit) {
        text(key, name, inner)
    } else {
        Taken::Bad
    }
}

fn in_last(key: bool, name: Name, digits: (u16, u16, u16), unit: u16) -> Taken
    ensures { result ≡ spec.in_last key name digits.0 digits.1 digits.2 unit }
{
    if is_hex(unit) {
        let code = code_of(digits.0, digits.1, digits.2, unit);
        text(key, name.with(code), Inner::Plain)
    } else {
        Taken::Bad
    }
}

/// What the unit does to a text (ECMA-404, section 9).
fn in_text(key: bool, name: Name, inner: Inner, unit: u16) -> Taken
    ensures { result ≡ spec.in_text key name inner unit }
{
    match inner {
        Inner::Plain => in_plain(key, name, unit),
        Inner::Escape => in_escape(key, name, unit),
        Inner::Code0 => in_code(key, name, Inner::Code1(unit), unit),
        Inner::Code1(a) => in_code(key, name, Inner::Code2(a, unit), unit),
        Inner::Code2(a, b) => in_code(key, name, Inner::Code3(a, b, unit), unit),
        Inner::Code3(a, b, c) => in_last(key, name, (a, b, c), unit),
    }
}

/// The token that begins with the unit.
#[tactic(auto, using(crate::proofs::Products::digit_low))]
pub fn first_part(unit: u16) -> Option<Part>
    ensures { result ≡ spec.first_part unit }
{
    if unit == 0x22 {
        Some(Part::Text(false, Name::new(), Inner::Plain))
    } else if unit == 0x2D {
        Some(Part::Number(NumberAt::Minus))
    } else if unit == 0x30 {
        Some(Part::Number(NumberAt::Zero))
    } else if is_digit(unit) {
        Some(Part::Number(NumberAt::Whole(push(Digits::Zero, unit))))
    } else if unit == 0x74 {
        Some(Part::Word(Word::Rue))
    } else if unit == 0x66 {
        Some(Part::Word(Word::Alse))
    } else if unit == 0x6E {
        Some(Part::Word(Word::Ull))
    } else {
        None
    }
}

/// What the unit does to a token.
pub fn token(part: Part, unit: u16) -> Taken
    ensures { result ≡ spec.token part unit }
{
    match part {
        Part::Word(word) => in_word(word, unit),
        Part::Text(key, name, inner) => in_text(key, name, inner, unit),
        Part::Number(number) => in_number(number, unit),
    }
}

/// The token may end with the text.
pub fn may_end(part: &Part) -> bool
    ensures { result ≡ spec.may_end part.now }
{
    match part {
        Part::Number(number) => is_whole(*number),
        Part::Word(_) | Part::Text(..) => false,
    }
}

/// The token is a key.
pub fn is_key(part: &Part) -> bool
    ensures { result ≡ spec.is_key part.now }
{
    match part {
        Part::Text(key, ..) => *key,
        Part::Word(_) | Part::Number(_) => false,
    }
}
