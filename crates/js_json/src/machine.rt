use crate::levels::{Level, Levels};
use crate::name::Name;

/// What of `true`, `false` or `null` is still to come.
#[derive(Clone, Copy, Debug, PartialEq, Eq)]
pub enum Word {
    Rue,
    Ue,
    E,
    Alse,
    Lse,
    Se,
    Ull,
    Ll,
    L,
}

/// What of a letter of a text was read: nothing, `\`, or `\u` with its digits so far.
#[derive(Clone, Copy, Debug, PartialEq, Eq)]
pub enum Inner {
    Plain,
    Escape,
    Code0,
    Code1(u16),
    Code2(u16, u16),
    Code3(u16, u16, u16),
}

/// The number that the digits so far spell.
#[derive(Clone, Copy, Debug, PartialEq, Eq)]
pub enum Digits {
    Zero,
    /// a number that does not end in 0, and how many zeros follow it
    Exact(u64, u64),
    /// such a number above the greatest safe integer
    Wide,
}

/// What of a number was read. Beside its digits stands how many of them are behind the point, and
/// the exponent with whether it is below zero.
#[derive(Clone, Copy, Debug, PartialEq, Eq)]
pub enum NumberAt {
    Minus,
    Zero,
    Whole(Digits),
    Point(Digits),
    Fraction(Digits, u64),
    Mark(Digits, u64),
    Sign(Digits, u64, bool),
    Exponent(Digits, u64, bool, u64),
}

/// What of a token was read.
#[derive(Drop)]
pub enum Part {
    Word(Word),
    /// whether the text is a key, and the front of what it spells
    Text(bool, Name, Inner),
    Number(NumberAt),
}

/// What a unit does to a token that has begun.
#[derive(Drop)]
pub enum Taken {
    /// it belongs to the token, which is not known to be whole
    More(Part),
    /// it ends the token
    Closed,
    /// it stands behind the token
    Ended,
    Bad,
}

/// Where the reading is, within what is open.
#[derive(Drop)]
pub enum Spot {
    /// before a value
    Begin,
    /// behind `[`
    FirstItem,
    /// behind `{`
    FirstKey,
    /// behind `,` in an object
    NextKey,
    /// behind a key
    Colon,
    /// behind a value
    Done,
    /// within a token
    In(Part),
}

/// What was read.
#[derive(Drop)]
pub struct State {
    pub levels: Levels,
    pub spot: Spot,
}
