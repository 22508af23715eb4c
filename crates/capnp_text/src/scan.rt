use crate::token::Token;
use wd_base::{Bytes, NoMemory, Seq};

/// What has begun behind the last whole token. Places are those of first bytes.
#[derive(Debug, Drop)]
pub enum Open {
    /// nothing
    Gap,
    Comment,
    Name(usize, Bytes),
    /// `0`
    Zero(usize),
    Number(usize, Bytes),
    /// `0x`
    HexMark(usize),
    /// `0x` and digits
    Hex(usize, Bytes),
    /// `"` and what the bytes behind it stand for
    Text(usize, Bytes),
    /// .. and `\`
    Escape(usize, Bytes),
    /// .. and `\x`
    EscapeHex(usize, Bytes),
    /// .. and `\x` with its first digit
    EscapeLow(usize, Bytes, u8),
    /// `0x"`
    DataBegin(usize),
    /// .. and the first digit of a pair, behind the bytes of whole pairs
    DataLow(usize, Bytes, u8),
    /// .. and whole pairs
    DataPair(usize, Bytes),
    /// .. and whole pairs and spaces
    DataSpace(usize, Bytes),
}

/// What was read: the whole tokens, and what has begun behind them.
#[derive(Debug, Drop)]
pub struct Scan {
    pub tokens: Seq<Token>,
    pub begun: Open,
}

/// Why a byte was not read.
#[derive(Debug, Drop)]
pub enum ScanEnd {
    /// it begins and continues no token; the whole tokens before it
    Bad(Seq<Token>),
    NoMemory,
}

impl From<NoMemory> for ScanEnd {
    ghost use Rattle.std.specs.Prelude.{◌≡◌};
    ghost use Rattle.capnp_text.specs.declared.scan.ScanEnd.TheVariants as ends;

    ghost from_gives = { λ _ e. e ≡ ends.NoMemory };

    fn from(_error: NoMemory) -> ScanEnd {
        ScanEnd::NoMemory
    }
}

/// What stands behind the last whole token.
#[derive(Clone, Copy, Debug, PartialEq, Eq)]
pub enum Stop {
    /// the end of the text
    End,
    /// the end of the text, within a token
    Open,
    /// a byte that begins and continues no token
    BadByte,
}

/// The tokens of a text, and the place where they stop: that of the byte, or the text's length.
#[derive(Debug, Drop)]
pub struct Tokens {
    pub tokens: Seq<Token>,
    pub stop: Stop,
    pub place: usize,
}
