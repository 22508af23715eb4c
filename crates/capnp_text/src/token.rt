use wd_base::Bytes;

/// What a token is.
#[derive(Debug, Drop)]
pub enum TokenKind {
    Name(Bytes),
    /// decimal digits
    Number(Bytes),
    /// the digits behind `0x`
    Hex(Bytes),
    /// the bytes that a text stands for
    Text(Bytes),
    /// the bytes that a `0x` text stands for
    Data(Bytes),
    Comma,
    Equals,
    Semicolon,
    Colon,
    Dot,
    At,
    OpenParen,
    CloseParen,
    OpenBracket,
    CloseBracket,
}

/// A token and the place of its first byte.
#[derive(Debug, Drop)]
pub struct Token {
    pub place: usize,
    pub kind: TokenKind,
}
