ghost use Rattle.std.specs.Prelude.{◌≡◌, ◌≤◌, ◌<◌, [], ◌∷◌, ◌+◌, ◌++◌, length, IfOk, OnOk};
ghost use Rattle.capnp_text.specs.Chars as chars;
ghost use Rattle.capnp_text.specs.Scan as spec;
ghost use Rattle.capnp_text.specs.Scan.{Scans};

use crate::scan::{Open, Scan, ScanEnd, Stop, Tokens};
use crate::token::{Token, TokenKind};
use std::alloc::Global;
use wd_base::{Bytes, NoMemory, Seq};

fn is_blank(byte: u8) -> bool
    ensures { result ≡ chars.is_blank byte }
{
    byte == b' ' || byte == b'\t' || (byte == b'\r' || byte == b'\n')
}

fn is_digit(byte: u8) -> bool
    ensures { result ≡ chars.is_digit byte }
{
    b'0' <= byte && byte <= b'9'
}

fn is_letter(byte: u8) -> bool
    ensures { result ≡ chars.is_letter byte }
{
    b'A' <= byte && byte <= b'Z' || b'a' <= byte && byte <= b'z'
}

/// The byte may follow in a name.
fn is_inner(byte: u8) -> bool
    ensures { result ≡ chars.is_inner byte }
{
    is_letter(byte) || (is_digit(byte) || byte == b'_')
}

fn is_hex(byte: u8) -> bool
    ensures { result ≡ chars.is_hex byte }
{
    is_digit(byte) || (b'A' <= byte && byte <= b'F' || b'a' <= byte && byte <= b'f')
}

/// The value of a hexadecimal digit, and 0 for another byte.
fn digit_of(byte: u8) -> u8
    ensures value { result ≡ chars.digit_of byte }
    ensures small { result ≤ 15 }
{
    if b'0' <= byte && byte <= b'9' {
        byte - b'0'
    } else if b'A' <= byte && byte <= b'F' {
        byte - b'A' + 10
    } else if b'a' <= byte && byte <= b'f' {
        byte - b'a' + 10
    } else {
        0
    }
}

fn byte_of(high: u8, low: u8) -> u8
    ensures { result ≡ chars.byte_of high low }
{
    16 * digit_of(high) + digit_of(low)
}

/// The byte may stand behind `\` on its own.
fn is_escape(byte: u8) -> bool
    ensures { result ≡ chars.is_escape byte }
{
    byte == b'n' || byte == b't' || byte == b'r' || (byte == b'\\' || byte == b'"' || byte == b'\'')
}

/// What it stands for there.
fn escaped(byte: u8) -> u8
    ensures { result ≡ chars.escaped byte }
{
    match byte {
        b'n' => b'\n',
        b't' => b'\t',
        b'r' => b'\r',
        _ => byte,
    }
}

/// The token of one byte.
fn sign(byte: u8) -> Option<TokenKind>
    ensures { result ≡ chars.sign byte }
{
    match byte {
        b',' => Some(TokenKind::Comma),
        b'=' => Some(TokenKind::Equals),
        b';' => Some(TokenKind::Semicolon),
        b':' => Some(TokenKind::Colon),
        b'.' => Some(TokenKind::Dot),
        b'@' => Some(TokenKind::At),
        b'(' => Some(TokenKind::OpenParen),
        b')' => Some(TokenKind::CloseParen),
        b'[' => Some(TokenKind::OpenBracket),
        b']' => Some(TokenKind::CloseBracket),
        _ => None,
    }
}

fn to(tokens: Seq<Token>, begun: Open) -> Result<Scan, ScanEnd>
    ensures { Scans (spec.to tokens begun) result }
{
    Ok(Scan { tokens, begun })
}

fn refuse(tokens: Seq<Token>) -> Result<Scan, ScanEnd>
    ensures { Scans (spec.refused tokens) result }
{
    Err(ScanEnd::Bad(tokens))
}

fn with_token(tokens: Seq<Token>, place: usize, kind: TokenKind) -> Result<Seq<Token>, NoMemory>
    ensures { IfOk result (λ list. list ≡ spec.with_token tokens place kind) }
{
    let mut tokens = tokens;
    tokens.push(Token { place, kind })?;
    Ok(tokens)
}

fn with_byte(bytes: Bytes, byte: u8) -> Result<Bytes, NoMemory>
    ensures { IfOk result (λ list. list ≡ bytes ++ byte ∷ []) }
{
    let mut bytes = bytes;
    bytes.push(byte)?;
    Ok(bytes)
}

fn one(alloc: Global, byte: u8) -> Result<Bytes, NoMemory>
    ensures { IfOk result (λ list. list ≡ byte ∷ []) }
{
    Seq::copy(alloc, &[byte])
}

/// No token has begun.
fn gap(alloc: Global, tokens: Seq<Token>, place: usize, byte: u8) -> Result<Scan, ScanEnd>
    ensures { Scans (spec.gap tokens place byte) result }
{
    if is_blank(byte) {
        to(tokens, Open::Gap)
    } else if is_letter(byte) {
        to(tokens, Open::Name(place, one(alloc, byte)?))
    } else if byte == b'0' {
        to(tokens, Open::Zero(place))
    } else if is_digit(byte) {
        to(tokens, Open::Number(place, one(alloc, byte)?))
    } else if byte == b'#' {
        to(tokens, Open::Comment)
    } else if byte == b'"' {
        to(tokens, Open::Text(place, Seq::new(alloc)))
    } else {
        signed(tokens, place, sign(byte))
    }
}

fn signed(tokens: Seq<Token>, place: usize, sign: Option<TokenKind>) -> Result<Scan, ScanEnd>
    ensures { Scans (spec.signed tokens place sign) result }
{
    match sign {
        Some(kind) => to(with_token(tokens, place, kind)?, Open::Gap),
        None => refuse(tokens),
    }
}

/// A number has ended.
fn behind(alloc: Global, tokens: Seq<Token>, place: usize, byte: u8) -> Result<Scan, ScanEnd>
    ensures { Scans (spec.behind tokens place byte) result }
{
    if is_inner(byte) {
        refuse(tokens)
    } else {
        gap(alloc, tokens, place, byte)
    }
}

fn in_name(
    alloc: Global,
    tokens: Seq<Token>,
    begin: usize,
    name: Bytes,
    place: usize,
    byte: u8,
) -> Result<Scan, ScanEnd>
    ensures { Scans (spec.in_name tokens begin name place byte) result }
{
    if is_inner(byte) {
        to(tokens, Open::Name(begin, with_byte(name, byte)?))
    } else {
        let tokens = with_token(tokens, begin, TokenKind::Name(name))?;
        gap(alloc, tokens, place, byte)
    }
}

fn in_number(
    alloc: Global,
    tokens: Seq<Token>,
    begin: usize,
    digits: Bytes,
    place: usize,
    byte: u8,
) -> Result<Scan, ScanEnd>
    ensures { Scans (spec.in_number tokens begin digits place byte) result }
{
    if is_digit(byte) {
        to(tokens, Open::Number(begin, with_byte(digits, byte)?))
    } else {
        let tokens = with_token(tokens, begin, TokenKind::Number(digits))?;
        behind(alloc, tokens, place, byte)
    }
}

fn in_zero(
    alloc: Global,
    tokens: Seq<Token>,
    begin: usize,
    place: usize,
    byte: u8,
) -> Result<Scan, ScanEnd>
    ensures { Scans (spec.in_zero tokens begin place byte) result }
{
    if byte == b'x' {
        to(tokens, Open::HexMark(begin))
    } else {
        let digits = one(alloc, b'0')?;
        in_number(alloc, tokens, begin, digits, place, byte)
    }
}

fn in_mark(alloc: Global, tokens: Seq<Token>, begin: usize, byte: u8) -> Result<Scan, ScanEnd>
    ensures { Scans (spec.in_mark tokens begin byte) result }
{
    if is_hex(byte) {
        to(tokens, Open::Hex(begin, one(alloc, byte)?))
    } else if byte == b'"' {
        to(tokens, Open::DataBegin(begin))
    } else {
        refuse(tokens)
    }
}

fn in_hex(
    alloc: Global,
    tokens: Seq<Token>,
    begin: usize,
    digits: Bytes,
    place: usize,
    byte: u8,
) -> Result<Scan, ScanEnd>
    ensures { Scans (spec.in_hex tokens begin digits place byte) result }
{
    if is_hex(byte) {
        to(tokens, Open::Hex(begin, with_byte(digits, byte)?))
    } else {
        let tokens = with_token(tokens, begin, TokenKind::Hex(digits))?;
        behind(alloc, tokens, place, byte)
    }
}

fn in_text(tokens: Seq<Token>, begin: usize, text: Bytes, byte: u8) -> Result<Scan, ScanEnd>
    ensures { Scans (spec.in_text tokens begin text byte) result }
{
    if byte == b'"' {
        to(with_token(tokens, begin, TokenKind::Text(text))?, Open::Gap)
    } else if byte == b'\\' {
        to(tokens, Open::Escape(begin, text))
    } else if byte == b'\n' {
        refuse(tokens)
    } else {
        to(tokens, Open::Text(begin, with_byte(text, byte)?))
    }
}

fn in_escape(tokens: Seq<Token>, begin: usize, text: Bytes, byte: u8) -> Result<Scan, ScanEnd>
    ensures { Scans (spec.in_escape tokens begin text byte) result }
{
    if byte == b'x' {
        to(tokens, Open::EscapeHex(begin, text))
    } else if is_escape(byte) {
        to(tokens, Open::Text(begin, with_byte(text, escaped(byte))?))
    } else {
        refuse(tokens)
    }
}

fn in_escape_hex(tokens: Seq<Token>, begin: usize, text: Bytes, byte: u8) -> Result<Scan, ScanEnd>
    ensures { Scans (spec.in_escape_hex tokens begin text byte) result }
{
    if is_hex(byte) {
        to(tokens, Open::EscapeLow(begin, text, byte))
    } else {
        refuse(tokens)
    }
}

fn in_escape_low(
    tokens: Seq<Token>,
    begin: usize,
    text: Bytes,
    high: u8,
    byte: u8,
) -> Result<Scan, ScanEnd>
    ensures { Scans (spec.in_escape_low tokens begin text high byte) result }
{
    if is_hex(byte) {
        to(
            tokens,
            Open::Text(begin, with_byte(text, byte_of(high, byte))?),
        )
    } else {
        refuse(tokens)
    }
}

fn in_data(tokens: Seq<Token>, begin: usize, bytes: Bytes, byte: u8) -> Result<Scan, ScanEnd>
    ensures { Scans (spec.in_data tokens begin bytes byte) result }
{
    if byte == b'"' {
        to(
            with_token(tokens, begin, TokenKind::Data(bytes))?,
            Open::Gap,
        )
    } else if is_hex(byte) {
        to(tokens, Open::DataLow(begin, bytes, byte))
    } else {
        refuse(tokens)
    }
}

fn in_data_low(
    tokens: Seq<Token>,
    begin: usize,
    bytes: Bytes,
    high: u8,
    byte: u8,
) -> Result<Scan, ScanEnd>
    ensures { Scans (spec.in_data_low tokens begin bytes high byte) result }
{
    if is_hex(byte) {
        to(
            tokens,
            Open::DataPair(begin, with_byte(bytes, byte_of(high, byte))?),
        )
    } else {
        refuse(tokens)
    }
}

fn in_pair(tokens: Seq<Token>, begin: usize, bytes: Bytes, byte: u8) -> Result<Scan, ScanEnd>
    ensures { Scans (spec.in_pair tokens begin bytes byte) result }
{
    if byte == b' ' {
        to(tokens, Open::DataSpace(begin, bytes))
    } else {
        in_data(tokens, begin, bytes, byte)
    }
}

fn in_space(tokens: Seq<Token>, begin: usize, bytes: Bytes, byte: u8) -> Result<Scan, ScanEnd>
    ensures { Scans (spec.in_space tokens begin bytes byte) result }
{
    if byte == b' ' {
        to(tokens, Open::DataSpace(begin, bytes))
    } else if is_hex(byte) {
        to(tokens, Open::DataLow(begin, bytes, byte))
    } else {
        refuse(tokens)
    }
}

fn in_comment(tokens: Seq<Token>, byte: u8) -> Result<Scan, ScanEnd>
    ensures { Scans (spec.in_comment tokens byte) result }
{
    if byte == b'\n' {
        to(tokens, Open::Gap)
    } else {
        to(tokens, Open::Comment)
    }
}

/// What the byte at a place does.
fn step(alloc: Global, scan: Scan, place: usize, byte: u8) -> Result<Scan, ScanEnd>
    ensures { Scans (spec.step scan place byte) result }
{
    let Scan { tokens, begun } = scan;
    match begun {
        Open::Gap => gap(alloc, tokens, place, byte),
        Open::Comment => in_comment(tokens, byte),
        Open::Name(begin, name) => in_name(alloc, tokens, begin, name, place, byte),
        Open::Zero(begin) => in_zero(alloc, tokens, begin, place, byte),
        Open::Number(begin, digits) => in_number(alloc, tokens, begin, digits, place, byte),
        Open::HexMark(begin) => in_mark(alloc, tokens, begin, byte),
        Open::Hex(begin, digits) => in_hex(alloc, tokens, begin, digits, place, byte),
        Open::Text(begin, text) => in_text(tokens, begin, text, byte),
        Open::Escape(begin, text) => in_escape(tokens, begin, text, byte),
        Open::EscapeHex(begin, text) => in_escape_hex(tokens, begin, text, byte),
        Open::EscapeLow(begin, text, high) => in_escape_low(tokens, begin, text, high, byte),
        Open::DataBegin(begin) => in_data(tokens, begin, Seq::new(alloc), byte),
        Open::DataLow(begin, bytes, high) => in_data_low(tokens, begin, bytes, high, byte),
        Open::DataPair(begin, bytes) => in_pair(tokens, begin, bytes, byte),
        Open::DataSpace(begin, bytes) => in_space(tokens, begin, bytes, byte),
    }
}

/// The whole tokens, where the text ends.
fn whole(alloc: Global, tokens: Seq<Token>, begun: Open) -> Result<Seq<Token>, NoMemory>
    ensures { IfOk result (λ list. list ≡ spec.whole tokens begun) }
{
    match begun {
        Open::Name(begin, name) => with_token(tokens, begin, TokenKind::Name(name)),
        Open::Zero(begin) => with_token(tokens, begin, TokenKind::Number(one(alloc, b'0')?)),
        Open::Number(begin, digits) => with_token(tokens, begin, TokenKind::Number(digits)),
        Open::Hex(begin, digits) => with_token(tokens, begin, TokenKind::Hex(digits)),
        _other => Ok(tokens),
    }
}

/// A token has begun that cannot end here.
fn stays_open(begun: &Open) -> bool
    ensures { result ≡ spec.stays_open begun.now }
{
    match begun {
        Open::Gap | Open::Comment => false,
        Open::Name(..) | Open::Zero(_) | Open::Number(..) | Open::Hex(..) => false,
        _ => true,
    }
}

fn tokens_at(alloc: Global, scan: Scan, place: usize) -> Result<Tokens, NoMemory>
    ensures { IfOk result (λ tokens. tokens ≡ spec.tokens_at scan place) }
{
    let Scan { tokens, begun } = scan;
    let stop = if stays_open(&begun) {
        Stop::Open
    } else {
        Stop::End
    };
    let tokens = whole(alloc, tokens, begun)?;
    Ok(Tokens {
        tokens,
        stop,
        place,
    })
}

/// The tokens of a text, up to the first byte that begins and continues none.
pub fn tokens_of(alloc: Global, bytes: &[u8]) -> Result<Tokens, NoMemory>
    ensures { IfOk result (λ tokens. tokens ≡ spec.scanned bytes.now) }
{
    let mut scan = Scan {
        tokens: Seq::new(alloc),
        begun: Open::Gap,
    };
    for place in 0..bytes.len() {
        match step(alloc, scan, place, bytes[place]) {
            Ok(next) => scan = next,
            Err(ScanEnd::Bad(tokens)) => {
                return Ok(Tokens {
                    tokens,
                    stop: Stop::BadByte,
                    place,
                })
            }
            Err(ScanEnd::NoMemory) => return Err(NoMemory),
        }
    }
    tokens_at(alloc, scan, bytes.len())
}
