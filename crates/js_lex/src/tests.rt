use crate::{Punctuator, Reserved, TemplatePart, TokenKind, Tokens, lex};
use std::alloc::Global;
use std::test::Fail;
use wd_base::{NoMemory, Units, units_of};

/// What a token is, in short.
#[derive(Clone, Copy, Debug, PartialEq, Eq)]
enum Told {
    Name,
    Word(Reserved),
    Number(u64),
    Text,
    Part(TemplatePart),
    Sign(Punctuator),
    End,
    Syntax,
    /// left out, with the word `number`
    NoNumber,
    /// left out, with the word `identifier`
    NoIdentifier,
}

fn in_short(kind: &TokenKind) -> Told {
    match kind {
        TokenKind::Name(_) => Told::Name,
        TokenKind::Reserved(word) => Told::Word(*word),
        TokenKind::Number(value) => Told::Number(*value),
        TokenKind::Text(_) => Told::Text,
        TokenKind::Template(part, _) => Told::Part(*part),
        TokenKind::Punctuator(sign) => Told::Sign(*sign),
        TokenKind::End => Told::End,
        TokenKind::Bad(fault) => match fault.word.len() {
            0 => Told::Syntax,
            6 => Told::NoNumber,
            _ => Told::NoIdentifier,
        },
    }
}

fn tokens(alloc: Global, script: &[u8]) -> Result<Tokens, NoMemory> {
    let units = units_of(alloc, script)?;
    lex(alloc, &units)
}

/// A token of a script by its number, with its place and whether a line end stands before it.
fn token(
    alloc: Global,
    script: &[u8],
    number: usize,
) -> Result<Option<(Told, usize, bool)>, NoMemory> {
    let tokens = tokens(alloc, script)?;
    match tokens.get(number) {
        Some(token) => Ok(Some((in_short(&token.kind), token.place, token.after_line_end))),
        None => Ok(None),
    }
}

#[test]
fn a_script_has_these_tokens(rt: HostRuntime) -> Result<(), Fail> {
    let rows: [(&[u8], usize, Told, usize, bool); 96] = [
        (b"", 0, Told::End, 0, false),
        (b"a", 1, Told::End, 1, false),
        (b"\na\n", 1, Told::End, 3, true),
        // white space, line ends and comments
        (b" \t\x0B\x0Ca", 0, Told::Name, 4, false),
        (b"\xC2\xA0\xEF\xBB\xBFa", 0, Told::Name, 2, false),
        (b"\ra", 0, Told::Name, 1, true),
        (b"\xE2\x80\xA8a", 0, Told::Name, 1, true),
        (b"a/* */b", 1, Told::Name, 6, false),
        (b"a/*\n*/b", 1, Told::Name, 6, true),
        (b"a//x\nb", 1, Told::Name, 5, true),
        (b"a//x", 1, Told::End, 4, false),
        (b"/***/", 0, Told::End, 5, false),
        (b"a /*/", 1, Told::Syntax, 2, false),
        (b"#!a", 0, Told::Syntax, 0, false),
        // names and reserved words
        (b"$_9z", 0, Told::Name, 0, false),
        (b"await", 0, Told::Word(Reserved::Await), 0, false),
        (b"let", 0, Told::Word(Reserved::Let), 0, false),
        (b"lets", 0, Told::Name, 0, false),
        (b"async", 0, Told::Name, 0, false),
        (b"a\xC3\xA9b", 0, Told::NoIdentifier, 0, false),
        (b"a \xC3\xA9", 1, Told::NoIdentifier, 2, false),
        (b"a\\u0062", 1, Told::Syntax, 1, false),
        (b"@", 0, Told::Syntax, 0, false),
        // numbers
        (b"0", 0, Told::Number(0), 0, false),
        (b"120", 0, Told::Number(120), 0, false),
        (
            b"9007199254740991",
            0,
            Told::Number(9007199254740991),
            0,
            false,
        ),
        (b"9007199254740992", 0, Told::NoNumber, 0, false),
        (b"0x1F", 0, Told::Number(31), 0, false),
        (b"0XfF", 0, Told::Number(255), 0, false),
        (b"0o17", 0, Told::Number(15), 0, false),
        (b"0B101", 0, Told::Number(5), 0, false),
        (
            b"0x1FFFFFFFFFFFFF",
            0,
            Told::Number(9007199254740991),
            0,
            false,
        ),
        (b"0x20000000000000", 0, Told::NoNumber, 0, false),
        (b"0x", 0, Told::Syntax, 0, false),
        (b"0b12", 0, Told::Syntax, 0, false),
        (b"01", 0, Told::Syntax, 0, false),
        (b"08.5", 0, Told::Syntax, 0, false),
        (b"1.5", 0, Told::NoNumber, 0, false),
        (b"1.", 0, Told::NoNumber, 0, false),
        (b"a .5", 1, Told::NoNumber, 2, false),
        (b"1e3", 0, Told::NoNumber, 0, false),
        (b"1E-3", 0, Told::NoNumber, 0, false),
        (b"1e", 0, Told::Syntax, 0, false),
        (b"1.a", 0, Told::Syntax, 0, false),
        (b"1n", 0, Told::NoNumber, 0, false),
        (b"0x1n", 0, Told::NoNumber, 0, false),
        (b"1na", 0, Told::Syntax, 0, false),
        (b"3in", 0, Told::Syntax, 0, false),
        (b"1_0", 0, Told::NoNumber, 0, false),
        (b"0x1_F", 0, Told::NoNumber, 0, false),
        (b"1_0n", 0, Told::NoNumber, 0, false),
        (b"a .5_0e1_0", 1, Told::NoNumber, 2, false),
        (b"1_0.5_0 a", 0, Told::NoNumber, 0, false),
        (b"0_1", 0, Told::Syntax, 0, false),
        (b"1_", 0, Told::Syntax, 0, false),
        (b"1__0", 0, Told::Syntax, 0, false),
        (b"1._5", 0, Told::Syntax, 0, false),
        (b"0x_1", 0, Told::Syntax, 0, false),
        (b"1_0a", 0, Told::Syntax, 0, false),
        // strings
        (b"'\xF0\x9F\x98\x80' a", 1, Told::Name, 5, false),
        (b"a 'b", 1, Told::Syntax, 2, false),
        (b"'a\nb'", 0, Told::Syntax, 0, false),
        (b"'a\"", 0, Told::Syntax, 0, false),
        (b"'\\1'", 0, Told::Syntax, 0, false),
        (b"'\\08'", 0, Told::Syntax, 0, false),
        (b"'\\x4g'", 0, Told::Syntax, 0, false),
        (b"'\\u12'", 0, Told::Syntax, 0, false),
        (b"'\\u{}'", 0, Told::Syntax, 0, false),
        (b"'\\u{110000}'", 0, Told::Syntax, 0, false),
        (b"'\\", 0, Told::Syntax, 0, false),
        // templates
        (b"`a$`", 0, Told::Part(TemplatePart::Whole), 0, false),
        (b"`a${b}c`", 0, Told::Part(TemplatePart::Head), 0, false),
        (b"`a${b}c`", 1, Told::Name, 4, false),
        (b"`a${b}c`", 2, Told::Part(TemplatePart::Tail), 5, false),
        (b"`a${b}c`", 3, Told::End, 8, false),
        (b"`${a}${b}`", 2, Told::Part(TemplatePart::Middle), 4, false),
        (b"`${{}}`", 2, Told::Sign(Punctuator::CloseBrace), 4, false),
        (b"`${{}}`", 3, Told::Part(TemplatePart::Tail), 5, false),
        (b"`${`${a}`}`", 4, Told::Part(TemplatePart::Tail), 9, false),
        (b"`${a\n}\\q", 2, Told::Syntax, 5, true),
        (b"`\n", 0, Told::Syntax, 0, false),
        (b"}`", 0, Told::Sign(Punctuator::CloseBrace), 0, false),
        // punctuators
        (
            b">>>=",
            0,
            Told::Sign(Punctuator::ShiftRightUnsignedEqual),
            0,
            false,
        ),
        (b">>> =", 1, Told::Sign(Punctuator::Equal), 4, false),
        (b"=>=", 1, Told::Sign(Punctuator::Equal), 2, false),
        (b"x++ +y", 1, Told::Sign(Punctuator::PlusPlus), 1, false),
        (b"x+++y", 2, Told::Sign(Punctuator::Plus), 3, false),
        (b"a?.b", 1, Told::Sign(Punctuator::QuestionDot), 1, false),
        (b"a?.5", 1, Told::Sign(Punctuator::Question), 1, false),
        (b"a?.5", 2, Told::NoNumber, 2, false),
        (b"...", 0, Told::Sign(Punctuator::Ellipsis), 0, false),
        (b"..", 1, Told::Sign(Punctuator::Dot), 1, false),
        (b"!==", 0, Told::Sign(Punctuator::NotIdentical), 0, false),
        (b"a /= /b/", 1, Told::Sign(Punctuator::SlashEqual), 2, false),
        (b"a /= /b/", 2, Told::Sign(Punctuator::Slash), 5, false),
        (b"\"a\"", 0, Told::Text, 0, false),
    ];
    let alloc = rt.alloc();
    for (script, number, kind, place, after_line_end) in rows {
        let expected = Some((kind, place, after_line_end));
        assert_eq!(rt; token(alloc, script, number)?, expected);
    }
    Ok(())
}

/// The units that the first token of a script stands for.
fn stands_for<'a>(tokens: &'a Tokens) -> Option<&'a Units> {
    match tokens.get(0) {
        Some(token) => match &token.kind {
            TokenKind::Name(units) | TokenKind::Text(units) => Some(units),
            TokenKind::Template(_, units) => Some(units),
            _ => None,
        },
        None => None,
    }
}

#[test]
fn a_literal_stands_for_these_units(rt: HostRuntime) -> Result<(), Fail> {
    let rows: [(&[u8], &[u16]); 17] = [
        (b"$a_1", &[36, 97, 95, 49]),
        (b"'a\"b'", &[97, 34, 98]),
        (b"\"'\"", &[39]),
        (b"'\\n\\t\\r\\b\\f\\v\\0'", &[10, 9, 13, 8, 12, 11, 0]),
        (b"'\\\\\\'\\\"\\q'", &[92, 39, 34, 113]),
        (b"'\\x4a\\u00E9\\u{43}'", &[74, 233, 67]),
        (b"'\\u{1F600}'", &[0xD83D, 0xDE00]),
        (b"'\xF0\x9F\x98\x80'", &[0xD83D, 0xDE00]),
        (b"'\\u{10FFFF}\\u{00FFFF}'", &[0xDBFF, 0xDFFF, 0xFFFF]),
        (b"'a\\\nb\\\r\nc\\\rd'", &[97, 98, 99, 100]),
        (b"'\xE2\x80\xA8'", &[0x2028]),
        (b"'\\0a'", &[0, 97]),
        (b"''", &[]),
        (b"`a\r\nb\rc\nd`", &[97, 10, 98, 10, 99, 10, 100]),
        (b"`\\`\\${'`", &[96, 36, 123, 39]),
        (b"`$a${b}", &[36, 97]),
        (b"`\\u{41}\\\n`", &[65]),
    ];
    let alloc = rt.alloc();
    for (script, expected) in rows {
        let tokens = tokens(alloc, script)?;
        let units = stands_for(&tokens);
        assert_eq!(rt; units.map(|units| units.as_slice()), Some(expected));
    }
    Ok(())
}
