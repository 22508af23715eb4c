ghost use Rattle.std.specs.Prelude.{◌≡◌, IfOk};
ghost use Rattle.js_parse_core.specs.Tokens as spec;

use js_grammar::reserved_letters;
use js_lex::{Punctuator, Reserved, Token, TokenKind, same_text};
use js_tree::Name;
use std::alloc::Global;
use wd_base::{NoMemory, Seq, TryClone, Units};

/// The token is `(`.
pub fn is_open_paren(token: &Token) -> bool
    ensures { result ≡ spec.is_open_paren token.now.kind }
{
    matches!(&token.kind, TokenKind::Punctuator(Punctuator::OpenParen))
}

/// The token is `)`.
pub fn is_close_paren(token: &Token) -> bool
    ensures { result ≡ spec.is_close_paren token.now.kind }
{
    matches!(&token.kind, TokenKind::Punctuator(Punctuator::CloseParen))
}

/// The token is `{`.
pub fn is_open_brace(token: &Token) -> bool
    ensures { result ≡ spec.is_open_brace token.now.kind }
{
    matches!(&token.kind, TokenKind::Punctuator(Punctuator::OpenBrace))
}

/// The token is `}`.
pub fn is_close_brace(token: &Token) -> bool
    ensures { result ≡ spec.is_close_brace token.now.kind }
{
    matches!(&token.kind, TokenKind::Punctuator(Punctuator::CloseBrace))
}

/// The token is `[`.
pub fn is_open_bracket(token: &Token) -> bool
    ensures { result ≡ spec.is_open_bracket token.now.kind }
{
    matches!(&token.kind, TokenKind::Punctuator(Punctuator::OpenBracket))
}

/// The token is `]`.
pub fn is_close_bracket(token: &Token) -> bool
    ensures { result ≡ spec.is_close_bracket token.now.kind }
{
    matches!(&token.kind, TokenKind::Punctuator(Punctuator::CloseBracket))
}

/// The token is `;`.
pub fn is_semicolon(token: &Token) -> bool
    ensures { result ≡ spec.is_semicolon token.now.kind }
{
    matches!(&token.kind, TokenKind::Punctuator(Punctuator::Semicolon))
}

/// The token is `,`.
pub fn is_comma(token: &Token) -> bool
    ensures { result ≡ spec.is_comma token.now.kind }
{
    matches!(&token.kind, TokenKind::Punctuator(Punctuator::Comma))
}

/// The token is `:`.
pub fn is_colon(token: &Token) -> bool
    ensures { result ≡ spec.is_colon token.now.kind }
{
    matches!(&token.kind, TokenKind::Punctuator(Punctuator::Colon))
}

/// The token is `=`.
pub fn is_equal(token: &Token) -> bool
    ensures { result ≡ spec.is_equal token.now.kind }
{
    matches!(&token.kind, TokenKind::Punctuator(Punctuator::Equal))
}

/// The token is `=>`.
pub fn is_arrow(token: &Token) -> bool
    ensures { result ≡ spec.is_arrow token.now.kind }
{
    matches!(&token.kind, TokenKind::Punctuator(Punctuator::Arrow))
}

/// The token is `else`.
pub fn is_else(token: &Token) -> bool
    ensures { result ≡ spec.is_else token.now.kind }
{
    matches!(&token.kind, TokenKind::Reserved(Reserved::Else))
}

/// The token is `finally`.
pub fn is_finally(token: &Token) -> bool
    ensures { result ≡ spec.is_finally token.now.kind }
{
    matches!(&token.kind, TokenKind::Reserved(Reserved::Finally))
}

/// The token is `default`.
pub fn is_default(token: &Token) -> bool
    ensures { result ≡ spec.is_default token.now.kind }
{
    matches!(&token.kind, TokenKind::Reserved(Reserved::Default))
}

fn is_end(token: &Token) -> bool
    ensures { result ≡ spec.is_end token.now.kind }
{
    matches!(&token.kind, TokenKind::End)
}

/// An automatic end may stand before the token (ECMA-262, section 12.10).
pub fn may_end(token: &Token) -> bool
    ensures { result ≡ spec.may_end token.now }
{
    is_end(token) || (token.after_line_end || is_close_brace(token))
}

/// The units of a name are those of `async`.
pub fn is_async(units: &Units) -> bool
    ensures { result ≡ spec.is_async units.now }
{
    same_text(units.as_slice(), b"async")
}

/// The token is the name `of`.
pub fn is_of(token: &Token) -> bool
    ensures { result ≡ spec.is_of token.now.kind }
{
    match &token.kind {
        TokenKind::Name(units) => same_text(units.as_slice(), b"of"),
        _ => false,
    }
}

/// The name of these units, at its place.
pub fn name_at(alloc: Global, place: usize, units: &Units) -> Result<Name, NoMemory>
    ensures { IfOk result (λ name. name ≡ spec.name place units.now) }
{
    let units = units.try_clone(alloc)?;
    Ok(Name { place, units })
}

/// ASCII letters as UTF-16 units.
pub fn units_of_letters(alloc: Global, letters: &[u8]) -> Result<Units, NoMemory>
    ensures { IfOk result (λ units. units ≡ letters.now) }
{
    let mut units = Seq::new(alloc);
    for letter in letters {
        units.push(u16::from(*letter))?;
    }
    Ok(units)
}

/// A name, or a reserved word as one (ECMA-262, section 12.7, IdentifierName).
pub fn any_name(alloc: Global, token: &Token) -> Result<Option<Name>, NoMemory>
    ensures { IfOk result (λ found. found ≡ spec.any_name token.now.place token.now.kind) }
{
    match &token.kind {
        TokenKind::Name(units) => Ok(Some(name_at(alloc, token.place, units)?)),
        TokenKind::Reserved(word) => {
            let units = units_of_letters(alloc, reserved_letters(*word))?;
            let place = token.place;
            Ok(Some(Name { place, units }))
        }
        _ => Ok(None),
    }
}
