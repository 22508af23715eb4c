ghost use Rattle.std.specs.Prelude.{◌≡◌, ◌++◌, OnOk};
ghost use Rattle.js_lex.specs.declared.token.TokenKind.TheVariants as tok;
ghost use Rattle.js_print.specs.TokenText as spec;

use js_lex::{Punctuator, Reserved, TemplatePart, TokenKind};
use std::alloc::Global;
use wd_base::{NoMemory, Units};

const DOUBLE_QUOTE: u16 = 34;

const BACKTICK: u16 = 96;

const BACKSLASH: u16 = 92;

pub(crate) fn word_text(word: Reserved) -> &'static [u8]
    ensures { result.now ≡ spec.word_text word }
{
    match word {
        Reserved::Await => b"await",
        Reserved::Break => b"break",
        Reserved::Case => b"case",
        Reserved::Catch => b"catch",
        Reserved::Class => b"class",
        Reserved::Const => b"const",
        Reserved::Continue => b"continue",
        Reserved::Debugger => b"debugger",
        Reserved::Default => b"default",
        Reserved::Delete => b"delete",
        Reserved::Do => b"do",
        Reserved::Else => b"else",
        Reserved::Enum => b"enum",
        Reserved::Export => b"export",
        Reserved::Extends => b"extends",
        Reserved::False => b"false",
        Reserved::Finally => b"finally",
        Reserved::For => b"for",
        Reserved::Function => b"function",
        Reserved::If => b"if",
        Reserved::Implements => b"implements",
        Reserved::Import => b"import",
        Reserved::In => b"in",
        Reserved::InstanceOf => b"instanceof",
        Reserved::Interface => b"interface",
        Reserved::Let => b"let",
        Reserved::New => b"new",
        Reserved::Null => b"null",
        Reserved::Package => b"package",
        Reserved::Private => b"private",
        Reserved::Protected => b"protected",
        Reserved::Public => b"public",
        Reserved::Return => b"return",
        Reserved::Static => b"static",
        Reserved::Super => b"super",
        Reserved::Switch => b"switch",
        Reserved::This => b"this",
        Reserved::Throw => b"throw",
        Reserved::True => b"true",
        Reserved::Try => b"try",
        Reserved::TypeOf => b"typeof",
        Reserved::Var => b"var",
        Reserved::Void => b"void",
        Reserved::While => b"while",
        Reserved::With => b"with",
        Reserved::Yield => b"yield",
    }
}

pub(crate) fn sign_text(sign: Punctuator) -> &'static [u8]
    ensures { result.now ≡ spec.sign_text sign }
{
    match sign {
        Punctuator::OpenBrace => b"{",
        Punctuator::CloseBrace => b"}",
        Punctuator::OpenParen => b"(",
        Punctuator::CloseParen => b")",
        Punctuator::OpenBracket => b"[",
        Punctuator::CloseBracket => b"]",
        Punctuator::Dot => b".",
        Punctuator::Ellipsis => b"...",
        Punctuator::Semicolon => b";",
        Punctuator::Comma => b",",
        Punctuator::Less => b"<",
        Punctuator::Greater => b">",
        Punctuator::LessEqual => b"<=",
        Punctuator::GreaterEqual => b">=",
        Punctuator::EqualEqual => b"==",
        Punctuator::NotEqual => b"!=",
        Punctuator::Identical => b"===",
        Punctuator::NotIdentical => b"!==",
        Punctuator::Plus => b"+",
        Punctuator::Minus => b"-",
        Punctuator::Star => b"*",
        Punctuator::Slash => b"/",
        Punctuator::Percent => b"%",
        Punctuator::StarStar => b"**",
        Punctuator::PlusPlus => b"++",
        Punctuator::MinusMinus => b"--",
        Punctuator::ShiftLeft => b"<<",
        Punctuator::ShiftRight => b">>",
        Punctuator::ShiftRightUnsigned => b">>>",
        Punctuator::Ampersand => b"&",
        Punctuator::Bar => b"|",
        Punctuator::Caret => b"^",
        Punctuator::Not => b"!",
        Punctuator::Tilde => b"~",
        Punctuator::AndAnd => b"&&",
        Punctuator::OrOr => b"||",
        Punctuator::QuestionQuestion => b"??",
        Punctuator::Question => b"?",
        Punctuator::QuestionDot => b"?.",
        Punctuator::Colon => b":",
        Punctuator::Equal => b"=",
        Punctuator::PlusEqual => b"+=",
        Punctuator::MinusEqual => b"-=",
        Punctuator::StarEqual => b"*=",
        Punctuator::SlashEqual => b"/=",
        Punctuator::PercentEqual => b"%=",
        Punctuator::StarStarEqual => b"**=",
        Punctuator::ShiftLeftEqual => b"<<=",
        Punctuator::ShiftRightEqual => b">>=",
        Punctuator::ShiftRightUnsignedEqual => b">>>=",
        Punctuator::AmpersandEqual => b"&=",
        Punctuator::BarEqual => b"|=",
        Punctuator::CaretEqual => b"^=",
        Punctuator::AndAndEqual => b"&&=",
        Punctuator::OrOrEqual => b"||=",
        Punctuator::QuestionQuestionEqual => b"??=",
        Punctuator::Arrow => b"=>",
    }
}

fn part_begin(part: TemplatePart) -> &'static [u8]
    ensures { result.now ≡ spec.part_begin part }
{
    match part {
        TemplatePart::Whole | TemplatePart::Head => b"`",
        TemplatePart::Middle | TemplatePart::Tail => b"}",
    }
}

fn part_end(part: TemplatePart) -> &'static [u8]
    ensures { result.now ≡ spec.part_end part }
{
    match part {
        TemplatePart::Whole | TemplatePart::Tail => b"`",
        TemplatePart::Head | TemplatePart::Middle => b"${",
    }
}

/// Adds ASCII text.
pub(crate) fn push_ascii(out: &mut Units, mut text: &[u8]) -> Result<(), NoMemory>
    ensures { OnOk result (out.new ≡ out.old ++ text.entry.now) }
{
    while let [byte, rest @ ..] = text {
        out.push(u16::from(*byte))?;
        text = rest;
    }
    Ok(())
}

/// A unit that no literal between such quotes has as it is.
fn is_escaped(quote: u16, unit: u16) -> bool
    ensures { result ≡ spec.is_escaped quote unit }
{
    (unit == quote || unit == BACKSLASH)
        || ((unit == 10 || unit == 13) || (quote == BACKTICK && unit == 36))
}

/// What stands behind `\` for a unit.
fn escape_letter(unit: u16) -> u16
    ensures { result ≡ spec.escape_letter unit }
{
    if unit == 10 {
        110
    } else if unit == 13 {
        114
    } else {
        unit
    }
}

fn push_unit(out: &mut Units, quote: u16, unit: u16) -> Result<(), NoMemory>
    ensures { OnOk result (out.new ≡ out.old ++ spec.unit_text quote unit) }
{
    if is_escaped(quote, unit) {
        out.extend(&[BACKSLASH, escape_letter(unit)])?;
    } else {
        out.push(unit)?;
    }
    Ok(())
}

/// Adds the text of the units between two quotes.
fn push_units(out: &mut Units, quote: u16, mut units: &[u16]) -> Result<(), NoMemory>
    ensures { OnOk result (out.new ≡ out.old ++ spec.units_text quote units.entry.now) }
{
    while let [unit, rest @ ..] = units {
        push_unit(out, quote, *unit)?;
        units = rest;
    }
    Ok(())
}

pub(crate) fn push_number(alloc: Global, out: &mut Units, number: u64) -> Result<(), NoMemory>
    ensures { OnOk result (out.new ≡ out.old ++ spec.token_text (tok.Number number)) }
{
    let text = number.to_string(alloc)?;
    push_ascii(out, text.as_bytes())?;
    Ok(())
}

pub(crate) fn push_string(out: &mut Units, units: &[u16]) -> Result<(), NoMemory>
    ensures { OnOk result (out.new ≡ out.old ++ spec.token_text (tok.Text units.now)) }
{
    out.push(DOUBLE_QUOTE)?;
    push_units(out, DOUBLE_QUOTE, units)?;
    out.push(DOUBLE_QUOTE)?;
    Ok(())
}

pub(crate) fn push_part(out: &mut Units, part: TemplatePart, units: &[u16]) -> Result<(), NoMemory>
    ensures { OnOk result (out.new ≡ out.old ++ spec.token_text (tok.Template part units.now)) }
{
    push_ascii(out, part_begin(part))?;
    push_units(out, BACKTICK, units)?;
    push_ascii(out, part_end(part))?;
    Ok(())
}

/// Adds the text of a token, in UTF-16 units (ECMA-262, section 12): names and words as they are,
/// numbers in decimal, strings in double quotes and parts of templates with the escapes that they
/// need. `End` and `Bad` have none. `Err` is want of memory.
pub fn token_text(alloc: Global, out: &mut Units, kind: &TokenKind) -> Result<(), NoMemory>
    ensures { OnOk result (out.new ≡ out.old ++ spec.token_text kind.now) }
{
    match kind {
        TokenKind::Name(units) => out.extend(units.as_slice())?,
        TokenKind::Reserved(word) => push_ascii(out, word_text(*word))?,
        TokenKind::Number(number) => push_number(alloc, out, *number)?,
        TokenKind::Text(units) => push_string(out, units.as_slice())?,
        TokenKind::Template(part, units) => push_part(out, *part, units.as_slice())?,
        TokenKind::Punctuator(sign) => push_ascii(out, sign_text(*sign))?,
        TokenKind::End | TokenKind::Bad(_) => (),
    }
    Ok(())
}
