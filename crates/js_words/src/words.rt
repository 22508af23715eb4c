ghost use Rattle.std.specs.Prelude.{◌≡◌, ◌+◌, slice_get};
ghost use Rattle.std.specs.Option.{option_copied};
ghost use Rattle.js_words.specs.Words as spec;

use crate::word::{Spot, Word};
use js_lex::{Punctuator, Reserved, Token, TokenKind, Tokens, same_text};
use wd_base::Units;

fn sign_strength(sign: Punctuator) -> Option<u8>
    ensures { result ≡ spec.sign_strength sign }
{
    match sign {
        Punctuator::QuestionQuestion | Punctuator::OrOr => Some(1),
        Punctuator::AndAnd => Some(2),
        Punctuator::Identical | Punctuator::NotIdentical => Some(3),
        Punctuator::Less | Punctuator::LessEqual | Punctuator::Greater | Punctuator::GreaterEqual =>
            Some(4),
        Punctuator::Plus | Punctuator::Minus => Some(5),
        Punctuator::Star | Punctuator::Slash | Punctuator::Percent => Some(6),
        _ => None,
    }
}

/// The strength of a binary operator, from 1 for `??` and `||` to 6 for `*`, `/` and `%` (ECMA-262,
/// sections 13.7 to 13.13); None for every other token.
pub fn strength(token: &Token) -> Option<u8>
    ensures { result ≡ spec.strength token.now.kind }
{
    match &token.kind {
        TokenKind::Punctuator(sign) => sign_strength(*sign),
        _ => None,
    }
}

fn reserved_word(word: Reserved) -> Option<Word>
    ensures { result ≡ spec.reserved_word word }
{
    match word {
        Reserved::Class => Some(Word::Class),
        Reserved::Switch => Some(Word::Switch),
        Reserved::Var => Some(Word::Var),
        Reserved::Import => Some(Word::Import),
        Reserved::Yield => Some(Word::Yield),
        Reserved::Delete => Some(Word::Delete),
        Reserved::In => Some(Word::In),
        Reserved::InstanceOf => Some(Word::InstanceOf),
        Reserved::Do => Some(Word::Do),
        Reserved::With => Some(Word::With),
        Reserved::Void => Some(Word::Void),
        Reserved::Super => Some(Word::Super),
        Reserved::Debugger => Some(Word::Debugger),
        Reserved::Enum => Some(Word::Enum),
        _ => None,
    }
}

/// The word of a punctuator, wherever it stands.
fn sign_word(sign: Punctuator) -> Option<Word>
    ensures { result ≡ spec.sign_word sign }
{
    match sign {
        Punctuator::EqualEqual => Some(Word::EqualEqual),
        Punctuator::NotEqual => Some(Word::NotEqual),
        Punctuator::Ellipsis => Some(Word::Ellipsis),
        Punctuator::StarStar => Some(Word::StarStar),
        Punctuator::QuestionDot => Some(Word::QuestionDot),
        Punctuator::Ampersand => Some(Word::Ampersand),
        Punctuator::Bar => Some(Word::Bar),
        Punctuator::Caret => Some(Word::Caret),
        Punctuator::Tilde => Some(Word::Tilde),
        Punctuator::ShiftLeft => Some(Word::ShiftLeft),
        Punctuator::ShiftRight => Some(Word::ShiftRight),
        Punctuator::ShiftRightUnsigned => Some(Word::ShiftRightUnsigned),
        Punctuator::StarEqual => Some(Word::StarEqual),
        Punctuator::SlashEqual => Some(Word::SlashEqual),
        Punctuator::PercentEqual => Some(Word::PercentEqual),
        Punctuator::StarStarEqual => Some(Word::StarStarEqual),
        Punctuator::ShiftLeftEqual => Some(Word::ShiftLeftEqual),
        Punctuator::ShiftRightEqual => Some(Word::ShiftRightEqual),
        Punctuator::ShiftRightUnsignedEqual => Some(Word::ShiftRightUnsignedEqual),
        Punctuator::AmpersandEqual => Some(Word::AmpersandEqual),
        Punctuator::BarEqual => Some(Word::BarEqual),
        Punctuator::CaretEqual => Some(Word::CaretEqual),
        Punctuator::AndAndEqual => Some(Word::AndAndEqual),
        Punctuator::OrOrEqual => Some(Word::OrOrEqual),
        Punctuator::QuestionQuestionEqual => Some(Word::QuestionQuestionEqual),
        _ => None,
    }
}

fn begin_word(sign: Punctuator) -> Option<Word>
    ensures { result ≡ spec.begin_word sign }
{
    match sign {
        Punctuator::Plus => Some(Word::UnaryPlus),
        Punctuator::Slash | Punctuator::SlashEqual => Some(Word::RegularExpression),
        _ => sign_word(sign),
    }
}

fn operand_end_word(sign: Punctuator) -> Option<Word>
    ensures { result ≡ spec.operand_end_word sign }
{
    match sign {
        Punctuator::Comma => Some(Word::Comma),
        _ => sign_word(sign),
    }
}

fn declared_word(sign: Punctuator) -> Option<Word>
    ensures { result ≡ spec.declared_word sign }
{
    match sign {
        Punctuator::OpenBracket | Punctuator::OpenBrace => Some(Word::Destructuring),
        _ => sign_word(sign),
    }
}

fn parameter_word(sign: Punctuator) -> Option<Word>
    ensures { result ≡ spec.parameter_word sign }
{
    match sign {
        Punctuator::Equal => Some(Word::Default),
        _ => declared_word(sign),
    }
}

fn key_word(sign: Punctuator) -> Option<Word>
    ensures { result ≡ spec.key_word sign }
{
    match sign {
        Punctuator::OpenBracket => Some(Word::Computed),
        _ => sign_word(sign),
    }
}

fn word_by(spot: Spot, sign: Punctuator) -> Option<Word>
    ensures { result ≡ spec.word_by spot sign }
{
    match spot {
        Spot::ExpressionBegin | Spot::StatementBegin => begin_word(sign),
        Spot::OperandEnd => operand_end_word(sign),
        Spot::DeclaredName => declared_word(sign),
        Spot::Parameter => parameter_word(sign),
        Spot::Key => key_word(sign),
    }
}

/// The token is a key's first one.
fn begins_key(kind: &TokenKind) -> bool
    ensures { result ≡ spec.begins_key kind.now }
{
    match kind {
        TokenKind::Name(_) | TokenKind::Reserved(_) => true,
        TokenKind::Text(_) | TokenKind::Number(_) => true,
        TokenKind::Punctuator(sign) => is_open_bracket(*sign),
        _ => false,
    }
}

fn is_open_bracket(sign: Punctuator) -> bool
    ensures { result ≡ spec.is_open_bracket sign }
{
    match sign {
        Punctuator::OpenBracket => true,
        _ => false,
    }
}

fn is_colon(kind: &TokenKind) -> bool
    ensures { result ≡ spec.is_colon kind.now }
{
    match kind {
        TokenKind::Punctuator(sign) => match sign {
            Punctuator::Colon => true,
            _ => false,
        },
        _ => false,
    }
}

/// `get` or `set`.
fn accessor(name: &Units) -> Option<Word>
    ensures { result ≡ spec.accessor name.now }
{
    if same_text(name.as_slice(), b"get") {
        Some(Word::Get)
    } else if same_text(name.as_slice(), b"set") {
        Some(Word::Set)
    } else {
        None
    }
}

/// The word of a name before another token.
fn name_word(spot: Spot, name: &Units, next: &TokenKind) -> Option<Word>
    ensures { result ≡ spec.name_word spot name.now next.now }
{
    match spot {
        Spot::Key => {
            if begins_key(next) {
                accessor(name)
            } else {
                None
            }
        }
        Spot::StatementBegin => {
            if is_colon(next) {
                Some(Word::Label)
            } else {
                None
            }
        }
        _ => None,
    }
}

/// A key ends before this token.
fn ends_key(kind: &TokenKind) -> bool
    ensures { result ≡ spec.ends_key kind.now }
{
    match kind {
        TokenKind::Punctuator(sign) => match sign {
            Punctuator::Colon | Punctuator::OpenParen => true,
            _ => false,
        },
        _ => false,
    }
}

fn is_key_before(spot: Spot, next: Option<&Token>) -> bool
    ensures { result ≡ spec.is_key_before spot (option_copied next.entry) }
{
    match spot {
        Spot::Key => match next {
            Some(next) => ends_key(&next.kind),
            None => false,
        },
        _ => false,
    }
}

/// The word of a reserved word, which stands as a name where it is a key.
fn reserved_before(spot: Spot, word: Reserved, next: Option<&Token>) -> Option<Word>
    ensures { result ≡ spec.reserved_before spot word (option_copied next.entry) }
{
    if is_key_before(spot, next) {
        None
    } else {
        reserved_word(word)
    }
}

fn word_before(spot: Spot, kind: &TokenKind, next: Option<&Token>) -> Option<Word>
    ensures { result ≡ spec.word_before spot kind.now (option_copied next.entry) }
{
    match kind {
        TokenKind::Reserved(word) => reserved_before(spot, *word, next),
        TokenKind::Punctuator(sign) => word_by(spot, *sign),
        TokenKind::Name(name) => match next {
            Some(next) => name_word(spot, name, &next.kind),
            None => None,
        },
        _ => None,
    }
}

/// The token behind the one at a place.
#[tactic(auto, using(crate::proofs::Places::none_behind))]
fn token_behind(tokens: &Tokens, at: usize) -> Option<&Token>
    ensures { option_copied result ≡ slice_get tokens.now (at + 1) }
{
    if at < tokens.len() {
        tokens.get(at + 1)
    } else {
        None
    }
}

/// The word or form of ECMA-262 that scripts have not, of the token at a place in the list (an
/// index, from 0), where the spot says what stands there. None where the token has none there,
/// where the list ends before, and where it is `Bad`, which carries its own fault. A label has its
/// word at the name, not at the `:`. `docs/SCRIPTS.md` lists the words.
pub fn word_of(tokens: &Tokens, at: usize, spot: Spot) -> Option<Word>
    ensures { result ≡ spec.word_of tokens.now at spot }
{
    match tokens.get(at) {
        Some(token) => word_before(spot, &token.kind, token_behind(tokens, at)),
        None => None,
    }
}
