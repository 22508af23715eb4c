ghost use Rattle.std.specs.Prelude.{◌≡◌, IfOk};
ghost use Rattle.js_parse_core.specs.Told as spec;

use js_grammar::letters;
use js_lex::{ScriptFault, ScriptKind, Token, TokenKind, Tokens};
use js_parse_core::{Asked, Refusal, units_of_letters};
use js_words::{Spot, Word, word_of};
use std::alloc::Global;
use wd_base::{NoMemory, Seq, TryClone};

pub fn copy_of(alloc: Global, fault: &ScriptFault) -> Result<ScriptFault, NoMemory>
    ensures { IfOk result (λ copy. copy ≡ fault.now) }
{
    Ok(ScriptFault {
        kind: fault.kind,
        place: fault.place,
        word: fault.word.try_clone(alloc)?,
    })
}

fn left_out(alloc: Global, place: usize, word: Word) -> Result<ScriptFault, NoMemory>
    ensures { IfOk result (λ fault. fault ≡ spec.left_out place word) }
{
    Ok(ScriptFault {
        kind: ScriptKind::LeftOut,
        place,
        word: units_of_letters(alloc, letters(word))?,
    })
}

fn syntax(alloc: Global, place: usize) -> ScriptFault
    ensures { result ≡ spec.syntax_fault place }
{
    ScriptFault {
        kind: ScriptKind::Syntax,
        place,
        word: Seq::new(alloc),
    }
}

/// The word of a token, wherever it stands.
fn word_anywhere(tokens: &Tokens, at: usize) -> Option<Word>
    ensures { result ≡ spec.word_anywhere tokens.now at }
{
    match word_of(tokens, at, Spot::OperandEnd) {
        Some(word) => match word {
            Word::Comma => None,
            word => Some(word),
        },
        None => None,
    }
}

fn word_at(tokens: &Tokens, at: usize, spot: Option<Spot>) -> Option<Word>
    ensures { result ≡ spec.word_at tokens.now at spot }
{
    match spot {
        Some(spot) => word_of(tokens, at, spot),
        None => None,
    }
}

fn word_before(tokens: &Tokens, at: usize, spot: Option<Spot>) -> Option<Word>
    ensures { result ≡ spec.word_before tokens.now at spot }
{
    if at == 0 {
        return None;
    }
    word_at(tokens, at - 1, spot)
}

fn behind_end(ended: bool) -> Option<Spot>
    ensures { result ≡ spec.behind_end ended }
{
    if ended {
        Some(Spot::StatementBegin)
    } else {
        None
    }
}

/// The first word, or else the second.
fn or_else(first: Option<Word>, second: Option<Word>) -> Option<Word>
    ensures { result ≡ spec.or_else first second }
{
    match first {
        Some(word) => Some(word),
        None => second,
    }
}

/// The word of the token that is refused: the first one that is told by the token before it, by
/// its own spot, by the spot behind an automatic end, or by no spot.
fn word(tokens: &Tokens, at: usize, asked: Asked) -> Option<Word>
    ensures { result ≡ spec.word tokens.now at asked }
{
    let later = word_at(tokens, at, behind_end(asked.ended));
    let here = word_at(tokens, at, asked.here);
    let last = or_else(later, word_anywhere(tokens, at));
    or_else(word_before(tokens, at, asked.before), or_else(here, last))
}

fn place_before(tokens: &Tokens, at: usize) -> usize
    ensures { result ≡ spec.place_before tokens.now at }
{
    if at == 0 {
        return 0;
    }
    match tokens.get(at - 1) {
        Some(token) => token.place,
        None => 0,
    }
}

fn token_fault(
    alloc: Global,
    tokens: &Tokens,
    at: usize,
    place: usize,
    asked: Asked,
) -> Result<ScriptFault, NoMemory>
    ensures { IfOk result (λ fault. fault ≡ spec.told place (spec.word tokens.now at asked)) }
{
    match word(tokens, at, asked) {
        Some(word) => left_out(alloc, place, word),
        None => Ok(syntax(alloc, place)),
    }
}

fn refusal_fault(
    alloc: Global,
    tokens: &Tokens,
    at: usize,
    place: usize,
    why: Refusal,
) -> Result<ScriptFault, NoMemory>
    ensures { IfOk result (λ fault. fault ≡ spec.refusal_fault tokens.now at place why) }
{
    match why {
        Refusal::Token(asked) => token_fault(alloc, tokens, at, place, asked),
        Refusal::Plain => Ok(syntax(alloc, place)),
        Refusal::Nesting => left_out(alloc, place, Word::Nesting),
        Refusal::NestingBefore => left_out(alloc, place_before(tokens, at), Word::Nesting),
    }
}

/// The fault at the token with this number, which is refused.
pub fn fault_at(
    alloc: Global,
    tokens: &Tokens,
    at: usize,
    token: &Token,
    why: Refusal,
) -> Result<ScriptFault, NoMemory>
    ensures { IfOk result (λ fault. fault ≡ spec.fault_at tokens.now at token.now why) }
{
    match &token.kind {
        TokenKind::End => Ok(syntax(alloc, token.place)),
        _ => refusal_fault(alloc, tokens, at, token.place, why),
    }
}
