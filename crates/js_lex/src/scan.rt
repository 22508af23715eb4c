ghost use Rattle.std.specs.Prelude.{◌≡◌, ◌≤◌, ◌<◌, ◌+◌, [], ◌∷◌, ◌++◌, ◌^◌, drop, length, List, IfOk};
ghost use Rattle.js_lex.specs.Places as spec;
ghost use Rattle.js_lex.specs.Front.{more_units};
ghost use Rattle.js_lex.specs.Grammar.{AreTokens};
ghost use Rattle.js_lex.specs.Scan.{taken};

use crate::front::{Front, Unread, front_of, more_units};
use crate::token::{Punctuator, ScriptFault, ScriptKind, TemplatePart, Token, TokenKind, Tokens};
use std::alloc::Global;
use wd_base::{NoMemory, Seq, Stack, Units};

/// An open brace.
#[derive(Clone, Copy, Debug)]
pub enum Brace {
    /// `{`
    Block,
    /// `${` of a template
    Hole,
}

/// The open braces, the innermost one first.
type Braces = Stack<Brace>;

/// The innermost open brace is `${`.
fn in_hole(braces: &Braces) -> bool
    ensures { result ≡ spec.in_hole braces.now }
{
    match braces.top() {
        Some(Brace::Hole) => true,
        _ => false,
    }
}

fn without_first(braces: Braces) -> Braces
    ensures { result ≡ drop 1 braces }
{
    let mut braces = braces;
    braces.pop();
    braces
}

/// The open braces behind a token.
fn braces_behind(kind: &TokenKind, braces: Braces) -> Result<Braces, NoMemory>
    ensures { IfOk result (λ after. after ≡ spec.braces kind.now braces) }
{
    match kind {
        TokenKind::Punctuator(sign) => match sign {
            Punctuator::OpenBrace => braces.with(Brace::Block),
            Punctuator::CloseBrace => Ok(without_first(braces)),
            _ => Ok(braces),
        },
        TokenKind::Template(part, _) => match part {
            TemplatePart::Head => braces.with(Brace::Hole),
            TemplatePart::Tail => Ok(without_first(braces)),
            TemplatePart::Whole | TemplatePart::Middle => Ok(braces),
        },
        _ => Ok(braces),
    }
}

const NUMBER: [u16; 6] = [110, 117, 109, 98, 101, 114];

const IDENTIFIER: [u16; 10] = [105, 100, 101, 110, 116, 105, 102, 105, 101, 114];

fn fault(alloc: Global, place: usize, why: Unread) -> Result<ScriptFault, NoMemory>
    ensures { IfOk result (λ fault. fault ≡ spec.fault place why) }
{
    let (kind, word) = match why {
        Unread::Syntax => (ScriptKind::Syntax, Seq::new(alloc)),
        Unread::Number => (ScriptKind::LeftOut, Seq::copy(alloc, &NUMBER)?),
        Unread::Identifier => (ScriptKind::LeftOut, Seq::copy(alloc, &IDENTIFIER)?),
    };
    Ok(ScriptFault { kind, place, word })
}

/// What was read: the tokens, the open braces behind them, the place where the rest begins, and
/// whether a line end stands before it.
#[derive(Debug, Drop)]
pub struct State {
    pub tokens: Tokens,
    pub braces: Braces,
    pub place: usize,
    pub after_line_end: bool,
}

#[derive(Debug, Drop)]
pub enum Step {
    Next(State),
    /// the last token is `Bad`
    Stop(Tokens),
}

fn with_token(
    tokens: Tokens,
    place: usize,
    after_line_end: bool,
    kind: TokenKind,
) -> Result<Tokens, NoMemory>
    ensures { IfOk result (λ list. list ≡ tokens ++ spec.token place after_line_end kind ∷ []) }
{
    let mut tokens = tokens;
    tokens.push(Token {
        place,
        after_line_end,
        kind,
    })?;
    Ok(tokens)
}

/// With what stands at the front.
fn take(alloc: Global, state: State, front: Front) -> Result<Step, NoMemory>
    requires { state.place + (1 + more_units front) < 2 ^ 64 }
    ensures { IfOk result (λ step. step ≡ taken state front) }
{
    let State {
        tokens,
        braces,
        place,
        after_line_end,
    } = state;
    match front {
        Front::Gap(more, ends) => Ok(Step::Next(State {
            tokens,
            braces,
            place: place + (1 + more),
            after_line_end: after_line_end || ends,
        })),
        Front::Token(kind, more) => {
            let braces = braces_behind(&kind, braces)?;
            let tokens = with_token(tokens, place, after_line_end, kind)?;
            Ok(Step::Next(State {
                tokens,
                braces,
                place: place + (1 + more),
                after_line_end: false,
            }))
        }
        Front::Bad(why) => {
            let bad = TokenKind::Bad(fault(alloc, place, why)?);
            Ok(Step::Stop(with_token(tokens, place, after_line_end, bad)?))
        }
    }
}

fn scan(alloc: Global, mut text: &[u16]) -> Result<Tokens, NoMemory>
    ensures found { IfOk result (λ tokens. AreTokens text.entry.now tokens) }
    ensures only { (tokens : List Token) → AreTokens text.entry.now tokens → IfOk result (λ found. found ≡ tokens) }
{
    let mut state = State {
        tokens: Seq::new(alloc),
        braces: Stack::new(alloc),
        place: 0,
        after_line_end: false,
    };
    while let [first, rest @ ..] = text {
        let front = front_of(alloc, in_hole(&state.braces), *first, rest)?;
        let more = more_units(&front);
        match take(alloc, state, front)? {
            Step::Next(next) => {
                state = next;
                text = &text[1 + more..];
            }
            Step::Stop(tokens) => return Ok(tokens),
        }
    }
    with_token(
        state.tokens,
        state.place,
        state.after_line_end,
        TokenKind::End,
    )
}

/// The tokens of a script, after ECMA-262, section 12: the longest one at each place, up to `End`,
/// or up to `Bad` at the first place where none can be read. Places count UTF-16 units.
/// `docs/SCRIPTS.md` has the grammar. `Err` is want of memory.
pub fn lex(alloc: Global, units: &Units) -> Result<Tokens, NoMemory>
    ensures found { IfOk result (λ tokens. AreTokens units.now tokens) }
    ensures only { (tokens : List Token) → AreTokens units.now tokens → IfOk result (λ found. found ≡ tokens) }
{
    scan(alloc, units.as_slice())
}
