ghost use Rattle.std.specs.Prelude.{◌≡◌, List, IfOk};
ghost use Rattle.capnp_text.specs.declared.reader.TextFault.{TextFault};
ghost use Rattle.capnp_text.specs.declared.tree.Decl.{Decl};
ghost use Rattle.capnp_text.specs.Answer as spec;
ghost use Rattle.capnp_text.specs.Answer.{Tells};
ghost use Rattle.capnp_text.specs.Fault.{IsText, IsFirstFault, IfFault, IsOnly, IsOnlyFault};
ghost use Rattle.capnp_text.specs.Grammar.{most_open};
ghost use Rattle.capnp_text.specs.Machine as machine;

use crate::lex::tokens_of;
use crate::machine::{At, Refusal, State, StepEnd};
use crate::scan::{Stop, Tokens};
use crate::steps::step;
use crate::token::Token;
use crate::tree::File;
use std::alloc::Global;
use wd_base::{NoMemory, Seq, Stack};

/// What a fault is.
#[derive(Clone, Copy, Debug, PartialEq, Eq)]
pub enum TextKind {
    /// a byte that begins and continues no token
    BadByte,
    /// a token that no file has there, for none of the reasons below
    BadToken,
    /// the end of the text, within a token or a declaration
    Unclosed,
    /// a token between declarations that begins none
    BadDecl,
    /// a bracket that would be open as the 33rd
    TooDeep,
}

/// The first fault of a text. Its place is that of the byte or of the token's first byte, counted
/// from 0; that of `Unclosed` is the text's length.
#[derive(Clone, Copy, Debug, PartialEq, Eq)]
pub struct TextFault {
    pub kind: TextKind,
    pub place: usize,
}

/// Why there is no tree.
#[derive(Clone, Copy, Debug, PartialEq, Eq)]
pub enum ParseEnd {
    Fault(TextFault),
    NoMemory,
}

impl From<NoMemory> for ParseEnd {
    ghost use Rattle.std.specs.Prelude.{◌≡◌};
    ghost use Rattle.capnp_text.specs.declared.reader.ParseEnd.TheVariants as ends;

    ghost from_gives = { λ _ e. e ≡ ends.NoMemory };

    fn from(_error: NoMemory) -> ParseEnd {
        ParseEnd::NoMemory
    }
}

fn kind_of(why: Refusal) -> TextKind
    ensures { result ≡ spec.kind_of why }
{
    match why {
        Refusal::BadToken => TextKind::BadToken,
        Refusal::BadDecl => TextKind::BadDecl,
        Refusal::TooDeep => TextKind::TooDeep,
    }
}

fn run(alloc: Global, tokens: Stack<Token>) -> Result<State, ParseEnd>
    ensures { Tells (spec.ran (machine.read most_open tokens)) result }
{
    let mut rest = tokens;
    let mut state = State {
        decls: Seq::new(alloc),
        at: At::Decl,
    };
    while let Some(token) = rest.pop() {
        let place = token.place;
        match step(alloc, state, token) {
            Ok(next) => state = next,
            Err(StepEnd::Refused(why)) => {
                let kind = kind_of(why);
                return Err(ParseEnd::Fault(TextFault { kind, place }));
            }
            Err(StepEnd::NoMemory) => return Err(ParseEnd::NoMemory),
        }
    }
    Ok(state)
}

fn fault(kind: TextKind, place: usize) -> Result<File, ParseEnd>
    ensures { Tells (spec.fault kind place) result }
{
    Err(ParseEnd::Fault(TextFault { kind, place }))
}

/// The text ends here.
fn finish(state: State, place: usize) -> Result<File, ParseEnd>
    ensures { Tells (spec.finished place state.decls state.at) result }
{
    let State { decls, at } = state;
    match at {
        At::Decl => Ok(decls),
        _other => fault(TextKind::Unclosed, place),
    }
}

fn stop_at(stop: Stop, place: usize, state: State) -> Result<File, ParseEnd>
    ensures { Tells (spec.at_stop stop place state) result }
{
    match stop {
        Stop::End => finish(state, place),
        Stop::Open => fault(TextKind::Unclosed, place),
        Stop::BadByte => fault(TextKind::BadByte, place),
    }
}

fn judge(alloc: Global, tokens: Tokens) -> Result<File, ParseEnd>
    ensures { Tells (spec.answer tokens) result }
{
    let Tokens {
        tokens,
        stop,
        place,
    } = tokens;
    match run(alloc, Stack::of_list(tokens)) {
        Ok(state) => stop_at(stop, place, state),
        Err(end) => Err(end),
    }
}

/// The tree of a text, or its first fault.
pub fn parse(alloc: Global, bytes: &[u8]) -> Result<File, ParseEnd>
    // What is read is in the grammar, with its places.
    ensures found { IfOk result (λ file. IsText file bytes.now) }
    // What is in the grammar is read, and as no other tree.
    ensures only { (file : List Decl) → IsText file bytes.now → IsOnly file result }
    // The fault is the first, of its kind.
    ensures first { IfFault result (λ fault. IsFirstFault fault bytes.now) }
    // The first fault is told, and no other.
    ensures only_fault { (fault : TextFault) → IsFirstFault fault bytes.now → IsOnlyFault fault result }
{
    let tokens = tokens_of(alloc, bytes)?;
    judge(alloc, tokens)
}
