ghost use Rattle.std.specs.Prelude.{◌≡◌, List, true, IfOk};
ghost use Rattle.js_lex.specs.declared.token.Token.{Token};
ghost use Rattle.js_lex.specs.Grammar.{AreTokens};
ghost use Rattle.js_lex.specs.declared.token.ScriptFault.{ScriptFault};
ghost use Rattle.js_tree.specs.declared.tree.Item.{Item};
ghost use Rattle.js_grammar.specs.Script.{most_open};
ghost use Rattle.js_grammar.specs.Fault.{IsTreeOf, IsFirstFault};
ghost use Rattle.js_parse_core.specs.Answer as answers;
ghost use Rattle.js_parse_core.specs.Machine as machine;
ghost use Rattle.js_parse.specs.Answer.{IsAnswer, Goes};
ghost use Rattle.js_parse.specs.Fault.{IfFault, IsOnly, IsOnlyFault};

use crate::faults::{copy_of, fault_at};
use js_lex::{ScriptFault, Token, TokenKind, Tokens, lex};
use js_parse_core::{At, Outer, State, StepEnd};
use js_parse_expressions::step;
use js_tree::Tree;
use std::alloc::Global;
use wd_base::{NoMemory, Seq, Stack, Units};

/// Why a script has no tree.
#[derive(Debug, Drop)]
pub enum ScriptEnd {
    /// its first fault
    Fault(ScriptFault),
    /// for want of memory, which says nothing of the script
    NoMemory,
}

impl From<NoMemory> for ScriptEnd {
    ghost use Rattle.std.specs.Prelude.{◌≡◌};
    ghost use Rattle.js_parse.specs.declared.reader.ScriptEnd.TheVariants as ends;

    ghost from_gives = { λ _ e. e ≡ ends.NoMemory };

    fn from(_error: NoMemory) -> ScriptEnd {
        ScriptEnd::NoMemory
    }
}

/// Nothing was read.
fn start(alloc: Global) -> State
    ensures { result ≡ machine.start }
{
    State {
        outer: Outer {
            items: Seq::new(alloc),
            exported: false,
            frames: Stack::new(alloc),
        },
        at: At::Statement,
    }
}

/// The step that a token makes.
fn stepped(
    alloc: Global,
    tokens: &Tokens,
    at: usize,
    state: State,
    token: &Token,
) -> Result<State, ScriptEnd>
    ensures { Goes (answers.stepped tokens.now at token.now (machine.step most_open true state token.now)) result }
{
    match step(alloc, state, token) {
        Ok(next) => Ok(next),
        Err(end) => match end {
            StepEnd::Refused(why) => {
                let fault = fault_at(alloc, tokens, at, token, why)?;
                Err(ScriptEnd::Fault(fault))
            }
            StepEnd::NoMemory => Err(ScriptEnd::NoMemory),
        },
    }
}

/// What the token with this number does. Where no token can be read, it tells the fault.
fn take(
    alloc: Global,
    tokens: &Tokens,
    at: usize,
    state: State,
    token: &Token,
) -> Result<State, ScriptEnd>
    ensures { Goes (answers.on_token tokens.now at state token.now token.now.kind) result }
{
    match &token.kind {
        TokenKind::Bad(fault) => Err(ScriptEnd::Fault(copy_of(alloc, fault)?)),
        _ => stepped(alloc, tokens, at, state, token),
    }
}

/// The state goes from token to token.
#[tactic(auto, using(crate::proofs::Answered::answers))]
fn read(alloc: Global, tokens: &Tokens) -> Result<Tree, ScriptEnd>
    ensures { IsAnswer (answers.answer tokens.now) result }
{
    let mut state = start(alloc);
    for (at, token) in tokens.as_slice().iter().enumerate() {
        match take(alloc, tokens, at, state, token) {
            Ok(next) => state = next,
            Err(end) => return Err(end),
        }
    }
    Ok(state.outer.items)
}

/// Reads a script as a module of ECMA-262 (sections 13 to 16, with the automatic ends of section
/// 12.10), as far as `docs/SCRIPTS.md` goes: its one tree, or its first fault, `Syntax` or `LeftOut`
/// with a word. A fault's place counts UTF-16 units from the script's begin. Early faults are not
/// looked for: `js_scope` tells those of a tree.
#[tactic(auto, using(crate::proofs::Contract::tree_found, crate::proofs::Contract::tree_only, crate::proofs::Contract::fault_found, crate::proofs::Contract::fault_only))]
pub fn parse(alloc: Global, units: &Units) -> Result<Tree, ScriptEnd>
    ensures found { IfOk result (λ tree. IsTreeOf tree units.now) }
    ensures only { (tree : List Item) → IsTreeOf tree units.now → IsOnly tree result }
    ensures first { IfFault result (λ fault. IsFirstFault fault units.now) }
    ensures only_first { (fault : ScriptFault) → IsFirstFault fault units.now → IsOnlyFault fault result }
{
    let tokens = lex(alloc, units)?;
    read(alloc, &tokens)
}
