ghost use Rattle.std.specs.Prelude.{◌≡◌, IfOk};
ghost use Rattle.wd_plan.specs.Reason.{early_kind, grammar_text, left_out_text, placed, reason_text, refusal_text};

use crate::text::framed;
use js_check::ScriptRefusal;
use js_lex::{ScriptFault, ScriptKind};
use js_scope::EarlyKind;
use std::alloc::Global;
use wd_base::{Bytes, NoMemory, Units, bytes_of};

/// Why the script of a Worker is refused.
#[derive(Debug, Drop)]
pub enum Reason {
    /// It is not in the grammar, or it has an early fault.
    Faulty(ScriptRefusal),
    /// It has neither fault, and not the one form that is served.
    OtherForm,
}

/// A script that is refused.
#[derive(Debug, Drop)]
pub struct RefusedScript {
    /// the name of the service whose script it is
    pub service: Bytes,
    pub reason: Reason,
}

/// What is printed of a reason: a kind, with a word where something is left out, and a place.
pub fn reason_text(alloc: Global, reason: &Reason) -> Result<Vec<u8>, NoMemory>
    ensures { IfOk result (λ text. text.items ≡ reason_text reason.now) }
{
    match reason {
        Reason::Faulty(refusal) => refusal_text(alloc, refusal),
        Reason::OtherForm => placed(alloc, b"LeftOut form", 0),
    }
}

fn refusal_text(alloc: Global, refusal: &ScriptRefusal) -> Result<Vec<u8>, NoMemory>
    ensures { IfOk result (λ text. text.items ≡ refusal_text refusal.now) }
{
    match refusal {
        ScriptRefusal::Grammar(fault) => grammar_text(alloc, fault),
        ScriptRefusal::Early(fault) => placed(alloc, early_kind(fault.kind), fault.place),
    }
}

fn grammar_text(alloc: Global, fault: &ScriptFault) -> Result<Vec<u8>, NoMemory>
    ensures { IfOk result (λ text. text.items ≡ grammar_text fault.now.kind fault.now.word fault.now.place) }
{
    match fault.kind {
        ScriptKind::Syntax => placed(alloc, b"Syntax", fault.place),
        ScriptKind::LeftOut => left_out_text(alloc, &fault.word, fault.place),
    }
}

#[tactic(auto, unfolding(crate::specs::Reason::left_out_text))]
fn left_out_text(alloc: Global, word: &Units, place: usize) -> Result<Vec<u8>, NoMemory>
    ensures { IfOk result (λ text. text.items ≡ left_out_text word.now place) }
{
    let word = bytes_of(alloc, word)?;
    let mut kind = Vec::from_slice(alloc, b"LeftOut ")?;
    kind.extend_from_slice(word.as_slice())?;
    placed(alloc, kind.as_slice(), place)
}

fn early_kind(kind: EarlyKind) -> &'static [u8]
    ensures { result.now ≡ early_kind kind }
{
    match kind {
        EarlyKind::DoubleName => b"DoubleName",
        EarlyKind::ReturnOutside => b"ReturnOutside",
        EarlyKind::AwaitOutside => b"AwaitOutside",
        EarlyKind::BreakOutside => b"BreakOutside",
    }
}

/// A kind with its place.
#[tactic(auto, unfolding(crate::specs::Reason::placed))]
fn placed(alloc: Global, kind: &[u8], place: usize) -> Result<Vec<u8>, NoMemory>
    ensures { IfOk result (λ text. text.items ≡ placed kind.now place) }
{
    let place = place.to_string(alloc)?;
    framed(alloc, kind, b" at ", place.as_bytes())
}
