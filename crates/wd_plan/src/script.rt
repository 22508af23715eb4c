ghost use Rattle.std.specs.Prelude.{◌≡◌, ◌<◌, ◌≤◌, length, drop, option_map, IfOk, IfSome};
ghost use Rattle.wd_plan.specs.Script.{Comes, answer_for, answer_of, answered, literal_value, value_from};
ghost use Rattle.wd_plan.specs.Script.{inner, is_plain};

use crate::reason::Reason;
use js_check::check;
use std::alloc::Global;
use wd_base::{Bytes, Form, NoMemory, Seq, WorkerDef, units_of};

const FRONT: &[u8] = b"export default {\n  async fetch(request) {\n    return new Response(\"";

const BACK: &[u8] = b"\");\n  }\n};\n";

/// What the script of a Worker comes to.
#[derive(Debug, Drop)]
pub enum Verdict {
    /// It answers this text to every request.
    Answers(Bytes),
    Refused(Reason),
}

/// What a Worker's script comes to: it is checked, and then its form is looked at.
#[tactic(auto, using(crate::proofs::ScriptSteps::found_told, crate::proofs::ScriptSteps::comes_checked))]
pub fn judge(alloc: Global, worker: &WorkerDef) -> Result<Verdict, NoMemory>
    ensures { IfOk result (Comes worker.now) }
{
    let units = units_of(alloc, worker.source.as_slice())?;
    match check(alloc, &units)? {
        Some(refusal) => Ok(Verdict::Refused(Reason::Faulty(refusal))),
        None => judge_form(alloc, worker),
    }
}

/// What a script comes to that is in the grammar and has no early fault.
fn judge_form(alloc: Global, worker: &WorkerDef) -> Result<Verdict, NoMemory>
    ensures { IfOk result (λ verdict. verdict ≡ answered (answer_for worker.now)) }
{
    match answer_for(alloc, worker)? {
        Some(text) => Ok(Verdict::Answers(text)),
        None => Ok(Verdict::Refused(Reason::OtherForm)),
    }
}

/// The text that a script of the one form that is read answers to every request, and None for
/// every other script.
fn answer_of(alloc: Global, source: &[u8]) -> Result<Option<Bytes>, NoMemory>
    ensures { IfOk result (λ found. found ≡ answer_of source.now) }
{
    match inner(source) {
        Some(literal) => literal_value(alloc, literal),
        None => Ok(None),
    }
}

/// The text that a Worker's script answers to every request, and None where it has not the one form
/// that is read, which is a module's.
fn answer_for(alloc: Global, worker: &WorkerDef) -> Result<Option<Bytes>, NoMemory>
    ensures { IfOk result (λ found. found ≡ answer_for worker.now) }
{
    match worker.form {
        Form::Module => answer_of(alloc, worker.source.as_slice()),
        Form::Script => Ok(None),
    }
}

/// What stands between the quotation marks.
fn inner(source: &[u8]) -> Option<&[u8]>
    ensures { option_map (λ literal. literal.now) result ≡ inner source.now }
{
    match source.strip_prefix(FRONT) {
        Some(rest) => rest.strip_suffix(BACK),
        None => None,
    }
}

/// The value of a string literal between its quotation marks (ECMA-262, section 12.9.4), of
/// printable ASCII, where `\n` is the only escape.
#[tactic(auto, using(crate::proofs::ScriptSteps::behind_more, crate::proofs::ScriptSteps::behind_none, crate::proofs::ScriptSteps::whole_value, crate::proofs::ScriptSteps::behind_nothing))]
fn literal_value(alloc: Global, literal: &[u8]) -> Result<Option<Bytes>, NoMemory>
    ensures { IfOk result (λ found. found ≡ literal_value literal.now) }
{
    let mut value = Seq::new(alloc);
    let mut at = 0;
    while at < literal.len() {
        let Some((character, next)) = character_at(literal, at) else {
            return Ok(None);
        };
        value.push(character)?;
        at = next;
    }
    Ok(Some(value))
}

/// The character at a place, and where the next one begins.
#[tactic(auto, using(crate::proofs::ScriptSteps::escape_at, crate::proofs::ScriptSteps::plain_at, crate::proofs::ScriptSteps::no_backslash_at, crate::proofs::ScriptSteps::last_at, crate::proofs::ScriptSteps::no_escape_at))]
fn character_at(literal: &[u8], at: usize) -> Option<(u8, usize)>
    requires { at < length literal.now }
    ensures value { literal_value (drop at literal.now) ≡ value_from result literal.now }
    ensures next { IfSome result (λ found. (at < found.1) × (found.1 ≤ length literal.now)) }
{
    let byte = literal[at];
    if is_plain(byte) {
        return Some((byte, at + 1));
    }
    if byte == b'\\' && at + 1 < literal.len() && literal[at + 1] == b'n' {
        Some((b'\n', at + 2))
    } else {
        None
    }
}

#[tactic(auto, unfolding(crate::specs::Script::is_plain))]
fn is_plain(byte: u8) -> bool
    ensures { result ≡ is_plain byte }
{
    (32..127).contains(&byte) && byte != b'"' && byte != b'\\'
}
