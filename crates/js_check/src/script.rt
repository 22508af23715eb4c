ghost use Rattle.std.specs.Prelude.{IfOk};
ghost use Rattle.js_scope.specs.Early.{early_faults};
ghost use Rattle.js_check.specs.Verdict.{Checked, IsRefusedFor};

use js_lex::ScriptFault;
use js_parse::{ScriptEnd, parse};
use js_scope::{EarlyEnd, EarlyFault, resolve};
use js_tree::Tree;
use std::alloc::Global;
use wd_base::{NoMemory, Units};

/// Why a script is refused.
#[derive(Debug, Drop)]
pub enum ScriptRefusal {
    /// It is not in the grammar: its first fault.
    Grammar(ScriptFault),
    /// It is in the grammar, and its tree has an early fault: the first one in the order of the
    /// text.
    Early(EarlyFault),
}

/// What a tree is refused for, if for anything.
fn early(alloc: Global, tree: Tree) -> Result<Option<ScriptRefusal>, NoMemory>
    ensures { IfOk result (IsRefusedFor (early_faults tree)) }
{
    match resolve(alloc, tree) {
        Ok(_) => Ok(None),
        Err(EarlyEnd::Fault(fault)) => Ok(Some(ScriptRefusal::Early(fault))),
        Err(EarlyEnd::NoMemory) => Err(NoMemory),
    }
}

/// What the script of these units is refused for, and None where it passes. Places count UTF-16
/// units. `docs/SCRIPTS.md` has the grammar and the early faults.
#[tactic(auto, using(crate::proofs::VerdictLaws::tree_checked, crate::proofs::VerdictLaws::fault_checked))]
pub fn check(alloc: Global, units: &Units) -> Result<Option<ScriptRefusal>, NoMemory>
    ensures { IfOk result (Checked units.now) }
{
    match parse(alloc, units) {
        Ok(tree) => early(alloc, tree),
        Err(ScriptEnd::Fault(fault)) => Ok(Some(ScriptRefusal::Grammar(fault))),
        Err(ScriptEnd::NoMemory) => Err(NoMemory),
    }
}
