ghost use Rattle.std.specs.Prelude.{◌≡◌, [], IfOk};
ghost use Rattle.js_scope.specs.Early.{IsFirst, early_faults};

use crate::fault::EarlyEnd;
use crate::walk::first_fault;
use js_tree::{Item, Tree};
use std::alloc::Global;
use std::marker::Model;

/// A script without early faults. Contracts see it as its tree.
#[derive(Debug, Drop)]
pub struct Program {
    tree: Tree,
}

impl Model for Program {
    ghost use Rattle.std.specs.Prelude.{◌≡◌, List, []};
    ghost use Rattle.js_tree.specs.declared.tree.Item.{Item};
    ghost use Rattle.js_scope.specs.Early.{early_faults};
    ghost use Rattle.js_tree.specs.contracts.tree.Item as e;
    ghost use Rattle.std.specs.Coded.{coded_list};

    ghost Value = { List Item };

    ghost coded = { coded_list e.the_row.coded };

    ghost view = { λ p. p.tree };

    ghost invariant = { λ p. early_faults p.tree ≡ [] };
}

impl Program {
    ghost use Rattle.std.specs.Prelude.{◌≡◌, []};
    ghost use Rattle.js_scope.specs.Early.{early_faults};

    /// The script's tree.
    pub fn tree(&self) -> &Tree
        ensures value { result.now ≡ self.now }
        ensures good { early_faults result.now ≡ [] }
    {
        &self.tree
    }
}

/// The script as a program, or its first early fault in the order of the text (ECMA-262, sections
/// 14.2.1, 14.3.1.1, 14.7.5.1, 14.8.1, 14.9.1, 14.10, 14.15.1, 15.2.1, 15.3.1, 15.4.1, 15.8 and
/// 16.2.1.1; `docs/SCRIPTS.md` has the scopes). The error is that fault, or want of memory. The walk takes near linear time and keeps its place in memory of its own, and
/// not on the machine's stack.
pub fn resolve(alloc: Global, tree: Tree) -> Result<Program, EarlyEnd>
    ensures tree { IfOk result (λ program. program ≡ tree) }
    ensures faults { IsFirst (early_faults tree) result }
{
    match first_fault(alloc, tree.as_slice()) {
        Ok(()) => Ok(Program { tree }),
        Err(end) => Err(end),
    }
}
