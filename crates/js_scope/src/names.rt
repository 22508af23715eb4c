ghost use Rattle.std.specs.Prelude.{◌≡◌, ◌↔◌, [], not, IfOk, OnOk};
ghost use Rattle.js_scope.specs.Names.{has, with_name};

use std::alloc::Global;
use std::collections::BTreeSet;
use std::marker::Model;
use wd_base::NoMemory;

/// The names that a scope has so far. Contracts see their texts in ascending order.
#[derive(Drop)]
pub(crate) struct Names<'a> {
    keys: BTreeSet<&'a [u16]>,
}

impl<'a> Model for Names<'a> {
    ghost use Rattle.std.specs.Prelude.{ℕ, List, map};

    ghost Value = { List (List ℕ) };

    ghost view = { λ n. map (λ key. key.now) n.keys.keys };
}

impl<'a> Names<'a> {
    pub(crate) fn new(alloc: Global) -> Names<'a>
        ensures { result ≡ [] }
    {
        Names {
            keys: BTreeSet::new(alloc),
        }
    }

    /// Adds a name, and tells whether it is new.
    pub(crate) fn add(&mut self, name: &'a [u16]) -> Result<bool, NoMemory>
        ensures new { IfOk result (λ new. new ≡ not (has name.now self.old)) }
        ensures names { OnOk result (self.new ≡ with_name self.old name.now) }
    {
        match self.keys.insert(name) {
            Ok(new) => Ok(new),
            Err(_) => Err(NoMemory),
        }
    }
}
