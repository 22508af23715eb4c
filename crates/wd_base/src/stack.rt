ghost use Rattle.std.specs.Prelude.{◌≡◌, ◌↔◌, [], ◌∷◌, length, slice_get, IfOk, IsTrue, MatchOption, OnOk, reverse};
ghost use Rattle.std.specs.Option.{option_copied};

use crate::{NoMemory, Seq};
use std::alloc::Global;
use std::marker::Model;

/// A `Vec` that contracts see as the list of its items, the last one first.
#[derive(Debug, Drop)]
pub struct Stack<T> {
    items: Vec<T>,
}

impl<T> Model for Stack<T> {
    ghost use Rattle.std.specs.Prelude.{List, reverse};
    ghost use Rattle.std.specs.Coded.{coded_list};

    ghost Value = { List T };

    ghost coded = { coded_list T.code };

    ghost view = { λ s. reverse s.items.items };
}

impl<T> Stack<T> {
    /// The empty stack. It takes no memory.
    pub fn new(alloc: Global) -> Stack<T>
        ensures { result ≡ [] }
    {
        Stack {
            items: Vec::new(alloc),
        }
    }

    /// The stack that gives the items of a list in their order. It takes no memory.
    #[tactic(auto, using(crate::proofs::Back::reverse_twice))]
    pub fn of_list(items: Seq<T>) -> Stack<T>
        ensures { result ≡ items }
    {
        let mut items = items.into_vec();
        items.reverse();
        Stack { items }
    }

    /// How many items there are.
    #[tactic(auto, using(crate::proofs::Back::length_back))]
    pub fn len(&self) -> usize
        ensures { result ≡ length self.now }
    {
        self.items.len()
    }

    /// There is no item.
    #[tactic(auto, using(crate::proofs::Back::empty_back))]
    pub fn is_empty(&self) -> bool
        ensures { IsTrue result ↔ (self.now ≡ []) }
    {
        self.items.is_empty()
    }

    /// The last item.
    #[tactic(auto, using(crate::proofs::Back::last_first))]
    pub fn top(&self) -> Option<&T>
        ensures { option_copied result ≡ slice_get self.now 0 }
    {
        self.items.last()
    }

    /// Takes the last item away.
    #[tactic(auto, using(crate::proofs::Back::reverse_last))]
    pub fn pop(&mut self) -> Option<T>
        ensures { MatchOption result ((self.old ≡ []) × (self.new ≡ [])) (λ x. self.old ≡ x ∷ self.new) }
    {
        self.items.pop()
    }
}

impl<T: Drop> Stack<T> {
    /// Adds an item.
    #[tactic(auto, using(crate::proofs::Back::reverse_last))]
    pub fn push(&mut self, item: T) -> Result<(), NoMemory>
        ensures { OnOk result (self.new ≡ item ∷ self.old) }
    {
        match self.items.push(item) {
            Ok(()) => Ok(()),
            Err(_) => Err(NoMemory),
        }
    }

    /// The stack with one more item on it.
    #[tactic(auto, using(crate::proofs::Back::reverse_last))]
    pub fn with(self, item: T) -> Result<Stack<T>, NoMemory>
        ensures { IfOk result (λ s. s ≡ item ∷ self) }
    {
        let mut items = self.items;
        match items.push(item) {
            Ok(()) => Ok(Stack { items }),
            Err(_) => Err(NoMemory),
        }
    }
}
