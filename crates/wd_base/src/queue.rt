ghost use Rattle.std.specs.Prelude.{◌≡◌, ◌↔◌, [], ◌∷◌, ◌++◌, length, slice_get, IsTrue, MatchOption, OnOk, OnErr};
ghost use Rattle.std.specs.Option.{option_copied};

use crate::{NoMemory, Seq};
use std::alloc::Global;
use std::collections::VecDeque;
use std::marker::Model;

/// A list whose first item is taken away in constant time. Contracts see it as the list of its
/// items, the first one first.
#[derive(Debug, Drop)]
pub struct Queue<T> {
    items: VecDeque<T>,
}

impl<T> Model for Queue<T> {
    ghost use Rattle.std.specs.Prelude.{List};
    ghost use Rattle.std.specs.Coded.{coded_list};

    ghost Value = { List T };

    ghost coded = { coded_list T.code };

    ghost view = { λ q. q.items.items };
}

impl<T> Queue<T> {
    /// The empty queue. It takes no memory.
    pub fn new(alloc: Global) -> Queue<T>
        ensures { result ≡ [] }
    {
        Queue {
            items: VecDeque::new(alloc),
        }
    }

    /// The queue of a list's items. It takes no memory.
    pub fn of_list(items: Seq<T>) -> Queue<T>
        ensures { result ≡ items }
    {
        Queue {
            items: VecDeque::from_vec(items.into_vec()),
        }
    }

    /// The list of the queue's items. It takes no memory.
    pub fn into_list(self) -> Seq<T>
        ensures { result ≡ self }
    {
        Seq::from_vec(Vec::from(self.items))
    }

    /// How many items there are.
    pub fn len(&self) -> usize
        ensures { result ≡ length self.now }
    {
        self.items.len()
    }

    /// There is no item.
    pub fn is_empty(&self) -> bool
        ensures { IsTrue result ↔ (self.now ≡ []) }
    {
        self.items.is_empty()
    }

    /// The first item.
    pub fn front(&self) -> Option<&T>
        ensures { option_copied result ≡ slice_get self.now 0 }
    {
        self.items.front()
    }

    /// The items as two slices, the second one behind the first.
    pub fn as_slices(&self) -> (&[T], &[T])
        ensures { result.0.now ++ result.1.now ≡ self.now }
    {
        self.items.as_slices()
    }

    /// Takes the first item away.
    pub fn pop(&mut self) -> Option<T>
        ensures { MatchOption result ((self.old ≡ []) × (self.new ≡ [])) (λ x. self.old ≡ x ∷ self.new) }
    {
        self.items.pop_front()
    }
}

impl<T: Drop> Queue<T> {
    /// Adds an item at the end.
    pub fn push(&mut self, item: T) -> Result<(), NoMemory>
        ensures ok { OnOk result (self.new ≡ self.old ++ item ∷ []) }
        ensures err { OnErr result (self.new ≡ self.old) }
    {
        match self.items.push_back(item) {
            Ok(()) => Ok(()),
            Err(_) => Err(NoMemory),
        }
    }
}
