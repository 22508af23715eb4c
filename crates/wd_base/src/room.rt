ghost use Rattle.std.specs.Prelude.{◌≡◌, ◌+◌, ◌-◌, ◌<◌, ◌≤◌, [], ◌∷◌, ◌++◌, length, OnOk, OnErr, IsOk};
ghost use Rattle.std.specs.Option.{option_copied};
ghost use Rattle.wd_base.specs.Room.{Roomy};

use crate::{NoMemory, Seq};
use std::alloc::Global;
use std::marker::Model;

/// A list with room for items to come, so that adding one where there is room never fails.
///
/// Contracts see it as its items and the number of items that it has room for besides.
#[derive(Debug, Drop)]
pub struct RoomList<T> {
    items: Vec<T>,
}

impl<T> Model for RoomList<T> {
    ghost use Rattle.std.specs.Prelude.{◌-◌, vec_capacity, vec_len};
    ghost use Rattle.wd_base.specs.Room.{Roomy};

    ghost Value = { Roomy T };

    ghost view = { λ l. record { items = l.items.items; room = vec_capacity l.items - vec_len l.items } };
}

impl<T> RoomList<T> {
    /// The empty list. It takes no memory.
    pub fn new(alloc: Global) -> RoomList<T>
        ensures { result.items ≡ [] }
    {
        RoomList {
            items: Vec::new(alloc),
        }
    }

    /// How many items there are.
    pub fn len(&self) -> usize
        ensures { result ≡ length self.now.items }
    {
        self.items.len()
    }

    /// The items as a slice.
    pub fn as_slice(&self) -> &[T]
        ensures { result.now ≡ self.now.items }
    {
        self.items.as_slice()
    }

    /// The list of the items. It takes no memory.
    pub fn into_list(self) -> Seq<T>
        ensures { result ≡ self.items }
    {
        Seq::from_vec(self.items)
    }

    /// Makes room for at least so many items.
    pub fn reserve(&mut self, more: usize) -> Result<(), NoMemory>
        ensures items { self.new.items ≡ self.old.items }
        ensures room { OnOk result (more ≤ self.new.room) }
        ensures kept { self.old.room ≤ self.new.room }
        ensures there { more ≤ self.old.room → IsOk result }
    {
        match self.items.reserve(more) {
            Ok(()) => Ok(()),
            Err(_) => Err(NoMemory),
        }
    }
}

impl<T: Drop> RoomList<T> {
    /// Adds an item at the end, where there is room for it.
    pub fn push(&mut self, item: T)
        requires { 0 < self.old.room }
        ensures items { self.new.items ≡ self.old.items ++ item ∷ [] }
        ensures room { self.new.room + 1 ≡ self.old.room }
    {
        self.items.push_reserved(item);
    }
}
