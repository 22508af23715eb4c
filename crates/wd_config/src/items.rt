ghost use Rattle.std.specs.Prelude.{◌≡◌, ◌<◌, [], ◌∷◌, ◌++◌, length, OnOk, IfSome};
ghost use Rattle.std.specs.List.{position_from};
ghost use Rattle.wd_config.specs.Items.{item_of, is_of, has_slot, without};

use crate::schema::{Slot, is_slot};
use std::alloc::Global;
use std::marker::Model;
use wd_base::{
    Addr, BindValue, Binding, Bindings, Bytes, Config, Form, Kind, NoMemory, Range, Ranges,
    Service, Services, Socket, Sockets,
};

/// What a value was read to.
#[derive(Debug, Drop)]
pub enum Item {
    /// a value that is dropped
    Nothing,
    Text(Bytes),
    Flag(bool),
    Address(Addr),
    Range(Range),
    /// what a service is
    Kind(Kind),
    /// what a binding gives
    Value(BindValue),
    /// a script's source
    Source(Form, Bytes),
    Binding(Binding),
    Service(Service),
    Socket(Socket),
    Config(Config),
    Ranges(Ranges),
    Bindings(Bindings),
    Services(Services),
    Sockets(Sockets),
}

/// A field that was read.
#[derive(Debug, Drop)]
pub struct Entry {
    pub slot: Slot,
    pub item: Item,
}

/// The fields of a struct that were read, in order. There are no more than the struct's schema has
/// slots, so a slot is looked for one by one.
#[derive(Drop)]
pub struct Entries {
    entries: Vec<Entry>,
}

impl Model for Entries {
    ghost use Rattle.std.specs.Prelude.{List};
    ghost use Rattle.wd_config.specs.declared.items.Entry.{Entry};

    ghost Value = { List Entry };

    ghost view = { λ e. e.entries.items };
}

impl Entries {
    /// No field. It takes no memory.
    pub fn new(alloc: Global) -> Entries
        ensures { result ≡ [] }
    {
        Entries {
            entries: Vec::new(alloc),
        }
    }

    /// Adds a field at the end.
    pub fn push(&mut self, slot: Slot, item: Item) -> Result<(), NoMemory>
        ensures { OnOk result (self.new ≡ self.old ++ record { slot = slot; item = item } ∷ []) }
    {
        match self.entries.push(Entry { slot, item }) {
            Ok(()) => Ok(()),
            Err(_) => Err(NoMemory),
        }
    }

    /// Whether a field of the slot was read.
    pub fn has(&self, slot: Slot) -> bool
        ensures { result ≡ has_slot self.now slot }
    {
        self.entries.iter().any(|entry| is_slot(entry.slot, slot))
    }

    /// The place of the first field of the slot.
    fn place_of(&self, slot: Slot) -> Option<usize>
        ensures first { result ≡ position_from (λ e. is_of slot e) 0 self.now }
        ensures within { IfSome result (λ at. at < length self.now) }
    {
        self.entries
            .iter()
            .position(|entry| is_slot(entry.slot, slot))
    }

    /// What was read for a slot. It is taken out.
    pub fn take(&mut self, slot: Slot) -> Option<Item>
        ensures found { result ≡ item_of self.old slot }
        ensures rest { self.new ≡ without self.old slot }
    {
        let at = self.place_of(slot)?;
        Some(self.entries.remove(at).item)
    }
}
