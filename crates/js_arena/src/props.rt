ghost use Rattle.std.specs.Prelude.{◌≡◌, [], ◌∷◌, ◌++◌, length, OnOk, OnErr, IfOk, Option, true, is_some, map};
ghost use Rattle.std.specs.List.{list_any};
ghost use Rattle.js_arena.specs.Heap.{value_holds};
ghost use Rattle.js_arena.specs.Props.{get_prop, put_prop, has_prop};
ghost use Rattle.js_arena.specs.Keys.{listed, order_of, own_keys};
ghost use Rattle.js_arena.specs.Pairs.{key_units, pairs_of};

use crate::held::any_holds;
use crate::keys::KeyOrder;
use crate::value::{HandleName, Value};
use indexmap::IndexMap;
use std::alloc::Global;
use std::marker::Model;
use wd_base::{NoMemory, Obj, Req, Seq, Units};

/// A short text in one word, as the name in a message.
#[derive(Debug, Drop)]
pub struct ShortText {
    units: Box<Units>,
}

impl Model for ShortText {
    ghost use Rattle.std.specs.Prelude.{ℕ, List};
    ghost use Rattle.std.specs.Coded.{coded_ℕ, coded_list};

    ghost Value = { List ℕ };

    ghost coded = { coded_list coded_ℕ };

    ghost view = { λ t. t.units.value };
}

impl ShortText {
    /// The text of these units.
    pub fn new(alloc: Global, units: Units) -> Result<ShortText, NoMemory>
        ensures { IfOk result (λ t. t ≡ units) }
    {
        match Box::new(alloc, units) {
            Ok(units) => Ok(ShortText { units }),
            Err(_) => Err(NoMemory),
        }
    }

    /// The units.
    pub fn units(&self) -> &[u16]
        ensures { result.now ≡ self.now }
    {
        self.units.as_slice()
    }
}

/// The own properties of an object. Contracts see pairs of a key and a value, in order of creation.
/// A property is found by the hash of its key.
#[derive(Drop)]
pub struct Props {
    map: Box<IndexMap<Vec<u16>, Value>>,
}

impl Model for Props {
    ghost use Rattle.std.specs.Prelude.{ℕ, List};
    ghost use Rattle.js_arena.specs.declared.value.Value.{Value as ScriptValue};
    ghost use Rattle.js_arena.specs.Pairs.{pairs_of};

    ghost Value = { List (List ℕ × ScriptValue) };

    ghost view = { λ p. pairs_of p.map.value.entries };
}

impl Props {
    /// No property yet.
    pub fn new(alloc: Global) -> Result<Props, NoMemory>
        ensures { IfOk result (λ props. props ≡ []) }
    {
        match Box::new(alloc, IndexMap::new(alloc)) {
            Ok(map) => Ok(Props { map }),
            Err(_) => Err(NoMemory),
        }
    }

    /// How many properties there are.
    pub fn len(&self) -> usize
        ensures { result ≡ length self.now }
    {
        self.map.len()
    }

    /// The value of the property with this key.
    pub fn get(&self, key: &[u16]) -> Option<Value>
        ensures { result ≡ get_prop key.now self.now }
    {
        find_value(&self.map, key)
    }

    /// There is a property with this key.
    pub fn has(&self, key: &[u16]) -> bool
        ensures { result ≡ has_prop key.now self.now }
    {
        self.get(key).is_some()
    }

    /// A property's value is a handle of the object.
    #[tactic(auto, using(crate::proofs::PairsKept::pairs_values))]
    pub fn holds(&self, names: &[HandleName], req: Req, obj: Obj) -> bool
        ensures { result ≡ list_any (value_holds names.now req obj) (map (λ p. p.1) self.now) }
    {
        any_holds(value_slice(&self.map), names, req, obj)
    }

    /// The own keys in their order: array indexes ascending, then the others in order of creation
    /// (ECMA-262, section 10.1.11.1).
    #[tactic(auto, using(crate::proofs::PairsKept::pairs_keys))]
    pub fn keys(&self, alloc: Global) -> Result<Seq<Units>, NoMemory>
        ensures { IfOk result (λ keys. keys ≡ own_keys self.now) }
    {
        keys_in_order(alloc, key_slice(&self.map))
    }

    /// Writes a property: one that is there keeps its place, and a new one goes last.
    pub fn put(&mut self, key: Units, value: Value) -> Result<(), NoMemory>
        ensures ok { OnOk result (self.new ≡ put_prop key value self.old) }
        ensures err { OnErr result (self.new ≡ self.old) }
    {
        put_entry(&mut self.map, key.into_vec(), value)
    }

    /// Writes a property as `put` does, with a copy of the key.
    pub fn write(&mut self, alloc: Global, key: &[u16], value: Value) -> Result<(), NoMemory>
        ensures ok { OnOk result (self.new ≡ put_prop key.now value self.old) }
        ensures err { OnErr result (self.new ≡ self.old) }
    {
        let copy = Seq::copy(alloc, key)?;
        self.put(copy, value)
    }
}

#[tactic(auto, using(crate::proofs::PairsKept::pairs_lookup))]
fn find_value(map: &IndexMap<Vec<u16>, Value>, key: &[u16]) -> Option<Value>
    ensures { result ≡ get_prop key.now (pairs_of map.now.entries) }
{
    map.get(key).copied()
}

#[tactic(auto, using(crate::proofs::PairsKept::pairs_insert))]
fn put_entry(
    map: &mut IndexMap<Vec<u16>, Value>,
    key: Vec<u16>,
    value: Value,
) -> Result<(), NoMemory>
    ensures ok { OnOk result (pairs_of map.new.entries ≡ put_prop key.items value (pairs_of map.old.entries)) }
    ensures err { OnErr result (map.new.entries ≡ map.old.entries) }
{
    match map.insert(key, value) {
        Ok(_) => Ok(()),
        Err(_) => Err(NoMemory),
    }
}

fn key_slice(entries: &IndexMap<Vec<u16>, Value>) -> &[Vec<u16>]
    ensures { result.now ≡ map (λ e. e.0) entries.now.entries }
{
    entries.keys().as_slice()
}

fn value_slice(entries: &IndexMap<Vec<u16>, Value>) -> &[Value]
    ensures { result.now ≡ map (λ e. e.1) entries.now.entries }
{
    entries.values().as_slice()
}

fn keys_in_order(alloc: Global, keys: &[Vec<u16>]) -> Result<Seq<Units>, NoMemory>
    ensures { IfOk result (λ list. list ≡ listed (order_of (map key_units keys.now))) }
{
    let mut order = KeyOrder::new(alloc);
    for key in keys {
        let copy = Seq::copy(alloc, key.as_slice())?;
        order.add(copy)?;
    }
    order.into_keys(alloc)
}
