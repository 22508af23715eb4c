ghost use Rattle.std.specs.Prelude.{◌≡◌, ◌++◌, ◌+◌, ◌-◌, ◌*◌, [], ◌∷◌, ◌&&◌, IfOk, OnOk, Some, None, map, nat_lt};
ghost use Rattle.std.specs.Prelude.{if◌then◌else◌};
ghost use Rattle.std.specs.List.{list_all};
ghost use Rattle.std.specs.Ordering.{nat_cmp};
ghost use Rattle.std.specs.BTreeMap.{insert_entry};
ghost use Rattle.js_arena.specs.Capped.{digit_step, capped};
ghost use Rattle.js_arena.specs.Keys.{index_of, is_digit, is_canonical, with_key, listed, KeyOrder as Order};

use std::alloc::Global;
use std::collections::BTreeMap;
use std::marker::Model;
use wd_base::{NoMemory, Seq, Units};

fn is_digit(unit: u16) -> bool
    ensures { result ≡ is_digit unit }
{
    48 <= unit && unit <= 57
}

/// The units are decimal digits with no zero before others.
fn is_canonical(key: &[u16]) -> bool
    ensures { result ≡ is_canonical key.now }
{
    match key {
        [] => false,
        [first, rest @ ..] => all_digits(key) && (48 < *first || rest.len() == 0),
    }
}

fn all_digits(key: &[u16]) -> bool
    ensures { result ≡ list_all is_digit key.now }
{
    key.iter().all(|unit| is_digit(*unit))
}

/// The number that one more digit makes, and the greatest u32 where it is that or more.
fn with_digit(number: u32, unit: u16) -> u32
    ensures { result ≡ digit_step number unit }
{
    let digit = unit.saturating_sub(48) as u64;
    let more = number as u64 * 10 + digit;
    if more < 4_294_967_295 {
        more as u32
    } else {
        4_294_967_295
    }
}

fn number_of(key: &[u16]) -> u32
    ensures { result ≡ capped key.now }
{
    key.iter().fold(0, |number, unit| with_digit(number, *unit))
}

fn below_greatest(canonical: bool, number: u32) -> Option<u32>
    ensures { result ≡ (if canonical && nat_lt number 4294967295 then Some number else None) }
{
    if canonical && number < 4_294_967_295 {
        Some(number)
    } else {
        None
    }
}

/// The number of a key that is an array index: the decimal digits of a number below 4,294,967,295
/// (ECMA-262, section 6.1.7).
#[tactic(auto, using(crate::proofs::Numbers::same_index))]
pub fn array_index(key: &[u16]) -> Option<u32>
    ensures { result ≡ index_of key.now }
{
    below_greatest(is_canonical(key), number_of(key))
}

/// Own keys in their order, as they are collected.
#[derive(Drop)]
pub struct KeyOrder {
    indexes: BTreeMap<u32, Units>,
    names: Seq<Units>,
}

impl Model for KeyOrder {
    ghost use Rattle.js_arena.specs.Keys.{KeyOrder as Order};

    ghost Value = { Order };

    ghost view = { λ k. record { indexes = k.indexes.entries; names = k.names } };
}

fn put_index(indexes: &mut BTreeMap<u32, Units>, index: u32, key: Units) -> Result<(), NoMemory>
    ensures { OnOk result (indexes.new.entries ≡ insert_entry nat_cmp indexes.old.entries index key) }
{
    match indexes.insert(index, key) {
        Ok(_) => Ok(()),
        Err(_) => Err(NoMemory),
    }
}

impl KeyOrder {
    /// No key yet.
    pub fn new(alloc: Global) -> KeyOrder
        ensures { result ≡ record { indexes = []; names = [] } }
    {
        KeyOrder {
            indexes: BTreeMap::new(alloc),
            names: Seq::new(alloc),
        }
    }

    /// Adds a key that is not there.
    pub fn add(&mut self, key: Units) -> Result<(), NoMemory>
        ensures { OnOk result (self.new ≡ with_key self.old key) }
    {
        match array_index(key.as_slice()) {
            Some(index) => put_index(&mut self.indexes, index, key),
            None => self.names.push(key),
        }
    }

    /// The keys: array indexes ascending, then the others in the order in which they were added.
    pub fn into_keys(self, alloc: Global) -> Result<Seq<Units>, NoMemory>
        ensures { IfOk result (λ keys. keys ≡ listed self) }
    {
        let mut keys = first_keys(alloc, self.indexes)?;
        let mut names = self.names.into_vec();
        keys.append(&mut names)?;
        Ok(Seq::from_vec(keys))
    }
}

fn first_keys(alloc: Global, indexes: BTreeMap<u32, Units>) -> Result<Vec<Units>, NoMemory>
    ensures { IfOk result (λ keys. keys.items ≡ map (λ p. p.1) indexes.entries) }
{
    let keys = indexes.into_values().collect(alloc)?;
    Ok(keys)
}
