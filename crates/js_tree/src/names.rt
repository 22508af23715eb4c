ghost use Rattle.std.specs.Prelude.{◌≡◌, ◌↔◌, IsTrue};
ghost use Rattle.js_tree.specs.Targets as spec;

use crate::tree::{Expr, Key, Name, Target};
use std::alloc::Global;
use wd_base::{NoMemory, Same, TryClone};

impl TryClone for Name {
    fn try_clone(&self, alloc: Global) -> Result<Name, NoMemory> {
        let units = self.units.try_clone(alloc)?;
        Ok(Name {
            place: self.place,
            units,
        })
    }
}

impl Same for Name {
    fn same(&self, other: &Name) -> bool {
        self.place == other.place && self.units.same(&other.units)
    }
}

impl Name {
    /// It is the same name, wherever the two stand.
    pub fn is_like(&self, other: &Name) -> bool
        ensures { IsTrue result ↔ (self.now.units ≡ other.now.units) }
    {
        self.units.same(&other.units)
    }
}

impl TryClone for Key {
    fn try_clone(&self, alloc: Global) -> Result<Key, NoMemory> {
        match self {
            Key::Name(name) => Ok(Key::Name(name.try_clone(alloc)?)),
            Key::Text(units) => Ok(Key::Text(units.try_clone(alloc)?)),
            Key::Number(number) => Ok(Key::Number(*number)),
        }
    }
}

impl Same for Key {
    fn same(&self, other: &Key) -> bool {
        match (self, other) {
            (Key::Name(a), Key::Name(b)) => a.same(b),
            (Key::Text(a), Key::Text(b)) => a.same(b),
            (Key::Number(a), Key::Number(b)) => *a == *b,
            _ => false,
        }
    }
}

impl Expr {
    /// The expression as what can be written to (ECMA-262, section 8.6.4, AssignmentTargetType): a
    /// name or a member. Another one comes back as it was.
    pub fn into_target(self) -> Result<Target, Expr>
        ensures { result ≡ spec.target_of self }
    {
        match self {
            Expr::Name(name) => Ok(Target::Variable(name)),
            Expr::Member(object, name) => Ok(Target::Field(object, name)),
            Expr::Index(object, key) => Ok(Target::Item(object, key)),
            other => Err(other),
        }
    }
}
