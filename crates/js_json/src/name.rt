ghost use Rattle.std.specs.Prelude.{◌≡◌, [], ◌∷◌, ◌++◌};
ghost use Rattle.js_json.specs.Machine as spec;
ghost use Rattle.js_names.specs.Names.{IsRefusedName, is_one_of, refused_names};

use arrayvec::ArrayVec;
use js_names::refused_name;
use std::marker::Model;

/// The units of a key, up to one more than the longest refused name has. It takes no memory.
#[derive(Drop)]
pub struct Name {
    units: ArrayVec<u16, 21>,
}

impl Model for Name {
    ghost use Rattle.std.specs.Prelude.{List, ℕ, ◌≤◌, length};

    ghost Value = { List ℕ };

    ghost view = { λ n. n.units.items };

    ghost invariant = { λ n. length n.units.items ≤ 21 };
}

impl Name {
    /// No units.
    pub fn new() -> Name
        ensures { result ≡ [] }
    {
        Name {
            units: ArrayVec::new(),
        }
    }

    /// One more unit, unless there are 21.
    pub fn with(self, unit: u16) -> Name
        ensures { result ≡ spec.name_with self unit }
    {
        let mut units = self.units;
        if units.len() < 21 {
            units.push(unit);
        }
        Name { units }
    }

    /// The name is refused as a key's.
    pub fn is_refused(&self) -> bool
        ensures { result ≡ is_one_of self.now refused_names }
    {
        refused_name(self.units.as_slice())
    }
}
