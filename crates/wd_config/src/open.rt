ghost use Rattle.std.specs.Prelude.{◌≡◌, ◌∷◌, ◌++◌, [], false, length, take, OnOk};
ghost use Rattle.wd_config.specs.Values.{among};

use indexmap::IndexSet;
use std::alloc::Global;
use std::marker::Model;
use wd_base::NoMemory;

/// The constants that are being read, by the places of their declarations, in the order in which
/// they were opened.
#[derive(Drop)]
pub struct Open {
    places: IndexSet<usize>,
}

impl Model for Open {
    ghost use Rattle.std.specs.Prelude.{ℕ, List};

    ghost Value = { List ℕ };

    ghost view = { λ o. o.places.keys };
}

impl Open {
    /// None. It takes no memory.
    pub fn new(alloc: Global) -> Open
        ensures { result ≡ [] }
    {
        Open {
            places: IndexSet::new(alloc),
        }
    }

    /// How many there are.
    pub fn len(&self) -> usize
        ensures { result ≡ length self.now }
    {
        self.places.len()
    }

    /// Whether the constant is open.
    pub fn has(&self, place: usize) -> bool
        ensures { result ≡ among self.now place }
    {
        self.places.contains(&place)
    }

    /// Opens a constant that is not open.
    pub fn open(&mut self, place: usize) -> Result<(), NoMemory>
        requires { among self.old place ≡ false }
        ensures { OnOk result (self.new ≡ self.old ++ place ∷ []) }
    {
        let Ok(_new) = self.places.insert(place) else {
            return Err(NoMemory);
        };
        Ok(())
    }

    /// Closes those that were opened last, so that so many are left.
    pub fn close(&mut self, len: usize)
        ensures { self.new ≡ take len self.old }
    {
        self.places.truncate(len);
    }
}
