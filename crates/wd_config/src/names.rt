ghost use Rattle.std.specs.Prelude.{◌≡◌, [], OnOk};
ghost use Rattle.wd_config.specs.Names.{put, number_of, has_name};

use indexmap::IndexMap;
use std::alloc::Global;
use std::marker::Model;
use wd_base::NoMemory;

/// Names, each with a number. Contracts see the pairs in the order in which they came; a name is
/// found in constant time.
#[derive(Drop)]
pub struct Names {
    map: IndexMap<Vec<u8>, usize>,
}

impl Model for Names {
    ghost use Rattle.std.specs.Prelude.{ℕ, List};
    ghost use Rattle.std.specs.Coded.{coded×, coded_ℕ, coded_list};
    ghost use Rattle.wd_config.specs.Names.{pairs_of};

    ghost Value = { List (List ℕ × ℕ) };

    ghost coded = { coded_list (coded× (coded_list coded_ℕ) coded_ℕ) };

    ghost view = { λ n. pairs_of n.map.entries };
}

impl Names {
    /// No name. It takes no memory.
    pub fn new(alloc: Global) -> Names
        ensures { result ≡ [] }
    {
        Names {
            map: IndexMap::new(alloc),
        }
    }

    /// Gives a name a number.
    pub fn put(&mut self, alloc: Global, name: &[u8], number: usize) -> Result<(), NoMemory>
        ensures { OnOk result (self.new ≡ put self.old name.now number) }
    {
        let name = Vec::from_slice(alloc, name)?;
        let Ok(_old) = self.map.insert(name, number) else {
            return Err(NoMemory);
        };
        Ok(())
    }

    /// The number of a name.
    pub fn number_of(&self, name: &[u8]) -> Option<usize>
        ensures { result ≡ number_of self.now name.now }
    {
        self.map.get(name).copied()
    }

    /// Whether the name is there.
    pub fn has(&self, name: &[u8]) -> bool
        ensures { result ≡ has_name self.now name.now }
    {
        self.number_of(name).is_some()
    }
}
