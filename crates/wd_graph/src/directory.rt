ghost use Rattle.std.specs.Prelude.{◌≡◌, ◌<◌, ◌^◌, IfOk, length, drop};
ghost use Rattle.wd_graph.specs.Index.{IsIndexFrom};

use std::alloc::Global;
use std::collections::BTreeMap;
use std::marker::Model;
use wd_base::{NoMemory, Service, Services};

/// Services with an index of their names. Contracts see it as the list of the services.
#[derive(Debug, Drop)]
pub(crate) struct Directory {
    services: Services,
    index: BTreeMap<Vec<u8>, u32>,
}

impl Model for Directory {
    ghost use Rattle.std.specs.Prelude.{List};
    ghost use Rattle.wd_base.specs.declared.config.Service.{Service};
    ghost use Rattle.wd_graph.specs.Index.{IsIndex};

    ghost Value = { List Service };

    ghost view = { λ d. d.services };

    ghost invariant = { λ d. IsIndex d.services d.index.entries };
}

impl Directory {
    ghost use Rattle.std.specs.Prelude.{◌≡◌, ◌<◌, ◌^◌, IfOk, length};
    ghost use Rattle.wd_graph.specs.Index.{IsIndex};
    ghost use Rattle.wd_graph.specs.Names.{number_of};

    /// The services with their index, in near linear time.
    pub(crate) fn new(alloc: Global, services: Services) -> Result<Directory, NoMemory>
        requires { length services < 2 ^ 32 }
        ensures { IfOk result (λ directory. directory ≡ services) }
    {
        let index = index_of(alloc, services.as_slice())?;
        Ok(Directory { services, index })
    }

    /// The services, in the order of their numbers.
    pub(crate) fn services(&self) -> &Services
        ensures { result.now ≡ self.now }
    {
        &self.services
    }

    /// The number of the service of this name, in logarithmic time.
    pub(crate) fn number(&self, name: &[u8]) -> Option<u32>
        ensures { result ≡ number_of name.now self.now }
    {
        match self.index.get(name) {
            Some(place) => Some(*place),
            None => None,
        }
    }
}

/// The numbers of the services by their names.
fn index_of(alloc: Global, services: &[Service]) -> Result<BTreeMap<Vec<u8>, u32>, NoMemory>
    requires { length services.now < 2 ^ 32 }
    ensures { IfOk result (λ index. IsIndexFrom 0 services.now index.entries) }
{
    let mut index = BTreeMap::new(alloc);
    let mut left = services.len();
    while left > 0 {
        left -= 1;
        let name = Vec::from_slice(alloc, services[left].name.as_slice())?;
        if index.insert(name, left as u32).is_err() {
            return Err(NoMemory);
        }
    }
    Ok(index)
}
