ghost use Rattle.std.specs.Prelude.{◌≡◌};

use crate::port::SystemPort;
use crate::trouble::blame;
use std::alloc::{AllocGlobal, Global};
use std::io::Input;
use std::net::Net;
use std::rt::Files as FileSystem;
use wd_base::Seat;
use wd_ports::{Failed, Maker};

/// Makes ports over the system's sockets.
#[derive(Drop)]
pub struct SystemMaker<R> {
    rt: R,
    faults: u64,
}

impl<R> SystemMaker<R> {
    /// A maker that has made no port and counted no fault.
    pub fn new(rt: R) -> SystemMaker<R>
        ensures { result.faults ≡ 0 }
    {
        SystemMaker { rt, faults: 0 }
    }
}

impl<R: FileSystem + AllocGlobal + Input + Net + Copy + Drop + Send> Maker for SystemMaker<R> {
    ghost use Rattle.std.specs.Prelude.{None};

    type Port = SystemPort<R>;

    ghost plan = { λ _ _. None };

    ghost failures = { λ m. m.faults };

    fn port(&mut self, alloc: Global, _seat: Seat) -> Result<SystemPort<R>, Failed> {
        match SystemPort::new(self.rt, alloc) {
            Ok(port) => Ok(port),
            Err(trouble) => Err(blame(&mut self.faults, trouble)),
        }
    }
}
