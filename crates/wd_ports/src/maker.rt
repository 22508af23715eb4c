ghost use Rattle.std.specs.Prelude.{◌≡◌, ◌≢◌, ℕ, ◌≤◌, Option, IfOk, IfSome, IsErrOf};
ghost use Rattle.wd_base.specs.declared.ids.Seat.{Seat};
ghost use Rattle.wd_ports.specs.Told.{Told, IsNewPort};
ghost use Rattle.wd_ports.specs.Faults.{CountsFault, no_faults};

use crate::port::{Files, Port};
use crate::told::Failed;
use std::alloc::Global;
use wd_base::Seat;

/// Makes a port for each seat.
pub trait Maker {
    type Port: Port + Send;

    /// What the port of a seat will tell, where this is known.
    ghost plan: { Self → Seat → Option Told };

    /// How often `port` has failed; a count that never falls.
    ghost failures: { Self → ℕ };

    /// The port of a seat. It has no sockets and no links, has not answered `Closed`, and each
    /// part of its count is 0. What is told of the other seats stays.
    fn port(&mut self, alloc: Global, seat: Seat) -> Result<Self::Port, Failed>
        ensures planned { IfOk result (λ p. IfSome (plan self.old seat) (λ t. Self.Port.Files.told p ≡ t)) }
        ensures fresh { IfOk result (λ p. IsNewPort (Self.Port.Files.told p)) }
        ensures none { IfOk result (λ p. Self.Port.Files.faults p ≡ no_faults) }
        ensures others { (s : Seat) → s.0 ≢ seat.0 → plan self.new s ≡ plan self.old s }
        ensures blames { CountsFault (failures self.old) (failures self.new) result }
        ensures memory { IsErrOf result Failed.NoMemory → plan self.new seat ≡ plan self.old seat };
}
