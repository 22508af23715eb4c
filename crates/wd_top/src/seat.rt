//! One seat's session over a port.
//!
//! What is kept, and what it costs:
//! - A table has one entry for each link that was ever given, at the place of the link's number, so
//!   that an entry is found at once. It holds the link's socket and its connection; when the link is
//!   shut, the connection is given up with its bytes.
//! - A list has the places of the links that may be open. A round goes through this list alone, and
//!   drops from it what was shut, so it costs nothing for links that were shut before.
//! - A connection keeps the bytes that were read and not yet taken, and takes a request off their
//!   front, so no byte that was taken is looked at again.
//! - Of a request the seat keeps nothing. Its reply's text is made and sent in the same step.
mod link;
mod table;

ghost use Rattle.std.specs.Prelude.{◌≡◌, ◌<◌, ◌^◌, [], length, true, OnOk, IfSome, IsTrue};
ghost use Rattle.wd_ports.specs.Links.{Keeps, Stays};
ghost use Rattle.wd_top.specs.declared.seat.table.Taken.{Taken as TakenIs};
ghost use Rattle.wd_top.specs.Board.{IsOver};
ghost use Rattle.wd_top.specs.Session.{Session, AreDone};
ghost use Rattle.wd_top.specs.Steps.{NoneFell};
ghost use Rattle.wd_top.specs.Table.{addresses, SameFiles};

use crate::board::Board;
use crate::seat::link::{LinkRun, READ_SIZE};
use crate::seat::table::{Taken, take_link, tend_all};
use std::alloc::Global;
use std::sync::Wait;
use wd_base::NoMemory;
use wd_machine::Isolate;
use wd_ports::{Files, Port};

/// No link is listed.
fn is_empty(live: &Vec<usize>) -> bool
    ensures { IsTrue result → live.now.items ≡ [] }
{
    live.is_empty()
}

/// No further link will come.
fn is_closed(taken: Taken) -> bool
    ensures { IsTrue result → taken ≡ TakenIs.Closed }
{
    taken == Taken::Closed
}

/// Waits, where there is nothing to do.
fn wait_where<P: Port>(port: &mut P, quiet: bool)
    ensures tells { P.told port.new ≡ P.told port.old }
    ensures blames { P.faults port.new ≡ P.faults port.old }
    ensures keeps { Keeps (P.usable port.old) (P.side port.old) (P.usable port.new) (P.side port.new) }
    ensures stays { Stays (P.gone port.old) (P.gone port.new) }
{
    if quiet {
        port.idle();
    }
}

/// Serves the links of a port that listens at the world's sockets: it takes links, reads their
/// requests, puts each into the journal with its turn, and sends the replies. It ends where no
/// further link will come, each link was shut and each request has ended, or with want of memory.
///
/// The links are tended in turn, one request of each in a round. It waits (`Port::idle`) only after
/// a round in which no link came and nothing was heard of any.
///
/// A link whose request has no reply (its service is no Worker, or its turn left it live) is kept
/// as it is, and the session does not end, since nothing can bring the reply yet.
#[tactic(auto, using(crate::proofs::FaultSteps::none_fell_same, crate::proofs::FaultSteps::none_fell_then))]
pub fn run<R: Wait, P: Port, I: Isolate>(
    rt: &R,
    alloc: Global,
    port: &mut P,
    board: &mut Board<I>,
) -> Result<(), NoMemory>
    requires sockets { (P.told port.old).sockets ≡ addresses board.old.0.world.sockets }
    requires links { IfSome (P.told port.old).links (λ links. links ≡ []) }
    requires given { (P.told port.old).given ≡ 0 }
    requires journal { board.old.1 ≡ [] }
    ensures session { IfSome (P.told port.new).links (Session board.old.0.seat board.old.0.world.sockets board.new.1) }
    ensures done { OnOk result (AreDone board.old.0.seat board.old.0.world.sockets (P.told port.new) (P.gone port.new)
        board.new.1) }
    ensures closed { OnOk result ((P.told port.new).closed ≡ true) }
    ensures over { OnOk result (IsOver I.means board.new.0.world board.new.1) }
    ensures sockets { (P.told port.new).sockets ≡ (P.told port.old).sockets }
    ensures files { SameFiles (P.told port.old) (P.told port.new) }
    ensures fixed { board.new.0 ≡ board.old.0 }
    ensures faults { NoneFell (P.faults port.old) (P.faults port.new) }
{
    let mut runs: Vec<LinkRun> = Vec::new(alloc);
    let mut live: Vec<usize> = Vec::new(alloc);
    let mut buf = [0u8; READ_SIZE];
    for _ in rt.forever() {
        let taken = take_link(port, alloc, board, &mut runs, &mut live)?;
        let news = tend_all(port, alloc, board, &mut runs, &mut live, &mut buf)?;
        if is_closed(taken) && is_empty(&live) && board.is_over() {
            return Ok(());
        }
        wait_where(port, !news && taken != Taken::Link);
    }
    unreachable!()
}
