ghost use Rattle.std.specs.Prelude.{◌≡◌, ◌<◌, ◌≤◌, [], ◌∷◌, ◌++◌, length, vec_len, vec_capacity};
ghost use Rattle.wd_ports.specs.Faults.{Rose};
ghost use Rattle.wd_ports.specs.Told.{IsNewPort};
ghost use Rattle.wd_top.specs.declared.outcome.Outcome.TheVariants as outcome;
ghost use Rattle.wd_top.specs.Board.{IsOver};
ghost use Rattle.wd_top.specs.Calls.{AtPorts, KeepFiles};
ghost use Rattle.wd_top.specs.Ended.{HasPort, Holds, IsFront, IsListenEnd, IsPortFault, IsSessionEnd};
ghost use Rattle.wd_top.specs.Ended.{Listens, NoPortMade};
ghost use Rattle.wd_top.specs.Table.{addresses, SameFiles};

use crate::board::Board;
use crate::outcome::Outcome;
use crate::seat;
use std::alloc::Global;
use std::sync::Wait;
use wd_base::{Addr, NoMemory, Socket, TryClone};
use wd_machine::Isolate;
use wd_ports::{Failed, Files, Maker, Port};

/// The port could not listen at the address.
fn no_listen(alloc: Global, address: &Addr) -> Outcome
    ensures { IsListenEnd address.now result }
{
    match address.try_clone(alloc) {
        Ok(address) => Outcome::NoListen(address),
        Err(NoMemory) => Outcome::NoMemory,
    }
}

/// Listens at the sockets, in order.
#[tactic(auto, using(crate::proofs::ListenSteps::front_told))]
fn listen_all<P: Port>(alloc: Global, port: &mut P, sockets: &[Socket]) -> Result<(), Outcome>
    requires { IsNewPort (P.told port.old) }
    ensures front { IsFront (P.told port.new).sockets (addresses sockets.now) }
    ensures listens { Listens (addresses sockets.now) (P.told port.old) (P.told port.new) (P.faults port.new) result }
{
    for socket in sockets {
        match port.listen(alloc, &socket.address) {
            Ok(_) => {}
            Err(Failed::NoMemory) => return Err(Outcome::NoMemory),
            Err(Failed::Fault) => return Err(no_listen(alloc, &socket.address)),
        }
    }
    Ok(())
}

/// The session of one seat: its port listens at the world's sockets, and then serves its links.
#[tactic(auto, using(crate::proofs::ListenSteps::front_all))]
fn run_port<R: Wait, P: Port, I: Isolate>(
    rt: &R,
    alloc: Global,
    port: &mut P,
    board: &mut Board<I>,
) -> Outcome
    requires fresh { IsNewPort (P.told port.old) }
    requires journal { board.old.1 ≡ [] }
    ensures holds { Holds board.old.0.seat board.old.0.world result (P.told port.new) (P.gone port.new)
        (P.faults port.new) board.new.1 }
    ensures over { result ≡ outcome.Done → IsOver I.means board.new.0.world board.new.1 }
    ensures unused { IsPortFault result → board.new.1 ≡ [] }
    ensures files { SameFiles (P.told port.old) (P.told port.new) }
    ensures fixed { board.new.0 ≡ board.old.0 }
    ensures end { IsSessionEnd board.old.0.seat result }
{
    match listen_all(alloc, port, board.sockets().as_slice()) {
        Err(outcome) => outcome,
        Ok(()) => match seat::run(rt, alloc, port, board) {
            Ok(()) => Outcome::Done,
            Err(NoMemory) => Outcome::NoMemory,
        },
    }
}

/// Hands out a port; there is room for it.
fn add_port<P: Drop>(ports: &mut Vec<P>, port: P)
    requires { vec_len ports.old < vec_capacity ports.old }
    ensures { ports.new.items ≡ ports.old.items ++ port ∷ [] }
{
    if ports.push(port).is_err() {
        unreachable!()
    }
}

/// The session over the port that the maker gives for the board's seat. The port is handed out, also
/// where it could not listen. A world without sockets makes none.
#[tactic(auto, using(crate::proofs::EndSteps::nothing_over))]
pub fn run_ports<R: Wait, M: Maker, I: Isolate>(
    rt: &R,
    alloc: Global,
    maker: &mut M,
    board: &mut Board<I>,
    ports: &mut Vec<M::Port>,
) -> Outcome
    requires ports { ports.old.items ≡ [] }
    requires journal { board.old.1 ≡ [] }
    ensures ports { AtPorts board.old.0.seat M.Port.Files.told M.Port.Files.gone M.Port.Files.faults ports.new.items
        board.new.1 result board.old.0.world }
    ensures few { length ports.new.items ≤ 1 }
    ensures one { HasPort board.old.0.world result → length ports.new.items ≡ 1 }
    ensures idle { board.old.0.world.sockets ≡ [] → length ports.new.items ≡ 0 }
    ensures unheard { length ports.new.items ≡ 0 → board.new.1 ≡ [] }
    ensures failed { NoPortMade result → Rose (M.failures maker.old) (M.failures maker.new) }
    ensures over { result ≡ outcome.Done → IsOver I.means board.new.0.world board.new.1 }
    ensures unused { IsPortFault result → board.new.1 ≡ [] }
    ensures files { KeepFiles board.old.0.seat M.plan maker.old M.Port.Files.told ports.new.items }
    ensures fixed { board.new.0 ≡ board.old.0 }
    ensures end { IsSessionEnd board.old.0.seat result }
{
    if board.sockets().is_empty() {
        return Outcome::Done;
    }
    if ports.reserve(1).is_err() {
        return Outcome::NoMemory;
    }
    let seat = board.seat();
    match maker.port(alloc, seat) {
        Err(Failed::NoMemory) => Outcome::NoMemory,
        Err(Failed::Fault) => Outcome::NoPort(seat),
        Ok(port) => {
            let mut port = port;
            let outcome = run_port(rt, alloc, &mut port, board);
            add_port(ports, port);
            outcome
        }
    }
}
