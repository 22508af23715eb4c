ghost use Rattle.std.specs.Prelude.{◌≡◌, IfOk};
ghost use Rattle.wd_top.specs.Outcome.{status_of, text_of, checked_text, port_text, listen_text, ReportsTo};

use std::alloc::Global;
use wd_base::{Addr, NoMemory, Seat};
use wd_plan::{Refusal, framed};
use wd_ports::{Failed, Sink, print};

/// How a call came out, before this is printed.
#[derive(Debug, Drop)]
pub enum Outcome {
    /// The session is done.
    Done,
    /// The configuration was read and linked, and its scripts start: it has so many services, with
    /// `internet`, and so many sockets.
    Checked(u32, usize),
    /// Nothing was served or checked.
    Refused(Refusal),
    /// No port could be made for the seat.
    NoPort(Seat),
    /// The port could not listen at the address.
    NoListen(Addr),
    /// Want of memory.
    NoMemory,
}

/// The exit status of an outcome, 0 to 9.
fn status_of(outcome: &Outcome) -> u8
    ensures { result ≡ status_of outcome.now }
{
    match outcome {
        Outcome::Done => 0,
        Outcome::Checked(_, _) => 0,
        Outcome::Refused(why) => why.status(),
        Outcome::NoPort(_) => 7,
        Outcome::NoListen(_) => 7,
        Outcome::NoMemory => 9,
    }
}

/// What is printed of an outcome: one line, or nothing.
fn text_of(alloc: Global, outcome: &Outcome) -> Result<Vec<u8>, NoMemory>
    ensures { IfOk result (λ text. text.items ≡ text_of outcome.now) }
{
    match outcome {
        Outcome::Done => Ok(Vec::new(alloc)),
        Outcome::NoMemory => Ok(Vec::new(alloc)),
        Outcome::Checked(services, sockets) => checked_text(alloc, *services, *sockets),
        Outcome::Refused(why) => why.text(alloc),
        Outcome::NoPort(seat) => port_text(alloc, *seat),
        Outcome::NoListen(address) => listen_text(alloc, address),
    }
}

#[tactic(auto, unfolding(crate::specs::Outcome::checked_text))]
fn checked_text(alloc: Global, services: u32, sockets: usize) -> Result<Vec<u8>, NoMemory>
    ensures { IfOk result (λ text. text.items ≡ checked_text services sockets) }
{
    let services = services.to_string(alloc)?;
    let sockets = sockets.to_string(alloc)?;
    let mut text = framed(alloc, b"ok ", services.as_bytes(), b" ")?;
    text.extend_from_slice(sockets.as_bytes())?;
    text.extend_from_slice(b"\n")?;
    Ok(text)
}

#[tactic(auto, unfolding(crate::specs::Outcome::port_text))]
fn port_text(alloc: Global, seat: Seat) -> Result<Vec<u8>, NoMemory>
    ensures { IfOk result (λ text. text.items ≡ port_text seat) }
{
    let number = seat.0.to_string(alloc)?;
    framed(alloc, b"error: port ", number.as_bytes(), b"\n")
}

#[tactic(auto, unfolding(crate::specs::Outcome::listen_text))]
fn listen_text(alloc: Global, address: &Addr) -> Result<Vec<u8>, NoMemory>
    ensures { IfOk result (λ text. text.items ≡ listen_text address.now) }
{
    let port = address.port.to_string(alloc)?;
    let mut text = framed(alloc, b"error: listen ", address.host.as_slice(), b":")?;
    text.extend_from_slice(port.as_bytes())?;
    text.extend_from_slice(b"\n")?;
    Ok(text)
}

/// Prints the text of an outcome, and gives the exit status: that of the outcome, or 4 where the
/// sink failed, or 9 for want of memory.
pub(crate) fn report<K: Sink>(alloc: Global, out: &mut K, outcome: &Outcome) -> u8
    ensures reports { ReportsTo K.held K.failures out.old out.new outcome.now result }
{
    match text_of(alloc, outcome) {
        Err(NoMemory) => 9,
        Ok(text) => match print(out, text.as_slice()) {
            Ok(()) => status_of(outcome),
            Err(Failed::Fault) => 4,
            Err(Failed::NoMemory) => 9,
        },
    }
}
