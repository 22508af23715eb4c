ghost use Rattle.std.specs.Prelude.{◌⊎◌, ◌≡◌, ℕ, ◌<◌, Some, length, take, IsErrOf};
ghost use Rattle.wd_ports.specs.Links.{Keeps, Stays};
ghost use Rattle.wd_ports.specs.Send.{Sends};
ghost use Rattle.wd_top.specs.declared.seat.link.Heard.{Heard as HeardIs};
ghost use Rattle.http_text.specs.ReplyText.{reply_text};
ghost use Rattle.wd_top.specs.Session.{tail_text, is_head, asks_head, is_line_end};
ghost use Rattle.wd_top.specs.Steps.{Knows, SameButConn, Hears, RepliesOn, HandlesOn, NoneFell, end_of};

use crate::board::Board;
use http_in::{Conn, Fed};
use http_text::{bad_reply, reply_text};
use std::alloc::Global;
use wd_base::{LinkNo, NoMemory, Reply, ReqData, SockNo};
use wd_machine::Isolate;
use wd_ports::{Failed, Files, Got, Port, write_all};

/// How many bytes are read at once.
pub const READ_SIZE: usize = 16384;

/// Whether the seat still tends a link.
#[derive(Clone, Copy, Debug, PartialEq, Eq)]
pub enum Stage {
    Open,
    Shut,
    /// Its last request has no reply, or memory ran out in the midst of a step. It is tended no
    /// more. Nothing ends an operation of a request yet, so that a reply cannot come later.
    Stopped,
}

/// What the seat keeps of a link.
#[derive(Debug, Drop)]
pub struct LinkRun {
    /// The socket at which the link came.
    pub socket: SockNo,
    /// The bytes that were read and not yet taken.
    pub conn: Conn,
    pub stage: Stage,
    /// The connection may hold a further request.
    pub ready: bool,
}

/// What was heard of a link.
#[derive(Debug, Drop)]
pub enum Heard {
    /// What the bytes that are left begin with.
    Fed(Fed),
    /// No byte came.
    Nothing,
    /// No further byte will come.
    End,
    /// The link is gone.
    Lost,
    /// Want of memory.
    Full,
}

/// How a step leaves a link.
#[derive(Clone, Copy, Debug, PartialEq, Eq)]
pub enum StepEnd {
    Open,
    /// The link is to be shut.
    Over,
    /// Its request has no reply.
    Waits,
    /// Want of memory.
    Full,
}

/// Feeds a piece to the connection.
fn feed(alloc: Global, run: &mut LinkRun, piece: &[u8]) -> Heard
    ensures knows { Knows run.old piece.now result run.new }
    ensures same { SameButConn run.old run.new }
    ensures there { result ≡ HeardIs.Lost → ⊥ }
{
    match run.conn.feed(alloc, piece) {
        Ok(fed) => Heard::Fed(fed),
        Err(NoMemory) => Heard::Full,
    }
}

/// The next request of the link, or what came instead. Bytes are read only where those that were
/// read before hold no further request.
#[tactic(auto, using(crate::proofs::FaultSteps::none_fell_same, crate::proofs::FaultSteps::read_blamed))]
pub fn hear<P: Port>(
    port: &mut P,
    alloc: Global,
    run: &mut LinkRun,
    link: LinkNo,
    buf: &mut [u8; READ_SIZE],
) -> Heard
    requires { P.usable port.old link }
    ensures hears { Hears link run.old run.new result (P.told port.old) (P.told port.new) }
    ensures lost { result ≡ HeardIs.Lost → P.gone port.new link }
    ensures keeps { Keeps (P.usable port.old) (P.side port.old) (P.usable port.new) (P.side port.new) }
    ensures stays { Stays (P.gone port.old) (P.gone port.new) }
    ensures faults { NoneFell (P.faults port.old) (P.faults port.new) }
{
    if run.ready {
        return feed(alloc, run, &[]);
    }
    match port.read_link(link, buf) {
        Err(Failed::Fault) => Heard::Lost,
        Err(Failed::NoMemory) => Heard::Full,
        Ok(Got::End) => Heard::End,
        Ok(Got::Later) => nothing_or_lost(port, link),
        Ok(Got::Bytes(count)) => feed(alloc, run, &buf[..count]),
    }
}

/// Nothing has come on the link, unless it is gone.
fn nothing_or_lost<P: Port>(port: &mut P, link: LinkNo) -> Heard
    requires { P.usable port.old link }
    ensures which { (result ≡ HeardIs.Nothing) ⊎ (result ≡ HeardIs.Lost) }
    ensures lost { result ≡ HeardIs.Lost → P.gone port.new link }
    ensures tells { P.told port.new ≡ P.told port.old }
    ensures keeps { Keeps (P.usable port.old) (P.side port.old) (P.usable port.new) (P.side port.new) }
    ensures stays { Stays (P.gone port.old) (P.gone port.new) }
    ensures faults { P.faults port.new ≡ P.faults port.old }
{
    if port.gone(link) {
        Heard::Lost
    } else {
        Heard::Nothing
    }
}

/// Sends a reply's text.
#[tactic(auto, using(crate::proofs::FaultSteps::none_fell_same, crate::proofs::FaultSteps::written))]
fn send<P: Port>(
    port: &mut P,
    alloc: Global,
    link: LinkNo,
    reply: &Reply,
    head: bool,
    close: bool,
) -> Result<(), Failed>
    requires usable { P.usable port.old link }
    ensures sends { Sends link (reply_text reply.now head close) result (P.told port.old) (P.told port.new) }
    ensures lost { IsErrOf result Failed.Fault → P.gone port.new link }
    ensures keeps { Keeps (P.usable port.old) (P.side port.old) (P.usable port.new) (P.side port.new) }
    ensures stays { Stays (P.gone port.old) (P.gone port.new) }
    ensures faults { NoneFell (P.faults port.old) (P.faults port.new) }
{
    match reply_text(alloc, reply, head, close) {
        Err(NoMemory) => Err(Failed::NoMemory),
        Ok(text) => write_all(port, link, text.as_slice()),
    }
}

/// The request asks for the head of its reply alone.
fn is_head(request: &ReqData) -> bool
    ensures { result ≡ is_head request.now }
{
    request.method.as_slice() == b"HEAD".as_slice()
}

/// A request's arrival, its turn, and its reply's text on the link.
#[tactic(auto, using(crate::proofs::FaultSteps::none_fell_same))]
fn reply_to<P: Port, I: Isolate>(
    port: &mut P,
    alloc: Global,
    board: &mut Board<I>,
    link: LinkNo,
    socket: SockNo,
    request: ReqData,
    close: bool,
) -> StepEnd
    requires usable { P.usable port.old link }
    requires socket { socket.0 < length board.old.0.world.sockets }
    ensures replies { RepliesOn P.told P.gone link port.old port.new board.old board.new socket request close result }
    ensures fixed { board.new.0 ≡ board.old.0 }
    ensures keeps { Keeps (P.usable port.old) (P.side port.old) (P.usable port.new) (P.side port.new) }
    ensures stays { Stays (P.gone port.old) (P.gone port.new) }
    ensures faults { NoneFell (P.faults port.old) (P.faults port.new) }
{
    let head = is_head(&request);
    match board.answer(alloc, link, socket, request) {
        Err(NoMemory) => StepEnd::Full,
        Ok(None) => StepEnd::Waits,
        Ok(Some(reply)) => {
            let sent = send(port, alloc, link, &reply, head, close);
            end_of(sent, close)
        }
    }
}

/// CR or LF.
fn is_line_end(byte: u8) -> bool
    ensures { result ≡ is_line_end byte }
{
    byte == b'\r' || byte == b'\n'
}

/// The bytes begin a request line with the method HEAD, behind the empty lines that may stand
/// before one (RFC 9112, sections 2.2 and 3).
fn asks_head(bytes: &[u8]) -> bool
    ensures { result ≡ asks_head bytes.now }
{
    let mut at = 0;
    while at < bytes.len() && is_line_end(bytes[at]) {
        at += 1;
    }
    bytes[at..].starts_with(b"HEAD ")
}

/// Sends the text that refuses these bytes, without its body where they ask for a head alone.
#[tactic(auto, using(crate::proofs::FaultSteps::none_fell_same, crate::proofs::FaultSteps::written))]
fn refuse<P: Port>(
    port: &mut P,
    alloc: Global,
    link: LinkNo,
    rest: &[u8],
    code: u16,
) -> Result<(), Failed>
    requires usable { P.usable port.old link }
    ensures sends { Sends link (tail_text rest.now (Some code)) result (P.told port.old) (P.told port.new) }
    ensures lost { IsErrOf result Failed.Fault → P.gone port.new link }
    ensures keeps { Keeps (P.usable port.old) (P.side port.old) (P.usable port.new) (P.side port.new) }
    ensures stays { Stays (P.gone port.old) (P.gone port.new) }
    ensures faults { NoneFell (P.faults port.old) (P.faults port.new) }
{
    match bad_reply(alloc, code) {
        Err(NoMemory) => Err(Failed::NoMemory),
        Ok(reply) => send(port, alloc, link, &reply, asks_head(rest), true),
    }
}

/// How a link is left after a write, behind which it closes or goes on.
fn end_of(written: Result<(), Failed>, close: bool) -> StepEnd
    ensures { result ≡ end_of written close }
{
    match written {
        Ok(()) => if close { StepEnd::Over } else { StepEnd::Open },
        Err(Failed::Fault) => StepEnd::Over,
        Err(Failed::NoMemory) => StepEnd::Full,
    }
}

/// Does what was heard of a link asks for.
#[tactic(auto, using(crate::proofs::FaultSteps::none_fell_same))]
pub fn handle<P: Port, I: Isolate>(
    port: &mut P,
    alloc: Global,
    board: &mut Board<I>,
    run: &mut LinkRun,
    link: LinkNo,
    heard: Heard,
) -> StepEnd
    requires usable { P.usable port.old link }
    requires socket { run.old.socket.0 < length board.old.0.world.sockets }
    requires lost { heard ≡ HeardIs.Lost → P.gone port.old link }
    ensures handles { HandlesOn P.told P.gone link port.old port.new board.old board.new run.old run.new heard result }
    ensures fixed { board.new.0 ≡ board.old.0 }
    ensures keeps { Keeps (P.usable port.old) (P.side port.old) (P.usable port.new) (P.side port.new) }
    ensures stays { Stays (P.gone port.old) (P.gone port.new) }
    ensures faults { NoneFell (P.faults port.old) (P.faults port.new) }
{
    match heard {
        Heard::Fed(Fed::Later) => {
            run.ready = false;
            StepEnd::Open
        }
        Heard::Fed(Fed::Request(request, close)) => {
            run.ready = true;
            reply_to(port, alloc, board, link, run.socket, request, close)
        }
        Heard::Fed(Fed::Bad(code)) => {
            let refused = refuse(port, alloc, link, run.conn.unread(), code);
            end_of(refused, true)
        }
        Heard::Nothing => StepEnd::Open,
        Heard::End => StepEnd::Over,
        Heard::Lost => StepEnd::Over,
        Heard::Full => StepEnd::Full,
    }
}
