ghost use Rattle.std.specs.Prelude.{◌≡◌, [], IfOk, OnErr};
ghost use Rattle.http_response.specs.Reader.{Feeds, phase_after};
ghost use Rattle.http_response.specs.Response.{Hears, unfinished, refused};
ghost use Rattle.http_response.specs.declared.reader.Phase.TheVariants as phases;

use crate::response::{Progress, Seen, read_response};
use http_message::Refusal;
use std::alloc::Global;
use std::marker::Model;
use std::mem;
use wd_base::{NoMemory, Reply};

/// Whether a response is read on.
#[derive(Clone, Copy, Debug, PartialEq, Eq)]
pub enum Phase {
    Open,
    /// The reply was handed out.
    Closed,
    /// The bytes are no response.
    Bad,
    /// The response passes a limit.
    Large,
}

/// What the bytes of a link are.
#[derive(Debug, Drop)]
pub enum Heard {
    /// Less than a response.
    Later,
    /// The response.
    Reply(Reply),
    /// No response, and none to come.
    Bad,
    /// A response that passes a limit.
    Large,
}

/// A response on its way: the bytes of a link on which a request was sent.
///
/// Heads that were read, and chunks, are not looked at again when more bytes come; a body by length or
/// up to the end is counted until it is whole, and copied once.
#[derive(Debug, Drop)]
pub struct Response {
    to_head: bool,
    bytes: Vec<u8>,
    phase: Phase,
    progress: Progress,
}

impl Model for Response {
    ghost use Rattle.http_response.specs.Reader.{Coming};
    ghost use Rattle.http_response.specs.Steps.{IsProgress};

    ghost Value = { Coming };

    ghost view = { λ r. record { to_head = r.to_head; bytes = r.bytes.items; phase = r.phase } };

    ghost invariant = { λ r. IsProgress r.to_head r.bytes.items r.progress };
}

impl Response {
    /// The response to a HEAD request or another, of which no bytes came. It takes no memory.
    pub fn new(alloc: Global, to_head: bool) -> Response
        ensures { result ≡ record { to_head = to_head; bytes = []; phase = phases.Open } }
    {
        Response {
            to_head,
            bytes: Vec::new(alloc),
            phase: Phase::Open,
            progress: Progress::Heads(0),
        }
    }

    /// Adds a piece, which may be empty, and reads the response. `ended`: no bytes come behind the
    /// piece. For want of memory the response stays as it was.
    pub fn feed(&mut self, alloc: Global, piece: &[u8], ended: bool) -> Result<Heard, NoMemory>
        ensures heard { IfOk result (λ heard. Feeds self.old piece.now ended heard self.new) }
        ensures err { OnErr result (self.new ≡ self.old) }
    {
        match self.phase {
            Phase::Closed => return Ok(Heard::Later),
            Phase::Bad => return Ok(Heard::Bad),
            Phase::Large => return Ok(Heard::Large),
            Phase::Open => {}
        }
        let old = self.bytes.len();
        let progress = mem::replace(&mut self.progress, Progress::Heads(0));
        self.bytes.extend_from_slice(piece)?;
        let heard = match read_response(
            alloc,
            self.bytes.as_slice(),
            ended,
            self.to_head,
            progress,
        ) {
            Err(NoMemory) => {
                self.bytes.truncate(old);
                return Err(NoMemory);
            }
            Ok(Seen::Later(progress)) => {
                self.progress = progress;
                unfinished(ended)
            }
            Ok(Seen::Refused(why)) => refused(why),
            Ok(Seen::Whole(reply)) => Heard::Reply(reply),
        };
        self.phase = phase_after(&heard);
        Ok(heard)
    }
}

/// What all bytes of a link are, in the response to a HEAD request or another, where they have ended or
/// not.
pub fn response_of(
    alloc: Global,
    bytes: &[u8],
    ended: bool,
    to_head: bool,
) -> Result<Heard, NoMemory>
    ensures { IfOk result (λ heard. Hears to_head ended bytes.now heard) }
{
    match read_response(alloc, bytes, ended, to_head, Progress::Heads(0))? {
        Seen::Later(_) => Ok(unfinished(ended)),
        Seen::Refused(why) => Ok(refused(why)),
        Seen::Whole(reply) => Ok(Heard::Reply(reply)),
    }
}

/// What bytes are that hold no whole response, and are not refused.
fn unfinished(ended: bool) -> Heard
    ensures { result ≡ unfinished ended }
{
    if ended { Heard::Bad } else { Heard::Later }
}

fn refused(why: Refusal) -> Heard
    ensures { result ≡ refused why }
{
    match why {
        Refusal::Malformed => Heard::Bad,
        Refusal::TooLarge => Heard::Large,
    }
}

fn phase_after(heard: &Heard) -> Phase
    ensures { result ≡ phase_after heard.now }
{
    match heard {
        Heard::Later => Phase::Open,
        Heard::Reply(_) => Phase::Closed,
        Heard::Bad => Phase::Bad,
        Heard::Large => Phase::Large,
    }
}
