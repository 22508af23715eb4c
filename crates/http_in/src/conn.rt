ghost use Rattle.std.specs.Prelude.{◌≡◌, [], IfOk, OnErr};
ghost use Rattle.http_in.specs.Conn.{Feeds};
ghost use Rattle.http_in.specs.Stream.{status_of};
ghost use Rattle.http_in.specs.declared.conn.Phase.TheVariants as phases;

use crate::queue::Queue;
use crate::request::{Begun, Seen, next_request};
use http_message::Refusal;
use std::alloc::Global;
use std::marker::Model;
use wd_base::{NoMemory, ReqData};

/// Whether requests are read of a link.
#[derive(Clone, Copy, Debug, PartialEq, Eq)]
pub enum Phase {
    Open,
    /// A request was read behind which the link is closed.
    Closed,
    /// The bytes were refused with this status code.
    Bad(u16),
}

/// What a piece of a link's bytes brings.
#[derive(Debug, Drop)]
pub enum Fed {
    /// No whole request is there.
    Later,
    /// A request, and whether the link is closed behind it.
    Request(ReqData, bool),
    /// The bytes are refused with this status code.
    Bad(u16),
}

/// The bytes of a link that are not read yet.
#[derive(Debug, Drop)]
pub struct Conn {
    queue: Queue,
    phase: Phase,
    /// The head at the front of the bytes, where it was read before its body.
    begun: Option<Begun>,
}

impl Model for Conn {
    ghost use Rattle.http_in.specs.Conn.{Link};
    ghost use Rattle.http_in.specs.Steps.{MayBegin};

    ghost Value = { Link };

    ghost view = { λ c. record { queue = c.queue; phase = c.phase } };

    ghost invariant = { λ c. MayBegin c.queue c.begun };
}

impl Conn {
    /// A link of which no bytes came. It takes no memory.
    pub fn new(alloc: Global) -> Conn
        ensures { result ≡ record { queue = []; phase = phases.Open } }
    {
        Conn {
            queue: Queue::new(alloc),
            phase: Phase::Open,
            begun: None,
        }
    }

    /// The bytes that are not taken yet; after a refusal these are the bytes that were refused.
    pub fn unread(&self) -> &[u8]
        ensures { result.now ≡ self.now.queue }
    {
        self.queue.as_slice()
    }

    /// Adds a piece, which may be empty, and reads the next request. Further requests may be there
    /// after one was read. For want of memory the link stays as it was.
    pub fn feed(&mut self, alloc: Global, piece: &[u8]) -> Result<Fed, NoMemory>
        ensures fed { IfOk result (λ fed. Feeds self.old piece.now fed self.new) }
        ensures err { OnErr result (self.new ≡ self.old) }
    {
        match self.phase {
            Phase::Closed => return Ok(Fed::Later),
            Phase::Bad(code) => return Ok(Fed::Bad(code)),
            Phase::Open => {}
        }
        let old = self.queue.len();
        let begun = self.begun.take();
        self.queue.extend(alloc, piece)?;
        match next_request(alloc, self.queue.as_slice(), begun) {
            Err(NoMemory) => {
                self.queue.truncate(old);
                Err(NoMemory)
            }
            Ok(Seen::Later(begun)) => {
                self.begun = begun;
                Ok(Fed::Later)
            }
            Ok(Seen::Refused(why)) => {
                let code = status_of(why);
                self.phase = Phase::Bad(code);
                Ok(Fed::Bad(code))
            }
            Ok(Seen::Whole(request, close, size)) => {
                self.queue.consume(size);
                if close {
                    self.phase = Phase::Closed;
                }
                Ok(Fed::Request(request, close))
            }
        }
    }
}

/// The status code of a refusal: Bad Request or Content Too Large (RFC 9110, sections 15.5.1 and
/// 15.5.14).
fn status_of(why: Refusal) -> u16
    ensures { result ≡ status_of why }
{
    match why {
        Refusal::Malformed => 400,
        Refusal::TooLarge => 413,
    }
}
