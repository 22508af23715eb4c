ghost use Rattle.std.specs.Prelude.{◌≡◌};

use crate::turn::Out;
use wd_base::{Bytes, Op, OpResult, Origin, Reply, Req, ReqData, Seat, Seq};

/// One event of the server, of one seat. Requests are named by their numbers.
#[derive(Debug, Drop)]
pub enum Entry {
    /// A request arrives at a service. It may make `allow` subrequests.
    Arrive {
        seat: Seat,
        req: Req,
        service: Bytes,
        origin: Origin,
        allow: u32,
        request: ReqData,
    },
    /// The oldest waiter of an isolate takes it for a turn.
    Begin {
        seat: Seat,
        req: Req,
    },
    /// The turn has ended, and the isolate is free again.
    Turn {
        seat: Seat,
        req: Req,
        out: Out,
    },
    /// An operation of a request has ended.
    Answer {
        seat: Seat,
        req: Req,
        op: Op,
        result: OpResult,
    },
    /// A service that is no Worker has replied to a request from outside.
    Served {
        seat: Seat,
        req: Req,
        reply: Reply,
    },
    /// The caller of a request has gone.
    Cancel {
        seat: Seat,
        req: Req,
    },
    /// The seat has freed the objects that were due.
    Drain {
        seat: Seat,
    },
}

impl Entry {
    ghost use Rattle.wd_machine.specs.Entries.{seat_of};

    /// The seat whose event it is.
    pub fn seat(&self) -> Seat
        ensures { result ≡ seat_of self.now }
    {
        match self {
            Entry::Arrive { seat, .. } => *seat,
            Entry::Begin { seat, .. } => *seat,
            Entry::Turn { seat, .. } => *seat,
            Entry::Answer { seat, .. } => *seat,
            Entry::Served { seat, .. } => *seat,
            Entry::Cancel { seat, .. } => *seat,
            Entry::Drain { seat } => *seat,
        }
    }
}

/// The entries of a journal, in order.
pub type Entries = Seq<Entry>;

/// What a journal holds: all entries of a server, or those of the service of that name and of all
/// that it reaches.
#[derive(Debug, Drop)]
pub enum Head {
    Whole,
    Part(Bytes),
}

/// A record of what a server did.
#[derive(Debug, Drop)]
pub struct Journal {
    pub head: Head,
    pub entries: Entries,
}
