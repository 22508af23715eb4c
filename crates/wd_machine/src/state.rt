use crate::turn::Out;
use wd_base::{Bytes, ObjName, ObjNames, Objects, Objs, Op, Origin, Req, Seat, Seq, Wake};

/// A request that waits for a turn in its Worker's isolate, and what the turn is to take up.
#[derive(Debug, Drop)]
pub struct Waiter {
    pub req: Req,
    pub wake: Wake,
}

/// Waiters, the one that has waited longest first.
pub type Waiters = Seq<Waiter>;

/// A Worker: its isolate, the generation in which requests begin, the request whose turn has the
/// isolate, and the requests that wait for it.
#[derive(Debug, Drop)]
pub struct WorkerState<I> {
    pub name: Bytes,
    pub isolate: I,
    pub generation: u64,
    pub holder: Option<Req>,
    pub waiters: Waiters,
}

/// An operation that has not ended, and the name of the service that it went to.
#[derive(Debug, Drop)]
pub struct Flight {
    pub op: Op,
    pub target: Bytes,
}

/// What a turn that runs will have done: the request's objects after it, and its `Out`.
#[derive(Debug, Drop)]
pub struct Pending {
    pub objects: Objects,
    pub out: Out,
}

/// A request that has arrived.
#[derive(Debug, Drop)]
pub struct RequestState {
    pub req: Req,
    pub seat: Seat,
    /// The service that it arrived at.
    pub service: Bytes,
    pub origin: Origin,
    /// How many subrequests it may still make.
    pub left: u32,
    /// The generation of its Worker that its first turn fixed.
    pub generation: Option<u64>,
    /// Its operations that have not ended, in the order of their start.
    pub flights: Seq<Flight>,
    /// Its objects that were made and not freed, in the order of their making.
    pub live: Objs,
    /// What those objects hold; empty while a turn of it runs, which has them.
    pub objects: Objects,
    /// What its turn that runs will have done.
    pub pending: Option<Pending>,
    pub replied: bool,
    /// How many promises its `waitUntil` waits for.
    pub waits: u32,
    /// Its caller has gone, and it works on for its `waitUntil`.
    pub detached: bool,
    pub ended: bool,
}

/// A seat runs a turn of this request.
#[derive(Clone, Copy, Debug, Drop)]
pub struct Run {
    pub seat: Seat,
    pub req: Req,
}

/// An object that a seat has to free.
#[derive(Clone, Copy, Debug, Drop)]
pub struct Due {
    pub seat: Seat,
    pub name: ObjName,
}

/// The state of the machine, as contracts see it.
#[derive(Debug, Drop)]
pub struct State<I> {
    /// The Workers of the world, in order.
    pub workers: Seq<WorkerState<I>>,
    /// The requests, in the order of their arrival.
    pub requests: Seq<RequestState>,
    /// The turns that run, at most one a seat.
    pub running: Seq<Run>,
    /// What the seats have to free.
    pub due: Seq<Due>,
    /// The names of all objects that were made.
    pub made: ObjNames,
    /// The names of all objects that were freed.
    pub freed: ObjNames,
}
