ghost use Rattle.std.specs.Prelude.{◌≡◌, ◌<◌, length, IfSome};
ghost use Rattle.std.specs.List.{position_from};
ghost use Rattle.std.specs.Option.{option_copied};
ghost use Rattle.wd_machine.specs.Ends.{waits_in};
ghost use Rattle.wd_machine.specs.Found.{ArePlaces, is_worker, is_request, request_of, worker_for, service_at, run_on, due_on, waiters_at};

use crate::state::{Due, RequestState, Run, Waiter, WorkerState};
use wd_base::{Req, Seat};

/// Where a request and the Worker that it arrived at stand, counted from 0, and None where they
/// do not.
#[derive(Clone, Copy, Debug, PartialEq, Eq)]
pub struct Places {
    pub req: Req,
    pub row: Option<usize>,
    pub worker: Option<usize>,
}

/// The place of the Worker of this name.
#[tactic(auto, using(crate::proofs::KeyedLemmas::place_within))]
pub fn worker_place<I>(workers: &[WorkerState<I>], name: &[u8]) -> Option<usize>
    ensures place { result ≡ position_from (is_worker name.now) 0 workers.now }
    ensures within { IfSome result (λ i. i < length workers.now) }
{
    workers.iter().position(|w| w.name.as_slice() == name)
}

/// The place of the request of this number.
#[tactic(auto, using(crate::proofs::KeyedLemmas::place_within))]
pub fn request_place(rows: &[RequestState], req: Req) -> Option<usize>
    ensures place { result ≡ position_from (is_request req.0) 0 rows.now }
    ensures within { IfSome result (λ i. i < length rows.now) }
{
    rows.iter().position(|r| r.req.0 == req.0)
}

/// The places of a request and of the Worker that it arrived at.
pub fn places_of<I>(workers: &[WorkerState<I>], rows: &[RequestState], req: Req) -> Places
    ensures places { ArePlaces workers.now rows.now result }
    ensures req { result.req ≡ req }
{
    let name = service_of(rows, req);
    Places {
        req,
        row: request_place(rows, req),
        worker: worker_place(workers, name),
    }
}

/// The name of the service that a request arrived at, and the empty name where there is no request.
fn service_of(rows: &[RequestState], req: Req) -> &[u8]
    ensures { result.now ≡ service_at (request_of req.0 rows.now) }
{
    match request_named(rows, req) {
        Some(row) => row.service.as_slice(),
        None => &[],
    }
}

/// The request at its place.
#[tactic(auto, using(crate::proofs::KeyedLemmas::place_within, crate::proofs::KeyedLemmas::find_at, crate::proofs::KeyedLemmas::find_none))]
pub fn request_at(rows: &[RequestState], places: Places) -> Option<&RequestState>
    requires { position_from (is_request places.req.0) 0 rows.now ≡ places.row }
    ensures { option_copied result ≡ request_of places.req.0 rows.now }
{
    match places.row {
        Some(at) => Some(&rows[at]),
        None => None,
    }
}

/// The Worker that a request arrived at, at its place.
#[tactic(auto, using(crate::proofs::KeyedLemmas::place_within, crate::proofs::KeyedLemmas::find_at, crate::proofs::KeyedLemmas::find_none))]
pub fn worker_at<'a, I>(
    workers: &'a [WorkerState<I>],
    rows: &[RequestState],
    places: Places,
) -> Option<&'a WorkerState<I>>
    requires { ArePlaces workers.now rows.now places }
    ensures { option_copied result ≡ worker_for (request_of places.req.0 rows.now) workers.now }
{
    match places.worker {
        Some(at) => Some(&workers[at]),
        None => None,
    }
}

/// The request of this number.
pub fn request_named(rows: &[RequestState], req: Req) -> Option<&RequestState>
    ensures { option_copied result ≡ request_of req.0 rows.now }
{
    rows.iter().find(|r| r.req.0 == req.0)
}

/// The request whose turn a seat runs.
pub fn run_on(running: &[Run], seat: Seat) -> Option<Req>
    ensures { result ≡ run_on seat.0 running.now }
{
    match running.iter().find(|x| x.seat.0 == seat.0) {
        Some(run) => Some(run.req),
        None => None,
    }
}

/// How many objects a seat has to free.
pub fn due_count(due: &[Due], seat: Seat) -> usize
    ensures { result ≡ length (due_on seat.0 due.now) }
{
    due.iter().filter(|d| d.seat.0 == seat.0).count()
}

/// A request waits for a turn in this Worker.
pub fn waits_in<I>(worker: Option<&WorkerState<I>>, req: Req) -> bool
    ensures { result ≡ waits_in req.0 (waiters_at (option_copied worker.entry)) }
{
    match worker {
        Some(worker) => is_waiting(worker.waiters.as_slice(), req),
        None => false,
    }
}

/// A request is among the waiters.
fn is_waiting(waiters: &[Waiter], req: Req) -> bool
    ensures { result ≡ waits_in req.0 waiters.now }
{
    waiters.iter().any(|w| w.req.0 == req.0)
}
