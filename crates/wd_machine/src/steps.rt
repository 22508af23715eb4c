ghost use Rattle.std.specs.Prelude.{◌≡◌, ◌==◌, ◌∷◌, ◌++◌, [], not, map, filter, OnOk};
ghost use Rattle.wd_machine.specs.Steps.{RunsFront, given_back, named, new_request, waiters_without, waits_too};

use crate::isolate::Isolate;
use crate::state::{Pending, RequestState, Run, Waiter, Waiters, WorkerState};
use std::alloc::Global;
use std::mem;
use wd_base::{Bytes, NoMemory, Obj, ObjName, Origin, Req, Seat, Seq};

/// A request that has arrived.
pub fn new_request(
    alloc: Global,
    seat: Seat,
    req: Req,
    service: Bytes,
    origin: Origin,
    allow: u32,
) -> RequestState
    ensures { result ≡ new_request seat req service origin allow }
{
    RequestState {
        req,
        seat,
        service,
        origin,
        left: allow,
        generation: None,
        flights: Seq::new(alloc),
        live: Seq::new(alloc),
        objects: Seq::new(alloc),
        pending: None,
        replied: false,
        waits: 0,
        detached: false,
        ended: false,
    }
}

/// One more request is there.
pub fn add_request(rows: &mut Vec<RequestState>, row: RequestState) -> Result<(), NoMemory>
    ensures { OnOk result (rows.new.items ≡ rows.old.items ++ row ∷ []) }
{
    if rows.push(row).is_err() {
        return Err(NoMemory);
    }
    Ok(())
}

/// One more waits for the Worker, behind the others.
pub fn add_waiter<I>(worker: &mut WorkerState<I>, waiter: Waiter) -> Result<(), NoMemory>
    ensures { OnOk result (worker.new ≡ waits_too waiter worker.old) }
{
    worker.waiters.push(waiter)
}

/// Makes the turn of the front waiter, which is one of the row's request.
pub fn run_front<I: Isolate>(
    alloc: Global,
    worker: &mut WorkerState<I>,
    row: &mut RequestState,
) -> Result<(), NoMemory>
    ensures { OnOk result (RunsFront I.means worker.old row.old worker.new row.new worker.old.waiters) }
{
    let mut waiters = mem::replace(&mut worker.waiters, Seq::new(alloc)).into_vec();
    if waiters.is_empty() {
        return Ok(());
    }
    let waiter = waiters.remove(0);
    let generation = row.generation.unwrap_or(worker.generation);
    let mut objects = mem::replace(&mut row.objects, Seq::new(alloc));
    let out = worker.isolate.turn(
        alloc,
        generation,
        row.req,
        row.left,
        &waiter.wake,
        &mut objects,
    )?;
    worker.waiters = Seq::from_vec(waiters);
    worker.holder = Some(row.req);
    row.generation = Some(generation);
    row.pending = Some(Pending { objects, out });
    Ok(())
}

/// Adds the names of objects of a request.
pub fn push_named(names: &mut Vec<ObjName>, req: Req, objs: &[Obj]) -> Result<(), NoMemory>
    ensures { OnOk result (names.new.items ≡ names.old.items ++ map (named req) objs.now) }
{
    for obj in objs {
        if names.push(ObjName { req, obj: *obj }).is_err() {
            return Err(NoMemory);
        }
    }
    Ok(())
}

/// The seat runs a turn of the request.
pub fn start_run(running: &mut Vec<Run>, seat: Seat, req: Req) -> Result<(), NoMemory>
    ensures { OnOk result (running.new.items ≡ running.old.items ++ record { seat = seat; req = req } ∷ []) }
{
    if running.push(Run { seat, req }).is_err() {
        return Err(NoMemory);
    }
    Ok(())
}

/// The seat runs nothing any longer.
pub fn stop_run(running: &mut Vec<Run>, seat: Seat)
    ensures { running.new.items ≡ filter (λ x. not (x.seat.0 == seat.0)) running.old.items }
{
    running.retain(|x| is_elsewhere(x, seat));
}

/// The turn runs on another seat.
fn is_elsewhere(run: &Run, seat: Seat) -> bool
    ensures { result ≡ not (run.now.seat.0 == seat.0) }
{
    run.seat.0 != seat.0
}

/// The waiters of the other requests.
fn waiters_without(waiters: Waiters, req: Req) -> Waiters
    ensures { result ≡ waiters_without req.0 waiters }
{
    let mut kept = waiters.into_vec();
    kept.retain(|w| is_other(w, req));
    Seq::from_vec(kept)
}

/// The waiter is of another request.
fn is_other(waiter: &Waiter, req: Req) -> bool
    ensures { result ≡ not (waiter.now.req.0 == req.0) }
{
    waiter.req.0 != req.0
}

/// Frees a Worker's isolate for the next turn.
pub fn give_back<I>(alloc: Global, worker: &mut WorkerState<I>, ended: bool, req: Req)
    ensures { worker.new ≡ given_back ended req.0 worker.old }
{
    worker.holder = None;
    if ended {
        let waiters = mem::replace(&mut worker.waiters, Seq::new(alloc));
        worker.waiters = waiters_without(waiters, req);
    }
}
