ghost use Rattle.std.specs.Prelude.{◌≡◌, IfOk, length};
ghost use Rattle.std.specs.Option.{option_copied};
ghost use Rattle.wd_machine.specs.declared.refusal.Kept.TheVariants.{Number, Name, Field, Nothing};
ghost use Rattle.wd_graph.specs.Names.{is_public, service_of};
ghost use Rattle.wd_machine.specs.Ends.{whole_out};
ghost use Rattle.wd_machine.specs.Found.{ArePlaces, request_of, worker_for, waiters_at, waiting, front, holder_of};
ghost use Rattle.wd_machine.specs.Rules.{kept_number, is_number, is_open, is_whole, is_live_on, broken_arrive, broken_origin, broken_begin, broken_front, broken_turn, broken_pending, broken_field, broken_drain};
ghost use Rattle.wd_machine.specs.Same.{coded_crosses, first_difference, last_difference, is_same};

use crate::ends::{failure, is_hung};
use crate::find::{Places, due_count, request_at, request_named, run_on, waits_in, worker_at};
use crate::journal::Head;
use crate::refusal::{Kept, Refused};
use crate::state::{Due, Pending, RequestState, Run, Waiter, WorkerState};
use crate::turn::{Out, OutField};
use std::alloc::Global;
use wd_base::{Bytes, Crosses, NoMemory, Origin, Reply, Req, Same, Seat, Service, TryClone, Why};
use wd_graph::World;

/// A refusal that keeps a number.
pub fn number_refused(rule: u8, number: u64) -> Option<Refused>
    ensures { result ≡ Some (record { rule = rule; kept = Number number }) }
{
    Some(Refused {
        rule,
        kept: Kept::Number(number),
    })
}

/// A refusal that keeps a request's number, or nothing where there is no request.
fn request_refused(rule: u8, req: Option<Req>) -> Option<Refused>
    ensures { result ≡ Some (record { rule = rule; kept = kept_number req }) }
{
    match req {
        Some(req) => number_refused(rule, req.0),
        None => nothing_refused(rule),
    }
}

/// A refusal that keeps nothing.
pub fn nothing_refused(rule: u8) -> Option<Refused>
    ensures { result ≡ Some (record { rule = rule; kept = Nothing }) }
{
    Some(Refused {
        rule,
        kept: Kept::Nothing,
    })
}

/// A refusal that keeps a name.
fn name_refused(alloc: Global, rule: u8, name: &Bytes) -> Result<Option<Refused>, NoMemory>
    ensures { IfOk result (λ r. r ≡ Some (record { rule = rule; kept = Name name.now })) }
{
    let name = name.try_clone(alloc)?;
    Ok(Some(Refused {
        rule,
        kept: Kept::Name(name),
    }))
}

/// Requests may arrive from outside at the service.
fn is_open(world: &World, head: &Head, service: &[u8]) -> bool
    ensures { result ≡ is_open world.now head.now service.now }
{
    match head {
        Head::Whole => is_public(world, service),
        Head::Part(_) => false,
    }
}

/// A socket answers for the service.
fn is_public(world: &World, service: &[u8]) -> bool
    ensures { result ≡ is_public world.now service.now }
{
    world
        .sockets()
        .as_slice()
        .iter()
        .any(|socket| socket.service.as_slice() == service)
}

/// The head is that of a whole journal.
fn is_whole(head: &Head) -> bool
    ensures { result ≡ is_whole head.now }
{
    match head {
        Head::Whole => true,
        Head::Part(_) => false,
    }
}

/// The service of this name.
fn service_named<'a>(world: &'a World, name: &[u8]) -> Option<&'a Service>
    ensures { option_copied result ≡ service_of name.now world.now.services }
{
    let services = world.services().as_slice();
    services.iter().find(|s| s.name.as_slice() == name)
}

/// Why the arrival of a request is not allowed, if it is not.
pub fn arrive_refused(
    alloc: Global,
    world: &World,
    head: &Head,
    rows: &[RequestState],
    req: Req,
    service: &Bytes,
    origin: Origin,
    allow: u32,
) -> Result<Option<Refused>, NoMemory>
    ensures { IfOk result (λ r. r ≡ broken_arrive (is_whole head.now) (is_open world.now head.now service.now) world.now rows.now req.0 service.now origin allow) }
{
    if req.0 == 0 || request_named(rows, req).is_some() {
        return Ok(number_refused(3, req.0));
    }
    if service_named(world, service.as_slice()).is_none() {
        return name_refused(alloc, 4, service);
    }
    origin_refused(alloc, world, head, service, origin, allow)
}

/// Why the origin of a request is not allowed, if it is not.
fn origin_refused(
    alloc: Global,
    world: &World,
    head: &Head,
    service: &Bytes,
    origin: Origin,
    allow: u32,
) -> Result<Option<Refused>, NoMemory>
    ensures { IfOk result (λ r. r ≡ broken_origin (is_whole head.now) (is_open world.now head.now service.now) service.now origin allow) }
{
    match origin {
        Origin::Outside(_) => {
            if !is_open(world, head, service.as_slice()) {
                return name_refused(alloc, 5, service);
            }
            if allow != 1000 {
                return Ok(number_refused(6, 1000));
            }
            Ok(None)
        }
        Origin::Child(_, _) => Ok(nothing_refused(7)),
        Origin::Caller => {
            if !is_whole(head) && is_open(world, head, service.as_slice()) && allow <= 1000 {
                return Ok(None);
            }
            Ok(number_refused(8, 1000))
        }
    }
}

/// The request of the waiter that has waited longest.
fn front_of<I>(worker: Option<&WorkerState<I>>) -> Option<Req>
    ensures { result ≡ waiting (front (waiters_at (option_copied worker.entry))) }
{
    match worker {
        Some(worker) => first_waiting(worker.waiters.as_slice()),
        None => None,
    }
}

/// The request of the first waiter.
fn first_waiting(waiters: &[Waiter]) -> Option<Req>
    ensures { result ≡ waiting (front waiters.now) }
{
    match waiters.first() {
        Some(waiter) => Some(waiter.req),
        None => None,
    }
}

/// The request whose turn has the Worker's isolate.
fn holder_of<I>(worker: Option<&WorkerState<I>>) -> Option<Req>
    ensures { result ≡ holder_of (option_copied worker.entry) }
{
    match worker {
        Some(worker) => worker.holder,
        None => None,
    }
}

/// The request lives on the seat.
fn is_live_on(row: Option<&RequestState>, seat: Seat) -> bool
    ensures { result ≡ is_live_on seat.0 (option_copied row.entry) }
{
    match row {
        Some(row) => !row.ended && row.seat.0 == seat.0,
        None => false,
    }
}

/// Why the request's turn may not begin on the seat, if it may not.
pub fn begin_refused_at<I>(
    workers: &[WorkerState<I>],
    rows: &[RequestState],
    running: &[Run],
    due: &[Due],
    places: Places,
    seat: Seat,
) -> Option<Refused>
    requires { ArePlaces workers.now rows.now places }
    ensures { result ≡ broken_begin (request_of places.req.0 rows.now) (worker_for (request_of places.req.0 rows.now) workers.now) running.now due.now seat.0 places.req.0 }
{
    let row = request_at(rows, places);
    let worker = worker_at(workers, rows, places);
    begin_refused(row, worker, running, due, seat, places.req)
}

/// Why a turn may not begin, if it may not.
fn begin_refused<I>(
    row: Option<&RequestState>,
    worker: Option<&WorkerState<I>>,
    running: &[Run],
    due: &[Due],
    seat: Seat,
    req: Req,
) -> Option<Refused>
    ensures { result ≡ broken_begin (option_copied row.entry) (option_copied worker.entry) running.now due.now seat.0 req.0 }
{
    if !is_live_on(row, seat) {
        return number_refused(9, req.0);
    }
    let first = front_of(worker);
    let holder = holder_of(worker);
    let run = run_on(running, seat);
    front_refused(first, holder, run, due_count(due, seat) as u64, req)
}

/// Why the front waiter's turn may not begin, if it may not.
fn front_refused(
    first: Option<Req>,
    holder: Option<Req>,
    run: Option<Req>,
    due: u64,
    req: Req,
) -> Option<Refused>
    ensures { result ≡ broken_front first holder run due req.0 }
{
    if !is_number(first, req) {
        return request_refused(10, first);
    }
    if holder.is_some() {
        return request_refused(11, holder);
    }
    if run.is_some() {
        return request_refused(12, run);
    }
    if due != 0 {
        return number_refused(13, due);
    }
    None
}

/// The request has this number.
fn is_number(found: Option<Req>, req: Req) -> bool
    ensures { result ≡ is_number req.0 found }
{
    match found {
        Some(found) => found.0 == req.0,
        None => false,
    }
}

/// Why the seat's turn of the request may not end with this `Out`, if it may not.
pub fn turn_refused_at<I>(
    alloc: Global,
    workers: &[WorkerState<I>],
    rows: &[RequestState],
    running: &[Run],
    places: Places,
    seat: Seat,
    out: &Out,
) -> Result<Option<Refused>, NoMemory>
    requires { ArePlaces workers.now rows.now places }
    ensures { IfOk result (λ r. r ≡ broken_turn (request_of places.req.0 rows.now) (worker_for (request_of places.req.0 rows.now) workers.now) running.now seat.0 places.req.0 out.now) }
{
    let row = request_at(rows, places);
    let worker = worker_at(workers, rows, places);
    turn_refused(alloc, row, worker, running, seat, places.req, out)
}

/// Why a turn may not end with this `Out`, if it may not.
fn turn_refused<I>(
    alloc: Global,
    row: Option<&RequestState>,
    worker: Option<&WorkerState<I>>,
    running: &[Run],
    seat: Seat,
    req: Req,
    out: &Out,
) -> Result<Option<Refused>, NoMemory>
    ensures { IfOk result (λ r. r ≡ broken_turn (option_copied row.entry) (option_copied worker.entry) running.now seat.0 req.0 out.now) }
{
    let run = run_on(running, seat);
    if !is_number(run, req) {
        return Ok(request_refused(14, run));
    }
    pending_refused(alloc, row, waits_in(worker, req), out)
}

/// Why the pending turn does not end with this `Out`, if it does not.
fn pending_refused(
    alloc: Global,
    row: Option<&RequestState>,
    waiting: bool,
    out: &Out,
) -> Result<Option<Refused>, NoMemory>
    ensures { IfOk result (λ r. r ≡ broken_pending (option_copied row.entry) waiting out.now) }
{
    let Some(row) = row else {
        return Ok(nothing_refused(14));
    };
    let Some(pending) = &row.pending else {
        return Ok(nothing_refused(14));
    };
    out_refused(alloc, row, pending, waiting, out)
}

/// The first field in which the `Out` differs from what the turn did, if one does.
fn out_refused(
    alloc: Global,
    row: &RequestState,
    pending: &Pending,
    waiting: bool,
    out: &Out,
) -> Result<Option<Refused>, NoMemory>
    ensures { IfOk result (λ r. r ≡ broken_field (first_difference (whole_out row.now waiting pending.now.out) out.now)) }
{
    if is_hung(row, waiting, &pending.out) {
        let reply = Some(failure(alloc, Why::Hung)?);
        return Ok(field_refused(first_difference(&pending.out, &reply, out)));
    }
    let field = first_difference(&pending.out, &pending.out.reply, out);
    Ok(field_refused(field))
}

/// Why a seat may not free what is due, which it never may yet.
pub fn drain_refused(run: Option<Req>) -> Option<Refused>
    ensures { result ≡ broken_drain run }
{
    request_refused(21, run)
}

/// A refusal that keeps a field, where one differs.
fn field_refused(field: Option<OutField>) -> Option<Refused>
    ensures { result ≡ broken_field field }
{
    match field {
        Some(field) => Some(Refused {
            rule: 15,
            kept: Kept::Field(field),
        }),
        None => None,
    }
}

/// The two lists of kept jobs are equal.
fn same_crosses(a: &Crosses, b: &Crosses) -> bool
    ensures { result ≡ is_same coded_crosses a.now b.now }
{
    a.same(b)
}

/// The two values are equal.
fn is_same<T: Same>(a: &T, b: &T) -> bool
    ensures { result ≡ is_same T.row.coded a.now b.now }
{
    a.same(b)
}

/// The first field in which an `Out` with this reply in place of its own differs from another.
fn first_difference(want: &Out, reply: &Option<Reply>, got: &Out) -> Option<OutField>
    ensures { result ≡ first_difference (record want.now { reply = reply.now }) got.now }
{
    if !is_same(&want.made, &got.made) {
        return Some(OutField::Made);
    }
    if !is_same(&want.changed, &got.changed) {
        return Some(OutField::Changed);
    }
    if !is_same(&want.freed, &got.freed) {
        return Some(OutField::Freed);
    }
    if !is_same(&want.uses, &got.uses) {
        return Some(OutField::Uses);
    }
    if !is_same(&want.stray, &got.stray) {
        return Some(OutField::Stray);
    }
    if !is_same(&want.ops, &got.ops) {
        return Some(OutField::Ops);
    }
    if !is_same(reply, &got.reply) {
        return Some(OutField::Reply);
    }
    if want.waits != got.waits {
        return Some(OutField::Waits);
    }
    if !same_crosses(&want.cross, &got.cross) {
        return Some(OutField::Cross);
    }
    if !is_same(&want.released, &got.released) {
        return Some(OutField::Released);
    }
    last_difference(want, got)
}

/// The first of the last fields in which two `Out`s differ.
fn last_difference(want: &Out, got: &Out) -> Option<OutField>
    ensures { result ≡ last_difference want.now got.now }
{
    if !is_same(&want.condemned, &got.condemned) {
        return Some(OutField::Condemned);
    }
    if !is_same(&want.heavy, &got.heavy) {
        return Some(OutField::Heavy);
    }
    if !is_same(&want.logs, &got.logs) {
        return Some(OutField::Logs);
    }
    if want.steps != got.steps {
        return Some(OutField::Steps);
    }
    None
}
