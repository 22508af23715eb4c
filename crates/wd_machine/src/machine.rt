ghost use Rattle.std.specs.Prelude.{◌≡◌, ◌∷◌, ◌++◌, [], IfOk, OnOk, is_some};
ghost use Rattle.std.specs.List.{position_from};
ghost use Rattle.std.specs.Option.{option_copied};
ghost use Rattle.wd_graph.specs.Names.{worker_in};
ghost use Rattle.wd_machine.specs.Found.{ArePlaces, is_worker, request_of, worker_for};
ghost use Rattle.wd_machine.specs.Rules.{is_open, is_whole, broken, broken_entry, broken_arrive, broken_begin, broken_turn};
ghost use Rattle.wd_machine.specs.First.{AreFirst, AreFirstOf, first_state, first_workers, idle_worker};
ghost use Rattle.wd_machine.specs.Steps.{step, arrived, begun, turned, turn_out};

use crate::ends::end_turn;
use crate::find::{Places, places_of, request_at, run_on, waits_in, worker_at, worker_place};
use crate::isolate::Isolate;
use crate::journal::{Entry, Head};
use crate::refusal::Refused;
use crate::rules::{
    arrive_refused, begin_refused_at, drain_refused, nothing_refused, number_refused,
    turn_refused_at,
};
use crate::state::{Due, RequestState, Run, Waiter, WorkerState};
use crate::steps::{
    add_request, add_waiter, give_back, new_request, push_named, run_front, start_run, stop_run,
};
use crate::turn::Out;
use std::alloc::Global;
use std::marker::Model;
use wd_base::{
    Bytes, Kind, NoMemory, ObjName, Origin, Req, ReqData, Seat, Seq, Service, TryClone, Wake,
};
use wd_graph::World;

/// The machine's tables as a program has them. Contracts see them as the state.
///
/// It takes the steps; whether an entry is allowed its callers ask first. After `NoMemory` nothing
/// is known of it.
#[derive(Drop)]
pub struct Machine<I> {
    workers: Vec<WorkerState<I>>,
    requests: Vec<RequestState>,
    running: Vec<Run>,
    due: Vec<Due>,
    made: Vec<ObjName>,
    freed: Vec<ObjName>,
}

impl<I> Model for Machine<I> {
    ghost use Rattle.wd_machine.specs.declared.state.State.{State};

    ghost Value = { State I };

    ghost view = { λ m. record { workers = m.workers.items; requests = m.requests.items; running = m.running.items; due = m.due.items; made = m.made.items; freed = m.freed.items } };
}

impl<I> Machine<I> {
    /// The places of a request and of the Worker that it arrived at.
    pub fn places(&self, req: Req) -> Places
        ensures places { ArePlaces self.now.workers self.now.requests result }
        ensures req { result.req ≡ req }
    {
        places_of(self.workers.as_slice(), self.requests.as_slice(), req)
    }

    /// The place of the Worker of this name.
    pub fn worker_place(&self, name: &[u8]) -> Option<usize>
        ensures { result ≡ position_from (is_worker name.now) 0 self.now.workers }
    {
        worker_place(self.workers.as_slice(), name)
    }

    /// The request at its place.
    pub fn request(&self, places: Places) -> Option<&RequestState>
        requires { ArePlaces self.now.workers self.now.requests places }
        ensures { option_copied result ≡ request_of places.req.0 self.now.requests }
    {
        request_at(self.requests.as_slice(), places)
    }

    /// Why an entry is not allowed, if it is not: the least rule that it breaks.
    pub fn refused(
        &self,
        world: &World,
        head: &Head,
        entry: &Entry,
    ) -> Result<Option<Refused>, NoMemory>
        ensures { IfOk result (λ r. r ≡ broken world.now head.now self.now entry.now) }
    {
        if entry.seat().0 >= 64 {
            return Ok(number_refused(1, 64));
        }
        self.entry_refused(world, head, entry)
    }

    /// Why an entry of a seat that may exist is not allowed, if it is not.
    fn entry_refused(
        &self,
        world: &World,
        head: &Head,
        entry: &Entry,
    ) -> Result<Option<Refused>, NoMemory>
        ensures { IfOk result (λ r. r ≡ broken_entry (is_whole head.now) (is_open world.now head.now) world.now self.now entry.now) }
    {
        match entry {
            Entry::Arrive {
                req,
                service,
                origin,
                allow,
                ..
            } => self.arrive_refused(world, head, *req, service, *origin, *allow),
            Entry::Begin { seat, req } => Ok(self.begin_refused(self.places(*req), *seat)),
            Entry::Turn { seat, req, out } => self.turn_refused(self.places(*req), *seat, out),
            Entry::Answer { .. } => Ok(nothing_refused(16)),
            Entry::Served { req, .. } => Ok(number_refused(18, req.0)),
            Entry::Cancel { req, .. } => Ok(number_refused(19, req.0)),
            Entry::Drain { seat } => Ok(drain_refused(run_on(self.running.as_slice(), *seat))),
        }
    }

    /// Why the request may not arrive, if it may not.
    pub fn arrive_refused(
        &self,
        world: &World,
        head: &Head,
        req: Req,
        service: &Bytes,
        origin: Origin,
        allow: u32,
    ) -> Result<Option<Refused>, NoMemory>
        ensures { IfOk result (λ r. r ≡ broken_arrive (is_whole head.now) (is_open world.now head.now service.now) world.now self.now.requests req.0 service.now origin allow) }
    {
        let alloc = *self.requests.allocator();
        let rows = self.requests.as_slice();
        arrive_refused(alloc, world, head, rows, req, service, origin, allow)
    }

    /// Why the request's turn may not begin on the seat, if it may not.
    pub fn begin_refused(&self, places: Places, seat: Seat) -> Option<Refused>
        requires { ArePlaces self.now.workers self.now.requests places }
        ensures { result ≡ broken_begin (request_of places.req.0 self.now.requests) (worker_for (request_of places.req.0 self.now.requests) self.now.workers) self.now.running self.now.due seat.0 places.req.0 }
    {
        let workers = self.workers.as_slice();
        let rows = self.requests.as_slice();
        let running = self.running.as_slice();
        begin_refused_at(workers, rows, running, self.due.as_slice(), places, seat)
    }

    /// Why the seat's turn of the request may not end with this `Out`, if it may not.
    pub fn turn_refused(
        &self,
        places: Places,
        seat: Seat,
        out: &Out,
    ) -> Result<Option<Refused>, NoMemory>
        requires { ArePlaces self.now.workers self.now.requests places }
        ensures { IfOk result (λ r. r ≡ broken_turn (request_of places.req.0 self.now.requests) (worker_for (request_of places.req.0 self.now.requests) self.now.workers) self.now.running seat.0 places.req.0 out.now) }
    {
        let alloc = *self.requests.allocator();
        let workers = self.workers.as_slice();
        let rows = self.requests.as_slice();
        turn_refused_at(
            alloc,
            workers,
            rows,
            self.running.as_slice(),
            places,
            seat,
            out,
        )
    }

    /// A request arrives; `worker` is the place of the Worker of the service's name, if it is one.
    #[tactic(auto, using(crate::proofs::KeyedLemmas::place_within, crate::proofs::KeyedLemmas::change_none))]
    pub fn arrive(
        &mut self,
        worker: Option<usize>,
        seat: Seat,
        req: Req,
        service: Bytes,
        origin: Origin,
        allow: u32,
        request: ReqData,
    ) -> Result<(), NoMemory>
        requires { position_from (is_worker service) 0 self.old.workers ≡ worker }
        ensures { OnOk result (self.new ≡ arrived self.old seat req service origin allow request) }
    {
        let alloc = *self.requests.allocator();
        let row = new_request(alloc, seat, req, service, origin, allow);
        add_request(&mut self.requests, row)?;
        let Some(place) = worker else {
            return Ok(());
        };
        let waiter = Waiter {
            req,
            wake: Wake::Start(request),
        };
        add_waiter(&mut self.workers[place], waiter)
    }
}

impl<I: Isolate + Drop> Machine<I> {
    /// The machine before any entry. `isolates` has the first isolate of each Worker of the world,
    /// in order.
    pub fn new(alloc: Global, world: &World, isolates: Vec<I>) -> Result<Machine<I>, NoMemory>
        requires { AreFirst I.means world.now isolates.items }
        ensures { IfOk result (λ machine. machine ≡ first_state I.means world.now) }
    {
        let workers = first_workers(alloc, world.services().as_slice(), isolates)?;
        Ok(Machine {
            workers,
            requests: Vec::new(alloc),
            running: Vec::new(alloc),
            due: Vec::new(alloc),
            made: Vec::new(alloc),
            freed: Vec::new(alloc),
        })
    }
}

impl<I: Isolate> Machine<I> {
    /// Takes the step of an entry that is allowed.
    pub fn step(&mut self, entry: &Entry) -> Result<(), NoMemory>
        ensures { OnOk result (self.new ≡ step I.means self.old entry.now) }
    {
        match entry {
            Entry::Arrive {
                seat,
                req,
                service,
                origin,
                allow,
                request,
            } => {
                let alloc = *self.requests.allocator();
                let worker = self.worker_place(service.as_slice());
                let service = service.try_clone(alloc)?;
                let request = request.try_clone(alloc)?;
                self.arrive(worker, *seat, *req, service, *origin, *allow, request)
            }
            Entry::Begin { seat, req } => {
                let places = self.places(*req);
                self.begin(places, *seat)
            }
            Entry::Turn { seat, req, .. } => {
                let places = self.places(*req);
                self.end(places, *seat)
            }
            _ => Ok(()),
        }
    }

    /// A turn's step without its `Out`.
    fn end(&mut self, places: Places, seat: Seat) -> Result<(), NoMemory>
        requires { ArePlaces self.old.workers self.old.requests places }
        ensures { OnOk result (self.new ≡ turned self.old seat places.req) }
    {
        match self.turn(places, seat) {
            Ok(_) => Ok(()),
            Err(NoMemory) => Err(NoMemory),
        }
    }

    /// The front waiter's turn is made, and the seat runs it. It is one of this request.
    #[tactic(auto, using(crate::proofs::KeyedLemmas::place_within))]
    pub fn begin(&mut self, places: Places, seat: Seat) -> Result<(), NoMemory>
        requires { ArePlaces self.old.workers self.old.requests places }
        ensures { OnOk result (self.new ≡ begun I.means self.old seat places.req) }
    {
        let alloc = *self.requests.allocator();
        let Some(at) = places.row else {
            return Ok(());
        };
        let Some(place) = places.worker else {
            return Ok(());
        };
        if self.workers[place].waiters.is_empty() {
            return Ok(());
        }
        let req = self.requests[at].req;
        start_run(&mut self.running, seat, req)?;
        run_front(alloc, &mut self.workers[place], &mut self.requests[at])
    }

    /// The request's pending turn is done, and the isolate and the seat are free again. The `Out`
    /// is that of the turn's entry, and None where no turn was pending.
    #[tactic(auto, using(crate::proofs::KeyedLemmas::place_within))]
    pub fn turn(&mut self, places: Places, seat: Seat) -> Result<Option<Out>, NoMemory>
        requires { ArePlaces self.old.workers self.old.requests places }
        ensures state { OnOk result (self.new ≡ turned self.old seat places.req) }
        ensures out { IfOk result (λ out. out ≡ turn_out (request_of places.req.0 self.old.requests) (worker_for (request_of places.req.0 self.old.requests) self.old.workers)) }
    {
        let alloc = *self.requests.allocator();
        let worker = worker_at(self.workers.as_slice(), self.requests.as_slice(), places);
        let waiting = waits_in(worker, places.req);
        let Some(at) = places.row else {
            return Ok(None);
        };
        let Some(done) = end_turn(alloc, &mut self.requests[at], waiting)? else {
            return Ok(None);
        };
        push_named(&mut self.made, places.req, done.out.made.as_slice())?;
        push_named(&mut self.freed, places.req, done.freed.as_slice())?;
        stop_run(&mut self.running, seat);
        let Some(place) = places.worker else {
            return Ok(Some(done.out));
        };
        give_back(alloc, &mut self.workers[place], done.ended, places.req);
        Ok(Some(done.out))
    }
}

/// The Workers among the services, each with its isolate.
fn first_workers<I: Isolate + Drop>(
    alloc: Global,
    services: &[Service],
    isolates: Vec<I>,
) -> Result<Vec<WorkerState<I>>, NoMemory>
    requires { AreFirstOf I.means services.now services.now isolates.items }
    ensures { IfOk result (λ workers. workers.items ≡ first_workers I.means services.now) }
{
    let mut isolates = isolates;
    let mut workers = Vec::new(alloc);
    for service in services {
        if !is_worker(service) {
            continue;
        }
        if isolates.is_empty() {
            continue;
        }
        let isolate = isolates.remove(0);
        add_worker(alloc, &mut workers, service, isolate)?;
    }
    Ok(workers)
}

/// The service is a Worker.
fn is_worker(service: &Service) -> bool
    ensures { result ≡ is_some (worker_in service.now.kind) }
{
    match &service.kind {
        Kind::Worker(_) => true,
        _ => false,
    }
}

/// Adds a Worker as it stands before any entry.
fn add_worker<I: Drop>(
    alloc: Global,
    workers: &mut Vec<WorkerState<I>>,
    service: &Service,
    isolate: I,
) -> Result<(), NoMemory>
    ensures { OnOk result (workers.new.items ≡ workers.old.items ++ idle_worker service.now.name isolate ∷ []) }
{
    let name = service.name.try_clone(alloc)?;
    let worker = WorkerState {
        name,
        isolate,
        generation: 0,
        holder: None,
        waiters: Seq::new(alloc),
    };
    if workers.push(worker).is_err() {
        return Err(NoMemory);
    }
    Ok(())
}
