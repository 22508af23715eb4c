ghost use Rattle.std.specs.Prelude.{◌≡◌, ◌<◌, [], ◌∷◌, ◌++◌, length, ◌+◌, IfOk, OnOk, is_some, slice_get};
ghost use Rattle.std.specs.Option.{option_copied};
ghost use Rattle.wd_graph.specs.Graph.{workers_in};
ghost use Rattle.wd_graph.specs.Names.{worker_at, worker_in};
ghost use Rattle.wd_plan.specs.Constant.{first_constant};
ghost use Rattle.wd_plan.specs.Starts.{Starting, Starts, StartsNext, are_plain, are_at_workers};
ghost use Rattle.wd_plan.specs.Starts.{is_at_worker, is_plain_worker, refused, targets_at};

use crate::constant::Constant;
use crate::reason::{Reason, RefusedScript};
use crate::script::{Verdict, judge};
use std::alloc::Global;
use wd_base::{Bytes, Form, Kind, NoMemory, Service, ServiceNo, Socket, TryClone, WorkerDef};
use wd_graph::World;

/// What the start of a world's scripts came to.
#[derive(Drop)]
pub enum Started {
    /// The first isolates of the world's Workers, in order.
    Isolates(Vec<Constant>),
    /// The first script that is refused.
    Refused(RefusedScript),
}

/// The first isolate of a Worker whose script answers the text.
fn start(
    alloc: Global,
    world: &World,
    no: ServiceNo,
    worker: &WorkerDef,
    text: Bytes,
) -> Result<Constant, NoMemory>
    requires { no.0 < length world.now.services }
    ensures { IfOk result (λ isolate. isolate ≡ first_constant worker.now (targets_at world.now.services no) text) }
{
    let workers = world.workers_of(alloc, no)?;
    let worker = worker.try_clone(alloc)?;
    Ok(Constant {
        worker,
        workers,
        text,
        generation: 0,
    })
}

/// The script of a service, refused for this.
fn refused(alloc: Global, service: &Service, reason: Reason) -> Result<RefusedScript, NoMemory>
    ensures { IfOk result (λ script. script ≡ refused service.now reason) }
{
    let service = service.name.try_clone(alloc)?;
    Ok(RefusedScript { service, reason })
}

/// The Worker that a service is, where it is one.
fn worker_of(service: &Service) -> Option<&WorkerDef>
    ensures { option_copied result ≡ worker_in service.now.kind }
{
    match &service.kind {
        Kind::Worker(worker) => Some(worker),
        _ => None,
    }
}

fn is_worker(service: &Service) -> bool
    ensures { result ≡ is_some (worker_in service.now.kind) }
{
    match &service.kind {
        Kind::Worker(_) => true,
        _ => false,
    }
}

/// Starts the script of a service, where it is a Worker, behind the `isolates` of those before it;
/// the script, where it is refused.
#[tactic(auto, using(crate::proofs::StartSteps::starting_more, crate::proofs::StartSteps::starting_other, crate::proofs::StartSteps::starting_refused))]
fn start_next(
    alloc: Global,
    world: &World,
    no: ServiceNo,
    isolates: &mut Vec<Constant>,
) -> Result<Option<RefusedScript>, NoMemory>
    requires within { no.0 < length world.now.services }
    requires starting { Starting world.now.services isolates.old.items no.0 }
    ensures { IfOk result (StartsNext world.now.services isolates.new.items (no.0 + 1)) }
{
    let service = world.service(no);
    let Some(worker) = worker_of(service) else {
        return Ok(None);
    };
    match judge(alloc, worker)? {
        Verdict::Answers(text) => {
            let isolate = start(alloc, world, no, worker, text)?;
            add(isolates, isolate)?;
            Ok(None)
        }
        Verdict::Refused(reason) => Ok(Some(refused(alloc, service, reason)?)),
    }
}

/// Starts the scripts of a world's Workers, in order, up to the first script that is refused.
#[tactic(auto, using(crate::proofs::StartSteps::starting_first, crate::proofs::StartSteps::started_all))]
pub fn start_all(alloc: Global, world: &World) -> Result<Started, NoMemory>
    ensures { IfOk result (λ started. Starts world.now started) }
{
    let mut isolates = Vec::new(alloc);
    for number in 0..world.count() {
        if let Some(script) = start_next(alloc, world, ServiceNo(number), &mut isolates)? {
            return Ok(Started::Refused(script));
        }
    }
    Ok(Started::Isolates(isolates))
}

fn add(isolates: &mut Vec<Constant>, isolate: Constant) -> Result<(), NoMemory>
    ensures { OnOk result (isolates.new.items ≡ isolates.old.items ++ isolate ∷ []) }
{
    match isolates.push(isolate) {
        Ok(()) => Ok(()),
        Err(_) => Err(NoMemory),
    }
}

/// Each service is a Worker that is served today: a module without bindings.
pub fn are_plain(services: &[Service]) -> bool
    ensures { result ≡ are_plain services.now }
{
    services.iter().all(is_plain)
}

fn is_plain(service: &Service) -> bool
    ensures { result ≡ is_plain_worker (worker_in service.now.kind) }
{
    match worker_of(service) {
        Some(worker) => worker.form == Form::Module && worker.bindings.is_empty(),
        None => false,
    }
}

/// Each socket is at a Worker.
pub fn are_at_workers(world: &World) -> bool
    ensures { result ≡ are_at_workers world.now }
{
    world
        .sockets()
        .as_slice()
        .iter()
        .all(|socket| is_at_worker(world, socket))
}

#[tactic(auto, using(crate::proofs::StartSteps::at_worker, crate::proofs::StartSteps::at_nothing, crate::proofs::StartSteps::within))]
fn is_at_worker(world: &World, socket: &Socket) -> bool
    ensures { result ≡ is_at_worker world.now.services socket.now }
{
    match world.number(socket.service.as_slice()) {
        Some(no) => is_worker(world.service(no)),
        None => false,
    }
}
