ghost use Rattle.std.specs.Prelude.{◌≡◌, ◌<◌, ◌≤◌, ◌^◌, IfOk, OnOk, IsTrue, length, Some};
ghost use Rattle.wd_graph.specs.Names.{names_differ, targets, worker_in};
ghost use Rattle.wd_graph.specs.Graph.{targets_in};
ghost use Rattle.wd_graph.specs.Walk.{met, met_number, met_name, met_names, visited, MarkReach, numbers_from};

use crate::directory::Directory;
use std::alloc::Global;
use wd_base::{BindValue, Kind, NoMemory, Seq, Service, ServiceNo, WorkerDef};

/// The services that a walk has met: a mark at the number of each, and their numbers in the order
/// in which they were met.
#[derive(Debug, Drop)]
pub(crate) struct Walk {
    marks: Seq<bool>,
    order: Seq<u32>,
}

/// Marks at the services that the service `from` reaches. Each of them is visited once.
pub(crate) fn marks_from(
    alloc: Global,
    directory: &Directory,
    from: u32,
) -> Result<Seq<bool>, NoMemory>
    requires within { from < length directory.now }
    requires few { length directory.now < 2 ^ 32 }
    requires differ { IsTrue (names_differ directory.now) }
    ensures { IfOk result (λ marks. MarkReach directory.now from marks) }
{
    let marks = vec![in alloc; false; directory.services().len()]?;
    let mut walk = Walk {
        marks: Seq::from_vec(marks),
        order: Seq::new(alloc),
    };
    meet(&mut walk, from)?;
    let mut at = 0;
    while at < walk.order.len() {
        let by = walk.order.as_slice()[at];
        visit(directory, by, &mut walk)?;
        at += 1;
    }
    Ok(walk.marks)
}

/// Meets what the service `by` can fetch from.
fn visit(directory: &Directory, by: u32, walk: &mut Walk) -> Result<(), NoMemory>
    ensures { OnOk result (walk.new ≡ visited directory.now by walk.old) }
{
    match directory.services().get(by as usize) {
        Some(service) => visit_service(directory, service, walk),
        None => Ok(()),
    }
}

/// Meets what a service can fetch from.
fn visit_service(directory: &Directory, service: &Service, walk: &mut Walk) -> Result<(), NoMemory>
    ensures { OnOk result (walk.new ≡ met_names directory.now walk.old (targets_in (worker_in service.now.kind))) }
{
    match &service.kind {
        Kind::Worker(worker) => visit_worker(directory, worker, walk),
        _ => Ok(()),
    }
}

/// Meets what a Worker can fetch from.
fn visit_worker(directory: &Directory, worker: &WorkerDef, walk: &mut Walk) -> Result<(), NoMemory>
    ensures { OnOk result (walk.new ≡ met_names directory.now walk.old (targets worker.now)) }
{
    for binding in worker.bindings.as_slice() {
        if let BindValue::Service(name) = &binding.value {
            meet_name(directory, name.as_slice(), walk)?;
        }
    }
    meet_name(directory, worker.outbound.as_slice(), walk)
}

/// Meets the service of this name.
fn meet_name(directory: &Directory, name: &[u8], walk: &mut Walk) -> Result<(), NoMemory>
    ensures { OnOk result (walk.new ≡ met_name directory.now walk.old name.now) }
{
    match directory.number(name) {
        Some(number) => meet(walk, number),
        None => Ok(()),
    }
}

/// Marks a service that was not met before.
fn meet(walk: &mut Walk, number: u32) -> Result<(), NoMemory>
    ensures { OnOk result (walk.new ≡ met walk.old number) }
{
    match walk.marks.get(number as usize) {
        Some(false) => {
            walk.marks.set(number as usize, true);
            walk.order.push(number)
        }
        _ => Ok(()),
    }
}

/// The numbers at which there are marks.
pub(crate) fn numbers_of(alloc: Global, marks: &[bool]) -> Result<Seq<ServiceNo>, NoMemory>
    requires { length marks.now < 2 ^ 32 }
    ensures { IfOk result (λ numbers. numbers ≡ numbers_from 0 marks.now) }
{
    let mut numbers = Seq::new(alloc);
    for (number, mark) in marks.iter().enumerate() {
        if *mark {
            numbers.push(ServiceNo(number as u32))?;
        }
    }
    Ok(numbers)
}
