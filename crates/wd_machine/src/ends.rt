ghost use Rattle.std.specs.Prelude.{◌≡◌, ◌-◌, ◌++◌, if◌then◌else◌, [], filter, map, not, IfOk, OnOk};
ghost use Rattle.wd_machine.specs.Ends.{failure, is_settled, is_idle, ends, is_hung, whole_out, without, left_live, freed_by};
ghost use Rattle.wd_machine.specs.Meaning.{has_obj, spent};
ghost use Rattle.wd_machine.specs.Steps.{kept_objects, flight_of, TurnsRow};

use crate::state::{Flight, Pending, RequestState};
use crate::turn::Out;
use std::alloc::Global;
use std::mem;
use wd_base::{NoMemory, Obj, Objects, Objs, OpStart, Reply, Seq, TryClone, Why};

/// What a turn that has ended did: the `Out` of its entry, what it freed, and whether its request
/// has ended.
#[derive(Debug, Drop)]
pub struct Done {
    pub out: Out,
    pub freed: Objs,
    pub ended: bool,
}

/// The reply of a request that its script gave none: 500, with a text (RFC 9110, section 15.6.1).
pub fn failure(alloc: Global, why: Why) -> Result<Reply, NoMemory>
    ensures { IfOk result (λ reply. reply ≡ failure why) }
{
    let name = Seq::copy(alloc, b"content-type")?;
    let value = Seq::copy(alloc, b"text/plain;charset=UTF-8")?;
    let body = Seq::copy(alloc, b"Internal Server Error")?;
    let mut fields = Seq::new(alloc);
    fields.push((name, value))?;
    Ok(Reply {
        status: 500,
        fields,
        body,
        why,
    })
}

/// The request has replied, or its caller is gone.
fn is_settled(row: &RequestState, out: &Out) -> bool
    ensures { result ≡ is_settled row.now out.now }
{
    row.replied || out.reply.is_some() || row.detached
}

/// Nothing is left that could go on with the request; `waiting` tells whether it waits for a turn.
fn is_idle(row: &RequestState, waiting: bool, out: &Out) -> bool
    ensures { result ≡ is_idle row.now waiting out.now }
{
    row.flights.len() == 0 && out.ops.len() == 0 && !waiting
}

/// The turn ends its request.
fn ends(row: &RequestState, waiting: bool, out: &Out) -> bool
    ensures { result ≡ ends row.now waiting out.now }
{
    out.condemned || (out.waits == 0 && is_settled(row, out)) || is_idle(row, waiting, out)
}

/// Nothing is left of the request, and it has no reply.
pub fn is_hung(row: &RequestState, waiting: bool, out: &Out) -> bool
    ensures { result ≡ is_hung row.now waiting out.now }
{
    is_idle(row, waiting, out) && !is_settled(row, out)
}

/// The `Out` of the turn's entry, with the reply that a hung request gets.
fn whole_out(alloc: Global, row: &RequestState, waiting: bool, out: Out) -> Result<Out, NoMemory>
    ensures { IfOk result (λ whole. whole ≡ whole_out row.now waiting out) }
{
    if !is_hung(row, waiting, &out) {
        return Ok(out);
    }
    let mut out = out;
    out.reply = Some(failure(alloc, Why::Hung)?);
    Ok(out)
}

/// An object is among these.
fn has(objs: &[Obj], number: u32) -> bool
    ensures { result ≡ has_obj objs.now number }
{
    objs.iter().any(|o| o.0 == number)
}

/// The objects that are left when these are freed.
fn left_live(alloc: Global, live: &[Obj], made: &[Obj], freed: &[Obj]) -> Result<Objs, NoMemory>
    ensures { IfOk result (λ left. left ≡ without freed.now (live.now ++ made.now)) }
{
    let left = live
        .iter()
        .chain(made.iter())
        .copied()
        .filter(|o| !has(freed, o.0))
        .collect(alloc)?;
    Ok(Seq::from_vec(left))
}

/// What the turn frees: what it says, and where the request ends all that are left.
fn freed_by(alloc: Global, freed: &[Obj], left: &[Obj], ended: bool) -> Result<Objs, NoMemory>
    ensures { IfOk result (λ all. all ≡ freed.now ++ (if ended then left.now else [])) }
{
    let mut all = Seq::copy(alloc, freed)?;
    if ended {
        all.extend(left)?;
    }
    Ok(all)
}

/// The objects that are left, with what they hold.
fn keep_objects(objects: Objects, freed: &[Obj]) -> Objects
    ensures { result ≡ kept_objects freed.now objects }
{
    let mut kept = objects.into_vec();
    kept.retain(|o| !has(freed, o.obj.0));
    Seq::from_vec(kept)
}

/// What the operations leave of a budget.
fn left_after(left: u32, ops: &[OpStart]) -> u32
    ensures { result ≡ left - spent ops.now }
{
    let mut rest = left;
    for op in ops {
        rest = rest.saturating_sub(1).saturating_sub(op.allow);
    }
    rest
}

/// The operations in flight, with those that have started now behind them.
fn with_started(
    alloc: Global,
    flights: Seq<Flight>,
    ops: &[OpStart],
) -> Result<Seq<Flight>, NoMemory>
    ensures { IfOk result (λ all. all ≡ flights ++ map flight_of ops.now) }
{
    let mut all = flights;
    for op in ops {
        let target = op.target.try_clone(alloc)?;
        let flight = Flight { op: op.op, target };
        all.push(flight)?;
    }
    Ok(all)
}

/// The items, and none of them where the request has ended.
fn unless_ended<T: Drop>(alloc: Global, ended: bool, items: Seq<T>) -> Seq<T>
    ensures { result ≡ (if ended then [] else items) }
{
    if ended { Seq::new(alloc) } else { items }
}

/// Ends the pending turn of a row, if there is one.
pub fn end_turn(
    alloc: Global,
    row: &mut RequestState,
    waiting: bool,
) -> Result<Option<Done>, NoMemory>
    ensures { IfOk result (λ done. TurnsRow row.old row.new waiting row.old.pending done) }
{
    let Some(pending) = row.pending.take() else {
        return Ok(None);
    };
    let Pending { objects, out } = pending;
    let ended = ends(row, waiting, &out);
    let out = whole_out(alloc, row, waiting, out)?;
    let freed = out.freed.as_slice();
    let live = left_live(alloc, row.live.as_slice(), out.made.as_slice(), freed)?;
    let gone = freed_by(alloc, freed, live.as_slice(), ended)?;
    let objects = keep_objects(objects, freed);
    let flights = mem::replace(&mut row.flights, Seq::new(alloc));
    row.flights = unless_ended(
        alloc,
        ended,
        with_started(alloc, flights, out.ops.as_slice())?,
    );
    row.left = left_after(row.left, out.ops.as_slice());
    row.live = unless_ended(alloc, ended, live);
    row.objects = unless_ended(alloc, ended, objects);
    row.replied = row.replied || out.reply.is_some();
    row.waits = out.waits;
    row.ended = ended;
    Ok(Some(Done {
        out,
        freed: gone,
        ended,
    }))
}
