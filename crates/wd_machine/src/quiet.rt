ghost use Rattle.std.specs.Prelude.{◌≡◌, ◌∷◌, ◌++◌, [], IfOk, OnOk, OnErr};
ghost use Rattle.wd_base.specs.declared.objects.ObjKind.TheVariants.{Request, Ctx};
ghost use Rattle.wd_machine.specs.Meaning.{is_dead_wake, links_of, nothing_done};
ghost use Rattle.wd_machine.specs.Quiet.{answered, both, new_object, new_objects};

use crate::turn::Out;
use std::alloc::Global;
use wd_base::{
    IoObject, NoMemory, Obj, ObjKind, Objects, Objs, Reply, ReqData, Seq, TryClone, Wake,
};

/// Whether a wake is that of a request whose generation is over.
pub fn is_dead_wake(wake: &Wake) -> bool
    ensures { result ≡ is_dead_wake wake.now }
{
    match wake {
        Wake::Dead => true,
        _ => false,
    }
}

impl Out {
    /// What a turn does that does nothing.
    pub fn nothing(alloc: Global) -> Out
        ensures { result ≡ nothing_done }
    {
        Out {
            made: Seq::new(alloc),
            changed: Seq::new(alloc),
            freed: Seq::new(alloc),
            uses: Seq::new(alloc),
            stray: Seq::new(alloc),
            ops: Seq::new(alloc),
            reply: None,
            waits: 0,
            cross: Seq::new(alloc),
            released: Seq::new(alloc),
            condemned: false,
            heavy: false,
            logs: Seq::new(alloc),
            steps: 0,
        }
    }

    /// What the turn of a start does that answers at once: it makes both objects of the start and
    /// frees them.
    pub fn answered(alloc: Global, reply: Reply, steps: u32) -> Result<Out, NoMemory>
        ensures { IfOk result (λ out. out ≡ answered reply steps) }
    {
        let mut out = Out::nothing(alloc);
        out.made = both(alloc)?;
        out.freed = both(alloc)?;
        out.reply = Some(reply);
        out.steps = steps;
        Ok(out)
    }
}

/// The numbers of a start's objects.
fn both(alloc: Global) -> Result<Objs, NoMemory>
    ensures { IfOk result (λ objs. objs ≡ both) }
{
    let mut objs = Seq::new(alloc);
    objs.push(Obj(0))?;
    objs.push(Obj(1))?;
    Ok(objs)
}

/// An object with nothing read and no link.
fn new_object(number: u32, kind: ObjKind) -> IoObject
    ensures { result ≡ new_object number kind }
{
    IoObject {
        obj: Obj(number),
        kind,
        read: false,
        link: None,
    }
}

/// Adds the objects that a wake makes behind the others: those of a start, the request and its
/// context. Each object keeps its link, also after `NoMemory`.
pub fn add_new_objects(alloc: Global, wake: &Wake, objects: &mut Objects) -> Result<(), NoMemory>
    ensures ok { OnOk result (objects.new ≡ objects.old ++ new_objects wake.now) }
    ensures err { OnErr result (links_of objects.new ≡ links_of objects.old) }
{
    match wake {
        Wake::Start(request) => add_start(alloc, request, objects),
        _ => Ok(()),
    }
}

/// Adds the objects of a start.
#[tactic(auto, using(crate::specs::Quiet::links_push_one))]
fn add_start(alloc: Global, request: &ReqData, objects: &mut Objects) -> Result<(), NoMemory>
    ensures ok { OnOk result (objects.new ≡ objects.old ++ new_object 0 (Request request.now) ∷ new_object 1 Ctx ∷ []) }
    ensures err { OnErr result (links_of objects.new ≡ links_of objects.old) }
{
    let request = request.try_clone(alloc)?;
    objects.push(new_object(0, ObjKind::Request(request)))?;
    objects.push(new_object(1, ObjKind::Ctx))
}
