ghost use Rattle.std.specs.Prelude.{◌≡◌, ◌∷◌, [], IfOk};
ghost use Rattle.wd_machine.specs.Quiet.{quiet_out};
ghost use Rattle.wd_plan.specs.Constant.{text_reply};

use std::alloc::Global;
use wd_base::{
    Bytes, NameList, NoMemory, Objects, Reply, Req, Seq, TryClone, Wake, Why, WorkerDef,
};
use wd_machine::{Isolate, Out, add_new_objects, is_dead_wake};

/// The isolate of a Worker whose script answers each request with one text.
#[derive(Debug, Drop)]
pub struct Constant {
    pub worker: WorkerDef,
    /// The names of the Workers among the Worker's targets.
    pub workers: NameList,
    /// The text that the script answers, in UTF-8.
    pub text: Bytes,
    /// The generation of its heap, counted from 0.
    pub generation: u64,
}

impl Isolate for Constant {
    ghost use Rattle.wd_plan.specs.Constant.{constant_means, constant_lawful};

    ghost means = { constant_means };

    ghost lawful = { constant_lawful };

    fn turn(
        &mut self,
        alloc: Global,
        generation: u64,
        _req: Req,
        _allow: u32,
        wake: &Wake,
        objects: &mut Objects,
    ) -> Result<Out, NoMemory> {
        if generation < self.generation || is_dead_wake(wake) {
            return Ok(Out::nothing(alloc));
        }
        let out = wake_out(alloc, &self.text, wake)?;
        add_new_objects(alloc, wake, objects)?;
        self.generation = generation;
        Ok(out)
    }
}

/// What a turn does at a wake, where the script answers the text.
fn wake_out(alloc: Global, text: &Bytes, wake: &Wake) -> Result<Out, NoMemory>
    ensures { IfOk result (λ out. out ≡ quiet_out (text_reply text.now) 4 wake.now) }
{
    match wake {
        Wake::Start(_) => Out::answered(alloc, text_reply(alloc, text)?, 4),
        _ => Ok(Out::nothing(alloc)),
    }
}

/// The reply of a script: 200 with a text.
fn text_reply(alloc: Global, text: &Bytes) -> Result<Reply, NoMemory>
    ensures { IfOk result (λ reply. reply ≡ text_reply text.now) }
{
    let name = Seq::copy(alloc, b"content-type")?;
    let value = Seq::copy(alloc, b"text/plain;charset=UTF-8")?;
    let mut fields = Seq::new(alloc);
    fields.push((name, value))?;
    let body = text.try_clone(alloc)?;
    Ok(Reply {
        status: 200,
        fields,
        body,
        why: Why::Plain,
    })
}
