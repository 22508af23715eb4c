ghost use Rattle.std.specs.Prelude.{◌≡◌, ◌∷◌, [], IfOk};
ghost use Rattle.wd_machine.specs.Quiet.{quiet_out};
ghost use Rattle.wd_sample.specs.Turns.{hi};

use std::alloc::Global;
use wd_base::{NameList, NoMemory, Objects, Reply, Req, Seq, Wake, Why, WorkerDef};
use wd_machine::{Isolate, Out, add_new_objects, is_dead_wake};

/// An isolate that answers each start with `hi`, and lets both objects of it go at once.
#[derive(Debug, Drop)]
pub struct Sample {
    pub worker: WorkerDef,
    /// The names of the Workers among the Worker's targets.
    pub workers: NameList,
    pub generation: u64,
}

impl Isolate for Sample {
    ghost use Rattle.wd_sample.specs.Turns.{sample_means, sample_lawful};

    ghost means = { sample_means };

    ghost lawful = { sample_lawful };

    fn turn(
        &mut self,
        alloc: Global,
        generation: u64,
        _req: Req,
        _allow: u32,
        wake: &Wake,
        objects: &mut Objects,
    ) -> Result<Out, NoMemory> {
        if generation < self.generation || is_dead_wake(wake) {
            return Ok(Out::nothing(alloc));
        }
        let out = wake_out(alloc, wake)?;
        add_new_objects(alloc, wake, objects)?;
        self.generation = generation;
        Ok(out)
    }
}

/// What a turn does at a wake.
fn wake_out(alloc: Global, wake: &Wake) -> Result<Out, NoMemory>
    ensures { IfOk result (λ out. out ≡ quiet_out hi 1 wake.now) }
{
    match wake {
        Wake::Start(_) => Out::answered(alloc, hi(alloc)?, 1),
        _ => Ok(Out::nothing(alloc)),
    }
}

/// The reply to each request: 200 with the body `hi`.
fn hi(alloc: Global) -> Result<Reply, NoMemory>
    ensures { IfOk result (λ reply. reply ≡ hi) }
{
    let body = Seq::copy(alloc, b"hi")?;
    Ok(Reply {
        status: 200,
        fields: Seq::new(alloc),
        body,
        why: Why::Plain,
    })
}
