use crate::hello::hello_core;
use std::alloc::Global;
use wd_base::{LinkNo, NoMemory, Obj, Objs, Origin, Reply, Req, ReqData, Seat, Seq, Why};
use wd_machine::{ApplyEnd, Entry, Kept, Out, OutField};

fn arrive(
    alloc: Global,
    seat: u32,
    req: u64,
    service: &[u8],
    allow: u32,
) -> Result<Entry, NoMemory> {
    let request = ReqData {
        method: Seq::copy(alloc, b"GET")?,
        url: Seq::copy(alloc, b"http://hello/")?,
        fields: Seq::new(alloc),
        body: None,
    };
    Ok(Entry::Arrive {
        seat: Seat(seat),
        req: Req(req),
        service: Seq::copy(alloc, service)?,
        origin: Origin::Outside(LinkNo(1)),
        allow,
        request,
    })
}

fn both(alloc: Global) -> Result<Objs, NoMemory> {
    Seq::copy(alloc, &[Obj(0), Obj(1)])
}

fn turn(alloc: Global, req: u64, steps: u32) -> Result<Entry, NoMemory> {
    let reply = Reply {
        status: 200,
        fields: Seq::new(alloc),
        body: Seq::copy(alloc, b"hi")?,
        why: Why::Plain,
    };
    let out = Out {
        made: both(alloc)?,
        changed: Seq::new(alloc),
        freed: both(alloc)?,
        uses: Seq::new(alloc),
        stray: Seq::new(alloc),
        ops: Seq::new(alloc),
        reply: Some(reply),
        waits: 0,
        cross: Seq::new(alloc),
        released: Seq::new(alloc),
        condemned: false,
        heavy: false,
        logs: Seq::new(alloc),
        steps,
    };
    Ok(Entry::Turn {
        seat: Seat(0),
        req: Req(req),
        out,
    })
}

fn begin(seat: u32, req: u64) -> Entry {
    Entry::Begin {
        seat: Seat(seat),
        req: Req(req),
    }
}

/// The rule that was broken with the number that was kept; 0 stands for an entry that was taken.
fn refusal(answer: Result<(), ApplyEnd>) -> (u8, u64) {
    match answer {
        Ok(()) => (0, 0),
        Err(ApplyEnd::NoMemory) => (255, 0),
        Err(ApplyEnd::Refused(refused)) => (refused.rule, number(&refused.kept)),
    }
}

/// A number that was kept, the length of a name, or 77 for the field `steps`.
fn number(kept: &Kept) -> u64 {
    match kept {
        Kept::Number(number) => *number,
        Kept::Name(name) => name.len() as u64,
        Kept::Field(OutField::Steps) => 77,
        _ => 99,
    }
}

/// An entry to apply.
#[derive(Drop)]
enum Step<'a> {
    Arrive {
        seat: u32,
        req: u64,
        service: &'a [u8],
        allow: u32,
    },
    Begin {
        seat: u32,
        req: u64,
    },
    Turn {
        req: u64,
        steps: u32,
    },
}

fn entry_of(alloc: Global, step: &Step<'_>) -> Result<Entry, NoMemory> {
    match step {
        Step::Arrive {
            seat,
            req,
            service,
            allow,
        } => arrive(alloc, *seat, *req, service, *allow),
        Step::Begin { seat, req } => Ok(begin(*seat, *req)),
        Step::Turn { req, steps } => turn(alloc, *req, *steps),
    }
}

/// Whether each step in turn came to what stands beside it.
fn came_so(alloc: Global, steps: &[(Step<'_>, u8, u64)]) -> Result<bool, NoMemory> {
    let mut core = hello_core(alloc)?;
    for (step, rule, kept) in steps {
        let entry = entry_of(alloc, step)?;
        let (broken, number) = refusal(core.apply(&entry));
        if broken != *rule || number != *kept {
            return Ok(false);
        }
    }
    Ok(true)
}

fn arrival(seat: u32, req: u64, service: &[u8], allow: u32) -> Step<'_> {
    Step::Arrive {
        seat,
        req,
        service,
        allow,
    }
}

#[test]
fn arrivals(rt: HostRuntime) -> Result<(), NoMemory> {
    let steps = [
        (arrival(63, 1, b"hello", 1000), 0, 0),
        (arrival(64, 2, b"hello", 1000), 1, 64),
        (arrival(0, 0, b"hello", 1000), 3, 0),
        (arrival(0, 1, b"hello", 1000), 3, 1),
        (arrival(0, 2, b"hallo!", 1000), 4, 6),
        (arrival(0, 2, b"internet", 1000), 5, 8),
        (arrival(0, 2, b"hello", 999), 6, 1000),
    ];
    assert!(&rt; came_so(rt.alloc(), &steps)?);
    Ok(())
}

#[test]
fn turns(rt: HostRuntime) -> Result<(), NoMemory> {
    let steps = [
        (arrival(0, 1, b"hello", 1000), 0, 0),
        (arrival(0, 2, b"hello", 1000), 0, 0),
        (Step::Begin { seat: 0, req: 3 }, 9, 3),
        (Step::Begin { seat: 1, req: 1 }, 9, 1),
        (Step::Begin { seat: 0, req: 2 }, 10, 1),
        (Step::Begin { seat: 0, req: 1 }, 0, 0),
        (Step::Begin { seat: 0, req: 2 }, 11, 1),
        (Step::Turn { req: 2, steps: 1 }, 14, 1),
        (Step::Turn { req: 1, steps: 2 }, 15, 77),
        (Step::Turn { req: 1, steps: 1 }, 0, 0),
        (Step::Begin { seat: 0, req: 1 }, 9, 1),
        (Step::Begin { seat: 0, req: 2 }, 0, 0),
    ];
    assert!(&rt; came_so(rt.alloc(), &steps)?);
    Ok(())
}
