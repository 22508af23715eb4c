ghost use Rattle.std.specs.Prelude.{◌≡◌, ◌≢◌, ℕ, ◌+◌, ◌≤◌, [], Some, IfOk, IfSome, IsErrOf, IsTrue, ◌↔◌};
ghost use Rattle.wd_base.specs.declared.ids.Seat.{Seat};
ghost use Rattle.wd_ports.specs.Faults.{CountsFault, no_faults};
ghost use Rattle.wd_ports.specs.MemFiles.{is_failing, next_call};
ghost use Rattle.wd_ports.specs.MemPort.{empty_plan, mem_faults, mem_told, new_unseen, plan_at, planned_files, planned_told, unseen};
ghost use Rattle.wd_ports.specs.Schedule.{IsPlanned};
ghost use Rattle.wd_ports.specs.Told.{IsNewPort};

use crate::maker::Maker;
use crate::mem_files::{MemFiles, fails_now};
use crate::mem_port::MemPort;
use crate::plan::{Plans, PortPlan};
use crate::port::{Files, Port};
use crate::told::Failed;
use std::alloc::Global;
use wd_base::{NoMemory, Numbers, Seat, Seq, TryClone};

/// A maker of ports in memory. The port of a seat is made of its plan, and that of a seat without
/// a plan of an empty one. Calls are numbered from 0, and one whose number stands in `fail` fails.
#[derive(Debug, Drop)]
pub struct MemMaker {
    pub plans: Plans,
    pub fail: Numbers,
    /// How many calls there were.
    pub calls: u64,
    /// How many of them failed.
    pub faults: u64,
}

/// The plan by which nothing happens. It takes no memory.
fn no_plan(alloc: Global) -> PortPlan
    ensures { result ≡ empty_plan }
{
    PortPlan {
        events: Seq::new(alloc),
        hosts: Seq::new(alloc),
        peers: Seq::new(alloc),
        files: MemFiles::new(alloc),
        fail: Seq::new(alloc),
    }
}

/// A copy of the plan of a seat.
fn plan_of(alloc: Global, plans: &Plans, seat: Seat) -> Result<PortPlan, NoMemory>
    ensures { IfOk result (λ plan. plan ≡ plan_at plans.now seat) }
{
    match plans.get(seat.0 as usize) {
        Some(plan) => plan.try_clone(alloc),
        None => Ok(no_plan(alloc)),
    }
}

impl Maker for MemMaker {
    type Port = MemPort;

    ghost plan = { λ m seat. Some (planned_told (plan_at m.plans seat)) };

    ghost failures = { λ m. m.faults };

    fn port(&mut self, alloc: Global, seat: Seat) -> Result<MemPort, Failed>
        ensures fails { IsErrOf result Failed.Fault ↔ IsTrue (is_failing self.old.fail self.old.calls) }
        ensures rest { self.new ≡ record self.old { calls = next_call self.old.calls; faults = self.new.faults } }
        ensures events { IfOk result (λ p. IsPlanned (plan_at self.old.plans seat).events p.schedule) }
        ensures unseen { IfOk result (λ p. unseen p ≡ new_unseen (plan_at self.old.plans seat) p.schedule) }
        ensures files { IfOk result (λ p. p.files ≡ planned_files (plan_at self.old.plans seat)) }
        ensures planned { IfOk result (λ p. mem_told p ≡ planned_told (plan_at self.old.plans seat)) }
        ensures fresh { IfOk result (λ p. IsNewPort (mem_told p)) }
        ensures none { IfOk result (λ p. mem_faults p ≡ no_faults) }
        ensures others { (s : Seat) → s.0 ≢ seat.0 → plan_at self.new.plans s ≡ plan_at self.old.plans s }
        ensures blames { CountsFault self.old.faults self.new.faults result }
        ensures memory { IsErrOf result Failed.NoMemory → plan_at self.new.plans seat ≡ plan_at self.old.plans seat }
    {
        if fails_now(&self.fail, &mut self.calls) {
            self.faults = self.faults.saturating_add(1);
            return Err(Failed::Fault);
        }
        let plan = plan_of(alloc, &self.plans, seat)?;
        Ok(MemPort::new(alloc, plan)?)
    }
}
