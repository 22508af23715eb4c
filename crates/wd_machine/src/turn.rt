use std::alloc::Global;
use wd_base::{Crosses, Lines, NoMemory, ObjNames, Objs, OpStarts, Reply, Same, TryClone};

/// What a turn of a request did. Lists of objects are ascending and without repeats.
#[derive(Debug, Drop)]
pub struct Out {
    /// The objects that the turn made.
    pub made: Objs,
    /// The request's objects that the turn changed: a reply came in, or a body was read.
    pub changed: Objs,
    /// The request's objects that nothing holds any longer.
    pub freed: Objs,
    /// The request's objects that the script used.
    pub uses: Objs,
    /// Objects of other requests that the script tried to use; each such use threw.
    pub stray: ObjNames,
    /// The operations that were started, in order.
    pub ops: OpStarts,
    /// The reply, where the turn gave one.
    pub reply: Option<Reply>,
    /// How many promises the request's `waitUntil` still waits for.
    pub waits: u32,
    /// Jobs of other requests that became ready, each kept under its number.
    pub cross: Crosses,
    /// Objects of other requests that nothing holds any longer.
    pub released: ObjNames,
    /// The turn passed a limit: its heap is given up, and the request ends.
    pub condemned: bool,
    /// The heap has become so large that the next request begins a new one.
    pub heavy: bool,
    /// The lines that the script wrote to its log.
    pub logs: Lines,
    /// How many steps were made.
    pub steps: u32,
}

/// A field of `Out`, in the order in which two of them are compared.
#[derive(Clone, Copy, Debug, PartialEq, Eq)]
pub enum OutField {
    Made,
    Changed,
    Freed,
    Uses,
    Stray,
    Ops,
    Reply,
    Waits,
    Cross,
    Released,
    Condemned,
    Heavy,
    Logs,
    Steps,
}

impl TryClone for Out {
    fn try_clone(&self, alloc: Global) -> Result<Out, NoMemory> {
        let made = self.made.try_clone(alloc)?;
        let changed = self.changed.try_clone(alloc)?;
        let freed = self.freed.try_clone(alloc)?;
        let uses = self.uses.try_clone(alloc)?;
        let stray = self.stray.try_clone(alloc)?;
        let ops = self.ops.try_clone(alloc)?;
        let reply = self.reply.try_clone(alloc)?;
        let cross = self.cross.try_clone(alloc)?;
        let released = self.released.try_clone(alloc)?;
        let logs = self.logs.try_clone(alloc)?;
        Ok(Out {
            made,
            changed,
            freed,
            uses,
            stray,
            ops,
            reply,
            waits: self.waits,
            cross,
            released,
            condemned: self.condemned,
            heavy: self.heavy,
            logs,
            steps: self.steps,
        })
    }
}

impl Same for Out {
    fn same(&self, other: &Out) -> bool {
        self.made.same(&other.made)
            && self.changed.same(&other.changed)
            && self.freed.same(&other.freed)
            && self.uses.same(&other.uses)
            && self.stray.same(&other.stray)
            && self.ops.same(&other.ops)
            && self.reply.same(&other.reply)
            && self.waits == other.waits
            && self.cross.same(&other.cross)
            && self.released.same(&other.released)
            && self.condemned == other.condemned
            && self.heavy == other.heavy
            && self.logs.same(&other.logs)
            && self.steps == other.steps
    }
}
