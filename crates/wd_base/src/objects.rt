use crate::exact::{Same, TryClone};
use crate::http::{Bytes, Reply, ReqData};
use crate::ids::{JobNo, LinkNo, NoMemory, Obj, Op, Req};
use crate::seq::Seq;
use std::alloc::Global;

/// What an I/O object stands for: the request itself, its context, or the answer to one of its
/// operations, once there is one.
#[derive(Debug, Drop)]
pub enum ObjKind {
    Request(ReqData),
    Ctx,
    Call(Option<Reply>),
}

/// An I/O object of a request. `read` tells that its body was read, and `link` is the link that it
/// holds open, where it does.
#[derive(Debug, Drop)]
pub struct IoObject {
    pub obj: Obj,
    pub kind: ObjKind,
    pub read: bool,
    pub link: Option<LinkNo>,
}

/// The name of an I/O object over all requests. Names are never used again.
#[derive(Clone, Copy, Debug, PartialEq, Eq, PartialOrd, Ord)]
pub struct ObjName {
    pub req: Req,
    pub obj: Obj,
}

/// How an operation ended: with a reply; without one, by a fault of the outside; refused by the
/// rules of the target; with bytes that are no reply; or with a reply that passes the limits.
#[derive(Debug, Drop)]
pub enum OpResult {
    Reply(Reply),
    Lost,
    Denied,
    Bad,
    Large,
}

/// What a turn of a request takes up: its start, the end of one of its operations, a job of it
/// that another request's turn left, or the end of its isolate's generation.
#[derive(Debug, Drop)]
pub enum Wake {
    Start(ReqData),
    Done(Op, OpResult),
    Cross(JobNo),
    Dead,
}

/// An operation that a turn started: its target's name, the request that is sent, and how many
/// subrequests the target may make in turn.
#[derive(Debug, Drop)]
pub struct OpStart {
    pub op: Op,
    pub target: Bytes,
    pub request: ReqData,
    pub allow: u32,
}

/// Where a request came from: a link from outside, an operation of another request, or a caller
/// that the journal does not show.
#[derive(Clone, Copy, Debug, PartialEq, Eq)]
pub enum Origin {
    Outside(LinkNo),
    Child(Req, Op),
    Caller,
}

/// Numbers of objects of one request.
pub type Objs = Seq<Obj>;

/// Names of objects.
pub type ObjNames = Seq<ObjName>;

/// Names of objects that are due to be freed by their own seat.
pub type Notes = Seq<ObjName>;

/// The objects of a request.
pub type Objects = Seq<IoObject>;

/// The operations that a turn started, in order.
pub type OpStarts = Seq<OpStart>;

/// Jobs that were kept for other requests, each with its request.
pub type Crosses = Seq<(Req, JobNo)>;

impl TryClone for ObjKind {
    fn try_clone(&self, alloc: Global) -> Result<ObjKind, NoMemory> {
        match self {
            ObjKind::Request(request) => Ok(ObjKind::Request(request.try_clone(alloc)?)),
            ObjKind::Ctx => Ok(ObjKind::Ctx),
            ObjKind::Call(reply) => Ok(ObjKind::Call(reply.try_clone(alloc)?)),
        }
    }
}

impl Same for ObjKind {
    fn same(&self, other: &ObjKind) -> bool {
        match (self, other) {
            (ObjKind::Request(a), ObjKind::Request(b)) => a.same(b),
            (ObjKind::Ctx, ObjKind::Ctx) => true,
            (ObjKind::Call(a), ObjKind::Call(b)) => a.same(b),
            _ => false,
        }
    }
}

impl TryClone for IoObject {
    fn try_clone(&self, alloc: Global) -> Result<IoObject, NoMemory> {
        let kind = self.kind.try_clone(alloc)?;
        Ok(IoObject {
            obj: self.obj,
            kind,
            read: self.read,
            link: self.link,
        })
    }
}

impl Same for IoObject {
    fn same(&self, other: &IoObject) -> bool {
        self.obj.same(&other.obj)
            && self.kind.same(&other.kind)
            && self.read == other.read
            && self.link.same(&other.link)
    }
}

impl TryClone for ObjName {
    fn try_clone(&self, _alloc: Global) -> Result<ObjName, NoMemory> {
        Ok(*self)
    }
}

impl Same for ObjName {
    fn same(&self, other: &ObjName) -> bool {
        self.req.same(&other.req) && self.obj.same(&other.obj)
    }
}

impl TryClone for OpResult {
    fn try_clone(&self, alloc: Global) -> Result<OpResult, NoMemory> {
        match self {
            OpResult::Reply(reply) => Ok(OpResult::Reply(reply.try_clone(alloc)?)),
            OpResult::Lost => Ok(OpResult::Lost),
            OpResult::Denied => Ok(OpResult::Denied),
            OpResult::Bad => Ok(OpResult::Bad),
            OpResult::Large => Ok(OpResult::Large),
        }
    }
}

impl Same for OpResult {
    fn same(&self, other: &OpResult) -> bool {
        match (self, other) {
            (OpResult::Reply(a), OpResult::Reply(b)) => a.same(b),
            (OpResult::Lost, OpResult::Lost) => true,
            (OpResult::Denied, OpResult::Denied) => true,
            (OpResult::Bad, OpResult::Bad) => true,
            (OpResult::Large, OpResult::Large) => true,
            _ => false,
        }
    }
}

impl TryClone for Wake {
    fn try_clone(&self, alloc: Global) -> Result<Wake, NoMemory> {
        match self {
            Wake::Start(request) => Ok(Wake::Start(request.try_clone(alloc)?)),
            Wake::Done(op, result) => Ok(Wake::Done(*op, result.try_clone(alloc)?)),
            Wake::Cross(job) => Ok(Wake::Cross(*job)),
            Wake::Dead => Ok(Wake::Dead),
        }
    }
}

impl Same for Wake {
    fn same(&self, other: &Wake) -> bool {
        match (self, other) {
            (Wake::Start(a), Wake::Start(b)) => a.same(b),
            (Wake::Done(op_a, a), Wake::Done(op_b, b)) => op_a.same(op_b) && a.same(b),
            (Wake::Cross(a), Wake::Cross(b)) => a.same(b),
            (Wake::Dead, Wake::Dead) => true,
            _ => false,
        }
    }
}

impl TryClone for OpStart {
    fn try_clone(&self, alloc: Global) -> Result<OpStart, NoMemory> {
        let target = self.target.try_clone(alloc)?;
        let request = self.request.try_clone(alloc)?;
        Ok(OpStart {
            op: self.op,
            target,
            request,
            allow: self.allow,
        })
    }
}

impl Same for OpStart {
    fn same(&self, other: &OpStart) -> bool {
        self.op.same(&other.op)
            && self.target.same(&other.target)
            && self.request.same(&other.request)
            && self.allow == other.allow
    }
}

impl TryClone for Origin {
    fn try_clone(&self, _alloc: Global) -> Result<Origin, NoMemory> {
        Ok(*self)
    }
}

impl Same for Origin {
    fn same(&self, other: &Origin) -> bool {
        match (self, other) {
            (Origin::Outside(a), Origin::Outside(b)) => a.same(b),
            (Origin::Child(req_a, op_a), Origin::Child(req_b, op_b)) => {
                req_a.same(req_b) && op_a.same(op_b)
            }
            (Origin::Caller, Origin::Caller) => true,
            _ => false,
        }
    }
}
