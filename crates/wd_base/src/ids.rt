use crate::exact::{Same, TryClone};
use crate::seq::Seq;
use std::alloc::{AllocError, Global};

/// The number of a request. Requests are numbered from 1 in the order of their arrival.
#[derive(Clone, Copy, Debug, PartialEq, Eq, PartialOrd, Ord)]
pub struct Req(pub u64);

/// The number of an operation (a fetch and the like), counted from 0 within its request.
#[derive(Clone, Copy, Debug, PartialEq, Eq, PartialOrd, Ord)]
pub struct Op(pub u32);

/// The number of an I/O object within its request: 0 is the request itself, 1 its context, and
/// 2 + n the answer to operation n.
#[derive(Clone, Copy, Debug, PartialEq, Eq, PartialOrd, Ord)]
pub struct Obj(pub u32);

/// The number of a seat: a thread of the server with a port of its own.
#[derive(Clone, Copy, Debug, PartialEq, Eq, PartialOrd, Ord)]
pub struct Seat(pub u32);

/// The number of a link (a connection, accepted or made), counted from 1 within its port.
#[derive(Clone, Copy, Debug, PartialEq, Eq, PartialOrd, Ord)]
pub struct LinkNo(pub u32);

/// The number of a listening socket, counted from 0 within its port.
#[derive(Clone, Copy, Debug, PartialEq, Eq, PartialOrd, Ord)]
pub struct SockNo(pub u32);

/// The number of a service, counted from 0 in the order of the configuration.
#[derive(Clone, Copy, Debug, PartialEq, Eq, PartialOrd, Ord)]
pub struct ServiceNo(pub u32);

/// The number of a job that an isolate keeps for another request, counted from 0 within its heap.
#[derive(Clone, Copy, Debug, PartialEq, Eq, PartialOrd, Ord)]
pub struct JobNo(pub u32);

/// An IPv4 address, its first byte the highest of the number.
#[derive(Clone, Copy, Debug, PartialEq, Eq, PartialOrd, Ord)]
pub struct Ip4(pub u32);

/// A list of addresses.
pub type Ips = Seq<Ip4>;

/// Want of memory.
#[derive(Clone, Copy, Debug, PartialEq, Eq)]
pub struct NoMemory;

impl From<AllocError> for NoMemory {
    fn from(_error: AllocError) -> NoMemory {
        NoMemory
    }
}

impl TryClone for Req {
    fn try_clone(&self, _alloc: Global) -> Result<Req, NoMemory> {
        Ok(*self)
    }
}

impl Same for Req {
    fn same(&self, other: &Req) -> bool {
        self.0 == other.0
    }
}

impl TryClone for Op {
    fn try_clone(&self, _alloc: Global) -> Result<Op, NoMemory> {
        Ok(*self)
    }
}

impl Same for Op {
    fn same(&self, other: &Op) -> bool {
        self.0 == other.0
    }
}

impl TryClone for Obj {
    fn try_clone(&self, _alloc: Global) -> Result<Obj, NoMemory> {
        Ok(*self)
    }
}

impl Same for Obj {
    fn same(&self, other: &Obj) -> bool {
        self.0 == other.0
    }
}

impl TryClone for Seat {
    fn try_clone(&self, _alloc: Global) -> Result<Seat, NoMemory> {
        Ok(*self)
    }
}

impl Same for Seat {
    fn same(&self, other: &Seat) -> bool {
        self.0 == other.0
    }
}

impl TryClone for LinkNo {
    fn try_clone(&self, _alloc: Global) -> Result<LinkNo, NoMemory> {
        Ok(*self)
    }
}

impl Same for LinkNo {
    fn same(&self, other: &LinkNo) -> bool {
        self.0 == other.0
    }
}

impl TryClone for SockNo {
    fn try_clone(&self, _alloc: Global) -> Result<SockNo, NoMemory> {
        Ok(*self)
    }
}

impl Same for SockNo {
    fn same(&self, other: &SockNo) -> bool {
        self.0 == other.0
    }
}

impl TryClone for ServiceNo {
    fn try_clone(&self, _alloc: Global) -> Result<ServiceNo, NoMemory> {
        Ok(*self)
    }
}

impl Same for ServiceNo {
    fn same(&self, other: &ServiceNo) -> bool {
        self.0 == other.0
    }
}

impl TryClone for JobNo {
    fn try_clone(&self, _alloc: Global) -> Result<JobNo, NoMemory> {
        Ok(*self)
    }
}

impl Same for JobNo {
    fn same(&self, other: &JobNo) -> bool {
        self.0 == other.0
    }
}

impl TryClone for Ip4 {
    fn try_clone(&self, _alloc: Global) -> Result<Ip4, NoMemory> {
        Ok(*self)
    }
}

impl Same for Ip4 {
    fn same(&self, other: &Ip4) -> bool {
        self.0 == other.0
    }
}
