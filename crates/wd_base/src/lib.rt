//! What every layer of the server names: identifiers, the list type, a stack, requests and replies, the
//! configuration's types, the I/O objects of a request, and conversions of text.
#![tactic(auto)]

mod config;
mod exact;
mod http;
mod ids;
mod objects;
mod queue;
mod room;
mod seq;
mod stack;
#[cfg(test)]
mod tests;
mod text;

pub use config::{
    Addr, BindValue, Binding, Bindings, Config, DiskDef, Form, Kind, NetDef, Range, RangeClass,
    Ranges, Service, Services, Socket, Sockets, WorkerDef,
};
pub use exact::{Same, TryClone};
pub use http::{Bytes, Fields, Lines, NameList, NamedBytes, Numbers, Reply, ReqData, Units, Why};
pub use ids::{Ip4, Ips, JobNo, LinkNo, NoMemory, Obj, Op, Req, Seat, ServiceNo, SockNo};
pub use objects::{
    Crosses, IoObject, Notes, ObjKind, ObjName, ObjNames, Objects, Objs, OpResult, OpStart,
    OpStarts, Origin, Wake,
};
pub use queue::Queue;
pub use room::RoomList;
pub use seq::Seq;
pub use stack::Stack;
pub use text::{bytes_of, decimal, units_of};
