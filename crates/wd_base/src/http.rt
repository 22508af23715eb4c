use crate::exact::{Same, TryClone};
use crate::ids::NoMemory;
use crate::seq::Seq;
use std::alloc::Global;

/// Bytes, often the UTF-8 of a text.
pub type Bytes = Seq<u8>;

/// The code units of a text in UTF-16, lone surrogates among them.
pub type Units = Seq<u16>;

/// Header fields: pairs of a name and a value, in order.
pub type Fields = Seq<(Bytes, Bytes)>;

/// Names of services.
pub type NameList = Seq<Bytes>;

/// Files: pairs of a path and its bytes.
pub type NamedBytes = Seq<(Bytes, Bytes)>;

/// Lines of a log, each the UTF-8 of a text.
pub type Lines = Seq<Bytes>;

/// Numbers, such as those of the calls that are to fail.
pub type Numbers = Seq<u64>;

/// A request (RFC 9110, section 3.4): its method, its absolute URL, its fields with names in lower
/// case, and its body where it has one.
#[derive(Debug, Drop)]
pub struct ReqData {
    pub method: Bytes,
    pub url: Bytes,
    pub fields: Fields,
    pub body: Option<Bytes>,
}

/// Why a reply is as it is.
#[derive(Clone, Copy, Debug, PartialEq, Eq)]
pub enum Why {
    /// The script gave it.
    Plain,
    /// The script threw, or gave what is no Response.
    Threw,
    /// Nothing was left that could have given one.
    Hung,
    /// The isolate's generation had passed.
    Dead,
    /// A turn passed a limit.
    Limit,
    /// A service that is no Worker gave it.
    Service,
}

/// A reply: its status code (RFC 9110, section 15), its fields and its body.
#[derive(Debug, Drop)]
pub struct Reply {
    pub status: u16,
    pub fields: Fields,
    pub body: Bytes,
    pub why: Why,
}

impl TryClone for ReqData {
    fn try_clone(&self, alloc: Global) -> Result<ReqData, NoMemory> {
        let method = self.method.try_clone(alloc)?;
        let url = self.url.try_clone(alloc)?;
        let fields = self.fields.try_clone(alloc)?;
        let body = self.body.try_clone(alloc)?;
        Ok(ReqData {
            method,
            url,
            fields,
            body,
        })
    }
}

impl Same for ReqData {
    fn same(&self, other: &ReqData) -> bool {
        self.method.same(&other.method)
            && self.url.same(&other.url)
            && self.fields.same(&other.fields)
            && self.body.same(&other.body)
    }
}

impl TryClone for Why {
    fn try_clone(&self, _alloc: Global) -> Result<Why, NoMemory> {
        Ok(*self)
    }
}

impl Same for Why {
    fn same(&self, other: &Why) -> bool {
        *self == *other
    }
}

impl TryClone for Reply {
    fn try_clone(&self, alloc: Global) -> Result<Reply, NoMemory> {
        let fields = self.fields.try_clone(alloc)?;
        let body = self.body.try_clone(alloc)?;
        Ok(Reply {
            status: self.status,
            fields,
            body,
            why: self.why,
        })
    }
}

impl Same for Reply {
    fn same(&self, other: &Reply) -> bool {
        self.status == other.status
            && self.fields.same(&other.fields)
            && self.body.same(&other.body)
            && self.why.same(&other.why)
    }
}
