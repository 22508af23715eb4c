use crate::exact::{Same, TryClone};
use crate::http::{Bytes, Units};
use crate::ids::{Ip4, NoMemory};
use crate::seq::Seq;
use std::alloc::Global;

/// A host and a port, to listen at or to connect to. The host `*` means every address.
#[derive(Debug, Drop)]
pub struct Addr {
    pub host: Bytes,
    pub port: u16,
}

/// Which addresses a range of a network holds.
#[derive(Clone, Copy, Debug, PartialEq, Eq)]
pub enum RangeClass {
    Public,
    Private,
    Local,
    /// The addresses whose first `bits` bits are those of `base` (RFC 4632, section 3.1).
    Block,
}

/// A range of addresses; `base` and `bits` are read of a block alone.
#[derive(Clone, Copy, Debug, PartialEq, Eq)]
pub struct Range {
    pub class: RangeClass,
    pub base: Ip4,
    pub bits: u8,
}

/// What a binding gives to a Worker: a text, a buffer, the text of a JSON value, or a service by
/// its name.
#[derive(Debug, Drop)]
pub enum BindValue {
    Text(Units),
    Buffer(Bytes),
    Json(Units),
    Service(Bytes),
}

/// A member of a Worker's environment.
#[derive(Debug, Drop)]
pub struct Binding {
    pub name: Bytes,
    pub value: BindValue,
}

/// Whether a Worker's script is an ES module or a service-worker script.
#[derive(Clone, Copy, Debug, PartialEq, Eq)]
pub enum Form {
    Module,
    Script,
}

/// A Worker: its script's source, its bindings, and the name of the service that its global
/// `fetch` goes to.
#[derive(Debug, Drop)]
pub struct WorkerDef {
    pub form: Form,
    pub source: Bytes,
    pub bindings: Bindings,
    pub outbound: Bytes,
}

/// A network: it reaches an address that a range of `allow` holds and no range of `deny` does.
#[derive(Debug, Drop)]
pub struct NetDef {
    pub allow: Ranges,
    pub deny: Ranges,
}

/// A folder that is served.
#[derive(Debug, Drop)]
pub struct DiskDef {
    pub path: Bytes,
    pub writable: bool,
    pub dotfiles: bool,
}

/// What a service is.
#[derive(Debug, Drop)]
pub enum Kind {
    Worker(WorkerDef),
    Network(NetDef),
    External(Addr),
    Disk(DiskDef),
}

/// A service of the configuration.
#[derive(Debug, Drop)]
pub struct Service {
    pub name: Bytes,
    pub kind: Kind,
}

/// A listening socket, and the name of the service that answers on it.
#[derive(Debug, Drop)]
pub struct Socket {
    pub name: Bytes,
    pub address: Addr,
    pub service: Bytes,
}

/// A configuration as it was read, its names not yet looked up.
#[derive(Debug, Drop)]
pub struct Config {
    pub services: Services,
    pub sockets: Sockets,
}

/// The ranges of a network, in order.
pub type Ranges = Seq<Range>;

/// The bindings of a Worker, in order.
pub type Bindings = Seq<Binding>;

/// The services of a configuration, in order.
pub type Services = Seq<Service>;

/// The sockets of a configuration, in order.
pub type Sockets = Seq<Socket>;

impl TryClone for Addr {
    fn try_clone(&self, alloc: Global) -> Result<Addr, NoMemory> {
        let host = self.host.try_clone(alloc)?;
        Ok(Addr {
            host,
            port: self.port,
        })
    }
}

impl Same for Addr {
    fn same(&self, other: &Addr) -> bool {
        self.host.same(&other.host) && self.port == other.port
    }
}

impl TryClone for RangeClass {
    fn try_clone(&self, _alloc: Global) -> Result<RangeClass, NoMemory> {
        Ok(*self)
    }
}

impl Same for RangeClass {
    fn same(&self, other: &RangeClass) -> bool {
        *self == *other
    }
}

impl TryClone for Range {
    fn try_clone(&self, _alloc: Global) -> Result<Range, NoMemory> {
        Ok(*self)
    }
}

impl Same for Range {
    fn same(&self, other: &Range) -> bool {
        self.class.same(&other.class) && self.base.same(&other.base) && self.bits == other.bits
    }
}

impl TryClone for BindValue {
    fn try_clone(&self, alloc: Global) -> Result<BindValue, NoMemory> {
        match self {
            BindValue::Text(text) => Ok(BindValue::Text(text.try_clone(alloc)?)),
            BindValue::Buffer(bytes) => Ok(BindValue::Buffer(bytes.try_clone(alloc)?)),
            BindValue::Json(text) => Ok(BindValue::Json(text.try_clone(alloc)?)),
            BindValue::Service(name) => Ok(BindValue::Service(name.try_clone(alloc)?)),
        }
    }
}

impl Same for BindValue {
    fn same(&self, other: &BindValue) -> bool {
        match (self, other) {
            (BindValue::Text(a), BindValue::Text(b)) => a.same(b),
            (BindValue::Buffer(a), BindValue::Buffer(b)) => a.same(b),
            (BindValue::Json(a), BindValue::Json(b)) => a.same(b),
            (BindValue::Service(a), BindValue::Service(b)) => a.same(b),
            _ => false,
        }
    }
}

impl TryClone for Binding {
    fn try_clone(&self, alloc: Global) -> Result<Binding, NoMemory> {
        let name = self.name.try_clone(alloc)?;
        let value = self.value.try_clone(alloc)?;
        Ok(Binding { name, value })
    }
}

impl Same for Binding {
    fn same(&self, other: &Binding) -> bool {
        self.name.same(&other.name) && self.value.same(&other.value)
    }
}

impl TryClone for Form {
    fn try_clone(&self, _alloc: Global) -> Result<Form, NoMemory> {
        Ok(*self)
    }
}

impl Same for Form {
    fn same(&self, other: &Form) -> bool {
        *self == *other
    }
}

impl TryClone for WorkerDef {
    fn try_clone(&self, alloc: Global) -> Result<WorkerDef, NoMemory> {
        let source = self.source.try_clone(alloc)?;
        let bindings = self.bindings.try_clone(alloc)?;
        let outbound = self.outbound.try_clone(alloc)?;
        Ok(WorkerDef {
            form: self.form,
            source,
            bindings,
            outbound,
        })
    }
}

impl Same for WorkerDef {
    fn same(&self, other: &WorkerDef) -> bool {
        self.form.same(&other.form)
            && self.source.same(&other.source)
            && self.bindings.same(&other.bindings)
            && self.outbound.same(&other.outbound)
    }
}

impl TryClone for NetDef {
    fn try_clone(&self, alloc: Global) -> Result<NetDef, NoMemory> {
        let allow = self.allow.try_clone(alloc)?;
        let deny = self.deny.try_clone(alloc)?;
        Ok(NetDef { allow, deny })
    }
}

impl Same for NetDef {
    fn same(&self, other: &NetDef) -> bool {
        self.allow.same(&other.allow) && self.deny.same(&other.deny)
    }
}

impl TryClone for DiskDef {
    fn try_clone(&self, alloc: Global) -> Result<DiskDef, NoMemory> {
        let path = self.path.try_clone(alloc)?;
        Ok(DiskDef {
            path,
            writable: self.writable,
            dotfiles: self.dotfiles,
        })
    }
}

impl Same for DiskDef {
    fn same(&self, other: &DiskDef) -> bool {
        self.path.same(&other.path)
            && self.writable == other.writable
            && self.dotfiles == other.dotfiles
    }
}

impl TryClone for Kind {
    fn try_clone(&self, alloc: Global) -> Result<Kind, NoMemory> {
        match self {
            Kind::Worker(worker) => Ok(Kind::Worker(worker.try_clone(alloc)?)),
            Kind::Network(network) => Ok(Kind::Network(network.try_clone(alloc)?)),
            Kind::External(address) => Ok(Kind::External(address.try_clone(alloc)?)),
            Kind::Disk(disk) => Ok(Kind::Disk(disk.try_clone(alloc)?)),
        }
    }
}

impl Same for Kind {
    fn same(&self, other: &Kind) -> bool {
        match (self, other) {
            (Kind::Worker(a), Kind::Worker(b)) => a.same(b),
            (Kind::Network(a), Kind::Network(b)) => a.same(b),
            (Kind::External(a), Kind::External(b)) => a.same(b),
            (Kind::Disk(a), Kind::Disk(b)) => a.same(b),
            _ => false,
        }
    }
}

impl TryClone for Service {
    fn try_clone(&self, alloc: Global) -> Result<Service, NoMemory> {
        let name = self.name.try_clone(alloc)?;
        let kind = self.kind.try_clone(alloc)?;
        Ok(Service { name, kind })
    }
}

impl Same for Service {
    fn same(&self, other: &Service) -> bool {
        self.name.same(&other.name) && self.kind.same(&other.kind)
    }
}

impl TryClone for Socket {
    fn try_clone(&self, alloc: Global) -> Result<Socket, NoMemory> {
        let name = self.name.try_clone(alloc)?;
        let address = self.address.try_clone(alloc)?;
        let service = self.service.try_clone(alloc)?;
        Ok(Socket {
            name,
            address,
            service,
        })
    }
}

impl Same for Socket {
    fn same(&self, other: &Socket) -> bool {
        self.name.same(&other.name)
            && self.address.same(&other.address)
            && self.service.same(&other.service)
    }
}

impl TryClone for Config {
    fn try_clone(&self, alloc: Global) -> Result<Config, NoMemory> {
        let services = self.services.try_clone(alloc)?;
        let sockets = self.sockets.try_clone(alloc)?;
        Ok(Config { services, sockets })
    }
}

impl Same for Config {
    fn same(&self, other: &Config) -> bool {
        self.services.same(&other.services) && self.sockets.same(&other.sockets)
    }
}
