ghost use Rattle.std.specs.Prelude.{◌≡◌, IfOk, codes, unwrap_or};
ghost use Rattle.wd_config.specs.Build as spec;
ghost use Rattle.wd_config.specs.Given.{Gives};

use crate::faults::{RefusedKind, Stop, refuse};
use crate::items::{Entries, Item};
use crate::schema::{Slot, StructKind};
use std::alloc::Global;
use wd_base::{
    Addr, BindValue, Binding, Bindings, Bytes, Config, DiskDef, Form, Ip4, Kind, NetDef, NoMemory,
    Range, RangeClass, Ranges, Seq, Service, Services, Socket, Sockets, WorkerDef,
};

fn text_of(item: Option<Item>) -> Option<Bytes>
    ensures { result ≡ spec.text_of item }
{
    match item {
        Some(Item::Text(text)) => Some(text),
        _other => None,
    }
}

fn kind_of(item: Option<Item>) -> Option<Kind>
    ensures { result ≡ spec.kind_of item }
{
    match item {
        Some(Item::Kind(kind)) => Some(kind),
        _other => None,
    }
}

fn value_of(item: Option<Item>) -> Option<BindValue>
    ensures { result ≡ spec.value_of item }
{
    match item {
        Some(Item::Value(value)) => Some(value),
        Some(Item::Text(name)) => Some(BindValue::Service(name)),
        _other => None,
    }
}

fn address_of(item: Option<Item>) -> Option<Addr>
    ensures { result ≡ spec.address_of item }
{
    match item {
        Some(Item::Address(address)) => Some(address),
        _other => None,
    }
}

fn source_of(item: Option<Item>) -> Option<(Form, Bytes)>
    ensures { result ≡ spec.source_of item }
{
    match item {
        Some(Item::Source(form, source)) => Some((form, source)),
        _other => None,
    }
}

fn flag_of(item: Option<Item>) -> bool
    ensures { result ≡ spec.flag_of item }
{
    match item {
        Some(Item::Flag(flag)) => flag,
        _other => false,
    }
}

fn ranges_or(default: Ranges, item: Option<Item>) -> Ranges
    ensures { result ≡ spec.ranges_or default item }
{
    match item {
        Some(Item::Ranges(ranges)) => ranges,
        _other => default,
    }
}

fn bindings_of(alloc: Global, item: Option<Item>) -> Bindings
    ensures { result ≡ spec.bindings_of item }
{
    match item {
        Some(Item::Bindings(bindings)) => bindings,
        _other => Seq::new(alloc),
    }
}

fn services_of(alloc: Global, item: Option<Item>) -> Services
    ensures { result ≡ spec.services_of item }
{
    match item {
        Some(Item::Services(services)) => services,
        _other => Seq::new(alloc),
    }
}

fn sockets_of(alloc: Global, item: Option<Item>) -> Sockets
    ensures { result ≡ spec.sockets_of item }
{
    match item {
        Some(Item::Sockets(sockets)) => sockets,
        _other => Seq::new(alloc),
    }
}

/// A field that is needed; `place` is that of the struct's bracket.
pub fn needed<T: Drop>(
    alloc: Global,
    place: usize,
    name: &[u8],
    found: Option<T>,
) -> Result<T, Stop>
    ensures { Gives (spec.needed place name.now found) result }
{
    match found {
        Some(value) => Ok(value),
        None => refuse(alloc, RefusedKind::WrongKind, place, name),
    }
}

fn script(alloc: Global, place: usize, found: Option<(Form, Bytes)>) -> Result<(Form, Bytes), Stop>
    ensures { Gives (spec.script place found) result }
{
    match found {
        Some(script) => Ok(script),
        None => refuse(alloc, RefusedKind::NoScript, place, b"Worker"),
    }
}

/// The name of the service that a Worker's `fetch` goes to.
fn outbound(alloc: Global, found: Option<Bytes>) -> Result<Bytes, NoMemory>
    ensures { IfOk result (λ name. name ≡ unwrap_or found (codes "internet")) }
{
    match found {
        Some(name) => Ok(name),
        None => Seq::copy(alloc, b"internet"),
    }
}

#[tactic(auto, using(crate::proofs::ItemLemmas::item_without))]
fn config(alloc: Global, entries: Entries) -> Result<Item, Stop>
    ensures { Gives (spec.config entries) result }
{
    let mut entries = entries;
    let services = services_of(alloc, entries.take(Slot::Services));
    let sockets = sockets_of(alloc, entries.take(Slot::Sockets));
    Ok(Item::Config(Config { services, sockets }))
}

#[tactic(auto, using(crate::proofs::ItemLemmas::item_without))]
fn service(alloc: Global, place: usize, entries: Entries) -> Result<Item, Stop>
    ensures { Gives (spec.service place entries) result }
{
    let mut entries = entries;
    let name = needed(alloc, place, b"name", text_of(entries.take(Slot::Name)))?;
    let kind = needed(alloc, place, b"worker", kind_of(entries.take(Slot::Kind)))?;
    Ok(Item::Service(Service { name, kind }))
}

#[tactic(auto, using(crate::proofs::ItemLemmas::item_without))]
fn worker(alloc: Global, place: usize, entries: Entries) -> Result<Item, Stop>
    ensures { Gives (spec.worker place entries) result }
{
    let mut entries = entries;
    let (form, source) = script(alloc, place, source_of(entries.take(Slot::Script)))?;
    let bindings = bindings_of(alloc, entries.take(Slot::Bindings));
    let outbound = outbound(alloc, text_of(entries.take(Slot::Outbound)))?;
    Ok(Item::Kind(Kind::Worker(WorkerDef {
        form,
        source,
        bindings,
        outbound,
    })))
}

#[tactic(auto, using(crate::proofs::ItemLemmas::item_without))]
fn module_of(alloc: Global, place: usize, entries: Entries) -> Result<Item, Stop>
    ensures { Gives (spec.module_of place entries) result }
{
    let mut entries = entries;
    let _name = needed(alloc, place, b"name", text_of(entries.take(Slot::Name)))?;
    let (form, source) = needed(
        alloc,
        place,
        b"esModule",
        source_of(entries.take(Slot::Source)),
    )?;
    Ok(Item::Source(form, source))
}

#[tactic(auto, using(crate::proofs::ItemLemmas::item_without))]
fn binding(alloc: Global, place: usize, entries: Entries) -> Result<Item, Stop>
    ensures { Gives (spec.binding place entries) result }
{
    let mut entries = entries;
    let name = needed(alloc, place, b"name", text_of(entries.take(Slot::Name)))?;
    let value = needed(alloc, place, b"text", value_of(entries.take(Slot::Value)))?;
    Ok(Item::Binding(Binding { name, value }))
}

fn designator(alloc: Global, place: usize, entries: Entries) -> Result<Item, Stop>
    ensures { Gives (spec.designator place entries) result }
{
    let mut entries = entries;
    let name = needed(alloc, place, b"name", text_of(entries.take(Slot::Name)))?;
    Ok(Item::Text(name))
}

/// The one range `public`.
fn public_ranges(alloc: Global) -> Result<Ranges, NoMemory>
    ensures { IfOk result (λ ranges. ranges ≡ spec.public_ranges) }
{
    let mut ranges = Seq::new(alloc);
    ranges.push(Range {
        class: RangeClass::Public,
        base: Ip4(0),
        bits: 0,
    })?;
    Ok(ranges)
}

#[tactic(auto, using(crate::proofs::ItemLemmas::item_without))]
fn network(alloc: Global, entries: Entries) -> Result<Item, Stop>
    ensures { Gives (spec.network entries) result }
{
    let mut entries = entries;
    let public = public_ranges(alloc)?;
    let allow = ranges_or(public, entries.take(Slot::Allow));
    let deny = ranges_or(Seq::new(alloc), entries.take(Slot::Deny));
    Ok(Item::Kind(Kind::Network(NetDef { allow, deny })))
}

fn external(alloc: Global, place: usize, entries: Entries) -> Result<Item, Stop>
    ensures { Gives (spec.external place entries) result }
{
    let mut entries = entries;
    let address = needed(
        alloc,
        place,
        b"address",
        address_of(entries.take(Slot::Address)),
    )?;
    Ok(Item::Kind(Kind::External(address)))
}

#[tactic(auto, using(crate::proofs::ItemLemmas::item_without))]
fn disk(alloc: Global, place: usize, entries: Entries) -> Result<Item, Stop>
    ensures { Gives (spec.disk place entries) result }
{
    let mut entries = entries;
    let path = needed(alloc, place, b"path", text_of(entries.take(Slot::Path)))?;
    let writable = flag_of(entries.take(Slot::Writable));
    let dotfiles = flag_of(entries.take(Slot::Dotfiles));
    Ok(Item::Kind(Kind::Disk(DiskDef {
        path,
        writable,
        dotfiles,
    })))
}

#[tactic(auto, using(crate::proofs::ItemLemmas::item_without))]
fn socket(alloc: Global, place: usize, entries: Entries) -> Result<Item, Stop>
    ensures { Gives (spec.socket place entries) result }
{
    let mut entries = entries;
    let name = needed(alloc, place, b"name", text_of(entries.take(Slot::Name)))?;
    let address = needed(
        alloc,
        place,
        b"address",
        address_of(entries.take(Slot::Address)),
    )?;
    let service = needed(
        alloc,
        place,
        b"service",
        text_of(entries.take(Slot::Service)),
    )?;
    Ok(Item::Socket(Socket {
        name,
        address,
        service,
    }))
}

/// What a struct is, by its fields; `place` is that of its opening bracket.
#[tactic(auto, unfolding(crate::specs::Build::built))]
pub fn built(alloc: Global, kind: StructKind, place: usize, entries: Entries) -> Result<Item, Stop>
    ensures { Gives (spec.built kind place entries) result }
{
    match kind {
        StructKind::Config => config(alloc, entries),
        StructKind::Service => service(alloc, place, entries),
        StructKind::Worker => worker(alloc, place, entries),
        StructKind::Module => module_of(alloc, place, entries),
        StructKind::Binding => binding(alloc, place, entries),
        StructKind::Designator => designator(alloc, place, entries),
        StructKind::Network => network(alloc, entries),
        StructKind::External => external(alloc, place, entries),
        StructKind::Disk => disk(alloc, place, entries),
        StructKind::Socket => socket(alloc, place, entries),
        StructKind::Http => Ok(Item::Nothing),
    }
}
