ghost use Rattle.std.specs.Prelude.{◌≡◌, IfOk, OnOk};
ghost use Rattle.wd_config.specs.Values as spec;

use crate::items::Item;
use crate::names::Names;
use crate::schema::{Leaf, ListKind, Shape, StructKind};
use capnp_text::Value;
use std::alloc::Global;
use wd_base::{Bindings, NoMemory, Ranges, Seq, Services, Sockets};

/// The items of a list so far, and the names that they take.
#[derive(Drop)]
pub struct Listed {
    pub items: Item,
    pub taken: Names,
}

/// What an item of the list is read as.
pub fn item_shape(kind: ListKind) -> Shape
    ensures { result ≡ spec.item_shape kind }
{
    match kind {
        ListKind::Flags => Shape::Leaf(Leaf::Text),
        ListKind::Ranges => Shape::Leaf(Leaf::Range),
        ListKind::Modules => Shape::Struct(StructKind::Module),
        ListKind::Bindings => Shape::Struct(StructKind::Binding),
        ListKind::Services => Shape::Struct(StructKind::Service),
        ListKind::Sockets => Shape::Struct(StructKind::Socket),
    }
}

/// The list without an item.
pub fn empty_list(alloc: Global, kind: ListKind) -> Item
    ensures { result ≡ spec.empty_list kind }
{
    match kind {
        ListKind::Flags | ListKind::Modules => Item::Nothing,
        ListKind::Ranges => Item::Ranges(Seq::new(alloc)),
        ListKind::Bindings => Item::Bindings(Seq::new(alloc)),
        ListKind::Services => Item::Services(Seq::new(alloc)),
        ListKind::Sockets => Item::Sockets(Seq::new(alloc)),
    }
}

/// Whether the list has two modules or more.
pub fn is_left_out(kind: ListKind, values: &[Value]) -> bool
    ensures { result ≡ spec.is_left_out kind values.now }
{
    match kind {
        ListKind::Modules => values.len() > 1,
        _other => false,
    }
}

fn with_range(ranges: Ranges, item: Item) -> Result<Item, NoMemory>
    ensures { IfOk result (λ list. list ≡ spec.with_range ranges item) }
{
    let mut ranges = ranges;
    match item {
        Item::Range(range) => {
            ranges.push(range)?;
            Ok(Item::Ranges(ranges))
        }
        _other => Ok(Item::Ranges(ranges)),
    }
}

fn with_binding(bindings: Bindings, item: Item) -> Result<Item, NoMemory>
    ensures { IfOk result (λ list. list ≡ spec.with_binding bindings item) }
{
    let mut bindings = bindings;
    match item {
        Item::Binding(binding) => {
            bindings.push(binding)?;
            Ok(Item::Bindings(bindings))
        }
        _other => Ok(Item::Bindings(bindings)),
    }
}

fn with_service(services: Services, item: Item) -> Result<Item, NoMemory>
    ensures { IfOk result (λ list. list ≡ spec.with_service services item) }
{
    let mut services = services;
    match item {
        Item::Service(service) => {
            services.push(service)?;
            Ok(Item::Services(services))
        }
        _other => Ok(Item::Services(services)),
    }
}

fn with_socket(sockets: Sockets, item: Item) -> Result<Item, NoMemory>
    ensures { IfOk result (λ list. list ≡ spec.with_socket sockets item) }
{
    let mut sockets = sockets;
    match item {
        Item::Socket(socket) => {
            sockets.push(socket)?;
            Ok(Item::Sockets(sockets))
        }
        _other => Ok(Item::Sockets(sockets)),
    }
}

fn first_source(item: Item) -> Item
    ensures { result ≡ spec.first_source item }
{
    match item {
        Item::Source(form, source) => Item::Source(form, source),
        _other => Item::Nothing,
    }
}

/// The list with one more item. Of modules the one is kept, and flags are dropped.
#[tactic(auto, unfolding(crate::specs::Values::with_item))]
pub fn with_item(list: Item, item: Item) -> Result<Item, NoMemory>
    ensures { IfOk result (λ more. more ≡ spec.with_item list item) }
{
    match list {
        Item::Ranges(ranges) => with_range(ranges, item),
        Item::Bindings(bindings) => with_binding(bindings, item),
        Item::Services(services) => with_service(services, item),
        Item::Sockets(sockets) => with_socket(sockets, item),
        _other => Ok(first_source(item)),
    }
}

/// Takes the name of one more item.
#[tactic(auto, unfolding(crate::specs::Values::with_name))]
pub fn take_name(alloc: Global, taken: &mut Names, item: &Item) -> Result<(), NoMemory>
    ensures { OnOk result (taken.new ≡ spec.with_name taken.old item.now) }
{
    match item {
        Item::Binding(binding) => taken.put(alloc, binding.name.as_slice(), 0)?,
        Item::Service(service) => taken.put(alloc, service.name.as_slice(), 0)?,
        Item::Socket(socket) => taken.put(alloc, socket.name.as_slice(), 0)?,
        _other => (),
    }
    Ok(())
}
