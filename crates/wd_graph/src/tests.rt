//! Linking, looking up, reach and agreement, with expected values by hand.

ghost use Rattle.std.specs.Prelude.{◌≡◌, ◌<◌, ◌↔◌, ◌^◌, IfOk, IsTrue, Some, length};
ghost use Rattle.wd_graph.specs.Names.{names_differ, number_of};

use crate::directory::Directory;
use crate::{LinkEnd, World, link};
use std::alloc::Global;
use std::test::Fail;
use wd_base::{
    Addr, BindValue, Binding, Bindings, Bytes, Config, Form, Kind, NetDef, NoMemory, Seq, Service,
    ServiceNo, Services, Socket, TryClone, WorkerDef,
};

/// A Worker by its name, the services that its bindings name, and its outbound; a network where
/// the outbound is empty.
#[derive(Drop)]
struct Asked<'a> {
    name: &'a [u8],
    bound: &'a [&'a [u8]],
    outbound: &'a [u8],
}

fn bindings(alloc: Global, bound: &[&[u8]]) -> Result<Bindings, NoMemory> {
    let mut bindings = Seq::new(alloc);
    for name in bound {
        bindings.push(Binding {
            name: Seq::copy(alloc, b"OTHER")?,
            value: BindValue::Service(Seq::copy(alloc, *name)?),
        })?;
    }
    Ok(bindings)
}

fn kind(alloc: Global, asked: &Asked<'_>) -> Result<Kind, NoMemory> {
    if asked.outbound.is_empty() {
        return Ok(Kind::Network(NetDef {
            allow: Seq::new(alloc),
            deny: Seq::new(alloc),
        }));
    }
    Ok(Kind::Worker(WorkerDef {
        form: Form::Module,
        source: Seq::new(alloc),
        bindings: bindings(alloc, asked.bound)?,
        outbound: Seq::copy(alloc, asked.outbound)?,
    }))
}

fn services(alloc: Global, all: &[Asked<'_>]) -> Result<Services, NoMemory> {
    let mut services = Seq::new(alloc);
    for asked in all {
        services.push(Service {
            name: Seq::copy(alloc, asked.name)?,
            kind: kind(alloc, asked)?,
        })?;
    }
    Ok(services)
}

/// Whether no two services have one name, by the number of each.
fn differ(alloc: Global, services: &Services) -> Result<bool, NoMemory>
    requires { length services.now < 2 ^ 31 }
    ensures { IfOk result (λ differ. IsTrue differ → IsTrue (names_differ services.now)) }
{
    let directory = Directory::new(alloc, services.try_clone(alloc)?)?;
    for (number, service) in services.as_slice().iter().enumerate() {
        if !has_number(&directory, number as u32, service) {
            return Ok(false);
        }
    }
    Ok(true)
}

/// Whether the number of a service's name is this one.
fn has_number(directory: &Directory, number: u32, service: &Service) -> bool
    ensures { IsTrue result ↔ (number_of service.now.name directory.now ≡ Some number) }
{
    directory.number(service.name.as_slice()) == Some(number)
}

/// The answer of `link` for these services and one socket called `s`, if the names differ.
fn answer(
    alloc: Global,
    services: Services,
    socket: &[u8],
) -> Result<Option<Result<World, LinkEnd>>, NoMemory> {
    if services.len() > 1_000_000 || !differ(alloc, &services)? {
        return Ok(None);
    }
    let mut sockets = Seq::new(alloc);
    sockets.push(Socket {
        name: Seq::copy(alloc, b"s")?,
        address: Addr {
            host: Seq::new(alloc),
            port: 80,
        },
        service: Seq::copy(alloc, socket)?,
    })?;
    Ok(Some(link(alloc, Config { services, sockets })))
}

/// The world of these services, whose names are known.
fn world(alloc: Global, services: Services) -> Result<Option<World>, NoMemory> {
    match answer(alloc, services, b"internet")? {
        Some(Ok(world)) => Ok(Some(world)),
        _ => Ok(None),
    }
}

/// Whether the answer is the fault of a name, in `from`.
fn is_fault(answer: &Option<Result<World, LinkEnd>>, from: &[u8], name: &[u8]) -> bool {
    match answer {
        Some(Err(LinkEnd::Unknown(fault))) => {
            fault.from.as_slice() == from && fault.name.as_slice() == name
        }
        _ => false,
    }
}

#[test]
fn the_first_unknown_name_is_told(rt: HostRuntime) -> Result<(), Fail> {
    let cases: [(&[u8], &[u8], &[u8], &[u8], &[u8]); 4] = [
        (b"b", b"c", b"d", b"a", b"b"),
        (b"a", b"c", b"d", b"a", b"c"),
        (b"a", b"a", b"d", b"s", b"d"),
        (b"internet", b"internet", b"", b"s", b""),
    ];
    for (bound, outbound, socket, from, name) in cases {
        let asked = Asked {
            name: b"a",
            bound: &[bound],
            outbound,
        };
        let services = services(rt.alloc(), &[asked])?;
        let answer = answer(rt.alloc(), services, socket)?;
        assert!(rt; is_fault(&answer, from, name));
    }
    Ok(())
}

/// Two Workers that fetch from each other, one that goes out by a network, one that knows itself
/// alone, and one whose bindings name services twice; `internet` is added as number 6.
fn some_services(alloc: Global) -> Result<Services, NoMemory> {
    let all = [
        Asked {
            name: b"a",
            bound: &[b"b"],
            outbound: b"internet",
        },
        Asked {
            name: b"b",
            bound: &[b"c", b"a"],
            outbound: b"internet",
        },
        Asked {
            name: b"c",
            bound: &[],
            outbound: b"d",
        },
        Asked {
            name: b"d",
            bound: &[],
            outbound: b"",
        },
        Asked {
            name: b"e",
            bound: &[b"e"],
            outbound: b"e",
        },
        Asked {
            name: b"f",
            bound: &[b"c", b"b", b"d", b"c", b"b"],
            outbound: b"a",
        },
    ];
    services(alloc, &all)
}

/// Whether services are found by name and by number.
fn is_found(world: &World) -> bool {
    world.number(b"a") == Some(ServiceNo(0))
        && world.number(b"f") == Some(ServiceNo(5))
        && world.number(b"internet") == Some(ServiceNo(6))
        && world.number(b"g") == None
        && world.count() == 7
        && world.service(ServiceNo(6)).name.as_slice() == b"internet".as_slice()
}

#[test]
fn services_are_found(rt: HostRuntime) -> Result<(), Fail> {
    let services = some_services(rt.alloc())?;
    match world(rt.alloc(), services)? {
        Some(world) => assert!(rt; is_found(&world)),
        None => assert!(rt; false),
    }
    Ok(())
}

/// Whether the service `no` reaches just these.
fn reaches(alloc: Global, world: &World, no: u32, expected: &[u32]) -> Result<bool, NoMemory> {
    if no >= world.count() {
        return Ok(false);
    }
    let numbers = world.reach(alloc, ServiceNo(no))?;
    Ok(
        numbers.len() == expected.len()
            && numbers
                .as_slice()
                .iter()
                .zip(expected)
                .all(|(a, b)| a.0 == *b),
    )
}

#[test]
fn reach_follows_bindings_and_outbound(rt: HostRuntime) -> Result<(), Fail> {
    let cases: [(u32, &[u32]); 7] = [
        (0, &[0, 1, 2, 3, 6]),
        (1, &[0, 1, 2, 3, 6]),
        (2, &[2, 3]),
        (3, &[3]),
        (4, &[4]),
        (5, &[0, 1, 2, 3, 5, 6]),
        (6, &[6]),
    ];
    let services = some_services(rt.alloc())?;
    let Some(world) = world(rt.alloc(), services)? else {
        assert!(rt; false);
        return Ok(());
    };
    for (no, expected) in cases {
        assert!(rt; reaches(rt.alloc(), &world, no, expected)?);
    }
    Ok(())
}

/// Whether the names of the Workers among the targets of the service `no` are just these.
fn has_workers(
    alloc: Global,
    world: &World,
    no: u32,
    expected: &[&[u8]],
) -> Result<bool, NoMemory> {
    if no >= world.count() {
        return Ok(false);
    }
    let names = world.workers_of(alloc, ServiceNo(no))?;
    Ok(
        names.len() == expected.len()
            && names
                .as_slice()
                .iter()
                .zip(expected)
                .all(|(a, b)| a.as_slice() == *b),
    )
}

#[test]
fn workers_are_told_once(rt: HostRuntime) -> Result<(), Fail> {
    let cases: [(u32, &[&[u8]]); 5] = [
        (0, &[b"b"]),
        (1, &[b"c", b"a"]),
        (2, &[]),
        (3, &[]),
        (5, &[b"c", b"b", b"a"]),
    ];
    let services = some_services(rt.alloc())?;
    let Some(world) = world(rt.alloc(), services)? else {
        assert!(rt; false);
        return Ok(());
    };
    for (no, expected) in cases {
        assert!(rt; has_workers(rt.alloc(), &world, no, expected)?);
    }
    Ok(())
}

/// The services with another definition of the one at a place.
fn changed(alloc: Global, at: usize, kind: Kind) -> Result<Services, NoMemory> {
    let mut services = some_services(alloc)?;
    if at < services.len() {
        let name = services.as_slice()[at].name.try_clone(alloc)?;
        services.set(at, Service { name, kind });
    }
    Ok(services)
}

/// The Worker `c` with another source, another binding or another outbound, by turns.
fn another_c(alloc: Global, which: u32) -> Result<Services, NoMemory> {
    let source: Bytes = if which == 0 {
        Seq::copy(alloc, b"1")?
    } else {
        Seq::new(alloc)
    };
    let bound = if which == 1 {
        bindings(alloc, &[b"d"])?
    } else {
        Seq::new(alloc)
    };
    let outbound: &[u8] = if which == 2 { b"internet" } else { b"d" };
    let worker = WorkerDef {
        form: Form::Module,
        source,
        bindings: bound,
        outbound: Seq::copy(alloc, outbound)?,
    };
    changed(alloc, 2, Kind::Worker(worker))
}

/// Whether the services that each of `a` to `f` reaches stand alike in the world of `services`.
fn agree_as(alloc: Global, services: Services, expected: &[bool]) -> Result<bool, NoMemory> {
    let Some(one) = world(alloc, some_services(alloc)?)? else {
        return Ok(false);
    };
    let Some(other) = world(alloc, services)? else {
        return Ok(false);
    };
    for (no, agrees) in expected.iter().enumerate() {
        if no >= 7 || no >= one.count() as usize {
            return Ok(false);
        }
        if one.agree(alloc, &other, ServiceNo(no as u32))? != *agrees {
            return Ok(false);
        }
    }
    Ok(true)
}

#[test]
fn worlds_agree_where_definitions_are_equal(rt: HostRuntime) -> Result<(), Fail> {
    let alloc = rt.alloc();
    let same = some_services(alloc)?;
    assert!(rt; agree_as(alloc, same, &[true, true, true, true, true, true])?);
    let cases: [u32; 3] = [0, 1, 2];
    for which in cases {
        let services = another_c(alloc, which)?;
        assert!(rt; agree_as(alloc, services, &[false, false, false, true, true, false])?);
    }
    let disk = Kind::External(Addr {
        host: Seq::new(alloc),
        port: 80,
    });
    let services = changed(alloc, 3, disk)?;
    assert!(rt; agree_as(alloc, services, &[false, false, false, false, true, false])?);
    Ok(())
}

#[test]
fn worlds_agree_by_names(rt: HostRuntime) -> Result<(), Fail> {
    let alloc = rt.alloc();
    let all = [
        Asked {
            name: b"d",
            bound: &[],
            outbound: b"",
        },
        Asked {
            name: b"c",
            bound: &[],
            outbound: b"d",
        },
    ];
    let services = services(alloc, &all)?;
    assert!(rt; agree_as(alloc, services, &[false, false, true, true, false, false])?);
    Ok(())
}

/// As many Workers, each of which binds the next, and the last the first.
fn ring(alloc: Global, count: u32) -> Result<Services, NoMemory> {
    let mut services = Seq::new(alloc);
    for at in 0..count {
        let next = if at + 1 < count { at + 1 } else { 0 };
        let name = at.to_be_bytes();
        let bound = next.to_be_bytes();
        let worker = WorkerDef {
            form: Form::Module,
            source: Seq::new(alloc),
            bindings: bindings(alloc, &[bound.as_slice()])?,
            outbound: Seq::copy(alloc, b"internet")?,
        };
        services.push(Service {
            name: Seq::copy(alloc, name.as_slice())?,
            kind: Kind::Worker(worker),
        })?;
    }
    Ok(services)
}

/// One Worker that binds each service of a ring, and its outbound.
fn hub(alloc: Global, count: u32) -> Result<Services, NoMemory> {
    let mut services = ring(alloc, count)?;
    let mut bindings = Seq::new(alloc);
    for at in 0..count {
        let name = at.to_be_bytes();
        bindings.push(Binding {
            name: Seq::copy(alloc, b"OTHER")?,
            value: BindValue::Service(Seq::copy(alloc, name.as_slice())?),
        })?;
    }
    services.push(Service {
        name: Seq::copy(alloc, b"hub")?,
        kind: Kind::Worker(WorkerDef {
            form: Form::Module,
            source: Seq::new(alloc),
            bindings,
            outbound: Seq::copy(alloc, b"hub")?,
        }),
    })?;
    Ok(services)
}

#[test]
fn many_services_take_little_time(rt: HostRuntime) -> Result<(), Fail> {
    let alloc = rt.alloc();
    let count = 20_000;
    let services = hub(alloc, count)?;
    let Some(world) = world(alloc, services)? else {
        assert!(rt; false);
        return Ok(());
    };
    assert!(rt; world.count() == count + 2);
    if world.count() > count {
        assert!(rt; world.reach(alloc, ServiceNo(0))?.len() == 20_001);
        assert!(rt; world.reach(alloc, ServiceNo(count))?.len() == 20_002);
        assert!(rt; world.workers_of(alloc, ServiceNo(count))?.len() == 20_001);
        assert!(rt; world.agree(alloc, &world, ServiceNo(count))?);
    }
    Ok(())
}
