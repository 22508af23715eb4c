use crate::{
    Addr, BindValue, Binding, Bytes, Config, DiskDef, Form, IoObject, Ip4, JobNo, Kind, LinkNo,
    NetDef, NoMemory, Obj, ObjKind, Op, OpResult, OpStart, Origin, Range, RangeClass, Reply, Req,
    ReqData, Same, Seq, Service, Socket, Stack, TryClone, Wake, Why, WorkerDef, bytes_of, decimal,
    units_of,
};
use std::alloc::Global;
use std::process::Abort;
use std::test::Fail;

#[test]
fn utf8_becomes_utf16(rt: HostRuntime) -> Result<(), Fail> {
    let cases: [(&[u8], &[u16]); 9] = [
        (b"", &[]),
        (b"A", &[0x41]),
        (b"\xC3\xA9", &[0xE9]),
        (b"\xF0\x9F\x98\x80", &[0xD83D, 0xDE00]),
        (b"\xEF\xBB\xBFA", &[0x41]),
        (b"\xEF\xBB\xBF\xEF\xBB\xBF", &[0xFEFF]),
        (b"a\xFFb", &[0x61, 0xFFFD, 0x62]),
        (b"\xF0\x9F\x98A", &[0xFFFD, 0x41]),
        (b"\xC0\x80", &[0xFFFD, 0xFFFD]),
    ];
    for (bytes, want) in cases {
        let units = units_of(rt.alloc(), bytes)?;
        assert!(rt; units.as_slice() == want, "{bytes:?}");
    }
    Ok(())
}

#[test]
fn utf16_becomes_utf8(rt: HostRuntime) -> Result<(), Fail> {
    let cases: [(&[u16], &[u8]); 6] = [
        (&[], b""),
        (&[0x41, 0xE9], b"A\xC3\xA9"),
        (&[0xD83D, 0xDE00], b"\xF0\x9F\x98\x80"),
        (&[0xD83D], b"\xEF\xBF\xBD"),
        (&[0xDE00, 0xD83D], b"\xEF\xBF\xBD\xEF\xBF\xBD"),
        (&[0xD83D, 0x41], b"\xEF\xBF\xBDA"),
    ];
    for (units, want) in cases {
        let units = Seq::copy(rt.alloc(), units)?;
        let bytes = bytes_of(rt.alloc(), &units)?;
        assert!(rt; bytes.as_slice() == want, "{want:?}");
    }
    Ok(())
}

#[test]
fn numbers_become_decimals(rt: HostRuntime) -> Result<(), Fail> {
    let cases: [(i64, &[u8]); 5] = [
        (0, b"0"),
        (-1, b"-1"),
        (42, b"42"),
        (9007199254740991, b"9007199254740991"),
        (i64::MIN, b"-9223372036854775808"),
    ];
    for (n, want) in cases {
        let text = decimal(rt.alloc(), n)?;
        assert!(rt; text.as_slice() == want, "{n}");
    }
    Ok(())
}

fn text(alloc: Global, bytes: &[u8]) -> Result<Bytes, NoMemory> {
    Seq::copy(alloc, bytes)
}

fn listed<T: Drop>(alloc: Global, item: T) -> Result<Seq<T>, NoMemory> {
    let mut list = Seq::new(alloc);
    list.push(item)?;
    Ok(list)
}

fn request(alloc: Global, body: Option<Bytes>) -> Result<ReqData, NoMemory> {
    Ok(ReqData {
        method: text(alloc, b"GET")?,
        url: text(alloc, b"http://localhost/")?,
        fields: listed(alloc, (text(alloc, b"host")?, text(alloc, b"localhost")?))?,
        body,
    })
}

fn reply(alloc: Global, status: u16) -> Result<Reply, NoMemory> {
    Ok(Reply {
        status,
        fields: Seq::new(alloc),
        body: text(alloc, b"body")?,
        why: Why::Plain,
    })
}

fn worker(alloc: Global, source: &[u8]) -> Result<Kind, NoMemory> {
    let value = BindValue::Text(Seq::copy(alloc, &[0x41, 0x42])?);
    let name = text(alloc, b"T")?;
    Ok(Kind::Worker(WorkerDef {
        form: Form::Module,
        source: text(alloc, source)?,
        bindings: listed(alloc, Binding { name, value })?,
        outbound: text(alloc, b"internet")?,
    }))
}

fn network(alloc: Global, bits: u8) -> Result<Kind, NoMemory> {
    let range = Range {
        class: RangeClass::Block,
        base: Ip4(167772160),
        bits,
    };
    Ok(Kind::Network(NetDef {
        allow: Seq::copy(alloc, &[range])?,
        deny: Seq::new(alloc),
    }))
}

fn disk(alloc: Global, writable: bool) -> Result<Kind, NoMemory> {
    Ok(Kind::Disk(DiskDef {
        path: text(alloc, b"/srv")?,
        writable,
        dotfiles: false,
    }))
}

fn config(alloc: Global, kind: Kind, port: u16) -> Result<Config, NoMemory> {
    let name = text(alloc, b"main")?;
    let address = Addr {
        host: text(alloc, b"*")?,
        port,
    };
    let socket = Socket {
        name: text(alloc, b"http")?,
        address,
        service: text(alloc, b"main")?,
    };
    Ok(Config {
        services: listed(alloc, Service { name, kind })?,
        sockets: listed(alloc, socket)?,
    })
}

// Each value equals its copy, and none of the others.
fn differ<T: TryClone + Same>(rt: &impl Abort, alloc: Global, values: &Seq<T>) -> Result<(), Fail> {
    let values = values.as_slice();
    for at in 0..values.len() {
        let copy = values[at].try_clone(alloc)?;
        for other in 0..values.len() {
            assert_eq!(rt; copy.same(&values[other]), at == other, "{at} and {other}");
        }
    }
    Ok(())
}

fn configs(alloc: Global) -> Result<Seq<Config>, NoMemory> {
    let mut list = Seq::new(alloc);
    list.push(config(alloc, worker(alloc, b"a")?, 80)?)?;
    list.push(config(alloc, worker(alloc, b"b")?, 80)?)?;
    list.push(config(alloc, worker(alloc, b"a")?, 81)?)?;
    list.push(config(alloc, network(alloc, 8)?, 80)?)?;
    list.push(config(alloc, network(alloc, 9)?, 80)?)?;
    list.push(config(alloc, disk(alloc, true)?, 80)?)?;
    list.push(config(alloc, disk(alloc, false)?, 80)?)?;
    list.push(config(alloc, external(alloc)?, 80)?)?;
    Ok(list)
}

fn external(alloc: Global) -> Result<Kind, NoMemory> {
    Ok(Kind::External(Addr {
        host: text(alloc, b"localhost")?,
        port: 80,
    }))
}

#[test]
fn configurations_are_copied_and_told_apart(rt: HostRuntime) -> Result<(), Fail> {
    let configs = configs(rt.alloc())?;
    differ(&rt, rt.alloc(), &configs)
}

fn bindings(alloc: Global) -> Result<Seq<BindValue>, NoMemory> {
    let mut list = Seq::new(alloc);
    list.push(BindValue::Text(Seq::copy(alloc, &[65])?))?;
    list.push(BindValue::Json(Seq::copy(alloc, &[65])?))?;
    list.push(BindValue::Buffer(text(alloc, b"A")?))?;
    list.push(BindValue::Service(text(alloc, b"A")?))?;
    list.push(BindValue::Service(text(alloc, b"B")?))?;
    Ok(list)
}

#[test]
fn bindings_are_copied_and_told_apart(rt: HostRuntime) -> Result<(), Fail> {
    let bindings = bindings(rt.alloc())?;
    differ(&rt, rt.alloc(), &bindings)
}

fn object(kind: ObjKind, read: bool, link: Option<LinkNo>) -> IoObject {
    IoObject {
        obj: Obj(0),
        kind,
        read,
        link,
    }
}

fn objects(alloc: Global) -> Result<Seq<IoObject>, NoMemory> {
    let mut list = Seq::new(alloc);
    let bodied = request(alloc, Some(text(alloc, b"x")?))?;
    list.push(object(ObjKind::Request(request(alloc, None)?), false, None))?;
    list.push(object(ObjKind::Request(bodied), false, None))?;
    list.push(object(ObjKind::Ctx, false, None))?;
    list.push(object(ObjKind::Ctx, true, None))?;
    list.push(object(ObjKind::Call(None), false, None))?;
    list.push(object(ObjKind::Call(None), false, Some(LinkNo(1))))?;
    list.push(object(ObjKind::Call(Some(reply(alloc, 200)?)), false, None))?;
    Ok(list)
}

#[test]
fn objects_are_copied_and_told_apart(rt: HostRuntime) -> Result<(), Fail> {
    let objects = objects(rt.alloc())?;
    differ(&rt, rt.alloc(), &objects)
}

fn wakes(alloc: Global) -> Result<Seq<Wake>, NoMemory> {
    let mut list = Seq::new(alloc);
    list.push(Wake::Start(request(alloc, None)?))?;
    list.push(Wake::Done(Op(0), OpResult::Reply(reply(alloc, 200)?)))?;
    list.push(Wake::Done(Op(0), OpResult::Reply(reply(alloc, 201)?)))?;
    list.push(Wake::Done(Op(0), OpResult::Lost))?;
    list.push(Wake::Done(Op(0), OpResult::Denied))?;
    list.push(Wake::Done(Op(0), OpResult::Bad))?;
    list.push(Wake::Done(Op(1), OpResult::Large))?;
    list.push(Wake::Cross(JobNo(0)))?;
    list.push(Wake::Dead)?;
    Ok(list)
}

fn operations(alloc: Global) -> Result<Seq<OpStart>, NoMemory> {
    let mut list = Seq::new(alloc);
    list.push(operation(alloc, 0)?)?;
    list.push(operation(alloc, 1)?)?;
    Ok(list)
}

fn operation(alloc: Global, allow: u32) -> Result<OpStart, NoMemory> {
    Ok(OpStart {
        op: Op(0),
        target: text(alloc, b"main")?,
        request: request(alloc, None)?,
        allow,
    })
}

#[test]
fn operations_are_copied_and_told_apart(rt: HostRuntime) -> Result<(), Fail> {
    let wakes = wakes(rt.alloc())?;
    differ(&rt, rt.alloc(), &wakes)?;
    let operations = operations(rt.alloc())?;
    differ(&rt, rt.alloc(), &operations)?;
    let origins = [
        Origin::Outside(LinkNo(1)),
        Origin::Child(Req(1), Op(0)),
        Origin::Child(Req(1), Op(1)),
        Origin::Caller,
    ];
    let origins = Seq::copy(rt.alloc(), &origins)?;
    differ(&rt, rt.alloc(), &origins)
}

#[test]
fn a_list_keeps_its_items(rt: HostRuntime) -> Result<(), Fail> {
    let mut list = Seq::copy(rt.alloc(), &[1u64, 2])?;
    list.extend(&[3])?;
    list.push(4)?;
    list.set(0, 9);
    assert_eq!(rt; list.len(), 4);
    assert_eq!(rt; list.get(3), Some(&4));
    assert_eq!(rt; list.get(4), None);
    let items = list.into_vec();
    assert_eq!(rt; items.as_slice(), [9, 2, 3, 4].as_slice());
    assert!(rt; Seq::from_vec(items).same(&Seq::copy(rt.alloc(), &[9, 2, 3, 4])?));
    assert!(rt; Seq::<u64>::new(rt.alloc()).is_empty());
    Ok(())
}

#[test]
fn the_last_item_is_the_top(rt: HostRuntime) -> Result<(), Fail> {
    let mut stack = Stack::new(rt.alloc());
    assert!(rt; stack.is_empty());
    for item in 1..4u32 {
        stack.push(item)?;
    }
    stack = stack.with(4)?;
    assert_eq!(rt; stack.len(), 4);
    assert_eq!(rt; stack.top(), Some(&4));
    for item in [4, 3, 2, 1] {
        assert_eq!(rt; stack.pop(), Some(item));
    }
    assert!(rt; stack.is_empty());
    assert_eq!(rt; stack.top(), None);
    let mut stack = Stack::of_list(Seq::copy(rt.alloc(), &[1u32, 2])?);
    assert_eq!(rt; stack.pop(), Some(1));
    Ok(())
}
