use crate::{
    ConfigEnd, ConfigFault, ConfigKind, external_address, is_date, range, read, socket_address,
};
use capnp_text::TextKind;
use std::alloc::Global;
use std::test::Fail;
use wd_base::{Addr, Ip4, Kind, NoMemory, Range, RangeClass, Seq, Service};
use wd_ports::MemFiles;

fn named(class: RangeClass) -> Option<Range> {
    Some(Range {
        class,
        base: Ip4(0),
        bits: 0,
    })
}

fn block(base: u32, bits: u8) -> Option<Range> {
    Some(Range {
        class: RangeClass::Block,
        base: Ip4(base),
        bits,
    })
}

#[test]
fn dates_and_ranges_are_read(rt: HostRuntime) -> Result<(), Fail> {
    let dates: [(&[u8], bool); 6] = [
        (b"2023-02-28", true),
        (b"9999-99-99", true),
        (b"2023-2-28", false),
        (b"2023-02-28 ", false),
        (b"2023-02", false),
        (b"", false),
    ];
    for (text, want) in dates {
        assert_eq!(rt; is_date(text), want, "{text:?}");
    }
    let ranges: [(&[u8], Option<Range>); 12] = [
        (b"public", named(RangeClass::Public)),
        (b"private", named(RangeClass::Private)),
        (b"local", named(RangeClass::Local)),
        (b"10.0.0.0/8", block(0x0A00_0000, 8)),
        (b"1.2.3.255/0", block(0x0102_03FF, 0)),
        (b"255.255.255.255/32", block(0xFFFF_FFFF, 32)),
        (b"10.0.0.0/33", None),
        (b"10.0.0.0/08", None),
        (b"10.0.0.0", None),
        (b"256.0.0.0/8", None),
        (b"10.0.0/8", None),
        (b"network", None),
    ];
    for (text, want) in ranges {
        assert_eq!(rt; range(text), want, "{text:?}");
    }
    Ok(())
}

fn told(found: &Option<Addr>) -> Option<(&[u8], u16)> {
    match found {
        Some(address) => Some((address.host.as_slice(), address.port)),
        None => None,
    }
}

#[test]
fn addresses_are_read(rt: HostRuntime) -> Result<(), Fail> {
    let rows: [(&[u8], Option<(&[u8], u16)>, Option<(&[u8], u16)>); 9] = [
        (b"*:8080", Some((b"*", 8080)), None),
        (
            b"localhost:1",
            Some((b"localhost", 1)),
            Some((b"localhost", 1)),
        ),
        (
            b"127.0.0.1:65535",
            Some((b"127.0.0.1", 65535)),
            Some((b"127.0.0.1", 65535)),
        ),
        (b"a-b.example:8", None, Some((b"a-b.example", 8))),
        (b"a..b", None, Some((b"a..b", 80))),
        (b"localhost:0", None, None),
        (b"localhost:65536", None, None),
        (b"localhost:080", None, None),
        (b":80", None, None),
    ];
    for (text, socket, external) in rows {
        let found = socket_address(rt.alloc(), text)?;
        assert_eq!(rt; told(&found), socket, "{text:?}");
        let found = external_address(rt.alloc(), text)?;
        assert_eq!(rt; told(&found), external, "{text:?}");
    }
    Ok(())
}

/// The files that the texts below embed: `folder/bad`, which is no text, and `/x`.
fn stored(alloc: Global) -> Result<MemFiles, NoMemory> {
    let mut files = MemFiles::new(alloc);
    let path = Seq::copy(alloc, b"folder/bad")?;
    let bytes = Seq::copy(alloc, b"\xFF")?;
    files.files.push((path, bytes))?;
    let path = Seq::copy(alloc, b"/x")?;
    let bytes = Seq::copy(alloc, b"x")?;
    files.files.push((path, bytes))?;
    Ok(files)
}

/// The fault of a text.
fn fault_of(
    alloc: Global,
    text: &[u8],
    name: Option<&str>,
) -> Result<Option<ConfigFault>, NoMemory> {
    if text.len() > 536870912 {
        return Err(NoMemory);
    }
    let mut files = stored(alloc)?;
    match read(alloc, text, name, "folder/", &mut files) {
        Ok(_config) => Ok(None),
        Err(ConfigEnd::Fault(fault)) => Ok(Some(fault)),
        Err(ConfigEnd::NoMemory) => Err(NoMemory),
    }
}

/// A text, and its first fault: the kind, the place and the name.
type Row<'a> = (&'a [u8], ConfigKind, usize, &'a [u8]);

/// Each text has its fault.
fn are_told(alloc: Global, rows: &[Row<'_>]) -> Result<(), Fail> {
    for (text, kind, place, name) in rows {
        let Some(fault) = fault_of(alloc, text, None)? else {
            return Err("no fault".into());
        };
        if fault.kind != *kind || fault.place != *place || fault.name.as_slice() != *name {
            let text = String::from_utf8_lossy(alloc, text)?;
            return Err(Fail::new(text));
        }
    }
    Ok(())
}

#[test]
fn faults_of_the_file_and_its_constants(rt: HostRuntime) -> Result<(), Fail> {
    let rows: [Row<'_>; 16] = [
        (
            b"using W=import \"/workerd/workerd.capnp\";const c:W.Config=($",
            ConfigKind::Text(TextKind::BadByte),
            58,
            b"",
        ),
        (
            b"using W=import \"/workerd/workerd.capnp\";const c:W.Config=(",
            ConfigKind::Text(TextKind::Unclosed),
            58,
            b"",
        ),
        (
            b"using W=import \"/workerd/workerd.capnp\";",
            ConfigKind::NoSuchConst,
            0,
            b"",
        ),
        (
            b"using W=import \"/workerd/workerd.capnp\";const c:W.Worker=();",
            ConfigKind::NoSuchConst,
            0,
            b"",
        ),
        (
            b"using W=import \"/workerd/workerd.capnp\";const a:W.Config=();const b:W.Config=();",
            ConfigKind::SeveralConfigs,
            66,
            b"b",
        ),
        (
            b"using W=import \"/workerd/workerd.capnp\";const a:W.Config=();const a:Text=\"\";",
            ConfigKind::DoubleName,
            66,
            b"a",
        ),
        (
            b"using W=import \"/workerd/workerd.capnp\";using W=import \"x\";",
            ConfigKind::DoubleName,
            46,
            b"W",
        ),
        (
            b"using W=import \"/workerd/workerd.capnp\";using X=import \"x.capnp\";",
            ConfigKind::LeftOut,
            55,
            b"import",
        ),
        (
            b"using W=import \"/workerd/workerd.capnp\";const a:W.Thing=();",
            ConfigKind::LeftOut,
            48,
            b"type",
        ),
        (
            b"using W=import \"/workerd/workerd.capnp\";const a:X.Config=();",
            ConfigKind::LeftOut,
            48,
            b"type",
        ),
        (
            b"using W=import \"/workerd/workerd.capnp\";const a:Int=1;",
            ConfigKind::LeftOut,
            48,
            b"type",
        ),
        (
            b"using W=import \"/workerd/workerd.capnp\";const a:W.Config.Config=();",
            ConfigKind::LeftOut,
            48,
            b"type",
        ),
        (
            b"using W=import \"/workerd/workerd.capnp\";const c:W.Config=(services=.x);",
            ConfigKind::NoSuchConst,
            67,
            b"x",
        ),
        (
            b"using W=import \"/workerd/workerd.capnp\";const c:W.Config=.c;",
            ConfigKind::ConstLoop,
            57,
            b"c",
        ),
        (
            b"using W=import \"/workerd/workerd.capnp\";const c:W.Config=(services=.a);const a:Text=.b;const b:Text=.a;",
            ConfigKind::ConstLoop,
            100,
            b"a",
        ),
        (
            b"using W=import \"/workerd/workerd.capnp\";const c:W.Config=(services=[(name=\"s\",worker=.w)]);const w:W.Worker=(bindings=[(name=\"b\",service=.w)]);",
            ConfigKind::ConstLoop,
            137,
            b"w",
        ),
    ];
    are_told(rt.alloc(), &rows)
}

#[test]
fn unknown_fields_and_values_of_another_kind(rt: HostRuntime) -> Result<(), Fail> {
    let rows: [Row<'_>; 11] = [
        (
            b"using W=import \"/workerd/workerd.capnp\";const c:W.Config=(nothing=1);",
            ConfigKind::UnknownField,
            58,
            b"nothing",
        ),
        (
            b"using W=import \"/workerd/workerd.capnp\";const c:W.Config=(sockets=[(worker=1)]);",
            ConfigKind::UnknownField,
            68,
            b"worker",
        ),
        (
            b"using W=import \"/workerd/workerd.capnp\";const c:W.Config=1;",
            ConfigKind::WrongKind,
            57,
            b"c",
        ),
        (
            b"using W=import \"/workerd/workerd.capnp\";const c:W.Config=(services=());",
            ConfigKind::WrongKind,
            67,
            b"services",
        ),
        (
            b"using W=import \"/workerd/workerd.capnp\";const c:W.Config=(services=[1]);",
            ConfigKind::WrongKind,
            68,
            b"services",
        ),
        (
            b"using W=import \"/workerd/workerd.capnp\";const c:W.Config=(services=[(name=\"s\")]);",
            ConfigKind::WrongKind,
            68,
            b"worker",
        ),
        (
            b"using W=import \"/workerd/workerd.capnp\";const c:W.Config=(services=[(disk=\"p\")]);",
            ConfigKind::WrongKind,
            68,
            b"name",
        ),
        (
            b"using W=import \"/workerd/workerd.capnp\";const c:W.Config=(services=[(name=\"s\",disk=(writable=true))]);",
            ConfigKind::WrongKind,
            83,
            b"path",
        ),
        (
            b"using W=import \"/workerd/workerd.capnp\";const c:W.Config=(services=[(name=\"s\",disk=(path=.p))]);const p:Text=1;",
            ConfigKind::WrongKind,
            109,
            b"path",
        ),
        (
            b"using W=import \"/workerd/workerd.capnp\";const c:W.Config=(services=[(name=\"s\",disk=(path=\"p\",writable=yes))]);",
            ConfigKind::WrongKind,
            102,
            b"writable",
        ),
        (
            b"using W=import \"/workerd/workerd.capnp\";const c:W.Config=(services=[(name=\"s\",disk=(path=\"\\xff\"))]);",
            ConfigKind::WrongKind,
            89,
            b"path",
        ),
    ];
    are_told(rt.alloc(), &rows)
}

#[test]
fn values_of_another_kind_further_in(rt: HostRuntime) -> Result<(), Fail> {
    let rows: [Row<'_>; 12] = [
        (
            b"using W=import \"/workerd/workerd.capnp\";const c:W.Config=(services=[(name=\"s\",disk=(path=embed \"bad\"))]);",
            ConfigKind::WrongKind,
            89,
            b"path",
        ),
        (
            b"using W=import \"/workerd/workerd.capnp\";const c:W.Config=(services=[(name=\"s\",disk=(path=embed \"\\xff\"))]);",
            ConfigKind::WrongKind,
            89,
            b"path",
        ),
        (
            b"using W=import \"/workerd/workerd.capnp\";const c:W.Config=(services=[(name=\"s\",worker=(compatibilityDate=\"2024-1-1\",modules=[(name=\"m\",esModule=\"x\")]))]);",
            ConfigKind::WrongKind,
            104,
            b"compatibilityDate",
        ),
        (
            b"using W=import \"/workerd/workerd.capnp\";const c:W.Config=(services=[(name=\"s\",worker=(compatibilityFlags=[\"a\",1],modules=[(name=\"m\",esModule=\"x\")]))]);",
            ConfigKind::WrongKind,
            110,
            b"compatibilityFlags",
        ),
        (
            b"using W=import \"/workerd/workerd.capnp\";const c:W.Config=(services=[(name=\"s\",worker=(modules=\"x\"))]);",
            ConfigKind::WrongKind,
            94,
            b"modules",
        ),
        (
            b"using W=import \"/workerd/workerd.capnp\";const c:W.Config=(services=[(name=\"s\",worker=(modules=[(name=\"m\")]))]);",
            ConfigKind::WrongKind,
            95,
            b"esModule",
        ),
        (
            b"using W=import \"/workerd/workerd.capnp\";const c:W.Config=(services=[(name=\"s\",worker=(modules=[(name=\"m\",esModule=\"x\")],bindings=[(name=\"b\")]))]);",
            ConfigKind::WrongKind,
            130,
            b"text",
        ),
        (
            b"using W=import \"/workerd/workerd.capnp\";const c:W.Config=(services=[(name=\"s\",worker=(modules=[(name=\"m\",esModule=\"x\")],bindings=[(name=\"b\",text=0x\"61\")]))]);",
            ConfigKind::WrongKind,
            145,
            b"text",
        ),
        (
            b"using W=import \"/workerd/workerd.capnp\";const c:W.Config=(sockets=[(name=\"h\",address=\"*:80\")]);",
            ConfigKind::WrongKind,
            67,
            b"service",
        ),
        (
            b"using W=import \"/workerd/workerd.capnp\";const c:W.Config=(sockets=[(name=\"h\",http=(style=blue),address=\"*:80\",service=\"s\")]);",
            ConfigKind::WrongKind,
            89,
            b"style",
        ),
        (
            b"using W=import \"/workerd/workerd.capnp\";const c:W.Config=(sockets=[(name=\"h\",http=(style=proxy),address=\"*:80\",service=\"s\")]);",
            ConfigKind::LeftOut,
            83,
            b"style",
        ),
        (
            b"using W=import \"/workerd/workerd.capnp\";const c:W.Config=(services=[(name=\"s\",worker=(modules=[1,2]))]);",
            ConfigKind::LeftOut,
            86,
            b"modules",
        ),
    ];
    are_told(rt.alloc(), &rows)
}

#[test]
fn doubles(rt: HostRuntime) -> Result<(), Fail> {
    let rows: [Row<'_>; 8] = [
        (
            b"using W=import \"/workerd/workerd.capnp\";const c:W.Config=(services=[],services=[]);",
            ConfigKind::DoubleName,
            70,
            b"services",
        ),
        (
            b"using W=import \"/workerd/workerd.capnp\";const c:W.Config=(services=[(name=\"s\",disk=\"a\",network=())]);",
            ConfigKind::DoubleName,
            87,
            b"network",
        ),
        (
            b"using W=import \"/workerd/workerd.capnp\";const c:W.Config=(services=[(name=\"s\",worker=(modules=[(name=\"m\",esModule=\"x\")],serviceWorkerScript=\"x\"))]);",
            ConfigKind::DoubleName,
            120,
            b"serviceWorkerScript",
        ),
        (
            b"using W=import \"/workerd/workerd.capnp\";const c:W.Config=(services=[(name=\"s\",disk=\"p\"),(name=\"s\",nothing=1)]);",
            ConfigKind::DoubleName,
            94,
            b"s",
        ),
        (
            b"using W=import \"/workerd/workerd.capnp\";const c:W.Config=(services=[(name=\"s\",disk=\"p\"),(name=.n,disk=\"p\")]);const n:Text=\"s\";",
            ConfigKind::DoubleName,
            122,
            b"s",
        ),
        (
            b"using W=import \"/workerd/workerd.capnp\";const c:W.Config=(services=[(name=\"x\",disk=\"p\"),(disk=\"p\",name=embed \"/x\")]);",
            ConfigKind::DoubleName,
            103,
            b"x",
        ),
        (
            b"using W=import \"/workerd/workerd.capnp\";const c:W.Config=(services=[(name=\"s\",worker=(modules=[(name=\"m\",esModule=\"x\")],bindings=[(name=\"b\",text=\"\"),(name=\"b\",text=\"\")]))]);",
            ConfigKind::DoubleName,
            155,
            b"b",
        ),
        (
            b"using W=import \"/workerd/workerd.capnp\";const c:W.Config=(sockets=[(name=\"h\",address=\"*:80\",service=\"s\"),(name=\"h\")]);",
            ConfigKind::DoubleName,
            111,
            b"h",
        ),
    ];
    are_told(rt.alloc(), &rows)
}

#[test]
fn embeds_json_addresses_ranges_and_scripts(rt: HostRuntime) -> Result<(), Fail> {
    let rows: [Row<'_>; 9] = [
        (
            b"using W=import \"/workerd/workerd.capnp\";const c:W.Config=(services=[(name=\"s\",worker=(modules=[(name=\"m\",esModule=embed \"gone\")]))]);",
            ConfigKind::EmbedMissing,
            120,
            b"gone",
        ),
        (
            b"using W=import \"/workerd/workerd.capnp\";const c:W.Config=(services=[(name=\"s\",worker=(serviceWorkerScript=embed \"x\"))]);",
            ConfigKind::EmbedMissing,
            112,
            b"x",
        ),
        (
            b"using W=import \"/workerd/workerd.capnp\";const c:W.Config=(services=[(name=\"s\",worker=(modules=[(name=\"m\",esModule=\"x\")],bindings=[(name=\"b\",json=\"{\")]))]);",
            ConfigKind::BadJson,
            145,
            b"json",
        ),
        (
            b"using W=import \"/workerd/workerd.capnp\";const c:W.Config=(sockets=[(name=\"h\",address=\"example:80\",service=\"s\")]);",
            ConfigKind::BadAddress,
            85,
            b"address",
        ),
        (
            b"using W=import \"/workerd/workerd.capnp\";const c:W.Config=(services=[(name=\"s\",external=\"a:0\")]);",
            ConfigKind::BadAddress,
            87,
            b"external",
        ),
        (
            b"using W=import \"/workerd/workerd.capnp\";const c:W.Config=(services=[(name=\"s\",external=(address=\"\"))]);",
            ConfigKind::BadAddress,
            96,
            b"address",
        ),
        (
            b"using W=import \"/workerd/workerd.capnp\";const c:W.Config=(services=[(name=\"s\",network=(allow=[\"10.0.0.0/33\"]))]);",
            ConfigKind::BadRange,
            94,
            b"allow",
        ),
        (
            b"using W=import \"/workerd/workerd.capnp\";const c:W.Config=(services=[(name=\"s\",worker=())]);",
            ConfigKind::NoScript,
            85,
            b"Worker",
        ),
        (
            b"using W=import \"/workerd/workerd.capnp\";const c:W.Config=(services=[(name=\"s\",worker=(modules=[],bindings=[]))]);",
            ConfigKind::NoScript,
            85,
            b"Worker",
        ),
    ];
    are_told(rt.alloc(), &rows)
}

#[test]
fn fields_that_are_left_out(rt: HostRuntime) -> Result<(), Fail> {
    let rows: [Row<'_>; 13] = [
        (
            b"using W=import \"/workerd/workerd.capnp\";const c:W.Config=(v8Flags=1);",
            ConfigKind::LeftOut,
            58,
            b"v8Flags",
        ),
        (
            b"using W=import \"/workerd/workerd.capnp\";const c:W.Config=(extensions=1);",
            ConfigKind::LeftOut,
            58,
            b"extensions",
        ),
        (
            b"using W=import \"/workerd/workerd.capnp\";const c:W.Config=(autogates=1);",
            ConfigKind::LeftOut,
            58,
            b"autogates",
        ),
        (
            b"using W=import \"/workerd/workerd.capnp\";const c:W.Config=(services=[(name=\"s\",worker=(inherit=1))]);",
            ConfigKind::LeftOut,
            86,
            b"inherit",
        ),
        (
            b"using W=import \"/workerd/workerd.capnp\";const c:W.Config=(services=[(name=\"s\",worker=(durableObjectNamespaces=1))]);",
            ConfigKind::LeftOut,
            86,
            b"durableObjectNamespaces",
        ),
        (
            b"using W=import \"/workerd/workerd.capnp\";const c:W.Config=(services=[(name=\"s\",worker=(durableObjectStorage=1))]);",
            ConfigKind::LeftOut,
            86,
            b"durableObjectStorage",
        ),
        (
            b"using W=import \"/workerd/workerd.capnp\";const c:W.Config=(services=[(name=\"s\",worker=(cacheApiOutbound=1))]);",
            ConfigKind::LeftOut,
            86,
            b"cacheApiOutbound",
        ),
        (
            b"using W=import \"/workerd/workerd.capnp\";const c:W.Config=(services=[(name=\"s\",worker=(tails=1))]);",
            ConfigKind::LeftOut,
            86,
            b"tails",
        ),
        (
            b"using W=import \"/workerd/workerd.capnp\";const c:W.Config=(services=[(name=\"s\",worker=(modules=[(commonJsModule=1)]))]);",
            ConfigKind::LeftOut,
            96,
            b"commonJsModule",
        ),
        (
            b"using W=import \"/workerd/workerd.capnp\";const c:W.Config=(services=[(name=\"s\",worker=(modules=[(text=1)]))]);",
            ConfigKind::LeftOut,
            96,
            b"text",
        ),
        (
            b"using W=import \"/workerd/workerd.capnp\";const c:W.Config=(services=[(name=\"s\",worker=(modules=[(data=1)]))]);",
            ConfigKind::LeftOut,
            96,
            b"data",
        ),
        (
            b"using W=import \"/workerd/workerd.capnp\";const c:W.Config=(services=[(name=\"s\",worker=(modules=[(wasm=1)]))]);",
            ConfigKind::LeftOut,
            96,
            b"wasm",
        ),
        (
            b"using W=import \"/workerd/workerd.capnp\";const c:W.Config=(services=[(name=\"s\",worker=(modules=[(json=1)]))]);",
            ConfigKind::LeftOut,
            96,
            b"json",
        ),
    ];
    are_told(rt.alloc(), &rows)
}

#[test]
fn fields_of_bindings_that_are_left_out(rt: HostRuntime) -> Result<(), Fail> {
    let rows: [Row<'_>; 9] = [
        (
            b"using W=import \"/workerd/workerd.capnp\";const c:W.Config=(services=[(name=\"s\",worker=(modules=[(name=\"m\",esModule=\"x\")],bindings=[(parameter=1)]))]);",
            ConfigKind::LeftOut,
            131,
            b"parameter",
        ),
        (
            b"using W=import \"/workerd/workerd.capnp\";const c:W.Config=(services=[(name=\"s\",worker=(modules=[(name=\"m\",esModule=\"x\")],bindings=[(cryptoKey=1)]))]);",
            ConfigKind::LeftOut,
            131,
            b"cryptoKey",
        ),
        (
            b"using W=import \"/workerd/workerd.capnp\";const c:W.Config=(services=[(name=\"s\",worker=(modules=[(name=\"m\",esModule=\"x\")],bindings=[(wasmModule=1)]))]);",
            ConfigKind::LeftOut,
            131,
            b"wasmModule",
        ),
        (
            b"using W=import \"/workerd/workerd.capnp\";const c:W.Config=(services=[(name=\"s\",worker=(modules=[(name=\"m\",esModule=\"x\")],bindings=[(durableObjectNamespace=1)]))]);",
            ConfigKind::LeftOut,
            131,
            b"durableObjectNamespace",
        ),
        (
            b"using W=import \"/workerd/workerd.capnp\";const c:W.Config=(services=[(name=\"s\",worker=(modules=[(name=\"m\",esModule=\"x\")],bindings=[(kvNamespace=1)]))]);",
            ConfigKind::LeftOut,
            131,
            b"kvNamespace",
        ),
        (
            b"using W=import \"/workerd/workerd.capnp\";const c:W.Config=(services=[(name=\"s\",worker=(modules=[(name=\"m\",esModule=\"x\")],bindings=[(r2Bucket=1)]))]);",
            ConfigKind::LeftOut,
            131,
            b"r2Bucket",
        ),
        (
            b"using W=import \"/workerd/workerd.capnp\";const c:W.Config=(services=[(name=\"s\",worker=(modules=[(name=\"m\",esModule=\"x\")],bindings=[(queue=1)]))]);",
            ConfigKind::LeftOut,
            131,
            b"queue",
        ),
        (
            b"using W=import \"/workerd/workerd.capnp\";const c:W.Config=(services=[(name=\"s\",worker=(modules=[(name=\"m\",esModule=\"x\")],bindings=[(fromEnvironment=1)]))]);",
            ConfigKind::LeftOut,
            131,
            b"fromEnvironment",
        ),
        (
            b"using W=import \"/workerd/workerd.capnp\";const c:W.Config=(services=[(name=\"s\",worker=(modules=[(name=\"m\",esModule=\"x\")],bindings=[(analyticsEngine=1)]))]);",
            ConfigKind::LeftOut,
            131,
            b"analyticsEngine",
        ),
    ];
    are_told(rt.alloc(), &rows)
}

#[test]
fn other_fields_that_are_left_out(rt: HostRuntime) -> Result<(), Fail> {
    let rows: [Row<'_>; 10] = [
        (
            b"using W=import \"/workerd/workerd.capnp\";const c:W.Config=(services=[(name=\"s\",worker=(globalOutbound=(entrypoint=1)))]);",
            ConfigKind::LeftOut,
            102,
            b"entrypoint",
        ),
        (
            b"using W=import \"/workerd/workerd.capnp\";const c:W.Config=(services=[(name=\"s\",worker=(globalOutbound=(props=1)))]);",
            ConfigKind::LeftOut,
            102,
            b"props",
        ),
        (
            b"using W=import \"/workerd/workerd.capnp\";const c:W.Config=(services=[(name=\"s\",network=(tlsOptions=1))]);",
            ConfigKind::LeftOut,
            87,
            b"tlsOptions",
        ),
        (
            b"using W=import \"/workerd/workerd.capnp\";const c:W.Config=(services=[(name=\"s\",external=(https=1))]);",
            ConfigKind::LeftOut,
            88,
            b"https",
        ),
        (
            b"using W=import \"/workerd/workerd.capnp\";const c:W.Config=(services=[(name=\"s\",external=(tcp=1))]);",
            ConfigKind::LeftOut,
            88,
            b"tcp",
        ),
        (
            b"using W=import \"/workerd/workerd.capnp\";const c:W.Config=(sockets=[(https=1)]);",
            ConfigKind::LeftOut,
            68,
            b"https",
        ),
        (
            b"using W=import \"/workerd/workerd.capnp\";const c:W.Config=(sockets=[(http=(forwardedProtoHeader=1))]);",
            ConfigKind::LeftOut,
            74,
            b"forwardedProtoHeader",
        ),
        (
            b"using W=import \"/workerd/workerd.capnp\";const c:W.Config=(sockets=[(http=(cfBlobHeader=1))]);",
            ConfigKind::LeftOut,
            74,
            b"cfBlobHeader",
        ),
        (
            b"using W=import \"/workerd/workerd.capnp\";const c:W.Config=(sockets=[(http=(injectRequestHeaders=1))]);",
            ConfigKind::LeftOut,
            74,
            b"injectRequestHeaders",
        ),
        (
            b"using W=import \"/workerd/workerd.capnp\";const c:W.Config=(sockets=[(http=(injectResponseHeaders=1))]);",
            ConfigKind::LeftOut,
            74,
            b"injectResponseHeaders",
        ),
    ];
    are_told(rt.alloc(), &rows)
}

const WHOLE: &[u8] = b"using Workerd = import \"/workerd/workerd.capnp\";
@0x1f;
const other :Workerd.Config = ();
const config :Workerd.Config = (
  services = [
    (name = .main, worker = .hello),
    (name = \"net\", network = ()),
    (name = \"wide\", network = (allow = [\"private\", \"10.0.0.0/8\"], deny = [\"local\"])),
    (name = \"out\", external = \"a.example:8\"),
    (name = \"disk\", disk = (path = \"p\", writable = true)),
  ],
  sockets = [ (name = \"http\", address = \"*:8080\", http = (style = host), service = (name = \"main\")) ],
);
const main :Text = .more;
const more :Text = \"main\";
const hello :Workerd.Worker = (
  modules = [ (name = \"m\", esModule = embed \"/x\") ],
  compatibilityDate = \"2024-01-01\",
  compatibilityFlags = [\"a\", \"b\"],
  bindings = [
    (name = \"T\", text = embed \"/x\"),
    (name = \"D\", data = 0x\"00 ff\"),
    (name = \"J\", json = \"[1]\"),
    (name = \"S\", service = \"net\"),
  ],
);
";

/// How a service is told in the test below.
fn service_told(service: &Service) -> (&'static str, usize, usize) {
    match &service.kind {
        Kind::Worker(worker) => ("worker", worker.bindings.len(), worker.source.len()),
        Kind::Network(network) => ("network", network.allow.len(), network.deny.len()),
        Kind::External(address) => ("external", address.host.len(), address.port as usize),
        Kind::Disk(disk) => ("disk", disk.path.len(), if disk.writable { 1 } else { 0 }),
    }
}

#[test]
fn a_configuration_is_read(rt: HostRuntime) -> Result<(), Fail> {
    let mut files = stored(rt.alloc())?;
    let Ok(config) = read(rt.alloc(), WHOLE, Some("config"), "folder/", &mut files) else {
        return Err("no configuration".into());
    };
    let rows = [
        ("worker", 4, 1),
        ("network", 1, 0),
        ("network", 2, 1),
        ("external", 9, 8),
        ("disk", 1, 1),
    ];
    assert_eq!(rt; config.services.len(), 5);
    for (service, row) in config.services.as_slice().iter().zip(rows) {
        assert_eq!(rt; service_told(service), row);
    }
    assert_eq!(rt; config.sockets.len(), 1);
    Ok(())
}

#[test]
fn a_named_constant_is_read(rt: HostRuntime) -> Result<(), Fail> {
    let mut files = stored(rt.alloc())?;
    let found = read(rt.alloc(), WHOLE, Some("other"), "", &mut files);
    let Ok(config) = found else {
        return Err("no configuration".into());
    };
    assert!(rt; config.services.is_empty() && config.sockets.is_empty());
    let rows: [(&str, &[u8]); 3] = [("hello", b"hello"), ("nothing", b"nothing"), ("", b"")];
    for (name, want) in rows {
        let Some(fault) = fault_of(rt.alloc(), WHOLE, Some(name))? else {
            return Err("no fault".into());
        };
        assert_eq!(rt; fault.kind, ConfigKind::NoSuchConst);
        assert_eq!(rt; fault.place, 0);
        assert_eq!(rt; fault.name.as_slice(), want);
    }
    Ok(())
}

#[test]
fn a_read_that_fails_is_told(rt: HostRuntime) -> Result<(), Fail> {
    let mut files = stored(rt.alloc())?;
    files.fail.push(1)?;
    let found = read(rt.alloc(), WHOLE, Some("config"), "folder/", &mut files);
    let Err(ConfigEnd::Fault(fault)) = found else {
        return Err("no fault".into());
    };
    assert_eq!(rt; fault.kind, ConfigKind::EmbedFault);
    assert_eq!(rt; fault.name.as_slice(), b"/x".as_slice());
    assert_eq!(rt; files.faults.read, 1);
    Ok(())
}

/// A text with so many services, each of them a constant that leads to the first.
fn long_text(alloc: Global, count: u32) -> Result<Vec<u8>, Fail> {
    let mut text = Vec::from_slice(alloc, b"using W=import \"/workerd/workerd.capnp\";")?;
    text.extend_from_slice(b"const c0:Text=\"p\";const c:W.Config=(services=[")?;
    for number in 0..count {
        let line = format!(in alloc; "(name=\"s{number}\",disk=.c{number}),")?;
        text.extend_from_slice(line.as_bytes())?;
    }
    text.extend_from_slice(b"]);")?;
    for number in 1..count {
        let line = format!(in alloc; "const c{number}:Text=.c0;")?;
        text.extend_from_slice(line.as_bytes())?;
    }
    Ok(text)
}

#[test]
fn a_long_text_is_read(rt: HostRuntime) -> Result<(), Fail> {
    let text = long_text(rt.alloc(), 2000)?;
    if text.len() > 536870912 {
        return Err("too long".into());
    }
    let mut files = MemFiles::new(rt.alloc());
    let Ok(config) = read(rt.alloc(), text.as_slice(), None, "", &mut files) else {
        return Err("no configuration".into());
    };
    assert_eq!(rt; config.services.len(), 2000);
    Ok(())
}
