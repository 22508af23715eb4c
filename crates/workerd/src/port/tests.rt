use super::SystemPort;
use crate::maker::SystemMaker;
use std::alloc::Global;
use std::io::{Read, Write};
use std::net::{Shutdown, TcpStream};
use std::test::Fail;
use wd_base::{Addr, Ip4, NoMemory, Seat, Seq, SockNo};
use wd_ports::{Accepted, Failed, Got, Maker, Port};

type LoopbackPort = SystemPort<HostRuntime>;

fn address(alloc: Global, host: &[u8]) -> Result<Addr, NoMemory> {
    Ok(Addr {
        host: Seq::copy(alloc, host)?,
        port: 0,
    })
}

/// A port with a socket at each of two hosts of the loopback.
fn listening(rt: HostRuntime) -> Result<LoopbackPort, Fail> {
    let alloc = rt.alloc();
    let mut port = SystemMaker::new(rt).port(alloc, Seat(0))?;
    for host in [b"127.0.0.1", b"localhost"] {
        let _socket = port.listen(alloc, &address(alloc, host)?)?;
    }
    Ok(port)
}

fn connect(rt: &HostRuntime, port: &LoopbackPort, at: usize) -> Result<TcpStream, Fail> {
    let listener = port.listeners.get(at).ok_or("no such socket")?;
    let number = listener.socket.local_addr()?.port();
    Ok(TcpStream::connect(rt, ("127.0.0.1", number))?)
}

#[test]
fn bytes_in_pieces(rt: HostRuntime) -> Result<(), Fail> {
    let mut port = listening(rt)?;
    let mut client = connect(&rt, &port, 0)?;
    let Accepted::Link(SockNo(0), link) = port.accept(rt.alloc())? else {
        return Err(Fail::new("no link at socket 0"));
    };
    let mut buf = [0u8; 8];
    client.write_all(b"he")?;
    port.idle();
    let two = port.read_link(link, &mut buf)?;
    let none = port.read_link(link, &mut buf)?;
    client.write_all(b"y")?;
    port.idle();
    let one = port.read_link(link, &mut buf)?;
    assert_eq!(rt;
        (two, none, one),
        (Got::Bytes(2), Got::Later, Got::Bytes(1))
    );
    assert_eq!(rt; buf, *b"ye\0\0\0\0\0\0");
    Ok(())
}

#[test]
fn a_link_that_is_closed_on_one_side(rt: HostRuntime) -> Result<(), Fail> {
    let mut port = listening(rt)?;
    let mut client = connect(&rt, &port, 1)?;
    let Accepted::Link(SockNo(1), link) = port.accept(rt.alloc())? else {
        return Err(Fail::new("no link at socket 1"));
    };
    let mut buf = [0u8; 3];
    client.shutdown(Shutdown::Write)?;
    port.idle();
    assert_eq!(rt; port.read_link(link, &mut buf)?, Got::End);
    assert!(rt; !port.gone(link));
    assert_eq!(rt; port.write_link(link, b"ok")?, 2);
    port.shut(link);
    assert!(rt; port.links.is_empty());
    assert_eq!(rt; (client.read(&mut buf)?, buf), (2, *b"ok\0"));
    assert_eq!(rt; client.read(&mut buf)?, 0);
    Ok(())
}

#[test]
fn a_link_that_the_peer_resets(rt: HostRuntime) -> Result<(), Fail> {
    let mut port = listening(rt)?;
    let client = connect(&rt, &port, 0)?;
    let Accepted::Link(_, link) = port.accept(rt.alloc())? else {
        return Err(Fail::new("no link"));
    };
    let mut buf = [0u8; 8];
    // A socket that is closed with bytes unread resets its connection.
    let _sent = port.write_link(link, b"lost")?;
    drop(client);
    port.idle();
    assert!(rt; port.gone(link));
    assert_eq!(rt; port.read_link(link, &mut buf), Err(Failed::Fault));
    assert_eq!(rt; port.faults.read_accepted, 1);
    Ok(())
}

#[test]
fn what_fails(rt: HostRuntime) -> Result<(), Fail> {
    let alloc = rt.alloc();
    let mut port = listening(rt)?;
    let nowhere = address(alloc, b"example")?;
    assert_eq!(rt; port.listen(alloc, &nowhere), Err(Failed::Fault));
    assert_eq!(rt;
        port.connect(alloc, Ip4(0x7F00_0001), 80),
        Err(Failed::Fault)
    );
    assert_eq!(rt; port.lookup(alloc, "localhost").err(), Some(Failed::Fault));
    let counts = (port.faults.listen, port.faults.connect, port.faults.lookup);
    assert_eq!(rt; counts, (1, 1, 1));
    Ok(())
}
