use crate::{Heard, Response, response_of};
use std::alloc::Global;
use std::test::Fail;
use wd_base::NoMemory;

/// What the bytes of a link are, without the reply's fields.
#[derive(Clone, Copy, Debug, PartialEq, Eq)]
enum Kind {
    Later,
    /// A reply's status and how many bytes its body has.
    Reply(u16, usize),
    Bad,
    Large,
}

fn kind_of(heard: &Heard) -> Kind {
    match heard {
        Heard::Later => Kind::Later,
        Heard::Reply(reply) => Kind::Reply(reply.status, reply.body.len()),
        Heard::Bad => Kind::Bad,
        Heard::Large => Kind::Large,
    }
}

/// What bytes are while the link is open, and once it has ended, for a request that is not HEAD.
fn both(alloc: Global, bytes: &[u8]) -> Result<(Kind, Kind), NoMemory> {
    let running = response_of(alloc, bytes, false, false)?;
    let ended = response_of(alloc, bytes, true, false)?;
    Ok((kind_of(&running), kind_of(&ended)))
}

// RFC 9112, sections 4, 6 and 7; RFC 9110, section 15.2.
#[test]
fn responses_are_told_from_refusals(rt: HostRuntime) -> Result<(), Fail> {
    let unfinished = (Kind::Later, Kind::Bad);
    let bad = (Kind::Bad, Kind::Bad);
    let large = (Kind::Large, Kind::Large);
    let rows: [(&[u8], (Kind, Kind)); 35] = [
        (b"", unfinished),
        (b"\r\n\nHTTP/1.1 20", unfinished),
        (b"HTTP/1.1 200 OK\nA: b\n", unfinished),
        // a body of a length, behind which nothing is read
        (b"HTTP/1.1 200 OK\r\nContent-Length: 2\r\n\r\nh", unfinished),
        (
            b"HTTP/1.1 200 OK\r\nContent-Length: 2\r\n\r\nhi!",
            reply(200, 2),
        ),
        (b"HTTP/1.0 404\nContent-Length: 0\n\n", reply(404, 0)),
        (
            b"HTTP/1.1 205 R\r\nContent-Length: 1\r\n\r\na",
            reply(205, 1),
        ),
        // statuses without a body, whatever the fields are
        (
            b"HTTP/1.1 204 N\r\nTransfer-Encoding: gzip\r\n\r\n",
            reply(204, 0),
        ),
        (
            b"HTTP/1.1 304 N\r\nContent-Length: x\r\n\r\n",
            reply(304, 0),
        ),
        // interim heads
        (b"HTTP/1.1 100 C\r\n\r\n", unfinished),
        (
            b"HTTP/1.1 100 C\r\n\r\nHTTP/1.1 199\r\nContent-Length: x\r\n\r\nHTTP/1.1 201 C\r\nContent-Length: 1\r\n\r\na",
            reply(201, 1),
        ),
        (b"HTTP/1.1 099 X\r\nContent-Length: 0\r\n\r\n", reply(99, 0)),
        (b"HTTP/1.1 100 C\r\n\r\nHTTQ", bad),
        // chunks, which count before a length
        (
            b"HTTP/1.1 200 OK\r\nTransfer-Encoding: CHUNKED\r\nContent-Length: 1\r\n\r\n2;x\r\nab\r\n0\r\nB: c\r\n\r\n",
            reply(200, 2),
        ),
        (
            b"HTTP/1.1 200 OK\r\nTransfer-Encoding: chunked\r\n\r\n2\r\nab\r\n0\r\n",
            unfinished,
        ),
        (
            b"HTTP/1.1 200 OK\r\nTransfer-Encoding: chunked\r\n\r\n1\r\nab",
            bad,
        ),
        (
            b"HTTP/1.1 200 OK\r\nTransfer-Encoding: chunked\r\n\r\nx",
            bad,
        ),
        (
            b"HTTP/1.1 200 OK\r\nTransfer-Encoding: chunked\r\n\r\n100000\r\n",
            unfinished,
        ),
        (
            b"HTTP/1.1 200 OK\r\nTransfer-Encoding: chunked\r\n\r\n1\r\na\r\n100000\r\n",
            large,
        ),
        // up to the end
        (
            b"HTTP/1.1 200 OK\r\n\r\nabc",
            (Kind::Later, Kind::Reply(200, 3)),
        ),
        (
            b"HTTP/1.0 200 OK\r\nConnection: close\r\n\r\n",
            (Kind::Later, Kind::Reply(200, 0)),
        ),
        // what begins no response
        (b"HTTP/1.2", bad),
        (b"HTTP/1.1 2x", bad),
        (b"HTTP/1.1  200", bad),
        (b"HTTP/1.1 200 OK\r\nA : b", bad),
        (b"HTTP/1.1 200 OK\r\nA: b\r\n c", bad),
        // other uses of the two fields
        (
            b"HTTP/1.1 200 OK\r\nContent-Length: 1\r\nContent-Length: 1\r\n\r\n",
            bad,
        ),
        (b"HTTP/1.1 200 OK\r\nContent-Length: +1\r\n\r\n", bad),
        (b"HTTP/1.1 200 OK\r\nContent-Length:\r\n\r\n", bad),
        (b"HTTP/1.1 200 OK\r\nTransfer-Encoding: gzip\r\n\r\n", bad),
        (
            b"HTTP/1.1 200 OK\r\nTransfer-Encoding: gzip, chunked\r\n\r\n",
            bad,
        ),
        (
            b"HTTP/1.1 200 OK\r\nTransfer-Encoding: chunked\r\nTransfer-Encoding: chunked\r\n\r\n",
            bad,
        ),
        (
            b"HTTP/1.1 200 OK\r\nContent-Length: 1048577\r\nContent-Length: 1\r\n\r\n",
            bad,
        ),
        // lengths
        (
            b"HTTP/1.1 200 OK\r\nContent-Length: 1048576\r\n\r\n",
            unfinished,
        ),
        (b"HTTP/1.1 200 OK\r\nContent-Length: 1048577\r\n\r\n", large),
    ];
    for (bytes, wanted) in rows {
        let found = both(rt.alloc(), bytes)?;
        assert_eq!(rt; found, wanted, "{bytes:?}");
    }
    Ok(())
}

fn reply(status: u16, size: usize) -> (Kind, Kind) {
    (Kind::Reply(status, size), Kind::Reply(status, size))
}

#[test]
fn a_response_to_head_has_no_body(rt: HostRuntime) -> Result<(), Fail> {
    let rows: [(&[u8], Kind); 4] = [
        (
            b"HTTP/1.1 200 OK\r\nContent-Length: 9\r\n\r\n",
            Kind::Reply(200, 0),
        ),
        (
            b"HTTP/1.1 200 OK\r\nContent-Length: x\r\n\r\n",
            Kind::Reply(200, 0),
        ),
        (b"HTTP/1.1 200 OK\r\n\r\n", Kind::Reply(200, 0)),
        (b"HTTP/1.1 102 P\r\n\r\n", Kind::Later),
    ];
    for (bytes, wanted) in rows {
        let heard = response_of(rt.alloc(), bytes, false, true)?;
        assert_eq!(rt; kind_of(&heard), wanted, "{bytes:?}");
    }
    Ok(())
}

const WHOLE: &[u8] =
    b"HTTP/1.1 103 E\r\nX: y\r\n\r\n\r\nHTTP/1.1 200 OK\r\nX-A: b\r\nConnection: close\r\nTE: x\r\n\
    Set-Cookie: c\r\nTransfer-Encoding: chunked\r\n\r\n2\r\nde\r\n1\r\nf\r\n0\r\n\r\n";

#[test]
fn a_response_may_be_cut_anywhere(rt: HostRuntime) -> Result<(), Fail> {
    for cut in 0..WHOLE.len() {
        let mut response = Response::new(rt.alloc(), false);
        let first = response.feed(rt.alloc(), &WHOLE[..cut], false)?;
        assert!(&rt; matches!(first, Heard::Later), "at {cut}");
        match response.feed(rt.alloc(), &WHOLE[cut..], false)? {
            Heard::Reply(reply) => {
                assert!(&rt; reply.status == 200);
                assert!(&rt; reply.body.as_slice() == b"def".as_slice());
                assert!(&rt; reply.fields.len() == 2);
                assert!(&rt;
                    reply.fields.get(0).is_some_and(|f| f.0.as_slice() == b"x-a".as_slice()
                        && f.1.as_slice() == b"b".as_slice())
                );
                assert!(&rt;
                    reply.fields.get(1).is_some_and(|f| f.0.as_slice() == b"set-cookie".as_slice()
                        && f.1.as_slice() == b"c".as_slice())
                );
            }
            _ => assert!(&rt; false, "at {cut}"),
        }
    }
    Ok(())
}

#[test]
fn an_answer_stands(rt: HostRuntime) -> Result<(), Fail> {
    let rows: [(&[u8], Kind, Kind); 4] = [
        (b"HTTP/1.1 204 N\r\n\r\n", Kind::Reply(204, 0), Kind::Later),
        (b"HTTQ", Kind::Bad, Kind::Bad),
        (
            b"HTTP/1.1 200 OK\r\nContent-Length: 1048577\r\n\r\n",
            Kind::Large,
            Kind::Large,
        ),
        (
            b"HTTP/1.1 200 OK\r\nContent-Length: 1\r\n\r\n",
            Kind::Later,
            Kind::Reply(200, 1),
        ),
    ];
    for (bytes, first, second) in rows {
        let mut response = Response::new(rt.alloc(), false);
        let heard = response.feed(rt.alloc(), bytes, false)?;
        assert_eq!(rt; kind_of(&heard), first, "{bytes:?}");
        let heard = response.feed(rt.alloc(), b"a", true)?;
        assert_eq!(rt; kind_of(&heard), second, "{bytes:?}");
    }
    Ok(())
}

/// An interim head, then a head with so many fields, so many bytes in the last one, and what stands
/// behind it.
fn heads(alloc: Global, fields: usize, more: usize, end: &[u8]) -> Result<Vec<u8>, NoMemory> {
    let mut bytes = Vec::from_slice(alloc, b"HTTP/1.1 100 \n\nHTTP/1.1 204 \n")?;
    for _ in 0..fields {
        bytes.extend_from_slice(b"b:\n")?;
    }
    bytes.extend_from_slice(b"c:")?;
    for _ in 0..more {
        bytes.extend_from_slice(b"d")?;
    }
    bytes.extend_from_slice(end)?;
    Ok(bytes)
}

// Heads without further fields have 33 bytes beside those of the last value. The 16,384th byte makes
// them too large, where they are not whole with it; a byte before it may make them bad.
#[test]
fn heads_are_limited(rt: HostRuntime) -> Result<(), Fail> {
    let rows: [(usize, usize, &[u8], Kind); 10] = [
        (63, 0, b"\n\n", Kind::Reply(204, 0)),
        (64, 0, b"\n\n", Kind::Large),
        (64, 0, b"\n\0", Kind::Bad),
        (5_000, 0, b"\n\n", Kind::Large),
        (0, 16_351, b"\n\n", Kind::Reply(204, 0)),
        (0, 16_352, b"\n\n", Kind::Large),
        (0, 16_351, b"\n", Kind::Later),
        (0, 16_352, b"\0", Kind::Large),
        (0, 16_351, b"\0\n", Kind::Bad),
        (0, 16_351, b"\n\0", Kind::Large),
    ];
    for (fields, more, end, wanted) in rows {
        let bytes = heads(rt.alloc(), fields, more, end)?;
        let heard = response_of(rt.alloc(), bytes.as_slice(), false, false)?;
        assert_eq!(rt; kind_of(&heard), wanted, "{fields} {more}");
    }
    Ok(())
}

#[test]
fn bodies_up_to_the_end_are_limited(rt: HostRuntime) -> Result<(), Fail> {
    let rows = [
        (1_048_576, Kind::Reply(200, 1_048_576)),
        (1_048_577, Kind::Large),
    ];
    for (size, wanted) in rows {
        let mut bytes = Vec::from_slice(rt.alloc(), b"HTTP/1.1 200 OK\r\n\r\n")?;
        for _ in 0..size {
            bytes.push(b'a')?;
        }
        let heard = response_of(rt.alloc(), bytes.as_slice(), true, false)?;
        assert_eq!(rt; kind_of(&heard), wanted);
    }
    Ok(())
}
