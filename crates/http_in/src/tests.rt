use crate::{Conn, Fed};
use std::alloc::Global;
use std::test::Fail;
use wd_base::NoMemory;

/// What a stream that comes in one piece shows: requests, and the status of a refusal.
fn shown(alloc: Global, bytes: &[u8]) -> Result<(usize, Option<u16>), NoMemory> {
    let mut conn = Conn::new(alloc);
    let mut piece = bytes;
    let mut count: usize = 0;
    for _ in 0..10 {
        match conn.feed(alloc, piece)? {
            Fed::Later => return Ok((count, None)),
            Fed::Bad(code) => return Ok((count, Some(code))),
            Fed::Request(_request, _close) => {
                if count < 100 {
                    count += 1;
                }
            }
        }
        piece = b"";
    }
    Ok((count, None))
}

#[test]
fn refusals_come_in_their_order(rt: HostRuntime) -> Result<(), Fail> {
    let rows: [(&[u8], usize, Option<u16>); 44] = [
        (b"GET / HTTP/1.1\r\nHost: a\r\n\r\n", 1, None),
        (b"\r\n\nGET / HTTP/1.1\nHost: a\n\n", 1, None),
        (
            b"GET / HTTP/1.1\r\nHost: a\r\n\r\nGET / HTTP/1.1\r\nHost: a\r\n\r\n",
            2,
            None,
        ),
        (b"GET / HTTP/1.1\r\nHost: a\r\n\r\nGET / ", 1, None),
        (b"GET / HTTP/1.1\r\nHost: a\r\n\r\nGET\r", 1, Some(400)),
        (
            b"GET / HTTP/1.1\r\nHost: a\r\nConnection: x ,\tCLOSE\r\n\r\n?",
            1,
            None,
        ),
        (
            b"GET / HTTP/1.1\r\nHost: a\r\nConnection: closed\r\n\r\n?",
            1,
            Some(400),
        ),
        (b"GET / HTTP/1.0\r\nHost: a\r\n\r\n?", 1, None),
        // what is no prefix of a head
        (b"(", 0, Some(400)),
        (b"GET  ", 0, Some(400)),
        (b"GET /\xFF", 0, None),
        (b"GET /\xFF ", 0, Some(400)),
        (b"GET / HTTP/1.2", 0, Some(400)),
        (b"GET / HTTP/1.1\r\nHost : a", 0, Some(400)),
        (b"GET / HTTP/1.1\r\nHost: a\x00", 0, Some(400)),
        (b"GET / HTTP/1.1\r\nHost: a\r\n b", 0, Some(400)),
        // Host
        (b"GET / HTTP/1.1\r\n\r\n", 0, Some(400)),
        (b"GET / HTTP/1.0\r\n\r\n", 0, Some(400)),
        (
            b"GET / HTTP/1.1\r\nHost: a\r\nhOST: a\r\n\r\n",
            0,
            Some(400),
        ),
        // the target
        (b"GET a HTTP/1.1\r\nHost: a\r\n\r\n", 0, Some(400)),
        (b"GET https://a/ HTTP/1.1\r\nHost: a\r\n\r\n", 0, Some(400)),
        (b"OPTIONS * HTTP/1.1\r\nHost: a\r\n\r\n", 0, Some(400)),
        (b"GET http://b/ HTTP/1.1\r\nHost: a\r\n\r\n", 1, None),
        // the URL
        (b"GET / HTTP/1.1\r\nHost: \xFF\r\n\r\n", 0, Some(400)),
        (b"GET / HTTP/1.1\r\nHost: a b\r\n\r\n", 0, Some(400)),
        (b"GET / HTTP/1.1\r\nHost: a:99999\r\n\r\n", 0, Some(400)),
        // Content-Length and Transfer-Encoding
        (
            b"GET / HTTP/1.1\r\nHost: a\r\nContent-Length: 1\r\nTransfer-Encoding: chunked\r\n\r\n",
            0,
            Some(400),
        ),
        (
            b"GET / HTTP/1.1\r\nHost: a\r\nContent-Length: 1\r\nContent-Length: 1\r\n\r\n",
            0,
            Some(400),
        ),
        (
            b"GET / HTTP/1.1\r\nHost: a\r\nContent-Length: +1\r\n\r\n",
            0,
            Some(400),
        ),
        (
            b"GET / HTTP/1.1\r\nHost: a\r\nContent-Length:\r\n\r\n",
            0,
            Some(400),
        ),
        (
            b"GET / HTTP/1.1\r\nHost: a\r\nTransfer-Encoding: gzip\r\n\r\n",
            0,
            Some(400),
        ),
        (
            b"GET / HTTP/1.1\r\nHost: a\r\nTransfer-Encoding: gzip, chunked\r\n\r\n",
            0,
            Some(400),
        ),
        (
            b"GET / HTTP/1.1\r\nHost: a\r\nTransfer-Encoding: Chunked\r\n\r\n0\r\n\r\n",
            1,
            None,
        ),
        (
            b"GET / HTTP/1.1\r\nHost: a\r\nContent-Length: 1048576\r\n\r\n",
            0,
            None,
        ),
        (
            b"GET / HTTP/1.1\r\nHost: a\r\nContent-Length: 1048577\r\n\r\n",
            0,
            Some(413),
        ),
        (
            b"GET / HTTP/1.1\r\nContent-Length: 1048577\r\n\r\n",
            0,
            Some(400),
        ),
        (
            b"GET / HTTP/1.1\r\nHost: a\r\nContent-Length: 3\r\n\r\nab",
            0,
            None,
        ),
        (
            b"GET / HTTP/1.1\r\nHost: a\r\nContent-Length: 3\r\n\r\nabcGET",
            1,
            None,
        ),
        (
            b"GET / HTTP/1.1\r\nHost: a\r\nContent-Length: 0\r\n\r\n",
            1,
            None,
        ),
        // chunks
        (
            b"GET / HTTP/1.1\r\nHost: a\r\nTransfer-Encoding: chunked\r\n\r\n1\r\nab",
            0,
            Some(400),
        ),
        (
            b"GET / HTTP/1.1\r\nHost: a\r\nTransfer-Encoding: chunked\r\n\r\nx",
            0,
            Some(400),
        ),
        (
            b"GET / HTTP/1.1\r\nHost: a\r\nTransfer-Encoding: chunked\r\n\r\n100001\r\n",
            0,
            Some(413),
        ),
        (
            b"GET / HTTP/1.1\r\nHost: a\r\nTransfer-Encoding: chunked\r\n\r\n1\r\na\r\n100000\r\n",
            0,
            Some(413),
        ),
        (
            b"GET / HTTP/1.1\r\nHost: a\r\nTransfer-Encoding: chunked\r\n\r\n1;x\r\na\r\n0\r\nB: c\r\n\r\n(",
            1,
            Some(400),
        ),
    ];
    for (bytes, count, fault) in rows {
        let found = shown(rt.alloc(), bytes)?;
        assert_eq!(rt; found, (count, fault), "{bytes:?}");
    }
    Ok(())
}

const WHOLE: &[u8] =
    b"POST /a HTTP/1.1\r\nHost: b\r\nX-Y: Z\r\nTransfer-Encoding: chunked\r\n\r\n2\r\ncd\r\n0\r\n\r\n";

#[test]
fn a_request_may_be_cut_anywhere(rt: HostRuntime) -> Result<(), Fail> {
    for cut in 0..WHOLE.len() {
        let mut conn = Conn::new(rt.alloc());
        let first = conn.feed(rt.alloc(), &WHOLE[..cut])?;
        assert!(&rt; matches!(first, Fed::Later), "at {cut}");
        match conn.feed(rt.alloc(), &WHOLE[cut..])? {
            Fed::Request(request, close) => {
                assert!(&rt; !close);
                assert!(&rt; request.method.as_slice() == b"POST".as_slice());
                assert!(&rt; request.url.as_slice() == b"http://b/a".as_slice());
                assert!(&rt; request.fields.len() == 3);
                assert!(&rt;
                    request.fields.get(1).is_some_and(|f| f.0.as_slice() == b"x-y".as_slice()
                        && f.1.as_slice() == b"Z".as_slice())
                );
                assert!(&rt;
                    request
                        .body
                        .is_some_and(|b| b.as_slice() == b"cd".as_slice())
                );
            }
            _ => assert!(&rt; false, "at {cut}"),
        }
    }
    Ok(())
}

/// A head with so many fields beside Host, and `more` bytes in the last one.
fn head(alloc: Global, fields: usize, more: usize) -> Result<Vec<u8>, NoMemory> {
    let mut bytes = Vec::from_slice(alloc, b"GET / HTTP/1.1\r\nHost: a\r\n")?;
    for _ in 0..fields {
        bytes.extend_from_slice(b"b:\r\n")?;
    }
    bytes.extend_from_slice(b"c:")?;
    for _ in 0..more {
        bytes.extend_from_slice(b"d")?;
    }
    bytes.extend_from_slice(b"\r\n\r\n")?;
    Ok(bytes)
}

// A head without further fields has 31 bytes beside those of the last value.
#[test]
fn heads_are_limited(rt: HostRuntime) -> Result<(), Fail> {
    let rows = [
        (62, 0, 1, None),
        (63, 0, 0, Some(413)),
        (4_000, 0, 0, Some(413)),
        (0, 16_353, 1, None),
        (0, 16_354, 0, Some(413)),
    ];
    for (fields, more, count, fault) in rows {
        let bytes = head(rt.alloc(), fields, more)?;
        let found = shown(rt.alloc(), bytes.as_slice())?;
        assert_eq!(rt; found, (count, fault));
    }
    Ok(())
}
