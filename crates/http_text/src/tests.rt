use crate::{bad_reply, phrase, reply_text, request_text};
use std::alloc::Global;
use std::process::Abort;
use std::test::Fail;
use wd_base::{Bytes, Fields, NoMemory, Reply, ReqData, Seq, Why};

fn fields_of(alloc: Global, pairs: &[(&[u8], &[u8])]) -> Result<Fields, NoMemory> {
    let mut fields = Seq::new(alloc);
    for pair in pairs {
        fields.push((Seq::copy(alloc, pair.0)?, Seq::copy(alloc, pair.1)?))?;
    }
    Ok(fields)
}

fn reply_of(
    alloc: Global,
    status: u16,
    pairs: &[(&[u8], &[u8])],
    body: &[u8],
) -> Result<Reply, NoMemory> {
    Ok(Reply {
        status,
        fields: fields_of(alloc, pairs)?,
        body: Seq::copy(alloc, body)?,
        why: Why::Plain,
    })
}

#[test]
fn replies_have_the_bytes_of_their_kind(rt: HostRuntime) -> Result<(), Fail> {
    let rows: [(u16, &[u8], bool, bool, &[u8]); 9] = [
        (
            200,
            b"Hello World\n",
            false,
            false,
            b"HTTP/1.1 200 OK\r\na: b\r\ncontent-length: 12\r\n\r\nHello World\n",
        ),
        (
            200,
            b"Hello World\n",
            true,
            true,
            b"HTTP/1.1 200 OK\r\na: b\r\ncontent-length: 12\r\nconnection: close\r\n\r\n",
        ),
        (
            103,
            b"x",
            false,
            false,
            b"HTTP/1.1 103 Early Hints\r\na: b\r\n\r\n",
        ),
        (199, b"x", false, false, b"HTTP/1.1 199 \r\na: b\r\n\r\n"),
        (
            204,
            b"x",
            false,
            false,
            b"HTTP/1.1 204 No Content\r\na: b\r\n\r\n",
        ),
        (
            205,
            b"x",
            false,
            false,
            b"HTTP/1.1 205 Reset Content\r\na: b\r\ncontent-length: 0\r\n\r\n",
        ),
        (
            304,
            b"x",
            false,
            true,
            b"HTTP/1.1 304 Not Modified\r\na: b\r\nconnection: close\r\n\r\n",
        ),
        (
            299,
            b"x",
            false,
            false,
            b"HTTP/1.1 299 \r\na: b\r\ncontent-length: 1\r\n\r\nx",
        ),
        (
            99,
            b"",
            false,
            false,
            b"HTTP/1.1 99 \r\na: b\r\ncontent-length: 0\r\n\r\n",
        ),
    ];
    let pairs: [(&[u8], &[u8]); 1] = [(b"a", b"b")];
    for (status, body, head, close, want) in rows {
        let reply = reply_of(rt.alloc(), status, &pairs, body)?;
        let text = reply_text(rt.alloc(), &reply, head, close)?;
        assert!(rt; text.as_slice() == want, "{status}");
    }
    Ok(())
}

#[test]
fn fields_of_one_link_are_left_out(rt: HostRuntime) -> Result<(), Fail> {
    let pairs: [(&[u8], &[u8]); 10] = [
        (b"connection", b"x"),
        (b"keep-alive", b"x"),
        (b"host", b"x"),
        (b"proxy-connection", b"x"),
        (b"te", b"x"),
        (b"trailer", b"x"),
        (b"transfer-encoding", b"x"),
        (b"upgrade", b"x"),
        (b"content-length", b"9"),
        (b"tea", b""),
    ];
    let reply = reply_of(rt.alloc(), 200, &pairs, b"")?;
    let text = reply_text(rt.alloc(), &reply, false, false)?;
    let want = b"HTTP/1.1 200 OK\r\nhost: x\r\ntea: \r\ncontent-length: 0\r\n\r\n".as_slice();
    assert!(rt; text.as_slice() == want);
    let request = request_of(rt.alloc(), b"http://a/", &pairs, None)?;
    let text = request_text(rt.alloc(), &request)?;
    let want = b"GET / HTTP/1.1\r\nhost: a\r\ntea: \r\nconnection: close\r\n\r\n".as_slice();
    assert!(rt; text.as_slice() == want);
    Ok(())
}

fn request_of(
    alloc: Global,
    url: &[u8],
    pairs: &[(&[u8], &[u8])],
    body: Option<Bytes>,
) -> Result<ReqData, NoMemory> {
    Ok(ReqData {
        method: Seq::copy(alloc, b"GET")?,
        url: Seq::copy(alloc, url)?,
        fields: fields_of(alloc, pairs)?,
        body,
    })
}

#[test]
fn requests_go_to_the_url(rt: HostRuntime) -> Result<(), Fail> {
    let rows: [(&[u8], &[u8]); 4] = [
        (
            b"http://u:p@localhost:8080/a/b?c=d#e",
            b"GET /a/b?c=d HTTP/1.1\r\nhost: localhost:8080\r\ncontent-length: 2\r\nconnection: close\r\n\r\nhi",
        ),
        (
            b"http://[::1]:80?",
            b"GET /? HTTP/1.1\r\nhost: [::1]\r\ncontent-length: 2\r\nconnection: close\r\n\r\nhi",
        ),
        (
            b"/a",
            b"GET  HTTP/1.1\r\nhost: \r\ncontent-length: 2\r\nconnection: close\r\n\r\nhi",
        ),
        (
            b"mailto:a@b",
            b"GET  HTTP/1.1\r\nhost: \r\ncontent-length: 2\r\nconnection: close\r\n\r\nhi",
        ),
    ];
    let pairs: [(&[u8], &[u8]); 1] = [(b"te", b"x")];
    for (url, want) in rows {
        let body = Seq::copy(rt.alloc(), b"hi")?;
        let request = request_of(rt.alloc(), url, &pairs, Some(body))?;
        let text = request_text(rt.alloc(), &request)?;
        assert!(rt; text.as_slice() == want, "{url:?}");
    }
    Ok(())
}

#[test]
fn the_first_worked_row(rt: HostRuntime) -> Result<(), Fail> {
    let pairs: [(&[u8], &[u8]); 1] = [(b"content-type", b"text/plain;charset=UTF-8")];
    let reply = reply_of(rt.alloc(), 200, &pairs, b"Hello World\n")?;
    let text = reply_text(rt.alloc(), &reply, false, false)?;
    let want =
        b"HTTP/1.1 200 OK\r\ncontent-type: text/plain;charset=UTF-8\r\ncontent-length: 12\r\n\
        \r\nHello World\n"
            .as_slice();
    assert!(rt; text.as_slice() == want);
    Ok(())
}

#[test]
fn refusals_have_their_phrase(rt: HostRuntime) -> Result<(), Fail> {
    let reply = bad_reply(rt.alloc(), 413)?;
    let text = reply_text(rt.alloc(), &reply, false, true)?;
    let want = b"HTTP/1.1 413 Payload Too Large\r\ncontent-type: text/plain;charset=UTF-8\r\n\
        content-length: 17\r\nconnection: close\r\n\r\nPayload Too Large"
        .as_slice();
    assert!(rt; text.as_slice() == want);
    assert!(rt; phrase(400) == "Bad Request");
    Ok(())
}
