//! Whole calls over files, links and a sink in memory. What is expected was worked out by hand.

use crate::{Ended, offline, workerd};
use std::alloc::Global;
use std::sync::Wait;
use std::test::Fail;
use std::thread::Threads;
use wd_base::{
    Bytes, LinkNo, NoMemory, Numbers, Obj, Objs, Origin, Reply, ReqData, Same, Seq, SockNo, Why,
};
use wd_command::serves;
use wd_machine::{Entry, Out};
use wd_ports::{
    Failed, MemFiles, MemMaker, MemPort, MemSink, NoGate, PortEvent, PortPlan, Sink, Timed,
};

const CONFIG: &[u8] = b"using Workerd = import \"/workerd/workerd.capnp\";
const config :Workerd.Config = (
  services = [ (name = \"main\", worker = .hello), ],
  sockets = [ (name = \"http\", address = \"*:8080\", http = (), service = \"main\") ],
);
const hello :Workerd.Worker = (
  modules = [ (name = \"worker\", esModule = embed \"worker.js\") ],
  compatibilityDate = \"2024-01-01\",
);
";

const OTHER_CONFIG: &[u8] = b"const config :Workerd.Config = ();\n";

const HELLO: &[u8] = b"export default {
  async fetch(request) {
    return new Response(\"Hello World\\n\");
  }
};
";

const UNKNOWN_SERVICE: &[u8] = b"using Workerd = import \"/workerd/workerd.capnp\";
const config :Workerd.Config = (
  services = [ (name = \"main\", worker = (modules = [(name = \"a\", esModule = embed \"worker.js\")])) ],
  sockets = [ (name = \"http\", address = \"*:8080\", service = \"other\") ],
);
";

const WITH_BINDING: &[u8] = b"using Workerd = import \"/workerd/workerd.capnp\";
const config :Workerd.Config = (
  services = [ (name = \"main\", worker = (
    modules = [(name = \"a\", esModule = embed \"worker.js\")],
    bindings = [(name = \"B\", text = \"b\")],
  )) ],
  sockets = [ (name = \"http\", address = \"*:8080\", service = \"main\") ],
);
";

const TWO_CONFIGS: &[u8] = b"using Workerd = import \"/workerd/workerd.capnp\";
const none :Workerd.Config = ();
const two :Workerd.Config = (
  services = [ (name = \"a\", worker = .hello), (name = \"b\", worker = .hello) ],
  sockets = [
    (name = \"first\", address = \"*:8080\", service = \"a\"),
    (name = \"second\", address = \"*:8081\", service = \"b\"),
  ],
);
const hello :Workerd.Worker = (modules = [(name = \"a\", esModule = embed \"worker.js\")]);
";

const TWO_EMPTY: &[u8] = b"using Workerd = import \"/workerd/workerd.capnp\";
const a :Workerd.Config = ();
const b :Workerd.Config = ();
";

/// The base configuration with a binding to a service that is not there.
const NOWHERE: &[u8] = b"using Workerd = import \"/workerd/workerd.capnp\";
const config :Workerd.Config = (
  services = [ (name = \"main\", worker = .hello), ],
  sockets = [ (name = \"http\", address = \"*:8080\", http = (), service = \"main\") ],
);
const hello :Workerd.Worker = (
  modules = [ (name = \"worker\", esModule = embed \"worker.js\") ],
  compatibilityDate = \"2024-01-01\",
  bindings = [ (name = \"X\", service = \"nowhere\") ],
);
";

const OTHER_SCRIPT: &[u8] = b"export default {};\n";

const GET: &[u8] = b"GET / HTTP/1.1\r\nHost: localhost:8080\r\n\r\n";

const REPLY: &[u8] =
    b"HTTP/1.1 200 OK\r\ncontent-type: text/plain;charset=UTF-8\r\ncontent-length: 12\r\n\r\nHello World\n";

const REPLY_HEAD: &[u8] =
    b"HTTP/1.1 200 OK\r\ncontent-type: text/plain;charset=UTF-8\r\ncontent-length: 12\r\n\r\n";

const REPLY_CLOSING: &[u8] =
    b"HTTP/1.1 200 OK\r\ncontent-type: text/plain;charset=UTF-8\r\ncontent-length: 12\r\n\
    connection: close\r\n\r\nHello World\n";

const TOO_LARGE: &[u8] =
    b"HTTP/1.1 413 Payload Too Large\r\ncontent-type: text/plain;charset=UTF-8\r\n\
    content-length: 17\r\nconnection: close\r\n\r\nPayload Too Large";

const BAD: &[u8] = b"HTTP/1.1 400 Bad Request\r\ncontent-type: text/plain;charset=UTF-8\r\n\
    content-length: 11\r\nconnection: close\r\n\r\nBad Request";

const TOO_LARGE_HEAD: &[u8] =
    b"HTTP/1.1 413 Payload Too Large\r\ncontent-type: text/plain;charset=UTF-8\r\n\
    content-length: 17\r\nconnection: close\r\n\r\n";

const BAD_HEAD: &[u8] = b"HTTP/1.1 400 Bad Request\r\ncontent-type: text/plain;charset=UTF-8\r\n\
    content-length: 11\r\nconnection: close\r\n\r\n";

/// An empty line may stand before a request.
const HEAD_WITHOUT_HOST: &[u8] = b"\r\nHEAD / HTTP/1.1\r\n\r\n";

const HEAD_LARGE: &[u8] =
    b"HEAD / HTTP/1.1\r\nHost: localhost:8080\r\nContent-Length: 1048577\r\n\r\n";

const PIPELINED: &[u8] =
    b"GET / HTTP/1.1\r\nHost: localhost:8080\r\n\r\nGET /a HTTP/1.1\r\nHost: b\r\n\r\n";

const CURL: &[u8] =
    b"GET / HTTP/1.1\r\nHost: localhost:8080\r\nUser-Agent: curl/8.5.0\r\nAccept: */*\r\n\r\n";

const COUNTED: &[u8] =
    b"POST /a?b=c HTTP/1.1\r\nHost: localhost:8080\r\nContent-Type: text/plain\r\nContent-Length: 5\r\n\r\nhello";

const CHUNKED: &[u8] =
    b"POST / HTTP/1.1\r\nHost: localhost:8080\r\nTransfer-Encoding: chunked\r\n\r\n2\r\nhe\r\n3\r\nllo\r\n0\r\n\r\n";

const ONLY_HEAD: &[u8] = b"HEAD / HTTP/1.1\r\nHost: localhost:8080\r\n\r\n";

const CLOSING: &[u8] = b"GET / HTTP/1.1\r\nHost: localhost:8080\r\nConnection: close\r\n\r\n";

const LARGE: &[u8] = b"POST / HTTP/1.1\r\nHost: localhost:8080\r\nContent-Length: 1048577\r\n\r\n";

/// A head may begin so.
const METHOD: &[u8] = b"POST";

/// No head begins so.
const NO_HEAD: &[u8] = b"(";

const GET_FRONT: &[u8] = b"GET / HTTP/1.1\r\nHost: loc";

const GET_REST: &[u8] = b"alhost:8080\r\n\r\nGET";

const WITHOUT_HOST: &[u8] = b"GET / HTTP/1.1\r\n\r\n";

/// What of the outside fails.
#[derive(Clone, Copy, Debug, PartialEq, Eq)]
enum Part {
    Files,
    Maker,
    Port,
}

/// What stands around a call.
#[derive(Drop)]
struct Around<'a> {
    words: &'a [&'a str],
    config: &'a [u8],
    script: &'a [u8],
    /// The pieces that come on the first link, before its end.
    pieces: &'a [&'a [u8]],
    /// The link is gone behind its pieces, and does not end.
    gone: bool,
    /// The pieces that come on a second link, where there is one.
    second: Option<&'a [&'a [u8]]>,
    /// The socket at which the second link comes.
    second_socket: SockNo,
    /// The part that fails, and the number of the call that does.
    fails: Option<(Part, u64)>,
}

fn one_link<'a>(pieces: &'a [&'a [u8]]) -> Around<'a> {
    Around {
        words: &["serve", "config.capnp", "--threads", "1"],
        config: CONFIG,
        script: HELLO,
        pieces,
        gone: false,
        second: None,
        second_socket: SockNo(0),
        fails: None,
    }
}

fn words_of(alloc: Global, words: &[&str]) -> Result<Vec<String>, NoMemory> {
    let mut list = Vec::new(alloc);
    for word in words {
        let word = String::from_str(alloc, word)?;
        if list.push(word).is_err() {
            return Err(NoMemory);
        }
    }
    Ok(list)
}

/// The numbers of the calls of a part that fail.
fn fails_of(alloc: Global, around: &Around<'_>, part: Part) -> Result<Numbers, NoMemory> {
    let mut fails = Seq::new(alloc);
    if let Some((failing, number)) = around.fails {
        if failing == part {
            fails.push(number)?;
        }
    }
    Ok(fails)
}

/// The files; one without bytes is not there.
fn files_of(alloc: Global, around: &Around<'_>) -> Result<MemFiles, NoMemory> {
    let mut files = MemFiles::new(alloc);
    files.fail = fails_of(alloc, around, Part::Files)?;
    add_file(alloc, &mut files, b"config.capnp", around.config)?;
    add_file(alloc, &mut files, b"worker.js", around.script)?;
    Ok(files)
}

fn add_file(
    alloc: Global,
    files: &mut MemFiles,
    path: &[u8],
    bytes: &[u8],
) -> Result<(), NoMemory> {
    if bytes.is_empty() {
        return Ok(());
    }
    let path = Seq::copy(alloc, path)?;
    let bytes = Seq::copy(alloc, bytes)?;
    files.files.push((path, bytes))
}

fn plan_of(alloc: Global, around: &Around<'_>) -> Result<PortPlan, NoMemory> {
    let mut events = Seq::new(alloc);
    add_pieces(alloc, &mut events, LinkNo(1), SockNo(0), around.pieces)?;
    events.push((0, last_event(around.gone)))?;
    if let Some(pieces) = around.second {
        add_pieces(alloc, &mut events, LinkNo(2), around.second_socket, pieces)?;
        events.push((0, PortEvent::End(LinkNo(2))))?;
    }
    let fail = fails_of(alloc, around, Part::Port)?;
    Ok(PortPlan {
        events,
        hosts: Seq::new(alloc),
        peers: Seq::new(alloc),
        files: MemFiles::new(alloc),
        fail,
    })
}

/// A link that comes at a socket, with its pieces.
fn add_pieces(
    alloc: Global,
    events: &mut Timed,
    link: LinkNo,
    socket: SockNo,
    pieces: &[&[u8]],
) -> Result<(), NoMemory> {
    events.push((0, PortEvent::Accept(socket)))?;
    for piece in pieces {
        let piece = Seq::copy(alloc, piece)?;
        events.push((0, PortEvent::Bytes(link, piece)))?;
    }
    Ok(())
}

fn last_event(gone: bool) -> PortEvent {
    if gone {
        PortEvent::Gone(LinkNo(1))
    } else {
        PortEvent::End(LinkNo(1))
    }
}

fn maker_of(alloc: Global, around: &Around<'_>) -> Result<MemMaker, NoMemory> {
    let mut plans = Seq::new(alloc);
    plans.push(plan_of(alloc, around)?)?;
    let fail = fails_of(alloc, around, Part::Maker)?;
    Ok(MemMaker {
        plans,
        fail,
        calls: 0,
        faults: 0,
    })
}

/// A sink in memory that takes at most eight bytes at a write.
#[derive(Drop)]
struct NarrowSink {
    inner: MemSink,
}

impl Sink for NarrowSink {
    ghost use Rattle.std.specs.Prelude.{Some};

    ghost held = { λ s. Some s.inner.bytes };

    ghost failures = { λ s. s.inner.faults };

    fn write(&mut self, bytes: &[u8]) -> Result<usize, Failed> {
        let count = bytes.len().min(8);
        self.inner.write(&bytes[..count])
    }
}

/// A sink whose write of this number fails, where there is one.
fn sink_of(alloc: Global, fail: Option<u64>) -> Result<NarrowSink, NoMemory> {
    let mut fails = Seq::new(alloc);
    if let Some(number) = fail {
        fails.push(number)?;
    }
    let inner = MemSink {
        bytes: Seq::new(alloc),
        fail: fails,
        calls: 0,
        faults: 0,
    };
    Ok(NarrowSink { inner })
}

/// What a call came to: how it ended, and what was printed.
#[derive(Drop)]
struct Came {
    ended: Ended<MemPort>,
    printed: Bytes,
}

fn call<R: Threads + Wait + Sync>(
    rt: &R,
    alloc: Global,
    around: &Around<'_>,
    sink_fails: Option<u64>,
) -> Result<Came, NoMemory> {
    let words = words_of(alloc, around.words)?;
    let mut files = files_of(alloc, around)?;
    let mut maker = maker_of(alloc, around)?;
    let mut sink = sink_of(alloc, sink_fails)?;
    let ended = workerd(
        rt,
        alloc,
        words.as_slice(),
        &mut files,
        &mut maker,
        &mut sink,
        &NoGate,
    );
    Ok(Came {
        ended,
        printed: sink.inner.bytes,
    })
}

/// What was sent on a link, where there was one, and how often it was shut.
fn link_of(ports: &[MemPort], link: u32) -> (&[u8], u32) {
    match ports.first() {
        Some(port) if link > 0 && link as usize <= port.given() => (
            port.sent(LinkNo(link)).as_slice(),
            port.shuts(LinkNo(link)),
        ),
        _ => (b"", 0),
    }
}

/// The texts, one behind another.
fn joined(alloc: Global, texts: &[&[u8]]) -> Result<Bytes, NoMemory> {
    let mut bytes = Seq::new(alloc);
    for text in texts {
        bytes.extend(text)?;
    }
    Ok(bytes)
}

/// A link on which these pieces come carries these replies, is shut once, and its requests have so
/// many entries.
fn carries<R: Threads + Wait + Sync>(
    rt: &R,
    alloc: Global,
    pieces: &[&[u8]],
    replies: &[&[u8]],
    entries: usize,
) -> Result<bool, NoMemory> {
    let came = call(rt, alloc, &one_link(pieces), None)?;
    let (sent, shuts) = link_of(came.ended.ports.as_slice(), 1);
    let replies = joined(alloc, replies)?;
    Ok(
        came.ended.status == 0
            && came.printed.is_empty()
            && shuts == 1
            && came.ended.journal.entries.len() == entries
            && sent == replies.as_slice(),
    )
}

#[test]
fn a_link_carries_the_replies_of_its_requests(rt: HostRuntime) -> Result<(), Fail> {
    let cases: [(&[&[u8]], &[&[u8]], usize); 9] = [
        (&[GET], &[REPLY], 3),
        (&[GET, GET, GET], &[REPLY, REPLY, REPLY], 9),
        (&[PIPELINED], &[REPLY, REPLY], 6),
        (&[GET_FRONT, GET_REST], &[REPLY], 3),
        (&[], &[], 0),
        (&[METHOD], &[], 0),
        (&[NO_HEAD], &[BAD], 0),
        (&[GET, NO_HEAD, GET], &[REPLY, BAD], 3),
        (&[WITHOUT_HOST], &[BAD], 0),
    ];
    for (pieces, replies, entries) in cases {
        assert!(rt; carries(&rt, rt.alloc(), pieces, replies, entries)?);
    }
    Ok(())
}

#[test]
fn requests_of_each_kind_are_served(rt: HostRuntime) -> Result<(), Fail> {
    let cases: [(&[&[u8]], &[&[u8]], usize); 9] = [
        (&[HEAD_WITHOUT_HOST, GET], &[BAD_HEAD], 0),
        (&[GET, HEAD_LARGE], &[REPLY, TOO_LARGE_HEAD], 3),
        (&[CURL, CURL], &[REPLY, REPLY], 6),
        (&[COUNTED, GET], &[REPLY, REPLY], 6),
        (&[CHUNKED, GET], &[REPLY, REPLY], 6),
        (&[ONLY_HEAD, GET], &[REPLY_HEAD, REPLY], 6),
        (&[CLOSING, GET], &[REPLY_CLOSING], 3),
        (&[LARGE, GET], &[TOO_LARGE], 0),
        (&[GET, LARGE], &[REPLY, TOO_LARGE], 3),
    ];
    for (pieces, replies, entries) in cases {
        assert!(rt; carries(&rt, rt.alloc(), pieces, replies, entries)?);
    }
    Ok(())
}

#[test]
fn a_request_may_be_cut_anywhere(rt: HostRuntime) -> Result<(), Fail> {
    let requests: [&[u8]; 3] = [GET, COUNTED, CHUNKED];
    for request in requests {
        for cut in 1..request.len() {
            let pieces = [&request[..cut], &request[cut..]];
            let came = call(&rt, rt.alloc(), &one_link(&pieces), None)?;
            let (sent, _) = link_of(came.ended.ports.as_slice(), 1);
            assert!(rt; sent == REPLY, "at {cut}");
        }
    }
    Ok(())
}

#[test]
fn a_link_that_is_gone_is_shut(rt: HostRuntime) -> Result<(), Fail> {
    let around = Around {
        gone: true,
        ..one_link(&[b"GET /"])
    };
    let came = call(&rt, rt.alloc(), &around, None)?;
    let (sent, shuts) = link_of(came.ended.ports.as_slice(), 1);
    assert_eq!(rt; came.ended.status, 0);
    assert_eq!(rt; sent.len(), 0);
    assert_eq!(rt; shuts, 1);
    Ok(())
}

#[test]
fn a_link_whose_write_fails_is_shut(rt: HostRuntime) -> Result<(), Fail> {
    let around = Around {
        fails: Some((Part::Port, 2)),
        ..one_link(&[GET])
    };
    let came = call(&rt, rt.alloc(), &around, None)?;
    let (sent, shuts) = link_of(came.ended.ports.as_slice(), 1);
    assert_eq!(rt; came.ended.status, 0);
    assert_eq!(rt; came.ended.journal.entries.len(), 3);
    assert_eq!(rt; sent.len(), 0);
    assert_eq!(rt; shuts, 1);
    Ok(())
}

#[test]
fn two_links_have_their_own_replies(rt: HostRuntime) -> Result<(), Fail> {
    let around = Around {
        second: Some(&[PIPELINED, NO_HEAD]),
        ..one_link(&[GET_FRONT, GET_REST])
    };
    let came = call(&rt, rt.alloc(), &around, None)?;
    let (first, first_shuts) = link_of(came.ended.ports.as_slice(), 1);
    let (second, second_shuts) = link_of(came.ended.ports.as_slice(), 2);
    let replies = joined(rt.alloc(), &[REPLY, REPLY, BAD])?;
    assert_eq!(rt; came.ended.status, 0);
    assert!(rt; first == REPLY);
    assert!(rt; second == replies.as_slice());
    assert!(rt; first_shuts == 1 && second_shuts == 1);
    assert_eq!(rt; came.ended.journal.entries.len(), 9);
    Ok(())
}

/// The request of the worked journal, and the reply to it.
fn worked_request(alloc: Global) -> Result<ReqData, NoMemory> {
    let mut fields = Seq::new(alloc);
    fields.push((
        Seq::copy(alloc, b"host")?,
        Seq::copy(alloc, b"localhost:8080")?,
    ))?;
    Ok(ReqData {
        method: Seq::copy(alloc, b"GET")?,
        url: Seq::copy(alloc, b"http://localhost:8080/")?,
        fields,
        body: None,
    })
}

fn worked_reply(alloc: Global) -> Result<Reply, NoMemory> {
    let mut fields = Seq::new(alloc);
    fields.push((
        Seq::copy(alloc, b"content-type")?,
        Seq::copy(alloc, b"text/plain;charset=UTF-8")?,
    ))?;
    Ok(Reply {
        status: 200,
        fields,
        body: Seq::copy(alloc, b"Hello World\n")?,
        why: Why::Plain,
    })
}

/// Objects 0 and 1: the request and its context.
fn both_objects(alloc: Global) -> Result<Objs, NoMemory> {
    let mut objects = Seq::new(alloc);
    objects.push(Obj(0))?;
    objects.push(Obj(1))?;
    Ok(objects)
}

/// What the one turn of the worked journal did.
fn worked_out(alloc: Global) -> Result<Out, NoMemory> {
    Ok(Out {
        made: both_objects(alloc)?,
        changed: Seq::new(alloc),
        freed: both_objects(alloc)?,
        uses: Seq::new(alloc),
        stray: Seq::new(alloc),
        ops: Seq::new(alloc),
        reply: Some(worked_reply(alloc)?),
        waits: 0,
        cross: Seq::new(alloc),
        released: Seq::new(alloc),
        condemned: false,
        heavy: false,
        logs: Seq::new(alloc),
        steps: 4,
    })
}

fn is_arrive(entry: &Entry, expected: &ReqData) -> bool {
    match entry {
        Entry::Arrive {
            seat,
            req,
            service,
            origin,
            allow,
            request,
        } => {
            seat.0 == 0
                && req.0 == 1
                && service.as_slice() == b"main".as_slice()
                && *origin == Origin::Outside(LinkNo(1))
                && *allow == 1000
                && request.same(expected)
        }
        _ => false,
    }
}

fn is_begin(entry: &Entry) -> bool {
    match entry {
        Entry::Begin { seat, req } => seat.0 == 0 && req.0 == 1,
        _ => false,
    }
}

fn is_turn(entry: &Entry, expected: &Out) -> bool {
    match entry {
        Entry::Turn { seat, req, out } => seat.0 == 0 && req.0 == 1 && out.same(expected),
        _ => false,
    }
}

fn is_worked_journal(entries: &[Entry], request: &ReqData, out: &Out) -> bool {
    match entries {
        [arrive, begin, turn] => {
            is_arrive(arrive, request) && is_begin(begin) && is_turn(turn, out)
        }
        _ => false,
    }
}

#[test]
fn the_journal_of_one_request(rt: HostRuntime) -> Result<(), Fail> {
    let request = worked_request(rt.alloc())?;
    let out = worked_out(rt.alloc())?;
    let came = call(&rt, rt.alloc(), &one_link(&[GET]), None)?;
    let entries = came.ended.journal.entries.as_slice();
    assert!(rt; is_worked_journal(entries, &request, &out));
    Ok(())
}

/// The request that arrived first, where one did.
fn first_request(entries: &[Entry]) -> Option<&ReqData> {
    match entries.first() {
        Some(Entry::Arrive { request, .. }) => Some(request),
        _ => None,
    }
}

#[test]
fn the_journal_has_a_request_as_it_came(rt: HostRuntime) -> Result<(), Fail> {
    let cases: [(&[u8], &[u8], &[u8], usize, Option<&[u8]>); 4] = [
        (CURL, b"GET", b"http://localhost:8080/", 3, None),
        (ONLY_HEAD, b"HEAD", b"http://localhost:8080/", 1, None),
        (
            COUNTED,
            b"POST",
            b"http://localhost:8080/a?b=c",
            3,
            Some(b"hello"),
        ),
        (
            CHUNKED,
            b"POST",
            b"http://localhost:8080/",
            2,
            Some(b"hello"),
        ),
    ];
    for (bytes, method, url, fields, body) in cases {
        let pieces = [bytes];
        let came = call(&rt, rt.alloc(), &one_link(&pieces), None)?;
        let request = first_request(came.ended.journal.entries.as_slice());
        assert!(rt;
            request.is_some_and(|request| request.method.as_slice() == method
                && request.url.as_slice() == url
                && request.fields.len() == fields
                && body_of(request) == body)
        );
    }
    Ok(())
}

fn body_of(request: &ReqData) -> Option<&[u8]> {
    match &request.body {
        Some(body) => Some(body.as_slice()),
        None => None,
    }
}

/// How many requests arrived at the service of this name.
fn arrivals_at(entries: &[Entry], name: &[u8]) -> usize {
    entries
        .iter()
        .filter(|entry| match entry {
            Entry::Arrive { service, .. } => service.as_slice() == name,
            _ => false,
        })
        .count()
}

#[test]
fn each_socket_has_its_service(rt: HostRuntime) -> Result<(), Fail> {
    let around = Around {
        words: &["serve", "config.capnp", "two"],
        config: TWO_CONFIGS,
        second: Some(&[GET]),
        second_socket: SockNo(1),
        ..one_link(&[PIPELINED])
    };
    let came = call(&rt, rt.alloc(), &around, None)?;
    let (first, _) = link_of(came.ended.ports.as_slice(), 1);
    let (second, _) = link_of(came.ended.ports.as_slice(), 2);
    let replies = joined(rt.alloc(), &[REPLY, REPLY])?;
    let entries = came.ended.journal.entries.as_slice();
    assert_eq!(rt; came.ended.status, 0);
    assert!(rt; first == replies.as_slice() && second == REPLY);
    assert_eq!(rt; arrivals_at(entries, b"a"), 2);
    assert_eq!(rt; arrivals_at(entries, b"b"), 1);
    Ok(())
}

#[test]
fn a_world_without_sockets_makes_no_port(rt: HostRuntime) -> Result<(), Fail> {
    let around = Around {
        words: &["serve", "config.capnp", "none"],
        config: TWO_CONFIGS,
        ..one_link(&[GET])
    };
    let came = call(&rt, rt.alloc(), &around, None)?;
    assert_eq!(rt; came.ended.status, 0);
    assert_eq!(rt; came.printed.len(), 0);
    assert!(rt; came.ended.ports.is_empty() && came.ended.journal.entries.is_empty());
    Ok(())
}

#[test]
fn a_check_serves_nothing(rt: HostRuntime) -> Result<(), Fail> {
    let cases: [(&[&str], &[u8], u8, &[u8]); 9] = [
        (&["check", "config.capnp"], CONFIG, 0, b"ok 2 1\n"),
        (
            &["check", "config.capnp"],
            TWO_EMPTY,
            2,
            b"error: config SeveralConfigs at 85: b\n",
        ),
        (&["check", "config.capnp", "a"], TWO_EMPTY, 0, b"ok 1 0\n"),
        (
            &["check", "config.capnp", "z"],
            TWO_EMPTY,
            2,
            b"error: config NoSuchConst at 0: z\n",
        ),
        (
            &["check", "config.capnp"],
            NOWHERE,
            2,
            b"error: link UnknownService main -> nowhere\n",
        ),
        (
            &["check", "config.capnp", "none"],
            TWO_CONFIGS,
            0,
            b"ok 1 0\n",
        ),
        (
            &["check", "config.capnp", "two"],
            TWO_CONFIGS,
            0,
            b"ok 3 2\n",
        ),
        (&["check", "config.capnp"], WITH_BINDING, 0, b"ok 2 1\n"),
        (
            &["check", "config.capnp"],
            TWO_CONFIGS,
            2,
            b"error: config SeveralConfigs at 88: two\n",
        ),
    ];
    for (words, config, status, text) in cases {
        let around = Around {
            words,
            config,
            ..one_link(&[])
        };
        let came = call(&rt, rt.alloc(), &around, None)?;
        assert_eq!(rt; came.ended.status, status);
        assert!(rt; came.printed.as_slice() == text, "at status {status}");
        assert!(rt; came.ended.ports.is_empty());
        let offline = offline_call(rt.alloc(), &around)?;
        assert!(rt; offline.0 == status && offline.1.as_slice() == text);
    }
    Ok(())
}

/// The status and the text of the call without a port.
fn offline_call(alloc: Global, around: &Around<'_>) -> Result<(u8, Bytes), NoMemory> {
    let words = words_of(alloc, around.words)?;
    let mut files = files_of(alloc, around)?;
    let mut sink = sink_of(alloc, None)?;
    if serves(alloc, words.as_slice())? {
        return Ok((9, sink.inner.bytes));
    }
    let status = offline(alloc, words.as_slice(), &mut files, &mut sink);
    Ok((status, sink.inner.bytes))
}

#[test]
fn ten_thousand_requests_on_one_link(rt: HostRuntime) -> Result<(), Fail> {
    let mut bytes: Bytes = Seq::new(rt.alloc());
    for _ in 0..10_000 {
        bytes.extend(GET)?;
    }
    let pieces = [bytes.as_slice()];
    let came = call(&rt, rt.alloc(), &one_link(&pieces), None)?;
    let (sent, _) = link_of(came.ended.ports.as_slice(), 1);
    assert_eq!(rt; came.ended.journal.entries.len(), 30_000);
    assert_eq!(rt; sent.len(), 910_000);
    Ok(())
}

#[test]
fn words_that_are_no_command_line(rt: HostRuntime) -> Result<(), Fail> {
    let cases: [&[&str]; 4] = [
        &[],
        &["serve"],
        &["serve", "config.capnp", "--threads", "0"],
        &["serve", "config.capnp", "one", "--threads", "1", "more"],
    ];
    for words in cases {
        let around = Around {
            words,
            ..one_link(&[])
        };
        let came = call(&rt, rt.alloc(), &around, None)?;
        assert_eq!(rt; came.ended.status, 1);
        assert!(rt; came.printed.as_slice() == b"error: command line\n".as_slice());
    }
    Ok(())
}

#[test]
fn a_refused_file_has_its_status_and_text(rt: HostRuntime) -> Result<(), Fail> {
    let cases: [(&[u8], &[u8], u8, &[u8]); 7] = [
        (
            NOWHERE,
            HELLO,
            2,
            b"error: link UnknownService main -> nowhere\n",
        ),
        (
            OTHER_CONFIG,
            HELLO,
            2,
            b"error: config LeftOut at 14: type\n",
        ),
        (
            UNKNOWN_SERVICE,
            HELLO,
            2,
            b"error: link UnknownService http -> other\n",
        ),
        (
            WITH_BINDING,
            HELLO,
            2,
            b"error: config LeftOut at 0: kind\n",
        ),
        (
            CONFIG,
            b"",
            2,
            b"error: config EmbedMissing at 300: worker.js\n",
        ),
        (
            CONFIG,
            OTHER_SCRIPT,
            3,
            b"error: script main: LeftOut form at 0\n",
        ),
        (b"", HELLO, 5, b"error: file config.capnp\n"),
    ];
    for (config, script, status, text) in cases {
        let around = Around {
            config,
            script,
            ..one_link(&[])
        };
        let came = call(&rt, rt.alloc(), &around, None)?;
        assert_eq!(rt; came.ended.status, status);
        assert!(rt; came.printed.as_slice() == text, "at status {status}");
    }
    Ok(())
}

#[test]
fn a_fault_has_its_status_and_text(rt: HostRuntime) -> Result<(), Fail> {
    let cases: [(Part, u64, u8, &[u8]); 4] = [
        (Part::Files, 0, 5, b"error: file config.capnp\n"),
        (Part::Files, 1, 5, b"error: file worker.js\n"),
        (Part::Maker, 0, 7, b"error: port 0\n"),
        (Part::Port, 0, 7, b"error: listen *:8080\n"),
    ];
    for (part, call_number, status, text) in cases {
        let around = Around {
            fails: Some((part, call_number)),
            ..one_link(&[])
        };
        let came = call(&rt, rt.alloc(), &around, None)?;
        assert_eq!(rt; came.ended.status, status);
        assert!(rt; came.printed.as_slice() == text, "at status {status}");
    }
    Ok(())
}

#[test]
fn a_sink_may_fail_in_the_middle_of_a_text(rt: HostRuntime) -> Result<(), Fail> {
    let around = Around {
        words: &["serve"],
        ..one_link(&[])
    };
    let came = call(&rt, rt.alloc(), &around, Some(1))?;
    assert_eq!(rt; came.ended.status, 4);
    assert!(rt; came.printed.as_slice() == b"error: c".as_slice());
    Ok(())
}
