ghost use Rattle.std.specs.Prelude.{All};
ghost use Rattle.wd_ports.specs.Links.{Keeps};

use crate::maker::Maker;
use crate::mem_files::MemFiles;
use crate::mem_maker::MemMaker;
use crate::mem_port::MemPort;
use crate::mem_sink::MemSink;
use crate::plan::{Peer, PortEvent, PortPlan};
use crate::port::{Files, Port};
use crate::sink::print;
use crate::told::{Accepted, Failed, Faults, FileFaults, FileKind, Got};
use std::alloc::Global;
use std::test::Fail;
use wd_base::{Addr, Bytes, Ip4, LinkNo, NoMemory, Numbers, Seat, Seq, SockNo, TryClone};

fn bytes(alloc: Global, text: &[u8]) -> Result<Bytes, NoMemory> {
    Seq::copy(alloc, text)
}

fn numbers(alloc: Global, items: &[u64]) -> Result<Numbers, NoMemory> {
    Seq::copy(alloc, items)
}

fn empty_plan(alloc: Global) -> PortPlan {
    PortPlan {
        events: Seq::new(alloc),
        hosts: Seq::new(alloc),
        peers: Seq::new(alloc),
        files: MemFiles::new(alloc),
        fail: Seq::new(alloc),
    }
}

/// A call of a port. Links are named by their places in the order in which the port gave them.
#[derive(Clone, Copy, Debug, PartialEq, Eq)]
enum Step {
    Listen,
    Accept,
    Lookup(&'static str),
    Connect(u16),
    Read(usize),
    Write(usize),
    Gone(usize),
}

/// The bytes that were read, or another answer in words. At most four bytes are read.
fn read_answer<P: Port>(alloc: Global, port: &mut P, link: LinkNo) -> Result<Bytes, NoMemory>
    requires { P.usable port.old link }
    ensures { Keeps (P.usable port.old) (P.side port.old) (P.usable port.new) (P.side port.new) }
{
    let mut buf = [0u8; 4];
    match port.read_link(link, &mut buf) {
        Ok(Got::Bytes(count)) => Seq::copy(alloc, &buf[..count]),
        Ok(Got::Later) => Seq::copy(alloc, b"later"),
        Ok(Got::End) => Seq::copy(alloc, b"end"),
        Err(Failed::Fault) => Seq::copy(alloc, b"fault"),
        Err(Failed::NoMemory) => Err(NoMemory),
    }
}

/// `sent` where both bytes of "xy" were sent.
fn write_answer<P: Port>(alloc: Global, port: &mut P, link: LinkNo) -> Result<Bytes, NoMemory>
    requires { P.usable port.old link }
    ensures { Keeps (P.usable port.old) (P.side port.old) (P.usable port.new) (P.side port.new) }
{
    match port.write_link(link, b"xy") {
        Ok(2) => Seq::copy(alloc, b"sent"),
        Ok(_) => Seq::copy(alloc, b"sent less"),
        Err(Failed::Fault) => Seq::copy(alloc, b"fault"),
        Err(Failed::NoMemory) => Err(NoMemory),
    }
}

fn gone_answer<P: Port>(alloc: Global, port: &mut P, link: LinkNo) -> Result<Bytes, NoMemory>
    requires { P.usable port.old link }
    ensures { Keeps (P.usable port.old) (P.side port.old) (P.usable port.new) (P.side port.new) }
{
    if port.gone(link) {
        Seq::copy(alloc, b"gone")
    } else {
        Seq::copy(alloc, b"here")
    }
}

fn digit(number: u32) -> u8 {
    b'0' + (number % 10) as u8
}

/// `socket` and its number.
fn listen_answer<P: Port>(alloc: Global, port: &mut P) -> Result<Bytes, NoMemory>
    ensures { Keeps (P.usable port.old) (P.side port.old) (P.usable port.new) (P.side port.new) }
{
    let host = Seq::copy(alloc, b"*")?;
    let mut text = Seq::copy(alloc, b"socket ")?;
    match port.listen(alloc, &Addr { host, port: 80 }) {
        Ok(socket) => {
            text.push(digit(socket.0))?;
            Ok(text)
        }
        Err(Failed::Fault) => Seq::copy(alloc, b"fault"),
        Err(Failed::NoMemory) => Err(NoMemory),
    }
}

/// The last bytes of the addresses.
fn lookup_answer<P: Port>(alloc: Global, port: &mut P, host: &str) -> Result<Bytes, NoMemory>
    ensures { Keeps (P.usable port.old) (P.side port.old) (P.usable port.new) (P.side port.new) }
{
    let mut text = Seq::new(alloc);
    match port.lookup(alloc, host) {
        Ok(ips) => {
            for ip in ips.as_slice() {
                text.push(digit(ip.0))?;
            }
            Ok(text)
        }
        Err(Failed::Fault) => Seq::copy(alloc, b"fault"),
        Err(Failed::NoMemory) => Err(NoMemory),
    }
}

/// The socket and the number of a link, which joins the others.
fn accept_answer<P: Port>(
    alloc: Global,
    port: &mut P,
    links: &mut Seq<LinkNo>,
) -> Result<Bytes, NoMemory>
    requires { All (P.usable port.old) links.old }
    ensures { All (P.usable port.new) links.new }
{
    let mut text = Seq::copy(alloc, b"link ")?;
    match port.accept(alloc)? {
        Accepted::Link(socket, link) => {
            links.push(link)?;
            text.push(digit(socket.0))?;
            text.push(digit(link.0))?;
            Ok(text)
        }
        Accepted::Later => Seq::copy(alloc, b"later"),
        Accepted::Closed => Seq::copy(alloc, b"closed"),
    }
}

/// The number of a link to address 1, which joins the others.
fn connect_answer<P: Port>(
    alloc: Global,
    port: &mut P,
    links: &mut Seq<LinkNo>,
    to: u16,
) -> Result<Bytes, NoMemory>
    requires { All (P.usable port.old) links.old }
    ensures { All (P.usable port.new) links.new }
{
    let mut text = Seq::copy(alloc, b"link ")?;
    match port.connect(alloc, Ip4(1), to) {
        Ok(link) => {
            links.push(link)?;
            text.push(digit(link.0))?;
            Ok(text)
        }
        Err(Failed::Fault) => Seq::copy(alloc, b"fault"),
        Err(Failed::NoMemory) => Err(NoMemory),
    }
}

/// The answer of a call.
fn answer<P: Port>(
    alloc: Global,
    port: &mut P,
    links: &mut Seq<LinkNo>,
    step: Step,
) -> Result<Bytes, NoMemory>
    requires { All (P.usable port.old) links.old }
    ensures { All (P.usable port.new) links.new }
{
    match step {
        Step::Listen => listen_answer(alloc, port),
        Step::Accept => accept_answer(alloc, port, links),
        Step::Lookup(host) => lookup_answer(alloc, port, host),
        Step::Connect(to) => connect_answer(alloc, port, links, to),
        Step::Read(at) => match links.get(at) {
            Some(link) => read_answer(alloc, port, *link),
            None => Seq::copy(alloc, b"no link"),
        },
        Step::Write(at) => match links.get(at) {
            Some(link) => write_answer(alloc, port, *link),
            None => Seq::copy(alloc, b"no link"),
        },
        Step::Gone(at) => match links.get(at) {
            Some(link) => gone_answer(alloc, port, *link),
            None => Seq::copy(alloc, b"no link"),
        },
    }
}

/// The first step whose answer is another one.
fn first_wrong<P: Port>(
    alloc: Global,
    port: &mut P,
    steps: &[(Step, &'static str)],
) -> Result<Option<usize>, NoMemory> {
    let mut links = Seq::new(alloc);
    for at in 0..steps.len() {
        let text = answer(alloc, port, &mut links, steps[at].0)?;
        if text.as_slice() != steps[at].1.as_bytes() {
            return Ok(Some(at));
        }
    }
    Ok(None)
}

/// An event of a plan, with its bytes as a text.
#[derive(Clone, Copy, Debug, PartialEq, Eq)]
enum Happens {
    Accept(u32),
    Bytes(u32, &'static str),
    End(u32),
    Gone(u32),
}

/// Three links come, the second at a socket that is not listened at; so the third of the plan is
/// link 2 of the port. The last bytes of the first come behind its end.
const THREE_LINKS: [(u64, Happens); 9] = [
    (0, Happens::Accept(0)),
    (0, Happens::Bytes(1, "ab")),
    (0, Happens::Bytes(1, "cdefg")),
    (1, Happens::Accept(7)),
    (1, Happens::Accept(0)),
    (1, Happens::Bytes(3, "z")),
    (2, Happens::End(1)),
    (2, Happens::Bytes(1, "late")),
    (3, Happens::Gone(1)),
];

fn event_of(alloc: Global, event: Happens) -> Result<PortEvent, NoMemory> {
    match event {
        Happens::Accept(socket) => Ok(PortEvent::Accept(SockNo(socket))),
        Happens::Bytes(link, text) => {
            let bytes = bytes(alloc, text.as_bytes())?;
            Ok(PortEvent::Bytes(LinkNo(link), bytes))
        }
        Happens::End(link) => Ok(PortEvent::End(LinkNo(link))),
        Happens::Gone(link) => Ok(PortEvent::Gone(LinkNo(link))),
    }
}

/// The plan of these events.
fn plan_of_events(alloc: Global, events: &[(u64, Happens)]) -> Result<PortPlan, NoMemory> {
    let mut plan = empty_plan(alloc);
    for at in 0..events.len() {
        let event = event_of(alloc, events[at].1)?;
        plan.events.push((events[at].0, event))?;
    }
    Ok(plan)
}

const EVENTS: [(Step, &'static str); 22] = [
    (Step::Listen, "socket 0"),
    (Step::Accept, "link 01"),
    (Step::Accept, "later"),
    (Step::Read(0), "ab"),
    (Step::Read(0), "cdef"),
    (Step::Read(0), "g"),
    (Step::Read(0), "later"),
    (Step::Write(0), "sent"),
    (Step::Accept, "link 02"),
    (Step::Read(1), "z"),
    (Step::Read(1), "later"),
    (Step::Read(0), "later"),
    (Step::Accept, "later"),
    (Step::Write(1), "sent"),
    (Step::Read(0), "end"),
    (Step::Gone(0), "here"),
    (Step::Accept, "later"),
    (Step::Write(1), "sent"),
    (Step::Gone(0), "gone"),
    (Step::Gone(1), "here"),
    (Step::Accept, "closed"),
    (Step::Accept, "closed"),
];

/// The first step that a port of the plan answers otherwise, and how often its calls failed.
fn try_steps(
    alloc: Global,
    plan: PortPlan,
    steps: &[(Step, &'static str)],
) -> Result<(Option<usize>, u64), NoMemory> {
    let mut port = MemPort::new(alloc, plan)?;
    let wrong = first_wrong(alloc, &mut port, steps)?;
    Ok((wrong, port.fails()))
}

#[test]
fn events_happen_at_their_marks(rt: HostRuntime) -> Result<(), Fail> {
    let plan = plan_of_events(rt.alloc(), &THREE_LINKS)?;
    assert_eq!(rt; try_steps(rt.alloc(), plan, &EVENTS)?, (None, 0));
    Ok(())
}

/// A peer at address 1 and port 80.
fn add_peer(alloc: Global, plan: &mut PortPlan, mark: u64) -> Result<(), NoMemory> {
    let reply = bytes(alloc, b"reply")?;
    plan.peers.push(Peer {
        ip: Ip4(1),
        port: 80,
        reply,
        mark,
    })
}

/// A host with the addresses 1 and 2, and one without an address.
fn add_hosts(alloc: Global, plan: &mut PortPlan) -> Result<(), NoMemory> {
    let ips = Seq::copy(alloc, &[Ip4(1), Ip4(2)])?;
    let some = bytes(alloc, b"a.test")?;
    let none = bytes(alloc, b"b.test")?;
    plan.hosts.push((some, ips))?;
    plan.hosts.push((none, Seq::new(alloc)))
}

const PEERS: [(Step, &'static str); 12] = [
    (Step::Lookup("a.test"), "12"),
    (Step::Lookup("b.test"), "fault"),
    (Step::Lookup("c.test"), "fault"),
    (Step::Connect(81), "fault"),
    (Step::Connect(80), "link 1"),
    (Step::Read(0), "later"),
    (Step::Write(0), "sent"),
    (Step::Read(0), "repl"),
    (Step::Read(0), "y"),
    (Step::Read(0), "end"),
    (Step::Read(0), "end"),
    (Step::Accept, "closed"),
];

fn plan_of_peers(alloc: Global) -> Result<PortPlan, NoMemory> {
    let mut plan = empty_plan(alloc);
    add_peer(alloc, &mut plan, 2)?;
    add_hosts(alloc, &mut plan)?;
    Ok(plan)
}

#[test]
fn peers_reply_after_their_mark(rt: HostRuntime) -> Result<(), Fail> {
    let plan = plan_of_peers(rt.alloc())?;
    assert_eq!(rt; try_steps(rt.alloc(), plan, &PEERS)?, (None, 3));
    Ok(())
}

const FAILING: [(Step, &'static str); 11] = [
    (Step::Listen, "fault"),
    (Step::Listen, "socket 0"),
    (Step::Lookup("a.test"), "fault"),
    (Step::Connect(80), "fault"),
    (Step::Connect(80), "link 1"),
    (Step::Accept, "link 02"),
    (Step::Read(0), "fault"),
    (Step::Read(1), "fault"),
    (Step::Write(0), "fault"),
    (Step::Write(1), "fault"),
    (Step::Gone(0), "gone"),
];

fn plan_that_fails(alloc: Global) -> Result<PortPlan, NoMemory> {
    let mut plan = empty_plan(alloc);
    plan.events.push((0, PortEvent::Accept(SockNo(0))))?;
    add_peer(alloc, &mut plan, 0)?;
    plan.fail = numbers(alloc, &[0, 2, 3, 5, 6, 7, 8])?;
    Ok(plan)
}

/// The count of a port of that plan after its steps.
fn failing_count(alloc: Global) -> Result<Option<Faults>, NoMemory> {
    let plan = plan_that_fails(alloc)?;
    let mut port = MemPort::new(alloc, plan)?;
    match first_wrong(alloc, &mut port, &FAILING)? {
        Some(_) => Ok(None),
        None => Ok(Some(port.count())),
    }
}

#[test]
fn calls_fail_by_their_numbers(rt: HostRuntime) -> Result<(), Fail> {
    let once = Faults {
        files: FileFaults {
            read: 0,
            list: 0,
            write: 0,
        },
        listen: 1,
        lookup: 1,
        connect: 1,
        read_accepted: 1,
        read_connected: 1,
        write_accepted: 1,
        write_connected: 1,
    };
    assert_eq!(rt; failing_count(rt.alloc())?, Some(once));
    Ok(())
}

/// What was sent on the one link of a port, whose first write is of "xy", and how often it was
/// shut.
fn sent_and_shut(alloc: Global) -> Result<Option<(Bytes, u32)>, NoMemory> {
    let mut plan = empty_plan(alloc);
    add_peer(alloc, &mut plan, 0)?;
    let mut port = MemPort::new(alloc, plan)?;
    let Ok(link) = port.connect(alloc, Ip4(1), 80) else {
        return Ok(None);
    };
    let Ok(_) = port.write_link(link, b"xy") else {
        return Ok(None);
    };
    let sent = port.sent(link).try_clone(alloc)?;
    let before = port.shuts(link);
    port.shut(link);
    Ok(Some((sent, before)))
}

#[test]
fn a_port_keeps_what_was_sent(rt: HostRuntime) -> Result<(), Fail> {
    let Some((sent, shuts)) = sent_and_shut(rt.alloc())? else {
        panic!(rt; "no link");
    };
    assert_eq!(rt; sent.as_slice(), b"xy".as_slice());
    assert_eq!(rt; shuts, 0);
    Ok(())
}

/// A call on files.
#[derive(Clone, Copy, Debug, PartialEq, Eq)]
enum FileStep {
    Read(&'static str),
    List(&'static str),
    Write(&'static str, &'static str),
}

/// The names of a listing, each followed by `/` if it is a folder's and by `;`, and `(none)`.
fn list_text(alloc: Global, files: &mut MemFiles, path: &str) -> Result<Bytes, NoMemory> {
    let mut text = Seq::new(alloc);
    match files.list(alloc, path) {
        Ok(Some(names)) => {
            for name in names.as_slice() {
                text.extend(name.text.as_slice())?;
                if name.kind == FileKind::Folder {
                    text.extend(b"/")?;
                }
                text.extend(b";")?;
            }
        }
        Ok(None) => text.extend(b"(none)")?,
        Err(Failed::Fault) => text.extend(b"(fault)")?,
        Err(Failed::NoMemory) => return Err(NoMemory),
    }
    Ok(text)
}

/// What a read of a file gives, as a text.
fn file_text(alloc: Global, files: &mut MemFiles, path: &str) -> Result<Bytes, NoMemory> {
    match files.read(alloc, path) {
        Ok(Some(bytes)) => Ok(bytes),
        Ok(None) => Seq::copy(alloc, b"(none)"),
        Err(Failed::Fault) => Seq::copy(alloc, b"(fault)"),
        Err(Failed::NoMemory) => Err(NoMemory),
    }
}

/// Calls 9, 10 and 11 fail.
fn some_files(alloc: Global) -> Result<MemFiles, NoMemory> {
    let mut files = MemFiles::new(alloc);
    for (path, text) in [
        (b"d/a".as_slice(), b"1".as_slice()),
        (b"d/a", b"2"),
        (b"d/e/f", b"3"),
        (b"dd", b"4"),
    ] {
        let name = bytes(alloc, path)?;
        let text = bytes(alloc, text)?;
        files.files.push((name, text))?;
    }
    for path in [b"d".as_slice(), b"d/e", b"x/d/g"] {
        let name = bytes(alloc, path)?;
        files.folders.push(name)?;
    }
    files.fail = numbers(alloc, &[9, 10, 11])?;
    Ok(files)
}

/// `written`, or why not.
fn write_text(
    alloc: Global,
    files: &mut MemFiles,
    path: &str,
    text: &str,
) -> Result<Bytes, NoMemory> {
    match files.write(alloc, path, text.as_bytes()) {
        Ok(()) => Seq::copy(alloc, b"written"),
        Err(Failed::Fault) => Seq::copy(alloc, b"(fault)"),
        Err(Failed::NoMemory) => Err(NoMemory),
    }
}

const FILES: [(FileStep, &'static str); 13] = [
    (FileStep::Read("d/a"), "1"),
    (FileStep::Read("d"), "(none)"),
    (FileStep::Read("dd"), "4"),
    (FileStep::List("d"), "a;a;e/;"),
    (FileStep::List("d/e"), "f;"),
    (FileStep::List("x"), "(none)"),
    (FileStep::List("dd"), "(none)"),
    (FileStep::Write("d/a", "new"), "written"),
    (FileStep::Read("d/a"), "new"),
    (FileStep::Read("d/a"), "(fault)"),
    (FileStep::List("d"), "(fault)"),
    (FileStep::Write("d/a", "newer"), "(fault)"),
    (FileStep::Read("d/a"), "new"),
];

/// The first step that the files answer otherwise, and their count after the steps.
fn try_files(alloc: Global) -> Result<(Option<usize>, FileFaults), NoMemory> {
    let mut files = some_files(alloc)?;
    for at in 0..FILES.len() {
        let text = match FILES[at].0 {
            FileStep::Read(path) => file_text(alloc, &mut files, path)?,
            FileStep::List(path) => list_text(alloc, &mut files, path)?,
            FileStep::Write(path, text) => write_text(alloc, &mut files, path, text)?,
        };
        if text.as_slice() != FILES[at].1.as_bytes() {
            return Ok((Some(at), files.faults));
        }
    }
    Ok((None, files.faults))
}

#[test]
fn files_are_found_by_their_paths(rt: HostRuntime) -> Result<(), Fail> {
    let once = FileFaults {
        read: 1,
        list: 1,
        write: 1,
    };
    assert_eq!(rt; try_files(rt.alloc())?, (None, once));
    Ok(())
}

/// A plan for one seat, and call 2 fails.
fn maker_of_one(alloc: Global) -> Result<MemMaker, NoMemory> {
    let mut plan = empty_plan(alloc);
    plan.events.push((1, PortEvent::Accept(SockNo(0))))?;
    plan.files.faults.read = 5;
    let mut plans = Seq::new(alloc);
    plans.push(plan)?;
    let fail = numbers(alloc, &[2])?;
    Ok(MemMaker {
        plans,
        fail,
        calls: 0,
        faults: 0,
    })
}

/// The first answer of the port of a seat, and how often its calls failed.
fn first_answer(
    alloc: Global,
    maker: &mut MemMaker,
    seat: Seat,
) -> Result<Option<(Accepted, u64)>, NoMemory> {
    match maker.port(alloc, seat) {
        Ok(mut port) => {
            let answer = port.accept(alloc)?;
            Ok(Some((answer, port.fails())))
        }
        Err(Failed::Fault) => Ok(None),
        Err(Failed::NoMemory) => Err(NoMemory),
    }
}

#[test]
fn seats_get_their_plans(rt: HostRuntime) -> Result<(), Fail> {
    let mut maker = maker_of_one(rt.alloc())?;
    for (seat, want) in [
        (0, Some((Accepted::Later, 0))),
        (1, Some((Accepted::Closed, 0))),
        (0, None),
    ] {
        assert_eq!(rt; first_answer(rt.alloc(), &mut maker, Seat(seat))?, want);
    }
    assert_eq!(rt; maker.faults, 1);
    Ok(())
}

/// What a sink holds whose second write fails.
fn try_sink(alloc: Global) -> Result<MemSink, NoMemory> {
    let fail = numbers(alloc, &[1])?;
    let mut sink = MemSink {
        bytes: Seq::new(alloc),
        fail,
        calls: 0,
        faults: 0,
    };
    for text in ["one", "two", "three"] {
        if let Err(Failed::NoMemory) = print(&mut sink, text.as_bytes()) {
            return Err(NoMemory);
        }
    }
    Ok(sink)
}

#[test]
fn sinks_take_texts(rt: HostRuntime) -> Result<(), Fail> {
    let sink = try_sink(rt.alloc())?;
    assert_eq!(rt; sink.bytes.as_slice(), b"onethree".as_slice());
    assert_eq!(rt; sink.faults, 1);
    Ok(())
}
