ghost use Rattle.std.specs.Prelude.{◌≡◌, ◌≢◌, ◌↔◌, ℕ, ◌+◌, ◌<◌, ◌≤◌, ◌^◌, [], ◌∷◌, ◌++◌, length, take, drop, cond};
ghost use Rattle.std.specs.Prelude.{true, OnOk, OnErr, IfOk, IfSome, IsTrue};
ghost use Rattle.wd_ports.specs.Links.{KeepsOthers, Stays};
ghost use Rattle.wd_top.specs.declared.seat.link.Stage.{Stage as StageIs};
ghost use Rattle.wd_top.specs.declared.seat.table.Taken.{Taken as TakenIs};
ghost use Rattle.wd_top.specs.Session.{Session};
ghost use Rattle.wd_top.specs.Steps.{MovesOn, NoneFell};
ghost use Rattle.wd_top.specs.Table.{IsTableOf, Kept, SameFiles, AreWithin, Covers, keep, is_shut, run_at, new_run};

use crate::board::Board;
use crate::seat::link::{Heard, LinkRun, READ_SIZE, Stage, StepEnd, handle, hear};
use http_in::Conn;
use std::alloc::Global;
use wd_base::{LinkNo, NoMemory, SockNo};
use wd_machine::Isolate;
use wd_ports::{Accepted, Files, Port};

/// Something came of the link.
fn is_news(heard: &Heard) -> bool {
    match heard {
        Heard::Nothing => false,
        _ => true,
    }
}

/// One step on an open link. It tells whether anything came.
#[tactic(auto, using(crate::proofs::FaultSteps::none_fell_then))]
fn tend_run<P: Port, I: Isolate>(
    port: &mut P,
    alloc: Global,
    board: &mut Board<I>,
    run: &mut LinkRun,
    link: LinkNo,
    buf: &mut [u8; READ_SIZE],
) -> Result<bool, NoMemory>
    requires usable { P.usable port.old link }
    requires open { run.old.stage ≡ StageIs.Open }
    requires socket { run.old.socket.0 < length board.old.0.world.sockets }
    ensures moves { MovesOn P.told P.gone link port.old port.new board.old board.new run.old run.new }
    ensures fixed { board.new.0 ≡ board.old.0 }
    ensures handle { run.new.stage ≡ StageIs.Open → P.usable port.new link }
    ensures keeps { KeepsOthers link (P.usable port.old) (P.side port.old) (P.usable port.new) (P.side port.new) }
    ensures stays { Stays (P.gone port.old) (P.gone port.new) }
    ensures faults { NoneFell (P.faults port.old) (P.faults port.new) }
{
    let heard = hear(port, alloc, run, link, buf);
    let news = is_news(&heard);
    match handle(port, alloc, board, run, link, heard) {
        StepEnd::Open => Ok(news),
        StepEnd::Over => {
            port.shut(link);
            run.stage = Stage::Shut;
            run.conn = Conn::new(alloc);
            Ok(news)
        }
        StepEnd::Waits => {
            run.stage = Stage::Stopped;
            Ok(news)
        }
        StepEnd::Full => {
            run.stage = Stage::Stopped;
            Err(NoMemory)
        }
    }
}

/// The seat still tends the link.
fn is_open(run: &LinkRun) -> bool
    ensures { IsTrue result ↔ (run.now.stage ≡ StageIs.Open) }
{
    run.stage == Stage::Open
}

/// Tends the link at a place of the table.
#[tactic(auto, using(crate::proofs::FaultSteps::none_fell_same))]
fn tend<P: Port, I: Isolate>(
    port: &mut P,
    alloc: Global,
    board: &mut Board<I>,
    runs: &mut Vec<LinkRun>,
    at: usize,
    buf: &mut [u8; READ_SIZE],
) -> Result<bool, NoMemory>
    requires tended { IsTableOf P.told P.usable P.gone port.old board.old runs.old.items }
    requires found { at < length runs.old.items }
    requires small { length runs.old.items < 2 ^ 32 }
    ensures tended { IsTableOf P.told P.usable P.gone port.new board.new runs.new.items }
    ensures same { length runs.new.items ≡ length runs.old.items }
    ensures fixed { board.new.0 ≡ board.old.0 }
    ensures kept { Kept (P.told port.old) (P.told port.new) }
    ensures others { (i : ℕ) → i ≢ at → run_at runs.new.items i ≡ run_at runs.old.items i }
    ensures faults { NoneFell (P.faults port.old) (P.faults port.new) }
{
    if !is_open(&runs[at]) {
        return Ok(false);
    }
    let link = LinkNo(at as u32 + 1);
    tend_run(port, alloc, board, &mut runs[at], link, buf)
}

/// Tends each link of the list once. It tells whether anything came.
#[tactic(auto, using(crate::proofs::FaultSteps::none_fell_same, crate::proofs::FaultSteps::none_fell_then))]
fn tend_listed<P: Port, I: Isolate>(
    port: &mut P,
    alloc: Global,
    board: &mut Board<I>,
    runs: &mut Vec<LinkRun>,
    live: &[usize],
    buf: &mut [u8; READ_SIZE],
) -> Result<bool, NoMemory>
    requires tended { IsTableOf P.told P.usable P.gone port.old board.old runs.old.items }
    requires small { length runs.old.items < 2 ^ 32 }
    requires within { AreWithin live.now (length runs.old.items) }
    requires covers { Covers live.now runs.old.items }
    ensures tended { IsTableOf P.told P.usable P.gone port.new board.new runs.new.items }
    ensures same { length runs.new.items ≡ length runs.old.items }
    ensures fixed { board.new.0 ≡ board.old.0 }
    ensures kept { Kept (P.told port.old) (P.told port.new) }
    ensures covers { OnOk result (Covers live.now runs.new.items) }
    ensures faults { NoneFell (P.faults port.old) (P.faults port.new) }
{
    let mut news = false;
    for k in 0..live.len() {
        let came = tend(port, alloc, board, runs, live[k], buf)?;
        news = news || came;
    }
    Ok(news)
}

/// The link was shut.
fn is_shut(run: &LinkRun) -> bool
    ensures { result ≡ is_shut run.now.stage }
{
    match run.stage {
        Stage::Shut => true,
        Stage::Open => false,
        Stage::Stopped => false,
    }
}

/// The link at a place of the table was shut.
fn is_shut_at(runs: &[LinkRun], at: usize) -> bool
    requires { at < length runs.now }
    ensures { result ≡ is_shut (run_at runs.now at).stage }
{
    is_shut(&runs[at])
}

/// Puts an element behind those that were kept, where it stays.
#[tactic(auto, using(crate::proofs::LiveSteps::place_front, crate::proofs::LiveSteps::place_rest))]
fn place(live: &mut [usize], kept: usize, at: usize, goes: bool) -> usize
    requires { kept < length live.old }
    ensures front { take result live.new ≡ take kept live.old ++ cond goes [] (at ∷ []) }
    ensures rest { drop (kept + 1) live.new ≡ drop (kept + 1) live.old }
    ensures bound { result ≤ kept + 1 }
{
    if goes {
        return kept;
    }
    live[kept] = at;
    kept + 1
}

/// Moves what was not shut to the front of the list, and counts it.
fn keep_front(runs: &[LinkRun], live: &mut [usize]) -> usize
    requires { AreWithin live.old (length runs.now) }
    ensures kept { take result live.new ≡ keep runs.now live.old }
    ensures bound { result ≤ length live.new }
{
    let mut kept = 0;
    for k in 0..live.len() {
        let at = live[k];
        kept = place(live, kept, at, is_shut_at(runs, at));
    }
    kept
}

/// Drops the links that were shut from the list.
fn keep_live(runs: &[LinkRun], live: &mut Vec<usize>)
    requires { AreWithin live.old.items (length runs.now) }
    ensures { live.new.items ≡ keep runs.now live.old.items }
{
    let kept = keep_front(runs, live);
    live.truncate(kept);
}

/// Tends each link of the list once, and drops those that were shut. It tells whether anything
/// came.
pub fn tend_all<P: Port, I: Isolate>(
    port: &mut P,
    alloc: Global,
    board: &mut Board<I>,
    runs: &mut Vec<LinkRun>,
    live: &mut Vec<usize>,
    buf: &mut [u8; READ_SIZE],
) -> Result<bool, NoMemory>
    requires tended { IsTableOf P.told P.usable P.gone port.old board.old runs.old.items }
    requires small { length runs.old.items < 2 ^ 32 }
    requires within { AreWithin live.old.items (length runs.old.items) }
    requires covers { Covers live.old.items runs.old.items }
    ensures tended { IsTableOf P.told P.usable P.gone port.new board.new runs.new.items }
    ensures same { length runs.new.items ≡ length runs.old.items }
    ensures fixed { board.new.0 ≡ board.old.0 }
    ensures kept { Kept (P.told port.old) (P.told port.new) }
    ensures within { OnOk result (AreWithin live.new.items (length runs.new.items)) }
    ensures covers { OnOk result (Covers live.new.items runs.new.items) }
    ensures faults { NoneFell (P.faults port.old) (P.faults port.new) }
{
    let news = tend_listed(port, alloc, board, runs, live, buf)?;
    keep_live(runs, live);
    Ok(news)
}

/// What is kept of a link that was just accepted at a socket.
fn fresh_run(alloc: Global, socket: SockNo) -> LinkRun
    ensures { result ≡ new_run socket }
{
    LinkRun {
        socket,
        conn: Conn::new(alloc),
        stage: Stage::Open,
        ready: false,
    }
}

/// A place in the table and in the list for a new link.
#[tactic(auto, using(crate::proofs::LiveSteps::within_new, crate::proofs::LiveSteps::covers_new))]
fn add_run(
    alloc: Global,
    socket: SockNo,
    runs: &mut Vec<LinkRun>,
    live: &mut Vec<usize>,
) -> Result<(), NoMemory>
    requires within { AreWithin live.old.items (length runs.old.items) }
    requires covers { Covers live.old.items runs.old.items }
    ensures ok { OnOk result (runs.new.items ≡ runs.old.items ++ new_run socket ∷ []) }
    ensures within { OnOk result (AreWithin live.new.items (length runs.new.items)) }
    ensures covers { OnOk result (Covers live.new.items runs.new.items) }
{
    if live.push(runs.len()).is_err() {
        return Err(NoMemory);
    }
    match runs.push(fresh_run(alloc, socket)) {
        Ok(()) => Ok(()),
        Err(_) => Err(NoMemory),
    }
}

/// What `accept` gave.
#[derive(Clone, Copy, Debug, PartialEq, Eq)]
pub enum Taken {
    Link,
    Nothing,
    /// No further link will come.
    Closed,
}

/// Takes a link, where one waits.
#[tactic(auto, unfolding(wd_ports::specs::Told::given_on), using(crate::proofs::FaultSteps::none_fell_same))]
pub fn take_link<P: Port, I: Isolate>(
    port: &mut P,
    alloc: Global,
    board: &Board<I>,
    runs: &mut Vec<LinkRun>,
    live: &mut Vec<usize>,
) -> Result<Taken, NoMemory>
    requires tended { IsTableOf P.told P.usable P.gone port.old board.now runs.old.items }
    requires sockets { length (P.told port.old).sockets ≡ length board.now.0.world.sockets }
    requires small { length runs.old.items < 2 ^ 32 }
    requires within { AreWithin live.old.items (length runs.old.items) }
    requires covers { Covers live.old.items runs.old.items }
    ensures tended { OnOk result (IsTableOf P.told P.usable P.gone port.new board.now runs.new.items) }
    ensures small { OnOk result (length runs.new.items < 2 ^ 32) }
    ensures session { OnErr result (IfSome (P.told port.new).links
        (Session board.now.0.seat board.now.0.world.sockets board.now.1)) }
    ensures sockets { (P.told port.new).sockets ≡ (P.told port.old).sockets }
    ensures files { SameFiles (P.told port.old) (P.told port.new) }
    ensures closed { IfOk result (λ taken. taken ≡ TakenIs.Closed → (P.told port.new).closed ≡ true) }
    ensures within { OnOk result (AreWithin live.new.items (length runs.new.items)) }
    ensures covers { OnOk result (Covers live.new.items runs.new.items) }
    ensures faults { NoneFell (P.faults port.old) (P.faults port.new) }
{
    match port.accept(alloc) {
        Err(NoMemory) => Err(NoMemory),
        Ok(Accepted::Later) => Ok(Taken::Nothing),
        Ok(Accepted::Closed) => Ok(Taken::Closed),
        Ok(Accepted::Link(socket, _)) => match add_run(alloc, socket, runs, live) {
            Ok(()) => Ok(Taken::Link),
            Err(NoMemory) => Err(NoMemory),
        },
    }
}
