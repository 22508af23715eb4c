ghost use Rattle.std.specs.Prelude.{◌≡◌, ◌≤◌, [], length, true, false, IfOk, IfErr, IsErrAnd};
ghost use Rattle.wd_command.specs.Command.{command, is_serve};
ghost use Rattle.wd_graph.specs.Links.{first_unknown};
ghost use Rattle.wd_machine.specs.declared.journal.Head.TheVariants.{Whole};
ghost use Rattle.wd_machine.specs.First.{AreFirst};
ghost use Rattle.wd_plan.specs.Constant.{constant_means};
ghost use Rattle.wd_plan.specs.Prepare.{IsPrepared};
ghost use Rattle.wd_ports.specs.Faults.{ReadFile, Rose, part};
ghost use Rattle.wd_top.specs.declared.outcome.Outcome.TheVariants as OutcomeIs;
ghost use Rattle.wd_top.specs.Calls.{AskToServe, AtPorts, ForNotice, HasCause, IsShown};
ghost use Rattle.wd_top.specs.Calls.{KeepFiles, ReportsNotice};
ghost use Rattle.wd_top.specs.Calls.{call_offline, call_with, printed_to, spoken, the_seat};
ghost use Rattle.wd_top.specs.Ended.{Comes, Ends, EndsOffline, IsCaused, IsEarly, IsSessionEnd, NoPortMade};
ghost use Rattle.wd_top.specs.Ended.{Ran as Runs};

use crate::board::Board;
use crate::outcome::{Outcome, report};
use crate::session::run_ports;
use std::alloc::Global;
use std::sync::Wait;
use std::thread::Threads;
use wd_base::{NoMemory, Seat, Seq};
use wd_command::Verb;
use wd_graph::World;
use wd_machine::{Head, Journal};
use wd_plan::{Constant, PlanEnd, Ready, prepare};
use wd_ports::{Files, Gate, Maker, Sink};

/// How a call ended.
#[derive(Drop)]
pub struct Ended<P> {
    /// The exit status: 0 where the session is done, the configuration was checked, or help or the
    /// version was asked for, 1 where the words are no command line, 2 where the configuration is
    /// refused, 3 where a script is, 4 where the sink failed, 5 where a file is missing or a read
    /// failed, 7 where no port could be made or one could not listen, and 9 for want of memory.
    pub status: u8,
    /// The journal of the session; empty where there was none.
    pub journal: Journal,
    /// The ports that the maker gave, in the order of seats, also one that could not listen.
    pub ports: Vec<P>,
}

/// A session's outcome, with its journal.
#[derive(Drop)]
struct Ran {
    outcome: Outcome,
    journal: Journal,
}

/// No session: the journal is empty.
fn early(alloc: Global, outcome: Outcome) -> Ran
    ensures outcome { result.outcome ≡ outcome }
    ensures journal { result.journal ≡ record { head = Whole; entries = [] } }
{
    Ran {
        outcome,
        journal: Journal {
            head: Head::Whole,
            entries: Seq::new(alloc),
        },
    }
}

/// The session of what is ready.
fn serve<R: Wait, M: Maker>(
    rt: &R,
    alloc: Global,
    maker: &mut M,
    world: World,
    isolates: Vec<Constant>,
    ports: &mut Vec<M::Port>,
) -> Ran
    requires first { AreFirst constant_means world isolates.items }
    requires known { first_unknown world ≡ None }
    requires ports { ports.old.items ≡ [] }
    ensures ran { Runs the_seat world result.outcome result.journal (length ports.new.items)
        (AtPorts the_seat M.Port.Files.told M.Port.Files.gone M.Port.Files.faults ports.new.items
        result.journal.entries result.outcome world) }
    ensures end { IsSessionEnd the_seat result.outcome }
    ensures failed { NoPortMade result.outcome → Rose (M.failures maker.old) (M.failures maker.new) }
    ensures files { KeepFiles the_seat M.plan maker.old M.Port.Files.told ports.new.items }
{
    match Board::new(alloc, Seat(0), world, isolates) {
        Err(NoMemory) => early(alloc, Outcome::NoMemory),
        Ok(board) => {
            let mut board = board;
            let outcome = run_ports(rt, alloc, maker, &mut board, ports);
            let journal = board.into_journal();
            Ran { outcome, journal }
        }
    }
}

/// The outcome of a configuration that was checked.
fn checked(world: &World) -> Outcome
    ensures { result ≡ OutcomeIs.Checked (length world.now.services) (length world.now.sockets) }
{
    Outcome::Checked(world.count(), world.sockets().len())
}

/// What is to be served, and else how the call comes out without a session.
#[tactic(auto, using(wd_plan::proofs::PlanLaws::serve_asked))]
fn begin<F: Files>(alloc: Global, words: &[String], files: &mut F) -> Result<Ready, Outcome>
    ensures ready { IfOk result IsPrepared }
    ensures asked { IfOk result (λ ready. AskToServe words.now (F.told files.old) ready.world) }
    ensures serves { IfOk result (λ ready. is_serve (command (spoken words.now)) ≡ true) }
    ensures early { IfErr result IsEarly }
    ensures caused { IfErr result (IsCaused (call_offline words.now F.told F.faults files.old files.new)) }
    ensures words { ForNotice words.now (λ notice. IsErrAnd result (IsShown notice)) }
    ensures later { part ReadFile (F.faults files.old) ≤ part ReadFile (F.faults files.new) }
    ensures tells { F.told files.new ≡ F.told files.old }
{
    match prepare(alloc, words, files) {
        Err(PlanEnd::NoMemory) => Err(Outcome::NoMemory),
        Err(PlanEnd::Refused(why)) => Err(Outcome::Refused(why)),
        Ok(ready) => match ready.verb {
            Verb::Serve => Ok(ready),
            Verb::Check => Err(checked(&ready.world)),
        },
    }
}

/// How the words and the files come out, with the session where there is one.
fn run<R: Wait, F: Files, M: Maker>(
    rt: &R,
    alloc: Global,
    words: &[String],
    files: &mut F,
    maker: &mut M,
    ports: &mut Vec<M::Port>,
) -> Ran
    requires { ports.old.items ≡ [] }
    ensures comes { Comes the_seat
        (call_with words.now F.told F.faults files.old files.new M.failures maker.old maker.new
        M.Port.Files.faults ports.new.items) result.outcome result.journal (length ports.new.items)
        (AtPorts the_seat M.Port.Files.told M.Port.Files.gone M.Port.Files.faults ports.new.items
        result.journal.entries result.outcome) }
    ensures words { ForNotice words.now (λ notice. IsShown notice result.outcome) }
    ensures later { part ReadFile (F.faults files.old) ≤ part ReadFile (F.faults files.new) }
    ensures tells { F.told files.new ≡ F.told files.old }
    ensures files { KeepFiles the_seat M.plan maker.old M.Port.Files.told ports.new.items }
{
    match begin(alloc, words, files) {
        Err(outcome) => early(alloc, outcome),
        Ok(
            Ready {
                world,
                isolates,
                ..
            },
        ) => serve(rt, alloc, maker, world, isolates, ports),
    }
}

/// Does what a command line asks for that serves nothing, without the program's own name:
/// `check <config> [<const>]`, `--help`, `--version`, or a line that is refused. For `check` it reads
/// and links the configuration, starts its scripts, and prints `ok <services> <sockets>`, or the one
/// line of the first fault.
///
/// The answer is the exit status: 0, or as in [`Ended`]. No file is changed, and nothing is waited
/// for.
pub fn offline<F: Files, K: Sink>(alloc: Global, words: &[String], files: &mut F, out: &mut K) -> u8
    requires { is_serve (command (spoken words.now)) ≡ false }
    ensures ends { EndsOffline (call_offline words.now F.told F.faults files.old files.new)
        (printed_to K.held K.failures out.old out.new) result }
    ensures status { HasCause (call_offline words.now F.told F.faults files.old files.new)
        (printed_to K.held K.failures out.old out.new) result }
    ensures words { ForNotice words.now (ReportsNotice (printed_to K.held K.failures out.old out.new) result) }
    ensures later { part ReadFile (F.faults files.old) ≤ part ReadFile (F.faults files.new) }
    ensures files { F.told files.new ≡ F.told files.old }
{
    match begin(alloc, words, files) {
        Err(outcome) => report(alloc, out, &outcome),
        Ok(_) => unreachable!(),
    }
}

/// Does what a command line asks for, without the program's own name:
/// `serve <config> [<const>] [--threads 1]`, or what [`offline`] does. It reads and links the
/// configuration and starts its scripts; `serve` then serves over the port that the maker gives for
/// seat 0 until no further link comes. It prints the line of `check`, or that of the first fault.
///
/// No file is changed. The call waits where its port does.
pub fn workerd<R: Threads + Wait + Sync, F: Files, M: Maker, K: Sink, G: Gate>(
    rt: &R,
    alloc: Global,
    words: &[String],
    files: &mut F,
    maker: &mut M,
    out: &mut K,
    _gate: &G,
) -> Ended<M::Port>
    ensures ends { Ends the_seat
        (call_with words.now F.told F.faults files.old files.new M.failures maker.old maker.new
        M.Port.Files.faults result.ports.items)
        (printed_to K.held K.failures out.old out.new) result.status result.journal (length result.ports.items)
        (AtPorts the_seat M.Port.Files.told M.Port.Files.gone M.Port.Files.faults result.ports.items
        result.journal.entries) }
    ensures status { HasCause
        (call_with words.now F.told F.faults files.old files.new M.failures maker.old maker.new
        M.Port.Files.faults result.ports.items)
        (printed_to K.held K.failures out.old out.new) result.status }
    ensures words { ForNotice words.now
        (ReportsNotice (printed_to K.held K.failures out.old out.new) result.status) }
    ensures later { part ReadFile (F.faults files.old) ≤ part ReadFile (F.faults files.new) }
    ensures files { F.told files.new ≡ F.told files.old }
    ensures disks { KeepFiles the_seat M.plan maker.old M.Port.Files.told result.ports.items }
{
    let mut ports = Vec::new(alloc);
    let ran = run(rt, alloc, words, files, maker, &mut ports);
    let Ran { outcome, journal } = ran;
    let status = report(alloc, out, &outcome);
    Ended {
        status,
        journal,
        ports,
    }
}
