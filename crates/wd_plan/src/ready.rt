ghost use Rattle.std.specs.Prelude.{◌≡◌, ◌<◌, ◌≤◌, ◌^◌, ◌↔◌, ◌&&◌, List, ℕ, Option, Some, None, Err, length, map};
ghost use Rattle.std.specs.Prelude.{string_bytes, IsTrue, IfOk, IfErr, IfSome};
ghost use Rattle.std.specs.List.{list_all};
ghost use Rattle.wd_graph.specs.Links.{linked, first_unknown};
ghost use Rattle.wd_command.specs.Command.{command, asked_of, wish};
ghost use Rattle.wd_config.specs.Answer.{Differ};
ghost use Rattle.wd_ports.specs.Faults.{ReadFile, RoseIn, part};
ghost use Rattle.wd_ports.specs.Told.{file_at};
ghost use Rattle.wd_plan.specs.declared.ready.PlanEnd.TheVariants as end;
ghost use Rattle.wd_plan.specs.declared.refusal.Refusal.TheVariants as refusal;
ghost use Rattle.wd_plan.specs.Plan.{Plans, AtConfig, AtFile, EmbedsPath, IsReadFor, IsReadPath, MayHold};
ghost use Rattle.wd_plan.specs.Plan.{AtScripts, AtKinds, AtNames, may_go, other_kind};
ghost use Rattle.wd_plan.specs.Prepare.{ShowsRead, IsShort, IsReadFault, IsPrepared, end_of, plan_of};
ghost use Rattle.wd_plan.specs.Prepare.{OnFault, Heeds, IsAskedBy, IsLate, IsRefused};

use crate::constant::Constant;
use crate::folder::folder_of;
use crate::refusal::Refusal;
use crate::starts::{Started, are_at_workers, are_plain, start_all};
use std::alloc::Global;
use wd_base::{Bytes, Config, NoMemory, Seq};
use wd_command::{Asks, CommandLine, Verb, asks_of};
use wd_config::{ConfigEnd, ConfigFault, ConfigKind, read};
use wd_graph::{LinkEnd, World, link};
use wd_ports::{Failed, Files};

/// What is to be served or checked: a world, and the first isolates of its Workers, in order.
#[derive(Drop)]
pub struct Ready {
    pub verb: Verb,
    pub world: World,
    pub isolates: Vec<Constant>,
}

/// Why nothing is ready.
#[derive(Debug, Drop)]
pub enum PlanEnd {
    Refused(Refusal),
    NoMemory,
}

/// What reading a file came to.
#[derive(Debug, Drop)]
enum Found {
    Bytes(Bytes),
    Missing,
    Fault,
    NoMemory,
}

/// Reads a file.
fn read_file<F: Files>(alloc: Global, files: &mut F, path: &str) -> Found
    ensures found { ShowsRead (F.told files.old).files path.now result }
    ensures short { IsShort result }
    ensures fault { IsReadFault result → RoseIn ReadFile (F.faults files.old) (F.faults files.new) }
    ensures later { part ReadFile (F.faults files.old) ≤ part ReadFile (F.faults files.new) }
    ensures tells { F.told files.new ≡ F.told files.old }
{
    match files.read(alloc, path) {
        Ok(Some(bytes)) => Found::Bytes(bytes),
        Ok(None) => Found::Missing,
        Err(Failed::Fault) => Found::Fault,
        Err(Failed::NoMemory) => Found::NoMemory,
    }
}

/// There is no file of this path.
fn missing(alloc: Global, path: &str) -> PlanEnd
    ensures { IsRefused (refusal.MissingFile path.now) result }
{
    match Seq::copy(alloc, path.as_bytes()) {
        Ok(path) => PlanEnd::Refused(Refusal::MissingFile(path)),
        Err(NoMemory) => PlanEnd::NoMemory,
    }
}

/// Reading the file of this path failed.
fn faulty(alloc: Global, path: &str) -> PlanEnd
    ensures { IsRefused (refusal.FileFault path.now) result }
{
    match Seq::copy(alloc, path.as_bytes()) {
        Ok(path) => PlanEnd::Refused(Refusal::FileFault(path)),
        Err(NoMemory) => PlanEnd::NoMemory,
    }
}

/// The configuration has something that is not served yet.
fn other_kind(alloc: Global) -> PlanEnd
    ensures { IsRefused (refusal.Config other_kind) result }
{
    match Seq::copy(alloc, b"kind") {
        Ok(name) => PlanEnd::Refused(Refusal::Config(ConfigFault {
            kind: ConfigKind::LeftOut,
            place: 0,
            name,
        })),
        Err(NoMemory) => PlanEnd::NoMemory,
    }
}

/// At the scripts of a world.
#[tactic(auto, using(crate::proofs::PlanLaws::at_started, crate::proofs::PlanLaws::at_refused))]
fn at_scripts(alloc: Global, verb: Verb, world: World) -> Result<Ready, PlanEnd>
    requires { first_unknown world ≡ None }
    ensures plan { IfSome (plan_of result) (AtScripts verb world) }
    ensures ready { IfOk result IsPrepared }
    ensures late { IsLate result }
    ensures verb { IfOk result (λ ready. ready.verb ≡ verb) }
    ensures fault { OnFault result (λ path. ⊥) }
{
    match start_all(alloc, &world) {
        Err(NoMemory) => Err(PlanEnd::NoMemory),
        Ok(Started::Refused(script)) => Err(PlanEnd::Refused(Refusal::Script(script))),
        Ok(Started::Isolates(isolates)) => Ok(Ready {
            verb,
            world,
            isolates,
        }),
    }
}

/// At a world, which is `plain` where each service that is written out is one that is served.
fn at_world(alloc: Global, verb: Verb, plain: bool, world: World) -> Result<Ready, PlanEnd>
    requires { first_unknown world ≡ None }
    ensures plan { IfSome (plan_of result) (AtKinds verb world (may_go verb plain world)) }
    ensures ready { IfOk result IsPrepared }
    ensures late { IsLate result }
    ensures verb { IfOk result (λ ready. ready.verb ≡ verb) }
    ensures fault { OnFault result (λ path. ⊥) }
{
    match verb {
        Verb::Check => at_scripts(alloc, verb, world),
        Verb::Serve => {
            if plain && are_at_workers(&world) {
                at_scripts(alloc, verb, world)
            } else {
                Err(other_kind(alloc))
            }
        }
    }
}

/// At a configuration.
#[tactic(auto, using(crate::proofs::PlanLaws::names_differ))]
fn at_config(alloc: Global, verb: Verb, config: Config) -> Result<Ready, PlanEnd>
    requires few { length config.services < 2 ^ 31 }
    requires differ { Differ (map (λ s. s.name) config.services) }
    ensures plan { IfSome (plan_of result) (AtNames verb config (first_unknown (linked config))) }
    ensures ready { IfOk result IsPrepared }
    ensures late { IsLate result }
    ensures verb { IfOk result (λ ready. ready.verb ≡ verb) }
    ensures fault { OnFault result (λ path. ⊥) }
{
    let plain = are_plain(config.services.as_slice());
    match link(alloc, config) {
        Err(LinkEnd::NoMemory) => Err(PlanEnd::NoMemory),
        Err(LinkEnd::Unknown(fault)) => Err(PlanEnd::Refused(Refusal::Link(fault))),
        Ok(world) => at_world(alloc, verb, plain, world),
    }
}

/// At what a configuration is refused for; where an embedded file could not be read, it is that.
fn at_end(end: ConfigEnd) -> PlanEnd
    ensures { result ≡ end_of end }
{
    match end {
        ConfigEnd::NoMemory => PlanEnd::NoMemory,
        ConfigEnd::Fault(fault) => match fault.kind {
            ConfigKind::EmbedFault => PlanEnd::Refused(Refusal::FileFault(fault.name)),
            _ => PlanEnd::Refused(Refusal::Config(fault)),
        },
    }
}

/// At the bytes of the configuration's file.
fn at_bytes<F: Files>(
    alloc: Global,
    files: &mut F,
    asked: CommandLine<'_>,
    bytes: &[u8],
) -> Result<Ready, PlanEnd>
    requires { length bytes.now ≤ 536870912 }
    ensures plan { IfSome (plan_of result) (AtFile (F.told files.old).files (asked_of asked.entry) (Some bytes.now)) }
    ensures ready { IfOk result IsPrepared }
    ensures late { IsLate result }
    ensures verb { IfOk result (λ ready. ready.verb ≡ asked.entry.verb) }
    ensures fault { OnFault result (λ path. RoseIn ReadFile (F.faults files.old) (F.faults files.new)) }
    ensures path { OnFault result (λ path. EmbedsPath (F.told files.old).files (asked_of asked.entry) bytes.now path) }
    ensures later { part ReadFile (F.faults files.old) ≤ part ReadFile (F.faults files.new) }
    ensures tells { F.told files.new ≡ F.told files.old }
{
    match read(alloc, bytes, asked.constant, folder_of(asked.config), files) {
        Ok(config) => at_config(alloc, asked.verb, config),
        Err(end) => Err(at_end(end)),
    }
}

/// At the configuration's file.
fn at_file<F: Files>(alloc: Global, files: &mut F, asked: CommandLine<'_>) -> Result<Ready, PlanEnd>
    ensures plan { IfSome (plan_of result) (AtConfig (F.told files.old).files (asked_of asked.entry)) }
    ensures ready { IfOk result IsPrepared }
    ensures late { IsLate result }
    ensures verb { IfOk result (λ ready. ready.verb ≡ asked.entry.verb) }
    ensures fault { OnFault result (λ path. RoseIn ReadFile (F.faults files.old) (F.faults files.new)) }
    ensures path { OnFault result (IsReadFor (F.told files.old).files (asked_of asked.entry)) }
    ensures later { part ReadFile (F.faults files.old) ≤ part ReadFile (F.faults files.new) }
    ensures tells { F.told files.new ≡ F.told files.old }
{
    match read_file(alloc, files, asked.config) {
        Found::NoMemory => Err(PlanEnd::NoMemory),
        Found::Fault => Err(faulty(alloc, asked.config)),
        Found::Missing => Err(missing(alloc, asked.config)),
        Found::Bytes(bytes) => at_bytes(alloc, files, asked, bytes.as_slice()),
    }
}

/// What is to be served or checked, or why nothing is: the words are looked at first, then the
/// configuration's file, the configuration from left to right with the files that it embeds, its
/// names, the kinds of its services, and the scripts in the order of services: of each whether it is
/// in the grammar, has no early fault, and has the form that is served.
#[tactic(auto, unfolding(crate::specs::Plan::Plans))]
pub fn prepare<F: Files>(alloc: Global, words: &[String], files: &mut F) -> Result<Ready, PlanEnd>
    ensures plan { IfSome (plan_of result) (Plans (map string_bytes words.now) (F.told files.old).files) }
    ensures words { Heeds (wish (map string_bytes words.now)) result }
    ensures ready { IfOk result IsPrepared }
    ensures verb { IfOk result (λ ready. IsAskedBy (command (map string_bytes words.now)) ready.verb) }
    ensures fault { OnFault result (λ path. RoseIn ReadFile (F.faults files.old) (F.faults files.new)) }
    ensures path { OnFault result (IsReadPath (map string_bytes words.now) (F.told files.old).files) }
    ensures later { part ReadFile (F.faults files.old) ≤ part ReadFile (F.faults files.new) }
    ensures tells { F.told files.new ≡ F.told files.old }
{
    match asks_of(alloc, words) {
        Err(NoMemory) => Err(PlanEnd::NoMemory),
        Ok(Asks::Show(notice)) => Err(PlanEnd::Refused(Refusal::NoCommand(notice))),
        Ok(Asks::Run(asked)) => at_file(alloc, files, asked),
    }
}
