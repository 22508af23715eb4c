ghost use Rattle.std.specs.Prelude.{◌≡◌, IfOk};
ghost use Rattle.wd_plan.specs.Refusal.{status_of, text_of, kind_text, text_kind, config_text, link_text, script_text};

use crate::reason::{RefusedScript, reason_text};
use crate::text::framed;
use capnp_text::TextKind;
use std::alloc::Global;
use wd_base::{Bytes, NoMemory};
use wd_command::Notice;
use wd_config::{ConfigFault, ConfigKind};
use wd_graph::GraphFault;

/// Why nothing is served or checked.
#[derive(Debug, Drop)]
pub enum Refusal {
    /// The words are no command, and this is shown for them.
    NoCommand(Notice),
    /// There is no file of this path.
    MissingFile(Bytes),
    /// Reading the file of this path failed.
    FileFault(Bytes),
    /// The configuration is refused.
    Config(ConfigFault),
    /// A name in the configuration is that of no service.
    Link(GraphFault),
    /// The script of a service is refused.
    Script(RefusedScript),
}

impl Refusal {
    /// The exit status: that of the notice, or 2 to 5.
    pub fn status(&self) -> u8
        ensures { result ≡ status_of self.now }
    {
        match self {
            Refusal::NoCommand(notice) => notice.status(),
            Refusal::Config(_) => 2,
            Refusal::Link(_) => 2,
            Refusal::Script(_) => 3,
            Refusal::MissingFile(_) => 5,
            Refusal::FileFault(_) => 5,
        }
    }

    /// What is printed: the text of the notice, or one line.
    pub fn text(&self, alloc: Global) -> Result<Vec<u8>, NoMemory>
        ensures { IfOk result (λ text. text.items ≡ text_of self.now) }
    {
        match self {
            Refusal::NoCommand(notice) => Ok(Vec::from_slice(alloc, notice.text())?),
            Refusal::Config(fault) => config_text(alloc, fault),
            Refusal::Link(fault) => link_text(alloc, fault),
            Refusal::Script(script) => script_text(alloc, script),
            Refusal::MissingFile(path) => framed(alloc, b"error: file ", path.as_slice(), b"\n"),
            Refusal::FileFault(path) => framed(alloc, b"error: file ", path.as_slice(), b"\n"),
        }
    }
}

fn text_kind(kind: TextKind) -> &'static [u8]
    ensures { result.now ≡ text_kind kind }
{
    match kind {
        TextKind::BadByte => b"BadByte",
        TextKind::BadToken => b"BadToken",
        TextKind::Unclosed => b"Unclosed",
        TextKind::BadDecl => b"BadDecl",
        TextKind::TooDeep => b"TooDeep",
    }
}

fn kind_text(kind: ConfigKind) -> &'static [u8]
    ensures { result.now ≡ kind_text kind }
{
    match kind {
        ConfigKind::Text(kind) => text_kind(kind),
        ConfigKind::NoSuchConst => b"NoSuchConst",
        ConfigKind::SeveralConfigs => b"SeveralConfigs",
        ConfigKind::ConstLoop => b"ConstLoop",
        ConfigKind::UnknownField => b"UnknownField",
        ConfigKind::WrongKind => b"WrongKind",
        ConfigKind::LeftOut => b"LeftOut",
        ConfigKind::DoubleName => b"DoubleName",
        ConfigKind::EmbedFault => b"EmbedFault",
        ConfigKind::EmbedMissing => b"EmbedMissing",
        ConfigKind::BadJson => b"BadJson",
        ConfigKind::BadAddress => b"BadAddress",
        ConfigKind::BadRange => b"BadRange",
        ConfigKind::NoScript => b"NoScript",
    }
}

#[tactic(auto, unfolding(crate::specs::Refusal::config_text))]
fn config_text(alloc: Global, fault: &ConfigFault) -> Result<Vec<u8>, NoMemory>
    ensures { IfOk result (λ text. text.items ≡ config_text fault.now) }
{
    let place = fault.place.to_string(alloc)?;
    let mut text = framed(alloc, b"error: config ", kind_text(fault.kind), b" at ")?;
    text.extend_from_slice(place.as_bytes())?;
    text.extend_from_slice(b": ")?;
    text.extend_from_slice(fault.name.as_slice())?;
    text.extend_from_slice(b"\n")?;
    Ok(text)
}

#[tactic(auto, unfolding(crate::specs::Refusal::link_text))]
fn link_text(alloc: Global, fault: &GraphFault) -> Result<Vec<u8>, NoMemory>
    ensures { IfOk result (λ text. text.items ≡ link_text fault.now) }
{
    let mut text = framed(
        alloc,
        b"error: link UnknownService ",
        fault.from.as_slice(),
        b" -> ",
    )?;
    text.extend_from_slice(fault.name.as_slice())?;
    text.extend_from_slice(b"\n")?;
    Ok(text)
}

#[tactic(auto, unfolding(crate::specs::Refusal::script_text))]
fn script_text(alloc: Global, script: &RefusedScript) -> Result<Vec<u8>, NoMemory>
    ensures { IfOk result (λ text. text.items ≡ script_text script.now) }
{
    let reason = reason_text(alloc, &script.reason)?;
    let mut text = framed(alloc, b"error: script ", script.service.as_slice(), b": ")?;
    text.extend_from_slice(reason.as_slice())?;
    text.extend_from_slice(b"\n")?;
    Ok(text)
}
