ghost use Rattle.std.specs.Prelude.{◌≡◌};
ghost use Rattle.wd_config.specs.Given as spec;
ghost use Rattle.wd_config.specs.Given.{fault, Gives};

use capnp_text::{Placed, TextKind};
use std::alloc::Global;
use wd_base::{Bytes, NoMemory, Seq};

/// What a fault of a configuration is.
#[derive(Clone, Copy, Debug, PartialEq, Eq)]
pub enum ConfigKind {
    /// the text is no file of the format
    Text(TextKind),
    /// no constant has the name that is looked for, or it is no configuration
    NoSuchConst,
    /// none is named, and there are several configurations
    SeveralConfigs,
    /// a constant leads back to itself
    ConstLoop,
    /// no such field is known
    UnknownField,
    /// a value of another kind, or a field that is missing
    WrongKind,
    /// what this server leaves out
    LeftOut,
    /// a name that stands twice
    DoubleName,
    /// the read of an embedded file failed
    EmbedFault,
    /// an embedded file that is not there
    EmbedMissing,
    /// a json binding on which `JSON.parse` throws
    BadJson,
    /// no address
    BadAddress,
    /// no range of addresses
    BadRange,
    /// a Worker without a script
    NoScript,
}

/// The first fault of a configuration. Its place is that of the text's byte, counted from 0; its
/// name is empty where the fault is one of the text.
#[derive(Debug, Drop)]
pub struct ConfigFault {
    pub kind: ConfigKind,
    pub place: usize,
    pub name: Bytes,
}

/// Why there is no configuration.
#[derive(Debug, Drop)]
pub enum ConfigEnd {
    Fault(ConfigFault),
    NoMemory,
}

impl From<NoMemory> for ConfigEnd {
    ghost use Rattle.std.specs.Prelude.{◌≡◌};
    ghost use Rattle.wd_config.specs.declared.faults.ConfigEnd.TheVariants as ends;

    ghost from_gives = { λ _ e. e ≡ ends.NoMemory };

    fn from(_error: NoMemory) -> ConfigEnd {
        ConfigEnd::NoMemory
    }
}

/// Why the file of a text is refused. The read of an embedded file that fails is none of these.
#[derive(Clone, Copy, Debug, PartialEq, Eq)]
pub enum RefusedKind {
    NoSuchConst,
    SeveralConfigs,
    ConstLoop,
    UnknownField,
    WrongKind,
    LeftOut,
    DoubleName,
    EmbedMissing,
    BadJson,
    BadAddress,
    BadRange,
    NoScript,
}

/// What is refused, with the place of the text's byte.
#[derive(Debug, Drop)]
pub struct Refusal {
    pub kind: RefusedKind,
    pub place: usize,
    pub name: Bytes,
}

#[tactic(auto, unfolding(crate::specs::Given::config_kind))]
fn config_kind(kind: RefusedKind) -> ConfigKind
    ensures { result ≡ spec.config_kind kind }
{
    match kind {
        RefusedKind::NoSuchConst => ConfigKind::NoSuchConst,
        RefusedKind::SeveralConfigs => ConfigKind::SeveralConfigs,
        RefusedKind::ConstLoop => ConfigKind::ConstLoop,
        RefusedKind::UnknownField => ConfigKind::UnknownField,
        RefusedKind::WrongKind => ConfigKind::WrongKind,
        RefusedKind::LeftOut => ConfigKind::LeftOut,
        RefusedKind::DoubleName => ConfigKind::DoubleName,
        RefusedKind::EmbedMissing => ConfigKind::EmbedMissing,
        RefusedKind::BadJson => ConfigKind::BadJson,
        RefusedKind::BadAddress => ConfigKind::BadAddress,
        RefusedKind::BadRange => ConfigKind::BadRange,
        RefusedKind::NoScript => ConfigKind::NoScript,
    }
}

/// The fault of a configuration that is refused so.
pub fn config_fault(refusal: Refusal) -> ConfigFault
    ensures { result ≡ spec.config_fault refusal }
{
    ConfigFault {
        kind: config_kind(refusal.kind),
        place: refusal.place,
        name: refusal.name,
    }
}

/// Why a reading stops.
#[derive(Debug, Drop)]
pub enum Stop {
    /// the configuration has a fault
    Refused(Refusal),
    /// the read of an embedded file failed: the place of its path, and the path as written
    Failed(Placed),
    NoMemory,
}

impl From<NoMemory> for Stop {
    ghost use Rattle.std.specs.Prelude.{◌≡◌};
    ghost use Rattle.wd_config.specs.declared.faults.Stop.TheVariants as stops;

    ghost from_gives = { λ _ e. e ≡ stops.NoMemory };

    fn from(_error: NoMemory) -> Stop {
        Stop::NoMemory
    }
}

/// Stops at a fault that carries a copy of a name.
pub fn refuse<T: Drop>(
    alloc: Global,
    kind: RefusedKind,
    place: usize,
    name: &[u8],
) -> Result<T, Stop>
    ensures { Gives (fault kind place name.now) result }
{
    let name = Seq::copy(alloc, name)?;
    Err(Stop::Refused(Refusal { kind, place, name }))
}
