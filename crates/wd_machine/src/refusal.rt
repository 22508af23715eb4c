use crate::turn::OutField;
use wd_base::Bytes;

/// The value that breaks a rule: of the state, or the bound that the entry passes.
#[derive(Debug, Drop)]
pub enum Kept {
    Number(u64),
    Name(Bytes),
    Field(OutField),
    Nothing,
}

/// Why an entry is not allowed: the least rule that it breaks, by its number, and the value that
/// breaks it.
#[derive(Debug, Drop)]
pub struct Refused {
    pub rule: u8,
    pub kept: Kept,
}

/// Why an entry was not applied.
#[derive(Debug, Drop)]
pub enum ApplyEnd {
    /// It is not allowed. Nothing has changed.
    Refused(Refused),
    NoMemory,
}
