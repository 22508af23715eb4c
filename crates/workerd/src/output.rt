ghost use Rattle.std.specs.Prelude.{◌≡◌, ◌<◌, ◌≤◌, IfOk, length};

use crate::trouble::{Trouble, blame};
use std::io::{ErrorKind, Print};
use wd_ports::{Failed, Sink};

#[cfg(test)]
mod tests;

/// How often a write that a signal has cut off is tried.
const TRIES: u32 = 600;

/// Standard output, with the count of its faults.
#[derive(Drop)]
pub struct StandardOutput<R> {
    rt: R,
    faults: u64,
}

impl<R> StandardOutput<R> {
    /// The standard output of the runtime, with no fault counted.
    pub fn new(rt: R) -> StandardOutput<R>
        ensures { result.faults ≡ 0 }
    {
        StandardOutput { rt, faults: 0 }
    }
}

#[tactic(auto, unfolding(wd_ports::specs::Sink::with_bytes))]
impl<R: Print> Sink for StandardOutput<R> {
    ghost use Rattle.std.specs.Prelude.{None};

    ghost held = { λ _. None };

    ghost failures = { λ s. s.faults };

    fn write(&mut self, bytes: &[u8]) -> Result<usize, Failed> {
        match print_some(&self.rt, bytes) {
            Ok(count) => Ok(count),
            Err(trouble) => Err(blame(&mut self.faults, trouble)),
        }
    }
}

/// Writes bytes from the front of a piece, at least one.
fn print_some(rt: &impl Print, bytes: &[u8]) -> Result<usize, Trouble>
    ensures count { IfOk result (λ k. (0 < k) × (k ≤ length bytes.now)) }
{
    for _ in 0..TRIES {
        match rt.write_some(bytes) {
            Ok(0) => return Err(Trouble::NothingTaken),
            Ok(count) => return Ok(count),
            Err(error) if error.kind() == ErrorKind::Interrupted => {}
            Err(error) => return Err(Trouble::from(error)),
        }
    }
    Err(Trouble::NothingTaken)
}
