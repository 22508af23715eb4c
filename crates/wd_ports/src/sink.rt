ghost use Rattle.std.specs.Prelude.{◌≡◌, ℕ, ◌+◌, ◌<◌, ◌≤◌, [], ◌++◌, List, length, take, Option, IfOk, IsErrOf};
ghost use Rattle.wd_ports.specs.Faults.{Rose, CountsFault};
ghost use Rattle.wd_ports.specs.Sink.{after_sink, Prints};

use crate::told::Failed;

/// Where printed text goes.
pub trait Sink {
    /// The bytes that it holds, where it tells them.
    ghost held: { Self → Option (List ℕ) };

    /// How often `write` has failed; a count that never falls.
    ghost failures: { Self → ℕ };

    /// Takes bytes from the front of a piece that is not empty, and says how many: at least one.
    /// Where it can take none it answers `Fault`. After an error it holds what it held.
    fn write(&mut self, bytes: &[u8]) -> Result<usize, Failed>
        requires { 0 < length bytes.now }
        ensures count { IfOk result (λ k. (0 < k) × (k ≤ length bytes.now)) }
        ensures tells { held self.new ≡ after_sink result bytes.now (held self.old) }
        ensures blames { CountsFault (failures self.old) (failures self.new) result };
}

/// Writes a whole text to a sink. At an error a part of it, from its front, was written.
#[tactic(auto, using(crate::proofs::Printing::printed_more, crate::proofs::Printing::printed_nothing))]
pub fn print<K: Sink>(sink: &mut K, text: &[u8]) -> Result<(), Failed>
    ensures printed { Prints result text.now (K.held sink.old) (K.held sink.new) }
    ensures fault { IsErrOf result Failed.Fault → Rose (K.failures sink.old) (K.failures sink.new) }
    ensures later { K.failures sink.old ≤ K.failures sink.new }
{
    let mut done = 0;
    while done < text.len() {
        let rest = &text[done..];
        done += sink.write(rest)?;
    }
    Ok(())
}
