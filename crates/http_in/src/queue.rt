ghost use Rattle.std.specs.Prelude.{◌≡◌, ◌<◌, ◌≤◌, ◌++◌, ◌-◌, length, drop, take, [], OnOk, OnErr};

use std::alloc::Global;
use std::marker::Model;
use wd_base::NoMemory;

/// Bytes that are added behind and taken from the front, each at a constant cost.
#[derive(Debug, Drop)]
pub struct Queue {
    bytes: Vec<u8>,
    from: usize,
}

impl Model for Queue {
    ghost use Rattle.std.specs.Prelude.{ℕ, List, ◌≤◌, length, drop};

    ghost Value = { List ℕ };

    ghost view = { λ q. drop q.from q.bytes.items };

    ghost invariant = { λ q. q.from ≤ length q.bytes.items };
}

impl Queue {
    /// No bytes. It takes no memory.
    pub fn new(alloc: Global) -> Queue
        ensures { result ≡ [] }
    {
        Queue {
            bytes: Vec::new(alloc),
            from: 0,
        }
    }

    /// How many bytes there are.
    pub fn len(&self) -> usize
        ensures { result ≡ length self.now }
    {
        self.bytes.len() - self.from
    }

    /// The bytes.
    pub fn as_slice(&self) -> &[u8]
        ensures { result.now ≡ self.now }
    {
        &self.bytes[self.from..]
    }

    /// Takes bytes from the front.
    pub fn consume(&mut self, count: usize)
        requires { count ≤ length self.old }
        ensures { self.new ≡ drop count self.old }
    {
        self.from += count;
    }

    /// Keeps the first bytes.
    pub fn truncate(&mut self, count: usize)
        requires { count ≤ length self.old }
        ensures { self.new ≡ take count self.old }
    {
        self.bytes.truncate(self.from + count);
    }

    /// Adds bytes behind. Those that were taken are thrown away once they are the greater part, so
    /// each byte is moved a bounded number of times.
    #[tactic(auto, using(crate::proofs::QueueSteps::drop_join))]
    pub fn extend(&mut self, alloc: Global, more: &[u8]) -> Result<(), NoMemory>
        ensures ok { OnOk result (self.new ≡ self.old ++ more.now) }
        ensures err { OnErr result (self.new ≡ self.old) }
    {
        self.compact(alloc)?;
        match self.bytes.extend_from_slice(more) {
            Ok(()) => Ok(()),
            Err(_) => Err(NoMemory),
        }
    }

    /// Throws away the bytes that were taken, where they are the greater part.
    fn compact(&mut self, alloc: Global) -> Result<(), NoMemory>
        ensures { self.new ≡ self.old }
    {
        if self.from > self.bytes.len() / 2 {
            let rest = Vec::from_slice(alloc, &self.bytes[self.from..])?;
            self.bytes = rest;
            self.from = 0;
        }
        Ok(())
    }
}
