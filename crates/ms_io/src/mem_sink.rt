ghost use Rattle.std.specs.Prelude.{◌≡◌, ℕ, ◌++◌, ◌∷◌, [], List, Option, Some, OnOk, OnErr};
ghost use Rattle.ms_io.specs.MemSink.{HeldBytes, no_bytes, failure_of, PutsTo};

use crate::sink::{Failed, Sink};
use std::alloc::{AllocError, Global};
use std::marker::Model;

/// A sink in memory, which also fails where it is told to. Contracts see a record: the bytes taken, the
/// puts that are to fail with how many bytes each takes, the number of the next put, and the count of faults.
#[derive(Debug, Drop)]
pub struct MemSink {
    bytes: Vec<u8>,
    failing: Vec<(u64, usize)>,
    calls: u64,
    faults: u64,
}

impl Model for MemSink {
    ghost use Rattle.ms_io.specs.MemSink.{HeldBytes, bytes_code};

    ghost Value = { HeldBytes };

    ghost coded = { bytes_code };

    ghost view = { λ m. record {
      bytes = m.bytes.items;
      failing = m.failing.items;
      calls = m.calls;
      faults = m.faults;
    } };
}

impl MemSink {
    /// No byte. Takes no memory.
    pub fn new(alloc: Global) -> MemSink
        ensures { result ≡ no_bytes }
    {
        MemSink {
            bytes: Vec::new(alloc),
            failing: Vec::new(alloc),
            calls: 0,
            faults: 0,
        }
    }

    /// The bytes taken so far.
    pub fn bytes(&self) -> &[u8]
        ensures { result.now ≡ self.now.bytes }
    {
        self.bytes.as_slice()
    }

    /// Lets the put of this number fail after `taken` bytes, or after all of a shorter piece; the first put
    /// is number 0, and the latest word on a put counts.
    pub fn fail(&mut self, call: u64, taken: usize) -> Result<(), AllocError>
        ensures ok { OnOk result (self.new ≡ record self.old { failing = self.old.failing ++ (call, taken) ∷ [] }) }
        ensures err { OnErr result (self.new ≡ self.old) }
    {
        self.failing.push((call, taken))?;
        Ok(())
    }

    /// How many bytes the next put takes before it fails, if it is to fail.
    fn failure(&self) -> Option<usize>
        ensures { result ≡ failure_of self.now }
    {
        let call = self.calls;
        self.failing
            .iter()
            .rev()
            .find(|failing| failing.0 == call)
            .map(|failing| failing.1)
    }
}

impl Sink for MemSink {
    ghost taken = { λ held. Some held.bytes };

    ghost faults = { λ held. held.faults };

    /// A refused growth of the bytes is a fault that takes none. What is held is told exactly.
    fn put(&mut self, piece: &[u8]) -> Result<(), Failed>
        ensures after { PutsTo self.old piece.now result self.new }
    {
        let failure = self.failure();
        self.calls = self.calls.saturating_add(1);
        if let Some(most) = failure {
            let taken = &piece[..piece.len().min(most)];
            // Where memory is refused, no byte is taken.
            let _ = self.bytes.extend_from_slice(taken);
            self.faults = self.faults.saturating_add(1);
            return Err(Failed);
        }
        if self.bytes.extend_from_slice(piece).is_err() {
            self.faults = self.faults.saturating_add(1);
            return Err(Failed);
        }
        Ok(())
    }
}
