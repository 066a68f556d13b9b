ghost use Rattle.std.specs.Prelude.{◌≡◌, ℕ, ◌≤◌, List, Option, None, length, take, OnOk, OnErr, MatchResult};
ghost use Rattle.std.specs.Io.KnownBytes.{Appends};
ghost use Rattle.ms_io.specs.Files.{raised};
ghost use Rattle.ms_io.specs.StdSink.{Writing};

use crate::sink::{Failed, Sink};
use std::io::{ErrorKind, Write};
use std::marker::Model;

/// A writer of the standard library as a sink, such as standard output or standard error, made by
/// `StdSink::new(rt.stdout())` or `StdSink::new(rt.stderr())`. It tells no content. Contracts see the writer
/// and the count of faults.
#[derive(Drop)]
pub struct StdSink<W> {
    writer: W,
    faults: u64,
}

impl<W> Model for StdSink<W> {
    ghost use Rattle.ms_io.specs.StdSink.{Writing};

    ghost Value = { Writing W };

    ghost view = { λ s. record { writer = s.writer; faults = s.faults } };
}

/// Writes the piece, and writes again what an interrupted or a short write left. A write that takes nothing
/// of it fails.
fn write_whole<W: Write>(writer: &mut W, piece: &[u8]) -> Result<(), Failed>
    ensures ok { OnOk result (Appends (W.contents writer.old) (W.contents writer.new) piece.now) }
    ensures err { OnErr result ((k : ℕ) × (k ≤ length piece.now) × Appends (W.contents writer.old) (W.contents writer.new) (take k piece.now)) }
{
    let mut rest = piece;
    for _ in 0..u64::MAX {
        if rest.is_empty() {
            return Ok(());
        }
        match writer.write(rest) {
            Ok(0) => return Err(Failed),
            Ok(count) => rest = &rest[count..],
            Err(error) if error.kind() == ErrorKind::Interrupted => {}
            Err(_) => return Err(Failed),
        }
    }
    Err(Failed)
}

impl<W: Write> StdSink<W> {
    pub fn new(writer: W) -> StdSink<W>
        ensures { result ≡ record { writer = writer; faults = 0 } }
    {
        StdSink { writer, faults: 0 }
    }

    pub fn into_writer(self) -> W
        ensures { result ≡ self.writer }
    {
        self.writer
    }
}

impl<W: Write> Sink for StdSink<W> {
    ghost taken = { λ _. None };

    ghost faults = { λ s. s.faults };

    /// The writer's own bytes, where its type tells them, gain the piece, or a prefix of it at a fault.
    fn put(&mut self, piece: &[u8]) -> Result<(), Failed>
        ensures faults { MatchResult result (λ _. self.new.faults ≡ self.old.faults) (λ _. self.new.faults ≡ raised self.old.faults) }
        ensures ok { OnOk result (Appends (W.contents self.old.writer) (W.contents self.new.writer) piece.now) }
        ensures err { OnErr result ((k : ℕ) × (k ≤ length piece.now) × Appends (W.contents self.old.writer) (W.contents self.new.writer) (take k piece.now)) }
    {
        if write_whole(&mut self.writer, piece).is_ok() {
            return Ok(());
        }
        self.faults = self.faults.saturating_add(1);
        Err(Failed)
    }
}
