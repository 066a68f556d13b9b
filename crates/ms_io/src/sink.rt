use thiserror::Error;

/// A piece was not taken whole.
#[derive(Debug, Drop, Error)]
#[error("cannot write")]
pub struct Failed;

/// What takes bytes, piece by piece.
pub trait Sink {
    ghost use Rattle.std.specs.Prelude.{◌≡◌, ℕ, ◌≤◌, List, Option, length, take, OnOk, OnErr, MatchResult};
    ghost use Rattle.ms_io.specs.Files.{raised};
    ghost use Rattle.ms_io.specs.Sink.{Gains};

    /// The bytes taken so far, where they are told.
    ghost taken: { Self → Option (List ℕ) };

    /// How often a put has failed; the count stands still at 2^64 - 1.
    ghost faults: { Self → ℕ };

    /// Takes the whole piece, or a prefix of it and fails.
    fn put(&mut self, piece: &[u8]) -> Result<(), Failed>
        ensures ok { OnOk result (Gains (taken self.old) piece.now (taken self.new)) }
        ensures err { OnErr result ((k : ℕ) × (k ≤ length piece.now) × Gains (taken self.old) (take k piece.now) (taken self.new)) }
        ensures faults { MatchResult result (λ _. faults self.new ≡ faults self.old) (λ _. faults self.new ≡ raised (faults self.old)) };
}
