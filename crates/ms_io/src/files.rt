use ms_base::Bytes;
use std::alloc::Global;
use thiserror::Error;

/// Why a file was not read.
#[derive(Debug, Drop, Error)]
pub enum FileFault {
    /// The file is missing, or could not be read to its end.
    #[error("cannot read the file")]
    Failed,
    /// The file has more bytes than were allowed.
    #[error("the file is too long")]
    LongFile,
    /// No memory for the bytes.
    #[error("out of memory")]
    Memory,
}

/// Files that are read whole, by their names.
pub trait Files {
    ghost use Rattle.std.specs.Prelude.{◌≡◌, ℕ, ◌≤◌, List, Option, length, IfOk, IsSome};
    ghost use Rattle.ms_io.specs.Files.{FileMap, HasFile, HasLongFile, CountsFault, NotesName, OnLongFile};

    /// The bytes under each name, where they are told.
    ghost told: { Self → Option FileMap };

    /// How often a read has failed; the count stands still at 2^64 - 1.
    ghost faults: { Self → ℕ };

    /// The names that were asked for, in order.
    ghost asked: { Self → List (List ℕ) };

    /// The bytes of the file, if they are at most `most`.
    fn read(&mut self, alloc: Global, name: &str, most: usize) -> Result<Bytes, FileFault>
        ensures told { told self.new ≡ told self.old }
        ensures asked { NotesName result name.now (asked self.old) (asked self.new) }
        ensures faults { CountsFault result (faults self.old) (faults self.new) }

        ensures within { IfOk result (λ bytes. length bytes ≤ most) }
        ensures bytes { IfOk result (λ bytes. IsSome (told self.old) → HasFile (told self.old) name.now bytes) }
        ensures long { OnLongFile result (IsSome (told self.old) → HasLongFile (told self.old) name.now most) };
}
