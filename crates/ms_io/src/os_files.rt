ghost use Rattle.std.specs.Prelude.{◌≡◌, ℕ, ◌+◌, ◌≤◌, List, [], Option, None, length, IfOk};
ghost use Rattle.std.specs.Io.KnownBytes.{Consumes};
ghost use Rattle.ms_io.specs.Files.{OnLongFile};
ghost use Rattle.ms_io.specs.OsFiles.{OsReads, IsAllLeft, IsMoreLeft};

use crate::files::{FileFault, Files};
use ms_base::Bytes;
use std::alloc::Global;
use std::io::{ErrorKind, Read};
use std::marker::Model;
use std::{fs, rt};

/// How many bytes are asked for at once.
const CHUNK: usize = 4096;

/// The files of the system, made by `OsFiles::new(rt.alloc(), &rt)`. It tells no content. A file that is
/// missing, cannot be read or is a folder is a fault. Contracts see the names asked for and the count of
/// faults.
#[derive(Drop)]
pub struct OsFiles<R> {
    system: R,
    asked: Vec<Bytes>,
    faults: u64,
}

impl<R> Model for OsFiles<R> {
    ghost use Rattle.ms_io.specs.OsFiles.{OsReads};

    ghost Value = { OsReads };

    ghost view = { λ f. record { asked = f.asked.items; faults = f.faults } };
}

/// Reads to the end, but at most one byte more than `most`.
pub fn read_whole<F: Read>(alloc: Global, file: &mut F, most: usize) -> Result<Bytes, FileFault>
    ensures within { IfOk result (λ bytes. length bytes ≤ most) }
    ensures all { IfOk result (IsAllLeft (F.remaining file.old)) }
    ensures long { OnLongFile result (IsMoreLeft (F.remaining file.old) most) }
    ensures taken { (taken : List ℕ) × (length taken ≤ most + 1) × Consumes (F.remaining file.old) (F.remaining file.new) taken }
{
    let mut bytes = Vec::new(alloc);
    let mut chunk = [0; CHUNK];
    for _ in 0..u64::MAX {
        let room = (most - bytes.len()).saturating_add(1).min(CHUNK);
        match file.read(&mut chunk[..room]) {
            Ok(0) => return Ok(Bytes::from_vec(bytes)),
            Ok(count) if count > most - bytes.len() => return Err(FileFault::LongFile),
            Ok(count) => bytes
                .extend_from_slice(&chunk[..count])
                .map_err(|_| FileFault::Memory)?,
            Err(error) if error.kind() == ErrorKind::Interrupted => {}
            Err(_) => return Err(FileFault::Failed),
        }
    }
    Err(FileFault::Failed)
}

impl<R: rt::Files> OsFiles<R> {
    /// Takes no memory.
    pub fn new(alloc: Global, system: R) -> OsFiles<R>
        ensures { result ≡ record { asked = []; faults = 0 } }
    {
        OsFiles {
            system,
            asked: Vec::new(alloc),
            faults: 0,
        }
    }

    fn open_and_read(&self, alloc: Global, name: &str, most: usize) -> Result<Bytes, FileFault>
        ensures within { IfOk result (λ bytes. length bytes ≤ most) }
    {
        let mut file = fs::open(&self.system, name).map_err(|_| FileFault::Failed)?;
        read_whole(alloc, &mut file, most)
    }
}

impl<R: rt::Files> Files for OsFiles<R> {
    ghost told = { λ _. None };

    ghost faults = { λ f. f.faults };

    ghost asked = { λ f. f.asked };

    fn read(&mut self, alloc: Global, name: &str, most: usize) -> Result<Bytes, FileFault> {
        let asked = Vec::from_slice(alloc, name.as_bytes()).map_err(|_| FileFault::Memory)?;
        self.asked
            .push(Bytes::from_vec(asked))
            .map_err(|_| FileFault::Memory)?;
        let answer = self.open_and_read(alloc, name, most);
        if let Err(FileFault::Failed) = answer {
            self.faults = self.faults.saturating_add(1);
        }
        answer
    }
}
