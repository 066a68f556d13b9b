ghost use Rattle.std.specs.Prelude.{◌≡◌, ℕ, ◌≤◌, List, [], ◌∷◌, ◌++◌, Option, Some, length, position, IfOk, IsSome, OnOk, OnErr, option_copied};
ghost use Rattle.std.specs.Str.{bytes_eq};
ghost use Rattle.std.specs.FinMap as map;
ghost use Rattle.ms_io.specs.Files.{FileMap, HasFile, HasLongFile, CountsFault, NotesName, OnLongFile};
ghost use Rattle.ms_io.specs.MemFiles.{HeldFiles, no_files, answer_of, ReadsTo, IsAnswer};

use crate::files::{FileFault, Files};
use ms_base::Bytes;
use std::alloc::{AllocError, Global};
use std::marker::Model;

/// Files in memory, which also fail where they are told to. Contracts see a record: the map, the numbers of
/// the reads that are to fail, the number of the next read, the names asked for, and the count of faults.
#[derive(Debug, Drop)]
pub struct MemFiles {
    files: Vec<(Bytes, Bytes)>,
    failing: Vec<u64>,
    calls: u64,
    asked: Vec<Bytes>,
    faults: u64,
}

impl Model for MemFiles {
    ghost use Rattle.std.specs.FinMap as map;
    ghost use Rattle.ms_io.specs.MemFiles.{HeldFiles, held_code};

    ghost Value = { HeldFiles };

    ghost coded = { held_code };

    ghost view = { λ m. record {
      files = map.from_entries m.files.items;
      failing = m.failing.items;
      calls = m.calls;
      asked = m.asked.items;
      faults = m.faults;
    } };
}

/// The place of the name.
fn position_of(files: &[(Bytes, Bytes)], name: &[u8]) -> Option<usize>
    ensures { result ≡ position (λ file. bytes_eq name.now file.0) files.now }
{
    files.iter().position(|file| name == file.0.as_slice())
}

impl MemFiles {
    /// No file. Takes no memory.
    pub fn new(alloc: Global) -> MemFiles
        ensures { result ≡ no_files }
    {
        MemFiles {
            files: Vec::new(alloc),
            failing: Vec::new(alloc),
            calls: 0,
            asked: Vec::new(alloc),
            faults: 0,
        }
    }

    /// The bytes under the name.
    fn bytes_of(&self, name: &[u8]) -> Option<&[u8]>
        ensures { option_copied result ≡ map.get self.now.files name.now }
    {
        let at = position_of(&self.files, name)?;
        Some(self.files[at].1.as_slice())
    }

    /// Holds these bytes under the name, in place of what stood there.
    pub fn hold(&mut self, name: &str, bytes: &[u8]) -> Result<(), AllocError>
        ensures ok { OnOk result (self.new ≡ record self.old { files = map.insert self.old.files name.now bytes.now }) }
        ensures err { OnErr result (self.new ≡ self.old) }
    {
        let alloc = *self.files.allocator();
        let name = name.as_bytes();
        let file = (
            Bytes::from_vec(Vec::from_slice(alloc, name)?),
            Bytes::from_vec(Vec::from_slice(alloc, bytes)?),
        );
        match position_of(&self.files, name) {
            Some(at) => self.files[at] = file,
            None => self.files.push(file)?,
        }
        Ok(())
    }

    /// Lets the read of this number fail; the first read is number 0.
    pub fn fail(&mut self, call: u64) -> Result<(), AllocError>
        ensures ok { OnOk result (self.new ≡ record self.old { failing = self.old.failing ++ call ∷ [] }) }
        ensures err { OnErr result (self.new ≡ self.old) }
    {
        self.failing.push(call)?;
        Ok(())
    }
}

impl Files for MemFiles {
    ghost told = { λ held. Some held.files };

    ghost faults = { λ held. held.faults };

    ghost asked = { λ held. held.asked };

    /// A name that is not held is a fault. Answers and counts are told exactly, apart from want of memory.
    fn read(&mut self, alloc: Global, name: &str, most: usize) -> Result<Bytes, FileFault>
        ensures answer { IsAnswer (answer_of self.old name.now most) result }
        ensures after { ReadsTo self.old name.now result self.new }
    {
        let call = self.calls;
        self.calls = call.saturating_add(1);
        let asked = Vec::from_slice(alloc, name.as_bytes()).map_err(|_| FileFault::Memory)?;
        self.asked
            .push(Bytes::from_vec(asked))
            .map_err(|_| FileFault::Memory)?;
        if self.failing.contains(&call) {
            self.faults = self.faults.saturating_add(1);
            return Err(FileFault::Failed);
        }
        match self.bytes_of(name.as_bytes()) {
            None => {
                self.faults = self.faults.saturating_add(1);
                Err(FileFault::Failed)
            }
            Some(bytes) if bytes.len() > most => Err(FileFault::LongFile),
            Some(bytes) => Ok(Bytes::from_vec(Vec::from_slice(alloc, bytes).map_err(
                |_| FileFault::Memory,
            )?)),
        }
    }
}
