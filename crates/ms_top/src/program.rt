//! The top call.

ghost use Rattle.std.specs.Prelude.{◌≡◌, ◌≢◌, ◌<◌, ◌↔◌, ◌⊎◌, ℕ, ℤ, List, length};
ghost use Rattle.ms_io.specs.Files.{HasFile, Rose};
ghost use Rattle.ms_io.specs.Sink.{Gains, Reports};
ghost use Rattle.ms_top.specs.declared.plain.PlainModel.{PlainModel};
ghost use Rattle.ms_top.specs.declared.status.Fault.{Fault};
ghost use Rattle.ms_top.specs.Answer.{Answers, Exactly, HasLeast, HasNone, Unless, WritesNothing};
ghost use Rattle.ms_top.specs.Faults.{IsFaulty};
ghost use Rattle.ms_top.specs.Text.{file_name, report_text, solution_text, unsatisfiable_text};
ghost use Rattle.ms_top.specs.Words.{AreRead, AsksFor, AsksForModel, IsMissing, NameBytes};
ghost use Rattle.ms_top.specs.Words.{model_name};

use crate::accept::accepted_file;
use crate::laws::one_outcome;
use crate::report::{FileNames, report};
use crate::solve::run_model;
use crate::status::Status;
use ms_base::Closing;
use ms_io::{Files, Sink};
use std::alloc::Global;

/// Reads the model's file and answers it.
fn answer_file<F: Files, O: Sink>(alloc: Global, file: &str, files: &mut F, out: &mut O) -> Status
    ensures told { F.told files.new ≡ F.told files.old }
    ensures asks { AsksFor file.now result (F.asked files.old) (F.asked files.new) }
    ensures answers { (bytes : List ℕ) → HasFile (F.told files.old) file.now bytes →
        Answers bytes result (O.taken out.old) (O.taken out.new) }
    ensures nothing { WritesNothing result → O.taken out.new ≡ O.taken out.old }
    ensures read_fault { result ≡ Status.ReadFault →
        Rose (F.faults files.old) (F.faults files.new) }
    ensures failed_read { F.faults files.old < F.faults files.new → result ≡ Status.ReadFault }
    ensures missing { IsMissing (F.told files.old) file.now →
        (result ≡ Status.ReadFault) ⊎ (result ≡ Status.NoMemory) }
    ensures write_fault { result ≡ Status.WriteFault → Rose (O.faults out.old) (O.faults out.new) }
    ensures failed_write { O.faults out.old < O.faults out.new → result ≡ Status.WriteFault }
    ensures usage { result ≢ Status.Usage }
{
    match accepted_file(alloc, file, files) {
        Ok(model) => run_model(alloc, &model, out),
        Err(status) => status,
    }
}

/// Runs the program on its words, of which the first is its own name and the second the model's file: reads
/// the file, writes the least solution to `out`, and says on `err` why there is none where the run is not done.
///
/// The bytes of the model are those that `files` tells under the name; a read or a write has failed only where
/// the count of `files` or `out` rose.
pub fn run<F: Files, O: Sink, E: Sink>(
    alloc: Global,
    words: &[String],
    files: &mut F,
    out: &mut O,
    err: &mut E,
) -> Status
    // What is done for the bytes under the name.
    ensures answers { (bytes : List ℕ) → NameBytes (F.told files.old) words.now bytes →
        Answers bytes result (O.taken out.old) (O.taken out.new) }
    ensures plain { (bytes : List ℕ) (m : PlainModel) (a : List ℤ) →
        NameBytes (F.told files.old) words.now bytes → HasLeast bytes m a →
        Unless (Rose (F.faults files.old) (F.faults files.new)) (Rose (O.faults out.old) (O.faults out.new)) result
        ((result ≡ Status.Done Closing.Plain None) × Gains (O.taken out.old) (solution_text m a) (O.taken out.new)) }
    ensures unsatisfiable { (bytes : List ℕ) (m : PlainModel) →
        NameBytes (F.told files.old) words.now bytes → HasNone bytes m →
        Unless (Rose (F.faults files.old) (F.faults files.new)) (Rose (O.faults out.old) (O.faults out.new)) result
        ((result ≡ Status.Done Closing.Unsatisfiable None) × Gains (O.taken out.old) unsatisfiable_text (O.taken out.new)) }
    ensures nothing { WritesNothing result → O.taken out.new ≡ O.taken out.old }

    // When each other status comes.
    ensures usage { (result ≡ Status.Usage) ↔ (length words.now ≢ 2) }
    ensures refused { (bytes : List ℕ) (fault : Fault) →
        AreRead (F.told files.old) (F.faults files.old) (F.faults files.new) words.now bytes →
        Exactly (Status.Refused fault) result (IsFaulty bytes fault) }
    ensures read_fault { result ≡ Status.ReadFault →
        Rose (F.faults files.old) (F.faults files.new) }
    ensures failed_read { F.faults files.old < F.faults files.new →
        (result ≡ Status.ReadFault) ⊎ (result ≡ Status.NoMemory) }
    ensures missing { length words.now ≡ 2 → IsMissing (F.told files.old) (model_name words.now) →
        (result ≡ Status.ReadFault) ⊎ (result ≡ Status.NoMemory) }
    ensures write_fault { result ≡ Status.WriteFault → Rose (O.faults out.old) (O.faults out.new) }
    ensures failed_write { O.faults out.old < O.faults out.new → result ≡ Status.WriteFault }

    // What is asked for, and what is said.
    ensures told { F.told files.new ≡ F.told files.old }
    ensures asks { AsksForModel words.now result (F.asked files.old) (F.asked files.new) }
    ensures reports { Reports (report_text (file_name (model_name words.now)) result)
        (E.taken err.old) (E.faults err.old) (E.taken err.new) (E.faults err.new) }
{
    one_outcome();
    let [_, file] = words else {
        return report(alloc, &FileNames { model: b"" }, Status::Usage, err);
    };
    let status = answer_file(alloc, file.as_str(), files, out);
    let names = FileNames {
        model: file.as_bytes(),
    };
    report(alloc, &names, status, err)
}
