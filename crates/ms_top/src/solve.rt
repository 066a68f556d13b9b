//! The run of a model: its least solution, or that it has none.

ghost use Rattle.std.specs.Prelude.{◌≡◌, ◌≢◌, ◌<◌, IsTrue, IfOk, MatchOption};
ghost use Rattle.ms_io.specs.Files.{Rose};
ghost use Rattle.ms_top.specs.declared.plain.PlainModel.{PlainModel};
ghost use Rattle.ms_top.specs.Answer.{IsRun, Runs, WritesNothing};
ghost use Rattle.ms_top.specs.Plain.{is_small};
ghost use Rattle.ms_top.specs.Solution.{IsLeast, HasNoSolution};

use crate::enumerate::set_least;
use crate::plain::PlainModel;
use crate::status::Status;
use crate::text::{UNSATISFIABLE, solution_text};
use crate::trees::{constraint_trees, domains};
use ms_base::{Closing, Point};
use ms_io::Sink;
use std::alloc::{AllocError, Global};

/// The least solution, if there is one.
fn least_solution(alloc: Global, model: &PlainModel) -> Result<Option<Point>, AllocError>
    requires { IsTrue (is_small model.now) }
    ensures { IfOk result (λ found. MatchOption found (HasNoSolution model.now)
        (IsLeast model.now)) }
{
    let domains = domains(alloc, model)?;
    let trees = constraint_trees(alloc, model)?;
    let mut numbers = vec![in alloc; 0i64; domains.len()]?;
    if set_least(&domains, &trees, numbers.as_mut_slice(), 0) {
        Ok(Some(Point::from_vec(numbers)))
    } else {
        Ok(None)
    }
}

/// How a run ends, and what it writes.
#[derive(Drop)]
struct Solved {
    closing: Closing,
    text: Vec<u8>,
}

fn solve(alloc: Global, model: &PlainModel) -> Result<Solved, AllocError>
    requires { IsTrue (is_small model.now) }
    ensures { IfOk result (λ x. IsRun model.now x.closing x.text.items) }
{
    match least_solution(alloc, model)? {
        Some(point) => Ok(Solved {
            closing: Closing::Plain,
            text: solution_text(alloc, model, point.as_slice())?,
        }),
        None => Ok(Solved {
            closing: Closing::Unsatisfiable,
            text: Vec::from_slice(alloc, UNSATISFIABLE)?,
        }),
    }
}

/// Writes the text of a run that has ended.
fn write<O: Sink>(solved: &Solved, out: &mut O) -> Status
    ensures runs { (m : PlainModel) → IsRun m solved.now.closing solved.now.text.items →
        Runs m result (O.taken out.old) (O.taken out.new) }
    ensures write_fault { result ≡ Status.WriteFault → Rose (O.faults out.old) (O.faults out.new) }
    ensures failed_write { O.faults out.old < O.faults out.new → result ≡ Status.WriteFault }
{
    match out.put(solved.text.as_slice()) {
        Ok(()) => Status::Done(solved.closing, None),
        Err(_) => Status::WriteFault,
    }
}

/// Runs a model, and writes what the run writes.
pub fn run_model<O: Sink>(alloc: Global, model: &PlainModel, out: &mut O) -> Status
    requires { IsTrue (is_small model.now) }
    ensures runs { Runs model.now result (O.taken out.old) (O.taken out.new) }
    ensures write_fault { result ≡ Status.WriteFault → Rose (O.faults out.old) (O.faults out.new) }
    ensures failed_write { O.faults out.old < O.faults out.new → result ≡ Status.WriteFault }
{
    match solve(alloc, model) {
        Ok(solved) => write(&solved, out),
        Err(_) => Status::NoMemory,
    }
}
