//! The walk.

ghost use Rattle.std.specs.Prelude.{ℕ, List};
ghost use Rattle.ms_placing.specs.Outside.{Outside as OutsideOf};
ghost use Rattle.ms_placing.specs.Placing.{Places, placed_from};
ghost use Rattle.ms_walk.specs.Around.{outside_of};
ghost use Rattle.ms_frames.specs.Frames.{Goes, Answers, goes, resume, run_in};

use crate::enter::enter;
use crate::names::look;
use crate::opened::call_name;
use crate::surroundings::Surroundings;
use ms_base::{CALL_NESTING_LIMIT, EVALUATION_STEP_LIMIT};
use ms_code::Code;
use ms_draws::Words;
use ms_frames::{Frame, Here, Task, back, fill, made, turn};
use ms_placing::PlaceFault;
use ms_syntax::Place;
use ms_values::{Operand, Pile};
use std::alloc::Global;

/// An operand goes to the latest frame.
#[inline(always)]
fn give<'a>(
    alloc: Global,
    frames: &mut Pile<Frame<'a>>,
    here: &mut Here,
    place: Place,
    x: Operand,
    left: &mut u64,
) -> Result<Task<'a>, PlaceFault>
    ensures { (out : OutsideOf) → (ws : List ℕ) → Goes out (resume out frames.old here.old place x left.old ws) result frames.new here.new left.new ws }
{
    match frames.pop() {
        None => Ok(Task::Done(place, x)),
        Some(frame) => back(alloc, frames, here, frame, place, x, left),
    }
}

/// Into an expression; a name is looked up at once.
#[inline(always)]
fn go_into<'a, O: Surroundings>(
    alloc: Global,
    outside: &O,
    frames: &mut Pile<Frame<'a>>,
    here: &Here,
    e: &'a Code,
    left: &mut u64,
) -> Result<Task<'a>, PlaceFault>
    ensures { (w : List ℕ → ℕ) → (f : List ℕ → List ℕ) → (ws : List ℕ) → Goes (outside_of (O.around outside.now) w f) (run_in (outside_of (O.around outside.now) w f) here.now e.now (resume (outside_of (O.around outside.now) w f) frames.old here.now) left.old ws) result frames.new here.now left.new ws }
{
    match e {
        Code::Name(p, name) => look(alloc, outside, here, *p, *name, left),
        _ => enter(alloc, frames, e, left),
    }
}

#[inline(always)]
fn step<'a, O: Surroundings, W: Words>(
    alloc: Global,
    outside: &'a O,
    words: &mut W,
    frames: &mut Pile<Frame<'a>>,
    here: &mut Here,
    task: Task<'a>,
    left: &mut u64,
) -> Result<Task<'a>, PlaceFault>
    ensures { Goes (outside_of (O.around outside.now) W.word_of W.after) (goes (outside_of (O.around outside.now) W.word_of W.after) frames.old here.old task.entry left.old (W.state words.old)) result frames.new here.new left.new (W.state words.new) }
{
    match task {
        Task::Enter(e) => go_into(alloc, outside, frames, here, e, left),
        Task::Look(p, name) => look(alloc, outside, here, p, name, left),
        Task::Call(p, name, arguments) => {
            call_name(
                alloc, outside, words, frames, here, p, name, arguments, left,
            )
        }
        Task::Fill(end, cells, es) => fill(alloc, frames, end, cells, es, left),
        Task::Turn(making, next) => turn(alloc, frames, here, making, next.into_inner(), left),
        Task::Made(making) => made(alloc, frames, here, making, left),
        Task::Give(p, x) => give(alloc, frames, here, p, x, left),
        Task::Done(p, x) => Ok(Task::Done(p, x)),
    }
}

/// Places an expression under names, the latest first, where so many evaluation steps are left: the operand with the place
/// of its node, or the first fault.
pub fn place<'a, O: Surroundings, W: Words>(
    alloc: Global,
    outside: &'a O,
    words: &mut W,
    names: Pile<Operand>,
    e: &'a Code,
    left: &mut u64,
) -> Result<(Place, Operand), PlaceFault>
    ensures { Answers (Places (outside_of (O.around outside.now) W.word_of W.after) names e.now left.old (W.state words.old)) result left.new (W.state words.new) }
{
    let mut frames = Pile::new(alloc);
    let mut here = Here {
        calls: CALL_NESTING_LIMIT as u64,
        names,
    };
    let mut task = Task::Enter(e);
    'walk: for _ in 0..u64::MAX {
        match task {
            Task::Done(p, x) => return Ok((p, x)),
            other => match step(alloc, outside, words, &mut frames, &mut here, other, left) {
                Ok(next) => task = next,
                Err(fault) => return Err(fault),
            },
        }
    }
    Err(PlaceFault::Memory)
}

/// The same from all the steps of one placing.
pub fn placed<'a, O: Surroundings, W: Words>(
    alloc: Global,
    outside: &'a O,
    words: &mut W,
    names: Pile<Operand>,
    e: &'a Code,
) -> Result<(Place, Operand), PlaceFault>
    ensures { ((left : ℕ) × Answers (placed_from (outside_of (O.around outside.now) W.word_of W.after) names e.now (W.state words.old)) result left (W.state words.new)) }
{
    let mut left = EVALUATION_STEP_LIMIT;
    place(alloc, outside, words, names, e, &mut left)
}
