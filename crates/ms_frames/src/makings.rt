//! Arrays that generators make.

ghost use Rattle.std.specs.Prelude.{◌≡◌, ℕ, List, Some, IfOk, true, if◌then◌else◌};
ghost use Rattle.ms_syntax.specs.declared.token.Place.{Place as PlaceOf};
ghost use Rattle.ms_placing.specs.Outside.{Outside as OutsideOf};
ghost use Rattle.ms_placing.specs.Placing as p;
ghost use Rattle.ms_frames.specs.declared.frame.Here.{Here as HereOf};
ghost use Rattle.ms_frames.specs.declared.frame.Frame.{Frame as FrameOf};
ghost use Rattle.ms_rules.specs.Cells as r;
ghost use Rattle.ms_rules.specs.Conversions as q;
ghost use Rattle.ms_frames.specs.Frames.{Goes, resume, run_in, made_of, element_of, nested_in, turns_in, deeper as deeper_of, further as further_of, finished, resumed, generator_in, back_making as back_making_of};

use crate::frame::{Frame, Here, Making, MakingFrame, Plan, Task, Turn};
use crate::held::Held;
use crate::locals::leave;
use crate::nodes::{settle, tick, visit};
use ms_code::Generator;
use ms_num::Ranges;
use ms_placing::PlaceFault;
use ms_rules::{empty, kind_of, kind_of_type, line_from_one, set_of, truth};
use ms_syntax::Place;
use ms_typing::ExprType;
use ms_values::{Cells, Numbers, Operand, Pile, Shared};
use sqlite_items::Boxed;
use std::alloc::{AllocError, Global};

fn array_of(alloc: Global, cells: Cells, whole: bool) -> Result<Operand, AllocError>
    ensures { IfOk result (λ x. x ≡ p.array_of (record { cells = cells; whole = whole })) }
{
    if whole {
        line_from_one(alloc, cells)
    } else {
        Ok(Operand::NoArray(kind_of(&cells)))
    }
}

/// The array is whole.
#[inline(never)]
fn finish<'a>(
    alloc: Global,
    plan: Plan<'a>,
    cells: Cells,
    whole: bool,
    left: &mut u64,
) -> Result<Task<'a>, PlaceFault>
    ensures { (out : OutsideOf) → (frames : List FrameOf) → (here : HereOf) → (ws : List ℕ) → Goes out (finished plan.entry (record { cells = cells; whole = whole }) (resume out frames here) left.old ws) result frames here left.new ws }
{
    let x = array_of(alloc, cells, whole)?;
    if plan.is_node {
        visit(plan.place, Some(x), left)
    } else {
        settle(plan.place, Some(x))
    }
}

/// The next of so many further names of a generator.
fn further<'a>(
    place: Place,
    names: usize,
    set: &Shared<Ranges>,
    inner: &'a [Generator],
) -> Result<Option<Turn<'a>>, AllocError>
    ensures { IfOk result (λ it. it ≡ further_of place names set.now inner.entry) }
{
    if names == 0 {
        return Ok(None);
    }
    let numbers = Numbers::of(set.share()?);
    let set = set.share()?;
    Ok(Some(Turn {
        place,
        numbers,
        set,
        names: names - 1,
        inner,
    }))
}

/// An element, where what stands after `where` is true.
#[inline(always)]
fn test<'a>(frames: &mut Pile<Frame<'a>>, making: Held<Making<'a>>) -> Result<Task<'a>, PlaceFault>
    ensures { (out : OutsideOf) → (here : HereOf) → (n : ℕ) → (ws : List ℕ) → Goes out (element_of out here.calls making.entry.plan here.names (made_of making.entry) (resumed out making.entry.plan making.entry.turns here (resume out frames.old)) n ws) result frames.new here n ws }
{
    let plan = making.plan();
    let body = plan.body;
    match plan.condition {
        None => {
            frames.push(Frame::Made(MakingFrame::Body(making)))?;
            Ok(Task::Enter(body))
        }
        Some(condition) => {
            frames.push(Frame::Made(MakingFrame::Test(making)))?;
            Ok(Task::Enter(condition))
        }
    }
}

/// The generators that are still to come.
#[inline(always)]
fn nested<'a>(
    frames: &mut Pile<Frame<'a>>,
    making: Held<Making<'a>>,
    generators: &'a [Generator],
) -> Result<Task<'a>, PlaceFault>
    ensures { (out : OutsideOf) → (here : HereOf) → (n : ℕ) → (ws : List ℕ) → Goes out (nested_in out here.calls making.entry.plan generators.now here.names (made_of making.entry) (resumed out making.entry.plan making.entry.turns here (resume out frames.old)) n ws) result frames.new here n ws }
{
    match generators.split_first() {
        None => test(frames, making),
        Some((generator, rest)) => {
            let set = &generator.set;
            frames.push(Frame::Made(MakingFrame::Set(making, generator, rest)))?;
            Ok(Task::Enter(set))
        }
    }
}

/// A further name, or else the generators that are still to come.
#[inline(always)]
fn deeper<'a>(
    alloc: Global,
    frames: &mut Pile<Frame<'a>>,
    making: Held<Making<'a>>,
    turn: Option<Turn<'a>>,
    generators: &'a [Generator],
) -> Result<Task<'a>, PlaceFault>
    ensures { (out : OutsideOf) → (here : HereOf) → (n : ℕ) → (ws : List ℕ) → Goes out (deeper_of out here.calls making.entry.plan turn.entry generators.now here.names (made_of making.entry) (resumed out making.entry.plan making.entry.turns here (resume out frames.old)) n ws) result frames.new here n ws }
{
    match turn {
        None => nested(frames, making, generators),
        Some(turn) => Ok(Task::Turn(making, Boxed::new(alloc, turn)?)),
    }
}

/// The next number of a name.
#[inline(always)]
pub fn turn<'a>(
    alloc: Global,
    frames: &mut Pile<Frame<'a>>,
    here: &mut Here,
    making: Held<Making<'a>>,
    turn: Turn<'a>,
    left: &mut u64,
) -> Result<Task<'a>, PlaceFault>
    ensures { (out : OutsideOf) → (ws : List ℕ) → Goes out (turns_in out here.old.calls making.entry.plan turn.entry here.old.names (made_of making.entry) (resumed out making.entry.plan making.entry.turns here.old (resume out frames.old)) left.old ws) result frames.new here.new left.new ws }
{
    let mut making = making;
    let mut turn = turn;
    match turn.numbers.take() {
        None => Ok(Task::Made(making)),
        Some(n) => {
            tick(turn.place, left)?;
            let inner = turn.inner;
            let next = further(turn.place, turn.names, &turn.set, inner)?;
            here.names.push(Operand::Number(Some(n)))?;
            making.begin(turn)?;
            deeper(alloc, frames, making, next, inner)
        }
    }
}

/// All is made for a number of the latest name that runs.
#[inline(always)]
pub fn made<'a>(
    alloc: Global,
    frames: &mut Pile<Frame<'a>>,
    here: &mut Here,
    making: Held<Making<'a>>,
    left: &mut u64,
) -> Result<Task<'a>, PlaceFault>
    ensures { (out : OutsideOf) → (ws : List ℕ) → Goes out (resumed out making.entry.plan making.entry.turns here.old (resume out frames.old) (made_of making.entry) left.old ws) result frames.new here.new left.new ws }
{
    let mut making = making;
    match making.latest() {
        None => {
            let all = making.into_inner();
            finish(alloc, all.plan, all.cells, all.whole, left)
        }
        Some(last) => {
            leave(here);
            turn(alloc, frames, here, making, last, left)
        }
    }
}

/// The set of a generator is placed.
#[inline(never)]
fn begin<'a>(
    alloc: Global,
    frames: &mut Pile<Frame<'a>>,
    making: Held<Making<'a>>,
    generator: &'a Generator,
    generators: &'a [Generator],
    set: Option<Shared<Ranges>>,
) -> Result<Task<'a>, PlaceFault>
    ensures { (out : OutsideOf) → (here : HereOf) → (n : ℕ) → (ws : List ℕ) → Goes out (p.through_set (generator_in out here.calls generator.entry.now).place (generator_in out here.calls generator.entry.now).names set (nested_in out here.calls making.entry.plan generators.entry.now) here.names (made_of making.entry) (resumed out making.entry.plan making.entry.turns here (resume out frames.old)) n ws) result frames.new here n ws }
{
    let mut making = making;
    match set {
        None => {
            making.spoil();
            Ok(Task::Made(making))
        }
        Some(set) => {
            let next = further(generator.place, generator.names, &set, generators)?;
            deeper(alloc, frames, making, next, generators)
        }
    }
}

/// An element is placed.
#[inline(never)]
fn gain<'a>(alloc: Global, making: Held<Making<'a>>, x: Operand) -> Result<Task<'a>, PlaceFault>
    ensures { (out : OutsideOf) → (frames : List FrameOf) → (here : HereOf) → (n : ℕ) → (ws : List ℕ) → Goes out (resumed out making.entry.plan making.entry.turns here (resume out frames) (p.gained (made_of making.entry) x) n ws) result frames here n ws }
{
    let mut making = making;
    making.gain(alloc, x)?;
    Ok(Task::Made(making))
}

/// What stands after `where` is placed.
#[inline(always)]
fn tested<'a>(
    frames: &mut Pile<Frame<'a>>,
    making: Held<Making<'a>>,
    holds: bool,
) -> Result<Task<'a>, PlaceFault>
    ensures { (out : OutsideOf) → (here : HereOf) → (n : ℕ) → (ws : List ℕ) → Goes out ((if holds then run_in out here making.entry.plan.body.now (λ q y. resumed out making.entry.plan making.entry.turns here (resume out frames.old) (p.gained (made_of making.entry) y)) else resumed out making.entry.plan making.entry.turns here (resume out frames.old) (made_of making.entry)) n ws) result frames.new here n ws }
{
    if holds {
        let body = making.plan().body;
        frames.push(Frame::Made(MakingFrame::Body(making)))?;
        Ok(Task::Enter(body))
    } else {
        Ok(Task::Made(making))
    }
}

#[inline(always)]
pub fn back_making<'a>(
    alloc: Global,
    frames: &mut Pile<Frame<'a>>,
    frame: MakingFrame<'a>,
    x: Operand,
) -> Result<Task<'a>, PlaceFault>
    ensures { (out : OutsideOf) → (here : HereOf) → (place : PlaceOf) → (n : ℕ) → (ws : List ℕ) → Goes out (back_making_of out frame.entry here place x (resume out frames.old) n ws) result frames.new here n ws }
{
    match frame {
        MakingFrame::Set(making, generator, generators) => {
            begin(alloc, frames, making, generator, generators, set_of(x))
        }
        MakingFrame::Test(making) => tested(frames, making, truth(x)),
        MakingFrame::Body(making) => gain(alloc, making, x),
    }
}

/// Generators and what is placed for each of their values.
#[inline(never)]
pub fn generate<'a>(
    alloc: Global,
    frames: &mut Pile<Frame<'a>>,
    plan: Plan<'a>,
    kind: ExprType,
    generators: &'a [Generator],
) -> Result<Task<'a>, PlaceFault>
    ensures { (out : OutsideOf) → (here : HereOf) → (n : ℕ) → (ws : List ℕ) → Goes out (nested_in out here.calls plan.entry generators.entry.now here.names (record { cells = r.empty (q.kind_of_type kind); whole = true }) (λ made. finished plan.entry made (resume out frames.old here)) n ws) result frames.new here n ws }
{
    let making = Held::new(
        alloc,
        Making {
            plan,
            cells: empty(alloc, kind_of_type(kind)),
            whole: true,
            turns: Pile::new(alloc),
        },
    )?;
    nested(frames, making, generators)
}
