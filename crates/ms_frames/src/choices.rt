//! Conditions and branches of an `if`.

ghost use Rattle.std.specs.Prelude.{ℕ, List, if◌then◌else◌};
ghost use Rattle.ms_placing.specs.Outside.{Outside as OutsideOf};
ghost use Rattle.ms_syntax.specs.declared.token.Place.{Place as PlaceOf};
ghost use Rattle.ms_placing.specs.Placing as p;
ghost use Rattle.ms_frames.specs.declared.frame.Here.{Here as HereOf};
ghost use Rattle.ms_frames.specs.declared.frame.ChoiceFrame.TheVariants as c;
ghost use Rattle.ms_frames.specs.Frames.{Goes, resume, run_in, arms_in, part, back_choice as back_choice_of};

use crate::frame::{ChoiceFrame, Frame, Task};
use ms_code::{Arm, Code, Condition};
use ms_operators::choose;
use ms_placing::PlaceFault;
use ms_rules::truth;
use ms_syntax::Place;
use ms_values::{Operand, Pile};
use sqlite_items::Boxed;
use std::alloc::Global;

/// The conditions that are still to come.
pub fn choose_arm<'a>(
    frames: &mut Pile<Frame<'a>>,
    arms: &'a [Arm],
    last: &'a Code,
) -> Result<Task<'a>, PlaceFault>
    ensures { (out : OutsideOf) → (here : HereOf) → (n : ℕ) → (ws : List ℕ) → Goes out (p.chosen (arms_in out here.calls arms.entry.now) (part out here.calls last.entry.now) here.names (resume out frames.old here) n ws) result frames.new here n ws }
{
    match arms.split_first() {
        None => Ok(Task::Enter(last)),
        Some((arm, rest)) => {
            let condition = &arm.condition;
            frames.push(Frame::Choice(ChoiceFrame::Condition(arm, rest, last)))?;
            Ok(Task::Enter(condition))
        }
    }
}

/// A known condition is placed.
fn taken<'a>(
    frames: &mut Pile<Frame<'a>>,
    holds: bool,
    branch: &'a Code,
    arms: &'a [Arm],
    last: &'a Code,
) -> Result<Task<'a>, PlaceFault>
    ensures { (out : OutsideOf) → (here : HereOf) → (n : ℕ) → (ws : List ℕ) → Goes out ((if holds then run_in out here branch.entry.now (resume out frames.old here) else p.chosen (arms_in out here.calls arms.entry.now) (part out here.calls last.entry.now) here.names (resume out frames.old here)) n ws) result frames.new here n ws }
{
    if holds {
        Ok(Task::Enter(branch))
    } else {
        choose_arm(frames, arms, last)
    }
}

/// A condition is placed.
fn conditioned<'a>(
    frames: &mut Pile<Frame<'a>>,
    arm: &'a Arm,
    arms: &'a [Arm],
    last: &'a Code,
    x: Operand,
) -> Result<Task<'a>, PlaceFault>
    ensures { (out : OutsideOf) → (here : HereOf) → (place : PlaceOf) → (n : ℕ) → (ws : List ℕ) → Goes out (back_choice_of out (c.Condition arm.entry arms.entry last.entry) here place x (resume out frames.old) n ws) result frames.new here n ws }
{
    let branch = &arm.branch;
    match arm.kind {
        Condition::Known => taken(frames, truth(x), branch, arms, last),
        Condition::Search => taken(frames, truth(x), branch, arms, last),
        Condition::Variable => {
            frames.push(Frame::Choice(ChoiceFrame::Branch(x, arms, last)))?;
            Ok(Task::Enter(branch))
        }
    }
}

/// The branch of a variable condition is placed.
fn branched<'a>(
    alloc: Global,
    frames: &mut Pile<Frame<'a>>,
    condition: Operand,
    arms: &'a [Arm],
    last: &'a Code,
    x: Operand,
) -> Result<Task<'a>, PlaceFault>
    ensures { (out : OutsideOf) → (here : HereOf) → (place : PlaceOf) → (n : ℕ) → (ws : List ℕ) → Goes out (back_choice_of out (c.Branch condition arms.entry last.entry) here place x (resume out frames.old) n ws) result frames.new here n ws }
{
    let condition = Boxed::new(alloc, condition)?;
    frames.push(Frame::Choice(ChoiceFrame::Other(condition, x)))?;
    choose_arm(frames, arms, last)
}

#[inline(never)]
pub fn back_choice<'a>(
    alloc: Global,
    frames: &mut Pile<Frame<'a>>,
    frame: ChoiceFrame<'a>,
    place: Place,
    x: Operand,
) -> Result<Task<'a>, PlaceFault>
    ensures { (out : OutsideOf) → (here : HereOf) → (n : ℕ) → (ws : List ℕ) → Goes out (back_choice_of out frame.entry here place x (resume out frames.old) n ws) result frames.new here n ws }
{
    match frame {
        ChoiceFrame::Condition(arm, arms, last) => conditioned(frames, arm, arms, last, x),
        ChoiceFrame::Branch(condition, arms, last) => branched(
            alloc, frames, condition, arms, last, x,
        ),
        ChoiceFrame::Other(condition, y) => {
            Ok(Task::Give(place, choose(alloc, condition.into_inner(), y, x)?))
        }
    }
}
