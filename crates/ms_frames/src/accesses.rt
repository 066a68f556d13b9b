//! Subscripts.

ghost use Rattle.std.specs.Prelude.{ℕ, List};
ghost use Rattle.ms_placing.specs.Outside.{Outside as OutsideOf};
ghost use Rattle.ms_placing.specs.Steps.{visit as visit_of};
ghost use Rattle.ms_placing.specs.Placing as p;
ghost use Rattle.ms_rules.specs.Access as r;
ghost use Rattle.ms_frames.specs.declared.frame.Here.{Here as HereOf};
ghost use Rattle.ms_frames.specs.declared.frame.AccessFrame.TheVariants as a;
ghost use Rattle.ms_frames.specs.Frames.{Goes, resume, subscripts as subscripts_of, back_access as back_access_of};

use crate::frame::{AccessFrame, Frame, Task};
use crate::nodes::visit;
use ms_access::access;
use ms_code::Subscript;
use ms_placing::PlaceFault;
use ms_syntax::Place;
use ms_values::{Operand, Pile};
use sqlite_items::Boxed;
use std::alloc::Global;

/// The subscripts that are still to come, of the operand of a node at `place`.
fn accessed<'a>(
    frames: &mut Pile<Frame<'a>>,
    at: Place,
    subscripts: &'a [Subscript],
    place: Place,
    x: Operand,
) -> Result<Task<'a>, PlaceFault>
    ensures { (out : OutsideOf) → (here : HereOf) → (n : ℕ) → (ws : List ℕ) → Goes out (p.accessed (subscripts_of out here.calls subscripts.now) at here.names place x (resume out frames.old here) n ws) result frames.new here n ws }
{
    match subscripts.split_first() {
        None => Ok(Task::Give(place, x)),
        Some((subscript, rest)) => {
            let first = &subscript.first;
            let frame = AccessFrame::First(at, x, subscript, rest);
            frames.push(Frame::Access(frame))?;
            Ok(Task::Enter(first))
        }
    }
}

/// All indices of a subscript are placed.
fn indexed<'a>(
    alloc: Global,
    frames: &mut Pile<Frame<'a>>,
    at: Place,
    x: Operand,
    i: Operand,
    j: Option<Operand>,
    subscripts: &'a [Subscript],
    left: &mut u64,
) -> Result<Task<'a>, PlaceFault>
    ensures { (out : OutsideOf) → (here : HereOf) → (ws : List ℕ) → Goes out (visit_of at (r.access x i j) (λ q z. p.accessed (subscripts_of out here.calls subscripts.entry.now) at here.names q z (resume out frames.old here)) left.old ws) result frames.new here left.new ws }
{
    let z = access(alloc, x, i, j)?;
    match subscripts.split_first() {
        None => visit(at, z, left),
        Some(_) => {
            frames.push(Frame::Access(AccessFrame::Array(at, subscripts)))?;
            visit(at, z, left)
        }
    }
}

/// The first index of a subscript is placed.
fn first_index<'a>(
    alloc: Global,
    frames: &mut Pile<Frame<'a>>,
    at: Place,
    x: Operand,
    i: Operand,
    subscript: &'a Subscript,
    subscripts: &'a [Subscript],
    left: &mut u64,
) -> Result<Task<'a>, PlaceFault>
    ensures { (out : OutsideOf) → (here : HereOf) → (ws : List ℕ) → Goes out (back_access_of out (a.First at x subscript.entry subscripts.entry) here at i (resume out frames.old) left.old ws) result frames.new here left.new ws }
{
    match &subscript.second {
        None => indexed(alloc, frames, at, x, i, None, subscripts, left),
        Some(second) => {
            let second = second.get();
            let x = Boxed::new(alloc, x)?;
            frames.push(Frame::Access(AccessFrame::Second(at, x, i, subscripts)))?;
            Ok(Task::Enter(second))
        }
    }
}

pub fn back_access<'a>(
    alloc: Global,
    frames: &mut Pile<Frame<'a>>,
    frame: AccessFrame<'a>,
    place: Place,
    x: Operand,
    left: &mut u64,
) -> Result<Task<'a>, PlaceFault>
    ensures { (out : OutsideOf) → (here : HereOf) → (ws : List ℕ) → Goes out (back_access_of out frame.entry here place x (resume out frames.old) left.old ws) result frames.new here left.new ws }
{
    match frame {
        AccessFrame::Array(at, subscripts) => accessed(frames, at, subscripts, place, x),
        AccessFrame::First(at, y, subscript, subscripts) => {
            first_index(alloc, frames, at, y, x, subscript, subscripts, left)
        }
        AccessFrame::Second(at, y, i, subscripts) => {
            indexed(
                alloc,
                frames,
                at,
                y.into_inner(),
                i,
                Some(x),
                subscripts,
                left,
            )
        }
    }
}
