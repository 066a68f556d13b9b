//! Back to a frame.

ghost use Rattle.std.specs.Prelude.{ℕ, List};
ghost use Rattle.ms_placing.specs.Outside.{Outside as OutsideOf};
ghost use Rattle.ms_frames.specs.Frames.{Goes, resume, back as back_of};

use crate::accesses::back_access;
use crate::chains::back_chain;
use crate::choices::back_choice;
use crate::elements::{argue, gain};
use crate::frame::{Frame, Here, Task};
use crate::locals::{bound, leave};
use crate::makings::back_making;
use crate::nodes::{converted, visit};
use ms_operators::signed;
use ms_placing::PlaceFault;
use ms_syntax::Place;
use ms_values::{Operand, Pile};
use std::alloc::Global;

#[inline(always)]
pub fn back<'a>(
    alloc: Global,
    frames: &mut Pile<Frame<'a>>,
    here: &mut Here,
    frame: Frame<'a>,
    place: Place,
    x: Operand,
    left: &mut u64,
) -> Result<Task<'a>, PlaceFault>
    ensures { (out : OutsideOf) → (ws : List ℕ) → Goes out (back_of out frame.entry here.old place x (resume out frames.old) left.old ws) result frames.new here.new left.new ws }
{
    match frame {
        Frame::Convert(kind) => converted(alloc, kind, place, x),
        Frame::Prefix(p, sign) => {
            let y = signed(alloc, sign, x)?;
            visit(p, y, left)
        }
        Frame::Node(p) => visit(p, Some(x), left),
        Frame::Chain(inner) => back_chain(alloc, frames, inner, place, x, left),
        Frame::Access(inner) => back_access(alloc, frames, inner, place, x, left),
        Frame::Argument(p, name, arguments, es) => argue(frames, p, name, arguments, x, es),
        Frame::Element(end, cells, es) => gain(alloc, end, cells, x, es),
        Frame::Choice(inner) => back_choice(alloc, frames, inner, place, x),
        Frame::Bound(values, body) => bound(frames, here, values, body, x),
        Frame::Unbound => {
            leave(here);
            Ok(Task::Give(place, x))
        }
        Frame::Return(p, old) => {
            *here = old;
            visit(p, Some(x), left)
        }
        Frame::Made(inner) => back_making(alloc, frames, inner, x),
    }
}
