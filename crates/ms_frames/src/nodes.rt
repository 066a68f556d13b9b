//! Steps, and what is tested at a node.

ghost use Rattle.std.specs.Prelude.{◌≡◌, ℕ, List, nat_le};
ghost use Rattle.ms_placing.specs.Outside.{Outside as OutsideOf};
ghost use Rattle.ms_placing.specs.Steps.{limited as limited_of, shallow as shallow_of};
ghost use Rattle.ms_rules.specs.Conversions as r;
ghost use Rattle.ms_frames.specs.declared.frame.Here.{Here as HereOf};
ghost use Rattle.ms_frames.specs.declared.frame.Frame.{Frame as FrameOf};
ghost use Rattle.ms_frames.specs.Frames.{Goes, Given, Settled, Ticks, resume};

use crate::frame::Task;
use ms_base::{Count, ELEMENT_LIMIT, TREE_NESTING_LIMIT};
use ms_placing::PlaceFault;
use ms_rules::{conversion_nesting, convert, elements_of, nesting_of};
use ms_syntax::Place;
use ms_typing::ExprType;
use ms_values::Operand;
use std::alloc::Global;

/// Takes an evaluation step.
#[inline(always)]
pub fn tick(place: Place, left: &mut u64) -> Result<(), PlaceFault>
    ensures { Ticks place left.old result left.new }
{
    if *left == 0 {
        return Err(PlaceFault::Big(Count::Steps, place));
    }
    *left -= 1;
    Ok(())
}

#[inline(always)]
pub fn is_shallow(nesting: u64) -> bool
    ensures { result ≡ nat_le nesting TREE_NESTING_LIMIT }
{
    nesting <= TREE_NESTING_LIMIT as u64
}

/// A tree goes on where it nests no deeper than the limit.
#[inline(always)]
fn shallow<'a>(place: Place, nesting: u64, x: Operand) -> Result<Task<'a>, PlaceFault>
    ensures { (out : OutsideOf) → (frames : List FrameOf) → (here : HereOf) → (n : ℕ) → (ws : List ℕ) → Goes out (shallow_of place nesting (resume out frames here place x) n ws) result frames here n ws }
{
    if is_shallow(nesting) {
        Ok(Task::Give(place, x))
    } else {
        Err(PlaceFault::Big(Count::Nesting, place))
    }
}

/// An operand within the limits goes on.
#[inline(always)]
fn limited<'a>(place: Place, x: Operand) -> Result<Task<'a>, PlaceFault>
    ensures { (out : OutsideOf) → (frames : List FrameOf) → (here : HereOf) → (n : ℕ) → (ws : List ℕ) → Goes out (limited_of place x (resume out frames here) n ws) result frames here n ws }
{
    if elements_of(&x) <= ELEMENT_LIMIT {
        let nesting = nesting_of(&x);
        shallow(place, nesting, x)
    } else {
        Err(PlaceFault::Big(Count::Elements, place))
    }
}

/// The operand of a node that takes no step.
#[inline(always)]
pub fn settle<'a>(place: Place, x: Option<Operand>) -> Result<Task<'a>, PlaceFault>
    ensures { Settled place x result }
{
    match x {
        None => Err(PlaceFault::Wide(place)),
        Some(x) => limited(place, x),
    }
}

/// The node is visited: a step, and then its operand, unless it leaves the limits.
#[inline(always)]
pub fn visit<'a>(place: Place, x: Option<Operand>, left: &mut u64) -> Result<Task<'a>, PlaceFault>
    ensures { Given place x left.old result left.new }
{
    tick(place, left)?;
    settle(place, x)
}

/// An operand brought to a type, where that makes no tree that is too deep.
pub fn converted<'a>(
    alloc: Global,
    kind: ExprType,
    place: Place,
    x: Operand,
) -> Result<Task<'a>, PlaceFault>
    ensures { (out : OutsideOf) → (frames : List FrameOf) → (here : HereOf) → (n : ℕ) → (ws : List ℕ) → Goes out (shallow_of place (r.conversion_nesting kind x) (resume out frames here place (r.convert kind x)) n ws) result frames here n ws }
{
    if is_shallow(conversion_nesting(kind, &x)) {
        Ok(Task::Give(place, convert(alloc, kind, x)?))
    } else {
        Err(PlaceFault::Big(Count::Nesting, place))
    }
}
