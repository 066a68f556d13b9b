//! One placing.

ghost use Rattle.std.specs.Prelude.{ℕ, List};
ghost use Rattle.ms_frames.specs.Frames.{Answers};
ghost use Rattle.ms_placing.specs.Steps.{Out};
ghost use Rattle.ms_declared.specs.Made.{Gives};
ghost use Rattle.ms_declared.specs.Placing as p;

use crate::fault::ValueFault;
use ms_code::Code;
use ms_draws::ListWords;
use ms_placing::PlaceFault;
use ms_syntax::Place;
use ms_values::{Operand, Pile};
use ms_walk::{Surroundings, placed};
use std::alloc::Global;

fn came(placed: Result<(Place, Operand), PlaceFault>) -> Result<(Place, Operand), ValueFault>
    ensures { (out : Out) → (left : ℕ) → (words : List ℕ) → Answers out placed left words → Gives (p.came out) result }
{
    match placed {
        Ok(x) => Ok(x),
        Err(PlaceFault::Wide(place)) => Err(ValueFault::Wide(place)),
        Err(PlaceFault::Big(count, place)) => Err(ValueFault::Big(count, place)),
        Err(PlaceFault::Memory) => Err(ValueFault::Memory),
    }
}

/// What an expression comes to among the names of a model, with the place of its node. It draws no random words.
#[tactic(auto, unfolding(crate::specs::Placing::placed_in))]
pub fn placed_in<O: Surroundings>(
    alloc: Global,
    outside: &O,
    e: &Code,
) -> Result<(Place, Operand), ValueFault>
    ensures { Gives (p.placed_in (O.around outside.now) e.now) result }
{
    let mut words = ListWords::new(alloc, &[])?;
    came(placed(alloc, outside, &mut words, Pile::new(alloc), e))
}
