//! Declarations.

ghost use Rattle.std.specs.Prelude.{option_map};
ghost use Rattle.ms_declared.specs.Made.{Gives, GivesOf};
ghost use Rattle.ms_declared.specs.Values as d;
ghost use Rattle.ms_declared.specs.Variables as v;
ghost use Rattle.ms_declared.specs.Views.{declared_of, given_of};

use crate::fault::ValueFault;
use crate::given::{Given, value_of};
use crate::sides::{placed_set, sides_of};
use crate::variables::variables_in;
use ms_base::{Count, VARIABLE_LIMIT};
use ms_code::{Code, Declaration};
use ms_num::Ranges;
use ms_syntax::{FileNo, Place};
use ms_typing::ExprType;
use ms_values::{IndexRange, Operand, Shared};
use ms_walk::Surroundings;
use std::alloc::Global;

/// What a declaration comes to.
#[derive(Drop)]
pub struct Declared {
    pub kind: ExprType,
    /// The index set of each dimension of an array; none where any will do.
    pub sides: Vec<Option<IndexRange>>,
    /// The declared set, where there is one.
    pub within: Option<Shared<Ranges>>,
    /// The value that is given, with the place of its node; none where none is given.
    pub value: Option<(Place, Operand)>,
}

fn within_of<O: Surroundings>(
    alloc: Global,
    outside: &O,
    file: FileNo,
    e: &Option<Code>,
) -> Result<Option<Shared<Ranges>>, ValueFault>
    ensures { Gives (d.within_of (O.around outside.now) file e.now) result }
{
    match e {
        None => Ok(None),
        Some(e) => Ok(Some(placed_set(alloc, outside, file, e)?)),
    }
}

fn roomy(taken: usize, place: Place, more: u64) -> Result<(), ValueFault>
    ensures { Gives (v.roomy taken place more) result }
{
    if (taken as u64).saturating_add(more) <= VARIABLE_LIMIT as u64 {
        Ok(())
    } else {
        Err(ValueFault::Big(Count::Variables, place))
    }
}

fn value_given<O: Surroundings>(
    alloc: Global,
    outside: &O,
    sides: &[Option<IndexRange>],
    within: &Option<Shared<Ranges>>,
    given: Option<Given<'_>>,
) -> Result<Option<(Place, Operand)>, ValueFault>
    ensures { Gives (d.value_given (O.around outside.now) sides.now within.now (option_map given_of given.entry)) result }
{
    match given {
        None => Ok(None),
        Some(given) => Ok(Some(value_of(alloc, outside, sides, within, given)?)),
    }
}

/// What a declaration comes to, among the values of the names of the model, where so many variables stand already.
#[tactic(auto, unfolding(crate::specs::Variables::declared))]
pub fn place_declaration<O: Surroundings>(
    alloc: Global,
    outside: &O,
    taken: usize,
    declaration: &Declaration,
    given: Option<Given<'_>>,
) -> Result<Declared, ValueFault>
    ensures { GivesOf declared_of (v.declared (O.around outside.now) taken declaration.now (option_map given_of given.entry)) result }
{
    let file = declaration.place.file;
    let sides = sides_of(alloc, outside, file, declaration.indices.as_slice())?;
    let within = within_of(alloc, outside, file, &declaration.within)?;
    roomy(
        taken,
        declaration.place,
        variables_in(declaration.kind, &sides),
    )?;
    let value = value_given(alloc, outside, &sides, &within, given)?;
    Ok(Declared {
        kind: declaration.kind,
        sides,
        within,
        value,
    })
}
