//! Values that are given.

ghost use Rattle.ms_declared.specs.Made.{Gives};
ghost use Rattle.ms_declared.specs.Values as d;
ghost use Rattle.ms_declared.specs.Views.{given_of};

use crate::fault::ValueFault;
use crate::fits::fitted;
use crate::known::{is_allowed, is_undefined};
use crate::place::placed_in;
use ms_code::Code;
use ms_num::Ranges;
use ms_syntax::{FileNo, Place};
use ms_values::{IndexRange, Operand, Shared};
use ms_walk::Surroundings;
use std::alloc::Global;

/// A value that is given: the file that gives it, and its typed tree, brought to the declared type; none where data have
/// another type, or name anything.
#[derive(Clone, Copy)]
pub struct Given<'a> {
    pub file: FileNo,
    pub code: Option<&'a Code>,
}

fn typed_value<O: Surroundings>(
    alloc: Global,
    outside: &O,
    given: Given<'_>,
) -> Result<(Place, Operand), ValueFault>
    ensures { Gives (d.typed_value (O.around outside.now) (given_of given.entry)) result }
{
    match given.code {
        None => Err(ValueFault::Shape(given.file)),
        Some(e) => placed_in(alloc, outside, e),
    }
}

fn settled(
    alloc: Global,
    file: FileNo,
    sides: &[Option<IndexRange>],
    within: &Option<Shared<Ranges>>,
    x: Operand,
) -> Result<Operand, ValueFault>
    ensures { Gives (d.settled file sides.now within.now x) result }
{
    if is_undefined(&x) {
        return Err(ValueFault::NoValue(file));
    }
    let y = fitted(alloc, file, sides, x)?;
    allowed(file, within, y)
}

fn allowed(file: FileNo, within: &Option<Shared<Ranges>>, x: Operand) -> Result<Operand, ValueFault>
    ensures { Gives (d.allowed file within.now x) result }
{
    if is_allowed(within, &x) {
        Ok(x)
    } else {
        Err(ValueFault::Shape(file))
    }
}

/// The value that is given, with the index sets of its declaration, and the place of its node.
pub fn value_of<O: Surroundings>(
    alloc: Global,
    outside: &O,
    sides: &[Option<IndexRange>],
    within: &Option<Shared<Ranges>>,
    given: Given<'_>,
) -> Result<(Place, Operand), ValueFault>
    ensures { Gives (d.value_of (O.around outside.now) sides.now within.now (given_of given.entry)) result }
{
    let (place, x) = typed_value(alloc, outside, given)?;
    let y = settled(alloc, given.file, sides, within, x)?;
    Ok((place, y))
}
