//! Operands as arrays, and their elements.

ghost use Rattle.std.specs.Prelude.{◌≡◌, IfOk};
ghost use Rattle.ms_rules.specs.Cells as c;
ghost use Rattle.ms_rules.specs.Arrays as a;
ghost use Rattle.ms_arrays.specs.Arguments as g;

use ms_rules::{cells_of, converted, integers_of, is_variable_kind, kind_of};
use ms_values::{Array, Cells, Elements, Kind, Narrow, Operand, Placed, Shared};
use std::alloc::{AllocError, Global};

/// The array, or the kind of one that is undefined, for which each other operand counts.
pub fn array_of(x: Operand) -> Result<Shared<Array>, Kind>
    ensures { result ≡ g.array_of x }
{
    match x {
        Operand::Array(array) => Ok(array),
        Operand::NoArray(kind) => Err(kind),
        Operand::Number(_) => Err(Kind::Number),
        Operand::Truth(_) => Err(Kind::Number),
        Operand::Set(_) => Err(Kind::Number),
        Operand::Text(_) => Err(Kind::Number),
        Operand::Integer(_) => Err(Kind::Number),
        Operand::Condition(_) => Err(Kind::Number),
    }
}

/// The elements are trees.
pub fn has_trees(array: &Array) -> bool
    ensures { result ≡ a.has_trees array.now.cells }
{
    is_variable_kind(kind_of(&array.cells))
}

/// The elements as integer trees.
pub fn trees_of(alloc: Global, array: Shared<Array>) -> Result<Elements<Placed>, AllocError>
    ensures { IfOk result (λ trees. trees ≡ c.integers_of array.cells) }
{
    integers_of(alloc, cells_of(alloc, array)?)
}

/// The array itself, of numbers in place of known Booleans.
pub fn with_numbers(alloc: Global, array: Shared<Array>) -> Result<Shared<Array>, AllocError>
    ensures { IfOk result (λ numeric. g.numbers_in numeric.cells ≡ c.numbers_of array.cells) }
{
    match &array.get().cells {
        Cells::Truths(_) => {
            let indices = array.get().indices;
            let cells = converted(alloc, Kind::Number, array)?;
            Shared::new(alloc, Array { indices, cells })
        }
        _ => Ok(array),
    }
}

/// The elements that stand there as numbers.
pub fn numbers_in(cells: &Cells) -> &[Option<Narrow>]
    ensures { result.now ≡ g.numbers_in cells.now }
{
    match cells {
        Cells::Numbers(numbers) => numbers.as_slice(),
        _ => &[],
    }
}
