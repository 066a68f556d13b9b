//! Index sets and declared sets.

ghost use Rattle.std.specs.Prelude.{◌≡◌, ◌∷◌, [], ◌++◌, Some, OnOk};
ghost use Rattle.ms_rules.specs.Arrays.{as_range};
ghost use Rattle.ms_declared.specs.Made.{Gives, GivesOf};
ghost use Rattle.ms_declared.specs.Indexed as i;

use crate::fault::ValueFault;
use crate::place::placed_in;
use ms_arrays::index_range;
use ms_code::Code;
use ms_num::{Iv, Ranges};
use ms_rules::set_of;
use ms_syntax::FileNo;
use ms_values::{IndexRange, Narrow, Operand, Shared};
use ms_walk::Surroundings;
use std::alloc::{AllocError, Global};

fn set_in(file: FileNo, x: Operand) -> Result<Shared<Ranges>, ValueFault>
    ensures { Gives (i.set_in file x) result }
{
    match set_of(x) {
        Some(set) => Ok(set),
        None => Err(ValueFault::NoValue(file)),
    }
}

/// The set that an expression comes to, in the text of this file.
pub fn placed_set<O: Surroundings>(
    alloc: Global,
    outside: &O,
    file: FileNo,
    e: &Code,
) -> Result<Shared<Ranges>, ValueFault>
    ensures { Gives (i.placed_set (O.around outside.now) file e.now) result }
{
    let (_, x) = placed_in(alloc, outside, e)?;
    set_in(file, x)
}

fn range_in(ranges: &[Iv]) -> Option<(Narrow, u64)>
    ensures { result ≡ as_range (Some ranges.now) }
{
    match ranges {
        [] => Some((Narrow::new(1)?, 0)),
        [range] => Some((Narrow::least(*range), range.size())),
        _ => None,
    }
}

fn ranged(file: FileNo, set: &Ranges) -> Result<IndexRange, ValueFault>
    ensures { Gives (i.ranged file set.now) result }
{
    match range_in(set.ranges()) {
        Some((low, count)) => Ok(index_range(low, count)),
        None => Err(ValueFault::Shape(file)),
    }
}

fn side_of<O: Surroundings>(
    alloc: Global,
    outside: &O,
    file: FileNo,
    e: &Option<Code>,
) -> Result<Option<IndexRange>, ValueFault>
    ensures { Gives (i.side_of (O.around outside.now) file e.now) result }
{
    match e {
        None => Ok(None),
        Some(e) => {
            let set = placed_set(alloc, outside, file, e)?;
            Ok(Some(ranged(file, set.get())?))
        }
    }
}

/// The index set of each dimension; none where any will do.
pub fn sides_of<O: Surroundings>(
    alloc: Global,
    outside: &O,
    file: FileNo,
    indices: &[Option<Code>],
) -> Result<Vec<Option<IndexRange>>, ValueFault>
    ensures { GivesOf (λ ss. ss.items) (i.sides_of (O.around outside.now) file indices.now) result }
{
    let mut sides = Vec::new(alloc);
    for e in indices {
        let side = side_of(alloc, outside, file, e)?;
        push_side(&mut sides, side)?;
    }
    Ok(sides)
}

fn push_side(
    sides: &mut Vec<Option<IndexRange>>,
    side: Option<IndexRange>,
) -> Result<(), AllocError>
    ensures { OnOk result (sides.new.items ≡ sides.old.items ++ side ∷ []) }
{
    sides.push(side)?;
    Ok(())
}
