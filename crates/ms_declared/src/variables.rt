//! Variables that a declaration stands for.

ghost use Rattle.std.specs.Prelude.{◌≡◌, ◌≤◌, ◌+◌, ◌++◌, Some, IfOk, OnOk};
ghost use Rattle.ms_base.specs.declared.limits.TheConstants.{VARIABLE_LIMIT};
ghost use Rattle.ms_declared.specs.Indexed as i;
ghost use Rattle.ms_declared.specs.Variables as v;

use ms_num::{Iv, Ranges};
use ms_rows::known_of;
use ms_tree_nodes::leaves::{bit_variable, variable};
use ms_typing::{ExprType, Scalar};
use ms_values::{Array, Cells, Elements, IndexRange, Indices, Narrow, Operand, Placed, Shared};
use std::alloc::{AllocError, Global};

fn side_count(side: Option<IndexRange>) -> u32
    ensures { result ≡ i.side_count side }
{
    match side {
        None => 0,
        Some(range) => range.count,
    }
}

fn elements_in(sides: &[Option<IndexRange>]) -> u64
    ensures { result ≡ i.elements_in sides.now }
{
    match sides {
        [] => 1,
        [side] => side_count(*side) as u64,
        [row, column] => side_count(*row) as u64 * side_count(*column) as u64,
        _ => 0,
    }
}

/// How many variables a declaration of this type has.
pub fn variables_in(kind: ExprType, sides: &[Option<IndexRange>]) -> u64
    ensures { result ≡ v.variables_in kind sides.now }
{
    if known_of(kind) {
        0
    } else {
        elements_in(sides)
    }
}

fn truth_set(alloc: Global) -> Result<Ranges, AllocError>
    ensures { IfOk result (λ set. set ≡ v.truth_set) }
{
    Ranges::from_iv(alloc, Iv::new(0, 1))
}

fn default_set(alloc: Global) -> Result<Ranges, AllocError>
    ensures { IfOk result (λ set. set ≡ v.default_set) }
{
    Ranges::from_iv(alloc, Iv::new(-10000000, 10000000))
}

fn or_default(alloc: Global, within: &Option<Shared<Ranges>>) -> Result<Shared<Ranges>, AllocError>
    ensures { IfOk result (λ set. set ≡ v.or_default within.now) }
{
    match within {
        None => Shared::new(alloc, default_set(alloc)?),
        Some(set) => set.share(),
    }
}

fn scalar_of(kind: ExprType) -> Scalar
    ensures { result ≡ v.scalar_of kind }
{
    match kind {
        ExprType::Plain(scalar, _, _) => scalar,
        ExprType::Text(_) | ExprType::Set | ExprType::Search => Scalar::Number,
    }
}

/// The set of each variable that a declaration of this type, within this set, stands for.
pub fn set_of_kind(
    alloc: Global,
    kind: ExprType,
    within: &Option<Shared<Ranges>>,
) -> Result<Shared<Ranges>, AllocError>
    ensures { IfOk result (λ set. set ≡ v.set_of_kind kind within.now) }
{
    match scalar_of(kind) {
        Scalar::Truth => Shared::new(alloc, truth_set(alloc)?),
        Scalar::Number | Scalar::Empty => or_default(alloc, within),
    }
}

fn integers_from(
    alloc: Global,
    set: Iv,
    first: u32,
    count: u32,
) -> Result<Elements<Placed>, AllocError>
    requires { first + count ≤ VARIABLE_LIMIT }
    ensures { IfOk result (λ xs. xs ≡ v.integers_from set first count) }
{
    let mut xs = Elements::new(alloc);
    for number in first..first + count {
        push_integer(alloc, &mut xs, set, number)?;
    }
    Ok(xs)
}

fn push_integer(
    alloc: Global,
    xs: &mut Elements<Placed>,
    set: Iv,
    number: u32,
) -> Result<(), AllocError>
    ensures { OnOk result (xs.new ≡ xs.old ++ v.integers_from set number 1) }
{
    xs.push(variable(alloc, number, set)?)
}

fn conditions_from(
    alloc: Global,
    set: Iv,
    first: u32,
    count: u32,
) -> Result<Elements<Placed>, AllocError>
    requires { first + count ≤ VARIABLE_LIMIT }
    ensures { IfOk result (λ xs. xs ≡ v.conditions_from set first count) }
{
    let mut xs = Elements::new(alloc);
    for number in first..first + count {
        push_condition(alloc, &mut xs, set, number)?;
    }
    Ok(xs)
}

fn push_condition(
    alloc: Global,
    xs: &mut Elements<Placed>,
    set: Iv,
    number: u32,
) -> Result<(), AllocError>
    ensures { OnOk result (xs.new ≡ xs.old ++ v.conditions_from set number 1) }
{
    xs.push(bit_variable(alloc, number, set)?)
}

fn cells_from(
    alloc: Global,
    scalar: Scalar,
    set: Iv,
    first: u32,
    count: u32,
) -> Result<Cells, AllocError>
    requires { first + count ≤ VARIABLE_LIMIT }
    ensures { IfOk result (λ cs. cs ≡ v.cells_from scalar set first count) }
{
    match scalar {
        Scalar::Truth => Ok(Cells::Conditions(conditions_from(alloc, set, first, count)?)),
        Scalar::Number | Scalar::Empty => {
            Ok(Cells::Integers(integers_from(alloc, set, first, count)?))
        }
    }
}

fn variable_of(alloc: Global, scalar: Scalar, set: Iv, number: u32) -> Result<Operand, AllocError>
    ensures { IfOk result (λ x. x ≡ v.variable_of scalar set number) }
{
    match scalar {
        Scalar::Truth => Ok(Operand::Condition(bit_variable(alloc, number, set)?)),
        Scalar::Number | Scalar::Empty => Ok(Operand::Integer(variable(alloc, number, set)?)),
    }
}

fn indices_from(sides: &[Option<IndexRange>]) -> Option<Indices>
    ensures { result ≡ Some (v.indices_from sides.now) }
{
    match sides {
        [Some(range)] => Some(Indices::Line(range.low)),
        [Some(rows), Some(columns)] => Some(Indices::Grid(*rows, *columns)),
        _ => Some(Indices::Line(Narrow::new(1)?)),
    }
}

fn array_from(
    alloc: Global,
    scalar: Scalar,
    set: Iv,
    sides: &[Option<IndexRange>],
    first: u32,
) -> Result<Operand, AllocError>
    requires { first + i.elements_in sides.now ≤ VARIABLE_LIMIT }
    ensures { IfOk result (λ x. x ≡ v.array_from scalar set sides.now first) }
{
    let cells = cells_from(alloc, scalar, set, first, elements_in(sides) as u32)?;
    match indices_from(sides) {
        Some(indices) => Ok(Operand::Array(Shared::new(alloc, Array { indices, cells })?)),
        None => Err(AllocError),
    }
}

/// What a declaration of this type, over these index sets and with this set of each, stands for: one variable, or an array of
/// them, row by row, from this number on.
pub fn variables_of(
    alloc: Global,
    kind: ExprType,
    sides: &[Option<IndexRange>],
    set: &Ranges,
    first: u32,
) -> Result<Operand, AllocError>
    requires { first + i.elements_in sides.now ≤ VARIABLE_LIMIT }
    ensures { IfOk result (λ x. x ≡ v.variables_of kind sides.now set.now first) }
{
    let interval = set.declared_interval();
    match sides {
        [] => variable_of(alloc, scalar_of(kind), interval, first),
        _ => array_from(alloc, scalar_of(kind), interval, sides, first),
    }
}
