//! Equations of variables with the values that are given to them.

ghost use Rattle.std.specs.Prelude.{◌≡◌, ◌∷◌, []};
ghost use Rattle.ms_tree_nodes.specs.Nodes as n;
ghost use Rattle.ms_made.specs.Constraining as c;
ghost use Rattle.ms_made.specs.Making.{AnswersOf};
ghost use Rattle.ms_making.specs.Views.{constraints_of};

use crate::constraints::{Constraints, constrain};
use ms_made::InstanceFault;
use ms_syntax::Place;
use ms_tree_nodes::truths::{equal, equivalence};
use ms_values::{Cells, Operand, Placed};
use std::alloc::Global;

fn constrain_equal(
    alloc: Global,
    constraints: &mut Constraints,
    place: Place,
    x: &Placed,
    y: &Placed,
) -> Result<(), InstanceFault>
    ensures { AnswersOf (λ u. constraints_of constraints.new) (c.constrain place (n.equal x.now y.now) (constraints_of constraints.old)) result }
{
    let equation = equal(alloc, x.copy(alloc)?, y.copy(alloc)?)?;
    constrain(constraints, place, equation)
}

fn constrain_equivalent(
    alloc: Global,
    constraints: &mut Constraints,
    place: Place,
    x: &Placed,
    y: &Placed,
) -> Result<(), InstanceFault>
    ensures { AnswersOf (λ u. constraints_of constraints.new) (c.constrain place (n.equivalence x.now y.now) (constraints_of constraints.old)) result }
{
    let equation = equivalence(alloc, x.copy(alloc)?, y.copy(alloc)?)?;
    constrain(constraints, place, equation)
}

fn each_equal(
    alloc: Global,
    constraints: &mut Constraints,
    place: Place,
    xs: &[Placed],
    ys: &[Placed],
) -> Result<(), InstanceFault>
    ensures { AnswersOf (λ u. constraints_of constraints.new) (c.constrain_all place (c.each_equal xs.now ys.now) (constraints_of constraints.old)) result }
{
    for (i, x) in xs.iter().enumerate() {
        match ys.get(i) {
            Some(y) => constrain_equal(alloc, constraints, place, x, y)?,
            None => return Ok(()),
        }
    }
    Ok(())
}

fn each_equivalent(
    alloc: Global,
    constraints: &mut Constraints,
    place: Place,
    xs: &[Placed],
    ys: &[Placed],
) -> Result<(), InstanceFault>
    ensures { AnswersOf (λ u. constraints_of constraints.new) (c.constrain_all place (c.each_equivalent xs.now ys.now) (constraints_of constraints.old)) result }
{
    for (i, x) in xs.iter().enumerate() {
        match ys.get(i) {
            Some(y) => constrain_equivalent(alloc, constraints, place, x, y)?,
            None => return Ok(()),
        }
    }
    Ok(())
}

fn cell_equations(
    alloc: Global,
    constraints: &mut Constraints,
    place: Place,
    variables: &Cells,
    values: &Cells,
) -> Result<(), InstanceFault>
    ensures { AnswersOf (λ u. constraints_of constraints.new) (c.constrain_all place (c.cell_equations variables.now values.now) (constraints_of constraints.old)) result }
{
    match (variables, values) {
        (Cells::Integers(xs), Cells::Integers(ys)) => {
            each_equal(alloc, constraints, place, xs.as_slice(), ys.as_slice())
        }
        (Cells::Conditions(xs), Cells::Conditions(ys)) => {
            each_equivalent(alloc, constraints, place, xs.as_slice(), ys.as_slice())
        }
        _ => Ok(()),
    }
}

/// The equations of what a declaration stands for with a value of its type: one, or one for each element.
pub fn equate(
    alloc: Global,
    constraints: &mut Constraints,
    place: Place,
    variables: &Operand,
    value: &Operand,
) -> Result<(), InstanceFault>
    ensures { AnswersOf (λ u. constraints_of constraints.new) (c.constrain_all place (c.equations variables.now value.now) (constraints_of constraints.old)) result }
{
    match (variables, value) {
        (Operand::Integer(x), Operand::Integer(y)) => {
            constrain_equal(alloc, constraints, place, x, y)
        }
        (Operand::Condition(x), Operand::Condition(y)) => {
            constrain_equivalent(alloc, constraints, place, x, y)
        }
        (Operand::Array(xs), Operand::Array(ys)) => {
            cell_equations(alloc, constraints, place, &xs.get().cells, &ys.get().cells)
        }
        _ => Ok(()),
    }
}
