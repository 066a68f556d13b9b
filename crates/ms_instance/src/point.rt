//! Values of names on a point.

ghost use Rattle.std.specs.Prelude.{◌≡◌, ◌∷◌, [], ◌++◌, map, slice_get, IfOk, IsTrue, OnOk};
ghost use Rattle.std.specs.List.{list_all};
ghost use Rattle.ms_num.specs.Span.{is_within};
ghost use Rattle.ms_trees.specs.declared.tree.Ground.{out-Ground};
ghost use Rattle.ms_values.specs.declared.operand.Operand.TheVariants as o;
ghost use Rattle.ms_instance.specs.Points as k;

use ms_trees::Ground;
use ms_values::{Array, Cells, Elements, Narrow, Operand, Placed, Shared};
use sqlite_items::at;
use std::alloc::{AllocError, Global};

fn push_number(list: &mut Vec<Narrow>, number: &i64) -> Result<(), AllocError>
    requires { IsTrue (is_within number.now) }
    ensures { OnOk result (list.new.items ≡ list.old.items ++ number.now ∷ []) }
{
    match Narrow::new(*number) {
        Some(narrow) => list.push(narrow)?,
        None => return Err(AllocError),
    }
    Ok(())
}

/// Numbers within the limits.
pub fn narrow_numbers(alloc: Global, numbers: &[i64]) -> Result<Vec<Narrow>, AllocError>
    requires { IsTrue (list_all is_within numbers.now) }
    ensures { IfOk result (λ list. list.items ≡ numbers.now) }
{
    let mut list = Vec::new(alloc);
    for number in numbers {
        push_number(&mut list, number)?;
    }
    Ok(list)
}

fn number_of(point: &[Narrow], variable: usize) -> Option<Narrow>
    ensures { result ≡ slice_get point.now variable }
{
    match at(point, variable) {
        Some(number) => Some(*number),
        None => None,
    }
}

fn number_of_tree(point: &[Narrow], tree: &Ground) -> Option<Narrow>
    ensures { result ≡ k.number_layer point.now (out-Ground tree.now) }
{
    match tree {
        Ground::Var(v) => number_of(point, *v as usize),
        Ground::BVar(v) => number_of(point, *v as usize),
        _ => None,
    }
}

fn number_at(point: &[Narrow], x: &Placed) -> Option<Narrow>
    ensures { result ≡ k.number_at point.now x.now }
{
    number_of_tree(point, x.tree.get())
}

fn truth_at(point: &[Narrow], x: &Placed) -> bool
    ensures { result ≡ k.truth_at point.now x.now }
{
    match number_at(point, x) {
        Some(number) => number.get() == 1,
        None => false,
    }
}

fn numbers_at(
    alloc: Global,
    point: &[Narrow],
    xs: &[Placed],
) -> Result<Elements<Option<Narrow>>, AllocError>
    ensures { IfOk result (λ ns. ns ≡ map (k.number_at point.now) xs.now) }
{
    let mut numbers = Elements::new(alloc);
    for x in xs {
        numbers.push(number_at(point, x))?;
    }
    Ok(numbers)
}

fn truths_at(alloc: Global, point: &[Narrow], xs: &[Placed]) -> Result<Elements<bool>, AllocError>
    ensures { IfOk result (λ bs. bs ≡ map (k.truth_at point.now) xs.now) }
{
    let mut truths = Elements::new(alloc);
    for x in xs {
        truths.push(truth_at(point, x))?;
    }
    Ok(truths)
}

fn array_at(alloc: Global, point: &[Narrow], array: &Shared<Array>) -> Result<Operand, AllocError>
    ensures { IfOk result (λ x. x ≡ k.known_at point.now (o.Array array.now)) }
{
    let indices = array.get().indices;
    let cells = match &array.get().cells {
        Cells::Integers(xs) => Cells::Numbers(numbers_at(alloc, point, xs.as_slice())?),
        Cells::Conditions(xs) => Cells::Truths(truths_at(alloc, point, xs.as_slice())?),
        Cells::Numbers(_) | Cells::Truths(_) | Cells::Texts(_) => {
            return Ok(Operand::Array(array.share()?));
        }
    };
    Ok(Operand::Array(Shared::new(alloc, Array { indices, cells })?))
}

/// What stands for a name, on a point.
pub fn known_at(alloc: Global, point: &[Narrow], x: &Operand) -> Result<Operand, AllocError>
    ensures { IfOk result (λ y. y ≡ k.known_at point.now x.now) }
{
    match x {
        Operand::Integer(x) => Ok(Operand::Number(number_at(point, x))),
        Operand::Condition(x) => Ok(Operand::Truth(truth_at(point, x))),
        Operand::Array(array) => array_at(alloc, point, array),
        _ => x.share(alloc),
    }
}

fn push_operand(list: &mut Vec<Operand>, x: Operand) -> Result<(), AllocError>
    ensures { OnOk result (list.new.items ≡ list.old.items ++ x ∷ []) }
{
    list.push(x)?;
    Ok(())
}

/// What stands for each name, on a point.
pub fn known_operands(
    alloc: Global,
    point: &[Narrow],
    values: &[Operand],
) -> Result<Vec<Operand>, AllocError>
    ensures { IfOk result (λ xs. xs.items ≡ map (k.known_at point.now) values.now) }
{
    let mut known = Vec::new(alloc);
    for value in values {
        push_operand(&mut known, known_at(alloc, point, value)?)?;
    }
    Ok(known)
}
