//! Literals and comprehensions.

ghost use Rattle.std.specs.Prelude.{◌≡◌};
ghost use Rattle.ms_typing.specs.Least as least;
ghost use Rattle.ms_typing.specs.Term as f;
ghost use Rattle.ms_rows.specs.Forms.{result_of};

use crate::conversion::{is_element, numbers, shaped};
use crate::joins::join_all;
use crate::operands::{fit_one, fit_with_first, operand};
use ms_typing::{ExprType, Scalar, Shape};

fn elements_at(shape: Shape, types: &[ExprType], element: ExprType) -> Option<ExprType>
    ensures { result ≡ result_of (least.elements_at shape types.now element) }
{
    if !is_element(element) {
        return None;
    }
    if fit_one(types, element) {
        Some(shaped(shape, element))
    } else {
        None
    }
}

/// An array of these elements, which have one type.
pub(crate) fn elements(shape: Shape, types: &[ExprType]) -> Option<ExprType>
    ensures { result ≡ result_of (least.elements shape types.now) }
{
    match join_all(ExprType::Plain(Scalar::Empty, Shape::Single, true), types) {
        Some(element) => elements_at(shape, types, element),
        None => None,
    }
}

/// A set of these numbers.
pub(crate) fn set(types: &[ExprType]) -> Option<ExprType>
    ensures { result ≡ result_of (least.row f.set types.now) }
{
    if fit_one(types, numbers(true)) {
        Some(ExprType::Set)
    } else {
        None
    }
}

/// An element, and then the sets of the generators and the condition.
pub(crate) fn comprehend(asked: &[ExprType], types: &[ExprType]) -> Option<ExprType>
    ensures { result ≡ result_of (least.row (f.comprehension asked.now) types.now) }
{
    let element = operand(0, types);
    if !is_element(element) {
        return None;
    }
    if fit_with_first(types, element, asked) {
        Some(shaped(Shape::Line, element))
    } else {
        None
    }
}
