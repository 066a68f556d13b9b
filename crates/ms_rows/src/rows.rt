//! The type of a node over the types of its parts.

ghost use Rattle.std.specs.Prelude.{◌≡◌};
ghost use Rattle.ms_typing.specs.Least as least;
ghost use Rattle.ms_typing.specs.Term as f;
ghost use Rattle.ms_rows.specs.Forms.{form_of, result_of};

use crate::arrays::{comprehend, elements, set};
use crate::calls::{call_told, generate_told, stand_told};
use crate::choice::choose;
use crate::conversion::{is_array, numbers, shape_of, truths};
use crate::form::Form;
use crate::operands::{fit_with_last, last_of, needs, operand};
use crate::operators::{access, operate, sign};
use ms_typing::{ExprType, Shape};

/// One part of any type.
fn same(types: &[ExprType]) -> Option<ExprType>
    ensures { result ≡ result_of (least.row f.parenthesis types.now) }
{
    let t = operand(0, types);
    needs(types, &[t], t)
}

/// Locals, and then the body.
fn let_in(declared: &[ExprType], types: &[ExprType]) -> Option<ExprType>
    ensures { result ≡ result_of (least.row (f.lets declared.now) types.now) }
{
    match last_of(types) {
        Some(t) => {
            if fit_with_last(types, declared, t) {
                Some(t)
            } else {
                None
            }
        }
        None => None,
    }
}

/// An array of strings.
fn output(types: &[ExprType]) -> Option<ExprType>
    ensures { result ≡ result_of (least.row f.outputs types.now) }
{
    let shape = shape_of(operand(0, types));
    if is_array(shape) {
        needs(types, &[ExprType::Text(shape)], ExprType::Text(shape))
    } else {
        None
    }
}

/// The least type of a node over the least types of its parts, where it has one.
pub fn row(form: &Form<'_>, types: &[ExprType]) -> Option<ExprType>
    ensures { result ≡ result_of (least.row (form_of form.now) types.now) }
{
    match form {
        Form::Number => needs(types, &[], numbers(true)),
        Form::Text => needs(types, &[], ExprType::Text(Shape::Single)),
        Form::Truth => needs(types, &[], truths(true)),
        Form::Stands(told) => stand_told(told, types),
        Form::Calls(told) => call_told(told, types),
        Form::Generates(told, asked, one) => generate_told(told, asked, *one, types),
        Form::Operation(operator) => operate(*operator, types),
        Form::Prefix(prefix) => sign(*prefix, types),
        Form::Parenthesis => same(types),
        Form::Access => access(types),
        Form::Array => elements(Shape::Line, types),
        Form::Grid(true) => elements(Shape::Grid, types),
        Form::Grid(false) => None,
        Form::Set => set(types),
        Form::Comprehension(asked) => comprehend(asked, types),
        Form::Choice => choose(types),
        Form::Lets(declared) => let_in(declared, types),
        Form::Declares(true, asked, t) => needs(types, asked, *t),
        Form::Declares(false, _, _) => None,
        Form::Assigns(t) => needs(types, &[*t], *t),
        Form::Gives => same(types),
        Form::Constrains => needs(types, &[truths(false)], truths(false)),
        Form::Satisfies => needs(types, &[], truths(true)),
        Form::Optimizes => needs(types, &[numbers(false)], numbers(false)),
        Form::Searches => needs(types, &[ExprType::Search], ExprType::Search),
        Form::Outputs => output(types),
        Form::Unsupported => None,
        Form::Misplaced => None,
    }
}
