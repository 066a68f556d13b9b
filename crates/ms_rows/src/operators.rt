//! Operators and access.

ghost use Rattle.std.specs.Prelude.{◌≡◌};
ghost use Rattle.ms_typing.specs.Least as least;
ghost use Rattle.ms_typing.specs.Term as f;
ghost use Rattle.ms_rows.specs.Forms.{result_of};

use crate::conversion::{is_line, numbers, truths};
use crate::joins::join;
use crate::operands::{Kind, a_number, a_truth, needs, operand, uniform};
use ms_syntax::{Operator, Sign};
use ms_typing::{ExprType, Scalar, Shape};

fn of_truths(types: &[ExprType]) -> Option<ExprType>
    ensures { result ≡ result_of (least.of_truths types.now) }
{
    uniform(&[a_truth(), a_truth()], a_truth(), types)
}

fn of_numbers(types: &[ExprType]) -> Option<ExprType>
    ensures { result ≡ result_of (least.of_numbers types.now) }
{
    uniform(&[a_number(), a_number()], a_number(), types)
}

fn compares(types: &[ExprType]) -> Option<ExprType>
    ensures { result ≡ result_of (least.compares types.now) }
{
    uniform(&[a_number(), a_number()], a_truth(), types)
}

/// What stands for the element of an array without elements where it is compared.
fn compared(scalar: Scalar) -> Scalar
    ensures { result ≡ least.compared scalar }
{
    match scalar {
        Scalar::Empty => Scalar::Number,
        other => other,
    }
}

fn equate_at(joined: ExprType, types: &[ExprType]) -> Option<ExprType>
    ensures { result ≡ result_of (least.equate_at joined types.now) }
{
    match joined {
        ExprType::Plain(c, _, k) => {
            let one = ExprType::Plain(compared(c), Shape::Single, k);
            needs(types, &[one, one], truths(k))
        }
        ExprType::Text(_) => {
            let one = ExprType::Text(Shape::Single);
            needs(types, &[one, one], truths(true))
        }
        ExprType::Set => needs(types, &[ExprType::Set, ExprType::Set], truths(true)),
        ExprType::Search => None,
    }
}

fn equate(types: &[ExprType]) -> Option<ExprType>
    ensures { result ≡ result_of (least.equate types.now) }
{
    match join(operand(0, types), operand(1, types)) {
        Some(joined) => equate_at(joined, types),
        None => None,
    }
}

fn concat_at(joined: ExprType, types: &[ExprType]) -> Option<ExprType>
    ensures { result ≡ result_of (least.concat_at joined types.now) }
{
    if is_line(joined) {
        needs(types, &[joined, joined], joined)
    } else {
        let text = ExprType::Text(Shape::Single);
        needs(types, &[text, text], text)
    }
}

fn concat(types: &[ExprType]) -> Option<ExprType>
    ensures { result ≡ result_of (least.concat types.now) }
{
    match join(operand(0, types), operand(1, types)) {
        Some(joined) => concat_at(joined, types),
        None => None,
    }
}

/// Of Booleans, else of searches.
fn connect(types: &[ExprType]) -> Option<ExprType>
    ensures { result ≡ result_of (least.connect types.now) }
{
    match of_truths(types) {
        Some(t) => Some(t),
        None => needs(
            types,
            &[ExprType::Search, ExprType::Search],
            ExprType::Search,
        ),
    }
}

/// Whether a number is in a set.
fn member(types: &[ExprType]) -> Option<ExprType>
    ensures { result ≡ result_of (least.operate Operator.In types.now) }
{
    uniform(&[a_number(), Kind::Fixed(ExprType::Set)], a_truth(), types)
}

pub(crate) fn operate(operator: Operator, types: &[ExprType]) -> Option<ExprType>
    ensures { result ≡ result_of (least.operate operator types.now) }
{
    match operator {
        Operator::Equivalent => of_truths(types),
        Operator::Implies => of_truths(types),
        Operator::ImpliedBy => of_truths(types),
        Operator::Or => connect(types),
        Operator::Xor => of_truths(types),
        Operator::And => connect(types),
        Operator::Equal => equate(types),
        Operator::NotEqual => equate(types),
        Operator::Less => compares(types),
        Operator::AtMost => compares(types),
        Operator::Greater => compares(types),
        Operator::AtLeast => compares(types),
        Operator::In => member(types),
        Operator::To => needs(types, &[numbers(true), numbers(true)], ExprType::Set),
        Operator::Plus => of_numbers(types),
        Operator::Minus => of_numbers(types),
        Operator::Times => of_numbers(types),
        Operator::Div => of_numbers(types),
        Operator::Mod => of_numbers(types),
        Operator::Concat => concat(types),
    }
}

pub(crate) fn sign(sign: Sign, types: &[ExprType]) -> Option<ExprType>
    ensures { result ≡ result_of (least.row (f.prefix sign) types.now) }
{
    match sign {
        Sign::Not => uniform(&[a_truth()], a_truth(), types),
        Sign::Minus => uniform(&[a_number()], a_number(), types),
    }
}

fn access_plain(scalar: Scalar, shape: Shape, types: &[ExprType]) -> Option<ExprType>
    ensures { result ≡ result_of (least.access_plain scalar shape types.now) }
{
    let element = Kind::Follows(scalar, Shape::Single);
    let array = Kind::Follows(scalar, shape);
    match shape {
        Shape::Single => None,
        Shape::Line => uniform(&[array, a_number()], element, types),
        Shape::Grid => uniform(&[array, a_number(), a_number()], element, types),
    }
}

fn access_text(shape: Shape, types: &[ExprType]) -> Option<ExprType>
    ensures { result ≡ result_of (least.access_text shape types.now) }
{
    let index = numbers(true);
    let text = ExprType::Text(Shape::Single);
    match shape {
        Shape::Single => None,
        Shape::Line => needs(types, &[ExprType::Text(Shape::Line), index], text),
        Shape::Grid => needs(types, &[ExprType::Text(Shape::Grid), index, index], text),
    }
}

/// An array and its indices.
pub(crate) fn access(types: &[ExprType]) -> Option<ExprType>
    ensures { result ≡ result_of (least.row f.access types.now) }
{
    match operand(0, types) {
        ExprType::Plain(c, s, _) => access_plain(c, s, types),
        ExprType::Text(s) => access_text(s, types),
        _ => None,
    }
}
