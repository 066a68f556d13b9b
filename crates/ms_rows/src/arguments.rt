//! What a call asks for first, and gives.

ghost use Rattle.std.specs.Prelude.{◌≡◌, ◌∷◌, [], map, None, if◌then◌else◌};
ghost use Rattle.ms_typing.specs.Least as least;
ghost use Rattle.ms_rows.specs.Forms.{asked_of, kind_of};

use crate::conversion::{is_array, shape_of, truths};
use crate::operands::{Kind, a_number, are_known, at, convert_all, fit_kinds, operand};
use ms_typing::{ExprType, Scalar, Shape};

/// A call that has a type: what it asks of its first argument, and the type.
#[derive(Clone, Copy)]
pub(crate) struct Asked {
    pub(crate) first: ExprType,
    pub(crate) result: ExprType,
}

/// A type and what is asked first, where the arguments convert to what is asked of them.
pub(crate) fn asks(types: &[ExprType], asked: &[ExprType], given: ExprType) -> Option<Asked>
    ensures { result ≡ asked_of (least.needs types.now asked.now given) }
{
    if convert_all(types, asked) {
        Some(Asked {
            first: operand(0, asked),
            result: given,
        })
    } else {
        None
    }
}

fn first_at(known: bool, kinds: &[Kind]) -> ExprType
    ensures { result ≡ least.operand 0 (map (least.at known) (map kind_of kinds.now)) }
{
    match kinds.split_first() {
        Some((first, _)) => at(known, *first),
        None => truths(true),
    }
}

pub(crate) fn asks_uniform(kinds: &[Kind], given: Kind, types: &[ExprType]) -> Option<Asked>
    ensures { result ≡ asked_of (least.uniform (map kind_of kinds.now) (kind_of given) types.now) }
{
    let known = are_known(kinds, types);
    if fit_kinds(types, kinds, known) {
        Some(Asked {
            first: first_at(known, kinds),
            result: at(known, given),
        })
    } else {
        None
    }
}

/// An array of such elements.
pub(crate) fn over_array(element: Scalar, given: Scalar, types: &[ExprType]) -> Option<Asked>
    ensures { result ≡ asked_of (least.over_array element given types.now) }
{
    let shape = shape_of(operand(0, types));
    if is_array(shape) {
        asks_uniform(
            &[Kind::Follows(element, shape)],
            Kind::Follows(given, Shape::Single),
            types,
        )
    } else {
        None
    }
}

/// An array of integers, or two integers.
pub(crate) fn extreme(types: &[ExprType]) -> Option<Asked>
    ensures { result ≡ asked_of (least.extreme types.now) }
{
    if is_array(shape_of(operand(0, types))) {
        over_array(Scalar::Number, Scalar::Number, types)
    } else {
        asks_uniform(&[a_number(), a_number()], a_number(), types)
    }
}

/// One argument that passes a test.
pub(crate) fn tested(passes: bool, given: ExprType, types: &[ExprType]) -> Option<Asked>
    ensures { result ≡ asked_of (if passes
        then least.needs types.now (least.operand 0 types.now ∷ []) given else None) }
{
    if passes {
        asks(types, &[operand(0, types)], given)
    } else {
        None
    }
}
