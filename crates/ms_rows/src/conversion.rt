//! Conversions, and the parts of a type.

ghost use Rattle.std.specs.Prelude.{◌≡◌};
ghost use Rattle.ms_typing.specs.Conversion as spec;
ghost use Rattle.ms_typing.specs.Meaning as meaning;
ghost use Rattle.ms_typing.specs.Row as table;

use ms_typing::{ExprType, Scalar, Shape};

/// A Boolean, known or variable.
pub fn truths(known: bool) -> ExprType
    ensures { result ≡ spec.truths known }
{
    ExprType::Plain(Scalar::Truth, Shape::Single, known)
}

/// An integer, known or variable.
pub fn numbers(known: bool) -> ExprType
    ensures { result ≡ spec.numbers known }
{
    ExprType::Plain(Scalar::Number, Shape::Single, known)
}

fn scalar_fits(from: Scalar, to: Scalar) -> bool
    ensures { result ≡ spec.scalar_fits from to }
{
    match (from, to) {
        (Scalar::Empty, _) => true,
        (Scalar::Truth, Scalar::Truth) => true,
        (Scalar::Truth, Scalar::Number) => true,
        (Scalar::Number, Scalar::Number) => true,
        _ => false,
    }
}

pub(crate) fn shape_fits(from: Shape, to: Shape) -> bool
    ensures { result ≡ spec.shape_fits from to }
{
    match (from, to) {
        (Shape::Single, Shape::Single) => true,
        (Shape::Line, Shape::Line) => true,
        (Shape::Grid, Shape::Grid) => true,
        _ => false,
    }
}

fn known_fits(from: bool, to: bool) -> bool
    ensures { result ≡ spec.known_fits from to }
{
    from || !to
}

/// Whether a value of the one type may stand where the other is asked for.
pub fn converts(from: ExprType, to: ExprType) -> bool
    ensures { result ≡ spec.converts from to }
{
    match (from, to) {
        (ExprType::Plain(b, s, k), ExprType::Plain(c, r, l)) => scalar_fits(b, c)
            && shape_fits(s, r)
            && known_fits(k, l),
        (ExprType::Plain(b, s, k), ExprType::Text(r)) => scalar_fits(b, Scalar::Empty)
            && shape_fits(s, r)
            && known_fits(k, true),
        (ExprType::Plain(b, s, k), ExprType::Search) => scalar_fits(b, Scalar::Truth)
            && shape_fits(s, Shape::Single)
            && known_fits(k, true),
        (ExprType::Text(s), ExprType::Text(r)) => shape_fits(s, r),
        (ExprType::Set, ExprType::Set) => true,
        (ExprType::Search, ExprType::Search) => true,
        _ => false,
    }
}

/// The shape of the type's values.
pub fn shape_of(t: ExprType) -> Shape
    ensures { result ≡ spec.shape_of t }
{
    match t {
        ExprType::Plain(_, s, _) => s,
        ExprType::Text(s) => s,
        ExprType::Set => Shape::Single,
        ExprType::Search => Shape::Single,
    }
}

/// Whether the values of the type are known.
pub fn known_of(t: ExprType) -> bool
    ensures { result ≡ spec.known_of t }
{
    match t {
        ExprType::Plain(_, _, k) => k,
        _ => true,
    }
}

/// The type with all its values known.
pub fn as_known(t: ExprType) -> ExprType
    ensures { result ≡ spec.as_known t }
{
    match t {
        ExprType::Plain(b, s, _) => ExprType::Plain(b, s, true),
        other => other,
    }
}

pub fn is_search(t: ExprType) -> bool
    ensures { result ≡ meaning.is_search t }
{
    match t {
        ExprType::Search => true,
        _ => false,
    }
}

/// Bools, ints or strings of another shape.
pub fn shaped(shape: Shape, t: ExprType) -> ExprType
    ensures { result ≡ spec.shaped shape t }
{
    match t {
        ExprType::Plain(b, _, k) => ExprType::Plain(b, shape, k),
        ExprType::Text(_) => ExprType::Text(shape),
        other => other,
    }
}

/// Whether it may be the type of an element of an array.
pub(crate) fn is_element(t: ExprType) -> bool
    ensures { result ≡ spec.is_element t }
{
    match t {
        ExprType::Plain(_, s, _) => shape_fits(s, Shape::Single),
        ExprType::Text(s) => shape_fits(s, Shape::Single),
        _ => false,
    }
}

/// Whether it is an array of one dimension.
pub(crate) fn is_line(t: ExprType) -> bool
    ensures { result ≡ spec.is_line t }
{
    match t {
        ExprType::Plain(_, s, _) => shape_fits(s, Shape::Line),
        ExprType::Text(s) => shape_fits(s, Shape::Line),
        _ => false,
    }
}

/// Whether it is an array of two dimensions.
pub(crate) fn is_grid(t: ExprType) -> bool
    ensures { result ≡ spec.is_grid t }
{
    match t {
        ExprType::Plain(_, s, _) => shape_fits(s, Shape::Grid),
        ExprType::Text(s) => shape_fits(s, Shape::Grid),
        _ => false,
    }
}

pub(crate) fn is_array(shape: Shape) -> bool
    ensures { result ≡ table.is_array shape }
{
    match shape {
        Shape::Single => false,
        Shape::Line => true,
        Shape::Grid => true,
    }
}

pub(crate) fn is_array_type(t: ExprType) -> bool
    ensures { result ≡ table.is_array_type t }
{
    match t {
        ExprType::Plain(_, s, _) => is_array(s),
        ExprType::Text(s) => is_array(s),
        _ => false,
    }
}

/// Whether `show` takes it: a known Boolean or integer, an array of them, or a set.
pub(crate) fn is_shown(t: ExprType) -> bool
    ensures { result ≡ table.is_shown t }
{
    match t {
        ExprType::Plain(_, _, k) => k,
        ExprType::Set => true,
        _ => false,
    }
}

/// Whether `fix` takes it: a known Boolean or integer, or an array.
pub(crate) fn is_fixed(t: ExprType) -> bool
    ensures { result ≡ table.is_fixed t }
{
    match t {
        ExprType::Plain(_, _, k) => k,
        ExprType::Text(s) => is_array(s),
        _ => false,
    }
}
