//! The least type that others convert to.

ghost use Rattle.std.specs.Prelude.{◌≡◌};
ghost use Rattle.ms_typing.specs.Least as least;

use crate::conversion::{converts, shape_fits};
use ms_typing::{ExprType, Scalar};

fn join_scalar(b: Scalar, c: Scalar) -> Scalar
    ensures { result ≡ least.join_scalar b c }
{
    match (b, c) {
        (Scalar::Empty, _) => c,
        (Scalar::Truth, Scalar::Number) => Scalar::Number,
        (Scalar::Truth, _) => Scalar::Truth,
        (Scalar::Number, _) => Scalar::Number,
    }
}

/// The second, where the first converts to it.
fn into(t: ExprType, u: ExprType) -> Option<ExprType>
    ensures { result ≡ least.into t u }
{
    if converts(t, u) { Some(u) } else { None }
}

pub(crate) fn join(t: ExprType, u: ExprType) -> Option<ExprType>
    ensures { result ≡ least.join t u }
{
    match (t, u) {
        (ExprType::Plain(b, s, k), ExprType::Plain(c, r, l)) => {
            if shape_fits(s, r) {
                Some(ExprType::Plain(join_scalar(b, c), s, k && l))
            } else {
                None
            }
        }
        (ExprType::Plain(_, _, _), ExprType::Text(_)) => into(t, u),
        (ExprType::Plain(_, _, _), ExprType::Search) => into(t, u),
        (ExprType::Text(_), ExprType::Plain(_, _, _)) => into(u, t),
        (ExprType::Text(_), ExprType::Text(_)) => into(u, t),
        (ExprType::Set, ExprType::Set) => Some(ExprType::Set),
        (ExprType::Search, ExprType::Plain(_, _, _)) => into(u, t),
        (ExprType::Search, ExprType::Search) => Some(ExprType::Search),
        _ => None,
    }
}

/// The join of a type with all of a list.
pub(crate) fn join_all(start: ExprType, types: &[ExprType]) -> Option<ExprType>
    ensures { result ≡ least.join_all start types.now }
{
    let mut all = start;
    for t in types {
        match join(all, *t) {
            Some(joined) => all = joined,
            None => return None,
        }
    }
    Some(all)
}
