//! `++`

ghost use Rattle.std.specs.Prelude.{◌≡◌, IfOk, ◌++◌};
ghost use Rattle.ms_rules.specs.Cells.{joined as joined_of, line_from_one as line_of};
ghost use Rattle.ms_rules.specs.Operands as r;
ghost use Rattle.ms_rules.specs.Operators as o;
ghost use Rattle.ms_values.specs.declared.operand.Operand.TheVariants as v;

use crate::trees::both;
use ms_base::Bytes;
use ms_rules::{
    cells_of, conditions_of, integers_of, kind_of, line_from_one, numbers_of, text_of, texts_of,
    truths_of,
};
use ms_values::{Array, Cells, Elements, Operand, Shared};
use std::alloc::{AllocError, Global};

fn joined_bytes(alloc: Global, x: &[u8], y: &[u8]) -> Result<Bytes, AllocError>
    ensures { IfOk result (λ z. z ≡ x.now ++ y.now) }
{
    let mut bytes = Vec::from_slice(alloc, x)?;
    bytes.extend_from_slice(y)?;
    Ok(Bytes::from_vec(bytes))
}

fn joined_texts(
    alloc: Global,
    x: &Shared<Bytes>,
    y: &Shared<Bytes>,
) -> Result<Shared<Bytes>, AllocError>
    ensures { IfOk result (λ z. z ≡ x.now ++ y.now) }
{
    let bytes = joined_bytes(alloc, x.get().as_slice(), y.get().as_slice())?;
    Shared::new(alloc, bytes)
}

fn text_of_two(
    alloc: Global,
    x: &Option<Shared<Bytes>>,
    y: &Option<Shared<Bytes>>,
) -> Result<Operand, AllocError>
    ensures { IfOk result (λ z. z ≡ o.text_behind x.now y.now) }
{
    match (x, y) {
        (Some(x), Some(y)) => Ok(Operand::Text(Some(joined_texts(alloc, x, y)?))),
        _ => Ok(Operand::Text(None)),
    }
}

fn text_behind(
    alloc: Global,
    x: Option<Shared<Bytes>>,
    y: Option<Shared<Bytes>>,
) -> Result<Operand, AllocError>
    ensures { IfOk result (λ z. z ≡ o.text_behind x y) }
{
    text_of_two(alloc, &x, &y)
}

fn appended<T: Drop>(xs: Elements<T>, more: Elements<T>) -> Result<Elements<T>, AllocError>
    ensures { IfOk result (λ all. all ≡ xs ++ more) }
{
    let mut all = xs;
    all.append(more)?;
    Ok(all)
}

/// The elements of the second array behind those of the first, brought to their kind.
fn joined(alloc: Global, xs: Cells, ys: Cells) -> Result<Cells, AllocError>
    ensures { IfOk result (λ cs. cs ≡ joined_of xs ys) }
{
    match xs {
        Cells::Numbers(xs) => Ok(Cells::Numbers(appended(xs, numbers_of(alloc, ys)?)?)),
        Cells::Truths(xs) => Ok(Cells::Truths(appended(xs, truths_of(alloc, ys)?)?)),
        Cells::Texts(xs) => Ok(Cells::Texts(appended(xs, texts_of(alloc, ys)?)?)),
        Cells::Integers(xs) => Ok(Cells::Integers(appended(xs, integers_of(alloc, ys)?)?)),
        Cells::Conditions(xs) => Ok(Cells::Conditions(appended(xs, conditions_of(alloc, ys)?)?)),
    }
}

fn joined_arrays(alloc: Global, x: Shared<Array>, y: Shared<Array>) -> Result<Operand, AllocError>
    ensures { IfOk result (λ z. z ≡ line_of (joined_of x.cells y.cells)) }
{
    let (xs, ys) = both(cells_of(alloc, x), cells_of(alloc, y))?;
    line_from_one(alloc, joined(alloc, xs, ys)?)
}

fn no_array(x: Shared<Array>) -> Operand
    ensures { result ≡ v.NoArray (r.kind_of x.cells) }
{
    Operand::NoArray(kind_of(&x.get().cells))
}

fn array_behind(alloc: Global, x: Shared<Array>, y: Operand) -> Result<Operand, AllocError>
    ensures { IfOk result (λ z. z ≡ o.array_behind x.cells y) }
{
    match y {
        Operand::Array(y) => joined_arrays(alloc, x, y),
        Operand::Number(_) => Ok(no_array(x)),
        Operand::Truth(_) => Ok(no_array(x)),
        Operand::Set(_) => Ok(no_array(x)),
        Operand::Text(_) => Ok(no_array(x)),
        Operand::Integer(_) => Ok(no_array(x)),
        Operand::Condition(_) => Ok(no_array(x)),
        Operand::NoArray(_) => Ok(no_array(x)),
    }
}

/// `x ++ y`, of strings or of arrays.
pub fn concatenate(alloc: Global, x: Operand, y: Operand) -> Result<Operand, AllocError>
    ensures { IfOk result (λ z. z ≡ o.concatenate x y) }
{
    match x {
        Operand::Text(text) => text_behind(alloc, text, text_of(y)),
        Operand::Array(array) => array_behind(alloc, array, y),
        Operand::NoArray(kind) => Ok(Operand::NoArray(kind)),
        Operand::Number(_) => text_behind(alloc, None, text_of(y)),
        Operand::Truth(_) => text_behind(alloc, None, text_of(y)),
        Operand::Set(_) => text_behind(alloc, None, text_of(y)),
        Operand::Integer(_) => text_behind(alloc, None, text_of(y)),
        Operand::Condition(_) => text_behind(alloc, None, text_of(y)),
    }
}
