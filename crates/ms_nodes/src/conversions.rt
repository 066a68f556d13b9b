//! Parts that are brought to the types that are asked for.

ghost use Rattle.std.specs.Prelude.{◌≡◌, drop, IfOk};
ghost use Rattle.ms_code.specs.Code.{brought};
ghost use Rattle.ms_nodes.specs.Nodes as spec;

use crate::parts::Elaborated;
use ms_code::Code;
use ms_rows::converts;
use ms_typing::ExprType;
use sqlite_items::{Boxed, Items};
use std::alloc::{AllocError, Global};

/// A part as a value of the type that is asked for: with a conversion, unless that type is already below its own.
pub fn bring(alloc: Global, asked: ExprType, part: Elaborated) -> Result<Boxed<Code>, AllocError>
    ensures { IfOk result (λ e. e ≡ brought asked part.kind part.code) }
{
    if converts(asked, part.kind) {
        Ok(part.code)
    } else {
        Boxed::new(alloc, Code::Convert(asked, part.code))
    }
}

/// Parts, each as a value of one type.
pub fn bring_all(
    alloc: Global,
    asked: ExprType,
    parts: Vec<Elaborated>,
) -> Result<Items<Code>, AllocError>
    ensures { IfOk result (λ codes. codes ≡ spec.bring_all asked parts.items) }
{
    let mut codes = Items::new(alloc);
    for part in parts {
        codes.push(bring(alloc, asked, part)?.into_inner())?;
    }
    Ok(codes)
}

/// A part as a value of the first of these types, if there is one.
fn bring_next(
    alloc: Global,
    asked: &[ExprType],
    part: Elaborated,
) -> Result<Boxed<Code>, AllocError>
    ensures { IfOk result (λ e. e ≡ spec.bring_next asked.now part) }
{
    match asked.split_first() {
        Some((t, _)) => bring(alloc, *t, part),
        None => Ok(part.code),
    }
}

/// The types behind the first.
fn behind(asked: &[ExprType]) -> &[ExprType]
    ensures { result.now ≡ spec.behind asked.now }
{
    match asked.split_first() {
        Some((_, others)) => others,
        None => asked,
    }
}

/// Parts, each as a value of its own type; those behind the last of the types stay as they are.
pub fn bring_each(
    alloc: Global,
    asked: &[ExprType],
    parts: Vec<Elaborated>,
) -> Result<Items<Code>, AllocError>
    ensures { IfOk result (λ codes. codes ≡ spec.bring_each asked.now parts.items) }
{
    let mut codes = Items::new(alloc);
    let mut rest = asked;
    for part in parts {
        codes.push(bring_next(alloc, rest, part)?.into_inner())?;
        rest = behind(rest);
    }
    Ok(codes)
}
