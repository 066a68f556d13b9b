//! Operators that group to the right.

ghost use Rattle.std.specs.Prelude.{◌≡◌, ◌∷◌, [], ◌++◌, IfOk};
ghost use Rattle.ms_rows.specs.Forms.{Tells};
ghost use Rattle.ms_syntax.specs.Tree.{links_view};
ghost use Rattle.ms_elaborator.specs.Walk.{joined_right};

use crate::ends::link_type;
use ms_rows::{TypeFault, operand};
use ms_syntax::Link;
use ms_typing::ExprType;
use std::alloc::{AllocError, Global};

/// All operands in one list.
fn operands(
    alloc: Global,
    first: ExprType,
    others: &[ExprType],
) -> Result<Vec<ExprType>, AllocError>
    ensures { IfOk result (λ v. v.items ≡ first ∷ others.now) }
{
    let mut types = Vec::from_slice(alloc, &[first])?;
    types.extend_from_slice(others)?;
    Ok(types)
}

/// The type of operands with these operators between them, the last operators first.
#[tactic(auto, using(crate::proofs::Chains::links_counted))]
fn join_all(alloc: Global, links: &[Link], types: &[ExprType]) -> Result<ExprType, TypeFault>
    ensures { Tells (joined_right types.now (links_view links.now)) result }
{
    let mut behind = operand(links.len(), types);
    let mut rest = links;
    while let Some((link, others)) = rest.split_last() {
        let before = operand(others.len(), types);
        match link_type(alloc, link, before, behind) {
            Ok(t) => behind = t,
            Err(fault) => return Err(fault),
        }
        rest = others;
    }
    Ok(behind)
}

/// The type of a first operand with operators and operands behind it.
pub(crate) fn join_right(
    alloc: Global,
    links: &[Link],
    first: ExprType,
    others: Vec<ExprType>,
) -> Result<ExprType, TypeFault>
    ensures { Tells (joined_right (first ∷ others.items) (links_view links.now)) result }
{
    let types = operands(alloc, first, others.as_slice())?;
    join_all(alloc, links, types.as_slice())
}
