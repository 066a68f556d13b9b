//! The order of declarations.

ghost use Rattle.std.specs.Prelude.{map, IfOk};
ghost use Rattle.ms_syntax.specs.Tree.{item_view};
ghost use Rattle.ms_order.specs.Order.{IsOrder};

use crate::drawing::{draw, flags};
use crate::finder::rows;
use crate::names::declared;
use ms_postorder::postorder;
use ms_syntax::Item;
use std::alloc::{AllocError, Global};

/// The numbers of the names that a model's items declare, in the order in which the declarations
/// are processed.
pub fn order_of(alloc: Global, items: &[Item]) -> Result<Vec<usize>, AllocError>
    ensures { IfOk result (λ order. IsOrder (map item_view items.now) order.items) }
{
    let names = declared(alloc, items)?;
    let flags = flags(alloc, items, &names)?;
    let graph = draw(alloc, items, &names, &flags)?;
    let needs = rows(alloc, &graph, &flags)?;
    postorder(alloc, &needs)
}
