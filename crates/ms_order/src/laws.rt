//! Laws of the order of declarations.

ghost use Rattle.ms_order.specs.Laws.{EachComesOnce, OneOrder, ReadComeFirst};

use ms_postorder::{each_node_once, one_postorder, targets_first};

/// There is one order at most.
pub fn one_order()
    ensures { OneOrder }
{
    one_postorder();
}

/// The number of each declared name stands in it once, and nothing else.
pub fn each_comes_once()
    ensures { EachComesOnce }
{
    each_node_once();
}

/// In a model without cycles each declaration stands behind those that it reads.
pub fn read_come_first()
    ensures { ReadComeFirst }
{
    targets_first();
}
