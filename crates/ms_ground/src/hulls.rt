ghost use Rattle.std.specs.Prelude.{◌≡◌, IsTrue};
ghost use Rattle.ms_trees.specs.Enclosure.{enclosure, hull_of};
ghost use Rattle.ms_trees.specs.WellFormed.{is_well_formed as is_well_formed_on};
ghost use Rattle.ms_ground.specs.Known.{known};

use crate::walk::{number, truth};
use ms_num::{Intervals, Iv};
use ms_trees::{Enclosure, Ground, Hull};

/// What the tree may mean on the box of these intervals, where it is well formed there.
pub fn enclose<B: Intervals>(g: &Ground, sets: B) -> Option<Enclosure>
    ensures { result ≡ known (is_well_formed_on (B.spans sets) g.now) (enclosure (B.spans sets) g.now) }
{
    match number(g, sets) {
        Some(x) => Some(x),
        None => truth(g, sets),
    }
}

/// Whether the tree is well formed on the box of these intervals: its parts are of the right sorts, its variables
/// are those of the box, those of a `BVar` have no numbers but 0 and 1, and no interval of a node, nor of a sum on
/// the way, leaves -2^50..2^50.
///
/// A tree that is well formed on a box is so on each smaller one.
pub fn is_well_formed(g: &Ground, sets: &[Iv]) -> bool
    ensures { result ≡ is_well_formed_on sets.now g.now }
{
    enclose(g, sets).is_some()
}

/// What the tree may mean on the box of these intervals.
pub fn hull(g: &Ground, sets: &[Iv]) -> Hull
    requires { IsTrue (is_well_formed_on sets.now g.now) }
    ensures { result ≡ hull_of (enclosure sets.now g.now) }
{
    match enclose(g, sets) {
        Some(x) => as_hull(x),
        None => unreachable!(),
    }
}

/// The public form: the ends are 0 where there is no interval.
pub fn as_hull(x: Enclosure) -> Hull
    ensures { result ≡ hull_of x }
{
    Hull {
        lo: x.interval.map_or(0, Iv::lo),
        hi: x.interval.map_or(0, Iv::hi),
        may_be_defined: x.interval.is_some(),
        may_be_undefined: x.may_be_undefined,
        may_be_true: x.may_be_true,
        may_be_false: x.may_be_false,
    }
}
