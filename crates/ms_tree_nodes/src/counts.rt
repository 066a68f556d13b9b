//! Sizes and nestings, which stand still at the end of their type.

ghost use Rattle.std.specs.Prelude.{◌≡◌, ◌+◌, max};
ghost use Rattle.ms_tree_nodes.specs.Nodes.{cap, above as above_of};

/// One more.
pub fn above(x: u64) -> u64
    ensures { result ≡ above_of x }
{
    x.saturating_add(1)
}

/// One more than both together.
pub fn above_both(x: u64, y: u64) -> u64
    ensures { result ≡ above_of (x + y) }
{
    x.saturating_add(y).saturating_add(1)
}

/// One more than the three together.
pub fn above_three(x: u64, y: u64, z: u64) -> u64
    ensures { result ≡ above_of (x + y + z) }
{
    x.saturating_add(y).saturating_add(z).saturating_add(1)
}

/// One more than the greater.
pub fn over_both(x: u64, y: u64) -> u64
    ensures { result ≡ above_of (max x y) }
{
    x.max(y).saturating_add(1)
}

/// One more than the greatest of the three.
pub fn over_three(x: u64, y: u64, z: u64) -> u64
    ensures { result ≡ above_of (max (max x y) z) }
{
    x.max(y).max(z).saturating_add(1)
}
