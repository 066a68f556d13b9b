ghost use Rattle.std.specs.Prelude.{◌≡◌, ◌-◌, ◌^◌, min, map, sum};
ghost use Rattle.ms_trees.specs.Size.{size_of, nesting_of, deepest};

use crate::tree::Ground;

/// The number of nodes, and one more for each range of an `In` and each number of a `Table`; 2^64 - 1 where that
/// is greater.
#[cycle(size)]
pub fn size(g: &Ground) -> u64
    ensures { result ≡ min (size_of g.now) (2 ^ 64 - 1) }
{
    match g {
        Ground::Num(_) | Ground::Var(_) | Ground::BVar(_) => 1,
        Ground::Undef | Ground::True | Ground::False => 1,
        Ground::Add(a, b)
        | Ground::Sub(a, b)
        | Ground::Mul(a, b)
        | Ground::Div(a, b)
        | Ground::Mod(a, b)
        | Ground::Iff(a, b)
        | Ground::Imp(a, b)
        | Ground::Xor(a, b)
        | Ground::Eq(a, b)
        | Ground::Ne(a, b)
        | Ground::Lt(a, b)
        | Ground::Le(a, b) => size(a.get())
            .saturating_add(size(b.get()))
            .saturating_add(1),
        Ground::Neg(a) | Ground::Abs(a) | Ground::ToInt(a) | Ground::Not(a) => size(
            a.get(),
        ).saturating_add(1),
        Ground::Sum(parts)
        | Ground::Least(parts)
        | Ground::Greatest(parts)
        | Ground::And(parts)
        | Ground::Or(parts)
        | Ground::AllDiff(parts) => size_all(parts.as_slice()).saturating_add(1),
        Ground::Elem(_, parts, index) => size_all(parts.as_slice())
            .saturating_add(size(index.get()))
            .saturating_add(1),
        Ground::Elem2(_, _, _, parts, row, column) => size_all(parts.as_slice())
            .saturating_add(size(row.get()))
            .saturating_add(size(column.get()))
            .saturating_add(1),
        Ground::Count(parts, a) => size_all(parts.as_slice())
            .saturating_add(size(a.get()))
            .saturating_add(1),
        Ground::IteI(condition, a, b) | Ground::IteB(condition, a, b) => size(condition.get())
            .saturating_add(size(a.get()))
            .saturating_add(size(b.get()))
            .saturating_add(1),
        Ground::In(a, ranges) => size(a.get())
            .saturating_add(ranges.ranges().len() as u64)
            .saturating_add(1),
        Ground::Table(parts, rows) => size_all(parts.as_slice())
            .saturating_add(rows.numbers())
            .saturating_add(1),
    }
}

#[cycle(size)]
fn size_all(parts: &[Ground]) -> u64
    ensures { result ≡ min (sum (map size_of parts.now)) (2 ^ 64 - 1) }
{
    let mut total = 0u64;
    for part in parts {
        total = total.saturating_add(size(part));
    }
    total
}

/// How many nodes stand one in another, which is 1 for a leaf; 2^64 - 1 where that is greater.
#[cycle(nesting)]
pub fn nesting(g: &Ground) -> u64
    ensures { result ≡ min (nesting_of g.now) (2 ^ 64 - 1) }
{
    match g {
        Ground::Num(_) | Ground::Var(_) | Ground::BVar(_) => 1,
        Ground::Undef | Ground::True | Ground::False => 1,
        Ground::Add(a, b)
        | Ground::Sub(a, b)
        | Ground::Mul(a, b)
        | Ground::Div(a, b)
        | Ground::Mod(a, b)
        | Ground::Iff(a, b)
        | Ground::Imp(a, b)
        | Ground::Xor(a, b)
        | Ground::Eq(a, b)
        | Ground::Ne(a, b)
        | Ground::Lt(a, b)
        | Ground::Le(a, b) => nesting(a.get()).max(nesting(b.get())).saturating_add(1),
        Ground::Neg(a) | Ground::Abs(a) | Ground::ToInt(a) | Ground::Not(a) => nesting(
            a.get(),
        ).saturating_add(1),
        Ground::Sum(parts)
        | Ground::Least(parts)
        | Ground::Greatest(parts)
        | Ground::And(parts)
        | Ground::Or(parts)
        | Ground::AllDiff(parts)
        | Ground::Table(parts, _) => deepest_of(parts.as_slice()).saturating_add(1),
        Ground::Elem(_, parts, index) => deepest_of(parts.as_slice())
            .max(nesting(index.get()))
            .saturating_add(1),
        Ground::Elem2(_, _, _, parts, row, column) => deepest_of(parts.as_slice())
            .max(nesting(row.get()))
            .max(nesting(column.get()))
            .saturating_add(1),
        Ground::Count(parts, a) => deepest_of(parts.as_slice())
            .max(nesting(a.get()))
            .saturating_add(1),
        Ground::IteI(condition, a, b) | Ground::IteB(condition, a, b) => nesting(condition.get())
            .max(nesting(a.get()))
            .max(nesting(b.get()))
            .saturating_add(1),
        Ground::In(a, _) => nesting(a.get()).saturating_add(1),
    }
}

#[cycle(nesting)]
fn deepest_of(parts: &[Ground]) -> u64
    ensures { result ≡ min (deepest (map nesting_of parts.now)) (2 ^ 64 - 1) }
{
    let mut most = 0u64;
    for part in parts {
        most = most.max(nesting(part));
    }
    most
}
