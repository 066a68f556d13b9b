//! Plain enumeration: one point is kept and stepped through the assignments in order.

ghost use Rattle.std.specs.Prelude.{◌≡◌, ◌+◌, ◌≤◌, ◌∷◌, List, IsTrue, length, take, true, false};
ghost use Rattle.std.specs.List.{list_all};
ghost use Rattle.ms_trees.specs.Enclosure.{points};
ghost use Rattle.ms_trees.specs.WellFormed.{is_well_formed};
ghost use Rattle.ms_top.specs.Search.{FitBehind, LeastBehind, NoneBehind};
ghost use Rattle.ms_top.specs.Solution.{meets};

use crate::domain::Domain;
use ms_ground::{Ground, holds};

/// Whether every tree is true on the point.
fn all_hold(trees: &[Ground], point: &[i64]) -> bool
    requires { IsTrue (list_all (is_well_formed (points point.now)) trees.now) }
    ensures { result ≡ meets trees.now point.now }
{
    for tree in trees {
        if !holds(tree, point) {
            return false;
        }
    }
    true
}

/// Sets the numbers from the place `at` on, which have these domains, to those of the least assignment that
/// begins with the numbers before them and meets the trees. Says whether there is one.
#[cycle(least)]
pub fn set_least(domains: &[Domain], trees: &[Ground], point: &mut [i64], at: usize) -> bool
    requires whole { at + length domains.now ≡ length point.old }
    requires fit { FitBehind (take at point.old) domains.now trees.now }
    ensures kept { take at point.new ≡ take at point.old }
    ensures found { result ≡ true → LeastBehind (take at point.old) domains.now trees.now point.new }
    ensures none { result ≡ false → NoneBehind (take at point.old) domains.now trees.now }
{
    match domains {
        [] => all_hold(trees, point),
        [domain, others @ ..] => set_each(*domain, others, trees, point, at),
    }
}

/// The same where the number at the place `at` has the first domain: each number in turn is put there.
#[cycle(least)]
fn set_each(
    domain: Domain,
    others: &[Domain],
    trees: &[Ground],
    point: &mut [i64],
    at: usize,
) -> bool
    requires whole { at + 1 + length others.now ≡ length point.old }
    requires fit { FitBehind (take at point.old) (domain ∷ others.now) trees.now }
    ensures kept { take at point.new ≡ take at point.old }
    ensures found { result ≡ true → LeastBehind (take at point.old) (domain ∷ others.now) trees.now point.new }
    ensures none { result ≡ false → NoneBehind (take at point.old) (domain ∷ others.now) trees.now }
{
    for n in domain.lowest..=domain.highest {
        point[at] = n;
        if set_least(others, trees, point, at + 1) {
            return true;
        }
    }
    false
}
