//! The incumbent as a box of one assignment.

ghost use Rattle.std.specs.Prelude.{◌≡◌, ◌&&◌, IfOk, None, option_map, slice_get, if◌then◌else◌};
ghost use Rattle.ms_ground.specs.Known.{known};
ghost use Rattle.ms_trees.specs.Enclosure.{enclosure as enclosure_of, points};
ghost use Rattle.ms_trees.specs.Value.{value};
ghost use Rattle.ms_trees.specs.WellFormed.{is_well_formed};
ghost use Rattle.ms_functions.specs.There.{number_there, truth_there};

use ms_evaluator::Evaluator;
use ms_num::{Intervals, Iv};
use ms_trees::{Enclosure, Ground, hull_laws};
use ms_values::Narrow;
use std::alloc::{AllocError, Global};

/// The number of each variable, each as an interval of one number.
#[derive(Clone, Copy)]
struct Point<'a> {
    numbers: &'a [Narrow],
}

impl Intervals for Point<'_> {
    ghost use Rattle.ms_trees.specs.Enclosure.{points};

    ghost spans = { λ p. points p.numbers.now };

    fn interval(self, variable: u32) -> Option<Iv> {
        interval_at(self.numbers, variable as usize)
    }
}

fn single(number: Narrow) -> Iv
    ensures { result ≡ record { lo = number; hi = number } }
{
    Iv::single(number.get())
}

fn interval_at(numbers: &[Narrow], at: usize) -> Option<Iv>
    ensures { result ≡ slice_get (points numbers.now) at }
{
    match numbers.get(at) {
        Some(number) => Some(single(*number)),
        None => None,
    }
}

// What the tree may mean on the assignment, where it may be asked there.
fn enclosed(
    alloc: Global,
    numbers: &[Narrow],
    tree: &Ground,
) -> Result<Option<Enclosure>, AllocError>
    ensures { IfOk result (λ e. e ≡ known (is_well_formed (points numbers.now) tree.now) (enclosure_of (points numbers.now) tree.now)) }
{
    Evaluator::new(alloc).enclose(tree, Point { numbers })
}

fn least(interval: Option<Iv>) -> Option<Narrow>
    ensures { result ≡ option_map (λ s. s.lo) interval }
{
    match interval {
        Some(interval) => Some(Narrow::least(interval)),
        None => None,
    }
}

// The one number that a tree may mean.
fn number_there(enclosure: Option<Enclosure>) -> Option<Narrow>
    ensures { result ≡ number_there enclosure }
{
    match enclosure {
        Some(enclosure) => least(enclosure.interval),
        None => None,
    }
}

fn truth_there(enclosure: Option<Enclosure>) -> bool
    ensures { result ≡ truth_there enclosure }
{
    match enclosure {
        Some(enclosure) => enclosure.may_be_true,
        None => false,
    }
}

/// The number that a tree has on the assignment, where it may be asked there.
pub fn number_on(
    alloc: Global,
    point: &[Narrow],
    tree: &Ground,
) -> Result<Option<Narrow>, AllocError>
    ensures { IfOk result (λ n. n ≡ (if is_well_formed (points point.now) tree.now then (value point.now tree.now).number else None)) }
{
    hull_laws();
    match enclosed(alloc, point, tree) {
        Ok(enclosure) => Ok(number_there(enclosure)),
        Err(refused) => Err(refused),
    }
}

/// Whether a tree is true on the assignment; not where it may not be asked there.
pub fn truth_on(alloc: Global, point: &[Narrow], tree: &Ground) -> Result<bool, AllocError>
    ensures { IfOk result (λ b. b ≡ (is_well_formed (points point.now) tree.now && (value point.now tree.now).truth)) }
{
    hull_laws();
    match enclosed(alloc, point, tree) {
        Ok(enclosure) => Ok(truth_there(enclosure)),
        Err(refused) => Err(refused),
    }
}
