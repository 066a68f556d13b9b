//! Known elements of arrays, which are leaves.

ghost use Rattle.std.specs.Prelude.{◌≡◌, IfOk, map};
ghost use Rattle.ms_exchange.specs.Read as r;

use ms_rules::bit_number;
use ms_trees::Ground;
use ms_values::{Elements, Narrow};
use std::alloc::{AllocError, Global};

fn number_read(tree: &Ground) -> Option<Narrow>
    ensures { result ≡ r.number_read tree.now }
{
    match tree {
        Ground::Num(n) => Narrow::new(*n),
        Ground::True => bit_number(true),
        Ground::False => bit_number(false),
        _ => None,
    }
}

fn truth_read(tree: &Ground) -> bool
    ensures { result ≡ r.truth_read tree.now }
{
    match tree {
        Ground::True => true,
        _ => false,
    }
}

/// The elements as known integers.
pub fn numbers_read(alloc: Global, trees: &[Ground]) -> Result<Elements<Option<Narrow>>, AllocError>
    ensures { IfOk result (λ numbers. numbers ≡ map r.number_read trees.now) }
{
    let mut numbers = Elements::new(alloc);
    for tree in trees {
        numbers.push(number_read(tree))?;
    }
    Ok(numbers)
}

/// The elements as known Booleans.
pub fn truths_read(alloc: Global, trees: &[Ground]) -> Result<Elements<bool>, AllocError>
    ensures { IfOk result (λ truths. truths ≡ map r.truth_read trees.now) }
{
    let mut truths = Elements::new(alloc);
    for tree in trees {
        truths.push(truth_read(tree))?;
    }
    Ok(truths)
}
