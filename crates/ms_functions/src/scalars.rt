//! Numbers and sets.

ghost use Rattle.std.specs.Prelude.{◌≡◌, IfOk, Ok, Some, pos, [], ◌∷◌, option_map};
ghost use Rattle.ms_num.specs.Numbers.{abs_at};
ghost use Rattle.ms_num.specs.Ranges.{size_of};
ghost use Rattle.ms_trees.specs.Extreme.{extreme_at};
ghost use Rattle.ms_trees.specs.Value.{bit as bit_of, both as both_of, image};
ghost use Rattle.ms_tree_nodes.specs.Nodes as n;
ghost use Rattle.ms_rules.specs.Arrays as a;
ghost use Rattle.ms_rules.specs.Calls as c;
ghost use Rattle.ms_rules.specs.Operands as r;
ghost use Rattle.ms_rules.specs.Operators as o;
ghost use Rattle.ms_rules.specs.Sets as s;

use ms_num::{LIMIT, Ranges};
use ms_rules::{
    bit_number, condition_of, either_variable, integer, integer_of, is_variable, known_number,
    number, set_of, truth,
};
use ms_tree_nodes::{lists, numbers, truths};
use ms_trees::Extreme;
use ms_values::{Elements, Narrow, Operand, Placed, Shared};
use std::alloc::{AllocError, Global};

// ---- the absolute value

fn variable_magnitude(alloc: Global, x: Operand) -> Result<Option<Operand>, AllocError>
    ensures { IfOk result (λ z. z ≡ o.integer (n.magnitude (r.integer_of x))) }
{
    let tree = integer_of(alloc, x)?;
    Ok(integer(numbers::magnitude(alloc, tree)?))
}

fn known_magnitude(x: Option<Narrow>) -> Option<Operand>
    ensures { result ≡ r.known_number (image abs_at x) }
{
    match x {
        Some(x) => known_number(Some(x.get().abs())),
        None => known_number(None),
    }
}

/// The absolute value.
pub fn magnitude(alloc: Global, x: Operand) -> Result<Option<Operand>, AllocError>
    ensures { IfOk result (λ z. z ≡ c.magnitude x) }
{
    if is_variable(&x) {
        variable_magnitude(alloc, x)
    } else {
        Ok(known_magnitude(number(x)))
    }
}

// ---- the number of a truth value

fn variable_bit(alloc: Global, x: Operand) -> Result<Operand, AllocError>
    ensures { IfOk result (λ z. z ≡ Operand.Integer (n.bit (r.condition_of x))) }
{
    let tree = condition_of(alloc, x)?;
    Ok(Operand::Integer(truths::bit(alloc, tree)?))
}

/// 1 where it is true, else 0.
pub fn bool_to_int(alloc: Global, x: Operand) -> Result<Operand, AllocError>
    ensures { IfOk result (λ z. z ≡ c.bool_to_int x) }
{
    if is_variable(&x) {
        variable_bit(alloc, x)
    } else {
        Ok(Operand::Number(bit_number(truth(x))))
    }
}

// ---- the least or the greatest of two

// Both parts, where both could be made.
fn both<A: Drop, B: Drop>(
    first: Result<A, AllocError>,
    second: Result<B, AllocError>,
) -> Result<(A, B), AllocError>
    ensures { IfOk result (λ pair. (first ≡ Ok pair.0) × (second ≡ Ok pair.1)) }
{
    match (first, second) {
        (Ok(first), Ok(second)) => Ok((first, second)),
        (Err(refused), _) => Err(refused),
        (_, Err(refused)) => Err(refused),
    }
}

fn pair(alloc: Global, x: Placed, y: Placed) -> Result<Elements<Placed>, AllocError>
    ensures { IfOk result (λ trees. trees ≡ x ∷ y ∷ []) }
{
    Ok(Elements::from_vec(vec![in alloc; x, y]?))
}

fn variable_extreme(
    alloc: Global,
    which: Extreme,
    x: Operand,
    y: Operand,
) -> Result<Option<Operand>, AllocError>
    ensures { IfOk result (λ z. z ≡ o.integer (n.extreme which (r.integer_of x ∷ r.integer_of y ∷ []))) }
{
    let (x, y) = both(integer_of(alloc, x), integer_of(alloc, y))?;
    let trees = pair(alloc, x, y)?;
    Ok(integer(lists::extreme(alloc, which, trees)?))
}

fn extreme_number(which: Extreme, x: i64, y: i64) -> Option<i64>
    ensures { result ≡ extreme_at which x y }
{
    match which {
        Extreme::Least => Some(x.min(y)),
        Extreme::Greatest => Some(x.max(y)),
    }
}

fn known_extreme(which: Extreme, x: Option<Narrow>, y: Option<Narrow>) -> Option<Operand>
    ensures { result ≡ r.known_number (both_of (extreme_at which) x y) }
{
    match x {
        Some(x) => match y {
            Some(y) => known_number(extreme_number(which, x.get(), y.get())),
            None => known_number(None),
        },
        None => known_number(None),
    }
}

/// The least or the greatest of two numbers.
pub fn extreme_of_two(
    alloc: Global,
    which: Extreme,
    x: Operand,
    y: Operand,
) -> Result<Option<Operand>, AllocError>
    ensures { IfOk result (λ z. z ≡ a.extreme_of_two which x y) }
{
    if either_variable(&x, &y) {
        variable_extreme(alloc, which, x, y)
    } else {
        Ok(known_extreme(which, number(x), number(y)))
    }
}

// ---- how many numbers a set has

fn count(size: u64) -> Option<Operand>
    ensures { result ≡ r.known_number (Some (pos size)) }
{
    if size <= LIMIT as u64 {
        known_number(Some(size as i64))
    } else {
        None
    }
}

fn size_of(set: Option<Shared<Ranges>>) -> Option<Operand>
    ensures { result ≡ r.known_number (option_map (λ rs. pos (size_of rs)) set) }
{
    match set {
        Some(set) => count(set.get().size()),
        None => known_number(None),
    }
}

/// How many numbers the set has.
pub fn card(x: Operand) -> Option<Operand>
    ensures { result ≡ s.card x }
{
    size_of(set_of(x))
}
