//! Numbers of which no two are the same.

ghost use Rattle.std.specs.Prelude.{◌≡◌, ◌||◌, not, ℤ, true, IfOk, OnOk, map};
ghost use Rattle.std.specs.Ordering.{int_eq as same};
ghost use Rattle.std.specs.HashSet.{contains};
ghost use Rattle.ms_num.specs.Numbers.{int_eq};
ghost use Rattle.ms_trees.specs.Value.{numeric_meaning, test, are_distinct as distinct};

use ms_values::Narrow;
use std::alloc::{AllocError, Global};
use std::collections::HashSet;

/// Each is a number, and no two are the same.
pub fn are_distinct(alloc: Global, numbers: &[Option<Narrow>]) -> Result<bool, AllocError>
    ensures { IfOk result (λ b. b ≡ distinct (map numeric_meaning numbers.now)) }
{
    let mut seen = HashSet::new(alloc);
    let mut place = numbers.len();
    while place > 0 {
        place -= 1;
        if !is_new(&mut seen, numbers[place])? {
            return Ok(false);
        }
    }
    Ok(true)
}

// It is a number that is not in the set yet. Then it is added.
fn is_new(seen: &mut HashSet<i64>, number: Option<Narrow>) -> Result<bool, AllocError>
    ensures new { IfOk result (λ b. b ≡ test (λ z. not (contains same seen.old z)) number) }
    ensures added { IfOk result (λ b. b ≡ true → (z : ℤ) → contains same seen.new z ≡ (test (int_eq z) number || contains same seen.old z)) }
{
    match number {
        Some(number) => Ok(seen.insert(number.get())?),
        None => Ok(false),
    }
}
