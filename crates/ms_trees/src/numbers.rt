ghost use Rattle.std.specs.Prelude.{◌≡◌, ◌<◌, ℕ, length, slice_index_or, Option, ◌+ℤ◌, ◌-ℤ◌, ◌*ℤ◌, neg_ℤ, pos, unsigned_abs, if◌then◌else◌};
ghost use Rattle.ms_num.specs.Span.{IsWithin};
ghost use Rattle.ms_num.specs.Numbers.{div_at, mod_at, int_eq};
ghost use Rattle.ms_trees.specs.Value.{iff, int_ne, compare, pair as pair_of, test};

/// The sum, which stays within the limits.
pub fn sum(x: i64, y: i64) -> i64
    requires { IsWithin (x +ℤ y) }
    ensures { result ≡ x +ℤ y }
{
    x + y
}

/// The difference, which stays within the limits.
pub fn difference(x: i64, y: i64) -> i64
    requires { IsWithin (x -ℤ y) }
    ensures { result ≡ x -ℤ y }
{
    x - y
}

/// The product, which stays within the limits.
pub fn product(x: i64, y: i64) -> i64
    requires { IsWithin (x *ℤ y) }
    ensures { result ≡ x *ℤ y }
{
    x * y
}

/// Cut toward zero.
pub fn quotient(x: i64, y: i64) -> Option<i64>
    requires { IsWithin x }
    ensures { result ≡ div_at x y }
{
    if y == 0 { None } else { Some(x / y) }
}

/// With the sign of `x`.
pub fn remainder(x: i64, y: i64) -> Option<i64>
    requires { IsWithin x }
    ensures { result ≡ mod_at x y }
{
    if y == 0 { None } else { Some(x % y) }
}

/// The negation.
pub fn negated(x: i64) -> i64
    requires { IsWithin x }
    ensures { result ≡ neg_ℤ x }
{
    -x
}

/// The absolute value.
pub fn magnitude(x: i64) -> i64
    requires { IsWithin x }
    ensures { result ≡ pos (unsigned_abs x) }
{
    x.abs()
}

/// Both numbers, where both are defined.
pub fn pair(x: Option<i64>, y: Option<i64>) -> Option<(i64, i64)>
    ensures { result ≡ pair_of x y }
{
    match (x, y) {
        (Some(x), Some(y)) => Some((x, y)),
        _ => None,
    }
}

/// Both are numbers, and not the same.
pub fn differ(x: Option<i64>, y: Option<i64>) -> bool
    ensures { result ≡ compare int_ne x y }
{
    match (x, y) {
        (Some(x), Some(y)) => x != y,
        _ => false,
    }
}

/// The number is that of the row at the place.
pub fn is_entry(x: Option<i64>, row: &[i64], place: usize) -> bool
    requires { place < length row.now }
    ensures { result ≡ test (λ x. int_eq x (slice_index_or row.now place (pos 0))) x }
{
    match x {
        Some(x) => x == row[place],
        None => false,
    }
}

/// Both are true, or both are false.
pub fn are_equal(x: bool, y: bool) -> bool
    ensures { result ≡ iff x y }
{
    x == y
}

/// 1 where the numbers are the same, else 0.
pub fn one_if_same(x: i64, n: i64) -> usize
    ensures { result ≡ (if int_eq x n then 1 else 0) }
{
    if x == n { 1 } else { 0 }
}
