//! One operation on what its parts may mean, where each part is known.

ghost use Rattle.std.specs.Prelude.{◌≡◌, ◌||◌, Some, false, not};
ghost use Rattle.ms_num.specs.Span.{add_span, sub_span, mul_span, div_span, mod_span, neg_span, abs_span};
ghost use Rattle.ms_trees.specs.Value.{iff, imp, xor};
ghost use Rattle.ms_trees.specs.Enclosure.{operation, division, image_enclosure, either_number, either_truth, numeric_enclosure, boolean_enclosure, bits as bits_of, combined, comparison, meets, may_differ, may_be_less, may_be_at_least, may_be_at_most, may_be_greater, test_interval, may_be_in, is_inside};
ghost use Rattle.ms_ground.specs.Known.{known, within_limits};
ghost use Rattle.ms_evaluator.specs.Findings.{on_one, on_two, on_three};

use ms_ground::operations;
use ms_num::Ranges;
use ms_trees::Enclosure;

/// The sum.
pub(crate) fn sum(x: Option<Enclosure>, y: Option<Enclosure>) -> Option<Enclosure>
    ensures { result ≡ on_two (λ p q. within_limits (operation add_span p q)) x y }
{
    match (x, y) {
        (Some(x), Some(y)) => operations::sum(x, y),
        _ => None,
    }
}

/// The difference.
pub(crate) fn difference(x: Option<Enclosure>, y: Option<Enclosure>) -> Option<Enclosure>
    ensures { result ≡ on_two (λ p q. within_limits (operation sub_span p q)) x y }
{
    match (x, y) {
        (Some(x), Some(y)) => operations::difference(x, y),
        _ => None,
    }
}

/// The product.
pub(crate) fn product(x: Option<Enclosure>, y: Option<Enclosure>) -> Option<Enclosure>
    ensures { result ≡ on_two (λ p q. within_limits (operation mul_span p q)) x y }
{
    match (x, y) {
        (Some(x), Some(y)) => operations::product(x, y),
        _ => None,
    }
}

/// The quotient, cut toward zero.
pub(crate) fn quotient(x: Option<Enclosure>, y: Option<Enclosure>) -> Option<Enclosure>
    ensures { result ≡ on_two (λ p q. within_limits (division div_span p q)) x y }
{
    match (x, y) {
        (Some(x), Some(y)) => operations::quotient(x, y),
        _ => None,
    }
}

/// The remainder, with the sign of `x`.
pub(crate) fn remainder(x: Option<Enclosure>, y: Option<Enclosure>) -> Option<Enclosure>
    ensures { result ≡ on_two (λ p q. within_limits (division mod_span p q)) x y }
{
    match (x, y) {
        (Some(x), Some(y)) => operations::remainder(x, y),
        _ => None,
    }
}

/// The negation.
pub(crate) fn negation(x: Option<Enclosure>) -> Option<Enclosure>
    ensures { result ≡ on_one (λ p. within_limits (image_enclosure neg_span p)) x }
{
    match x {
        Some(x) => operations::negation(x),
        None => None,
    }
}

/// The absolute value.
pub(crate) fn magnitude(x: Option<Enclosure>) -> Option<Enclosure>
    ensures { result ≡ on_one (λ p. within_limits (image_enclosure abs_span p)) x }
{
    match x {
        Some(x) => operations::magnitude(x),
        None => None,
    }
}

/// 1 for true and 0 for false.
pub(crate) fn bit(x: Option<Enclosure>) -> Option<Enclosure>
    ensures { result ≡ on_one (λ p. known (p.may_be_true || p.may_be_false) (numeric_enclosure (Some (bits_of p.may_be_true p.may_be_false)) false)) x }
{
    match x {
        Some(x) if x.may_be_true || x.may_be_false => Some(operations::bit(x)),
        _ => None,
    }
}

/// The branches that the condition admits, of two integer trees.
pub(crate) fn either(
    condition: Option<Enclosure>,
    x: Option<Enclosure>,
    y: Option<Enclosure>,
) -> Option<Enclosure>
    ensures { result ≡ on_three (λ o p q. within_limits (either_number o p q)) condition x y }
{
    match (condition, x, y) {
        (Some(condition), Some(x), Some(y)) => operations::either(condition, x, y),
        _ => None,
    }
}

/// The branches that the condition admits, of two Boolean trees.
pub(crate) fn either_of_truths(
    condition: Option<Enclosure>,
    x: Option<Enclosure>,
    y: Option<Enclosure>,
) -> Option<Enclosure>
    ensures { result ≡ on_three (λ o p q. Some (either_truth o p q)) condition x y }
{
    match (condition, x, y) {
        (Some(condition), Some(x), Some(y)) => Some(operations::either_of_truths(condition, x, y)),
        _ => None,
    }
}

/// `not x`.
pub(crate) fn denial(x: Option<Enclosure>) -> Option<Enclosure>
    ensures { result ≡ on_one (λ p. Some (boolean_enclosure p.may_be_false p.may_be_true)) x }
{
    match x {
        Some(x) => Some(operations::denial(x)),
        None => None,
    }
}

/// `x <-> y`.
pub(crate) fn equivalence(x: Option<Enclosure>, y: Option<Enclosure>) -> Option<Enclosure>
    ensures { result ≡ on_two (λ p q. Some (combined iff p q)) x y }
{
    match (x, y) {
        (Some(x), Some(y)) => Some(operations::equivalence(x, y)),
        _ => None,
    }
}

/// `x -> y`.
pub(crate) fn implication(x: Option<Enclosure>, y: Option<Enclosure>) -> Option<Enclosure>
    ensures { result ≡ on_two (λ p q. Some (combined imp p q)) x y }
{
    match (x, y) {
        (Some(x), Some(y)) => Some(operations::implication(x, y)),
        _ => None,
    }
}

/// `x xor y`.
pub(crate) fn exclusive(x: Option<Enclosure>, y: Option<Enclosure>) -> Option<Enclosure>
    ensures { result ≡ on_two (λ p q. Some (combined xor p q)) x y }
{
    match (x, y) {
        (Some(x), Some(y)) => Some(operations::exclusive(x, y)),
        _ => None,
    }
}

/// `x = y`.
pub(crate) fn equal(x: Option<Enclosure>, y: Option<Enclosure>) -> Option<Enclosure>
    ensures { result ≡ on_two (λ p q. Some (comparison meets may_differ p q)) x y }
{
    match (x, y) {
        (Some(x), Some(y)) => Some(operations::equal(x, y)),
        _ => None,
    }
}

/// `x != y`.
pub(crate) fn unequal(x: Option<Enclosure>, y: Option<Enclosure>) -> Option<Enclosure>
    ensures { result ≡ on_two (λ p q. Some (comparison may_differ meets p q)) x y }
{
    match (x, y) {
        (Some(x), Some(y)) => Some(operations::unequal(x, y)),
        _ => None,
    }
}

/// `x < y`.
pub(crate) fn less(x: Option<Enclosure>, y: Option<Enclosure>) -> Option<Enclosure>
    ensures { result ≡ on_two (λ p q. Some (comparison may_be_less may_be_at_least p q)) x y }
{
    match (x, y) {
        (Some(x), Some(y)) => Some(operations::less(x, y)),
        _ => None,
    }
}

/// `x <= y`.
pub(crate) fn at_most(x: Option<Enclosure>, y: Option<Enclosure>) -> Option<Enclosure>
    ensures { result ≡ on_two (λ p q. Some (comparison may_be_at_most may_be_greater p q)) x y }
{
    match (x, y) {
        (Some(x), Some(y)) => Some(operations::at_most(x, y)),
        _ => None,
    }
}

/// The number lies in the set.
pub(crate) fn membership(x: Option<Enclosure>, ranges: &Ranges) -> Option<Enclosure>
    ensures { result ≡ on_one (λ p. Some (boolean_enclosure (test_interval (may_be_in ranges.now) p.interval) (p.may_be_undefined || test_interval (λ s. not (is_inside ranges.now s)) p.interval))) x }
{
    match x {
        Some(x) => Some(operations::membership(x, ranges)),
        None => None,
    }
}
