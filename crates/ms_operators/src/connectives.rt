//! Connectives: known where both are known, and else a node.

ghost use Rattle.std.specs.Prelude.{◌≡◌, IfOk, not, [], ◌∷◌};
ghost use Rattle.ms_trees.specs.Value.{iff, imp, xor};
ghost use Rattle.ms_tree_nodes.specs.Nodes as n;
ghost use Rattle.ms_rules.specs.Operands as r;
ghost use Rattle.ms_rules.specs.Operators as o;
ghost use Rattle.ms_values.specs.declared.operand.Operand.TheVariants as v;

use crate::trees::both_conditions;
use ms_rules::{condition_of, either_variable, is_variable, truth_of};
use ms_tree_nodes::{lists, truths};
use ms_values::{Elements, Operand, Placed};
use std::alloc::{AllocError, Global};

fn equivalence_of_trees(alloc: Global, x: Operand, y: Operand) -> Result<Operand, AllocError>
    ensures { IfOk result (λ z. z ≡ v.Condition (n.equivalence (r.condition_of x) (r.condition_of y))) }
{
    let (x, y) = both_conditions(alloc, x, y)?;
    Ok(Operand::Condition(truths::equivalence(alloc, x, y)?))
}

pub fn equivalence(alloc: Global, x: Operand, y: Operand) -> Result<Operand, AllocError>
    ensures { IfOk result (λ z. z ≡ o.connected iff n.equivalence x y) }
{
    if either_variable(&x, &y) {
        equivalence_of_trees(alloc, x, y)
    } else {
        Ok(Operand::Truth(truth_of(&x) == truth_of(&y)))
    }
}

fn implication_of_trees(alloc: Global, x: Operand, y: Operand) -> Result<Operand, AllocError>
    ensures { IfOk result (λ z. z ≡ v.Condition (n.implication (r.condition_of x) (r.condition_of y))) }
{
    let (x, y) = both_conditions(alloc, x, y)?;
    Ok(Operand::Condition(truths::implication(alloc, x, y)?))
}

pub fn implication(alloc: Global, x: Operand, y: Operand) -> Result<Operand, AllocError>
    ensures { IfOk result (λ z. z ≡ o.connected imp n.implication x y) }
{
    if either_variable(&x, &y) {
        implication_of_trees(alloc, x, y)
    } else {
        Ok(Operand::Truth(!truth_of(&x) || truth_of(&y)))
    }
}

fn exclusive_of_trees(alloc: Global, x: Operand, y: Operand) -> Result<Operand, AllocError>
    ensures { IfOk result (λ z. z ≡ v.Condition (n.exclusive (r.condition_of x) (r.condition_of y))) }
{
    let (x, y) = both_conditions(alloc, x, y)?;
    Ok(Operand::Condition(truths::exclusive(alloc, x, y)?))
}

pub fn exclusive(alloc: Global, x: Operand, y: Operand) -> Result<Operand, AllocError>
    ensures { IfOk result (λ z. z ≡ o.connected xor n.exclusive x y) }
{
    if either_variable(&x, &y) {
        exclusive_of_trees(alloc, x, y)
    } else {
        Ok(Operand::Truth(truth_of(&x) != truth_of(&y)))
    }
}

fn disjunction_of_trees(alloc: Global, x: Operand, y: Operand) -> Result<Operand, AllocError>
    ensures { IfOk result (λ z. z ≡ v.Condition (o.either_node (r.condition_of x) (r.condition_of y))) }
{
    let (x, y) = both_conditions(alloc, x, y)?;
    Ok(Operand::Condition(either(alloc, x, y)?))
}

pub fn disjunction(alloc: Global, x: Operand, y: Operand) -> Result<Operand, AllocError>
    ensures { IfOk result (λ z. z ≡ o.connected o.either_true o.either_node x y) }
{
    if either_variable(&x, &y) {
        disjunction_of_trees(alloc, x, y)
    } else {
        Ok(Operand::Truth(truth_of(&x) || truth_of(&y)))
    }
}

fn conjunction_of_trees(alloc: Global, x: Operand, y: Operand) -> Result<Operand, AllocError>
    ensures { IfOk result (λ z. z ≡ v.Condition (o.both_node (r.condition_of x) (r.condition_of y))) }
{
    let (x, y) = both_conditions(alloc, x, y)?;
    Ok(Operand::Condition(both(alloc, x, y)?))
}

pub fn conjunction(alloc: Global, x: Operand, y: Operand) -> Result<Operand, AllocError>
    ensures { IfOk result (λ z. z ≡ o.connected o.both_true o.both_node x y) }
{
    if either_variable(&x, &y) {
        conjunction_of_trees(alloc, x, y)
    } else {
        Ok(Operand::Truth(truth_of(&x) && truth_of(&y)))
    }
}

fn pair(alloc: Global, x: Placed, y: Placed) -> Result<Elements<Placed>, AllocError>
    ensures { IfOk result (λ xs. xs ≡ x ∷ y ∷ []) }
{
    let mut xs = Elements::new(alloc);
    xs.push(x)?;
    xs.push(y)?;
    Ok(xs)
}

fn either(alloc: Global, x: Placed, y: Placed) -> Result<Placed, AllocError>
    ensures { IfOk result (λ z. z ≡ o.either_node x y) }
{
    lists::some(alloc, pair(alloc, x, y)?)
}

fn both(alloc: Global, x: Placed, y: Placed) -> Result<Placed, AllocError>
    ensures { IfOk result (λ z. z ≡ o.both_node x y) }
{
    lists::all(alloc, pair(alloc, x, y)?)
}

fn denial_of_tree(alloc: Global, x: Operand) -> Result<Operand, AllocError>
    ensures { IfOk result (λ z. z ≡ v.Condition (n.denial (r.condition_of x))) }
{
    let x = condition_of(alloc, x)?;
    Ok(Operand::Condition(truths::denial(alloc, x)?))
}

/// `not x`
pub fn deny(alloc: Global, x: Operand) -> Result<Operand, AllocError>
    ensures { IfOk result (λ z. z ≡ o.deny x) }
{
    if is_variable(&x) {
        denial_of_tree(alloc, x)
    } else {
        Ok(Operand::Truth(!truth_of(&x)))
    }
}
