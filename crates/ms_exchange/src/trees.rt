//! Trees, kept with what they may mean on the declared sets, their size and their nesting.

ghost use Rattle.std.specs.Prelude.{◌≡◌, IfOk, map};
ghost use Rattle.ms_trees.specs.WellFormed.{is_numeric as is_numeric_tree};
ghost use Rattle.ms_rules.specs.Operands as o;
ghost use Rattle.ms_exchange.specs.Read as r;

use ms_evaluator::Evaluator;
use ms_num::Intervals;
use ms_rules::{condition_of, integer_of};
use ms_trees::{Enclosure, Ground, nesting, size};
use ms_values::{Elements, Operand, Placed};
use sqlite_items::Boxed;
use std::alloc::{AllocError, Global};

fn is_numeric(tree: &Ground) -> bool
    ensures { result ≡ is_numeric_tree tree.now }
{
    match tree {
        Ground::Num(_) | Ground::Undef | Ground::Var(_) => true,
        Ground::Add(_, _) | Ground::Sub(_, _) | Ground::Mul(_, _) => true,
        Ground::Div(_, _) | Ground::Mod(_, _) | Ground::Neg(_) | Ground::Abs(_) => true,
        Ground::Sum(_) | Ground::Least(_) | Ground::Greatest(_) | Ground::ToInt(_) => true,
        Ground::Elem(_, _, _) | Ground::Elem2(_, _, _, _, _, _) => true,
        Ground::Count(_, _) | Ground::IteI(_, _, _) => true,
        _ => false,
    }
}

// A copy of the tree, with what it may mean.
fn placed(alloc: Global, tree: &Ground, enclosure: Enclosure) -> Result<Placed, AllocError>
    ensures { IfOk result (λ x. x ≡ r.placed tree.now enclosure) }
{
    Ok(Placed {
        tree: Boxed::new(alloc, tree.copy(alloc)?)?,
        enclosure,
        size: size(tree),
        nesting: nesting(tree),
    })
}

fn tree_known(
    alloc: Global,
    tree: &Ground,
    enclosure: Option<Enclosure>,
) -> Result<Operand, AllocError>
    ensures { IfOk result (λ x. x ≡ r.tree_known tree.now enclosure) }
{
    match enclosure {
        Some(enclosure) => {
            if is_numeric(tree) {
                Ok(Operand::Integer(placed(alloc, tree, enclosure)?))
            } else {
                Ok(Operand::Condition(placed(alloc, tree, enclosure)?))
            }
        }
        None => Ok(Operand::Number(None)),
    }
}

/// The tree, with what it may mean on the box of these intervals.
pub fn tree_read<B: Intervals>(
    alloc: Global,
    evaluator: &mut Evaluator,
    sets: B,
    tree: &Ground,
) -> Result<Operand, AllocError>
    ensures { IfOk result (λ x. x ≡ r.tree_read (B.spans sets) tree.now) }
{
    let enclosure = evaluator.enclose(tree, sets)?;
    tree_known(alloc, tree, enclosure)
}

fn integer_read<B: Intervals>(
    alloc: Global,
    evaluator: &mut Evaluator,
    sets: B,
    tree: &Ground,
) -> Result<Placed, AllocError>
    ensures { IfOk result (λ x. x ≡ o.integer_of (r.tree_read (B.spans sets) tree.now)) }
{
    integer_of(alloc, tree_read(alloc, evaluator, sets, tree)?)
}

fn condition_read<B: Intervals>(
    alloc: Global,
    evaluator: &mut Evaluator,
    sets: B,
    tree: &Ground,
) -> Result<Placed, AllocError>
    ensures { IfOk result (λ x. x ≡ o.condition_of (r.tree_read (B.spans sets) tree.now)) }
{
    condition_of(alloc, tree_read(alloc, evaluator, sets, tree)?)
}

/// The elements as integer trees.
pub fn integers_read<B: Intervals>(
    alloc: Global,
    sets: B,
    trees: &[Ground],
) -> Result<Elements<Placed>, AllocError>
    ensures { IfOk result (λ xs. xs ≡ map (λ t. o.integer_of (r.tree_read (B.spans sets) t)) trees.now) }
{
    let mut evaluator = Evaluator::new(alloc);
    let mut integers = Elements::new(alloc);
    for tree in trees {
        integers.push(integer_read(alloc, &mut evaluator, sets, tree)?)?;
    }
    Ok(integers)
}

/// The elements as Boolean trees.
pub fn conditions_read<B: Intervals>(
    alloc: Global,
    sets: B,
    trees: &[Ground],
) -> Result<Elements<Placed>, AllocError>
    ensures { IfOk result (λ xs. xs ≡ map (λ t. o.condition_of (r.tree_read (B.spans sets) t)) trees.now) }
{
    let mut evaluator = Evaluator::new(alloc);
    let mut conditions = Elements::new(alloc);
    for tree in trees {
        conditions.push(condition_read(alloc, &mut evaluator, sets, tree)?)?;
    }
    Ok(conditions)
}
