//! Chains of `/\` or of `\/` alone.

ghost use Rattle.std.specs.Prelude.{◌≡◌, IfOk, OnOk, OnErr};
ghost use Rattle.ms_rules.specs.Operands.{nesting_of};
ghost use Rattle.ms_rules.specs.Operators.{with_operand, over_operands};
ghost use Rattle.ms_operators.specs.Connectives.{neutral, truth_by, node_by, no_operands};
ghost use Rattle.ms_values.specs.declared.operand.Operand.TheVariants as v;

use ms_rules::{condition_of, is_variable, truth_of};
use ms_tree_nodes::lists;
use ms_values::{Elements, Operand, Placed};
use std::alloc::{AllocError, Global};
use std::marker::Model;

/// Which of the two a chain has.
#[derive(Clone, Copy)]
pub enum Connective {
    Conjunction,
    Disjunction,
}

impl Connective {
    // The truth value of no operand.
    fn neutral(self) -> bool
        ensures { result ≡ neutral self }
    {
        match self {
            Connective::Conjunction => true,
            Connective::Disjunction => false,
        }
    }

    fn truth(self, x: bool, y: bool) -> bool
        ensures { result ≡ truth_by self x y }
    {
        match self {
            Connective::Conjunction => x && y,
            Connective::Disjunction => x || y,
        }
    }

    fn node(self, alloc: Global, parts: Elements<Placed>) -> Result<Placed, AllocError>
        ensures { IfOk result (λ z. z ≡ node_by self parts) }
    {
        match self {
            Connective::Conjunction => lists::all(alloc, parts),
            Connective::Disjunction => lists::some(alloc, parts),
        }
    }
}

/// The operands so far of a chain. Contracts see whether all operands are known, the truth value where they are, and their
/// trees.
#[derive(Drop)]
pub struct Junction {
    known: bool,
    truth: bool,
    parts: Elements<Placed>,
    // How deep the deepest part is.
    depth: u64,
}

impl Model for Junction {
    ghost use Rattle.std.specs.Prelude.{◌≡◌};
    ghost use Rattle.std.specs.Coded.{codes};
    ghost use Rattle.ms_trees.specs.contracts.tree.Ground as ground;
    ghost use Rattle.ms_rules.specs.Operators.{Operands};
    ghost use Rattle.ms_tree_nodes.specs.Nodes.{deepest_of};

    ghost Value = { Operands };

    ghost coded = { Prim.hlevel (codes, ground.the_row.coded) };

    ghost view = { λ j. record { known = j.known; truth = j.truth; parts = j.parts } };

    ghost invariant = { λ j. j.depth ≡ deepest_of j.parts };
}

impl Junction {
    /// No operand yet.
    pub fn new(alloc: Global, connective: Connective) -> Junction
        ensures { result ≡ no_operands connective }
    {
        Junction {
            known: true,
            truth: connective.neutral(),
            parts: Elements::new(alloc),
            depth: 0,
        }
    }

    /// Takes one more operand.
    pub fn push(
        &mut self,
        alloc: Global,
        connective: Connective,
        x: Operand,
    ) -> Result<(), AllocError>
        ensures ok { OnOk result (self.new ≡ with_operand (truth_by connective) self.old x) }
        ensures err { OnErr result (self.new ≡ self.old) }
    {
        let known = self.known && !is_variable(&x);
        let truth = connective.truth(self.truth, truth_of(&x));
        let part = condition_of(alloc, x)?;
        let depth = self.depth.max(part.nesting);
        self.parts.push(part)?;
        self.known = known;
        self.truth = truth;
        self.depth = depth;
        Ok(())
    }

    /// How deep the node over the operands so far is, of either connective; 0 where all are known.
    pub fn nesting(&self) -> u64
        ensures { (f : Connective) → result ≡ nesting_of (over_operands (node_by f) self.now) }
    {
        if self.known {
            0
        } else {
            self.depth.saturating_add(1)
        }
    }

    /// The truth value where all operands are known, and else one node over all.
    pub fn into_operand(self, alloc: Global, connective: Connective) -> Result<Operand, AllocError>
        ensures { IfOk result (λ z. z ≡ over_operands (node_by connective) self) }
    {
        if self.known {
            Ok(Operand::Truth(self.truth))
        } else {
            Ok(Operand::Condition(connective.node(alloc, self.parts)?))
        }
    }
}
