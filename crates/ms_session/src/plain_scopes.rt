ghost use Rattle.std.specs.Prelude.{◌≡◌, ◌≤◌, IfOk};
ghost use Rattle.ms_boxes.specs.Boxes.{Each, IsDeclared, box_of};
ghost use Rattle.ms_session.specs.Scopes.{live_nodes};

use crate::budget::Budget;
use crate::nodes::{Nodes, next_nodes};
use crate::plain_node::box_step;
use crate::plain_scope::{Parent, PlainScope};
use crate::session::{Session, Step};
use ms_base::Point;
use ms_evaluator::Evaluator;
use ms_ground::{Branching, Ground, hull_laws, size};
use ms_num::{Ranges, Sets};
use std::alloc::{AllocError, Global};
use std::marker::Model;
use std::mem;

/// The scopes of a plain session. Contracts see what is stored.
#[derive(Drop)]
pub struct PlainScopes {
    alloc: Global,
    evaluator: Evaluator,
    declared: Sets,
    branching: Branching,
    // Those of the current scope: the first of them are those of the scopes below it.
    constraints: Vec<Ground>,
    current: PlainScope,
    // The scopes below the current one, the nearest last.
    parents: Vec<Parent>,
    failed: bool,
}

impl Model for PlainScopes {
    ghost use Rattle.std.specs.Prelude.{map, reverse};
    ghost use Rattle.std.specs.Coded.{codes};
    ghost use Rattle.ms_trees.specs.contracts.tree.Ground as tree;
    ghost use Rattle.ms_boxes.specs.Boxes.{box_of};
    ghost use Rattle.ms_session.specs.Stored.{Stored, stored_of, parent_of, AreSound};

    ghost Value = { Stored };

    ghost coded = { Prim.hlevel (codes, tree.the_row.coded) };

    ghost view = { λ s. record { sets = s.declared; branching = s.branching; constraints = s.constraints.items; scope = stored_of s.current; parents = map parent_of (reverse s.parents.items); failed = s.failed } };

    ghost invariant = { λ s. AreSound (box_of s.declared) s.constraints.items s.current s.parents.items };
}

impl PlainScopes {
    ghost use Rattle.std.specs.Prelude.{◌≡◌, ◌≢◌, ◌≤◌, ◌<◌, ◌+◌, ◌^◌, [], length, All, IfOk, OnOk, OnErr, IsErr, true};
    ghost use Rattle.ms_trees.specs.Size.{size_of};
    ghost use Rattle.ms_boxes.specs.Trees.{IsConstraint};
    ghost use Rattle.ms_session.specs.Scopes.{IsOpening, NodeGives, Enters, with_constraint, live_nodes};
    ghost use Rattle.ms_session.specs.Valid.{IsValidSession};
    ghost use Rattle.ms_boxes.specs.Boxes.{box_of};
    ghost use Rattle.ms_session.specs.Stored.{state_of, KeepsParents};

    pub fn open(
        alloc: Global,
        sets: &[Ranges],
        constraints: &[Ground],
        branching: Branching,
    ) -> Result<PlainScopes, AllocError>
        requires fit { All (IsConstraint (box_of sets.now)) constraints.now }
        requires total { live_nodes constraints.now ≤ 2000000 }
        ensures opening { IfOk result (λ scopes. IsOpening (box_of sets.now) branching constraints.now (state_of scopes)) }
        ensures valid { IfOk result (λ scopes. IsValidSession (state_of scopes)) }
    {
        let declared = declare(alloc, sets)?;
        let live = total_size(constraints);
        let constraints = copy_constraints(alloc, constraints)?;
        let current = PlainScope::open(alloc, &declared, live)?;
        Ok(PlainScopes {
            alloc,
            evaluator: Evaluator::new(alloc),
            declared,
            branching,
            constraints,
            current,
            parents: Vec::new(alloc),
            failed: false,
        })
    }

    fn add_scope(&mut self) -> Result<(), AllocError>
        requires { length (state_of self.old).parents + 1 < 200 }
        ensures ok { OnOk result (Enters (state_of self.old) (state_of self.new)) }
        ensures err { OnErr result (self.new ≡ self.old) }
    {
        self.parents.reserve(1)?;
        let child = PlainScope::open(self.alloc, &self.declared, self.current.live)?;
        let scope = mem::replace(&mut self.current, child);
        let posted = self.constraints.len();
        self.parents.push_reserved(Parent { scope, posted });
        Ok(())
    }

    fn add_constraint(&mut self, constraint: &Ground) -> Result<(), AllocError>
        requires fit { IsConstraint (state_of self.old).sets constraint.now }
        requires total { live_nodes (state_of self.old).scope.cons + size_of constraint.now ≤ 2000000 }
        ensures ok { OnOk result (state_of self.new ≡ with_constraint (state_of self.old) constraint.now) }
        ensures err { OnErr result (self.new ≡ self.old) }
    {
        self.constraints.reserve(1)?;
        let copied = constraint.copy(self.alloc)?;
        self.constraints.push_reserved(copied);
        self.current.live += size(constraint);
        Ok(())
    }

    // Takes one node.
    fn take_first(&mut self) -> Result<Option<Point>, AllocError>
        requires some { (state_of self.old).scope.frontier ≢ [] }
        requires room { (state_of self.old).scope.spent + 1 < 2 ^ 64 }
        ensures ok { IfOk result (λ answer. NodeGives (state_of self.old) answer (state_of self.new)) }
        ensures err { OnErr result (KeepsParents (state_of self.old) (state_of self.new)) }
    {
        hull_laws();
        let Some(first) = self.current.boxes.pop() else {
            return Ok(None);
        };
        let constraints = self.constraints.as_slice();
        let evaluator = &mut self.evaluator;
        let step = box_step(self.alloc, evaluator, first, constraints, &self.branching)?;
        self.current.apply(self.alloc, step)
    }

    // The session is failed from now on.
    fn fail<T>(&mut self, refused: AllocError) -> Result<T, AllocError>
        ensures failed { self.new ≡ record self.old { failed = true } }
        ensures err { IsErr result }
    {
        self.failed = true;
        Err(refused)
    }
}

impl Session for PlainScopes {
    ghost use Rattle.ms_session.specs.Stored.{state_of};

    ghost state = { λ s. state_of s };

    fn depth(&self) -> usize {
        self.parents.len() + 1
    }

    fn failed(&self) -> bool {
        self.failed
    }

    fn live(&self) -> u64 {
        self.current.live
    }

    fn last(&self) -> Option<&[i64]> {
        match self.current.given.last() {
            Some(point) => Some(point.as_slice()),
            None => None,
        }
    }

    fn enter(&mut self) -> Result<(), AllocError> {
        match self.add_scope() {
            Ok(()) => Ok(()),
            Err(refused) => self.fail(refused),
        }
    }

    fn leave(&mut self) {
        if let Some(parent) = self.parents.pop() {
            self.constraints.truncate(parent.posted);
            self.current = parent.scope;
        }
    }

    fn post(&mut self, g: &Ground) -> Result<(), AllocError> {
        match self.add_constraint(g) {
            Ok(()) => Ok(()),
            Err(refused) => self.fail(refused),
        }
    }

    fn next(&mut self, budget: &mut Budget) -> Result<Step, AllocError> {
        next_nodes(self, budget)
    }
}

impl Nodes for PlainScopes {
    ghost use Rattle.ms_session.specs.Stored.{state_of};

    ghost state = { λ s. state_of s };

    fn is_empty(&self) -> bool {
        self.current.boxes.is_empty()
    }

    fn close(&mut self) {
        self.current.closed = true;
    }

    fn node(&mut self) -> Result<Option<Point>, AllocError> {
        match self.take_first() {
            Ok(answer) => Ok(answer),
            Err(refused) => self.fail(refused),
        }
    }
}

// Copies the declared sets.
fn declare(alloc: Global, sets: &[Ranges]) -> Result<Sets, AllocError>
    ensures value { IfOk result (λ declared. declared ≡ sets.now) }
    ensures proper { IfOk result (λ _. Each IsDeclared (box_of sets.now)) }
{
    let mut copies = Vec::with_capacity(alloc, sets.len())?;
    for set in sets {
        // Its ranges rise, so that it has both its ends.
        let _rising = set.ranges();
        copies.push(set.copy(alloc)?)?;
    }
    Ok(Sets::from_vec(copies))
}

// Copies the constraints with which a session begins.
fn copy_constraints(alloc: Global, constraints: &[Ground]) -> Result<Vec<Ground>, AllocError>
    ensures { IfOk result (λ copies. copies.items ≡ constraints.now) }
{
    let mut copies = Vec::with_capacity(alloc, constraints.len())?;
    for constraint in constraints {
        copies.push(constraint.copy(alloc)?)?;
    }
    Ok(copies)
}

// The sizes of the trees together.
fn total_size(trees: &[Ground]) -> u64
    requires { live_nodes trees.now ≤ 2000000 }
    ensures { result ≡ live_nodes trees.now }
{
    let mut total = 0;
    for tree in trees {
        total += size(tree);
    }
    total
}
