ghost use Rattle.std.specs.Prelude.{◌≤◌, All, IfOk};
ghost use Rattle.ms_boxes.specs.Trees.{IsConstraint};
ghost use Rattle.ms_session.specs.Scopes.{IsOpening, live_nodes};
ghost use Rattle.ms_session.specs.Valid.{IsValidSession};
ghost use Rattle.ms_boxes.specs.Boxes.{box_of};
ghost use Rattle.ms_session.specs.Stored.{state_of};

use crate::budget::Budget;
use crate::plain_scopes::PlainScopes;
use crate::session::{Session, Step};
use ms_ground::{Branching, Ground};
use ms_num::Ranges;
use std::alloc::{AllocError, Global};
use std::marker::Model;

/// A session that keeps the frontier of each scope as a list of boxes, and copies the sets of a box that it splits.
///
/// At each node it cuts the sets of variables that are one part of an equality or an order; a box is dropped where the hull of a
/// constraint refutes it.
#[derive(Drop)]
pub struct PlainSession {
    scopes: PlainScopes,
}

impl Model for PlainSession {
    ghost use Rattle.std.specs.Coded.{codes};
    ghost use Rattle.ms_trees.specs.contracts.tree.Ground as tree;
    ghost use Rattle.ms_session.specs.Stored.{Stored};

    ghost Value = { Stored };

    ghost coded = { Prim.hlevel (codes, tree.the_row.coded) };

    ghost view = { λ s. s.scopes };
}

impl PlainSession {
    /// One scope over the declared sets, with these constraints.
    pub fn open(
        alloc: Global,
        sets: &[Ranges],
        constraints: &[Ground],
        branching: Branching,
    ) -> Result<PlainSession, AllocError>
        requires fit { All (IsConstraint (box_of sets.now)) constraints.now }
        requires total { live_nodes constraints.now ≤ 2000000 }
        ensures opening { IfOk result (λ session. IsOpening (box_of sets.now) branching constraints.now (state_of session)) }
        ensures valid { IfOk result (λ session. IsValidSession (state_of session)) }
    {
        Ok(PlainSession {
            scopes: PlainScopes::open(alloc, sets, constraints, branching)?,
        })
    }
}

impl Session for PlainSession {
    ghost use Rattle.ms_session.specs.Stored.{state_of};

    ghost state = { λ s. state_of s };

    fn depth(&self) -> usize {
        self.scopes.depth()
    }

    fn failed(&self) -> bool {
        self.scopes.failed()
    }

    fn live(&self) -> u64 {
        self.scopes.live()
    }

    fn last(&self) -> Option<&[i64]> {
        self.scopes.last()
    }

    fn enter(&mut self) -> Result<(), AllocError> {
        self.scopes.enter()
    }

    fn leave(&mut self) {
        self.scopes.leave()
    }

    fn post(&mut self, g: &Ground) -> Result<(), AllocError> {
        self.scopes.post(g)
    }

    fn next(&mut self, budget: &mut Budget) -> Result<Step, AllocError> {
        self.scopes.next(budget)
    }
}
