ghost use Rattle.std.specs.Prelude.{◌≡◌, ◌≤◌, ◌<◌, ◌+◌, length, false, IfOk, OnOk, OnErr, option_map};
ghost use Rattle.ms_trees.specs.Size.{size_of};
ghost use Rattle.ms_session.specs.Scopes.{SessionState, last_of, live_nodes, Enters, Leaves, with_constraint, NextGives, Breaks, HasRoom, Loses};
ghost use Rattle.ms_boxes.specs.Trees.{IsConstraint};

use crate::budget::Budget;
use ms_base::Point;
use ms_ground::Ground;
use std::alloc::AllocError;

/// What the nodes of a scope have come to.
#[derive(Debug, Drop)]
pub enum Step {
    /// An assignment that meets the constraints of the scope and was not given in it before.
    Found(Point),
    /// No box is left: every assignment that meets the constraints was given.
    NoneLeft,
    /// A box is left, and a frame of which nothing is left.
    Spent,
}

/// Nested scopes, in each of which solutions are searched, however the boxes are kept.
///
/// There is always a current scope. After want of memory a session is failed from then on: that scope may be
/// anything, and those below it stand. It still says how it stands, and its scopes can be left.
pub trait Session {
    /// The declared sets, the branching, the scopes, and whether memory was refused.
    ghost state: { Self → SessionState };

    /// How many scopes stand.
    fn depth(&self) -> usize
        ensures { result ≡ length (state self.now).parents + 1 };

    /// Whether memory was refused.
    fn failed(&self) -> bool
        ensures { result ≡ (state self.now).failed };

    /// The sizes of all constraints of the current scope together.
    fn live(&self) -> u64
        ensures { result ≡ live_nodes (state self.now).scope.cons };

    /// The last solution given in the current scope.
    fn last(&self) -> Option<&[i64]>
        ensures { option_map (λ p. p.now) result ≡ last_of (state self.now).scope.given };

    /// Begins a scope with the constraints of the current one.
    fn enter(&mut self) -> Result<(), AllocError>
        requires usable { (state self.old).failed ≡ false }
        requires depth { length (state self.old).parents + 1 < 200 }
        ensures ok { OnOk result (Enters (state self.old) (state self.new)) }
        ensures err { OnErr result (Breaks (state self.old) (state self.new)) };

    /// Ends the current scope; the one below it stands as it stood when this one was entered.
    fn leave(&mut self)
        requires { 0 < length (state self.old).parents }
        ensures { Leaves (state self.old) (state self.new) };

    /// Adds a constraint to the current scope.
    fn post(&mut self, g: &Ground) -> Result<(), AllocError>
        requires usable { (state self.old).failed ≡ false }
        requires fit { IsConstraint (state self.old).sets g.now }
        requires total { live_nodes (state self.old).scope.cons + size_of g.now ≤ 2000000 }
        ensures ok { OnOk result (state self.new ≡ with_constraint (state self.old) g.now) }
        ensures err { OnErr result (Breaks (state self.old) (state self.new)) };

    /// Searches the current scope for one more solution. Each node is taken from each frame.
    fn next(&mut self, budget: &mut Budget) -> Result<Step, AllocError>
        requires usable { (state self.old).failed ≡ false }
        requires room { HasRoom budget.old (state self.old).scope }
        ensures ok { IfOk result (λ step. NextGives (state self.old) budget.old step (state self.new) budget.new) }
        ensures err { OnErr result (Breaks (state self.old) (state self.new) × Loses budget.old budget.new) };
}
