ghost use Rattle.std.specs.Prelude.{◌≡◌, ◌≢◌, ◌↔◌, ◌<◌, ◌+◌, ◌^◌, [], true, false, IsTrue, IfOk, OnErr};
ghost use Rattle.ms_session.specs.Scopes.{SessionState, NodeGives, NextGives, Breaks, Loses, HasRoom, with_scope};

use crate::budget::Budget;
use crate::session::Step;
use ms_base::Point;
use std::alloc::AllocError;

/// What can take one node in its current scope.
pub trait Nodes {
    ghost state: { Self → SessionState };

    /// Whether no box is left to be searched.
    fn is_empty(&self) -> bool
        ensures { IsTrue result ↔ ((state self.now).scope.frontier ≡ []) };

    /// Notes that the search of the scope has come to its end.
    fn close(&mut self)
        ensures { state self.new ≡ with_scope (state self.old) (record ((state self.old).scope) { closed = true }) };

    /// Takes the first box, which is dropped, answered or split.
    fn node(&mut self) -> Result<Option<Point>, AllocError>
        requires usable { (state self.old).failed ≡ false }
        requires some { (state self.old).scope.frontier ≢ [] }
        requires room { (state self.old).scope.spent + 1 < 2 ^ 64 }
        ensures ok { IfOk result (λ answer. NodeGives (state self.old) answer (state self.new)) }
        ensures err { OnErr result (Breaks (state self.old) (state self.new)) };
}

/// Takes nodes until there is an answer, no box or no node left.
pub fn next_nodes<N: Nodes>(nodes: &mut N, budget: &mut Budget) -> Result<Step, AllocError>
    requires usable { (N.state nodes.old).failed ≡ false }
    requires room { HasRoom budget.old (N.state nodes.old).scope }
    ensures ok { IfOk result (λ step. NextGives (N.state nodes.old) budget.old step (N.state nodes.new) budget.new) }
    ensures err { OnErr result (Breaks (N.state nodes.old) (N.state nodes.new) × Loses budget.old budget.new) }
{
    'nodes: while !nodes.is_empty() {
        match budget.empty_frame() {
            Some(_) => return Ok(Step::Spent),
            None => {}
        }
        let answer = nodes.node()?;
        budget.spend();
        if let Some(point) = answer {
            return Ok(Step::Found(point));
        }
    }
    nodes.close();
    Ok(Step::NoneLeft)
}
