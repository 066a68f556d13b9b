//! A depth-first search that lists each node behind those that it leads to.

ghost use Rattle.std.specs.Prelude.{◌≡◌, ◌<◌, ◌∷◌, [], ◌^◌, IfOk, IfSome, Some, length, map};
ghost use Rattle.ms_graph.specs.Graph.{Edges, ending, LeadToNodes};
ghost use Rattle.ms_postorder.specs.Postorder.{IsPostorder};
ghost use Rattle.ms_postorder.specs.Stacks.{Enters, Holds, IsSearch, Searched, stack, Steps, Walks};

use std::alloc::{AllocError, Global};

/// The nodes of a graph in the order of a depth-first search: for each node, by its number, the
/// nodes that its edges lead to.
pub fn postorder(alloc: Global, graph: &[Vec<usize>]) -> Result<Vec<usize>, AllocError>
    requires { LeadToNodes (map (λ v. v.items) graph.now) }
    ensures { IfOk result (λ order. IsPostorder (map (λ v. v.items) graph.now) order.items) }
{
    let mut search = Search::new(alloc, graph.len())?;
    for node in 0..graph.len() {
        search.search_from(graph, node)?;
    }
    Ok(search.order)
}

/// A node that waits for those that its edges lead to.
#[derive(Clone, Copy)]
struct Frame {
    node: usize,
    /// How many of its edges are followed.
    followed: usize,
}

/// What the search keeps.
#[derive(Drop)]
struct Search {
    /// Which nodes have come or wait.
    seen: Vec<bool>,
    /// The nodes that wait, each for the one behind it.
    waiting: Vec<Frame>,
    /// The nodes that have come.
    order: Vec<usize>,
}

impl Search {
    fn new(alloc: Global, nodes: usize) -> Result<Search, AllocError>
        ensures search { (g : Edges) → LeadToNodes g → length g ≡ nodes
            → IfOk result (λ search. IsSearch g search) }
        ensures idle { IfOk result (λ search. search.waiting.items ≡ []) }
        ensures order { IfOk result (λ search. search.order.items ≡ []) }
    {
        let mut seen = Vec::new(alloc);
        seen.resize(nodes, false)?;
        Ok(Search {
            seen,
            waiting: Vec::new(alloc),
            order: Vec::new(alloc),
        })
    }

    /// Searches from a node until none waits.
    fn search_from(&mut self, graph: &[Vec<usize>], node: usize) -> Result<(), AllocError>
        requires search { IsSearch (map (λ v. v.items) graph.now) self.old }
        requires idle { self.old.waiting.items ≡ [] }
        requires inside { node < length graph.now }
        ensures { IfOk result (λ _. Searched (map (λ v. v.items) graph.now) self.old self.new node) }
    {
        if self.seen[node] {
            return Ok(());
        }
        self.enter(node)?;
        self.walk(graph)
    }

    /// Puts a node on the stack, which is seen from now on.
    fn enter(&mut self, node: usize) -> Result<(), AllocError>
        requires { node < length self.old.seen.items }
        ensures { IfOk result (λ _. Enters self.old self.new node) }
    {
        self.waiting.push(Frame { node, followed: 0 })?;
        self.seen[node] = true;
        Ok(())
    }

    /// Takes steps until no node waits.
    fn walk(&mut self, graph: &[Vec<usize>]) -> Result<(), AllocError>
        requires { IsSearch (map (λ v. v.items) graph.now) self.old }
        ensures { IfOk result (λ _. Walks (map (λ v. v.items) graph.now) self.old self.new) }
    {
        while let Some(frame) = self.waiting.pop() {
            self.step(graph, frame)?;
        }
        Ok(())
    }

    /// Follows one more edge of the innermost node, which was taken off the stack. Where all are
    /// followed, the node comes.
    fn step(&mut self, graph: &[Vec<usize>], frame: Frame) -> Result<(), AllocError>
        requires { Holds (map (λ v. v.items) graph.now) self.old.seen.items
            (frame ∷ stack self.old) self.old.order.items }
        ensures { IfOk result (λ _. Steps (map (λ v. v.items) graph.now) frame self.old self.new) }
    {
        match target(graph, frame) {
            Some(target) => self.follow(frame, target),
            None => {
                self.order.push(frame.node)?;
                Ok(())
            }
        }
    }

    /// Follows the next edge of a node that was taken off the stack.
    fn follow(&mut self, frame: Frame, target: usize) -> Result<(), AllocError>
        requires small { frame.followed < 2 ^ 63 }
        requires inside { target < length self.old.seen.items }
        ensures { (g : Edges) → Holds g self.old.seen.items (frame ∷ stack self.old) self.old.order.items
            → ending g frame.node frame.followed ≡ Some target
            → IfOk result (λ _. Steps g frame self.old self.new) }
    {
        let followed = frame.followed + 1;
        self.waiting.push(Frame {
            node: frame.node,
            followed,
        })?;
        if self.seen[target] {
            return Ok(());
        }
        self.enter(target)
    }
}

/// Where the next edge of a node leads.
fn target(graph: &[Vec<usize>], frame: Frame) -> Option<usize>
    requires { frame.node < length graph.now }
    ensures value { result ≡ ending (map (λ v. v.items) graph.now) frame.node frame.followed }
    ensures small { IfSome result (λ _. frame.followed < 2 ^ 63) }
{
    graph[frame.node].get(frame.followed).copied()
}
