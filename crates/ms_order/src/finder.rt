//! A search for the variables and parameters that each of them reads.

ghost use Rattle.std.specs.Prelude.{◌≡◌, ◌+◌, ◌<◌, [], length, map, get_or, IfOk, ℕ, List, Bool};
ghost use Rattle.ms_graph.specs.Graph.{Edges, LeadToNodes};
ghost use Rattle.ms_order.specs.Finding.{Begins, Ends, Expands, Finds, FindsBut, Inner, IsFlag, IsRow};
ghost use Rattle.ms_order.specs.Finding.{Meets, Rests, Visits};

use std::alloc::{AllocError, Global};
use std::mem;

/// For each node that is flagged the flagged ones that it reads, in the order of their numbers, and
/// for the others none.
pub(crate) fn rows(
    alloc: Global,
    graph: &[Vec<usize>],
    flags: &[bool],
) -> Result<Vec<Vec<usize>>, AllocError>
    requires leads { LeadToNodes (map (λ v. v.items) graph.now) }
    requires size { length flags.now ≡ length graph.now }
    ensures size { IfOk result (λ rows. length rows.items ≡ length graph.now) }
    ensures rows { IfOk result (λ rows. (a : ℕ) → a < length graph.now
        → IsRow (map (λ v. v.items) graph.now) flags.now a (get_or (map (λ v. v.items) rows.items) a [])) }
{
    let mut finder = Finder::new(alloc, graph.len())?;
    let mut rows = Vec::new(alloc);
    for node in 0..graph.len() {
        rows.push(finder.row(alloc, graph, flags, node)?)?;
    }
    Ok(rows)
}

/// What the searches keep.
#[derive(Drop)]
struct Finder {
    /// In which turn each node was last seen.
    marks: Vec<usize>,
    /// The number of the search, from 1.
    turn: usize,
    /// The nodes whose edges are still to be followed.
    waiting: Vec<usize>,
    /// The flagged nodes that are seen.
    found: Vec<usize>,
}

impl Finder {
    fn new(alloc: Global, nodes: usize) -> Result<Finder, AllocError>
        ensures { (g : Edges) → LeadToNodes g → length g ≡ nodes
            → IfOk result (λ finder. Rests g 0 finder) }
    {
        let mut marks = Vec::new(alloc);
        marks.resize(nodes, 0)?;
        Ok(Finder {
            marks,
            turn: 0,
            waiting: Vec::new(alloc),
            found: Vec::new(alloc),
        })
    }

    /// What a node reads, where it is flagged.
    fn row(
        &mut self,
        alloc: Global,
        graph: &[Vec<usize>],
        flags: &[bool],
        node: usize,
    ) -> Result<Vec<usize>, AllocError>
        requires rests { Rests (map (λ v. v.items) graph.now) node self.old }
        requires inside { node < length graph.now }
        requires size { length flags.now ≡ length graph.now }
        ensures rests { IfOk result (λ _. Rests (map (λ v. v.items) graph.now) (node + 1) self.new) }
        ensures row { IfOk result (λ row. IsRow (map (λ v. v.items) graph.now) flags.now node row.items) }
    {
        if !flags[node] {
            return Ok(Vec::new(alloc));
        }
        self.begin(node)?;
        self.search(graph, flags, node)?;
        self.finish(alloc, graph, flags, node)
    }

    /// Begins a search from a node.
    fn begin(&mut self, node: usize) -> Result<(), AllocError>
        requires { node < length self.old.marks.items }
        ensures { (g : Edges) (flags : List Bool) → Rests g node self.old
            → IfOk result (λ _. Begins g flags node self.new) }
    {
        self.waiting.push(node)?;
        self.turn = node + 1;
        Ok(())
    }

    /// Follows edges until no node waits.
    fn search(
        &mut self,
        graph: &[Vec<usize>],
        flags: &[bool],
        start: usize,
    ) -> Result<(), AllocError>
        requires finds { Finds (map (λ v. v.items) graph.now) flags.now start self.old }
        requires inside { start < length graph.now }
        requires size { length flags.now ≡ length graph.now }
        ensures { IfOk result (λ _. Ends (map (λ v. v.items) graph.now) flags.now start self.old self.new) }
    {
        while let Some(node) = self.waiting.pop() {
            self.expand(graph, flags, start, node)?;
        }
        Ok(())
    }

    /// Follows all edges of a node that was taken off the stack.
    fn expand(
        &mut self,
        graph: &[Vec<usize>],
        flags: &[bool],
        start: usize,
        node: usize,
    ) -> Result<(), AllocError>
        requires finds { FindsBut (map (λ v. v.items) graph.now) flags.now start node self.old }
        requires inner { Inner flags.now start self.old node }
        requires inside { node < length graph.now }
        requires size { length flags.now ≡ length graph.now }
        ensures { IfOk result (λ _. Expands (map (λ v. v.items) graph.now) flags.now start self.old self.new) }
    {
        for target in &graph[node] {
            self.visit(flags, *target)?;
        }
        Ok(())
    }

    /// Sees a node that an edge leads to.
    fn visit(&mut self, flags: &[bool], target: usize) -> Result<(), AllocError>
        requires inside { target < length self.old.marks.items }
        requires size { length flags.now ≡ length self.old.marks.items }
        ensures { (g : Edges) (start node : ℕ) → FindsBut g flags.now start node self.old
            → Meets g flags.now start target
            → IfOk result (λ _. Visits g flags.now start node self.old self.new target) }
    {
        if self.marks[target] == self.turn {
            return Ok(());
        }
        self.marks[target] = self.turn;
        if flags[target] {
            self.found.push(target)?;
        } else {
            self.waiting.push(target)?;
        }
        Ok(())
    }

    /// What was found, in the order of the numbers. The next search can begin.
    fn finish(
        &mut self,
        alloc: Global,
        graph: &[Vec<usize>],
        flags: &[bool],
        start: usize,
    ) -> Result<Vec<usize>, AllocError>
        requires finds { Finds (map (λ v. v.items) graph.now) flags.now start self.old }
        requires idle { self.old.waiting.items ≡ [] }
        requires turn { self.old.turn ≡ start + 1 }
        requires flag { IsFlag flags.now start }
        ensures rests { IfOk result (λ _. Rests (map (λ v. v.items) graph.now) (start + 1) self.new) }
        ensures row { IfOk result (λ row. IsRow (map (λ v. v.items) graph.now) flags.now start row.items) }
    {
        let mut found = mem::replace(&mut self.found, Vec::new(alloc));
        found.sort()?;
        Ok(found)
    }
}
