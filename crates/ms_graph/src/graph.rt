//! Which nodes of a graph are on a cycle.
//!
//! One depth-first search over all nodes, on stacks of its own. The nodes that are open stand on a
//! path, cut into groups of nodes that all lead to each other; an edge that leads back to an open
//! node makes one group of those from there on. A group whose edges are all followed is a strongly
//! connected component.

ghost use Rattle.std.specs.Prelude.{◌≡◌, ◌+◌, ◌*◌, ◌-◌, ◌<◌, ◌≤◌, ◌⊎◌, ◌↔◌, ℕ, IfOk, IsTrue};
ghost use Rattle.std.specs.Prelude.{List, [], ◌∷◌, ◌++◌, length, get_or, set, replicate, map};
ghost use Rattle.std.specs.Prelude.{Bool, true, false, vec_len, IfSome, ◌^◌};
ghost use Rattle.ms_graph.specs.Graph.{ending, Edges, HasEdge, LeadToNodes, TellsCycles};
ghost use Rattle.ms_graph.specs.Search as spec;
ghost use Rattle.ms_graph.specs.Search.{AreUpTo, Closes, IsSearch, IsTop, Joins, Met};
ghost use Rattle.ms_graph.specs.Search.{Opens, Searched, Stays, Steps};

use std::alloc::{AllocError, Global};
use std::marker::Model;

/// Nodes by their numbers, each with the list of the nodes that its edges lead to. Contracts see
/// these lists.
#[derive(Drop)]
pub struct Graph {
    targets: Vec<Vec<usize>>,
}

impl Model for Graph {
    ghost use Rattle.std.specs.Prelude.{List, ℕ, map};
    ghost use Rattle.std.specs.Coded.{coded_list, coded_ℕ};

    ghost Value = { List (List ℕ) };

    ghost coded = { coded_list (coded_list coded_ℕ) };

    ghost view = { λ g. map (λ v. v.items) g.targets.items };
}

impl Graph {
    /// So many nodes, and no edges.
    pub fn new(alloc: Global, nodes: usize) -> Result<Graph, AllocError>
        ensures { IfOk result (λ graph. graph ≡ replicate nodes []) }
    {
        let mut targets = Vec::new(alloc);
        for _ in 0..nodes {
            targets.push(Vec::new(alloc))?;
        }
        Ok(Graph { targets })
    }

    /// How many nodes there are.
    pub fn nodes(&self) -> usize
        ensures { result ≡ length self.now }
    {
        self.targets.len()
    }

    /// Adds edges from a node to others, behind those that it has.
    pub fn add_edges(&mut self, node: usize, targets: &[usize]) -> Result<(), AllocError>
        requires { node < length self.old }
        ensures { IfOk result (λ _. self.new
            ≡ set self.old node (get_or self.old node [] ++ targets.now)) }
    {
        self.targets[node].extend_from_slice(targets)?;
        Ok(())
    }

    /// Where an edge of a node leads.
    fn target(&self, node: usize, index: usize) -> Option<usize>
        requires { node < length self.now }
        ensures value { result ≡ ending self.now node index }
        ensures small { IfSome result (λ _. index < 2 ^ 63) }
    {
        self.targets[node].get(index).copied()
    }

    /// Whether an edge leads from a node to itself.
    fn is_loop(&self, node: usize) -> bool
        requires { node < length self.now }
        ensures { result ≡ true ↔ HasEdge self.now node node }
    {
        self.targets[node].contains(&node)
    }

    /// For each node whether it leads to itself by one edge or more.
    pub fn on_cycles(&self, alloc: Global) -> Result<Vec<bool>, AllocError>
        requires { LeadToNodes self.now }
        ensures { IfOk result (λ found. TellsCycles self.now found.items) }
    {
        let mut search = Search::new(alloc, self.nodes())?;
        for node in 0..self.nodes() {
            search.search_from(self, node)?;
        }
        Ok(search.cyclic)
    }
}

/// How far the search has come with a node.
#[derive(Clone, Copy)]
enum Mark {
    New,
    /// It stands at this place on the path.
    Open(usize),
    Done,
}

/// What the search keeps.
#[derive(Drop)]
struct Search {
    marks: Vec<Mark>,
    /// How many edges of each node are followed.
    followed: Vec<usize>,
    /// The open nodes, in the order in which they were met.
    path: Vec<usize>,
    /// Where on the path each group begins.
    groups: Vec<usize>,
    /// Where on the path the nodes stand whose edges are being followed.
    walk: Vec<usize>,
    /// Whether each node that is done is on a cycle.
    cyclic: Vec<bool>,
}

impl Search {
    fn new(alloc: Global, nodes: usize) -> Result<Search, AllocError>
        ensures made { (g : Edges) → LeadToNodes g → length g ≡ nodes
            → IfOk result (λ search. IsSearch g search) }
        ensures idle { IfOk result (λ search. length search.path.items ≡ 0) }
    {
        let mut marks = Vec::new(alloc);
        marks.resize(nodes, Mark::New)?;
        let mut followed = Vec::new(alloc);
        followed.resize(nodes, 0)?;
        let mut cyclic = Vec::new(alloc);
        cyclic.resize(nodes, false)?;
        Ok(Search {
            marks,
            followed,
            path: Vec::new(alloc),
            groups: Vec::new(alloc),
            walk: Vec::new(alloc),
            cyclic,
        })
    }

    /// Searches from a node until none is open.
    fn search_from(&mut self, graph: &Graph, node: usize) -> Result<(), AllocError>
        requires search { IsSearch graph.now self.old }
        requires idle { length self.old.path.items ≡ 0 }
        requires inside { node < length graph.now }
        ensures { IfOk result (λ _. Searched graph.now self.old self.new node) }
    {
        if let Mark::New = self.marks[node] {
            self.open(node)?;
            self.walk_on(graph)?;
        }
        Ok(())
    }

    /// Takes steps until no node is open.
    fn walk_on(&mut self, graph: &Graph) -> Result<(), AllocError>
        requires { IsSearch graph.now self.old }
        ensures { IfOk result (λ _. IsSearch graph.now self.new × (length self.new.path.items ≡ 0)
            × Stays self.old self.new) }
    {
        while let Some(place) = self.walk.last().copied() {
            self.step(graph, place)?;
        }
        Ok(())
    }

    /// Follows one more edge of the node at the place, which is the last one of the walk. Where all
    /// are followed, leaves it.
    fn step(&mut self, graph: &Graph, place: usize) -> Result<(), AllocError>
        requires search { IsSearch graph.now self.old }
        requires top { IsTop self.old place }
        ensures { IfOk result (λ _. Steps graph.now self.old self.new) }
    {
        let node = self.path[place];
        match graph.target(node, self.followed[node]) {
            Some(target) => {
                self.meet(place, target)?;
                self.followed[node] += 1;
                Ok(())
            }
            None => {
                self.leave(graph, place, node);
                Ok(())
            }
        }
    }

    /// Sees to a node that an edge from the last one of the walk leads to.
    fn meet(&mut self, place: usize, target: usize) -> Result<(), AllocError>
        requires { target < length self.old.marks.items }
        ensures met { (g : Edges) → IsSearch g self.old → IsTop self.old place
            → HasEdge g (spec.at_of self.old place) target
            → IfOk result (λ _. Met g self.old self.new place target) }
        ensures followed { IfOk result (λ _. self.new.followed.items ≡ self.old.followed.items) }
    {
        match self.marks[target] {
            Mark::New => self.open(target),
            Mark::Open(start) => {
                self.join(start);
                Ok(())
            }
            Mark::Done => Ok(()),
        }
    }

    /// Puts a new node on the path, as a group of its own.
    fn open(&mut self, node: usize) -> Result<(), AllocError>
        requires { node < length self.old.marks.items }
        ensures { IfOk result (λ _. Opens self.old self.new node) }
    {
        let place = self.path.len();
        self.path.push(node)?;
        self.groups.push(place)?;
        self.walk.push(place)?;
        self.marks[node] = Mark::Open(place);
        Ok(())
    }

    /// Makes one group of all that stand from the group of the place on.
    fn join(&mut self, place: usize)
        ensures { Joins self.old self.new place }
    {
        let count = count_up_to(&self.groups, place);
        self.groups.truncate(count);
    }

    /// Leaves the last node of the walk, whose edges are all followed. Where its group begins with
    /// it, the group is done.
    fn leave(&mut self, graph: &Graph, place: usize, node: usize)
        requires search { IsSearch graph.now self.old }
        requires top { IsTop self.old place }
        requires stands { spec.at_of self.old place ≡ node }
        requires followed { length (get_or graph.now node []) ≤ spec.followed_of self.old node }
        ensures { Steps graph.now self.old self.new }
    {
        if ends_with(&self.groups, place) {
            let is_cyclic = self.is_cyclic(graph, place, node);
            self.close(place, is_cyclic);
        } else {
            self.walk.pop();
        }
    }

    /// Whether the nodes from the place on, which are a group, are on cycles.
    fn is_cyclic(&self, graph: &Graph, place: usize, node: usize) -> bool
        requires inside { place < length self.now.path.items }
        requires known { node < length graph.now }
        ensures many { place + 1 < length self.now.path.items → result ≡ true }
        ensures one { length self.now.path.items ≡ place + 1
            → (result ≡ true) ↔ HasEdge graph.now node node }
    {
        if self.path.len() - place > 1 {
            return true;
        }
        graph.is_loop(node)
    }

    /// Takes the last group, which begins at the place, off the path. Its nodes are done.
    fn close(&mut self, start: usize, is_cyclic: bool)
        requires start { start ≤ length self.old.path.items }
        requires marks { (i : ℕ) → i < length self.old.path.items
            → spec.at_of self.old i < length self.old.marks.items }
        requires cyclic { (i : ℕ) → i < length self.old.path.items
            → spec.at_of self.old i < length self.old.cyclic.items }
        ensures { Closes self.old self.new start is_cyclic }
    {
        for place in start..self.path.len() {
            let node = self.path[place];
            self.marks[node] = Mark::Done;
            self.cyclic[node] = is_cyclic;
        }
        self.path.truncate(start);
        self.groups.pop();
        self.walk.pop();
    }
}

/// How many of some rising places are not behind a place.
fn count_up_to(places: &[usize], place: usize) -> usize
    ensures { AreUpTo places.now place result }
{
    let mut count = places.len();
    while count > 0 && places[count - 1] > place {
        count -= 1;
    }
    count
}

/// Whether a place is the last one of a list.
fn ends_with(places: &[usize], place: usize) -> bool
    ensures { (result ≡ true) ↔ ((0 < length places.now)
        × (get_or places.now (length places.now - 1) 0 ≡ place)) }
{
    match places.last() {
        Some(last) => *last == place,
        None => false,
    }
}
