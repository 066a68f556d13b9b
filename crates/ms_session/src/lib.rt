//! Nested scopes and the search in each of them.
//!
//! A [`Budget`] holds the frames that limit how many nodes a search may take. Contracts see it as the list of
//! its frames, the outermost first; there is always one.
//!
//! A [`Session`] is a stack of scopes over declared sets. Contracts see its scopes, each with its constraints, the
//! solutions given in it, its frontier of boxes and the nodes spent. `specs/Scopes` says what a node does (it drops,
//! answers or splits the first box, by the [`Branching`](ms_ground::Branching)), what `next` comes to, and what
//! entering and leaving do; `specs/Valid` says what holds of every scope while memory was not refused. A box is a set
//! for each variable, and a set is its ends and its members, so that the same contract serves copied boxes and boxes
//! on a trail.
//!
//! [`next_nodes`] is the loop of `next` over whatever can take one node. The laws say what all this comes to. Each
//! call that answers `Ok`, and `leave`, keeps a session valid ([`session_laws`]). An answer of `next` meets the
//! constraints and was not given, and none is left only where all were given ([`solution_law`]). A scope takes at
//! most twice as many nodes as there are assignments, and a frame with enough left never cuts it ([`limit_laws`]).
//! What `next` leaves is said by its answer ([`effect_laws`]). Where all nodes of a session are taken from one
//! budget, the count of those spent in a scope stays within 64 bits ([`room_laws`]).
//!
//! Nothing is promised of how many nodes a search takes below that bound, of its speed, of how much memory it takes,
//! nor of the current scope after want of memory.
//!
//! [`PlainSession`] is a session whose frontiers are lists of boxes, each a list of ranges for each variable. At
//! each node the set of a variable that an equality or an order ties to a tree is cut by what the tree may mean on the
//! box; then the box is dropped where the hull of a constraint refutes it, and else split.
#![tactic(auto)]

mod budget;
mod cuts;
mod laws;
mod narrowing;
mod nodes;
mod picks;
mod plain_node;
mod plain_scope;
mod plain_scopes;
mod plain_session;
mod session;

pub use budget::{Budget, Frame};
pub use laws::{effect_laws, limit_laws, room_laws, session_laws, solution_law, validity_laws};
pub use nodes::{Nodes, next_nodes};
pub use plain_session::PlainSession;
pub use session::{Session, Step};
