//! What the items of a model and of a library declare, and the first fault of it: what is wrong
//! before any node is typed.
//!
//! [`declaration_fault`] answers the first fault of a model and the library beside it, or none; Err
//! only where memory is wanting. `specs/First` has what is the first fault ([`one_first_fault`]:
//! there is one at most). Below it, `specs/Include` has the files that may be included;
//! `specs/Declaring` each name that a text declares, in its order, with what its own list declares
//! before it, and the first one that clashes; `specs/Depends` what an item says of a name (by the
//! names that it uses and does not bind, of `ms_free_names`), dependence, and the first name that
//! depends on itself.
//!
//! The other files of `specs/` have what the code finds part by part, and no contract of a public
//! call names them. Not promised: time, and that memory suffices.
#![tactic(auto)]

mod cycle;
mod fault;
mod include;
mod items;
mod names;
mod stop;
mod twice;

pub use fault::{DeclarationFault, declaration_fault, one_first_fault};
