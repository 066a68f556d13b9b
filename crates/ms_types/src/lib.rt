//! The type checker of a model beside the library.
//!
//! [`check`] says whether a model is well typed beside a library, or which fault comes first, and leaves a [`Typed`]:
//! both texts, the names that their items declare, the typed trees of the items, and the fact that the model is accepted.
//! [`check_expression`] types one more expression among the names of a checked model, in any surroundings, and answers its
//! typed tree with its least type.
//!
//! Contracts see a model and a library through `tree_view` and `model_of`, `library_of` (`specs/Texts.antt`). Which model
//! is accepted and which fault comes first stands in `specs/Faults.antt`, over the definitions of `ms_declarations` (what
//! is declared) and `ms_typing` (types). Both directions are proved: each answer but want of memory is right, and what is
//! right is answered unless memory does not suffice. How long a check takes is not told.
#![tactic(auto)]

mod checker;
mod found;
mod laws;
mod typed;

pub use checker::{check, check_expression};
pub use laws::one_verdict;
pub use ms_elaborator::Elaborated;
pub use ms_rows::TypeFault;
pub use typed::Typed;
