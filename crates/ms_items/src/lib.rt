//! The type checker over items: their typed trees, or the first fault in their types.
//!
//! [`items`] goes once over the items of a text, in the order of the text. It answers the typed tree of each
//! (`items_code` of `ms_code`) where each has its types (`items_terms` and `typings` of `ms_typing`), and else the first
//! fault. A function that is no search is elaborated twice: its second body is typed where every value is known, as an
//! output item calls it; what is typed in a model is typed there, so this gives no fault.
//!
//! A reference of a typed tree to a name of a text counts names, and not items: [`declaring_items`] says which item
//! declares which name.
#![tactic(auto)]

mod declared;
mod declaring;
mod functions;
mod nodes;
mod texts;

pub use declaring::{declarers_declare, declaring_items};
pub use texts::items;
