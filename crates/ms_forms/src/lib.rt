//! What tokens, white space, comments and faults are, by rules that do not know how bytes are cut.
//!
//! `ms_syntax` says by one function, `form`, what stands at the front of some bytes, and by it which
//! tokens bytes have and where their first fault is. Here the same is told by relations: how each
//! token may be written (`Spelling`), what white space and comments are (`Blank`), and what stands
//! where nothing can be taken (`Failing`). The laws tie the two. What `form` finds is what the rules
//! say ([`longest_form`]), and the rules decide what it finds ([`decided_form`]): a blank of one byte
//! or more exactly where `IsBlank` says so, a fault exactly where `Fails` does, and a token exactly
//! where one is spelled, none has a longer spelling there, and nothing fails. So a reader of the
//! rules needs no look at `form`. All bytes have tokens or a first fault ([`some_reading`]), and
//! tokens that are written out with spaces between them are read again ([`spaced_tokens`]).
//!
//! The crate stands beside the program's own way: nothing that runs is here, and no crate of the
//! program stands on it.
#![tactic(auto)]

mod laws;

pub use laws::{decided_form, longest_form, some_reading, spaced_tokens};
