//! What holds of bytes and tokens whatever reads them. Each function does nothing; its contract is
//! the law.

ghost use Rattle.std.specs.Prelude.{◌≡◌, ◌==◌, ℕ, List, false};
ghost use Rattle.ms_syntax.specs.Cut.{HasTokens, HasFault};
ghost use Rattle.ms_syntax.specs.Grammar.{Writes, WritesTree, WritesPairs};
ghost use Rattle.ms_syntax.specs.Grouping.{followed_by, place_of};
ghost use Rattle.ms_syntax.specs.OneAnswer.{OneAnswer};
ghost use Rattle.ms_syntax.specs.Tree.{Ex, Links, chain, link, of_concat};

use crate::token::{LexKind, Place, Spanned};
use crate::tree::Operator;

/// Bytes have at most one token list, none where they have a fault, and at most one first fault.
pub fn one_reading()
    ensures one_list { (file : ℕ) (bytes : List ℕ) (ts us : List Spanned)
        → HasTokens file bytes ts → HasTokens file bytes us → ts ≡ us }
    ensures none_beside { (file k : ℕ) (bytes : List ℕ) (kind : LexKind) (ts : List Spanned)
        → HasTokens file bytes ts → HasFault bytes kind k → ⊥ }
    ensures one_fault { (bytes : List ℕ) (kind other : LexKind) (k j : ℕ)
        → HasFault bytes kind k → HasFault bytes other j → (kind ≡ other) × (k ≡ j) }
{}

/// Tokens have one answer at most, in each language of the grammar: a value that is written so,
/// the first token that cannot stand there, or the first that nests too deep.
pub fn one_answer()
    ensures expressions { OneAnswer Writes }
    ensures models { OneAnswer WritesTree }
    ensures assignments { OneAnswer WritesPairs }
{}

/// Operators that group to the left stand at the last one, and those of `++` at the first.
pub fn chain_places()
    ensures last { (n : ℕ) (first : Ex) (links : Links) (op : Operator) (p : Place) (e : Ex)
        → (n == of_concat) ≡ false → place_of (chain n first (followed_by links op p e)) ≡ p }
    ensures first { (first : Ex) (op : Operator) (p : Place) (e : Ex) (more : Links)
        → place_of (chain of_concat first (link op p e more)) ≡ p }
{}
