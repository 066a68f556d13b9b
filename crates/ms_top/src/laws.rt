//! What holds of the bytes of a model whatever reads them.

ghost use Rattle.std.specs.Prelude.{◌≡◌, ℕ, List};
ghost use Rattle.ms_top.specs.declared.plain.PlainModel.{PlainModel};
ghost use Rattle.ms_top.specs.declared.status.Fault.{Fault};
ghost use Rattle.ms_top.specs.Faults.{IsAccepted, IsFaulty};

use ms_parser::one_model;
use ms_syntax::{one_answer, one_reading};
use ms_types::one_verdict;

/// Bytes have one fault at most, none where they are accepted, and are accepted as one model at most.
pub fn one_outcome()
    ensures one_fault { (bytes : List ℕ) (fault other : Fault) → IsFaulty bytes fault →
        IsFaulty bytes other → fault ≡ other }
    ensures not_both { (bytes : List ℕ) (fault : Fault) (m : PlainModel) → IsFaulty bytes fault →
        IsAccepted bytes m → ⊥ }
    ensures one_model { (bytes : List ℕ) (m n : PlainModel) → IsAccepted bytes m →
        IsAccepted bytes n → m ≡ n }
{
    one_reading();
    one_answer();
    one_model();
    one_verdict();
}
