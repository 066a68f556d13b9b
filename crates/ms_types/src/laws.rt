//! What holds of models whatever checks them.

ghost use Rattle.std.specs.Prelude.{◌≡◌, List};
ghost use Rattle.ms_syntax.specs.Tree.{It};
ghost use Rattle.ms_rows.specs.declared.fault.TypeFault.{TypeFault as Fault};
ghost use Rattle.ms_types.specs.Faults.{HasFault, IsAccepted};

use ms_declarations::one_first_fault;

/// A model has at most one first fault beside a library, and none where it is accepted.
pub fn one_verdict()
    ensures one_fault { (model library : List It) (f g : Fault) → HasFault model library f
        → HasFault model library g → f ≡ g }
    ensures not_both { (model library : List It) (f : Fault) → IsAccepted model library
        → HasFault model library f → ⊥ }
{
    one_first_fault();
}
