ghost use Rattle.std.specs.Prelude.{◌≡◌, IfOk, option_map};
ghost use Rattle.std.specs.Option.{option_copied};
ghost use Rattle.ms_walk.specs.Around.{Around};

use ms_code::{Code, Reference};
use ms_values::{Narrow, Operand};
use std::alloc::{AllocError, Global};

/// What stands outside an expression that is placed.
pub trait Surroundings {
    ghost around: { Self → Around };

    /// What a name is placed to.
    fn value(&self, alloc: Global, name: Reference) -> Result<Operand, AllocError>
        ensures { IfOk result (λ x. x ≡ (around self.now).value name) };

    /// The body of a function.
    fn body(&self, name: Reference) -> Option<&Code>
        ensures { option_copied result ≡ (around self.now).body name };

    /// The incumbent: the number of each variable, in the order of the variables.
    fn point(&self) -> Option<&[Narrow]>
        ensures { option_map (λ p. p.now) result ≡ (around self.now).point };
}
