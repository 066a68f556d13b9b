//! What stands around an expression.

use ms_code::{Code, Reference};
use ms_instance::Instance;
use ms_values::{Narrow, Operand};
use ms_walk::Surroundings;
use std::alloc::{AllocError, Global};

/// The names of an instance, with the incumbent.
#[derive(Drop)]
pub struct Names<'a> {
    pub instance: &'a Instance,
    pub point: Option<&'a [Narrow]>,
}

impl<'a> Surroundings for Names<'a> {
    ghost use Rattle.std.specs.Prelude.{option_map};
    ghost use Rattle.ms_fix.specs.Around.{around_of};

    ghost around = { λ n. around_of n.instance.now (option_map (λ p. p.now) n.point) };

    fn value(&self, alloc: Global, name: Reference) -> Result<Operand, AllocError> {
        self.instance.value_of(alloc, name)
    }

    fn body(&self, name: Reference) -> Option<&Code> {
        self.instance.body(name)
    }

    fn point(&self) -> Option<&[Narrow]> {
        self.point
    }
}
