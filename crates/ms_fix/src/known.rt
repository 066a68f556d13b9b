//! Output items, where every variable is known.

ghost use Rattle.std.specs.Prelude.{◌≡◌, ℕ, List, slice_get, IfOk, IsTrue};
ghost use Rattle.std.specs.List.{list_all};
ghost use Rattle.ms_num.specs.Span.{is_within};
ghost use Rattle.ms_placing.specs.Values.{given as given_of};
ghost use Rattle.ms_instance.specs.Names.{value_or_nothing};
ghost use Rattle.ms_fix.specs.Answers.{Grounds};
ghost use Rattle.ms_fix.specs.Known as k;

use crate::fault::GroundFault;
use crate::grounds::ground_code;
use ms_code::{Code, Reference};
use ms_draws::ListWords;
use ms_exchange::given;
use ms_instance::{Instance, known_operands, narrow_numbers, value_at};
use ms_values::{Narrow, Operand, Pile, Value};
use ms_walk::Surroundings;
use std::alloc::{AllocError, Global};

/// The values of an instance's names on a point.
#[derive(Drop)]
pub struct Known<'a> {
    pub(crate) instance: &'a Instance,
    pub(crate) values: Vec<Operand>,
}

impl<'a> Known<'a> {
    ghost use Rattle.std.specs.Prelude.{◌≡◌, IfOk, IsTrue};
    ghost use Rattle.std.specs.List.{list_all};
    ghost use Rattle.ms_num.specs.Span.{is_within};
    ghost use Rattle.ms_fix.specs.Answers.{Grounds};
    ghost use Rattle.ms_instance.specs.Points.{known_values};

    pub fn new(
        alloc: Global,
        instance: &'a Instance,
        point: &[i64],
    ) -> Result<Known<'a>, AllocError>
        requires { IsTrue (list_all is_within point.now) }
        ensures instance { IfOk result (λ known. known.instance.now ≡ instance.now) }
        ensures values { IfOk result (λ known. known.values.items ≡ known_values instance.now point.now) }
    {
        let numbers = narrow_numbers(alloc, point)?;
        let values = known_operands(alloc, numbers.as_slice(), instance.values())?;
        Ok(Known { instance, values })
    }
}

impl<'a> Surroundings for Known<'a> {
    ghost use Rattle.ms_fix.specs.Known.{around_known};

    ghost around = { λ n. around_known n.instance.now n.values.items };

    fn value(&self, alloc: Global, name: Reference) -> Result<Operand, AllocError> {
        match name {
            Reference::Model(number) => value_at(alloc, self.values.as_slice(), number),
            Reference::Local(_) | Reference::Library(_) | Reference::BuiltIn(_) => {
                Ok(Operand::Number(None))
            }
        }
    }

    fn body(&self, name: Reference) -> Option<&Code> {
        self.instance.known_body(name)
    }

    fn point(&self) -> Option<&[Narrow]> {
        None
    }
}

/// The value of the name with this number; none where it has none.
pub fn value_of(
    alloc: Global,
    known: &Known<'_>,
    number: usize,
) -> Result<Option<Value>, AllocError>
    ensures { IfOk result (λ value. value ≡ given_of (value_or_nothing (slice_get known.now.values.items number))) }
{
    given(alloc, value_at(alloc, known.values.as_slice(), number)?)
}

/// The value of an output item on the point of these values.
pub fn output_on(alloc: Global, known: &Known<'_>, e: &Code) -> Result<Value, GroundFault>
    ensures { (left : List ℕ) × Grounds (k.output_by known.now.instance.now known.now.values.items e.now) result left }
{
    let mut words = ListWords::new(alloc, &[])?;
    ground_code(alloc, known, Pile::new(alloc), e, &mut words)
}

/// The value of an output item where the variables have these numbers.
pub fn ground_output(
    alloc: Global,
    instance: &Instance,
    e: &Code,
    point: &[i64],
) -> Result<Value, GroundFault>
    requires { IsTrue (list_all is_within point.now) }
    ensures { (left : List ℕ) × Grounds (k.output_at instance.now point.now e.now) result left }
{
    let known = Known::new(alloc, instance, point)?;
    output_on(alloc, &known, e)
}
