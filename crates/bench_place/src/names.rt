//! What stands outside an expression of the model: the values of its names and the bodies of its functions.

ghost use Rattle.std.specs.Prelude.{◌≡◌, IfOk};
ghost use Rattle.std.specs.Option.{option_copied};
ghost use Rattle.bench_place.specs.Names as d;

use ms_code::{Code, Item, Reference};
use ms_values::{Narrow, Operand};
use ms_walk::Surroundings;
use sqlite_items::at;
use std::alloc::{AllocError, Global};

/// The values of the names that the items declare so far, and all items. Each item before the last name declares one.
#[derive(Drop)]
pub struct Names<'a> {
    pub values: Vec<Operand>,
    pub items: &'a [Item],
}

fn value_at(alloc: Global, values: &[Operand], number: usize) -> Result<Operand, AllocError>
    ensures { IfOk result (λ x. x ≡ d.value_at values.now number) }
{
    match at(values, number) {
        Some(x) => x.share(alloc),
        None => Ok(Operand::Number(None)),
    }
}

fn body_of(item: &Item) -> Option<&Code>
    ensures { option_copied result ≡ d.body_of item.now }
{
    match item {
        Item::Function(function) => Some(&function.body),
        _ => None,
    }
}

fn body_at(items: &[Item], number: usize) -> Option<&Code>
    ensures { option_copied result ≡ d.body_at items.now number }
{
    match at(items, number) {
        Some(item) => body_of(item),
        None => None,
    }
}

impl<'a> Surroundings for Names<'a> {
    ghost around = { λ names. d.around names.values.items names.items.now };

    fn value(&self, alloc: Global, name: Reference) -> Result<Operand, AllocError> {
        match name {
            Reference::Model(number) => value_at(alloc, self.values.as_slice(), number),
            Reference::Local(_) | Reference::Library(_) | Reference::BuiltIn(_) => {
                Ok(Operand::Number(None))
            }
        }
    }

    fn body(&self, name: Reference) -> Option<&Code> {
        match name {
            Reference::Model(number) => body_at(self.items, number),
            Reference::Local(_) | Reference::Library(_) | Reference::BuiltIn(_) => None,
        }
    }

    fn point(&self) -> Option<&[Narrow]> {
        None
    }
}
