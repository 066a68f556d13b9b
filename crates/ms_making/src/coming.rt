//! Declarations come one after the other.

ghost use Rattle.std.specs.Prelude.{◌≡◌, ◌≤◌, ◌+◌, map, option_map, slice_get, IfOk};
ghost use Rattle.std.specs.Option.{option_copied};
ghost use Rattle.ms_base.specs.declared.limits.TheConstants.{VARIABLE_LIMIT as most_variables};
ghost use Rattle.ms_syntax.specs.Tree.{assignment_view};
ghost use Rattle.ms_types.specs.Texts.{names_among};
ghost use Rattle.ms_declared.specs.Made.{GivesOf};
ghost use Rattle.ms_declared.specs.Variables as d;
ghost use Rattle.ms_declared.specs.Views.{declared_of};
ghost use Rattle.ms_made.specs.Giving as g;
ghost use Rattle.ms_made.specs.Standing as s;

use crate::handed::{given_item, typed_data};
use crate::names::Names;
use ms_code::{Code, Declaration};
use ms_declared::{Declared, Given, ValueFault, place_declaration, set_of_kind, variables_of};
use ms_given::Source;
use ms_rows::known_of;
use ms_syntax::Assignment;
use ms_values::Operand;
use sqlite_items::{Boxed, at};
use std::alloc::{AllocError, Global};

/// The value that a declaration came to; nothing where none is given.
fn known_value(alloc: Global, declared: &Declared) -> Result<Operand, AllocError>
    ensures { IfOk result (λ x. x ≡ s.known_value declared.now.value) }
{
    match &declared.value {
        Some((_, x)) => x.share(alloc),
        None => Ok(Operand::Number(None)),
    }
}

/// What a declaration stands for: its value, or its variables from this number on.
pub fn operand_by(alloc: Global, declared: &Declared, first: u32) -> Result<Operand, AllocError>
    requires { first + s.variables_by (declared_of declared.now) ≤ most_variables }
    ensures { IfOk result (λ x. x ≡ s.operand_by (declared_of declared.now) first) }
{
    if known_of(declared.kind) {
        return known_value(alloc, declared);
    }
    let set = set_of_kind(alloc, declared.kind, &declared.within)?;
    variables_of(alloc, declared.kind, &declared.sides, set.get(), first)
}

/// What a declaration comes to with the value that is given to it.
#[tactic(auto, using(crate::proofs::Data::datum_at))]
pub fn place_given(
    alloc: Global,
    names: &Names<'_>,
    data: &[Assignment],
    taken: usize,
    declaration: &Declaration,
    source: Option<Source>,
) -> Result<Declared, ValueFault>
    ensures { GivesOf declared_of (d.declared (s.around names.now.typed.now names.now.values.items) taken declaration.now (g.given_by names.now.typed.now (map assignment_view data.now) declaration.now source)) result }
{
    match source {
        None => place_declaration(alloc, names, taken, declaration, None),
        Some(Source::Declaration) => {
            let given = Given {
                file: declaration.place.file,
                code: own_value(declaration),
            };
            place_declaration(alloc, names, taken, declaration, Some(given))
        }
        Some(Source::Item(number)) => {
            let given = given_item(names.typed.items(), number);
            place_declaration(alloc, names, taken, declaration, given)
        }
        Some(Source::Datum(number)) => {
            place_datum(alloc, names, data, taken, declaration, number)
        }
    }
}

fn own_value(declaration: &Declaration) -> Option<&Code>
    ensures { option_copied result ≡ declaration.now.value }
{
    match &declaration.value {
        Some(code) => Some(code),
        None => None,
    }
}

fn place_datum(
    alloc: Global,
    names: &Names<'_>,
    data: &[Assignment],
    taken: usize,
    declaration: &Declaration,
    number: usize,
) -> Result<Declared, ValueFault>
    ensures { GivesOf declared_of (d.declared (s.around names.now.typed.now names.now.values.items) taken declaration.now (g.given_datum (names_among names.now.typed.now) declaration.now.kind (option_map assignment_view (slice_get data.now number)))) result }
{
    match at(data, number) {
        None => place_declaration(alloc, names, taken, declaration, None),
        Some(datum) => {
            let code = typed_data(alloc, names.typed, declaration.kind, &datum.value)?;
            let given = Given {
                file: datum.place.file,
                code: lent(&code),
            };
            place_declaration(alloc, names, taken, declaration, Some(given))
        }
    }
}

fn lent(code: &Option<Boxed<Code>>) -> Option<&Code>
    ensures { option_copied result ≡ code.now }
{
    match code {
        Some(code) => Some(code.get()),
        None => None,
    }
}
