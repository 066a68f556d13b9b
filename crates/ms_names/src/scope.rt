//! The names around an expression that stand inside an item.

ghost use Rattle.std.specs.Prelude.{◌≡◌, suc, [], IfOk};
ghost use Rattle.ms_syntax.specs.Tree.{decls_view, gens_view, names_view, params_view};
ghost use Rattle.ms_typing.specs.Items.{with_params};
ghost use Rattle.ms_typing.specs.Term.{with_gens, with_locals, with_names};
ghost use Rattle.ms_names.specs.Looked.{looked};
ghost use Rattle.ms_names.specs.Scopes.{names_of};

use crate::kinds::type_of_kind;
use ms_rows::numbers;
use ms_syntax::{Binder, Declaration, Generator, Parameter};
use ms_typing::ExprType;
use std::alloc::AllocError;

/// The names around an expression that stand inside an item, the latest first: a list on the
/// stack, which takes no memory. Contracts see it through `names_of`.
#[derive(Clone, Copy)]
pub enum Scope<'a> {
    Outer,
    /// Those of locals, and what stands around the `let`.
    Locals(&'a [Declaration], &'a Scope<'a>),
    /// Those of generators.
    Generators(&'a [Generator], &'a Scope<'a>),
    /// Those of the parameters of a function.
    Parameters(&'a [Parameter], &'a Scope<'a>),
}

/// What a look among names gives.
#[derive(Clone, Copy)]
pub(crate) enum Looked {
    /// The number and the type of the first that is declared so.
    Found(usize, ExprType),
    /// None; the number that comes behind them.
    Passed(usize),
}

/// The next number. There are no more names than a `usize` counts.
fn next(number: usize) -> Result<usize, AllocError>
    ensures { IfOk result (λ next. next ≡ suc number) }
{
    number.checked_add(1).ok_or(AllocError)
}

fn look_in_locals(locals: &[Declaration], name: &[u8], first: usize) -> Result<Looked, AllocError>
    ensures { IfOk result (λ found. found ≡ looked first (with_locals (decls_view locals.now) []) name.now) }
{
    let mut rest = locals;
    let mut number = first;
    while let Some((local, others)) = rest.split_last() {
        if local.name.as_slice() == name {
            return Ok(Looked::Found(number, type_of_kind(&local.kind)));
        }
        number = next(number)?;
        rest = others;
    }
    Ok(Looked::Passed(number))
}

fn look_in_parameters(
    parameters: &[Parameter],
    name: &[u8],
    first: usize,
) -> Result<Looked, AllocError>
    ensures { IfOk result (λ found. found ≡ looked first (with_params (params_view parameters.now) []) name.now) }
{
    let mut rest = parameters;
    let mut number = first;
    while let Some((parameter, others)) = rest.split_last() {
        if parameter.name.as_slice() == name {
            return Ok(Looked::Found(number, type_of_kind(&parameter.kind)));
        }
        number = next(number)?;
        rest = others;
    }
    Ok(Looked::Passed(number))
}

/// Each name of a generator is an integer.
fn look_in_binders(binders: &[Binder], name: &[u8], first: usize) -> Result<Looked, AllocError>
    ensures { IfOk result (λ found. found ≡ looked first (with_names (names_view binders.now) []) name.now) }
{
    let mut rest = binders;
    let mut number = first;
    while let Some((binder, others)) = rest.split_last() {
        if binder.name.as_slice() == name {
            return Ok(Looked::Found(number, numbers(true)));
        }
        number = next(number)?;
        rest = others;
    }
    Ok(Looked::Passed(number))
}

fn look_in_generators(
    generators: &[Generator],
    name: &[u8],
    first: usize,
) -> Result<Looked, AllocError>
    ensures { IfOk result (λ found. found ≡ looked first (with_gens (gens_view generators.now) []) name.now) }
{
    let mut rest = generators;
    let mut number = first;
    while let Some((generator, others)) = rest.split_last() {
        match look_in_binders(generator.names.as_slice(), name, number)? {
            Looked::Found(found, t) => return Ok(Looked::Found(found, t)),
            Looked::Passed(passed) => number = passed,
        }
        rest = others;
    }
    Ok(Looked::Passed(number))
}

/// Looks for a name among those of a scope, where the latest has this number.
pub(crate) fn look_inside(
    scope: &Scope<'_>,
    name: &[u8],
    first: usize,
) -> Result<Looked, AllocError>
    ensures { IfOk result (λ found. found ≡ looked first (names_of scope.now) name.now) }
{
    match scope {
        Scope::Outer => Ok(Looked::Passed(first)),
        Scope::Locals(locals, outer) => match look_in_locals(locals, name, first)? {
            Looked::Found(number, t) => Ok(Looked::Found(number, t)),
            Looked::Passed(number) => look_inside(outer, name, number),
        },
        Scope::Generators(generators, outer) => {
            match look_in_generators(generators, name, first)? {
                Looked::Found(number, t) => Ok(Looked::Found(number, t)),
                Looked::Passed(number) => look_inside(outer, name, number),
            }
        }
        Scope::Parameters(parameters, outer) => {
            match look_in_parameters(parameters, name, first)? {
                Looked::Found(number, t) => Ok(Looked::Found(number, t)),
                Looked::Passed(number) => look_inside(outer, name, number),
            }
        }
    }
}
