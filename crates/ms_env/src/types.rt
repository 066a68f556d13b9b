//! Types and typed trees of expressions among an env's names.

ghost use Rattle.std.specs.Prelude.{◌≡◌, IfOk};
ghost use Rattle.ms_syntax.specs.Tree.{ex_view, params_view};
ghost use Rattle.ms_typing.specs.Items.{with_params};
ghost use Rattle.ms_typing.specs.Least.{typing};
ghost use Rattle.ms_typing.specs.Term.{term_of};
ghost use Rattle.ms_names.specs.Scopes.{names_of};
ghost use Rattle.ms_code.specs.Code.{code_of, type_of as least_type};
ghost use Rattle.ms_elaborator.specs.Answers.{TellsOf};
ghost use Rattle.ms_rows.specs.declared.fault.TypeFault.TheVariants as why;
ghost use Rattle.ms_items.specs.Parts.{IsTyped};
ghost use Rattle.ms_types.specs.Texts.{names_among};
ghost use Rattle.ms_env.specs.Entries.{counted as counted_of, element_counted as element_of, entries_of};
ghost use Rattle.ms_env.specs.Envs as e;

use crate::env::Env;
use crate::names::parameters_of;
use ms_names::Scope;
use ms_syntax::{Expr, Parameter};
use ms_types::{Elaborated, TypeFault, Typed, check_expression};
use ms_typing::{ExprType, Scalar, Surroundings};
use std::alloc::{AllocError, Global};

fn element_counted(scalar: Scalar) -> Scalar
    ensures { result ≡ element_of scalar }
{
    match scalar {
        Scalar::Truth => Scalar::Truth,
        Scalar::Number => Scalar::Number,
        Scalar::Empty => Scalar::Number,
    }
}

fn counted(kind: ExprType) -> ExprType
    ensures { result ≡ counted_of kind }
{
    match kind {
        ExprType::Plain(scalar, shape, known) => {
            ExprType::Plain(element_counted(scalar), shape, known)
        }
        ExprType::Text(shape) => ExprType::Text(shape),
        ExprType::Set => ExprType::Set,
        ExprType::Search => ExprType::Search,
    }
}

// An expression of a search, among these names.
fn checked(
    alloc: Global,
    typed: &Typed,
    outer: &Scope<'_>,
    list: &[Parameter],
    expression: &Expr,
) -> Result<Elaborated, TypeFault>
    ensures typing { TellsOf (λ m. m.kind) (typing (term_of (names_among typed.now) Surroundings.Search (with_params (params_view list.now) (names_of outer.now)) (ex_view expression.now))) result }
    ensures kind { IfOk result (λ m. m.kind ≡ least_type (names_among typed.now) Surroundings.Search (with_params (params_view list.now) (names_of outer.now)) (ex_view expression.now)) }
    ensures code { IfOk result (λ m. m.code ≡ code_of (names_among typed.now) Surroundings.Search (with_params (params_view list.now) (names_of outer.now)) (ex_view expression.now)) }
{
    let scope = Scope::Parameters(list, &*outer);
    check_expression(alloc, typed, Surroundings::Search, &scope, expression)
}

// The fault of what has a type: memory does not suffice.
fn want_of_memory(fault: TypeFault) -> AllocError
    requires { fault ≡ why.Memory }
{
    AllocError
}

fn elaborated_among(
    alloc: Global,
    typed: &Typed,
    outer: &Scope<'_>,
    list: &[Parameter],
    expression: &Expr,
) -> Result<Elaborated, AllocError>
    requires { IsTyped (typing (term_of (names_among typed.now) Surroundings.Search (with_params (params_view list.now) (names_of outer.now)) (ex_view expression.now))) }
    ensures kind { IfOk result (λ m. m.kind ≡ least_type (names_among typed.now) Surroundings.Search (with_params (params_view list.now) (names_of outer.now)) (ex_view expression.now)) }
    ensures code { IfOk result (λ m. m.code ≡ code_of (names_among typed.now) Surroundings.Search (with_params (params_view list.now) (names_of outer.now)) (ex_view expression.now)) }
{
    match checked(alloc, typed, outer, list, expression) {
        Ok(found) => Ok(found),
        Err(fault) => Err(want_of_memory(fault)),
    }
}

/// The least type of an expression that has one among the names of a model and those of an env, with its typed tree.
pub fn elaborated(
    alloc: Global,
    typed: &Typed,
    expression: &Expr,
    env: &Env,
) -> Result<Elaborated, AllocError>
    requires { e.IsTypedIn (names_among typed.now) (entries_of env.now) (ex_view expression.now) }
    ensures kind { IfOk result (λ m. m.kind ≡ e.type_in (names_among typed.now) (entries_of env.now) (ex_view expression.now)) }
    ensures code { IfOk result (λ m. m.code ≡ e.code_in (names_among typed.now) (entries_of env.now) (ex_view expression.now)) }
{
    let parameters = parameters_of(alloc, env.entries.as_slice())?;
    elaborated_among(
        alloc,
        typed,
        &Scope::Outer,
        parameters.as_slice(),
        expression,
    )
}

/// The type of an expression among the names of a model and those of an env, before any conversion. An array without elements
/// counts as one of known integers.
pub fn type_of(
    alloc: Global,
    typed: &Typed,
    expression: &Expr,
    env: &Env,
) -> Result<ExprType, AllocError>
    requires { e.IsTypedIn (names_among typed.now) (entries_of env.now) (ex_view expression.now) }
    ensures { IfOk result (λ t. t ≡ counted_of (e.type_in (names_among typed.now) (entries_of env.now) (ex_view expression.now))) }
{
    let found = elaborated(alloc, typed, expression, env)?;
    Ok(counted(found.kind))
}
