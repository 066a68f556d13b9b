//! Predicates and functions.

ghost use Rattle.std.specs.Prelude.{◌≡◌, ◌∷◌, ◌++◌, [], IfOk, option_map};
ghost use Rattle.ms_rows.specs.Forms.{Tells};
ghost use Rattle.ms_rows.specs.declared.fault.TypeFault.TheVariants as why;
ghost use Rattle.ms_syntax.specs.Tree.{ex_view, kind_view, params_view};
ghost use Rattle.ms_typing.specs.Items.{around_body, param_types, with_params};
ghost use Rattle.ms_typing.specs.Conversion.{as_known as known_type};
ghost use Rattle.ms_typing.specs.Least.{typing};
ghost use Rattle.ms_typing.specs.Term.{term_of};
ghost use Rattle.ms_code.specs.Code.{code_of, type_of};
ghost use Rattle.ms_code.specs.Items as code;
ghost use Rattle.ms_names.specs.Scopes.{names_of};
ghost use Rattle.ms_names.specs.Worlds.{world_view};
ghost use Rattle.ms_elaborator.specs.Answers.{TellsAll, TellsOf};
ghost use Rattle.ms_items.specs.Parts.{IsTyped, brought_to, checked, known_among};
ghost use Rattle.ms_items.specs.Walk as walk;

use crate::declared::bring_maybe;
use crate::nodes::{append, bring, push};
use ms_elaborator::{Elaborated, elaborate, kind_types};
use ms_names::{Scope, World, kind_sets, stands_parameter, type_of_kind};
use ms_rows::{Form, TypeFault, as_known, is_search, settle};
use ms_syntax::{Expr, Kind, Parameter, Place};
use ms_typing::{ExprType, Surroundings, typed_where_known};
use sqlite_items::Items;
use std::alloc::{AllocError, Global};

/// Where the body of a function with this result stands.
fn around(given: ExprType) -> Surroundings
    ensures { result ≡ around_body given }
{
    if is_search(given) {
        Surroundings::Search
    } else {
        Surroundings::Model
    }
}

/// A parameter of a search function or of another.
fn parameter(
    alloc: Global,
    world: &World,
    search: bool,
    place: Place,
    kind: &Kind,
) -> Result<ExprType, TypeFault>
    ensures { Tells (walk.walk_param (world_view world.now) search place (kind_view kind.now)) result }
{
    let types = kind_types(alloc, world, Surroundings::Model, &Scope::Outer, kind)?;
    let asked = kind_sets(alloc, kind)?;
    let form = Form::Declares(
        stands_parameter(search, kind),
        asked.as_slice(),
        type_of_kind(kind),
    );
    settle(alloc, place, &form, types.as_slice())
}

#[tactic(auto, using(crate::proofs::Walked::put))]
fn parameters(
    alloc: Global,
    world: &World,
    search: bool,
    list: &[Parameter],
) -> Result<Vec<ExprType>, TypeFault>
    ensures { TellsAll (λ v. v.items) (walk.walk_params (world_view world.now) search (params_view list.now)) result }
{
    let mut types = Vec::new(alloc);
    for one in list {
        let t = parameter(alloc, world, search, one.place, &one.kind)?;
        push(&mut types, t)?;
    }
    Ok(types)
}

/// What a function is declared to take.
fn taken(alloc: Global, list: &[Parameter]) -> Result<Vec<ExprType>, AllocError>
    ensures { IfOk result (λ types. types.items ≡ param_types (params_view list.now)) }
{
    let mut types = Vec::new(alloc);
    for one in list {
        push(&mut types, type_of_kind(&one.kind))?;
    }
    Ok(types)
}

/// The body of a function among its parameters.
fn body_of(
    alloc: Global,
    world: &World,
    around: Surroundings,
    outer: &Scope<'_>,
    list: &[Parameter],
    body: &Expr,
) -> Result<Elaborated, TypeFault>
    ensures typing { TellsOf (λ m. m.kind) (typing (term_of (world_view world.now) around
        (with_params (params_view list.now) (names_of outer.now)) (ex_view body.now))) result }
    ensures kind { IfOk result (λ m. m.kind ≡ type_of (world_view world.now) around (with_params (params_view list.now) (names_of outer.now)) (ex_view body.now)) }
    ensures code { IfOk result (λ m. m.code ≡ code_of (world_view world.now) around (with_params (params_view list.now) (names_of outer.now)) (ex_view body.now)) }
{
    let scope = Scope::Parameters(list, &*outer);
    elaborate(alloc, world, around, &scope, body)
}

/// The fault of what has a type: memory does not suffice.
fn want_of_memory(fault: TypeFault) -> AllocError
    requires { fault ≡ why.Memory }
{
    AllocError
}

/// A body that is typed in a model is typed where all is known.
fn typed_body(
    alloc: Global,
    world: &World,
    outer: &Scope<'_>,
    list: &[Parameter],
    body: &Expr,
) -> Result<Elaborated, AllocError>
    requires { IsTyped (typing (term_of (world_view world.now) Surroundings.Model (with_params (params_view list.now) (names_of outer.now)) (ex_view body.now))) }
    ensures kind { IfOk result (λ m. m.kind ≡ type_of (world_view world.now) Surroundings.Called (with_params (params_view list.now) (names_of outer.now)) (ex_view body.now)) }
    ensures code { IfOk result (λ m. m.code ≡ code_of (world_view world.now) Surroundings.Called (with_params (params_view list.now) (names_of outer.now)) (ex_view body.now)) }
{
    typed_where_known();
    match body_of(alloc, world, Surroundings::Called, outer, list, body) {
        Ok(found) => Ok(found),
        Err(fault) => Err(want_of_memory(fault)),
    }
}

/// The body of a function that is no search, where all is known.
fn known_body(
    alloc: Global,
    world: &World,
    outer: &Scope<'_>,
    given: ExprType,
    list: &[Parameter],
    body: &Expr,
) -> Result<Option<Elaborated>, AllocError>
    requires { IsTyped (typing (term_of (world_view world.now) (around_body given) (with_params (params_view list.now) (names_of outer.now)) (ex_view body.now))) }
    ensures { IfOk result (λ m. option_map (brought_to (known_type given)) m ≡ known_among (names_of outer.now) (world_view world.now) given (params_view list.now) (ex_view body.now)) }
{
    if is_search(given) {
        Ok(None)
    } else {
        Ok(Some(typed_body(alloc, world, outer, list, body)?))
    }
}

/// A function whose result names sets of these types, with parameters and a body of these types.
fn settle_function(
    alloc: Global,
    place: Place,
    stands: bool,
    mut types: Vec<ExprType>,
    mut asked: Vec<ExprType>,
    given: ExprType,
    list: &[Parameter],
    found: &[ExprType],
    body: ExprType,
) -> Result<Vec<ExprType>, TypeFault>
    ensures typing { TellsOf (λ _. tt) (checked (walk.at_function place stands types.items asked.items given (params_view list.now) found.now body)) result }
    ensures taken { IfOk result (λ types. types.items ≡ param_types (params_view list.now)) }
{
    append(&mut types, found)?;
    push(&mut types, body)?;
    let parameters = taken(alloc, list)?;
    append(&mut asked, parameters.as_slice())?;
    push(&mut asked, given)?;
    settle(
        alloc,
        place,
        &Form::Declares(stands, asked.as_slice(), given),
        types.as_slice(),
    )?;
    Ok(parameters)
}

/// A predicate or function, whose result names sets of these types: its parameters, its body, and
/// then itself.
pub(crate) fn function(
    alloc: Global,
    world: &World,
    place: Place,
    stands: bool,
    types: Vec<ExprType>,
    asked: Vec<ExprType>,
    given: ExprType,
    list: &[Parameter],
    body: &Expr,
) -> Result<ms_code::Function, TypeFault>
    ensures typing { TellsOf (λ _. tt) (checked (walk.walk_function (world_view world.now) place stands types.items asked.items given
        (params_view list.now) (ex_view body.now))) result }
    ensures tree { IfOk result (λ f. f ≡ code.function_code (world_view world.now) place (params_view list.now) given (ex_view body.now)) }
{
    let found = parameters(alloc, world, is_search(given), list)?;
    let model = body_of(alloc, world, around(given), &Scope::Outer, list, body)?;
    let taken = settle_function(
        alloc,
        place,
        stands,
        types,
        asked,
        given,
        list,
        found.as_slice(),
        model.kind,
    )?;
    let known = known_body(alloc, world, &Scope::Outer, given, list, body)?;
    Ok(ms_code::Function {
        place,
        parameters: Items::from_vec(taken),
        result: given,
        body: bring(given, model),
        known_body: bring_maybe(as_known(given), known),
    })
}
