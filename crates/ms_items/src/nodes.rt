//! Nodes over one expression, and expressions brought to a type.

ghost use Rattle.std.specs.Prelude.{◌≡◌, ◌∷◌, ◌++◌, [], IfOk};
ghost use Rattle.ms_rows.specs.Forms.{form_of};
ghost use Rattle.ms_syntax.specs.Tree.{ex_view};
ghost use Rattle.ms_code.specs.Code.{code_of, type_of};
ghost use Rattle.ms_code.specs.Items.{asked_code};
ghost use Rattle.ms_names.specs.Worlds.{world_view};
ghost use Rattle.ms_elaborator.specs.Answers.{TellsOf};
ghost use Rattle.ms_items.specs.Parts.{brought_to, checked};
ghost use Rattle.ms_items.specs.Walk as walk;

use ms_code::Code;
use ms_elaborator::{Elaborated, elaborate};
use ms_names::{Scope, World};
use ms_rows::{Form, TypeFault, converts, settle};
use ms_syntax::{Expr, Place};
use ms_typing::{ExprType, Surroundings};
use std::alloc::{AllocError, Global};

/// Adds a type to a list.
pub(crate) fn push(types: &mut Vec<ExprType>, t: ExprType) -> Result<(), AllocError>
    ensures { IfOk result (λ _. types.new.items ≡ types.old.items ++ t ∷ []) }
{
    types.push(t)?;
    Ok(())
}

/// Adds types to a list.
pub(crate) fn append(types: &mut Vec<ExprType>, more: &[ExprType]) -> Result<(), AllocError>
    ensures { IfOk result (λ _. types.new.items ≡ types.old.items ++ more.now) }
{
    types.extend_from_slice(more)?;
    Ok(())
}

/// The typed tree of an expression that is brought to this type.
pub(crate) fn bring(asked: ExprType, found: Elaborated) -> Code
    ensures { result ≡ brought_to asked found }
{
    let Elaborated { kind, code } = found;
    if converts(asked, kind) {
        code.into_inner()
    } else {
        Code::Convert(asked, code)
    }
}

/// A node over one expression: the expression's type and typed tree.
pub(crate) fn over(
    alloc: Global,
    world: &World,
    around: Surroundings,
    place: Place,
    form: &Form<'_>,
    e: &Expr,
) -> Result<Elaborated, TypeFault>
    ensures typing { TellsOf (λ _. tt) (checked (walk.walk_over (world_view world.now) around place (form_of form.now) (ex_view e.now))) result }
    ensures kind { IfOk result (λ m. m.kind ≡ type_of (world_view world.now) around [] (ex_view e.now)) }
    ensures code { IfOk result (λ m. m.code ≡ code_of (world_view world.now) around [] (ex_view e.now)) }
{
    let found = elaborate(alloc, world, around, &Scope::Outer, e)?;
    settle(alloc, place, form, &[found.kind])?;
    Ok(found)
}

/// A node over one expression that is brought to this type.
pub(crate) fn asked_over(
    alloc: Global,
    world: &World,
    around: Surroundings,
    place: Place,
    form: &Form<'_>,
    asked: ExprType,
    e: &Expr,
) -> Result<Code, TypeFault>
    ensures typing { TellsOf (λ _. tt) (checked (walk.walk_over (world_view world.now) around place (form_of form.now) (ex_view e.now))) result }
    ensures code { IfOk result (λ c. c ≡ asked_code asked (world_view world.now) around [] (ex_view e.now)) }
{
    Ok(bring(asked, over(alloc, world, around, place, form, e)?))
}
