//! The calls of this crate.

ghost use Rattle.std.specs.Prelude.{◌≡◌, IfOk};
ghost use Rattle.ms_rows.specs.Forms.{Tells};
ghost use Rattle.ms_syntax.specs.Tree.{ex_view, kind_view};
ghost use Rattle.ms_typing.specs.Least.{typing, typings};
ghost use Rattle.ms_typing.specs.Term.{kind_terms, term_of};
ghost use Rattle.ms_code.specs.Code.{code_of};
ghost use Rattle.ms_names.specs.Scopes.{names_of};
ghost use Rattle.ms_names.specs.Worlds.{world_view};
ghost use Rattle.ms_elaborator.specs.Answers.{TellsAll, TellsOf};

use crate::named::Context;
use crate::walk::{check, check_kind};
use ms_names::{Scope, World};
use ms_nodes::Elaborated;
use ms_rows::TypeFault;
use ms_syntax::{Expr, Kind};
use ms_typing::{ExprType, Surroundings};
use std::alloc::Global;

/// The least type and the typed tree of an expression among the names around it, or its first fault.
pub fn elaborate(
    alloc: Global,
    world: &World,
    around: Surroundings,
    scope: &Scope<'_>,
    e: &Expr,
) -> Result<Elaborated, TypeFault>
    ensures typing { TellsOf (λ m. m.kind) (typing (term_of (world_view world.now) around (names_of scope.now) (ex_view e.now))) result }
    ensures code { IfOk result (λ m. m.code ≡ code_of (world_view world.now) around (names_of scope.now) (ex_view e.now)) }
{
    let context = Context {
        alloc,
        world,
        around,
    };
    check(&context, scope, e)
}

/// The least type of an expression among the names around it, or its first fault.
#[tactic(auto, using(crate::proofs::Told::told_alike))]
pub fn least_type(
    alloc: Global,
    world: &World,
    around: Surroundings,
    scope: &Scope<'_>,
    e: &Expr,
) -> Result<ExprType, TypeFault>
    ensures { Tells (typing (term_of (world_view world.now) around (names_of scope.now) (ex_view e.now))) result }
{
    match elaborate(alloc, world, around, scope, e) {
        Ok(elaborated) => Ok(elaborated.kind),
        Err(fault) => Err(fault),
    }
}

/// The least types of the sets that a kind names, in the order of the text, or the first fault among them.
pub fn kind_types(
    alloc: Global,
    world: &World,
    around: Surroundings,
    scope: &Scope<'_>,
    kind: &Kind,
) -> Result<Vec<ExprType>, TypeFault>
    ensures { TellsAll (λ v. v.items) (typings (kind_terms (world_view world.now) around (names_of scope.now) (kind_view kind.now))) result }
{
    let context = Context {
        alloc,
        world,
        around,
    };
    check_kind(&context, scope, kind)
}
