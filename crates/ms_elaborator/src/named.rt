//! Nodes with names.

ghost use Rattle.std.specs.Prelude.{◌≡◌, ◌∷◌, [], ◌++◌, IfOk};
ghost use Rattle.ms_rows.specs.Forms.{Tells, told_of};
ghost use Rattle.ms_syntax.specs.Tree.{generators_view};
ghost use Rattle.ms_typing.specs.Meaning.{look, tell as told_as};
ghost use Rattle.ms_typing.specs.Term as f;
ghost use Rattle.ms_code.specs.Code.{led};
ghost use Rattle.ms_code.specs.References.{refer};
ghost use Rattle.ms_names.specs.Scopes.{names_of};
ghost use Rattle.ms_names.specs.Worlds.{world_view};
ghost use Rattle.ms_nodes.specs.Parts.{source_kinds as source_kinds_of};
ghost use Rattle.ms_elaborator.specs.Elaborate as spec;
ghost use Rattle.ms_elaborator.specs.Walk.{at_node};

use crate::asked::{asked_of, is_one_name};
use crate::ends::node;
use ms_code::{Code, Reference};
use ms_names::{Scope, World, tell};
use ms_nodes::{
    Elaborated, Sources, call, generator_call, generators as generators_made, kinds, made, push,
    source_kinds,
};
use ms_rows::{Form, Told, TypeFault};
use ms_syntax::{Generators, Place, Word};
use ms_typing::{ExprType, Surroundings};
use std::alloc::{AllocError, Global};

/// What stands around a whole expression.
#[derive(Clone, Copy)]
pub(crate) struct Context<'a> {
    pub(crate) alloc: Global,
    pub(crate) world: &'a World,
    pub(crate) around: Surroundings,
}

/// What a name is told as, and which declaration it stands for.
#[derive(Clone, Copy)]
struct Known<'a> {
    told: Told<'a>,
    reference: Reference,
}

fn find<'a>(
    context: &Context<'a>,
    scope: &Scope<'_>,
    place: Place,
    name: &Word,
) -> Result<Known<'a>, AllocError>
    ensures told { IfOk result (λ k. told_of k.told ≡ told_as context.now.around (look (world_view context.now.world.now) place (names_of scope.now) name.now)) }
    ensures reference { IfOk result (λ k. k.reference ≡ led (refer (world_view context.now.world.now) place (names_of scope.now) name.now)) }
{
    match context.world.find(place, scope, name)? {
        Some(found) => Ok(Known {
            told: tell(context.around, Some(found.meaning)),
            reference: found.reference,
        }),
        None => Ok(Known {
            told: tell(context.around, None),
            reference: Reference::Local(0),
        }),
    }
}

/// A name by itself.
pub(crate) fn name_node(
    context: &Context<'_>,
    scope: &Scope<'_>,
    place: Place,
    name: &Word,
) -> Result<Elaborated, TypeFault>
    ensures { Tells (spec.elab_name (world_view context.now.world.now) context.now.around (names_of scope.now) place name.now) result }
{
    let known = find(context, scope, place, name)?;
    let kind = node(context.alloc, place, &Form::Stands(known.told), &[])?;
    Ok(made(context.alloc, kind, Code::Name(place, known.reference))?)
}

/// A name with arguments.
pub(crate) fn call_node(
    context: &Context<'_>,
    scope: &Scope<'_>,
    place: Place,
    name: &Word,
    arguments: Vec<Elaborated>,
) -> Result<Elaborated, TypeFault>
    ensures { Tells (spec.elab_call (world_view context.now.world.now) context.now.around (names_of scope.now) place name.now arguments.items) result }
{
    let known = find(context, scope, place, name)?;
    let types = kinds(context.alloc, arguments.as_slice())?;
    let kind = node(
        context.alloc,
        place,
        &Form::Calls(known.told),
        types.as_slice(),
    )?;
    Ok(call(
        context.alloc,
        place,
        kind,
        &known.told,
        known.reference,
        arguments,
    )?)
}

/// The type of a name with generators.
fn generator_type(
    alloc: Global,
    place: Place,
    told: Told<'_>,
    generators: &Generators,
    sources: &Sources,
    element: ExprType,
) -> Result<ExprType, TypeFault>
    ensures { Tells (at_node place (f.generates (told_of told.entry)
        (f.generator_types (generators_view generators.now).0 (generators_view generators.now).1)
        (f.is_one_name (generators_view generators.now).0 (generators_view generators.now).1))
        (source_kinds_of (sources.now.list.items, sources.now.condition) ++ element ∷ [])) result }
{
    let mut types = source_kinds(alloc, sources)?;
    push(&mut types, element)?;
    let asked = asked_of(alloc, generators)?;
    let one = is_one_name(generators);
    node(
        alloc,
        place,
        &Form::Generates(told, asked.as_slice(), one),
        types.as_slice(),
    )
}

/// A name with generators and its element.
pub(crate) fn generator_node(
    context: &Context<'_>,
    scope: &Scope<'_>,
    place: Place,
    name: &Word,
    generators: &Generators,
    sources: Sources,
    element: Elaborated,
) -> Result<Elaborated, TypeFault>
    ensures { Tells (spec.elab_gathering (world_view context.now.world.now) context.now.around (names_of scope.now) place name.now
        (generators_view generators.now).0 (generators_view generators.now).1
        (sources.list.items, sources.condition) element) result }
{
    let known = find(context, scope, place, name)?;
    let kind = generator_type(
        context.alloc,
        place,
        known.told,
        generators,
        &sources,
        element.kind,
    )?;
    let list = generators_made(context.alloc, sources)?;
    Ok(generator_call(
        context.alloc,
        place,
        kind,
        &known.told,
        known.reference,
        list,
        element,
    )?)
}
