//! Declarations that are items.

ghost use Rattle.std.specs.Prelude.{◌≡◌, ◌∷◌, ◌++◌, [], IfOk, option_map};
ghost use Rattle.ms_rows.specs.Forms.{Tells};
ghost use Rattle.ms_syntax.specs.Tree.{base_view, declaration_view, index_view, indices_view, maybe_view};
ghost use Rattle.ms_code.specs.Code.{maybe_code};
ghost use Rattle.ms_code.specs.Items as code;
ghost use Rattle.ms_names.specs.Worlds.{world_view};
ghost use Rattle.ms_elaborator.specs.Answers.{TellsOf};
ghost use Rattle.ms_items.specs.Parts.{brought_to, checked, codes_of, kinds_of};
ghost use Rattle.ms_items.specs.Walk as walk;

use crate::nodes::{bring, push};
use ms_code::Code;
use ms_elaborator::{Elaborated, elaborate};
use ms_names::{Scope, World, declared_parts, stands_outside, type_of_kind};
use ms_rows::{Form, TypeFault, settle};
use ms_syntax::{Base, Declaration, Expr, Index};
use ms_typing::{ExprType, Surroundings};
use sqlite_items::Items;
use std::alloc::{AllocError, Global};

/// Index sets: their types, in the order of the text, and their typed trees; none where `int` stands.
#[derive(Drop)]
struct IndexSets {
    types: Vec<ExprType>,
    codes: Items<Option<Code>>,
}

/// An index set, if there is one.
fn index(alloc: Global, world: &World, index: &Index) -> Result<Option<Elaborated>, TypeFault>
    ensures typing { TellsOf (λ m. kinds_of m) (walk.walk_maybe (world_view world.now) (index_view index.now)) result }
    ensures code { IfOk result (λ m. codes_of m ≡ maybe_code (world_view world.now) Surroundings.Model [] (index_view index.now)) }
{
    match index {
        Index::AnyInt => Ok(None),
        Index::Over(e) => Ok(Some(elaborate(alloc, world, Surroundings::Model, &Scope::Outer, e)?)),
    }
}

/// Adds an index set to others.
fn add_index(found: &mut IndexSets, one: Option<Elaborated>) -> Result<(), AllocError>
    ensures types { IfOk result (λ _. found.new.types.items ≡ found.old.types.items ++ kinds_of one) }
    ensures codes { IfOk result (λ _. found.new.codes ≡ found.old.codes ++ codes_of one ∷ []) }
{
    match one {
        None => {
            found.codes.push(None)?;
            Ok(())
        }
        Some(Elaborated { kind, code }) => {
            found.codes.push(Some(code.into_inner()))?;
            push(&mut found.types, kind)?;
            Ok(())
        }
    }
}

/// The index sets of an array.
#[tactic(auto, using(crate::proofs::Walked::put_all))]
fn indices(alloc: Global, world: &World, list: &[Index]) -> Result<IndexSets, TypeFault>
    ensures typing { TellsOf (λ found. found.types.items) (walk.walk_indices (world_view world.now) (indices_view list.now)) result }
    ensures codes { IfOk result (λ found. found.codes ≡ code.indices_code (world_view world.now) (indices_view list.now)) }
{
    let mut found = IndexSets {
        types: Vec::new(alloc),
        codes: Items::new(alloc),
    };
    for one in list {
        add_index(&mut found, index(alloc, world, one)?)?;
    }
    Ok(found)
}

/// The set that the values come from, if there is one.
fn within(alloc: Global, world: &World, base: &Base) -> Result<Option<Elaborated>, TypeFault>
    ensures typing { TellsOf (λ m. kinds_of m) (walk.walk_base (world_view world.now) (base_view base.now)) result }
    ensures code { IfOk result (λ m. codes_of m ≡ code.within_code (world_view world.now) (base_view base.now)) }
{
    match base {
        Base::SetOf(e) => Ok(Some(elaborate(alloc, world, Surroundings::Model, &Scope::Outer, e)?)),
        Base::Within(e) => Ok(Some(elaborate(
            alloc,
            world,
            Surroundings::Model,
            &Scope::Outer,
            e,
        )?)),
        _ => Ok(None),
    }
}

/// The value, if there is one.
fn value(
    alloc: Global,
    world: &World,
    value: &Option<Expr>,
) -> Result<Option<Elaborated>, TypeFault>
    ensures typing { TellsOf (λ m. kinds_of m) (walk.walk_maybe (world_view world.now) (maybe_view value.now)) result }
    ensures code { (t : ExprType) → IfOk result (λ m. option_map (brought_to t) m ≡ code.asked_maybe t (world_view world.now) Surroundings.Model [] (maybe_view value.now)) }
{
    match value {
        Some(e) => Ok(Some(elaborate(alloc, world, Surroundings::Model, &Scope::Outer, e)?)),
        None => Ok(None),
    }
}

/// Adds the type of a part, if there is one.
fn add_kind(types: &mut Vec<ExprType>, part: &Option<Elaborated>) -> Result<(), AllocError>
    ensures { IfOk result (λ _. types.new.items ≡ types.old.items ++ kinds_of part.now) }
{
    match part {
        Some(found) => push(types, found.kind),
        None => Ok(()),
    }
}

/// The type of a declaration whose parts have these types.
fn settle_parts(alloc: Global, one: &Declaration, types: &[ExprType]) -> Result<ExprType, TypeFault>
    ensures { Tells (walk.at_declaration (declaration_view one.now) types.now) result }
{
    let t = type_of_kind(&one.kind);
    let asked = declared_parts(alloc, &one.kind, t, &one.value)?;
    let form = Form::Declares(stands_outside(&one.kind), asked.as_slice(), t);
    settle(alloc, one.place, &form, types)
}

/// The typed tree of a part, if there is one, as it is.
fn code_of_part(part: Option<Elaborated>) -> Option<Code>
    ensures { result ≡ codes_of part }
{
    match part {
        Some(found) => Some(found.code.into_inner()),
        None => None,
    }
}

/// A value, if there is one, brought to this type.
pub(crate) fn bring_maybe(asked: ExprType, found: Option<Elaborated>) -> Option<Code>
    ensures { result ≡ option_map (brought_to asked) found }
{
    match found {
        Some(value) => Some(bring(asked, value)),
        None => None,
    }
}

/// A declaration that is an item: its index sets, its range, its value, and then itself.
pub(crate) fn declaration(
    alloc: Global,
    world: &World,
    one: &Declaration,
) -> Result<ms_code::Declaration, TypeFault>
    ensures typing { TellsOf (λ _. tt) (checked (walk.walk_declaration (world_view world.now) (declaration_view one.now))) result }
    ensures tree { IfOk result (λ d. d ≡ code.declaration_code (world_view world.now) (declaration_view one.now)) }
{
    let IndexSets { mut types, codes } = indices(alloc, world, one.kind.indices.as_slice())?;
    let within = within(alloc, world, &one.kind.base)?;
    add_kind(&mut types, &within)?;
    let value = value(alloc, world, &one.value)?;
    add_kind(&mut types, &value)?;
    settle_parts(alloc, one, types.as_slice())?;
    let kind = type_of_kind(&one.kind);
    Ok(ms_code::Declaration {
        place: one.place,
        kind,
        indices: codes,
        within: code_of_part(within),
        value: bring_maybe(kind, value),
    })
}
