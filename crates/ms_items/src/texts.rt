//! Items, one after the other.

ghost use Rattle.std.specs.Prelude.{◌≡◌, [], true, false, map, IfOk, None, Some};
ghost use Rattle.ms_rows.specs.Forms.{Tells, form_of};
ghost use Rattle.ms_syntax.specs.Tree.{ex_view, goal_view, item_view, kind_view, notes_view, params_view};
ghost use Rattle.ms_typing.specs.Items.{assigned, items_terms, item_terms, orders_search as orders, own_names};
ghost use Rattle.ms_typing.specs.Conversion.{truths as as_truths};
ghost use Rattle.ms_typing.specs.Kinds.{kind_sets as sets_of, stands_result as result_stands, type_of_kind as kind_type};
ghost use Rattle.ms_typing.specs.Least.{and_then, typings};
ghost use Rattle.ms_typing.specs.Meaning.{declared};
ghost use Rattle.ms_typing.specs.Term.{kind_terms};
ghost use Rattle.ms_typing.specs.Term as f;
ghost use Rattle.ms_code.specs.Items as code;
ghost use Rattle.ms_names.specs.Assigned.{assigns};
ghost use Rattle.ms_names.specs.Worlds.{world_view};
ghost use Rattle.ms_elaborator.specs.Answers.{TellsOf};
ghost use Rattle.ms_items.specs.Parts.{checked, output_code};
ghost use Rattle.ms_items.specs.Walk as walk;

use crate::declared::declaration;
use crate::functions::function;
use crate::nodes::{asked_over, bring, over};
use ms_code::Code;
use ms_elaborator::kind_types;
use ms_names::{Scope, World, kind_sets, stands_result, type_of_kind};
use ms_rows::{Form, TypeFault, known_of, numbers, settle, shape_of, truths};
use ms_syntax::{Expr, Goal, Item, Kind, Note, Parameter, Place, Word};
use ms_typing::{ExprType, Surroundings};
use sqlite_items::Items;
use std::alloc::Global;

/// Whether an annotation of the solve item names an order of branching.
fn orders_search(name: &Word) -> bool
    ensures { result ≡ orders name.now }
{
    name.as_slice() == b"int_search".as_slice() || name.as_slice() == b"bool_search".as_slice()
}

/// The annotations of the solve item: the first that names an order of branching is not supported.
fn notes(alloc: Global, list: &[Note]) -> Result<(), TypeFault>
    ensures { Tells (walk.walk_notes (notes_view list.now)) result }
{
    for note in list {
        if orders_search(&note.name) {
            settle(alloc, note.place, &Form::Unsupported, &[])?;
            return Ok(());
        }
    }
    Ok(())
}

/// What is minimized or maximized: an integer, known or variable as it is.
fn objective(alloc: Global, world: &World, place: Place, e: &Expr) -> Result<Code, TypeFault>
    ensures typing { TellsOf (λ _. tt) (checked (walk.walk_over (world_view world.now) Surroundings.Model place f.optimizes (ex_view e.now))) result }
    ensures code { IfOk result (λ c. c ≡ code.objective_code (world_view world.now) (ex_view e.now)) }
{
    let found = over(
        alloc,
        world,
        Surroundings::Model,
        place,
        &Form::Optimizes,
        e,
    )?;
    Ok(bring(numbers(known_of(found.kind)), found))
}

fn goal(alloc: Global, world: &World, place: Place, goal: &Goal) -> Result<ms_code::Goal, TypeFault>
    ensures typing { TellsOf (λ _. tt) (checked (walk.walk_goal (world_view world.now) place (goal_view goal.now))) result }
    ensures tree { IfOk result (λ g. g ≡ code.goal_code (world_view world.now) (goal_view goal.now)) }
{
    match goal {
        Goal::Satisfy(_) => {
            settle(alloc, place, &Form::Satisfies, &[])?;
            Ok(ms_code::Goal::Satisfy)
        }
        Goal::Minimize(_, e) => Ok(ms_code::Goal::Minimize(objective(alloc, world, place, e)?)),
        Goal::Maximize(_, e) => Ok(ms_code::Goal::Maximize(objective(alloc, world, place, e)?)),
        Goal::Search(_, e) => Ok(ms_code::Goal::Search(asked_over(
            alloc,
            world,
            Surroundings::Search,
            place,
            &Form::Searches,
            ExprType::Search,
            e,
        )?)),
    }
}

/// A value for a name that the items of its own text declare.
fn assigned_value(
    alloc: Global,
    world: &World,
    place: Place,
    number: usize,
    asked: ExprType,
    value: &Expr,
) -> Result<ms_code::Item, TypeFault>
    ensures typing { TellsOf (λ _. tt) (checked (walk.walk_over (world_view world.now) Surroundings.Model place (assigns (Some (number, asked))) (ex_view value.now))) result }
    ensures tree { IfOk result (λ i. i ≡ code.assignment_code (world_view world.now) place (ex_view value.now) (Some (number, asked))) }
{
    Ok(ms_code::Item::Assign(
        place,
        Some(number),
        asked_over(
            alloc,
            world,
            Surroundings::Model,
            place,
            &Form::Assigns(asked),
            asked,
            value,
        )?,
    ))
}

/// A value for no such name.
fn given_value(
    alloc: Global,
    world: &World,
    place: Place,
    value: &Expr,
) -> Result<ms_code::Item, TypeFault>
    ensures typing { TellsOf (λ _. tt) (checked (walk.walk_over (world_view world.now) Surroundings.Model place (assigns None) (ex_view value.now))) result }
    ensures tree { IfOk result (λ i. i ≡ code.assignment_code (world_view world.now) place (ex_view value.now) None) }
{
    let found = over(
        alloc,
        world,
        Surroundings::Model,
        place,
        &Form::Gives,
        value,
    )?;
    Ok(ms_code::Item::Assign(place, None, found.code.into_inner()))
}

fn assignment(
    alloc: Global,
    world: &World,
    place: Place,
    name: &Word,
    value: &Expr,
) -> Result<ms_code::Item, TypeFault>
    ensures typing { TellsOf (λ _. tt) (checked (walk.walk_over (world_view world.now) Surroundings.Model place (assigned (declared (own_names (world_view world.now) place) name.now)) (ex_view value.now))) result }
    ensures tree { IfOk result (λ i. i ≡ code.assignment_code (world_view world.now) place (ex_view value.now) (code.value_among (own_names (world_view world.now) place) name.now)) }
{
    match world.assigned(place, name) {
        Some((number, asked)) => assigned_value(alloc, world, place, number, asked, value),
        None => given_value(alloc, world, place, value),
    }
}

fn output(alloc: Global, world: &World, place: Place, e: &Expr) -> Result<Code, TypeFault>
    ensures typing { TellsOf (λ _. tt) (checked (walk.walk_over (world_view world.now) Surroundings.Output place f.outputs (ex_view e.now))) result }
    ensures code { IfOk result (λ c. c ≡ output_code (world_view world.now) (ex_view e.now)) }
{
    let found = over(alloc, world, Surroundings::Output, place, &Form::Outputs, e)?;
    Ok(bring(ExprType::Text(shape_of(found.kind)), found))
}

fn predicate(
    alloc: Global,
    world: &World,
    place: Place,
    list: &[Parameter],
    body: &Expr,
) -> Result<ms_code::Function, TypeFault>
    ensures typing { TellsOf (λ _. tt) (checked (walk.walk_function (world_view world.now) place true [] [] (as_truths false) (params_view list.now) (ex_view body.now))) result }
    ensures tree { IfOk result (λ f. f ≡ code.function_code (world_view world.now) place (params_view list.now) (as_truths false) (ex_view body.now)) }
{
    function(
        alloc,
        world,
        place,
        true,
        Vec::new(alloc),
        Vec::new(alloc),
        truths(false),
        list,
        body,
    )
}

fn function_of_kind(
    alloc: Global,
    world: &World,
    place: Place,
    kind: &Kind,
    list: &[Parameter],
    body: &Expr,
) -> Result<ms_code::Function, TypeFault>
    ensures typing { TellsOf (λ _. tt) (and_then (typings (kind_terms (world_view world.now) Surroundings.Model [] (kind_view kind.now))) (λ ts.
        checked (walk.walk_function (world_view world.now) place (result_stands (kind_view kind.now)) ts (sets_of (kind_view kind.now)) (kind_type (kind_view kind.now)) (params_view list.now) (ex_view body.now)))) result }
    ensures tree { IfOk result (λ f. f ≡ code.function_code (world_view world.now) place (params_view list.now) (kind_type (kind_view kind.now)) (ex_view body.now)) }
{
    let types = kind_types(alloc, world, Surroundings::Model, &Scope::Outer, kind)?;
    let asked = kind_sets(alloc, kind)?;
    function(
        alloc,
        world,
        place,
        stands_result(kind),
        types,
        asked,
        type_of_kind(kind),
        list,
        body,
    )
}

/// One item, in the order of its text.
fn walk_item(alloc: Global, world: &World, item: &Item) -> Result<ms_code::Item, TypeFault>
    ensures typing { TellsOf (λ _. tt) (walk.walk_item (world_view world.now) (item_view item.now)) result }
    ensures tree { IfOk result (λ i. i ≡ code.item_code (world_view world.now) (item_view item.now)) }
{
    match item {
        Item::Include(_, _) => Ok(ms_code::Item::Include),
        Item::Declare(one) => Ok(ms_code::Item::Declare(declaration(alloc, world, one)?)),
        Item::Enum(place, _, _) => {
            settle(alloc, *place, &Form::Unsupported, &[])?;
            Ok(ms_code::Item::Enum)
        }
        Item::Assign(place, name, value) => assignment(alloc, world, *place, name, value),
        Item::Constraint(place, e, _) => Ok(ms_code::Item::Constraint(
            *place,
            asked_over(
                alloc,
                world,
                Surroundings::Model,
                *place,
                &Form::Constrains,
                truths(false),
                e,
            )?,
        )),
        Item::Solve(place, list, one) => {
            notes(alloc, list.as_slice())?;
            Ok(ms_code::Item::Solve(*place, goal(alloc, world, *place, one)?))
        }
        Item::Output(place, e) => Ok(ms_code::Item::Output(
            *place,
            output(alloc, world, *place, e)?,
        )),
        Item::Predicate(place, _, list, body) => Ok(ms_code::Item::Function(predicate(
            alloc,
            world,
            *place,
            list.as_slice(),
            body,
        )?)),
        Item::Function(place, kind, _, list, body) => Ok(ms_code::Item::Function(function_of_kind(
            alloc,
            world,
            *place,
            kind,
            list.as_slice(),
            body,
        )?)),
    }
}

fn walk_items(
    alloc: Global,
    world: &World,
    list: &[Item],
) -> Result<Items<ms_code::Item>, TypeFault>
    ensures typing { TellsOf (λ _. tt) (walk.walk_items (world_view world.now) (map item_view list.now)) result }
    ensures trees { IfOk result (λ trees. trees ≡ code.items_code (world_view world.now) (map item_view list.now)) }
{
    let mut trees = Items::new(alloc);
    for item in list {
        trees.push(walk_item(alloc, world, item)?)?;
    }
    Ok(trees)
}

/// The typed trees of the items of a text, in their order, or the first fault in their types.
pub fn items(alloc: Global, world: &World, list: &[Item]) -> Result<Items<ms_code::Item>, TypeFault>
    ensures typing { TellsOf (λ _. tt) (checked (typings (items_terms (world_view world.now) (map item_view list.now)))) result }
    ensures trees { IfOk result (λ trees. trees ≡ code.items_code (world_view world.now) (map item_view list.now)) }
{
    walk_items(alloc, world, list)
}
