//! The walk.

ghost use Rattle.std.specs.Prelude.{◌≡◌, ◌∷◌, map};
ghost use Rattle.ms_rows.specs.Forms.{Tells};
ghost use Rattle.ms_syntax.specs.Tree.{arm_view, arms_of, decls_view, declaration_view, ex_view};
ghost use Rattle.ms_syntax.specs.Tree.{exs_view, gens_view, generator_view, generators_view, indices_view, kind_view};
ghost use Rattle.ms_syntax.specs.Tree.{link_view, links_view, maybe_view, one_link, row_view, rows_of};
ghost use Rattle.ms_syntax.specs.Tree.{subscript_view, subscripts_view};
ghost use Rattle.ms_code.specs.Code.{subscript as subscript_of};
ghost use Rattle.ms_names.specs.Scopes.{names_of};
ghost use Rattle.ms_names.specs.Worlds.{world_view};
ghost use Rattle.ms_elaborator.specs.Answers.{TellsAll, TellsOf};
ghost use Rattle.ms_elaborator.specs.Elaborate as spec;

use crate::ends::{
    Indexed, Joined, access_node, array_node, choice_node, comprehension_node, join, let_node,
    local_node, number_node, operand_of, parenthesis_node, prefix_node, right_node, rows_node,
    set_node, source_of, subscribe, text_node, truth_node,
};
use crate::named::{Context, call_node, generator_node, name_node};
use ms_names::Scope;
use ms_nodes::{Choice, Elaborated, Operand, Source, Sources, add_subscript, chain, push};
use ms_rows::TypeFault;
use ms_syntax::{
    Arm, Base, Declaration, Expr, Generator, Generators, Index, Kind, Link, Place, Row, Subscript,
};
use ms_typing::ExprType;
use sqlite_items::Items;

/// The least type and the typed tree of an expression, or its first fault.
#[cycle(check)]
pub(crate) fn check(
    context: &Context<'_>,
    scope: &Scope<'_>,
    e: &Expr,
) -> Result<Elaborated, TypeFault>
    ensures { Tells (spec.elab (world_view context.now.world.now) context.now.around (names_of scope.now) (ex_view e.now)) result }
{
    match e {
        Expr::Let(place, locals, _, body) => {
            let values = check_locals(context, scope, locals.as_slice())?;
            let inner = Scope::Locals(locals.as_slice(), &*scope);
            let m = check(context, &inner, body)?;
            let_node(
                context.alloc,
                context.around,
                *place,
                locals.as_slice(),
                values,
                m,
            )
        }
        Expr::Equivalence(first, links) => {
            let links = links.as_slice();
            let m = check(context, scope, first)?;
            check_links(context, scope, m, links)
        }
        Expr::Implication(first, links) => {
            let links = links.as_slice();
            let m = check(context, scope, first)?;
            check_links(context, scope, m, links)
        }
        Expr::Disjunction(first, links) => {
            let links = links.as_slice();
            let m = check(context, scope, first)?;
            check_links(context, scope, m, links)
        }
        Expr::Conjunction(first, links) => {
            let links = links.as_slice();
            let m = check(context, scope, first)?;
            check_links(context, scope, m, links)
        }
        Expr::Comparison(first, link) => {
            let m = check(context, scope, first)?;
            check_one(context, scope, m, link)
        }
        Expr::Membership(first, link) => {
            let m = check(context, scope, first)?;
            check_one(context, scope, m, link)
        }
        Expr::Range(first, link) => {
            let m = check(context, scope, first)?;
            check_one(context, scope, m, link)
        }
        Expr::Sum(first, links) => {
            let links = links.as_slice();
            let m = check(context, scope, first)?;
            check_links(context, scope, m, links)
        }
        Expr::Product(first, links) => {
            let links = links.as_slice();
            let m = check(context, scope, first)?;
            check_links(context, scope, m, links)
        }
        Expr::Concatenation(first, links) => {
            let links = links.as_slice();
            let m = check(context, scope, first)?;
            let operands = check_operands(context, scope, links)?;
            right_node(context.alloc, m, links, operands)
        }
        Expr::Prefix(place, sign, operand) => {
            let m = check(context, scope, operand)?;
            prefix_node(context.alloc, *place, *sign, m)
        }
        Expr::Access(place, array, subscripts) => {
            let subscripts = subscripts.as_slice();
            let m = check(context, scope, array)?;
            check_subscripts(context, scope, *place, m, subscripts)
        }
        Expr::Number(place, n) => number_node(context.alloc, *place, *n),
        Expr::Text(place, text) => text_node(context.alloc, *place, text),
        Expr::Truth(place, truth) => truth_node(context.alloc, *place, *truth),
        Expr::Name(place, name) => name_node(context, scope, *place, name),
        Expr::Call(place, name, arguments) => {
            let parts = check_all(context, scope, arguments.as_slice())?;
            call_node(context, scope, *place, name, parts)
        }
        Expr::GeneratorCall(place, name, generators, body) => {
            let sources = check_sources(context, scope, generators)?;
            let inner = Scope::Generators(generators.list.as_slice(), &*scope);
            let m = check(context, &inner, body)?;
            generator_node(context, scope, *place, name, generators, sources, m)
        }
        Expr::Parenthesis(place, inner) => {
            let m = check(context, scope, inner)?;
            parenthesis_node(context.alloc, *place, m)
        }
        Expr::Array(place, elements) => {
            let parts = check_all(context, scope, elements.as_slice())?;
            array_node(context.alloc, *place, parts)
        }
        Expr::Comprehension(place, element, generators) => {
            let inner = Scope::Generators(generators.list.as_slice(), &*scope);
            let m = check(context, &inner, element)?;
            let sources = check_sources(context, scope, generators)?;
            comprehension_node(
                context.alloc,
                context.around,
                *place,
                generators,
                m,
                sources,
            )
        }
        Expr::Rows(place, rows) => {
            let parts = check_rows(context, scope, rows.as_slice())?;
            rows_node(context.alloc, *place, rows.as_slice(), parts)
        }
        Expr::Set(place, elements) => {
            let parts = check_all(context, scope, elements.as_slice())?;
            set_node(context.alloc, *place, parts)
        }
        Expr::If(place, condition, branch, arms, last) => {
            let condition = check(context, scope, condition)?;
            let branch = check(context, scope, branch)?;
            let more = check_arms(context, scope, arms.as_slice())?;
            let m = check(context, scope, last)?;
            choice_node(context.alloc, *place, Choice { condition, branch }, more, m)
        }
    }
}

#[cycle(check)]
fn check_all(
    context: &Context<'_>,
    scope: &Scope<'_>,
    es: &[Expr],
) -> Result<Vec<Elaborated>, TypeFault>
    ensures { TellsOf (λ v. v.items) (spec.elab_all (world_view context.now.world.now) context.now.around (names_of scope.now) (exs_view es.now)) result }
{
    let mut parts = Vec::new(context.alloc);
    for e in es {
        let m = check(context, scope, e)?;
        push(&mut parts, m)?;
    }
    Ok(parts)
}

/// A chain of operators that group to the left, behind a first operand.
#[cycle(check)]
fn check_links(
    context: &Context<'_>,
    scope: &Scope<'_>,
    first: Elaborated,
    links: &[Link],
) -> Result<Elaborated, TypeFault>
    ensures { Tells (spec.elab_behind (world_view context.now.world.now) context.now.around (names_of scope.now) first (links_view links.now)) result }
{
    let mut kind = first.kind;
    let mut operands = Vec::new(context.alloc);
    for link in links {
        let next = check_link(context, scope, kind, link)?;
        kind = next.kind;
        push(&mut operands, next.operand)?;
    }
    Ok(chain(context.alloc, kind, first, operands)?)
}

/// An operator with its right operand, behind operands of this type.
#[cycle(check)]
fn check_link(
    context: &Context<'_>,
    scope: &Scope<'_>,
    left: ExprType,
    link: &Link,
) -> Result<Joined, TypeFault>
    ensures { TellsOf (λ j. (j.kind, j.operand)) (spec.elab_joined (world_view context.now.world.now) context.now.around (names_of scope.now) left (link_view link.now)) result }
{
    let m = check(context, scope, &link.operand)?;
    join(context.alloc, left, link, m)
}

/// The one operator of a chain.
#[cycle(check)]
fn check_one(
    context: &Context<'_>,
    scope: &Scope<'_>,
    first: Elaborated,
    link: &Link,
) -> Result<Elaborated, TypeFault>
    ensures { Tells (spec.elab_behind (world_view context.now.world.now) context.now.around (names_of scope.now) first (one_link (link_view link.now))) result }
{
    let next = check_link(context, scope, first.kind, link)?;
    let mut operands = Vec::new(context.alloc);
    push(&mut operands, next.operand)?;
    Ok(chain(context.alloc, next.kind, first, operands)?)
}

/// All operands behind the first.
#[cycle(check)]
fn check_operands(
    context: &Context<'_>,
    scope: &Scope<'_>,
    links: &[Link],
) -> Result<Vec<Operand>, TypeFault>
    ensures { TellsOf (λ v. v.items) (spec.elab_operands (world_view context.now.world.now) context.now.around (names_of scope.now) (links_view links.now)) result }
{
    let mut operands = Vec::new(context.alloc);
    for link in links {
        let m = check(context, scope, &link.operand)?;
        push(&mut operands, operand_of(link, m))?;
    }
    Ok(operands)
}

/// An array with its subscripts.
#[cycle(check)]
fn check_subscripts(
    context: &Context<'_>,
    scope: &Scope<'_>,
    place: Place,
    array: Elaborated,
    subscripts: &[Subscript],
) -> Result<Elaborated, TypeFault>
    ensures { Tells (spec.elab_indexed (world_view context.now.world.now) context.now.around (names_of scope.now) place array (subscripts_view subscripts.now)) result }
{
    let mut kind = array.kind;
    let mut list = Items::new(context.alloc);
    for subscript in subscripts {
        let next = check_subscript(context, scope, place, kind, subscript)?;
        kind = next.kind;
        add_subscript(&mut list, next.first, next.second)?;
    }
    access_node(context.alloc, place, kind, array, list)
}

/// One subscript behind an array of this type.
#[cycle(check)]
fn check_subscript(
    context: &Context<'_>,
    scope: &Scope<'_>,
    place: Place,
    array: ExprType,
    subscript: &Subscript,
) -> Result<Indexed, TypeFault>
    ensures { TellsOf (λ i. (i.kind, subscript_of i.first i.second)) (spec.elab_subscript (world_view context.now.world.now) context.now.around (names_of scope.now) place array (subscript_view subscript.now).0 (subscript_view subscript.now).1) result }
{
    let first = check(context, scope, &subscript.first)?;
    let second = check_maybe(context, scope, &subscript.second)?;
    subscribe(context.alloc, place, array, first, second)
}

/// An expression, if it is there.
#[cycle(check)]
fn check_maybe(
    context: &Context<'_>,
    scope: &Scope<'_>,
    e: &Option<Expr>,
) -> Result<Option<Elaborated>, TypeFault>
    ensures { Tells (spec.elab_maybe (world_view context.now.world.now) context.now.around (names_of scope.now) (maybe_view e.now)) result }
{
    match e {
        Some(e) => {
            let m = check(context, scope, e)?;
            Ok(Some(m))
        }
        None => Ok(None),
    }
}

#[cycle(check)]
fn check_rows(
    context: &Context<'_>,
    scope: &Scope<'_>,
    rows: &[Row],
) -> Result<Vec<Vec<Elaborated>>, TypeFault>
    ensures { TellsOf (λ v. map (λ r. r.items) v.items) (spec.elab_rows (world_view context.now.world.now) context.now.around (names_of scope.now) (rows_of (map row_view rows.now))) result }
{
    let mut parts = Vec::new(context.alloc);
    for row in rows {
        let more = check_all(context, scope, row.elements.as_slice())?;
        push(&mut parts, more)?;
    }
    Ok(parts)
}

/// A condition with its branch.
#[cycle(check)]
fn check_arm(context: &Context<'_>, scope: &Scope<'_>, arm: &Arm) -> Result<Choice, TypeFault>
    ensures { Tells (spec.elab_arm (world_view context.now.world.now) context.now.around (names_of scope.now) (arm_view arm.now).0 (arm_view arm.now).1) result }
{
    let condition = check(context, scope, &arm.condition)?;
    let branch = check(context, scope, &arm.branch)?;
    Ok(Choice { condition, branch })
}

/// Further conditions, each with its branch.
#[cycle(check)]
fn check_arms(
    context: &Context<'_>,
    scope: &Scope<'_>,
    arms: &[Arm],
) -> Result<Vec<Choice>, TypeFault>
    ensures { TellsOf (λ v. v.items) (spec.elab_arms (world_view context.now.world.now) context.now.around (names_of scope.now) (arms_of (map arm_view arms.now))) result }
{
    let mut choices = Vec::new(context.alloc);
    for arm in arms {
        let choice = check_arm(context, scope, arm)?;
        push(&mut choices, choice)?;
    }
    Ok(choices)
}

/// The sets of generators, and their condition.
#[cycle(check)]
fn check_sources(
    context: &Context<'_>,
    scope: &Scope<'_>,
    generators: &Generators,
) -> Result<Sources, TypeFault>
    ensures { TellsOf (λ s. (s.list.items, s.condition)) (spec.elab_sources (world_view context.now.world.now) context.now.around (names_of scope.now) (generators_view generators.now).0 (generators_view generators.now).1) result }
{
    let list = check_sets(context, scope, generators.list.as_slice())?;
    match &generators.condition {
        Some(condition) => {
            let inner = Scope::Generators(generators.list.as_slice(), &*scope);
            let m = check(context, &inner, condition)?;
            Ok(Sources {
                list,
                condition: Some(m),
            })
        }
        None => Ok(Sources {
            list,
            condition: None,
        }),
    }
}

/// Sets, each among the names of the generators before it.
#[cycle(check)]
fn check_sets(
    context: &Context<'_>,
    scope: &Scope<'_>,
    list: &[Generator],
) -> Result<Vec<Source>, TypeFault>
    ensures { TellsOf (λ v. v.items) (spec.elab_sets (world_view context.now.world.now) context.now.around (names_of scope.now) (gens_view list.now)) result }
{
    let mut sets = Vec::new(context.alloc);
    for i in 0..list.len() {
        let inner = Scope::Generators(&list[..i], &*scope);
        let set = check_set(context, &inner, &list[i])?;
        push(&mut sets, set)?;
    }
    Ok(sets)
}

/// The set of a generator.
#[cycle(check)]
fn check_set(
    context: &Context<'_>,
    scope: &Scope<'_>,
    generator: &Generator,
) -> Result<Source, TypeFault>
    ensures { Tells (spec.elab_source (world_view context.now.world.now) context.now.around (names_of scope.now) (generator_view generator.now)) result }
{
    let m = check(context, scope, &generator.set)?;
    Ok(source_of(generator, m))
}

/// Locals, each among those before it.
#[cycle(check)]
fn check_locals(
    context: &Context<'_>,
    scope: &Scope<'_>,
    locals: &[Declaration],
) -> Result<Vec<Elaborated>, TypeFault>
    ensures { TellsOf (λ v. v.items) (spec.elab_locals (world_view context.now.world.now) context.now.around (names_of scope.now) (decls_view locals.now)) result }
{
    let mut values = Vec::new(context.alloc);
    for i in 0..locals.len() {
        let inner = Scope::Locals(&locals[..i], &*scope);
        let m = check_local(context, &inner, &locals[i])?;
        push(&mut values, m)?;
    }
    Ok(values)
}

#[cycle(check)]
fn check_local(
    context: &Context<'_>,
    scope: &Scope<'_>,
    local: &Declaration,
) -> Result<Elaborated, TypeFault>
    ensures { Tells (spec.elab_local (world_view context.now.world.now) context.now.around (names_of scope.now) (declaration_view local.now)) result }
{
    let types = check_kind(context, scope, &local.kind)?;
    let value = check_maybe(context, scope, &local.value)?;
    local_node(context.alloc, context.around, local, types, value)
}

/// The types of the sets that a kind names.
#[cycle(check)]
pub(crate) fn check_kind(
    context: &Context<'_>,
    scope: &Scope<'_>,
    kind: &Kind,
) -> Result<Vec<ExprType>, TypeFault>
    ensures { TellsAll (λ v. v.items) (spec.elab_kind (world_view context.now.world.now) context.now.around (names_of scope.now) (kind_view kind.now)) result }
{
    let mut types = check_indices(context, scope, kind.indices.as_slice())?;
    match &kind.base {
        Base::SetOf(set) => {
            let m = check(context, scope, set)?;
            push(&mut types, m.kind)?;
            Ok(types)
        }
        Base::Within(set) => {
            let m = check(context, scope, set)?;
            push(&mut types, m.kind)?;
            Ok(types)
        }
        _ => Ok(types),
    }
}

#[cycle(check)]
fn check_indices(
    context: &Context<'_>,
    scope: &Scope<'_>,
    indices: &[Index],
) -> Result<Vec<ExprType>, TypeFault>
    ensures { TellsAll (λ v. v.items) (spec.elab_indices (world_view context.now.world.now) context.now.around (names_of scope.now) (indices_view indices.now)) result }
{
    let mut types = Vec::new(context.alloc);
    for index in indices {
        match index {
            Index::AnyInt => {}
            Index::Over(set) => {
                let m = check(context, scope, set)?;
                push(&mut types, m.kind)?;
            }
        }
    }
    Ok(types)
}
