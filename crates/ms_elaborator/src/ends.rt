//! Nodes whose parts have their types and trees.

ghost use Rattle.std.specs.Prelude.{◌≡◌, ◌∷◌, [], ◌++◌, map, IfOk};
ghost use Rattle.ms_rows.specs.Forms.{Tells, form_of};
ghost use Rattle.ms_syntax.specs.Tree.{decls_view, declaration_view, generator_view, generators_view, link_view, links_view};
ghost use Rattle.ms_syntax.specs.Tree.{rows_of, row_view};
ghost use Rattle.ms_typing.specs.Term as f;
ghost use Rattle.ms_code.specs.Code.{subscript};
ghost use Rattle.ms_code.specs.declared.code.Code.TheVariants as c;
ghost use Rattle.ms_typing.specs.Least.{has};
ghost use Rattle.ms_nodes.specs.Parts.{kinds_maybe, made as made_of, source_kinds as source_kinds_of};
ghost use Rattle.ms_elaborator.specs.Answers.{TellsOf};
ghost use Rattle.ms_elaborator.specs.Elaborate as spec;
ghost use Rattle.ms_elaborator.specs.Walk.{at_link, at_local, at_node};

use crate::asked::{are_even, asked_of, local_types};
use crate::chain::join_right;
use ms_code::{Code, Subscript};
use ms_names::{declared_parts, is_data, seen, stands_local, type_of_kind};
use ms_nodes::{
    Choice, Elaborated, Operand, Source, Sources, arms, bring, bring_all, bring_each, chain,
    choice_kinds, generators as generators_made, kinds, kinds_and, made, operand_kinds, push,
    row_kinds, rows as rows_made, source_kinds,
};
use ms_rows::{Form, TypeFault, settle, shaped};
use ms_syntax::{Declaration, Generator, Generators, Link, Place, Row, Sign, Word};
use ms_typing::{ExprType, Shape, Surroundings};
use sqlite_items::{Boxed, Items};
use std::alloc::{AllocError, Global};

/// Where nothing stands.
const NOWHERE: Place = Place {
    file: 0,
    line: 1,
    col: 1,
};

/// The type of a node whose parts have these types, or its fault.
#[tactic(auto, unfolding(crate::specs::Walk::at_node))]
pub(crate) fn node(
    alloc: Global,
    place: Place,
    form: &Form<'_>,
    types: &[ExprType],
) -> Result<ExprType, TypeFault>
    ensures { Tells (at_node place (form_of form.now) types.now) result }
{
    settle(alloc, place, form, types)
}

/// The type of an operator between operands of these types.
pub(crate) fn link_type(
    alloc: Global,
    link: &Link,
    left: ExprType,
    right: ExprType,
) -> Result<ExprType, TypeFault>
    ensures { Tells (at_link (link_view link.now) left right) result }
{
    node(
        alloc,
        link.place,
        &Form::Operation(link.operator),
        &[left, right],
    )
}

/// Adds types to a list.
pub(crate) fn append(types: &mut Vec<ExprType>, more: &[ExprType]) -> Result<(), AllocError>
    ensures { IfOk result (λ _. types.new.items ≡ types.old.items ++ more.now) }
{
    types.extend_from_slice(more)?;
    Ok(())
}

pub(crate) fn number_node(alloc: Global, place: Place, n: u64) -> Result<Elaborated, TypeFault>
    ensures { Tells (spec.built (at_node place f.number []) (λ t. c.Number place n)) result }
{
    let kind = node(alloc, place, &Form::Number, &[])?;
    Ok(made(alloc, kind, Code::Number(place, n))?)
}

pub(crate) fn text_node(alloc: Global, place: Place, text: &Word) -> Result<Elaborated, TypeFault>
    ensures { Tells (spec.built (at_node place f.text []) (λ t. c.Text place text.now)) result }
{
    let kind = node(alloc, place, &Form::Text, &[])?;
    Ok(made(alloc, kind, Code::Text(place, text.copy(alloc)?))?)
}

pub(crate) fn truth_node(alloc: Global, place: Place, truth: bool) -> Result<Elaborated, TypeFault>
    ensures { Tells (spec.built (at_node place f.truth []) (λ t. c.Truth place truth)) result }
{
    let kind = node(alloc, place, &Form::Truth, &[])?;
    Ok(made(alloc, kind, Code::Truth(place, truth))?)
}

pub(crate) fn prefix_node(
    alloc: Global,
    place: Place,
    sign: Sign,
    operand: Elaborated,
) -> Result<Elaborated, TypeFault>
    ensures { Tells (spec.built (at_node place (f.prefix sign) (operand.kind ∷ [])) (λ t. c.Prefix place sign operand.code)) result }
{
    let kind = node(alloc, place, &Form::Prefix(sign), &[operand.kind])?;
    Ok(made(alloc, kind, Code::Prefix(place, sign, operand.code))?)
}

pub(crate) fn parenthesis_node(
    alloc: Global,
    place: Place,
    inner: Elaborated,
) -> Result<Elaborated, TypeFault>
    ensures { Tells (spec.built (at_node place f.parenthesis (inner.kind ∷ [])) (λ t. c.Parenthesis place inner.code)) result }
{
    let kind = node(alloc, place, &Form::Parenthesis, &[inner.kind])?;
    Ok(made(alloc, kind, Code::Parenthesis(place, inner.code))?)
}

pub(crate) fn array_node(
    alloc: Global,
    place: Place,
    elements: Vec<Elaborated>,
) -> Result<Elaborated, TypeFault>
    ensures { Tells (spec.elab_array place elements.items) result }
{
    let types = kinds(alloc, elements.as_slice())?;
    let kind = node(alloc, place, &Form::Array, types.as_slice())?;
    let codes = bring_all(alloc, shaped(Shape::Single, kind), elements)?;
    Ok(made(alloc, kind, Code::Array(place, kind, codes))?)
}

pub(crate) fn set_node(
    alloc: Global,
    place: Place,
    elements: Vec<Elaborated>,
) -> Result<Elaborated, TypeFault>
    ensures { Tells (spec.elab_set place elements.items) result }
{
    let types = kinds(alloc, elements.as_slice())?;
    let kind = node(alloc, place, &Form::Set, types.as_slice())?;
    let codes = bring_each(alloc, &[], elements)?;
    Ok(made(alloc, kind, Code::Set(place, codes))?)
}

pub(crate) fn rows_node(
    alloc: Global,
    place: Place,
    rows: &[Row],
    parts: Vec<Vec<Elaborated>>,
) -> Result<Elaborated, TypeFault>
    ensures { Tells (spec.elab_grid place (rows_of (map row_view rows.now)) (map (λ r. r.items) parts.items)) result }
{
    let types = row_kinds(alloc, parts.as_slice())?;
    let kind = node(alloc, place, &Form::Grid(are_even(rows)), types.as_slice())?;
    let list = rows_made(alloc, shaped(Shape::Single, kind), parts)?;
    Ok(made(alloc, kind, Code::Rows(place, kind, list))?)
}

/// An `if`: its first condition and branch, the further ones, and the last branch.
pub(crate) fn choice_node(
    alloc: Global,
    place: Place,
    first: Choice,
    more: Vec<Choice>,
    last: Elaborated,
) -> Result<Elaborated, TypeFault>
    ensures { Tells (spec.elab_choice place first more.items last) result }
{
    let types = choice_kinds(alloc, &first, more.as_slice(), last.kind)?;
    let kind = node(alloc, place, &Form::Choice, types.as_slice())?;
    let list = arms(alloc, kind, first, more)?;
    let last = bring(alloc, kind, last)?;
    Ok(made(alloc, kind, Code::If(place, list, last))?)
}

/// The type of a comprehension.
fn comprehension_type(
    alloc: Global,
    around: Surroundings,
    place: Place,
    generators: &Generators,
    element: ExprType,
    sources: &Sources,
) -> Result<ExprType, TypeFault>
    ensures { Tells (at_node place (f.declaring around (f.comprehension
        (f.generator_types (generators_view generators.now).0 (generators_view generators.now).1)))
        (element ∷ source_kinds_of (sources.now.list.items, sources.now.condition))) result }
{
    let mut types = Vec::new(alloc);
    push(&mut types, element)?;
    let more = source_kinds(alloc, sources)?;
    append(&mut types, more.as_slice())?;
    let asked = asked_of(alloc, generators)?;
    let form = if is_data(around) {
        Form::Misplaced
    } else {
        Form::Comprehension(asked.as_slice())
    };
    node(alloc, place, &form, types.as_slice())
}

/// An element, and the sets of generators with their condition.
pub(crate) fn comprehension_node(
    alloc: Global,
    around: Surroundings,
    place: Place,
    generators: &Generators,
    element: Elaborated,
    sources: Sources,
) -> Result<Elaborated, TypeFault>
    ensures { Tells (spec.elab_comprehension around place (generators_view generators.now).0 (generators_view generators.now).1
        element (sources.list.items, sources.condition)) result }
{
    let kind = comprehension_type(alloc, around, place, generators, element.kind, &sources)?;
    let made_generators = generators_made(alloc, sources)?;
    Ok(made(
        alloc,
        kind,
        Code::Comprehension(place, kind, made_generators, element.code),
    )?)
}

/// The type of a `let`.
fn let_type(
    alloc: Global,
    around: Surroundings,
    place: Place,
    locals: &[Declaration],
    types: &[ExprType],
) -> Result<ExprType, TypeFault>
    ensures { Tells (at_node place (f.declaring around (f.lets (f.local_types around (decls_view locals.now)))) types.now) result }
{
    let declared = local_types(alloc, around, locals)?;
    let form = if is_data(around) {
        Form::Misplaced
    } else {
        Form::Lets(declared.as_slice())
    };
    node(alloc, place, &form, types)
}

/// Locals with their values, and the body.
pub(crate) fn let_node(
    alloc: Global,
    around: Surroundings,
    place: Place,
    locals: &[Declaration],
    values: Vec<Elaborated>,
    body: Elaborated,
) -> Result<Elaborated, TypeFault>
    ensures { Tells (spec.elab_let around place (decls_view locals.now) values.items body) result }
{
    let types = kinds_and(alloc, values.as_slice(), body.kind)?;
    let kind = let_type(alloc, around, place, locals, types.as_slice())?;
    let codes = bring_each(alloc, &[], values)?;
    Ok(made(alloc, kind, Code::Let(place, codes, body.code))?)
}

/// The type of a local: the types of the sets that its kind names, and of its value.
fn local_type(
    alloc: Global,
    around: Surroundings,
    local: &Declaration,
    types: &[ExprType],
) -> Result<ExprType, TypeFault>
    ensures { Tells (at_local around (declaration_view local.now) types.now) result }
{
    let kind = seen(around, type_of_kind(&local.kind));
    let asked = declared_parts(alloc, &local.kind, kind, &local.value)?;
    let stands = stands_local(&local.kind, &local.value);
    node(
        alloc,
        local.place,
        &Form::Declares(stands, asked.as_slice(), kind),
        types,
    )
}

/// The value of a local, if it has one, as its type.
fn valued(
    alloc: Global,
    asked: ExprType,
    value: Option<Elaborated>,
) -> Result<Boxed<Code>, AllocError>
    ensures { IfOk result (λ e. e ≡ spec.valued asked value) }
{
    match value {
        Some(part) => bring(alloc, asked, part),
        None => Boxed::new(alloc, Code::Truth(NOWHERE, true)),
    }
}

/// A local with its value: the types of the sets that its kind names.
pub(crate) fn local_node(
    alloc: Global,
    around: Surroundings,
    local: &Declaration,
    mut types: Vec<ExprType>,
    value: Option<Elaborated>,
) -> Result<Elaborated, TypeFault>
    ensures { Tells (spec.elab_declared around (declaration_view local.now) types.items value) result }
{
    push_maybe(&mut types, &value)?;
    let kind = local_type(alloc, around, local, types.as_slice())?;
    let asked = seen(around, type_of_kind(&local.kind));
    let code = valued(alloc, asked, value)?;
    Ok(Elaborated { kind, code })
}

/// Adds the type of a part, if it is there.
pub(crate) fn push_maybe(
    types: &mut Vec<ExprType>,
    part: &Option<Elaborated>,
) -> Result<(), AllocError>
    ensures { IfOk result (λ _. types.new.items ≡ types.old.items ++ kinds_maybe part.now) }
{
    match part {
        Some(part) => push(types, part.kind),
        None => Ok(()),
    }
}

/// An array with some subscripts, of this type, and the last of these.
#[derive(Drop)]
pub(crate) struct Indexed {
    pub(crate) kind: ExprType,
    pub(crate) first: Boxed<Code>,
    pub(crate) second: Option<Boxed<Code>>,
}

/// One subscript behind an array of this type.
pub(crate) fn subscribe(
    alloc: Global,
    place: Place,
    array: ExprType,
    first: Elaborated,
    second: Option<Elaborated>,
) -> Result<Indexed, TypeFault>
    ensures { TellsOf (λ i. (i.kind, subscript i.first i.second)) (spec.elab_access place array first second) result }
{
    let mut types = Vec::from_slice(alloc, &[array, first.kind])?;
    push_maybe(&mut types, &second)?;
    let kind = node(alloc, place, &Form::Access, types.as_slice())?;
    Ok(Indexed {
        kind,
        first: first.code,
        second: match second {
            Some(part) => Some(part.code),
            None => None,
        },
    })
}

/// An array with its subscripts, of this type.
pub(crate) fn access_node(
    alloc: Global,
    place: Place,
    kind: ExprType,
    array: Elaborated,
    list: Items<Subscript>,
) -> Result<Elaborated, TypeFault>
    ensures { Tells (has (made_of kind (c.Access place array.code list))) result }
{
    Ok(made(alloc, kind, Code::Access(place, array.code, list))?)
}

/// The set of a generator.
#[tactic(auto, using(crate::proofs::Counts::place_first))]
pub(crate) fn source_of(generator: &Generator, set: Elaborated) -> Source
    ensures { result ≡ spec.source_of (generator_view generator.now).0 set }
{
    Source {
        place: generator.place(),
        names: generator.names.as_slice().len(),
        set,
    }
}

/// The first operands of a chain, of this type, and the last of these.
#[derive(Drop)]
pub(crate) struct Joined {
    pub(crate) kind: ExprType,
    pub(crate) operand: Operand,
}

/// An operator with its operand.
pub(crate) fn operand_of(link: &Link, operand: Elaborated) -> Operand
    ensures { result ≡ spec.operand_of (link_view link.now).0 (link_view link.now).1 operand }
{
    Operand {
        operator: link.operator,
        place: link.place,
        operand,
    }
}

/// One operator behind operands of this type.
pub(crate) fn join(
    alloc: Global,
    left: ExprType,
    link: &Link,
    operand: Elaborated,
) -> Result<Joined, TypeFault>
    ensures { TellsOf (λ j. (j.kind, j.operand)) (spec.elab_link left (spec.operand_of (link_view link.now).0 (link_view link.now).1 operand)) result }
{
    let kind = link_type(alloc, link, left, operand.kind)?;
    Ok(Joined {
        kind,
        operand: operand_of(link, operand),
    })
}

/// Operands with operators that group to the right.
pub(crate) fn right_node(
    alloc: Global,
    first: Elaborated,
    links: &[Link],
    operands: Vec<Operand>,
) -> Result<Elaborated, TypeFault>
    ensures { Tells (spec.elab_right first (links_view links.now) operands.items) result }
{
    let types = operand_kinds(alloc, operands.as_slice())?;
    let kind = join_right(alloc, links, first.kind, types)?;
    Ok(chain(alloc, kind, first, operands)?)
}
