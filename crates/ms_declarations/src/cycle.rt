//! The first name of a text that depends on itself.

ghost use Rattle.std.specs.Prelude.{◌≡◌, [], ◌∷◌, IfOk, length, map, replicate, is_some, ◌||◌, ℕ, List};
ghost use Rattle.std.specs.List.{flat_map};
ghost use Rattle.ms_syntax.specs.Tree.{base_view, index_view, indices_of, item_view, kind_view};
ghost use Rattle.ms_syntax.specs.Tree.{names_view};
ghost use Rattle.ms_declarations.specs.Declaring.{names_of};
ghost use Rattle.ms_declarations.specs.Depends.{is_ann, is_annotation, is_fixed, is_single};
ghost use Rattle.ms_declarations.specs.Depends.{is_value, restrained};
ghost use Rattle.ms_declarations.specs.Drawing.{AreValues, drawn, drawn_one, first_marked, marked};
ghost use Rattle.ms_declarations.specs.Drawing.{numbers, says_with, TellsCycle};
ghost use Rattle.ms_declarations.specs.Numbering.{number_of};

use crate::names::NameList;
use ms_free_names::Uses;
use ms_graph::Graph;
use ms_syntax::{Base, Index, Item, Kind, Mode, Place, Word};
use std::alloc::{AllocError, Global};

/// The place of the first name that depends on itself, of those that may not. The names are those
/// that the items declare.
pub fn first_cycle(
    alloc: Global,
    items: &[Item],
    names: &NameList,
) -> Result<Option<Place>, AllocError>
    requires { names_view names.now ≡ names_of (map item_view items.now) }
    ensures { IfOk result (λ place. TellsCycle (map item_view items.now) place) }
{
    let values = values(alloc, items)?;
    let graph = draw(alloc, items, &values, names)?;
    let marks = graph.on_cycles(alloc)?;
    Ok(first_marked(items, names, &marks))
}

/// The names of the variables and parameters, each once.
fn values(alloc: Global, items: &[Item]) -> Result<NameList, AllocError>
    ensures { IfOk result (λ values. AreValues (map item_view items.now) (names_view values)) }
{
    let mut values = NameList::new(alloc);
    for item in items {
        add_value(alloc, &mut values, item)?;
    }
    Ok(values)
}

fn add_value(alloc: Global, values: &mut NameList, item: &Item) -> Result<(), AllocError>
    ensures { IfOk result (λ _. (w : List ℕ) → is_some (number_of (names_view values.new) w)
        ≡ (is_some (number_of (names_view values.old) w) || is_value w (item_view item.now))) }
{
    match item {
        Item::Declare(declaration) => {
            values.add_once(alloc, declaration.place, &declaration.name)
        }
        _ => Ok(()),
    }
}

/// The graph whose edges lead from each name to those that it uses.
#[tactic(auto, using(crate::proofs::Cycles::drawn_append))]
fn draw(
    alloc: Global,
    items: &[Item],
    values: &NameList,
    names: &NameList,
) -> Result<Graph, AllocError>
    ensures { IfOk result (λ graph. graph ≡ drawn (names_view names.now)
        (flat_map (says_with (names_view values.now)) (map item_view items.now))
        (replicate (length names.now) [])) }
{
    let mut graph = Graph::new(alloc, names.as_slice().len())?;
    for item in items {
        draw_item(alloc, values, names, &mut graph, item)?;
    }
    Ok(graph)
}

fn draw_item(
    alloc: Global,
    values: &NameList,
    names: &NameList,
    graph: &mut Graph,
    item: &Item,
) -> Result<(), AllocError>
    requires { length graph.old ≡ length names.now }
    ensures size { IfOk result (λ _. length graph.new ≡ length names.now) }
    ensures drawn { IfOk result (λ _. graph.new ≡ drawn (names_view names.now)
        (says_with (names_view values.now) (item_view item.now)) graph.old) }
{
    let mut uses = Uses::new(alloc);
    match item {
        Item::Declare(declaration) => {
            uses.collect_kind(alloc, &declaration.kind)?;
            uses.collect_maybe(alloc, &declaration.value)?;
            draw_name(alloc, names, graph, &declaration.name, uses.found())
        }
        Item::Assign(_, name, value) => {
            if values.number(name).is_none() {
                return Ok(());
            }
            uses.collect(alloc, value)?;
            draw_name(alloc, names, graph, name, uses.found())
        }
        Item::Predicate(_, name, parameters, body) => {
            uses.collect_parameters(alloc, parameters)?;
            uses.collect(alloc, body)?;
            draw_name(alloc, names, graph, name, uses.found())
        }
        Item::Function(_, kind, name, parameters, body) => {
            uses.collect_kind(alloc, kind)?;
            uses.collect_parameters(alloc, parameters)?;
            uses.collect(alloc, body)?;
            draw_name(alloc, names, graph, name, uses.found())
        }
        _ => Ok(()),
    }
}

/// Edges from a name to those that it uses.
fn draw_name(
    alloc: Global,
    names: &NameList,
    graph: &mut Graph,
    name: &Word,
    used: &[Word],
) -> Result<(), AllocError>
    requires { length graph.old ≡ length names.now }
    ensures size { IfOk result (λ _. length graph.new ≡ length names.now) }
    ensures drawn { IfOk result (λ _. graph.new
        ≡ drawn_one (names_view names.now) (name.now, used.now) graph.old) }
{
    let targets = numbers(alloc, names, used)?;
    match names.number(name) {
        Some(node) => graph.add_edges(node, &targets),
        None => Ok(()),
    }
}

/// The numbers of some words that are names.
fn numbers(alloc: Global, names: &NameList, words: &[Word]) -> Result<Vec<usize>, AllocError>
    ensures { IfOk result (λ found. found.items ≡ numbers (names_view names.now) words.now) }
{
    let mut found = Vec::new(alloc);
    for word in words {
        if let Some(number) = names.number(word) {
            found.push(number)?;
        }
    }
    Ok(found)
}

/// The place of the first name that is marked, of those that may not depend on themselves.
fn first_marked(items: &[Item], names: &NameList, marks: &[bool]) -> Option<Place>
    ensures { result ≡ first_marked (names_view names.now) marks.now
        (flat_map restrained (map item_view items.now)) }
{
    for item in items {
        if let Some(place) = marked_item(item, names, marks) {
            return Some(place);
        }
    }
    None
}

fn marked_item(item: &Item, names: &NameList, marks: &[bool]) -> Option<Place>
    ensures { result ≡ first_marked (names_view names.now) marks.now
        (restrained (item_view item.now)) }
{
    match item {
        Item::Declare(declaration) => {
            marked_name(declaration.place, &declaration.name, names, marks)
        }
        Item::Predicate(place, name, _, _) => marked_name(*place, name, names, marks),
        Item::Function(place, kind, name, _, _) => {
            if is_annotation(kind) {
                return None;
            }
            marked_name(*place, name, names, marks)
        }
        _ => None,
    }
}

fn marked_name(place: Place, name: &Word, names: &NameList, marks: &[bool]) -> Option<Place>
    ensures { result ≡ first_marked (names_view names.now) marks.now ((place, name.now) ∷ []) }
{
    if is_marked(names.number(name), marks) {
        Some(place)
    } else {
        None
    }
}

fn is_marked(number: Option<usize>, marks: &[bool]) -> bool
    ensures { result ≡ marked number marks.now }
{
    match number {
        Some(number) => match marks.get(number) {
            Some(mark) => *mark,
            None => false,
        },
        None => false,
    }
}

/// Whether a kind is that of a search.
fn is_annotation(kind: &Kind) -> bool
    ensures { result ≡ is_annotation (kind_view kind.now) }
{
    if !is_single(&kind.indices) {
        return false;
    }
    if !is_fixed(kind.mode) {
        return false;
    }
    is_ann(&kind.base)
}

fn is_single(indices: &[Index]) -> bool
    ensures { result ≡ is_single (indices_of (map index_view indices.now)) }
{
    match indices {
        [] => true,
        [_, ..] => false,
    }
}

fn is_fixed(mode: Mode) -> bool
    ensures { result ≡ is_fixed mode }
{
    match mode {
        Mode::Unmarked => true,
        Mode::Par => true,
        Mode::Var => false,
    }
}

fn is_ann(base: &Base) -> bool
    ensures { result ≡ is_ann (base_view base.now) }
{
    match base {
        Base::Ann => true,
        Base::Bool => false,
        Base::Int => false,
        Base::String => false,
        Base::SetOfInt => false,
        Base::SetOf(_) => false,
        Base::Within(_) => false,
    }
}
