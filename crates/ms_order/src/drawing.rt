//! The graph of what names use.

ghost use Rattle.std.specs.Prelude.{◌≡◌, ◌<◌, [], length, map, replicate, false, IfOk, Some};
ghost use Rattle.std.specs.List.{flat_map};
ghost use Rattle.ms_syntax.specs.Tree.{item_view};
ghost use Rattle.ms_order.specs.Drawing.{drawn, drawn_at, drawn_one, flag_at, flag_by, flagged};
ghost use Rattle.ms_order.specs.Drawing.{flags_by, numbers, says_by};
ghost use Rattle.ms_order.specs.Order.{number_in};

use crate::names::NameList;
use ms_free_names::Uses;
use ms_syntax::{Item, Word};
use std::alloc::{AllocError, Global};

/// For each name whether it is a variable or a parameter.
pub(crate) fn flags(
    alloc: Global,
    items: &[Item],
    names: &NameList,
) -> Result<Vec<bool>, AllocError>
    ensures { IfOk result (λ flags. flags.items
        ≡ flags_by names.now (map item_view items.now) (replicate (length names.now) false)) }
{
    let mut flags = Vec::new(alloc);
    flags.resize(names.len(), false)?;
    for item in items {
        flag(item, names, &mut flags);
    }
    Ok(flags)
}

fn flag(item: &Item, names: &NameList, flags: &mut Vec<bool>)
    requires { length flags.old.items ≡ length names.now }
    ensures size { length flags.new.items ≡ length names.now }
    ensures flagged { flags.new.items ≡ flag_by names.now (item_view item.now) flags.old.items }
{
    match item {
        Item::Declare(declaration) => flag_name(&declaration.name, names, flags),
        _ => {}
    }
}

fn flag_name(name: &Word, names: &NameList, flags: &mut Vec<bool>)
    requires { length flags.old.items ≡ length names.now }
    ensures size { length flags.new.items ≡ length names.now }
    ensures flagged { flags.new.items ≡ flag_at (number_in names.now name.now) flags.old.items }
{
    if let Some(number) = names.number(name) {
        flags[number] = true;
    }
}

fn is_flagged(name: &Word, names: &NameList, flags: &[bool]) -> bool
    ensures { result ≡ flagged names.now flags.now name.now }
{
    match names.number(name) {
        Some(number) => match flags.get(number) {
            Some(flag) => *flag,
            None => false,
        },
        None => false,
    }
}

/// The graph whose edges lead from each name to those that it uses.
#[tactic(auto, using(crate::proofs::Drawn::drawn_append))]
pub(crate) fn draw(
    alloc: Global,
    items: &[Item],
    names: &NameList,
    flags: &[bool],
) -> Result<Vec<Vec<usize>>, AllocError>
    ensures { IfOk result (λ graph. map (λ v. v.items) graph.items ≡ drawn names.now
        (flat_map (says_by names.now flags.now) (map item_view items.now))
        (replicate (length names.now) [])) }
{
    let mut graph = no_edges(alloc, names.len())?;
    for item in items {
        draw_item(alloc, item, names, flags, &mut graph)?;
    }
    Ok(graph)
}

fn no_edges(alloc: Global, nodes: usize) -> Result<Vec<Vec<usize>>, AllocError>
    ensures { IfOk result (λ graph. map (λ v. v.items) graph.items ≡ replicate nodes []) }
{
    let mut graph = Vec::new(alloc);
    for _ in 0..nodes {
        graph.push(Vec::new(alloc))?;
    }
    Ok(graph)
}

fn draw_item(
    alloc: Global,
    item: &Item,
    names: &NameList,
    flags: &[bool],
    graph: &mut Vec<Vec<usize>>,
) -> Result<(), AllocError>
    requires { length graph.old.items ≡ length names.now }
    ensures size { IfOk result (λ _. length graph.new.items ≡ length names.now) }
    ensures drawn { IfOk result (λ _. map (λ v. v.items) graph.new.items ≡ drawn names.now
        (says_by names.now flags.now (item_view item.now)) (map (λ v. v.items) graph.old.items)) }
{
    let mut uses = Uses::new(alloc);
    match item {
        Item::Declare(declaration) => {
            uses.collect_kind(alloc, &declaration.kind)?;
            uses.collect_maybe(alloc, &declaration.value)?;
            draw_name(alloc, names, graph, &declaration.name, uses.found())
        }
        Item::Assign(_, name, value) => {
            if !is_flagged(name, names, flags) {
                return Ok(());
            }
            uses.collect(alloc, value)?;
            draw_name(alloc, names, graph, name, uses.found())
        }
        Item::Predicate(_, name, parameters, body) => {
            uses.collect_parameters(alloc, parameters)?;
            uses.collect(alloc, body)?;
            draw_name(alloc, names, graph, name, uses.found())
        }
        Item::Function(_, kind, name, parameters, body) => {
            uses.collect_kind(alloc, kind)?;
            uses.collect_parameters(alloc, parameters)?;
            uses.collect(alloc, body)?;
            draw_name(alloc, names, graph, name, uses.found())
        }
        _ => Ok(()),
    }
}

/// Edges from a name to those that it uses.
fn draw_name(
    alloc: Global,
    names: &NameList,
    graph: &mut Vec<Vec<usize>>,
    name: &Word,
    used: &[Word],
) -> Result<(), AllocError>
    requires { length graph.old.items ≡ length names.now }
    ensures size { IfOk result (λ _. length graph.new.items ≡ length names.now) }
    ensures drawn { IfOk result (λ _. map (λ v. v.items) graph.new.items
        ≡ drawn_one names.now (name.now, used.now) (map (λ v. v.items) graph.old.items)) }
{
    let targets = numbers(alloc, names, used)?;
    match names.number(name) {
        Some(node) => add_edges(graph, node, &targets),
        None => Ok(()),
    }
}

fn add_edges(graph: &mut Vec<Vec<usize>>, node: usize, targets: &[usize]) -> Result<(), AllocError>
    requires { node < length graph.old.items }
    ensures size { IfOk result (λ _. length graph.new.items ≡ length graph.old.items) }
    ensures drawn { IfOk result (λ _. map (λ v. v.items) graph.new.items
        ≡ drawn_at (Some node) targets.now (map (λ v. v.items) graph.old.items)) }
{
    graph[node].extend_from_slice(targets)?;
    Ok(())
}

/// The numbers of some words that are names.
fn numbers(alloc: Global, names: &NameList, words: &[Word]) -> Result<Vec<usize>, AllocError>
    ensures { IfOk result (λ found. found.items ≡ numbers names.now words.now) }
{
    let mut found = Vec::new(alloc);
    for word in words {
        if let Some(number) = names.number(word) {
            found.push(number)?;
        }
    }
    Ok(found)
}
