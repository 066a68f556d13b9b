ghost use Rattle.std.specs.Prelude.{◌≡◌, ◌++◌, ◌∷◌, [], map, IfOk, OnOk};
ghost use Rattle.ms_prim.specs.Constraints.{part_tree, part_trees, term_trees, lit_tree};
ghost use Rattle.ms_prim.specs.Naming.{joined, variables, tied, names_of};

use crate::pieces::{Lit, Part, Term, Tie};
use crate::primitive::Primitive;
use ms_trees::Ground;
use std::alloc::{AllocError, Global};

/// The variables that the primitive names, as often as it names them.
pub fn names(alloc: Global, p: &Primitive) -> Result<Vec<u32>, AllocError>
    ensures { IfOk result (λ list. list.items ≡ names_of p.now) }
{
    let mut list = Vec::new(alloc);
    push_names(p, &mut list)?;
    Ok(list)
}

fn push_names(p: &Primitive, list: &mut Vec<u32>) -> Result<(), AllocError>
    ensures { OnOk result (list.new.items ≡ list.old.items ++ names_of p.now) }
{
    match p {
        Primitive::Sum(terms, _, v) => {
            push_sum(terms.as_slice(), *v, list)?;
            Ok(())
        }
        Primitive::Product(x, y, v) => {
            push_two(*x, *y, *v, list)?;
            Ok(())
        }
        Primitive::Quotient(x, y, v) => {
            push_two(*x, *y, *v, list)?;
            Ok(())
        }
        Primitive::Remainder(x, y, v) => {
            push_two(*x, *y, *v, list)?;
            Ok(())
        }
        Primitive::Absolute(x, v) => {
            push_one(*x, *v, list)?;
            Ok(())
        }
        Primitive::Least(parts, v) => {
            push_list(parts.as_slice(), *v, list)?;
            Ok(())
        }
        Primitive::Greatest(parts, v) => {
            push_list(parts.as_slice(), *v, list)?;
            Ok(())
        }
        Primitive::Count(parts, x, v) => {
            push_list_and(parts.as_slice(), *x, *v, list)?;
            Ok(())
        }
        Primitive::Element(_, parts, x, v) => {
            push_list_and(parts.as_slice(), *x, *v, list)?;
            Ok(())
        }
        Primitive::Element2(_, _, _, parts, x, y, v) => {
            push_grid(parts.as_slice(), *x, *y, *v, list)?;
            Ok(())
        }
        Primitive::Total(terms, _, _) => {
            push_terms(terms.as_slice(), list)?;
            Ok(())
        }
        Primitive::Compare(_, x, y, tie) => {
            push_compared(*x, *y, *tie, list)?;
            Ok(())
        }
        Primitive::Member(x, _, tie) => {
            push_member(*x, *tie, list)?;
            Ok(())
        }
        Primitive::Clause(lits, tie) => {
            push_clause(lits.as_slice(), *tie, list)?;
            Ok(())
        }
        Primitive::Table(parts, _, tie) => {
            push_tied_list(parts.as_slice(), *tie, list)?;
            Ok(())
        }
        Primitive::Differ(parts, tie) => {
            push_tied_list(parts.as_slice(), *tie, list)?;
            Ok(())
        }
        Primitive::Whole(g) => {
            push_variables(g, list)?;
            Ok(())
        }
    }
}

fn push_sum(terms: &[Term], v: u32, list: &mut Vec<u32>) -> Result<(), AllocError>
    ensures { OnOk result (list.new.items ≡ list.old.items ++ (joined (map variables (term_trees terms.now)) ++ v ∷ [])) }
{
    push_terms(terms, list)?;
    list.push(v)?;
    Ok(())
}

fn push_one(x: Part, v: u32, list: &mut Vec<u32>) -> Result<(), AllocError>
    ensures { OnOk result (list.new.items ≡ list.old.items ++ (variables (part_tree x) ++ v ∷ [])) }
{
    push_part(x, list)?;
    list.push(v)?;
    Ok(())
}

fn push_two(x: Part, y: Part, v: u32, list: &mut Vec<u32>) -> Result<(), AllocError>
    ensures { OnOk result (list.new.items ≡ list.old.items ++ (variables (part_tree x) ++ variables (part_tree y) ++ v ∷ [])) }
{
    push_part(x, list)?;
    push_part(y, list)?;
    list.push(v)?;
    Ok(())
}

fn push_list(parts: &[Part], v: u32, list: &mut Vec<u32>) -> Result<(), AllocError>
    ensures { OnOk result (list.new.items ≡ list.old.items ++ (joined (map variables (part_trees parts.now)) ++ v ∷ [])) }
{
    push_parts(parts, list)?;
    list.push(v)?;
    Ok(())
}

fn push_list_and(parts: &[Part], x: Part, v: u32, list: &mut Vec<u32>) -> Result<(), AllocError>
    ensures { OnOk result (list.new.items ≡ list.old.items ++ (joined (map variables (part_trees parts.now)) ++ variables (part_tree x) ++ v ∷ [])) }
{
    push_parts(parts, list)?;
    push_part(x, list)?;
    list.push(v)?;
    Ok(())
}

fn push_grid(
    parts: &[Part],
    x: Part,
    y: Part,
    v: u32,
    list: &mut Vec<u32>,
) -> Result<(), AllocError>
    ensures { OnOk result (list.new.items ≡ list.old.items ++ (joined (map variables (part_trees parts.now)) ++ variables (part_tree x) ++ variables (part_tree y) ++ v ∷ [])) }
{
    push_parts(parts, list)?;
    push_part(x, list)?;
    push_part(y, list)?;
    list.push(v)?;
    Ok(())
}

fn push_compared(x: Part, y: Part, tie: Tie, list: &mut Vec<u32>) -> Result<(), AllocError>
    ensures { OnOk result (list.new.items ≡ list.old.items ++ (variables (part_tree x) ++ variables (part_tree y) ++ tied tie)) }
{
    push_part(x, list)?;
    push_part(y, list)?;
    push_tie(tie, list)?;
    Ok(())
}

fn push_member(x: Part, tie: Tie, list: &mut Vec<u32>) -> Result<(), AllocError>
    ensures { OnOk result (list.new.items ≡ list.old.items ++ (variables (part_tree x) ++ tied tie)) }
{
    push_part(x, list)?;
    push_tie(tie, list)?;
    Ok(())
}

fn push_clause(lits: &[Lit], tie: Tie, list: &mut Vec<u32>) -> Result<(), AllocError>
    ensures { OnOk result (list.new.items ≡ list.old.items ++ (joined (map variables (map lit_tree lits.now)) ++ tied tie)) }
{
    push_lits(lits, list)?;
    push_tie(tie, list)?;
    Ok(())
}

fn push_tied_list(parts: &[Part], tie: Tie, list: &mut Vec<u32>) -> Result<(), AllocError>
    ensures { OnOk result (list.new.items ≡ list.old.items ++ (joined (map variables (part_trees parts.now)) ++ tied tie)) }
{
    push_parts(parts, list)?;
    push_tie(tie, list)?;
    Ok(())
}

fn push_part(part: Part, list: &mut Vec<u32>) -> Result<(), AllocError>
    ensures { OnOk result (list.new.items ≡ list.old.items ++ variables (part_tree part)) }
{
    if let Part::V(v) = part {
        list.push(v)?;
    }
    Ok(())
}

fn push_parts(parts: &[Part], list: &mut Vec<u32>) -> Result<(), AllocError>
    ensures { OnOk result (list.new.items ≡ list.old.items ++ joined (map variables (part_trees parts.now))) }
{
    for part in parts {
        push_part(*part, list)?;
    }
    Ok(())
}

fn push_terms(terms: &[Term], list: &mut Vec<u32>) -> Result<(), AllocError>
    ensures { OnOk result (list.new.items ≡ list.old.items ++ joined (map variables (term_trees terms.now))) }
{
    for term in terms {
        list.push(term.var)?;
    }
    Ok(())
}

fn push_lits(lits: &[Lit], list: &mut Vec<u32>) -> Result<(), AllocError>
    ensures { OnOk result (list.new.items ≡ list.old.items ++ joined (map variables (map lit_tree lits.now))) }
{
    for lit in lits {
        list.push(lit.var)?;
    }
    Ok(())
}

fn push_tie(tie: Tie, list: &mut Vec<u32>) -> Result<(), AllocError>
    ensures { OnOk result (list.new.items ≡ list.old.items ++ tied tie) }
{
    if let Tie::Iff(v) = tie {
        list.push(v)?;
    }
    Ok(())
}

// Adds the variables of the tree.
#[cycle(naming)]
fn push_variables(g: &Ground, list: &mut Vec<u32>) -> Result<(), AllocError>
    ensures { OnOk result (list.new.items ≡ list.old.items ++ variables g.now) }
{
    match g {
        Ground::Num(_) | Ground::Undef | Ground::True | Ground::False => Ok(()),
        Ground::Var(v) | Ground::BVar(v) => {
            list.push(*v)?;
            Ok(())
        }
        Ground::Add(a, b)
        | Ground::Sub(a, b)
        | Ground::Mul(a, b)
        | Ground::Div(a, b)
        | Ground::Mod(a, b)
        | Ground::Iff(a, b)
        | Ground::Imp(a, b)
        | Ground::Xor(a, b)
        | Ground::Eq(a, b)
        | Ground::Ne(a, b)
        | Ground::Lt(a, b)
        | Ground::Le(a, b) => {
            push_variables(a.get(), list)?;
            push_variables(b.get(), list)?;
            Ok(())
        }
        Ground::Neg(a) | Ground::Abs(a) | Ground::ToInt(a) | Ground::Not(a) | Ground::In(a, _) => {
            push_variables(a.get(), list)?;
            Ok(())
        }
        Ground::Sum(parts)
        | Ground::Least(parts)
        | Ground::Greatest(parts)
        | Ground::And(parts)
        | Ground::Or(parts)
        | Ground::AllDiff(parts)
        | Ground::Table(parts, _) => {
            push_all(parts.as_slice(), list)?;
            Ok(())
        }
        Ground::Elem(_, parts, a) | Ground::Count(parts, a) => {
            push_all(parts.as_slice(), list)?;
            push_variables(a.get(), list)?;
            Ok(())
        }
        Ground::Elem2(_, _, _, parts, a, b) => {
            push_all(parts.as_slice(), list)?;
            push_variables(a.get(), list)?;
            push_variables(b.get(), list)?;
            Ok(())
        }
        Ground::IteI(c, a, b) | Ground::IteB(c, a, b) => {
            push_variables(c.get(), list)?;
            push_variables(a.get(), list)?;
            push_variables(b.get(), list)?;
            Ok(())
        }
    }
}

#[cycle(naming)]
fn push_all(parts: &[Ground], list: &mut Vec<u32>) -> Result<(), AllocError>
    ensures { OnOk result (list.new.items ≡ list.old.items ++ joined (map variables parts.now)) }
{
    for part in parts {
        push_variables(part, list)?;
    }
    Ok(())
}
