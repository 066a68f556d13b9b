//! The first name that is declared twice, or that is built in, inside an expression. Each list of
//! locals, of generators and of parameters has names of its own.

ghost use Rattle.std.specs.Prelude.{map, []};
ghost use Rattle.std.specs.Option.{option_or};
ghost use Rattle.ms_syntax.specs.Tree.{arm_view, arms_of, base_view, declaration_view, decls_of};
ghost use Rattle.ms_syntax.specs.Tree.{ex_view, exs_view, gens_view, generators_view};
ghost use Rattle.ms_syntax.specs.Tree.{index_view, indices_of, kind_view, links_view};
ghost use Rattle.ms_syntax.specs.Tree.{maybe_view, row_view, rows_of, subscripts_view};
ghost use Rattle.ms_syntax.specs.Tree.{parameter_view};
ghost use Rattle.ms_declarations.specs.Repeats as spec;
ghost use Rattle.ms_declarations.specs.Repeats.{Tells};

use crate::names::NameList;
use crate::stop::Stop;
use ms_syntax::{
    Arm, Base, Declaration, Expr, Generator, Generators, Index, Kind, Link, Parameter, Row,
    Subscript,
};
use std::alloc::Global;

#[cycle(twice)]
pub fn check(alloc: Global, expression: &Expr) -> Result<(), Stop>
    ensures { Tells (spec.twice (ex_view expression.now)) result }
{
    match expression {
        Expr::Let(_, declarations, _, body) => {
            check_locals(alloc, declarations)?;
            check(alloc, body)
        }
        Expr::Equivalence(first, links) => {
            check(alloc, first)?;
            check_links(alloc, links)?;
            Ok(())
        }
        Expr::Implication(first, links) => {
            check(alloc, first)?;
            check_links(alloc, links)?;
            Ok(())
        }
        Expr::Disjunction(first, links) => {
            check(alloc, first)?;
            check_links(alloc, links)?;
            Ok(())
        }
        Expr::Conjunction(first, links) => {
            check(alloc, first)?;
            check_links(alloc, links)?;
            Ok(())
        }
        Expr::Comparison(first, link) => {
            check(alloc, first)?;
            check(alloc, &link.operand)
        }
        Expr::Membership(first, link) => {
            check(alloc, first)?;
            check(alloc, &link.operand)
        }
        Expr::Range(first, link) => {
            check(alloc, first)?;
            check(alloc, &link.operand)
        }
        Expr::Sum(first, links) => {
            check(alloc, first)?;
            check_links(alloc, links)?;
            Ok(())
        }
        Expr::Product(first, links) => {
            check(alloc, first)?;
            check_links(alloc, links)?;
            Ok(())
        }
        Expr::Concatenation(first, links) => {
            check(alloc, first)?;
            check_links(alloc, links)?;
            Ok(())
        }
        Expr::Prefix(_, _, operand) => check(alloc, operand),
        Expr::Access(_, array, subscripts) => {
            check(alloc, array)?;
            check_subscripts(alloc, subscripts)?;
            Ok(())
        }
        Expr::Number(_, _) => Ok(()),
        Expr::Text(_, _) => Ok(()),
        Expr::Truth(_, _) => Ok(()),
        Expr::Name(_, _) => Ok(()),
        Expr::Call(_, _, arguments) => check_all(alloc, arguments),
        Expr::GeneratorCall(_, _, generators, body) => {
            check_generators(alloc, generators)?;
            check(alloc, body)
        }
        Expr::Parenthesis(_, inner) => check(alloc, inner),
        Expr::Array(_, elements) => check_all(alloc, elements),
        Expr::Comprehension(_, element, generators) => {
            check(alloc, element)?;
            check_generators(alloc, generators)
        }
        Expr::Rows(_, rows) => check_rows(alloc, rows),
        Expr::Set(_, elements) => check_all(alloc, elements),
        Expr::If(_, condition, branch, arms, last) => {
            check(alloc, condition)?;
            check(alloc, branch)?;
            check_arms(alloc, arms)?;
            check(alloc, last)
        }
    }
}

#[cycle(twice)]
pub fn check_maybe(alloc: Global, part: &Option<Expr>) -> Result<(), Stop>
    ensures { Tells (spec.twice_maybe (maybe_view part.now)) result }
{
    match part {
        Some(inner) => check(alloc, inner),
        None => Ok(()),
    }
}

#[cycle(twice)]
fn check_all(alloc: Global, parts: &[Expr]) -> Result<(), Stop>
    ensures { Tells (spec.twice_exs (exs_view parts.now)) result }
{
    for part in parts {
        check(alloc, part)?;
    }
    Ok(())
}

#[cycle(twice)]
fn check_links(alloc: Global, links: &[Link]) -> Result<(), Stop>
    ensures { Tells (spec.twice_links (links_view links.now)) result }
{
    for link in links {
        check(alloc, &link.operand)?;
    }
    Ok(())
}

#[cycle(twice)]
fn check_arms(alloc: Global, arms: &[Arm]) -> Result<(), Stop>
    ensures { Tells (spec.twice_arms (arms_of (map arm_view arms.now))) result }
{
    for arm in arms {
        check(alloc, &arm.condition)?;
        check(alloc, &arm.branch)?;
    }
    Ok(())
}

#[cycle(twice)]
fn check_rows(alloc: Global, rows: &[Row]) -> Result<(), Stop>
    ensures { Tells (spec.twice_rows (rows_of (map row_view rows.now))) result }
{
    for row in rows {
        check_all(alloc, &row.elements)?;
    }
    Ok(())
}

#[cycle(twice)]
fn check_subscripts(alloc: Global, subscripts: &[Subscript]) -> Result<(), Stop>
    ensures { Tells (spec.twice_subscripts (subscripts_view subscripts.now)) result }
{
    for subscript in subscripts {
        check(alloc, &subscript.first)?;
        check_maybe(alloc, &subscript.second)?;
    }
    Ok(())
}

#[cycle(twice)]
fn check_generators(alloc: Global, generators: &Generators) -> Result<(), Stop>
    ensures { let view = generators_view generators.now in
        Tells (option_or (spec.twice_gens [] view.0) (spec.twice_maybe view.1)) result }
{
    check_generator_list(alloc, &generators.list)?;
    match &generators.condition {
        Some(condition) => check(alloc, condition),
        None => Ok(()),
    }
}

#[cycle(twice)]
fn check_generator_list(alloc: Global, generators: &[Generator]) -> Result<(), Stop>
    ensures { Tells (spec.twice_gens [] (gens_view generators.now)) result }
{
    let mut names = NameList::new(alloc);
    for generator in generators {
        names.declare_all(alloc, generator.names.as_slice())?;
        check(alloc, &generator.set)?;
    }
    Ok(())
}

#[cycle(twice)]
fn check_locals(alloc: Global, declarations: &[Declaration]) -> Result<(), Stop>
    ensures { Tells (spec.twice_locals [] (decls_of (map declaration_view declarations.now)))
        result }
{
    let mut names = NameList::new(alloc);
    for declaration in declarations {
        names.declare(alloc, declaration.place, &declaration.name)?;
        check_kind(alloc, &declaration.kind)?;
        check_maybe(alloc, &declaration.value)?;
    }
    Ok(())
}

#[cycle(twice)]
pub fn check_kind(alloc: Global, kind: &Kind) -> Result<(), Stop>
    ensures { Tells (spec.twice_kind (kind_view kind.now)) result }
{
    check_indices(alloc, &kind.indices)?;
    check_base(alloc, &kind.base)
}

#[cycle(twice)]
fn check_base(alloc: Global, base: &Base) -> Result<(), Stop>
    ensures { Tells (spec.twice_base (base_view base.now)) result }
{
    match base {
        Base::Bool => Ok(()),
        Base::Int => Ok(()),
        Base::String => Ok(()),
        Base::Ann => Ok(()),
        Base::SetOfInt => Ok(()),
        Base::SetOf(set) => check(alloc, set),
        Base::Within(set) => check(alloc, set),
    }
}

#[cycle(twice)]
fn check_indices(alloc: Global, indices: &[Index]) -> Result<(), Stop>
    ensures { Tells (spec.twice_indices (indices_of (map index_view indices.now))) result }
{
    for index in indices {
        match index {
            Index::AnyInt => {}
            Index::Over(set) => check(alloc, set)?,
        }
    }
    Ok(())
}

/// The parameters of a predicate or function.
pub fn check_parameters(alloc: Global, parameters: &[Parameter]) -> Result<(), Stop>
    ensures { Tells (spec.twice_params [] (map parameter_view parameters.now)) result }
{
    let mut names = NameList::new(alloc);
    for parameter in parameters {
        names.declare(alloc, parameter.place, &parameter.name)?;
        check_kind(alloc, &parameter.kind)?;
    }
    Ok(())
}
