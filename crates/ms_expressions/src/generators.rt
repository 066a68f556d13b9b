//! A list of expressions that is one of generators.

ghost use Rattle.std.specs.Prelude.{◌≡◌, option_map, IfOk};
ghost use Rattle.ms_syntax.specs.Tree.{exs_view, gens_view};
ghost use Rattle.ms_expressions.specs.Rules.{generators_of};

use ms_syntax::{Binders, Expr, Generator};
use std::alloc::{AllocError, Global};
use std::mem;

/// The generators that the expressions are, if they are: names, and each last one with its set.
pub fn into_generators(alloc: Global, list: Vec<Expr>) -> Result<Option<Vec<Generator>>, AllocError>
    ensures { IfOk result
        (λ o. option_map (λ v. gens_view v.items) o ≡ generators_of (exs_view list.items)) }
{
    let mut found = Vec::new(alloc);
    let mut names = Vec::new(alloc);
    for e in list {
        let Some((binder, set)) = e.part() else {
            return Ok(None);
        };
        names.push(binder)?;
        if let Some(set) = set {
            let names = mem::replace(&mut names, Vec::new(alloc));
            let names = Binders::from_vec(names);
            found.push(Generator { names, set })?;
        }
    }
    if names.is_empty() {
        return Ok(Some(found));
    }
    Ok(None)
}
