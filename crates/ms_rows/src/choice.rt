//! `if`: conditions, each before its branch, and the last branch.

ghost use Rattle.std.specs.Prelude.{◌≡◌, ◌∷◌, [], map, MatchOption};
ghost use Rattle.ms_typing.specs.Least as least;
ghost use Rattle.ms_typing.specs.Row.{arms};
ghost use Rattle.ms_typing.specs.Term as f;
ghost use Rattle.ms_rows.specs.Choice as spec;
ghost use Rattle.ms_rows.specs.Forms.{result_of};

use crate::conversion::{converts, is_search, known_of, truths};
use crate::joins::{join, join_all};
use crate::operands::convert_all;
use ms_typing::{ExprType, Shape};

/// What each condition is to be.
#[derive(Clone, Copy)]
pub(crate) enum Conditions {
    /// A known Boolean.
    Known,
    /// A Boolean, known where it is.
    Own,
    /// A search, or a known Boolean where it is none.
    Search,
}

fn condition_asked(conditions: Conditions, t: ExprType) -> ExprType
    ensures { result ≡ spec.condition_asked conditions t }
{
    match conditions {
        Conditions::Known => truths(true),
        Conditions::Own => truths(known_of(t)),
        Conditions::Search => {
            if is_search(t) {
                ExprType::Search
            } else {
                truths(true)
            }
        }
    }
}

/// A condition with its branch, and what comes after them; `None` where at most a last branch is left.
fn first_arm(types: &[ExprType]) -> Option<(ExprType, ExprType, &[ExprType])>
    ensures { MatchOption result
        ((least.conditions types.now ≡ []) × (least.branches types.now ≡ types.now))
        (λ arm. types.now ≡ arm.0 ∷ arm.1 ∷ arm.2.now) }
{
    match types.split_first() {
        Some((condition, behind)) => match behind.split_first() {
            Some((branch, others)) => Some((*condition, *branch, others)),
            None => None,
        },
        None => None,
    }
}

fn some_search(types: &[ExprType]) -> bool
    ensures { result ≡ least.some_search (least.conditions types.now) }
{
    let mut rest = types;
    for _turn in 0..types.len() {
        match first_arm(rest) {
            Some((condition, _, others)) => {
                if is_search(condition) {
                    return true;
                }
                rest = others;
            }
            None => return false,
        }
    }
    false
}

fn all_known(types: &[ExprType]) -> bool
    ensures { result ≡ least.all_known (least.conditions types.now) }
{
    let mut rest = types;
    for _turn in 0..types.len() {
        match first_arm(rest) {
            Some((condition, _, others)) => {
                if !known_of(condition) {
                    return false;
                }
                rest = others;
            }
            None => return true,
        }
    }
    true
}

/// The join of a type with the branches.
fn join_branches(start: ExprType, types: &[ExprType]) -> Option<ExprType>
    ensures { result ≡ least.join_all start (least.branches types.now) }
{
    let mut all = start;
    let mut rest = types;
    for _turn in 0..types.len() {
        match first_arm(rest) {
            Some((_, branch, others)) => {
                match join(all, branch) {
                    Some(joined) => all = joined,
                    None => return None,
                }
                rest = others;
            }
            None => return join_all(all, rest),
        }
    }
    Some(all)
}

/// The join of the branches.
fn joined(types: &[ExprType]) -> Option<ExprType>
    ensures { result ≡ least.join_some (least.branches types.now) }
{
    match first_arm(types) {
        Some((_, branch, others)) => join_branches(branch, others),
        None => match types.split_first() {
            Some((branch, others)) => join_all(*branch, others),
            None => None,
        },
    }
}

/// Whether the conditions are what they are to be, and all branches convert to one type.
fn fit_arms(types: &[ExprType], conditions: Conditions, asked: ExprType) -> bool
    ensures { result ≡ least.convert_all types.now
        (arms (map (spec.condition_asked conditions) (least.conditions types.now)) asked) }
{
    let mut rest = types;
    for _turn in 0..types.len() {
        match first_arm(rest) {
            Some((condition, branch, others)) => {
                if !converts(condition, condition_asked(conditions, condition)) {
                    return false;
                }
                if !converts(branch, asked) {
                    return false;
                }
                rest = others;
            }
            None => return convert_all(rest, &[asked]),
        }
    }
    false
}

/// Where each condition is known: branches of any one type.
#[tactic(auto, using(crate::proofs::Choices::all_asked))]
fn choose_known(types: &[ExprType], branch: ExprType) -> Option<ExprType>
    ensures { result ≡ result_of (least.choose_known (least.conditions types.now) types.now branch) }
{
    if fit_arms(types, Conditions::Known, branch) {
        Some(branch)
    } else {
        None
    }
}

/// Where a condition is variable: Booleans or integers.
#[tactic(auto, using(crate::proofs::Choices::own_asked))]
fn choose_variable(types: &[ExprType], branch: ExprType) -> Option<ExprType>
    ensures { result ≡ result_of (least.choose_variable (least.conditions types.now) types.now branch) }
{
    match branch {
        ExprType::Plain(c, _, _) => {
            let variable = ExprType::Plain(c, Shape::Single, false);
            if fit_arms(types, Conditions::Own, variable) {
                Some(variable)
            } else {
                None
            }
        }
        _ => None,
    }
}

/// Where a condition is a search.
#[tactic(auto, using(crate::proofs::Choices::search_asked))]
fn choose_search(types: &[ExprType]) -> Option<ExprType>
    ensures { result ≡ result_of (least.needs types.now
        (arms (least.search_conditions (least.conditions types.now)) ExprType.Search) ExprType.Search) }
{
    if fit_arms(types, Conditions::Search, ExprType::Search) {
        Some(ExprType::Search)
    } else {
        None
    }
}

pub(crate) fn choose(types: &[ExprType]) -> Option<ExprType>
    ensures { result ≡ result_of (least.row f.choice types.now) }
{
    if some_search(types) {
        return choose_search(types);
    }
    let branch = joined(types)?;
    if all_known(types) {
        choose_known(types, branch)
    } else {
        choose_variable(types, branch)
    }
}
