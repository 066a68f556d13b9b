//! Whether parts are what a row asks for.

ghost use Rattle.std.specs.Prelude.{◌≡◌, ◌∷◌, ◌++◌, [], map, replicate, length};
ghost use Rattle.ms_typing.specs.Least as least;
ghost use Rattle.ms_rows.specs.Forms.{kind_of, read, result_of};

use crate::conversion::{as_known, converts, known_of, truths};
use ms_typing::{ExprType, Scalar, Shape};

/// What most rows ask of a part, and what they give.
#[derive(Clone, Copy)]
pub(crate) enum Kind {
    /// Known where all parts of this sort are.
    Follows(Scalar, Shape),
    Fixed(ExprType),
}

pub(crate) fn a_truth() -> Kind
    ensures { kind_of result ≡ least.a_truth }
{
    Kind::Follows(Scalar::Truth, Shape::Single)
}

pub(crate) fn a_number() -> Kind
    ensures { kind_of result ≡ least.a_number }
{
    Kind::Follows(Scalar::Number, Shape::Single)
}

pub(crate) fn at(known: bool, kind: Kind) -> ExprType
    ensures { result ≡ least.at known (kind_of kind) }
{
    match kind {
        Kind::Follows(c, s) => ExprType::Plain(c, s, known),
        Kind::Fixed(t) => t,
    }
}

/// The type, read as known where this is said.
pub(crate) fn read_as(known: bool, t: ExprType) -> ExprType
    ensures { result ≡ read known t }
{
    if known { as_known(t) } else { t }
}

/// Whether each part converts to what is asked of it.
pub(crate) fn convert_all(types: &[ExprType], asked: &[ExprType]) -> bool
    ensures { result ≡ least.convert_all types.now asked.now }
{
    if types.len() != asked.len() {
        return false;
    }
    for i in 0..types.len() {
        if !converts(types[i], asked[i]) {
            return false;
        }
    }
    true
}

/// Whether each argument converts to what a function takes.
pub(crate) fn fit_params(types: &[ExprType], params: &[ExprType], known: bool) -> bool
    ensures { result ≡ least.convert_all types.now (map (read known) params.now) }
{
    if types.len() != params.len() {
        return false;
    }
    for i in 0..types.len() {
        if !converts(types[i], read_as(known, params[i])) {
            return false;
        }
    }
    true
}

pub(crate) fn fit_kinds(types: &[ExprType], kinds: &[Kind], known: bool) -> bool
    ensures { result ≡ least.convert_all types.now (map (least.at known) (map kind_of kinds.now)) }
{
    if types.len() != kinds.len() {
        return false;
    }
    for i in 0..types.len() {
        if !converts(types[i], at(known, kinds[i])) {
            return false;
        }
    }
    true
}

/// Whether all parts convert to one type.
pub(crate) fn fit_one(types: &[ExprType], asked: ExprType) -> bool
    ensures { result ≡ least.convert_all types.now (replicate (length types.now) asked) }
{
    for t in types {
        if !converts(*t, asked) {
            return false;
        }
    }
    true
}

/// Whether the last part converts to one type, and those before it to what is asked of them.
#[tactic(auto, using(crate::proofs::Lists::split_fits, crate::proofs::Lists::none_with_last))]
pub(crate) fn fit_with_last(types: &[ExprType], asked: &[ExprType], last: ExprType) -> bool
    ensures { result ≡ least.convert_all types.now (asked.now ++ (last ∷ [])) }
{
    match types.split_last() {
        Some((t, others)) => convert_all(others, asked) && converts(*t, last),
        None => false,
    }
}

/// Whether the first part converts to one type, and those behind it to what is asked of them.
pub(crate) fn fit_with_first(types: &[ExprType], first: ExprType, asked: &[ExprType]) -> bool
    ensures { result ≡ least.convert_all types.now (first ∷ asked.now) }
{
    match types.split_first() {
        Some((t, others)) => converts(*t, first) && convert_all(others, asked),
        None => false,
    }
}

/// Whether a part is known, if it is of the sort that counts.
fn is_known_as(kind: Kind, t: ExprType) -> bool
    ensures { result ≡ least.are_known (kind_of kind ∷ []) (t ∷ []) }
{
    match kind {
        Kind::Follows(_, _) => known_of(t),
        Kind::Fixed(_) => true,
    }
}

/// Whether all parts that count for it are known.
#[tactic(auto, using(crate::proofs::Lists::known_past, crate::proofs::Lists::known_step))]
pub(crate) fn are_known(kinds: &[Kind], types: &[ExprType]) -> bool
    ensures { result ≡ least.are_known (map kind_of kinds.now) types.now }
{
    for i in 0..kinds.len() {
        if i >= types.len() {
            return true;
        }
        if !is_known_as(kinds[i], types[i]) {
            return false;
        }
    }
    true
}

/// The type, where the parts convert to what is asked of them.
pub(crate) fn needs(types: &[ExprType], asked: &[ExprType], given: ExprType) -> Option<ExprType>
    ensures { result ≡ result_of (least.needs types.now asked.now given) }
{
    if convert_all(types, asked) {
        Some(given)
    } else {
        None
    }
}

pub(crate) fn uniform(kinds: &[Kind], given: Kind, types: &[ExprType]) -> Option<ExprType>
    ensures { result ≡ result_of (least.uniform (map kind_of kinds.now) (kind_of given) types.now) }
{
    let known = are_known(kinds, types);
    if fit_kinds(types, kinds, known) {
        Some(at(known, given))
    } else {
        None
    }
}

/// The type of a part; where there is none, the row asks for another number of parts.
pub fn operand(index: usize, types: &[ExprType]) -> ExprType
    ensures { result ≡ least.operand index types.now }
{
    match types.get(index) {
        Some(t) => *t,
        None => truths(true),
    }
}

#[tactic(auto, using(crate::proofs::Lists::split_last_of))]
pub(crate) fn last_of(types: &[ExprType]) -> Option<ExprType>
    ensures { result ≡ least.last_of types.now }
{
    match types.split_last() {
        Some((last, _)) => Some(*last),
        None => None,
    }
}
