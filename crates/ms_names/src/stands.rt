//! Which kinds stand where.

ghost use Rattle.std.specs.Prelude.{◌≡◌, ◌||◌, ◌&&◌, not};
ghost use Rattle.ms_syntax.specs.Tree.{base_view, indices_view, kind, kind_view, maybe_view};
ghost use Rattle.ms_typing.specs.Kinds as spec;

use crate::kinds::is_variable;
use ms_syntax::{Base, Expr, Index, Kind, Mode};

fn all_given(indices: &[Index]) -> bool
    ensures { result ≡ spec.all_given (indices_view indices.now) }
{
    for index in indices {
        match index {
            Index::AnyInt => return false,
            Index::Over(_) => {}
        }
    }
    true
}

fn none_given(indices: &[Index]) -> bool
    ensures { result ≡ spec.none_given (indices_view indices.now) }
{
    for index in indices {
        match index {
            Index::AnyInt => {}
            Index::Over(_) => return false,
        }
    }
    true
}

fn stands_single(known: bool, base: &Base) -> bool
    ensures { result ≡ spec.stands_single known (base_view base.now) }
{
    match base {
        Base::Bool => true,
        Base::Int => true,
        Base::String => known,
        Base::Ann => false,
        Base::SetOfInt => known,
        Base::SetOf(_) => known,
        Base::Within(_) => true,
    }
}

fn stands_array(base: &Base) -> bool
    ensures { result ≡ spec.stands_array (base_view base.now) }
{
    match base {
        Base::Bool => true,
        Base::Int => true,
        Base::String => false,
        Base::Ann => false,
        Base::SetOfInt => false,
        Base::SetOf(_) => false,
        Base::Within(_) => true,
    }
}

/// Whether an array's index sets are given, where they have to be.
fn stands_indexed(variable: bool, indices: &[Index]) -> bool
    ensures { result ≡ (not variable || spec.all_given (indices_view indices.now)) }
{
    if variable { all_given(indices) } else { true }
}

fn stands_array_of(indices: &[Index], variable: bool, base: &Base) -> bool
    ensures { result ≡ (spec.stands_array (base_view base.now) && (not variable || spec.all_given (indices_view indices.now))) }
{
    if stands_array(base) {
        stands_indexed(variable, indices)
    } else {
        false
    }
}

fn outside(indices: &[Index], mode: Mode, base: &Base) -> bool
    ensures { result ≡ spec.stands_outside (kind (indices_view indices.now) mode (base_view base.now)) }
{
    match indices.split_first() {
        None => stands_single(!is_variable(mode), base),
        Some(_) => stands_array_of(indices, is_variable(mode), base),
    }
}

/// Whether a kind is supported in a declaration that is an item.
pub fn stands_outside(kind: &Kind) -> bool
    ensures { result ≡ spec.stands_outside (kind_view kind.now) }
{
    outside(kind.indices.as_slice(), kind.mode, &kind.base)
}

fn passes_single(search: bool, known: bool, base: &Base) -> bool
    ensures { result ≡ spec.passes_single search known (base_view base.now) }
{
    match base {
        Base::Bool => true,
        Base::Int => true,
        Base::String => known,
        Base::Ann => search && known,
        Base::SetOfInt => known,
        Base::SetOf(_) => false,
        Base::Within(_) => false,
    }
}

fn is_bool_or_int(base: &Base) -> bool
    ensures { result ≡ spec.is_bool_or_int (base_view base.now) }
{
    match base {
        Base::Bool => true,
        Base::Int => true,
        Base::String => false,
        Base::Ann => false,
        Base::SetOfInt => false,
        Base::SetOf(_) => false,
        Base::Within(_) => false,
    }
}

fn passes_array(indices: &[Index], base: &Base) -> bool
    ensures { result ≡ (spec.is_bool_or_int (base_view base.now) && spec.none_given (indices_view indices.now)) }
{
    if is_bool_or_int(base) {
        none_given(indices)
    } else {
        false
    }
}

fn parameter(search: bool, indices: &[Index], mode: Mode, base: &Base) -> bool
    ensures { result ≡ spec.stands_parameter search (kind (indices_view indices.now) mode (base_view base.now)) }
{
    match indices.split_first() {
        None => passes_single(search, !is_variable(mode), base),
        Some(_) => passes_array(indices, base),
    }
}

/// Whether a kind is supported in a parameter, of a search function or of another.
pub fn stands_parameter(search: bool, kind: &Kind) -> bool
    ensures { result ≡ spec.stands_parameter search (kind_view kind.now) }
{
    parameter(search, kind.indices.as_slice(), kind.mode, &kind.base)
}

/// Whether a local of this kind, with this value, is supported.
pub fn stands_local(kind: &Kind, value: &Option<Expr>) -> bool
    ensures { result ≡ spec.stands_local (kind_view kind.now) (maybe_view value.now) }
{
    match value {
        Some(_) => stands_parameter(false, kind),
        None => false,
    }
}

fn is_ann(base: &Base) -> bool
    ensures { result ≡ spec.is_ann (base_view base.now) }
{
    match base {
        Base::Bool => false,
        Base::Int => false,
        Base::String => false,
        Base::Ann => true,
        Base::SetOfInt => false,
        Base::SetOf(_) => false,
        Base::Within(_) => false,
    }
}

fn result_single(mode: Mode, base: &Base) -> bool
    ensures { result ≡ (spec.is_bool_or_int (base_view base.now) || (spec.is_ann (base_view base.now) && not (spec.is_variable mode))) }
{
    if is_bool_or_int(base) {
        true
    } else {
        is_ann(base) && !is_variable(mode)
    }
}

fn result_of(indices: &[Index], mode: Mode, base: &Base) -> bool
    ensures { result ≡ spec.stands_result (kind (indices_view indices.now) mode (base_view base.now)) }
{
    match indices.split_first() {
        None => result_single(mode, base),
        Some(_) => false,
    }
}

/// Whether a kind is supported as the result of a function.
pub fn stands_result(kind: &Kind) -> bool
    ensures { result ≡ spec.stands_result (kind_view kind.now) }
{
    result_of(kind.indices.as_slice(), kind.mode, &kind.base)
}
