//! The values that are given to declarations.

ghost use Rattle.std.specs.Prelude.{◌≡◌, IfOk, None, Some, slice_get, option_map, if◌then◌else◌};
ghost use Rattle.ms_syntax.specs.Tree.{ex_view};
ghost use Rattle.ms_types.specs.Texts.{names_among};
ghost use Rattle.ms_typing.specs.Conversion.{converts as converts_of};
ghost use Rattle.ms_code.specs.Code.{brought as brought_of};
ghost use Rattle.ms_made.specs.Giving as g;
ghost use Rattle.ms_declared.specs.Views.{given_of};

use ms_code::{Code, Item};
use ms_declared::Given;
use ms_names::Scope;
use ms_nodes::bring;
use ms_rows::{TypeFault, converts};
use ms_syntax::Expr;
use ms_types::{Elaborated, Typed, check_expression};
use ms_typing::{ExprType, Surroundings};
use sqlite_items::{Boxed, at};
use std::alloc::{AllocError, Global};

fn brought(
    alloc: Global,
    kind: ExprType,
    part: Elaborated,
) -> Result<Option<Boxed<Code>>, AllocError>
    ensures { IfOk result (λ e. e ≡ (if converts_of part.kind kind then Some (brought_of kind part.kind part.code) else None)) }
{
    if converts(part.kind, kind) {
        Ok(Some(bring(alloc, kind, part)?))
    } else {
        Ok(None)
    }
}

/// The typed tree of data, brought to the declared type; none where they have another, or name anything.
pub fn typed_data(
    alloc: Global,
    typed: &Typed,
    kind: ExprType,
    e: &Expr,
) -> Result<Option<Boxed<Code>>, AllocError>
    ensures { IfOk result (λ code. code ≡ g.typed_data (names_among typed.now) kind (ex_view e.now)) }
{
    match check_expression(alloc, typed, Surroundings::Data, &Scope::Outer, e) {
        Ok(part) => brought(alloc, kind, part),
        Err(TypeFault::Memory) => Err(AllocError),
        Err(_) => Ok(None),
    }
}

fn given_by(item: &Item) -> Option<Given<'_>>
    ensures { option_map given_of result ≡ g.given_item (Some item.now) }
{
    match item {
        Item::Assign(place, _, code) => Some(Given {
            file: place.file,
            code: Some(code),
        }),
        _ => None,
    }
}

/// The value that an assignment item gives.
pub fn given_item(items: &[Item], place: usize) -> Option<Given<'_>>
    ensures { option_map given_of result ≡ g.given_item (slice_get items.now place) }
{
    match at(items, place) {
        Some(item) => given_by(item),
        None => None,
    }
}
