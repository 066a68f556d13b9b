//! Which items declare the names of both texts.

ghost use Rattle.std.specs.Prelude.{◌≡◌, IfOk};
ghost use Rattle.ms_items.specs.Declaring.{declarers};
ghost use Rattle.ms_types.specs.Texts.{model_of, library_of};

use ms_items::declaring_items;
use ms_types::Typed;
use std::alloc::{AllocError, Global};

/// For each name that the items of both texts declare, the place of the item.
#[derive(Drop)]
pub struct Places {
    pub model: Vec<usize>,
    pub library: Vec<usize>,
}

/// The places of the items that declare names.
pub fn places_of(alloc: Global, typed: &Typed) -> Result<Places, AllocError>
    ensures model { IfOk result (λ p. p.model.items ≡ declarers 0 (model_of typed.now).0) }
    ensures library { IfOk result (λ p. p.library.items ≡ declarers 0 (library_of typed.now).0) }
{
    let model = declaring_items(alloc, typed.tree().items.as_slice())?;
    let library = declaring_items(alloc, typed.library().items.as_slice())?;
    Ok(Places { model, library })
}
