//! What a check finds beside both texts.

use ms_code::Item;
use ms_names::World;
use sqlite_items::Items;

/// The typed trees of the items of both texts.
#[derive(Drop)]
pub(crate) struct Trees {
    pub(crate) items: Items<Item>,
    pub(crate) library_items: Items<Item>,
}

/// The names that both texts declare, and the typed trees of their items.
#[derive(Drop)]
pub(crate) struct Found {
    pub(crate) world: World,
    pub(crate) trees: Trees,
}
