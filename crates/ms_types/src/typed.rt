//! Models that are well typed.

ghost use Rattle.std.specs.Prelude.{◌≡◌};
ghost use Rattle.std.specs.Coded.{Coded-set, coded_list};
ghost use Rattle.ms_syntax.specs.Tree.{tree_view};
ghost use Rattle.ms_typing.specs.Items.{world_of};
ghost use Rattle.ms_code.specs.Items.{items_code};
ghost use Rattle.ms_code.specs.contracts.item.Item as item;
ghost use Rattle.ms_names.specs.Worlds.{world_view};
ghost use Rattle.ms_types.specs.Faults.{IsAccepted};

use ms_code::Item;
use ms_names::World;
use ms_syntax::Tree;
use sqlite_items::Items;

/// A model that is well typed beside a library, with the typed trees of the items of both. Contracts see both texts by
/// `model_of` and `library_of`.
#[derive(Drop)]
pub struct Typed {
    pub(crate) tree: Tree,
    pub(crate) library: Tree,
    pub(crate) world: World,
    pub(crate) items: Items<Item>,
    pub(crate) library_items: Items<Item>,
    pub ghost accepted: { ∥ IsAccepted (tree_view tree).0 (tree_view library).0 ∥₁ },
    pub ghost names: { world_view world ≡ world_of (tree_view tree).0 (tree_view library).0 },
    pub ghost trees: { items ≡ items_code (world_of (tree_view tree).0 (tree_view library).0) (tree_view tree).0 } by { Coded-set (coded_list item.the_row.coded) _ _ },
    pub ghost library_trees: { library_items ≡ items_code (world_of (tree_view tree).0 (tree_view library).0) (tree_view library).0 } by { Coded-set (coded_list item.the_row.coded) _ _ },
}

impl Typed {
    ghost use Rattle.ms_types.specs.Texts.{library_of, model_of, names_among};

    /// The model.
    pub fn tree(&self) -> &Tree
        ensures same { tree_view result.now ≡ model_of self.now }
        ensures accepted { ∥ IsAccepted (model_of self.now).0 (library_of self.now).0 ∥₁ }
    {
        &self.tree
    }

    /// The library.
    pub fn library(&self) -> &Tree
        ensures { tree_view result.now ≡ library_of self.now }
    {
        &self.library
    }

    /// The names that the items of both texts declare.
    pub fn names(&self) -> &World
        ensures { world_view result.now ≡ names_among self.now }
    {
        &self.world
    }

    /// The typed trees of the model's items, in their order. A `Reference` to the model counts the names that they
    /// declare, and not the items.
    pub fn items(&self) -> &[Item]
        ensures { result.now ≡ items_code (names_among self.now) (model_of self.now).0 }
    {
        self.items.as_slice()
    }

    /// The typed trees of the library's items, in their order; a `Reference` to the library counts likewise.
    pub fn library_items(&self) -> &[Item]
        ensures { result.now ≡ items_code (names_among self.now) (library_of self.now).0 }
    {
        self.library_items.as_slice()
    }
}
