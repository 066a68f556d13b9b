//! Models beside a library.

ghost use Rattle.std.specs.Prelude.{◌≡◌, map, Err, IfOk, IsOk, None};
ghost use Rattle.ms_syntax.specs.Tree.{ex_view, item_view, tree_view};
ghost use Rattle.ms_typing.specs.Items.{world_of};
ghost use Rattle.ms_typing.specs.Least.{typing};
ghost use Rattle.ms_typing.specs.Term.{term_of};
ghost use Rattle.ms_names.specs.Scopes.{names_of};
ghost use Rattle.ms_names.specs.Worlds.{world_view};
ghost use Rattle.ms_declarations.specs.First.{FirstFault};
ghost use Rattle.ms_code.specs.Code.{code_of};
ghost use Rattle.ms_code.specs.Items.{items_code};
ghost use Rattle.ms_elaborator.specs.Answers.{TellsOf};
ghost use Rattle.ms_rows.specs.declared.fault.TypeFault.{TypeFault as Fault};
ghost use Rattle.ms_types.specs.Faults.{AreTrees, Decides, Declares, FailsBy, HasFault, HasTypes, IsAccepted, IsFound, Succeeds, Verdict};
ghost use Rattle.ms_types.specs.Texts.{library_of, model_of, names_among};
ghost use Rattle.ms_types.specs.Walk.{walk_texts};

use crate::found::{Found, Trees};
use crate::typed::Typed;
use ms_declarations::{DeclarationFault, declaration_fault, one_first_fault};
use ms_elaborator::{Elaborated, elaborate};
use ms_items::items;
use ms_names::{Scope, World};
use ms_rows::TypeFault;
use ms_syntax::{Expr, Item, Tree};
use ms_typing::Surroundings;
use sqlite_items::Items;
use std::alloc::Global;

/// The first fault of what both texts declare.
fn check_declarations(alloc: Global, model: &Tree, library: &Tree) -> Result<(), TypeFault>
    ensures { Declares (tree_view model.now).0 (tree_view library.now).0 result }
{
    match declaration_fault(alloc, model, library) {
        Ok(None) => Ok(()),
        Ok(Some(fault)) => match fault {
            DeclarationFault::Include(place) => Err(TypeFault::Include(place)),
            DeclarationFault::Twice(earlier, later) => Err(TypeFault::Twice(earlier, later)),
            DeclarationFault::NoSolve => Err(TypeFault::NoSolve),
            DeclarationFault::Cycle(place) => Err(TypeFault::Cycle(place)),
        },
        Err(_) => Err(TypeFault::Memory),
    }
}

/// The typed trees of both texts among these names, the library's before the model's, or the first fault in their types.
fn check_items(
    alloc: Global,
    world: &World,
    model: &[Item],
    library: &[Item],
) -> Result<Trees, TypeFault>
    ensures typing { TellsOf (λ _. tt) (walk_texts (world_view world.now) (map item_view library.now) (map item_view model.now)) result }
    ensures trees { IfOk result (λ t. AreTrees (world_view world.now) (map item_view model.now) (map item_view library.now) t) }
{
    let library_items = items(alloc, world, library)?;
    let items = items(alloc, world, model)?;
    Ok(Trees {
        items,
        library_items,
    })
}

/// Both texts, whose names are known and which declare nothing wrong.
fn check_types(
    alloc: Global,
    world: &World,
    model: &[Item],
    library: &[Item],
) -> Result<Trees, TypeFault>
    ensures typing { FirstFault (map item_view model.now) (map item_view library.now) None
        → world_view world.now ≡ world_of (map item_view model.now) (map item_view library.now)
        → HasTypes (map item_view model.now) (map item_view library.now) result }
    ensures trees { IfOk result (λ t. AreTrees (world_view world.now) (map item_view model.now) (map item_view library.now) t) }
{
    check_items(alloc, world, model, library)
}

/// The names of both texts and the typed trees of their items, where they are well typed.
fn find(alloc: Global, model: &Tree, library: &Tree) -> Result<Found, TypeFault>
    ensures { Decides (tree_view model.now).0 (tree_view library.now).0 result }
{
    check_declarations(alloc, model, library)?;
    let world = World::new(alloc, model.items.as_slice(), library.items.as_slice())?;
    let trees = check_types(
        alloc,
        &world,
        model.items.as_slice(),
        library.items.as_slice(),
    )?;
    Ok(Found { world, trees })
}

/// A model that is accepted, with its names and the typed trees of both texts.
fn accept(
    model: Tree,
    library: Tree,
    world: World,
    items: Items<ms_code::Item>,
    library_items: Items<ms_code::Item>,
) -> Typed
    requires accepted { IsAccepted (tree_view model).0 (tree_view library).0 }
    requires names { world_view world ≡ world_of (tree_view model).0 (tree_view library).0 }
    requires trees { items ≡ items_code (world_of (tree_view model).0 (tree_view library).0) (tree_view model).0 }
    requires library_trees { library_items ≡ items_code (world_of (tree_view model).0 (tree_view library).0) (tree_view library).0 }
    ensures given_model { model_of result ≡ tree_view model }
    ensures given_library { library_of result ≡ tree_view library }
{
    Typed {
        tree: model,
        library,
        world,
        items,
        library_items,
    }
}

/// A model with its names and typed trees, or a fault.
fn checked(alloc: Global, model: Tree, library: Tree) -> Result<Typed, TypeFault>
    ensures given_model { IfOk result (λ t. model_of t ≡ tree_view model) }
    ensures given_library { IfOk result (λ t. library_of t ≡ tree_view library) }
    ensures verdict { Verdict (tree_view model).0 (tree_view library).0 result }
{
    let Found { world, trees } = find(alloc, &model, &library)?;
    let Trees {
        items,
        library_items,
    } = trees;
    Ok(accept(model, library, world, items, library_items))
}

/// Whether a model is well typed beside a library, and else its first fault: an `include` of another
/// file, a name that is declared twice, no solve item, a cycle of definitions, and then the first
/// node in the order of both texts that has no type, the library's text before the model's.
pub fn check(alloc: Global, model: Tree, library: Tree) -> Result<Typed, TypeFault>
    ensures given_model { IfOk result (λ t. model_of t ≡ tree_view model) }
    ensures given_library { IfOk result (λ t. library_of t ≡ tree_view library) }
    ensures accepted { IsOk result → IsAccepted (tree_view model).0 (tree_view library).0 }
    ensures accepted_given { IsAccepted (tree_view model).0 (tree_view library).0 → Succeeds result }
    ensures refused { (f : Fault) → result ≡ Err f
        → IsFound (tree_view model).0 (tree_view library).0 f }
    ensures refused_given { (f : Fault) → HasFault (tree_view model).0 (tree_view library).0 f
        → FailsBy f result }
{
    one_first_fault();
    checked(alloc, model, library)
}

/// One more expression in these surroundings and among these names: its least type with its typed
/// tree, or its first fault of types; names that it declares twice are not looked at. Its names are the
/// library's where its places say that it stands there.
pub fn check_expression(
    alloc: Global,
    typed: &Typed,
    surroundings: Surroundings,
    scope: &Scope<'_>,
    e: &Expr,
) -> Result<Elaborated, TypeFault>
    ensures typing { TellsOf (λ m. m.kind) (typing (term_of (names_among typed.now) surroundings
        (names_of scope.now) (ex_view e.now))) result }
    ensures code { IfOk result (λ m. m.code ≡ code_of (names_among typed.now) surroundings (names_of scope.now) (ex_view e.now)) }
{
    elaborate(alloc, &typed.world, surroundings, scope, e)
}
