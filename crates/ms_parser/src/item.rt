//! Items. Each function but `item` reads what stands behind the word that such an item begins with.
//!
//! After a fault the tokens that are left are of no use: they are read no further.

ghost use Rattle.std.specs.Prelude.{◌≡◌, option_map};
ghost use Rattle.ms_syntax.specs.Tree.{ex_view, names_view, goal_view, item_view};
ghost use Rattle.ms_cursor.specs.Reads.{Reads};
ghost use Rattle.ms_parser.specs.Items as rules;

use crate::outermost::{any, declaration, declared, kind, names, notes, range};
use crate::parameters::parameters;
use ms_cursor::{Cursor, Stop};
use ms_expressions::word;
use ms_syntax::{Base, Binder, Expr, Goal, Item, Keyword, Kind, Mode, Place, Symbol};
use std::alloc::Global;

fn include(alloc: Global, tokens: &mut Cursor<'_>, place: Place) -> Result<Item, Stop>
    ensures { Reads item_view (rules.include place tokens.old) result tokens.new }
{
    let (text, _) = tokens.expect_text()?;
    Ok(Item::Include(place, text.copy(alloc)?))
}

/// Names, and the closing brace.
#[tactic(auto, unfolding(crate::specs::Items::name_list))]
fn name_list(alloc: Global, tokens: &mut Cursor<'_>) -> Result<Vec<Binder>, Stop>
    ensures { Reads (λ v. names_view v.items) (rules.name_list tokens.old) result tokens.new }
{
    if tokens.takes(Symbol::CloseBrace) {
        return Ok(Vec::new(alloc));
    }
    let found = names(alloc, tokens)?;
    tokens.expect(Symbol::CloseBrace)?;
    Ok(found)
}

/// The names of an enumeration, if they are given.
#[tactic(auto, unfolding(crate::specs::Items::elements))]
fn elements(alloc: Global, tokens: &mut Cursor<'_>) -> Result<Option<Vec<Binder>>, Stop>
    ensures { Reads (option_map (λ v. names_view v.items)) (rules.elements tokens.old) result
        tokens.new }
{
    if !tokens.takes(Symbol::Equal) {
        return Ok(None);
    }
    tokens.expect(Symbol::OpenBrace)?;
    let found = name_list(alloc, tokens)?;
    Ok(Some(found))
}

fn enumeration(alloc: Global, tokens: &mut Cursor<'_>, place: Place) -> Result<Item, Stop>
    ensures { Reads item_view (rules.enumeration place tokens.old) result tokens.new }
{
    let name = word(alloc, tokens)?;
    let names = elements(alloc, tokens)?;
    Ok(Item::Enum(place, name, names))
}

fn constraint(alloc: Global, tokens: &mut Cursor<'_>, place: Place) -> Result<Item, Stop>
    ensures { Reads item_view (rules.constraint place tokens.old) result tokens.new }
{
    let condition = any(alloc, tokens)?;
    let notes = notes(alloc, tokens)?;
    Ok(Item::Constraint(place, condition, notes))
}

#[tactic(auto, unfolding(crate::specs::Items::goal))]
fn goal(alloc: Global, tokens: &mut Cursor<'_>) -> Result<Goal, Stop>
    ensures { Reads goal_view (rules.goal tokens.old) result tokens.new }
{
    if let Some(token) = tokens.eat(Keyword::Satisfy) {
        return Ok(Goal::Satisfy(token.place));
    }
    if let Some(token) = tokens.eat(Keyword::Minimize) {
        return Ok(Goal::Minimize(token.place, any(alloc, tokens)?));
    }
    if let Some(token) = tokens.eat(Keyword::Maximize) {
        return Ok(Goal::Maximize(token.place, any(alloc, tokens)?));
    }
    let token = tokens.expect(Keyword::Search)?;
    Ok(Goal::Search(token.place, any(alloc, tokens)?))
}

fn solve(alloc: Global, tokens: &mut Cursor<'_>, place: Place) -> Result<Item, Stop>
    ensures { Reads item_view (rules.solve place tokens.old) result tokens.new }
{
    let notes = notes(alloc, tokens)?;
    let goal = goal(alloc, tokens)?;
    Ok(Item::Solve(place, notes, goal))
}

fn output(alloc: Global, tokens: &mut Cursor<'_>, place: Place) -> Result<Item, Stop>
    ensures { Reads item_view (rules.output place tokens.old) result tokens.new }
{
    Ok(Item::Output(place, any(alloc, tokens)?))
}

fn predicate(alloc: Global, tokens: &mut Cursor<'_>, place: Place) -> Result<Item, Stop>
    ensures { Reads item_view (rules.predicate place tokens.old) result tokens.new }
{
    let name = word(alloc, tokens)?;
    let parameters = parameters(alloc, tokens)?;
    tokens.expect(Symbol::Equal)?;
    let body = any(alloc, tokens)?;
    Ok(Item::Predicate(place, name, parameters, body))
}

fn function(alloc: Global, tokens: &mut Cursor<'_>, place: Place) -> Result<Item, Stop>
    ensures { Reads item_view (rules.function place tokens.old) result tokens.new }
{
    let kind = kind(alloc, tokens)?;
    let name = word(alloc, tokens)?;
    let parameters = parameters(alloc, tokens)?;
    tokens.expect(Symbol::Equal)?;
    let body = any(alloc, tokens)?;
    Ok(Item::Function(place, kind, name, parameters, body))
}

/// A declaration whose kind is the values of a set that has been read.
fn of_values(alloc: Global, tokens: &mut Cursor<'_>, place: Place, set: Expr) -> Result<Item, Stop>
    ensures { Reads item_view (rules.of_values place (ex_view set) tokens.old) result tokens.new }
{
    tokens.expect(Symbol::Colon)?;
    let kind = Kind {
        indices: Vec::new(alloc),
        mode: Mode::Unmarked,
        base: Base::Within(set),
    };
    Ok(Item::Declare(declared(alloc, tokens, place, kind)?))
}

/// What stands behind the range that the item begins with: a name that is assigned a value, or the
/// values of a declaration.
fn behind_range(
    alloc: Global,
    tokens: &mut Cursor<'_>,
    place: Place,
    first: Expr,
) -> Result<Item, Stop>
    ensures { Reads item_view (rules.behind_range place (ex_view first) tokens.old) result
        tokens.new }
{
    match &first {
        Expr::Name(_, name) => {
            if tokens.takes(Symbol::Equal) {
                let name = name.copy(alloc)?;
                return Ok(Item::Assign(place, name, any(alloc, tokens)?));
            }
            of_values(alloc, tokens, place, first)
        }
        _ => of_values(alloc, tokens, place, first),
    }
}

/// An item that begins with no word of its own.
#[tactic(auto, unfolding(crate::specs::Items::of_range))]
fn of_range(alloc: Global, tokens: &mut Cursor<'_>) -> Result<Item, Stop>
    ensures { Reads item_view (rules.of_range tokens.old) result tokens.new }
{
    let place = tokens.place();
    let first = range(alloc, tokens)?;
    behind_range(alloc, tokens, place, first)
}

#[tactic(auto, unfolding(crate::specs::Items::an_item))]
pub fn item(alloc: Global, tokens: &mut Cursor<'_>) -> Result<Item, Stop>
    ensures { Reads item_view (rules.an_item tokens.old) result tokens.new }
{
    if let Some(token) = tokens.eat(Keyword::Include) {
        return include(alloc, tokens, token.place);
    }
    if let Some(token) = tokens.eat(Keyword::Enum) {
        return enumeration(alloc, tokens, token.place);
    }
    if let Some(token) = tokens.eat(Keyword::Constraint) {
        return constraint(alloc, tokens, token.place);
    }
    if let Some(token) = tokens.eat(Keyword::Solve) {
        return solve(alloc, tokens, token.place);
    }
    if let Some(token) = tokens.eat(Keyword::Output) {
        return output(alloc, tokens, token.place);
    }
    if let Some(token) = tokens.eat(Keyword::Predicate) {
        return predicate(alloc, tokens, token.place);
    }
    if let Some(token) = tokens.eat(Keyword::Function) {
        return function(alloc, tokens, token.place);
    }
    if tokens.sees_kind() {
        return Ok(Item::Declare(declaration(alloc, tokens)?));
    }
    of_range(alloc, tokens)
}
