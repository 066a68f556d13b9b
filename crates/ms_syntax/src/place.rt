//! Where expressions and items stand.

ghost use Rattle.std.specs.Prelude.{◌≡◌};
ghost use Rattle.ms_syntax.specs.Tree.{ex_view, item_view, links_view};
ghost use Rattle.ms_syntax.specs.Grouping.{item_place, operand, place_of, root_place};
ghost use Rattle.ms_syntax.specs.Grouping.{to_left, to_right};

use crate::token::Place;
use crate::tree::{Expr, Item, Link};

impl Expr {
    /// The place of the node: of operators that of the one at the root of how they group, which is
    /// the last one, and of `++` the first; of anything else that of its first token.
    #[cycle(place)]
    pub fn place(&self) -> Place
        ensures { result ≡ place_of (ex_view self.now) }
    {
        match self {
            Expr::Equivalence(first, links) => last_place(first, links),
            Expr::Implication(first, links) => last_place(first, links),
            Expr::Disjunction(first, links) => last_place(first, links),
            Expr::Conjunction(first, links) => last_place(first, links),
            Expr::Sum(first, links) => last_place(first, links),
            Expr::Product(first, links) => last_place(first, links),
            Expr::Concatenation(first, links) => next_place(first, links),
            Expr::Comparison(_, link) => link.place,
            Expr::Membership(_, link) => link.place,
            Expr::Range(_, link) => link.place,
            Expr::Let(place, _, _, _) => *place,
            Expr::Prefix(place, _, _) => *place,
            Expr::Access(place, _, _) => *place,
            Expr::Number(place, _) => *place,
            Expr::Text(place, _) => *place,
            Expr::Truth(place, _) => *place,
            Expr::Name(place, _) => *place,
            Expr::Call(place, _, _) => *place,
            Expr::GeneratorCall(place, _, _, _) => *place,
            Expr::Parenthesis(place, _) => *place,
            Expr::Array(place, _) => *place,
            Expr::Comprehension(place, _, _) => *place,
            Expr::Rows(place, _) => *place,
            Expr::Set(place, _) => *place,
            Expr::If(place, _, _, _, _) => *place,
        }
    }
}

/// The place of operators that group to the left: that of the last one.
#[cycle(place)]
fn last_place(first: &Box<Expr>, links: &[Link]) -> Place
    ensures { result ≡ root_place (place_of (ex_view first.now.value))
        (to_left (operand (ex_view first.now.value)) (links_view links.now)) }
{
    match links.last() {
        Some(link) => link.place,
        None => first.place(),
    }
}

/// The place of operators that group to the right: that of the first one.
#[cycle(place)]
fn next_place(first: &Box<Expr>, links: &[Link]) -> Place
    ensures { result ≡ root_place (place_of (ex_view first.now.value))
        (to_right (ex_view first.now.value) (links_view links.now)) }
{
    match links.first() {
        Some(link) => link.place,
        None => first.place(),
    }
}

impl Item {
    /// The place of the item's first token.
    pub fn place(&self) -> Place
        ensures { result ≡ item_place (item_view self.now) }
    {
        match self {
            Item::Include(place, _) => *place,
            Item::Declare(declaration) => declaration.place,
            Item::Enum(place, _, _) => *place,
            Item::Assign(place, _, _) => *place,
            Item::Constraint(place, _, _) => *place,
            Item::Solve(place, _, _) => *place,
            Item::Output(place, _) => *place,
            Item::Predicate(place, _, _, _) => *place,
            Item::Function(place, _, _, _, _) => *place,
        }
    }
}
