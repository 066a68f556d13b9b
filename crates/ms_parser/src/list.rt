//! Lists with semicolons between, up to the end of the tokens.

ghost use Rattle.std.specs.Prelude.{◌≡◌, map};
ghost use Rattle.ms_cursor.specs.Reads.{Reads};
ghost use Rattle.ms_expressions.specs.Nests.{turn_view};
ghost use Rattle.ms_parser.specs.Lists as rules;

use ms_cursor::{Cursor, Stop};
use ms_expressions::Turn;
use ms_syntax::Symbol;
use std::alloc::Global;

/// What such a list is made of.
pub trait Entry: Drop {
    ghost use Rattle.ms_cursor.specs.Reading.{Parser};

    /// What stands for one of them.
    ghost Seen: { Type 0 };

    /// What stands for this one.
    ghost view: { Self → Seen };

    /// What is read as one.
    ghost rule: { Parser Seen };

    /// Reads one. After a fault the tokens that are left are of no use.
    fn read(alloc: Global, tokens: &mut Cursor<'_>) -> Result<Self, Stop>
        ensures { Reads view (rule tokens.old) result tokens.new };
}

/// One behind a semicolon, or the end and whether a last semicolon is there.
#[tactic(auto, unfolding(crate::specs::Lists::item_turn))]
fn turn<T: Entry>(alloc: Global, tokens: &mut Cursor<'_>) -> Result<Turn<T>, Stop>
    ensures { Reads (turn_view T.view) (rules.item_turn T.rule tokens.old) result tokens.new }
{
    if !tokens.takes(Symbol::Semicolon) {
        tokens.finish()?;
        return Ok(Turn::Last(false));
    }
    if tokens.is_empty() {
        return Ok(Turn::Last(true));
    }
    Ok(Turn::Item(T::read(alloc, tokens)?))
}

/// All of them, and whether a last semicolon is there.
pub fn list<T: Entry>(alloc: Global, tokens: &mut Cursor<'_>) -> Result<(Vec<T>, bool), Stop>
    ensures { Reads (λ r. (map T.view r.0.items, r.1)) (rules.items T.rule tokens.old) result
        tokens.new }
{
    let mut found = Vec::new(alloc);
    if tokens.is_empty() {
        return Ok((found, false));
    }
    found.push(T::read(alloc, tokens)?)?;
    for _turn in 0..tokens.left() {
        match turn(alloc, tokens)? {
            Turn::Item(entry) => found.push(entry)?,
            Turn::Last(closed) => return Ok((found, closed)),
        }
    }
    tokens.finish()?;
    Ok((found, false))
}
