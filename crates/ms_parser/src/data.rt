//! Data.

ghost use Rattle.std.specs.Prelude.{◌≡◌, ℕ, [], IfOk, Err};
ghost use Rattle.ms_syntax.specs.Tree.{Pairs, assignment_view, assignments_view};
ghost use Rattle.ms_syntax.specs.Grammar.{WritesPairs, IsShallow, SyntaxAt, DeepAt};
ghost use Rattle.ms_cursor.specs.Reads.{Reads};
ghost use Rattle.ms_parser.specs.Answers.{GivesUnlessMemory, FailsUnlessMemory};
ghost use Rattle.ms_parser.specs.Items as rules;

use crate::answer::answer;
use crate::fault::ParseFault;
use crate::list::{Entry, list};
use crate::outermost::any;
use ms_cursor::{Cursor, Stop};
use ms_expressions::binder;
use ms_syntax::{Assignment, Assignments, Binder, Spanned, Symbol};
use std::alloc::Global;

impl Entry for Assignment {
    ghost use Rattle.ms_syntax.specs.Tree.{Ex, assignment_view};
    ghost use Rattle.std.specs.Prelude.{List, ℕ};
    ghost use Rattle.ms_syntax.specs.declared.token.Place.{Place};
    ghost use Rattle.ms_parser.specs.Items.{assignment};

    ghost Seen = { Place × List ℕ × Ex };

    ghost view = { assignment_view };

    ghost rule = { assignment };

    #[tactic(auto, unfolding(crate::specs::Items::assignment))]
    fn read(alloc: Global, tokens: &mut Cursor<'_>) -> Result<Assignment, Stop> {
        let Binder { place, name } = binder(alloc, tokens)?;
        tokens.expect(Symbol::Equal)?;
        let value = any(alloc, tokens)?;
        Ok(Assignment { place, name, value })
    }
}

#[tactic(auto, unfolding(crate::specs::Items::assignments))]
fn whole_data(alloc: Global, tokens: &[Spanned]) -> Result<Assignments, Stop>
    ensures { Reads assignments_view (rules.assignments tokens.now) result [] }
{
    let mut cursor = Cursor::new(tokens);
    let (list, closed) = list(alloc, &mut cursor)?;
    cursor.finish()?;
    Ok(Assignments { list, closed })
}

/// The one list of assignments that the grammar writes as the tokens of data, with brackets and
/// `if` nested at most `NESTING_LIMIT` deep. `Syntax(k)`: the token at `k` is the first with which no
/// data goes on, or `k` is the number of tokens and they are no whole data. `Deep(k)`: the token at
/// `k` is the first that nests too deep.
pub fn assignments(alloc: Global, tokens: &[Spanned]) -> Result<Assignments, ParseFault>
    ensures found { IfOk result (λ d. WritesPairs (assignments_view d) tokens.now
        × IsShallow tokens.now) }
    ensures only { (x : Pairs) → WritesPairs x tokens.now → IsShallow tokens.now
        → GivesUnlessMemory assignments_view x result }

    ensures syntax { (k : ℕ) → result ≡ Err (ParseFault.Syntax k)
        → SyntaxAt WritesPairs tokens.now k }
    ensures syntax_given { (k : ℕ) → SyntaxAt WritesPairs tokens.now k
        → FailsUnlessMemory (ParseFault.Syntax k) result }
    ensures deep { (k : ℕ) → result ≡ Err (ParseFault.Deep k) → DeepAt WritesPairs tokens.now k }
    ensures deep_given { (k : ℕ) → DeepAt WritesPairs tokens.now k
        → FailsUnlessMemory (ParseFault.Deep k) result }
{
    answer(tokens, whole_data(alloc, tokens))
}
