//! Whole expressions.

ghost use Rattle.std.specs.Prelude.{◌≡◌, ℕ, [], IfOk, Err};
ghost use Rattle.ms_syntax.specs.Tree.{Ex, ex_view};
ghost use Rattle.ms_syntax.specs.Grammar.{Writes, IsShallow, SyntaxAt, DeepAt};
ghost use Rattle.ms_cursor.specs.Reads.{Reads};
ghost use Rattle.ms_parser.specs.Items as rules;
ghost use Rattle.ms_parser.specs.Answers.{GivesUnlessMemory, FailsUnlessMemory};

use crate::answer::answer;
use crate::fault::ParseFault;
use ms_base::NESTING_LIMIT;
use ms_cursor::{Cursor, Stop};
use ms_expressions::{Reach, expr};
use ms_syntax::{Expr, Spanned};
use std::alloc::Global;

fn whole_statement(alloc: Global, tokens: &[Spanned]) -> Result<Expr, Stop>
    ensures { Reads ex_view (rules.statement tokens.now) result [] }
{
    let mut cursor = Cursor::new(tokens);
    let read = expr(alloc, &mut cursor, NESTING_LIMIT + 1, Reach::Any)?;
    cursor.finish()?;
    Ok(read)
}

/// The one expression that the grammar writes as the tokens, with brackets and `if` nested at most
/// `NESTING_LIMIT` deep. `Syntax(k)`: the token at `k` is the first with which no expression goes on,
/// or `k` is the number of tokens and they are no whole one. `Deep(k)`: the token at `k` is the
/// first that nests too deep.
pub fn statement(alloc: Global, tokens: &[Spanned]) -> Result<Expr, ParseFault>
    ensures found { IfOk result (λ e. Writes (ex_view e) tokens.now × IsShallow tokens.now) }
    ensures only { (x : Ex) → Writes x tokens.now → IsShallow tokens.now
        → GivesUnlessMemory ex_view x result }

    ensures syntax { (k : ℕ) → result ≡ Err (ParseFault.Syntax k) → SyntaxAt Writes tokens.now k }
    ensures syntax_given { (k : ℕ) → SyntaxAt Writes tokens.now k
        → FailsUnlessMemory (ParseFault.Syntax k) result }
    ensures deep { (k : ℕ) → result ≡ Err (ParseFault.Deep k) → DeepAt Writes tokens.now k }
    ensures deep_given { (k : ℕ) → DeepAt Writes tokens.now k
        → FailsUnlessMemory (ParseFault.Deep k) result }
{
    answer(tokens, whole_statement(alloc, tokens))
}
