//! Models.

ghost use Rattle.std.specs.Prelude.{◌≡◌, ℕ, [], IfOk, Err};
ghost use Rattle.ms_syntax.specs.Tree.{Items, tree_view};
ghost use Rattle.ms_syntax.specs.Grammar.{WritesTree, IsShallow, SyntaxAt, DeepAt};
ghost use Rattle.ms_cursor.specs.Reads.{Reads};
ghost use Rattle.ms_parser.specs.Answers.{GivesUnlessMemory, FailsUnlessMemory};
ghost use Rattle.ms_parser.specs.Items as rules;

use crate::answer::answer;
use crate::fault::ParseFault;
use crate::item::item;
use crate::list::{Entry, list};
use ms_cursor::{Cursor, Stop};
use ms_syntax::{Item, Spanned, Tree};
use std::alloc::Global;

impl Entry for Item {
    ghost use Rattle.ms_syntax.specs.Tree.{It, item_view};
    ghost use Rattle.ms_parser.specs.Items.{an_item};

    ghost Seen = { It };

    ghost view = { item_view };

    ghost rule = { an_item };

    fn read(alloc: Global, tokens: &mut Cursor<'_>) -> Result<Item, Stop> {
        item(alloc, tokens)
    }
}

#[tactic(auto, unfolding(crate::specs::Items::model))]
fn whole_model(alloc: Global, tokens: &[Spanned]) -> Result<Tree, Stop>
    ensures { Reads tree_view (rules.model tokens.now) result [] }
{
    let mut cursor = Cursor::new(tokens);
    let (items, closed) = list(alloc, &mut cursor)?;
    cursor.finish()?;
    Ok(Tree { items, closed })
}

/// The one tree that the grammar writes as the tokens of a model, with brackets and `if` nested at
/// most `NESTING_LIMIT` deep. `Syntax(k)`: the token at `k` is the first with which no model goes on,
/// or `k` is the number of tokens and they are no whole one. `Deep(k)`: the token at `k` is the
/// first that nests too deep.
pub fn model(alloc: Global, tokens: &[Spanned]) -> Result<Tree, ParseFault>
    ensures found { IfOk result (λ t. WritesTree (tree_view t) tokens.now × IsShallow tokens.now) }
    ensures only { (x : Items) → WritesTree x tokens.now → IsShallow tokens.now
        → GivesUnlessMemory tree_view x result }

    ensures syntax { (k : ℕ) → result ≡ Err (ParseFault.Syntax k)
        → SyntaxAt WritesTree tokens.now k }
    ensures syntax_given { (k : ℕ) → SyntaxAt WritesTree tokens.now k
        → FailsUnlessMemory (ParseFault.Syntax k) result }
    ensures deep { (k : ℕ) → result ≡ Err (ParseFault.Deep k) → DeepAt WritesTree tokens.now k }
    ensures deep_given { (k : ℕ) → DeepAt WritesTree tokens.now k
        → FailsUnlessMemory (ParseFault.Deep k) result }
{
    answer(tokens, whole_model(alloc, tokens))
}
