//! What the definitions give for texts, tokens and trees that are written out. Each function does
//! nothing; its contract has the rows.

ghost use Rattle.std.specs.Prelude.{◌≡◌, [], ◌∷◌, None, Some, codes};
ghost use Rattle.ms_syntax.specs.Cut.{place_behind};
ghost use Rattle.ms_syntax.specs.Form.{blank, fault, form, token};
ghost use Rattle.ms_syntax.specs.Grammar.{left};
ghost use Rattle.ms_syntax.specs.Grouping.{grouped, operand, place_of};
ghost use Rattle.ms_syntax.specs.Tree.{access, chain, no_subscripts, of_concat, of_sum};
ghost use Rattle.ms_syntax.specs.declared.token.Keyword.TheVariants as keyword;
ghost use Rattle.ms_syntax.specs.declared.token.LexKind.TheVariants as lex;
ghost use Rattle.ms_syntax.specs.declared.token.Symbol.TheVariants as symbol;
ghost use Rattle.ms_syntax.specs.declared.token.Token.TheVariants as t;
ghost use Rattle.ms_lexer_tests.specs.Rows.{column, concat, concat_chain, digit, minus, minus_chain, spot};
ghost use Rattle.ms_lexer_tests.specs.Rows.{close_rows, keyword_if, one, open_rows, parenthesis, tokens};

/// Lines count by line feeds, and columns by bytes, both from 1.
pub fn places_of_bytes()
    ensures start { place_behind 0 [] ≡ spot 0 1 1 }
    ensures bytes { place_behind 1 (codes "ab") ≡ spot 1 1 3 }
    ensures feed { place_behind 2 (97 ∷ 10 ∷ []) ≡ spot 2 2 1 }
    ensures behind { place_behind 0 (97 ∷ 13 ∷ 10 ∷ 10 ∷ 9 ∷ []) ≡ spot 0 3 2 }
{}

/// The longest form at the front of some bytes.
#[tactic(auto, unfolding(ms_syntax::specs::Form::comment, ms_syntax::specs::Form::form, ms_syntax::specs::Form::keyword, ms_syntax::specs::Form::number, ms_syntax::specs::Form::text, ms_syntax::specs::Form::word))]
pub fn forms_of_bytes()
    ensures arrow { form (codes "<-1") ≡ token (t.Symbol symbol.LeftArrow) 2 }
    ensures keyword { form (codes "if x") ≡ token (t.Keyword keyword.If) 2 }
    ensures name { form (codes "iff") ≡ token (t.Name (codes "iff")) 3 }
    ensures range { form (codes "1..3") ≡ token (t.Number 1) 1 }
    ensures stuck { form (codes "1x") ≡ fault lex.BadByte 1 }
    ensures comment { form (codes "/**/a") ≡ blank 4 }
    ensures open { form (codes "/*/") ≡ fault lex.OpenComment 0 }
    ensures text { form (codes "\"ab") ≡ fault lex.OpenText 0 }
{}

/// `7 - 2 - 1` groups to the left and `7 ++ 2 ++ 1` to the right. The one stands at its second operator, the
/// other at its first.
pub fn groups_of_operators()
    ensures to_left { grouped of_sum (digit 1 7) minus_chain
        ≡ minus 4 (minus 2 (operand (digit 1 7)) (operand (digit 3 2))) (operand (digit 5 1)) }
    ensures to_right { grouped of_concat (digit 1 7) concat_chain
        ≡ concat 2 (operand (digit 1 7)) (concat 4 (operand (digit 3 2)) (operand (digit 5 1))) }
    ensures at_last { place_of (chain of_sum (digit 1 7) minus_chain) ≡ column 4 }
    ensures at_first { place_of (chain of_concat (digit 1 7) concat_chain) ≡ column 2 }
    ensures at_array { place_of (access (column 1) (digit 1 7) no_subscripts) ≡ column 1 }
{}

/// How many brackets and `if` may still open behind some tokens.
pub fn nesting_of_tokens()
    ensures none { left 2 [] ≡ Some 2 }
    ensures open { left 2 (tokens (parenthesis ∷ keyword_if ∷ [])) ≡ Some 0 }
    ensures closed { left 2 (tokens (open_rows ∷ one ∷ close_rows ∷ [])) ≡ Some 2 }
    ensures deep { left 1 (tokens (open_rows ∷ parenthesis ∷ one ∷ [])) ≡ None }
{}
