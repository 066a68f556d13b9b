//! What the grammar says of all tokens: where they nest no deeper than they may they are written,
//! with their places, by one tree at most, and each list of them is written so or has a first
//! fault.

ghost use Rattle.std.specs.Prelude.{◌≡◌, ◌==◌, ◌≤◌, ℕ, false};
ghost use Rattle.ms_syntax.specs.declared.token.Place.{Place};
ghost use Rattle.ms_syntax.specs.declared.tree.Operator.{Operator};
ghost use Rattle.ms_syntax.specs.Tree.{Ex, Items, Links, Pairs, chain, no_links, link};
ghost use Rattle.ms_syntax.specs.Tree.{of_concat, of_range, of_comparison};
ghost use Rattle.ms_syntax.specs.Grouping.{grouped, followed_by, operand, operation};
ghost use Rattle.ms_syntax.specs.Grammar.{Tokens, Writes, WritesTree, WritesPairs, IsShallow};
ghost use Rattle.ms_parser.specs.Answers.{HasAnswer};

/// Tokens that nest no deeper than they may are written by one expression at most.
pub fn one_expression()
    ensures { (ts : Tokens) (x y : Ex) → Writes x ts → Writes y ts → IsShallow ts → x ≡ y }
{}

/// The same of models.
pub fn one_model()
    ensures { (ts : Tokens) (x y : Items) → WritesTree x ts → WritesTree y ts → IsShallow ts
        → x ≡ y }
{}

/// The same of data.
pub fn one_data()
    ensures { (ts : Tokens) (x y : Pairs) → WritesPairs x ts → WritesPairs y ts → IsShallow ts
        → x ≡ y }
{}

/// Each list of tokens has an answer: a value that is written so, nested no deeper than it may, the
/// first token that cannot stand there, or the first that nests too deep.
pub fn some_answer()
    ensures expressions { (ts : Tokens) → HasAnswer Writes ts }
    ensures models { (ts : Tokens) → HasAnswer WritesTree ts }
    ensures assignments { (ts : Tokens) → HasAnswer WritesPairs ts }
{}

/// The last operator of a chain holds all before it, but for `++`, whose first holds all behind it.
/// So the last operator's place is that of the whole chain, and for `++` that of the first. Without
/// operators the operand is all. A range, a membership or a comparison that is written has one
/// operator exactly.
pub fn chains_group()
    ensures left { (n : ℕ) (e f : Ex) (links : Links) (op : Operator) (p : Place)
        → (n == of_concat) ≡ false
        → grouped n e (followed_by links op p f) ≡ operation op p (grouped n e links) (operand f) }
    ensures right { (e f : Ex) (links : Links) (op : Operator) (p : Place)
        → grouped of_concat e (link op p f links)
        ≡ operation op p (operand e) (grouped of_concat f links) }
    ensures alone { (n : ℕ) (e : Ex) → grouped n e no_links ≡ operand e }
    ensures one_operator { (n : ℕ) (e : Ex) (links : Links) (w : Tokens)
        → of_range ≤ n → n ≤ of_comparison → Writes (chain n e links) w
        → (op : Operator) × (p : Place) × (f : Ex) × (links ≡ link op p f no_links) }
{}
