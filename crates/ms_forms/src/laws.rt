//! What holds of bytes and their tokens whatever reads them. Each function does nothing; its
//! contract is the law.

ghost use Rattle.std.specs.Prelude.{◌≡◌, ◌⊎◌, ℕ, ◌<◌, ◌≤◌, All, List, length, map, take};
ghost use Rattle.ms_forms.specs.Blank.{IsBlank};
ghost use Rattle.ms_forms.specs.Failing.{Fails};
ghost use Rattle.ms_forms.specs.Spelling.{AllSpell, IsNumber, IsWellFormed, Spells};
ghost use Rattle.ms_forms.specs.Spelling.{spaced, written};
ghost use Rattle.ms_syntax.specs.Cut.{HasTokens, HasFault};
ghost use Rattle.ms_syntax.specs.Form.{blank, token, fault, form};

use ms_syntax::{LexKind, Spanned, Token};

/// Bytes have a token list or a first fault, and that is at one of the bytes.
pub fn some_reading()
    ensures tokens_or_fault { (file : ℕ) (bytes : List ℕ)
        → ((ts : List Spanned) × HasTokens file bytes ts)
        ⊎ ((kind : LexKind) × (k : ℕ) × HasFault bytes kind k) }
    ensures fault_within { (bytes : List ℕ) (kind : LexKind) (k : ℕ)
        → HasFault bytes kind k → k < length bytes }
{}

/// What is cut off as a token is a spelling of it, and no token has a longer one there (maximal
/// munch). No token begins where white space, a comment or a fault stands, but for a number that
/// is faulty only further on. White space and comments are what their rules say, and a fault is
/// what the rule of its kind says.
pub fn longest_form()
    ensures spelled { (bytes : List ℕ) (t : Token) (n : ℕ)
        → form bytes ≡ token t n → Spells t (take n bytes) × (n ≤ length bytes) }
    ensures longest { (bytes : List ℕ) (t other : Token) (n m : ℕ)
        → form bytes ≡ token t n → n < m → m ≤ length bytes → Spells other (take m bytes) → ⊥ }
    ensures at_blank { (bytes : List ℕ) (other : Token) (n m : ℕ)
        → form bytes ≡ blank n → m ≤ length bytes → Spells other (take m bytes) → ⊥ }
    ensures at_fault { (bytes : List ℕ) (other : Token) (kind : LexKind) (n m : ℕ)
        → form bytes ≡ fault kind n → m ≤ length bytes → Spells other (take m bytes)
        → IsNumber other }
    ensures blanks { (bytes : List ℕ) (n : ℕ) → form bytes ≡ blank n → 0 < n → IsBlank bytes n }
    ensures fails { (bytes : List ℕ) (kind : LexKind) (n : ℕ)
        → form bytes ≡ fault kind n → Fails bytes kind n }
{}

/// The rules decide what is cut off: white space, a comment or a fault wherever a rule of theirs
/// says so, and a token where one is spelled, none has a longer spelling there, and no rule says
/// that nothing can be taken. A spelling is one token's.
pub fn decided_form()
    ensures blank_only { (bytes : List ℕ) (n : ℕ) → IsBlank bytes n → form bytes ≡ blank n }
    ensures fails_only { (bytes : List ℕ) (kind : LexKind) (n : ℕ)
        → Fails bytes kind n → form bytes ≡ fault kind n }
    ensures token_only { (bytes : List ℕ) (t : Token) (n : ℕ)
        → n ≤ length bytes → Spells t (take n bytes)
        → ((other : Token) (m : ℕ) → n < m → m ≤ length bytes → Spells other (take m bytes) → ⊥)
        → ((kind : LexKind) (k : ℕ) → Fails bytes kind k → ⊥)
        → form bytes ≡ token t n }
    ensures one_token { (bytes : List ℕ) (t other : Token)
        → Spells t bytes → Spells other bytes → t ≡ other }
{}

/// Spellings of tokens with one space between two of them have these tokens; so have tokens that
/// are written out, if each is one that bytes can have. Each token that bytes have is such a
/// token.
pub fn spaced_tokens()
    ensures spelled { (file : ℕ) (ts : List Token) (pieces : List (List ℕ))
        → AllSpell ts pieces
        → (us : List Spanned) × HasTokens file (spaced pieces) us × (map (λ y. y.token) us ≡ ts) }
    ensures written { (file : ℕ) (ts : List Token)
        → All IsWellFormed ts
        → (us : List Spanned) × HasTokens file (spaced (map written ts)) us
        × (map (λ y. y.token) us ≡ ts) }
    ensures well_formed { (file : ℕ) (bytes : List ℕ) (ts : List Spanned)
        → HasTokens file bytes ts → All (λ y. IsWellFormed y.token) ts }
{}
