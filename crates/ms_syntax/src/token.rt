//! Words, tokens and places.

ghost use Rattle.std.specs.Prelude.{◌≡◌, ◌↔◌, IfOk, IsTrue, Some, nat_eq, refl};
ghost use Rattle.std.specs.Cmp.{partial_equiv_from_equiv};
ghost use Rattle.std.specs.Cmp.Lexicographic.{nat_list_cmp_total, nat_list_eq_equiv, pointwise};
ghost use Rattle.std.specs.Cmp.Lexicographic.{slice_cmp, texts_po, texts_ties};
ghost use Rattle.std.specs.Cmp.Rules.{hashing};
ghost use Rattle.std.specs.Hash as fed;
ghost use Rattle.std.specs.Ordering.{nat_cmp};
ghost use Rattle.std.proofs.Common.{rules};

use std::alloc::{AllocError, Global};
use std::cmp::Ordering;
use std::hash::{Hash, Hasher};
use std::marker::Model;

/// The bytes of a name, or of a text after its escapes are read. Contracts see their list.
#[derive(Debug, Drop)]
pub struct Word {
    bytes: Vec<u8>,
}

impl Model for Word {
    ghost use Rattle.std.specs.Prelude.{List, ℕ};
    ghost use Rattle.std.specs.Coded.{coded_list, coded_ℕ};

    ghost Value = { List ℕ };

    ghost coded = { coded_list coded_ℕ };

    ghost view = { λ w. w.bytes.items };
}

impl Word {
    /// Takes the vector as it is, and no memory.
    pub fn from_vec(bytes: Vec<u8>) -> Word
        ensures { result ≡ bytes.items }
    {
        Word { bytes }
    }

    pub fn from_slice(alloc: Global, bytes: &[u8]) -> Result<Word, AllocError>
        ensures { IfOk result (λ word. word ≡ bytes.now) }
    {
        Ok(Word {
            bytes: Vec::from_slice(alloc, bytes)?,
        })
    }

    /// Gives the vector back as it is, and takes no memory.
    pub fn into_vec(self) -> Vec<u8>
        ensures { result.items ≡ self }
    {
        self.bytes
    }

    pub fn as_slice(&self) -> &[u8]
        ensures { result.now ≡ self.now }
    {
        self.bytes.as_slice()
    }

    pub fn copy(&self, alloc: Global) -> Result<Word, AllocError>
        ensures { IfOk result (λ copied. copied ≡ self.now) }
    {
        Word::from_slice(alloc, &self.bytes)
    }
}

// Words are equal where their bytes are, and stand in the order of their bytes.
impl PartialEq for Word {
    ghost eq = { pointwise nat_eq };

    ghost laws = { partial_equiv_from_equiv nat_list_eq_equiv };

    fn eq(&self, other: &Word) -> bool {
        self.bytes == other.bytes
    }
}

impl Eq for Word {
    ghost laws = { nat_list_eq_equiv };
}

impl PartialOrd for Word {
    ghost partial_cmp = { λ a b. Some (slice_cmp nat_cmp a b) };

    ghost laws = { texts_po };

    fn partial_cmp(&self, other: &Word) -> Option<Ordering> {
        Some(self.cmp(other))
    }
}

impl Ord for Word {
    ghost cmp = { slice_cmp nat_cmp };

    ghost total = { nat_list_cmp_total };

    ghost matches_partial_cmp = { λ a b. refl };

    ghost matches_eq = { texts_ties };

    fn cmp(&self, other: &Word) -> Ordering {
        self.bytes.cmp(&other.bytes)
    }
}

impl Hash for Word {
    ghost hash_input = { λ w. fed.slice fed.u8 w };

    ghost respects_eq = { Prim.search (hashing, rules) };

    fn hash<H: Hasher>(&self, state: &mut H) {
        self.bytes.hash(state);
    }
}

/// Which text a place is in: 0 the model, 1 the data, 2 the library.
pub type FileNo = u8;

/// Where a token begins: `line` counts from 1 by line feeds, and `col` from 1 in bytes.
#[derive(Clone, Copy, Debug, PartialEq, Eq)]
pub struct Place {
    pub file: FileNo,
    pub line: u32,
    pub col: u32,
}

/// The words of the language, which are no names.
#[derive(Clone, Copy, Debug, PartialEq, Eq)]
pub enum Keyword {
    Ann,
    Array,
    Bool,
    Constraint,
    Div,
    Else,
    Elseif,
    Endif,
    Enum,
    False,
    Function,
    If,
    In,
    Include,
    Int,
    Let,
    Maximize,
    Minimize,
    Mod,
    Not,
    Of,
    Output,
    Par,
    Predicate,
    Satisfy,
    Search,
    Set,
    Solve,
    String,
    Then,
    True,
    Var,
    Where,
    Xor,
}

#[derive(Clone, Copy, Debug, PartialEq, Eq)]
pub enum Symbol {
    /// `<->`
    DoubleArrow,
    /// `->`
    RightArrow,
    /// `<-`
    LeftArrow,
    /// `<=`
    AtMost,
    /// `>=`
    AtLeast,
    /// `=` or `==`
    Equal,
    /// `!=`
    NotEqual,
    /// `\/`
    Or,
    /// `/\`
    And,
    /// `..`
    DotDot,
    /// `++`
    PlusPlus,
    /// `::`
    ColonColon,
    /// `[|`
    OpenRows,
    /// `|]`
    CloseRows,
    /// `<`
    Less,
    /// `>`
    Greater,
    /// `+`
    Plus,
    /// `-`
    Minus,
    /// `*`
    Star,
    /// `(`
    OpenParenthesis,
    /// `)`
    CloseParenthesis,
    /// `[`
    OpenBracket,
    /// `]`
    CloseBracket,
    /// `{`
    OpenBrace,
    /// `}`
    CloseBrace,
    /// `,`
    Comma,
    /// `;`
    Semicolon,
    /// `:`
    Colon,
    /// `|`
    Bar,
}

#[derive(Drop)]
pub enum Token {
    /// A letter, then letters, digits and `_`; not a keyword.
    Name(Word),
    /// What stands between two quotes, after its escapes are read.
    Text(Word),
    /// Decimal digits, at most 9223372036854775807.
    Number(u64),
    Keyword(Keyword),
    Symbol(Symbol),
}

impl Token {
    ghost use Rattle.ms_syntax.specs.Token as spec;

    /// Whether it is this mark or operator.
    pub fn is_symbol(&self, symbol: Symbol) -> bool
        ensures value { result ≡ spec.is_symbol symbol self.now }
        ensures means { IsTrue result ↔ (self.now ≡ Token.Symbol symbol) }
    {
        match self {
            Token::Symbol(other) => *other == symbol,
            _ => false,
        }
    }

    /// Whether it is this keyword.
    pub fn is_keyword(&self, keyword: Keyword) -> bool
        ensures value { result ≡ spec.is_keyword keyword self.now }
        ensures means { IsTrue result ↔ (self.now ≡ Token.Keyword keyword) }
    {
        match self {
            Token::Keyword(other) => *other == keyword,
            _ => false,
        }
    }
}

/// A token with the bytes that it stands on: from `start` up to but not at `end`.
#[derive(Drop)]
pub struct Spanned {
    pub token: Token,
    pub start: usize,
    pub end: usize,
    pub place: Place,
}

/// Why bytes cannot be cut into tokens.
#[derive(Clone, Copy, Debug, PartialEq, Eq)]
pub enum LexKind {
    /// A byte that no token can take.
    BadByte,
    /// A text whose line ends before its closing quote.
    OpenText,
    /// A comment without its `*/`.
    OpenComment,
    /// A number above 9223372036854775807.
    BigNumber,
}
