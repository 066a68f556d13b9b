//! Kinds of tokens.

ghost use Rattle.std.specs.Prelude.{◌≡◌};
ghost use Rattle.ms_cursor.specs.Kinds as kinds;
ghost use Rattle.ms_syntax.specs.Grammar.{operands};
ghost use Rattle.ms_cursor.specs.Level.{operands_of};

use crate::level::Level;
use ms_syntax::{Keyword, Operator, Sign, Symbol, Token};

/// Whether the token is a word that begins a kind.
pub fn begins_kind(token: &Token) -> bool
    ensures { result ≡ kinds.is_kind_word token.now }
{
    token.is_keyword(Keyword::Array)
        || token.is_keyword(Keyword::Var)
        || token.is_keyword(Keyword::Par)
        || token.is_keyword(Keyword::Bool)
        || token.is_keyword(Keyword::Int)
        || token.is_keyword(Keyword::String)
        || token.is_keyword(Keyword::Ann)
        || token.is_keyword(Keyword::Set)
}

/// The truth value that a token is, if it is one.
pub fn truth(token: &Token) -> Option<bool>
    ensures { result ≡ kinds.a_truth token.now }
{
    match token {
        Token::Keyword(Keyword::True) => Some(true),
        Token::Keyword(Keyword::False) => Some(false),
        _ => None,
    }
}

/// The sign before an operand that a token is, if it is one.
pub fn sign(token: &Token) -> Option<Sign>
    ensures { result ≡ kinds.a_sign token.now }
{
    match token {
        Token::Keyword(Keyword::Not) => Some(Sign::Not),
        Token::Symbol(Symbol::Minus) => Some(Sign::Minus),
        _ => None,
    }
}

fn operator(token: &Token) -> Option<Operator>
    ensures { result ≡ kinds.operator token.now }
{
    match token {
        Token::Symbol(Symbol::DoubleArrow) => Some(Operator::Equivalent),
        Token::Symbol(Symbol::RightArrow) => Some(Operator::Implies),
        Token::Symbol(Symbol::LeftArrow) => Some(Operator::ImpliedBy),
        Token::Symbol(Symbol::Or) => Some(Operator::Or),
        Token::Keyword(Keyword::Xor) => Some(Operator::Xor),
        Token::Symbol(Symbol::And) => Some(Operator::And),
        Token::Symbol(Symbol::Equal) => Some(Operator::Equal),
        Token::Symbol(Symbol::NotEqual) => Some(Operator::NotEqual),
        Token::Symbol(Symbol::Less) => Some(Operator::Less),
        Token::Symbol(Symbol::AtMost) => Some(Operator::AtMost),
        Token::Symbol(Symbol::Greater) => Some(Operator::Greater),
        Token::Symbol(Symbol::AtLeast) => Some(Operator::AtLeast),
        Token::Keyword(Keyword::In) => Some(Operator::In),
        Token::Symbol(Symbol::DotDot) => Some(Operator::To),
        Token::Symbol(Symbol::Plus) => Some(Operator::Plus),
        Token::Symbol(Symbol::Minus) => Some(Operator::Minus),
        Token::Symbol(Symbol::Star) => Some(Operator::Times),
        Token::Keyword(Keyword::Div) => Some(Operator::Div),
        Token::Keyword(Keyword::Mod) => Some(Operator::Mod),
        Token::Symbol(Symbol::PlusPlus) => Some(Operator::Concat),
        _ => None,
    }
}

/// The level of an operator.
fn level_of(operator: Operator) -> Level
    ensures { operands_of result ≡ operands operator }
{
    match operator {
        Operator::Concat => Level::Concatenation,
        Operator::Times | Operator::Div | Operator::Mod => Level::Product,
        Operator::Plus | Operator::Minus => Level::Sum,
        Operator::To => Level::Range,
        Operator::In => Level::Membership,
        Operator::Equal
        | Operator::NotEqual
        | Operator::Less
        | Operator::AtMost
        | Operator::Greater
        | Operator::AtLeast => Level::Comparison,
        Operator::And => Level::Conjunction,
        Operator::Or | Operator::Xor => Level::Disjunction,
        Operator::Implies | Operator::ImpliedBy => Level::Implication,
        Operator::Equivalent => Level::Equivalence,
    }
}

/// The operator that a token is, if it is one of the level.
pub fn infix(level: Level, token: &Token) -> Option<Operator>
    ensures { result ≡ kinds.infix_of (operands_of level) token.now }
{
    let found = operator(token)?;
    if level_of(found).tighter() == level.tighter() {
        Some(found)
    } else {
        None
    }
}
