//! The small types: bytes, points, names, words, single tokens and copies of trees.

use ms_base::{Bytes, Name, Point};
use ms_copies::CopyTree;
use ms_forms::{decided_form, longest_form, some_reading, spaced_tokens};
use ms_syntax::{
    Base, Binder, Binders, Declaration, Expr, Generator, Item, Keyword, Kind, Link, Mode, Operator,
    Place, Symbol, Token, Word, chain_places, one_answer, one_reading,
};
use std::alloc::{AllocError, Global};
use std::cmp::Ordering;
use std::hash::{DefaultHasher, Hash, Hasher};
use std::test::Fail;

#[test]
fn lists_are_kept(rt: HostRuntime) -> Result<(), Fail> {
    let bytes = Bytes::from_vec(vec![in rt.alloc(); 118, 97, 114]?);
    let copied = bytes.copy(rt.alloc())?;
    assert_eq!(rt; copied.as_slice(), b"var".as_slice());
    assert!(rt; copied == bytes);
    assert_eq!(rt; bytes.into_vec().as_slice(), b"var".as_slice());
    let point = Point::from_vec(vec![in rt.alloc(); 3, -1]?);
    let copied = point.copy(rt.alloc())?;
    assert_eq!(rt; copied.as_slice(), [3, -1].as_slice());
    assert_eq!(rt; point.into_vec().as_slice(), [3, -1].as_slice());
    let name = Name::from_string(String::from_str(rt.alloc(), "m.mzn")?);
    assert_eq!(rt; name.copy(rt.alloc())?.text(), "m.mzn");
    assert_eq!(rt; name.into_string().as_str(), "m.mzn");
    Ok(())
}

fn digest(word: &Word) -> u64 {
    let mut state = DefaultHasher::new();
    word.hash(&mut state);
    state.finish()
}

#[test]
fn words_and_tokens(rt: HostRuntime) -> Result<(), Fail> {
    let word = Word::from_slice(rt.alloc(), b"queens")?;
    assert_eq!(rt; word.as_slice(), b"queens".as_slice());
    assert!(rt; word.copy(rt.alloc())? == word);
    let other = Word::from_vec(vec![in rt.alloc(); 120, 49]?);
    assert!(rt; word != other);
    assert!(rt; word.cmp(&other) == Ordering::Less);
    assert!(rt; other.partial_cmp(&word) == Some(Ordering::Greater));
    assert!(rt; digest(&word) == digest(&word.copy(rt.alloc())?));
    assert!(rt; digest(&word) != digest(&other));
    assert_eq!(rt; other.into_vec().as_slice(), b"x1".as_slice());
    assert!(rt; Token::Symbol(Symbol::And).is_symbol(Symbol::And));
    assert!(rt; !Token::Number(7).is_symbol(Symbol::And));
    assert!(rt; Token::Keyword(Keyword::Solve).is_keyword(Keyword::Solve));
    assert!(rt; !Token::Keyword(Keyword::Set).is_keyword(Keyword::Solve));
    one_reading();
    some_reading();
    longest_form();
    decided_form();
    spaced_tokens();
    one_answer();
    chain_places();
    Ok(())
}

fn column(col: u32) -> Place {
    Place {
        file: 0,
        line: 1,
        col,
    }
}

/// A chain of three numbers, `7` and twice the operator, in the columns 1 to 5.
fn numbers(alloc: Global, operator: Operator) -> Result<(Box<Expr>, Vec<Link>), AllocError> {
    let mut links = Vec::new(alloc);
    for (at, number) in [(2, 2), (4, 1)] {
        links.push(Link {
            operator,
            place: column(at),
            operand: Expr::Number(column(at + 1), number),
        })?;
    }
    let first = Box::new(alloc, Expr::Number(column(1), 7))?;
    Ok((first, links))
}

#[test]
fn trees_stand_at_their_places(rt: HostRuntime) -> Result<(), Fail> {
    let (first, links) = numbers(rt.alloc(), Operator::Minus)?;
    let sum = Expr::Sum(first, links);
    assert_eq!(rt; sum.place().col, 4);
    assert_eq!(rt; sum.copy(rt.alloc())?.place().col, 4);
    let (first, links) = numbers(rt.alloc(), Operator::Concat)?;
    let joined = Expr::Concatenation(first, links);
    assert_eq!(rt; joined.place().col, 2);
    assert_eq!(rt; joined.copy(rt.alloc())?.place().col, 2);
    let item = Item::Declare(Declaration {
        place: column(9),
        kind: Kind {
            indices: Vec::new(rt.alloc()),
            mode: Mode::Var,
            base: Base::Int,
        },
        name: Word::from_slice(rt.alloc(), b"x")?,
        notes: Vec::new(rt.alloc()),
        value: Some(sum),
    });
    assert_eq!(rt; item.place().col, 9);
    Ok(())
}

#[test]
fn generators_have_names(rt: HostRuntime) -> Result<(), Fail> {
    let mut list = Vec::new(rt.alloc());
    for (col, name) in [(3, b"i".as_slice()), (6, b"j".as_slice())] {
        list.push(Binder {
            place: column(col),
            name: Word::from_slice(rt.alloc(), name)?,
        })
        .map_err(AllocError::from)?;
    }
    assert!(rt; !list.is_empty());
    let names = Binders::from_vec(list);
    let copied = names.copy(rt.alloc())?;
    assert_eq!(rt; copied.place().col, 3);
    assert_eq!(rt; copied.as_slice().len(), 2);
    assert!(rt; copied.as_slice()[0].name.as_slice() == b"i".as_slice());
    let generator = Generator {
        names,
        set: Expr::Name(column(8), Word::from_slice(rt.alloc(), b"S")?),
    };
    assert_eq!(rt; generator.place().col, 3);
    Ok(())
}
