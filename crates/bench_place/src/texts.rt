//! The texts.

use std::alloc::{AllocError, Global};

/// Two names run through so many numbers each.
pub fn scan(alloc: Global, count: u32) -> Result<String, AllocError> {
    format!(in alloc;
        "constraint forall(i in 1..{count}, j in 1..{count} where i < 0)(true); solve satisfy;"
    )
}

/// An array of so many rows and columns, each element of which is read once.
pub fn elements(alloc: Global, count: u32) -> Result<String, AllocError> {
    format!(in alloc;
        "array[1..{count}, 1..{count}] of int: a = array2d(1..{count}, 1..{count}, [i + j | i, j in 1..{count}]); constraint sum(i, j in 1..{count})(a[i, j]) > 0; solve satisfy;"
    )
}

/// So many variables, any two of which differ, with a constraint for each so many first ones.
pub fn pairs(alloc: Global, count: u32, width: u32) -> Result<String, AllocError> {
    let mut text = format!(in alloc; "array[1..{count}] of var 1..9: x;")?;
    let parts = count.div_ceil(width.max(1));
    for part in 0..parts {
        let low = part.saturating_mul(width).saturating_add(1);
        let high = low.saturating_add(width).saturating_sub(1).min(count);
        let item = format!(in alloc;
            "constraint forall(i in {low}..{high}, j in 1..{count} where i < j)(x[i] != x[j]);"
        )?;
        text.push_str(item.as_str())?;
    }
    text.push_str("solve satisfy;")?;
    Ok(text)
}

fn repeat(text: &mut String, part: &str, count: u32) -> Result<(), AllocError> {
    for _ in 0..count {
        text.push_str(part)?;
    }
    Ok(())
}

/// A function that calls the one of the next number inside so many brackets.
fn outer(alloc: Global, text: &mut String, number: u32, brackets: u32) -> Result<(), AllocError> {
    let next = number.saturating_add(1);
    let head = format!(in alloc; "function int: f{number}(int: n) = ")?;
    text.push_str(head.as_str())?;
    repeat(text, "(", brackets)?;
    let body = format!(in alloc; "1 + f{next}(n)")?;
    text.push_str(body.as_str())?;
    repeat(text, ")", brackets)?;
    text.push_str("; ")
}

/// So many calls one in the other, each inside so many brackets; the innermost goes through so many numbers.
pub fn deep(alloc: Global, brackets: u32, calls: u32, last: u32) -> Result<String, AllocError> {
    let mut text = String::new(alloc);
    for number in 1..calls {
        outer(alloc, &mut text, number, brackets)?;
    }
    let end = format!(in alloc;
        "function int: f{calls}(int: n) = sum(i in 1..{last})(n); constraint f1(2) > 0; solve satisfy;"
    )?;
    text.push_str(end.as_str())?;
    Ok(text)
}
