ghost use Rattle.std.specs.Prelude.{◌≡◌, ℕ, ◌-◌, ◌≤◌, ◌<◌, ℤ, pos, ◌+ℤ◌, ◌∷◌, ◌++◌, IfOk, OnOk};
ghost use Rattle.std.specs.Fmt.{signed_decimal};
ghost use Rattle.std.specs.List.{flat_map, range_with_len};
ghost use Rattle.ms_num.specs.Ranges.{span_size};
ghost use Rattle.ms_show.specs.Texts.{set_text_of, ends_text_of, members_text_of, later_numbers};

use crate::scalars::push_number;
use ms_base::Bytes;
use ms_num::{Iv, Ranges};
use std::alloc::{AllocError, Global};

/// A set of one range by its ends, as `1..3`, and any other by its numbers, as `{1, 3}`. Its text is as
/// long as its numbers are many.
pub fn set_text(alloc: Global, set: &Ranges) -> Result<Bytes, AllocError>
    ensures { IfOk result (λ text. text ≡ set_text_of set.now) }
{
    match set.ranges() {
        [] => Ok(Bytes::from_vec(Vec::from_slice(alloc, b"{}")?)),
        [range] => ends_text(alloc, *range),
        [first, rest @ ..] => members_text(alloc, *first, rest),
    }
}

fn ends_text(alloc: Global, range: Iv) -> Result<Bytes, AllocError>
    ensures { IfOk result (λ text. text ≡ ends_text_of range) }
{
    let mut text = Vec::new(alloc);
    push_number(&mut text, range.lo())?;
    text.extend_from_slice(b"..")?;
    push_number(&mut text, range.hi())?;
    Ok(Bytes::from_vec(text))
}

fn members_text(alloc: Global, first: Iv, rest: &[Iv]) -> Result<Bytes, AllocError>
    ensures { IfOk result (λ text. text ≡ members_text_of (first ∷ rest.now)) }
{
    let mut text = Vec::from_slice(alloc, b"{")?;
    push_at(&mut text, first, 0)?;
    push_numbers(&mut text, first, 1)?;
    push_ranges(&mut text, rest)?;
    text.extend_from_slice(b"}")?;
    Ok(Bytes::from_vec(text))
}

/// Appends each number of the ranges, with `, ` before each.
fn push_ranges(text: &mut Vec<u8>, ranges: &[Iv]) -> Result<(), AllocError>
    ensures { OnOk result (text.new.items ≡ text.old.items ++ flat_map (λ range. later_numbers range 0) ranges.now) }
{
    for range in ranges {
        push_numbers(text, *range, 0)?;
    }
    Ok(())
}

/// Appends each number of the range but the first `from`, with `, ` before each.
fn push_numbers(text: &mut Vec<u8>, range: Iv, from: u64) -> Result<(), AllocError>
    requires { from ≤ span_size range }
    ensures { OnOk result (text.new.items ≡ text.old.items ++ later_numbers range from) }
{
    for k in from..range.size() {
        text.extend_from_slice(b", ")?;
        push_at(text, range, k)?;
    }
    Ok(())
}

/// Appends the number at the place `k` of the range, from 0.
fn push_at(text: &mut Vec<u8>, range: Iv, k: u64) -> Result<(), AllocError>
    requires { k < span_size range }
    ensures { OnOk result (text.new.items ≡ text.old.items ++ signed_decimal (range.lo +ℤ pos k)) }
{
    push_number(text, range.lo() + k as i64)
}

#[cfg(test)]
mod tests {
    use super::*;
    use std::test::Fail;

    #[test]
    fn sets(rt: HostRuntime) -> Result<(), Fail> {
        let cases: [(&[i64], &[u8]); 6] = [
            (&[], b"{}"),
            (&[5], b"5..5"),
            (&[1, 2, 3], b"1..3"),
            (&[-2, -1], b"-2..-1"),
            (&[3, 1], b"{1, 3}"),
            (&[1, 2, 4, 5], b"{1, 2, 4, 5}"),
        ];
        for (numbers, want) in cases {
            let set = Ranges::from_list(rt.alloc(), numbers)?;
            assert_eq!(rt; set_text(rt.alloc(), &set)?.as_slice(), want);
        }
        Ok(())
    }
}
