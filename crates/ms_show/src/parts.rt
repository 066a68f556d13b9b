ghost use Rattle.std.specs.Prelude.{◌≡◌, ℕ, ◌+◌, ◌-◌, ◌*◌, ◌/◌, ◌%◌, ◌≤◌, ◌<◌, ◌⊎◌, List, [], ◌++◌, length, codes, IfOk, OnOk};
ghost use Rattle.std.specs.List.{flat_map, range_with_len};
ghost use Rattle.ms_show.specs.Texts.{joined, list_text_of, row_of, rows_text_of};

use ms_base::Bytes;
use std::alloc::{AllocError, Global};

/// The parts in brackets, as `[1, 2, 3]`.
pub fn list_text(alloc: Global, parts: &[Bytes]) -> Result<Bytes, AllocError>
    ensures { IfOk result (λ text. text ≡ list_text_of parts.now) }
{
    let mut text = Vec::from_slice(alloc, b"[")?;
    push_joined(&mut text, parts)?;
    text.extend_from_slice(b"]")?;
    Ok(Bytes::from_vec(text))
}

/// The parts in rows of `width`, as `[| 1, 2 | 3, 4 |]`.
pub fn rows_text(alloc: Global, parts: &[Bytes], width: usize) -> Result<Bytes, AllocError>
    requires { (length parts.now ≡ 0) ⊎ ((0 < width) × (length parts.now % width ≡ 0)) }
    ensures { IfOk result (λ text. text ≡ rows_text_of width parts.now) }
{
    if parts.is_empty() {
        return Ok(Bytes::from_vec(Vec::from_slice(alloc, b"[| |]")?));
    }
    let mut text = Vec::from_slice(alloc, b"[| ")?;
    push_joined(&mut text, row(parts, width, 0))?;
    push_later_rows(&mut text, parts, width)?;
    text.extend_from_slice(b" |]")?;
    Ok(Bytes::from_vec(text))
}

/// Appends each row but the first, with ` | ` before each.
fn push_later_rows(text: &mut Vec<u8>, parts: &[Bytes], width: usize) -> Result<(), AllocError>
    requires width { 0 < width }
    requires rows { 0 < length parts.now / width }
    ensures { OnOk result (text.new.items ≡ text.old.items
        ++ flat_map (λ i. codes " | " ++ joined (row_of width parts.now i)) (range_with_len 1 (length parts.now / width - 1))) }
{
    for i in 1..parts.len() / width {
        text.extend_from_slice(b" | ")?;
        push_joined(text, row(parts, width, i))?;
    }
    Ok(())
}

/// The row of that number, from 0.
fn row(parts: &[Bytes], width: usize, i: usize) -> &[Bytes]
    requires width { 0 < width }
    requires place { i < length parts.now / width }
    ensures { result.now ≡ row_of width parts.now i }
{
    let start = i * width;
    &parts[start..start + width]
}

/// Appends the parts with `, ` between each two.
fn push_joined(text: &mut Vec<u8>, parts: &[Bytes]) -> Result<(), AllocError>
    ensures { OnOk result (text.new.items ≡ text.old.items ++ joined parts.now) }
{
    let [first, rest @ ..] = parts else {
        return Ok(());
    };
    text.extend_from_slice(first.as_slice())?;
    for part in rest {
        text.extend_from_slice(b", ")?;
        text.extend_from_slice(part.as_slice())?;
    }
    Ok(())
}

#[cfg(test)]
mod tests {
    use super::*;
    use std::test::Fail;

    #[test]
    fn lists(rt: HostRuntime) -> Result<(), Fail> {
        let mut parts = Vec::new(rt.alloc());
        for digit in 49..53 {
            parts.push(Bytes::from_vec(vec![in rt.alloc(); digit]?))?;
        }
        let cases: [(usize, &[u8]); 4] = [
            (0, b"[]"),
            (1, b"[1]"),
            (2, b"[1, 2]"),
            (4, b"[1, 2, 3, 4]"),
        ];
        for (count, want) in cases {
            assert!(rt; count <= parts.len());
            assert_eq!(rt; list_text(rt.alloc(), &parts[..count])?.as_slice(), want);
        }
        Ok(())
    }

    #[test]
    fn rows(rt: HostRuntime) -> Result<(), Fail> {
        let mut parts = Vec::new(rt.alloc());
        for digit in 49..53 {
            parts.push(Bytes::from_vec(vec![in rt.alloc(); digit]?))?;
        }
        let cases: [(usize, usize, &[u8]); 6] = [
            (0, 0, b"[| |]"),
            (0, 3, b"[| |]"),
            (2, 1, b"[| 1 | 2 |]"),
            (4, 2, b"[| 1, 2 | 3, 4 |]"),
            (3, 3, b"[| 1, 2, 3 |]"),
            (4, 1, b"[| 1 | 2 | 3 | 4 |]"),
        ];
        for (count, width, want) in cases {
            assert!(rt; count <= parts.len());
            assert!(rt; count == 0 || width > 0 && count % width == 0);
            assert_eq!(rt;
                rows_text(rt.alloc(), &parts[..count], width)?.as_slice(),
                want
            );
        }
        Ok(())
    }
}
