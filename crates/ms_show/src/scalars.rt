ghost use Rattle.std.specs.Prelude.{◌≡◌, ◌++◌, IfOk, OnOk};
ghost use Rattle.std.specs.Fmt.{signed_decimal};
ghost use Rattle.ms_show.specs.Texts.{truth_text_of};

use itoa::Buffer;
use ms_base::Bytes;
use std::alloc::{AllocError, Global};

/// The number in decimal digits, with `-` before a negative one.
pub fn number_text(alloc: Global, n: i64) -> Result<Bytes, AllocError>
    ensures { IfOk result (λ text. text ≡ signed_decimal n) }
{
    let mut text = Vec::new(alloc);
    push_number(&mut text, n)?;
    Ok(Bytes::from_vec(text))
}

/// `true` or `false`.
pub fn truth_text(alloc: Global, b: bool) -> Result<Bytes, AllocError>
    ensures { IfOk result (λ text. text ≡ truth_text_of b) }
{
    let text: &[u8] = if b { b"true" } else { b"false" };
    Ok(Bytes::from_vec(Vec::from_slice(alloc, text)?))
}

pub(crate) fn push_number(text: &mut Vec<u8>, n: i64) -> Result<(), AllocError>
    ensures { OnOk result (text.new.items ≡ text.old.items ++ signed_decimal n) }
{
    let mut buffer = Buffer::new();
    text.extend_from_slice(buffer.format(n).as_bytes())
}

#[cfg(test)]
mod tests {
    use super::*;
    use std::test::Fail;

    #[test]
    fn scalars(rt: HostRuntime) -> Result<(), Fail> {
        let cases: [(i64, &[u8]); 5] = [
            (-5, b"-5"),
            (0, b"0"),
            (1000000, b"1000000"),
            (i64::MAX, b"9223372036854775807"),
            (i64::MIN, b"-9223372036854775808"),
        ];
        for (n, want) in cases {
            assert_eq!(rt; number_text(rt.alloc(), n)?.as_slice(), want);
        }
        assert_eq!(rt;
            truth_text(rt.alloc(), true)?.as_slice(),
            b"true".as_slice()
        );
        assert_eq!(rt;
            truth_text(rt.alloc(), false)?.as_slice(),
            b"false".as_slice()
        );
        Ok(())
    }
}
