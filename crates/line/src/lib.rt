// Text written into a line buffer: numbers, bytes, and one text behind another.
#![tactic(auto)]

ghost use Rattle.std.specs.Prelude.{◌≡◌, ◌<◌, true, List, ℕ, ◌++◌};
ghost use Rattle.std.specs.Fmt.{digit_glyph};
ghost use Rattle.line.specs.Appended.{Appended};
ghost use Rattle.line.specs.Hex.{hex_pair};
ghost use Rattle.line.specs.Wrote.{Wrote};

use itoa::{Buffer, Integer};
use std::alloc::AllocError;

// Writes `n` in decimal digits, behind a `-` where it is below 0; where memory is wanting, `out` stays as it was. `N.text` is
// `decimal` of an unsigned type and `signed_decimal` of a signed one, as `itoa` says.
pub fn put_number<N: Integer>(out: &mut Vec<u8>, n: N) -> Result<(), AllocError>
    ensures { Appended out.old out.new result (N.text n) }
{
    let mut buffer = Buffer::new();
    match buffer.format(n).as_bytes() {
        // one digit is the commonest, and its length is known
        [digit] => out.extend_from_slice(&[*digit]),
        text => out.extend_from_slice(text),
    }
}

// The hexadecimal digit of a number below 16. The kit's `hex` has upper case only in new memory, which may be wanting.
fn hex_digit(d: u8) -> u8
    requires { d < 16 }
    ensures { result ≡ digit_glyph true d }
{
    if d < 10 { b'0' + d } else { b'A' - 10 + d }
}

// Writes two hexadecimal digits, in upper case; where memory is wanting, `out` stays as it was.
pub fn put_hex(out: &mut Vec<u8>, b: u8) -> Result<(), AllocError>
    ensures { Appended out.old out.new result (hex_pair b) }
{
    out.extend_from_slice(&[hex_digit(b / 16), hex_digit(b % 16)])
}

// What can be written as text.
pub trait Text: Copy {
    ghost text: { Self → List ℕ };

    // Writes the text behind what `out` holds; where memory is wanting, perhaps a part of it.
    fn put(self, out: &mut Vec<u8>) -> Result<(), AllocError>
        ensures { Wrote out.old out.new result (text self) };
}

// A number in decimal digits.
#[derive(Clone, Copy)]
pub struct Number<N>(pub N);

// A byte in two hexadecimal digits.
#[derive(Clone, Copy)]
pub struct Hex(pub u8);

impl<N: Integer> Text for Number<N> {
    ghost text = { λ x. N.text x.0 };

    fn put(self, out: &mut Vec<u8>) -> Result<(), AllocError> {
        put_number(out, self.0)
    }
}

impl Text for Hex {
    ghost text = { λ x. hex_pair x.0 };

    fn put(self, out: &mut Vec<u8>) -> Result<(), AllocError> {
        put_hex(out, self.0)
    }
}

impl Text for &[u8] {
    ghost text = { λ x. x.now };

    fn put(self, out: &mut Vec<u8>) -> Result<(), AllocError> {
        out.extend_from_slice(self)
    }
}

// A fixed text as `b" "` is an array, and in a pair it is not taken for a slice.
impl<const N: usize> Text for &[u8; N] {
    ghost text = { λ x. x.now };

    fn put(self, out: &mut Vec<u8>) -> Result<(), AllocError> {
        out.extend_from_slice(self)
    }
}

// One text behind another.
impl<A: Text, B: Text> Text for (A, B) {
    ghost text = { λ x. A.text x.0 ++ B.text x.1 };

    fn put(self, out: &mut Vec<u8>) -> Result<(), AllocError> {
        self.0.put(out)?;
        self.1.put(out)
    }
}

#[cfg(test)]
mod tests {
    use super::*;
    use std::test::Fail;

    #[test]
    fn texts(rt: HostRuntime) -> Result<(), Fail> {
        let mut out = Vec::new(rt.alloc());
        put_number(&mut out, 10u64)?;
        put_hex(&mut out, 0x0A)?;
        (
            b" ",
            (Number(-2_147_483_648i32), (b" C".as_slice(), Hex(0xD7))),
        )
            .put(&mut out)?;
        assert_eq!(rt; out.as_slice(), b"100A -2147483648 CD7".as_slice());
        Ok(())
    }
}
