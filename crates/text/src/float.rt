// Floats as words: the 16 hex digits of their bits.
ghost use Rattle.std.specs.Prelude.{IsSome, ◌↔◌, ◌≡◌, length};
ghost use Rattle.text.specs.Numbers.{hex_of};

use crate::word::{LONGEST, Word};

const HEX: &[u8; 16] = b"0123456789abcdef";

// The highest bit is the sign. What is above the bits of infinity, without it, is a NaN.
const SIGN: u64 = 0x8000_0000_0000_0000;

const INFINITE: u64 = 0x7ff0_0000_0000_0000;

// What is written for the one NaN.
const NAN: u64 = 0x7ff8_0000_0000_0000;

// Every pattern of a NaN is read as the one NaN, where f64::from_bits alone would want a number.
fn float_of(bits: u64) -> f64 {
    if INFINITE < bits % SIGN {
        return f64::NAN;
    }
    f64::from_bits(bits)
}

// f64::to_bits wants a number: a NaN has no bits of its own.
fn bits_of(value: f64) -> u64 {
    if value.is_nan() {
        return NAN;
    }
    value.to_bits()
}

impl Word for f64 {
    ghost says = { λ w x. IsSome x ↔ IsSome (hex_of w) };

    ghost most = { 16 };

    fn from_word(word: &[u8]) -> Option<f64> {
        Some(float_of(crate::number::parse_bits(word)?))
    }

    fn to_word<'b>(self, space: &'b mut [u8; LONGEST]) -> &'b [u8] {
        hex(bits_of(self), space)
    }
}

// The 16 hex digits of any bits, those of a NaN among them. The last digit is put first.
pub fn hex<'b>(bits: u64, space: &'b mut [u8; LONGEST]) -> &'b [u8]
    ensures { length result.now ≡ 16 }
{
    let digits = &mut space[..16];
    let mut rest = bits;
    for digit in digits.iter_mut().rev() {
        *digit = HEX[(rest % 16) as usize];
        rest /= 16;
    }
    digits
}
