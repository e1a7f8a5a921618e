// Binary64 numbers: the product of IEEE 754-2019 and the whole-number rule (specs/), and splitting.
#![tactic(auto)]

ghost use Rattle.std.specs.Prelude.{◌≡◌, true, false, T};
ghost use Rattle.std.specs.Float.{binary64};
ghost use Rattle.std.specs.Float.Ieee.{fits};
ghost use Rattle.floats.specs.Splitting.{is_bad, split};
ghost use Rattle.floats.specs.InnerKinds.{is_subnormal, is_ordinary};

const EXP: u64 = 0x7ff0_0000_0000_0000;

const ONE: u64 = 0x3ff0_0000_0000_0000;

// All but the sign; and the leading place of a significand, the least pattern of a normal number.
const SIZE: u64 = 0x7fff_ffff_ffff_ffff;

const LEADING: u64 = 0x0010_0000_0000_0000;

// A rate taken apart: a signed m with |m| in [1, 2), an exact exponent, and whether the rate is bad.
#[derive(Clone, Copy)]
pub struct Split {
    pub m: f64,
    pub e: i64,
    pub bad: bool,
}

// The fraction's highest one is moved to the leading place, and the exponent lowered to match. The leading place adds one to the exponent field 1022.
fn split_subnormal(value: f64) -> Split
    requires { is_subnormal value ≡ true }
    ensures { result ≡ split value }
{
    let bits = value.to_bits();
    let fraction = bits & SIZE;
    let shift = fraction.leading_zeros() - 11;
    let moved = fraction << shift;
    let m = f64::from_bits((bits - fraction) + (moved + (ONE - LEADING)));
    let lowered = shift as i64;
    let bad = false;
    Split {
        m,
        e: -1022 - lowered,
        bad,
    }
}

// A zero or a normal number, without a branch.
pub fn split_ordinary(value: f64) -> Split
    requires { T (fits binary64 value) → is_ordinary value ≡ true }
    ensures { result ≡ split value }
{
    let bits = value.to_bits();
    let field = (bits & EXP) >> 52;
    let unit = f64::from_bits((bits & !EXP) | ONE);
    Split {
        m: unit,
        e: field as i64 - 1023,
        bad: value == 0.0,
    }
}

// A subnormal by the float of its fraction: that is normal, so it is split without a branch, which eight at a time is the faster way.
pub fn split_subnormal_whole(value: f64) -> Split
    requires { T (fits binary64 value) → is_subnormal value ≡ true }
    ensures { result ≡ split value }
{
    let bits = value.to_bits();
    let fraction = bits & SIZE;
    let p = split_ordinary(fraction as f64);
    let m = f64::from_bits((bits - fraction) + p.m.to_bits());
    Split {
        m,
        e: p.e - 1074,
        bad: false,
    }
}

// `to_bits` is not defined at a NaN, so that is told apart first, here and below.
fn is_subnormal(value: f64) -> bool
    ensures { result ≡ is_subnormal value }
{
    if value.is_nan() {
        return false;
    }
    let size = value.to_bits() & SIZE;
    (0 < size) & (size < LEADING)
}

// A zero, an infinity or a NaN.
pub fn is_bad(value: f64) -> bool
    ensures { result ≡ is_bad value }
{
    if value.is_nan() {
        return true;
    }
    let size = value.to_bits() & SIZE;
    (size == 0) | (EXP <= size)
}

// The fields as they are, which is the split of any rate but a subnormal. A NaN is split as the pattern 0x7FF8000000000000.
pub fn split_fields(value: f64) -> Split
    ensures { is_subnormal value ≡ false → result ≡ split value }
{
    if value.is_nan() {
        return Split {
            m: 1.5,
            e: 1024,
            bad: true,
        };
    }
    let bits = value.to_bits();
    let raw_exp = (bits & EXP) >> 52;
    let m = f64::from_bits((bits & !EXP) | ONE);
    Split {
        m,
        e: raw_exp as i64 - 1023,
        bad: raw_exp == 0 || raw_exp == 0x7ff,
    }
}

pub fn split_f64(value: f64) -> Split
    ensures { result ≡ split value }
{
    if !is_subnormal(value) {
        return split_fields(value);
    }
    split_subnormal(value)
}
