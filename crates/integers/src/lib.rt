// Machine integers with checked steps: products that say whether they fit, and places that are formed only where there is one.
#![tactic(auto)]

ghost use Rattle.std.specs.Prelude.{◌≡◌, ◌+◌, ◌*◌, ◌<◌, pos, ◌+ℤ◌, ◌*ℤ◌};
ghost use Rattle.integers.specs.InnerChecked.{narrow_i64, narrow_u64};
ghost use Rattle.integers.specs.InnerPlaces.{PlacesFit};

// The largest i64 as a magnitude.
const I64_MAX: u64 = i64::MAX as u64;

// The largest number of 32 bits.
const HALF_MAX: u64 = 0xffff_ffff;

// Two factors of 32 bits have a product that fits, and need no division; std's method divides for any two.
pub fn checked_mul_u64(a: u64, b: u64) -> Option<u64>
    ensures { result ≡ narrow_u64 (a * b) }
{
    if a <= HALF_MAX && b <= HALF_MAX {
        Some(a * b)
    } else {
        a.checked_mul(b)
    }
}

// A product of a signed and an unsigned number: the magnitudes are multiplied, then the sign is put on.
pub fn checked_mul_i64(a: i64, n: u64) -> Option<i64>
    ensures { result ≡ narrow_i64 (a *ℤ pos n) }
{
    let p = checked_mul_u64(a.unsigned_abs(), n)?;
    if p <= I64_MAX {
        let v = p as i64;
        Some(if a < 0 { -v } else { v })
    } else if a < 0 && p == I64_MAX + 1 {
        Some(i64::MIN)
    } else {
        None
    }
}

// The place of the next value of a piece: behind the value at `at` lie `left` more, a step apart. Behind the last there is none, and no sum is formed, since it
// may not fit.
pub fn next_place(at: i64, step: i64, left: usize) -> i64
    requires { 0 < left → PlacesFit at step (left + 1) }
    ensures { (0 < left → result ≡ at +ℤ step) × (left ≡ 0 → result ≡ at) }
{
    if 0 < left {
        return at + step;
    }
    at
}
