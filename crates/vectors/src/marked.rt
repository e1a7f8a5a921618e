// A stepped piece with a bad value. Lanes do not disturb each other: those before the first that met one are as they would be without it.
ghost use Rattle.std.specs.Prelude.{◌≡◌, true, ◌^◌, ◌≤◌, length};
ghost use Rattle.kernels.specs.InnerLanes.{SmallLanes};
ghost use Rattle.kernels.specs.InnerStrided.{strided, PlacesInside};
ghost use Rattle.kernels.specs.InnerStepped.{first_bad};
ghost use Rattle.vectors.specs.InnerVectors.{EightApart};
ghost use Rattle.vectors.specs.InnerMarked.{product_before};

use accumulator::StableProductFloatAcc;
use kernels::lanes::Lanes;

const LANES: usize = StableProductFloatAcc::LANES;

// Of so many values one is looked at beforehand: the first of each vector in the first sixteenth of the piece.
const SELDOM: usize = 128;

// The first lane that met a bad value; 8 if none did. Once it is lane 0, the values that are left do not count.
pub fn first_bad(values: &[f64], start: i64, stride: i64, len: usize) -> usize
    requires { PlacesInside (length values.now) start stride len }
    ensures { result ≡ first_bad (strided values.now start stride len) }
{
    let mut first = LANES;
    let mut at = start;
    for i in 0..len {
        let index = at as usize;
        if floats::is_bad(values[index]) {
            first = first.min(i % LANES);
            if first == 0 {
                return 0;
            }
        }
        at = integers::next_place(at, stride, len - (i + 1));
    }
    first
}

// If so, lane 0 met a bad value: nothing else counts, and the lanes need not be worked. A few values are looked at, so that it costs a good piece little.
pub fn soon_bad(values: &[f64], start: i64, stride: i64, eight: i64, len: usize) -> bool
    requires { EightApart stride len eight × PlacesInside (length values.now) start stride len }
    ensures { result ≡ true → first_bad (strided values.now start stride len) ≡ 0 }
{
    let vectors = len / SELDOM;
    let mut at = start;
    for i in 0..vectors {
        let index = at as usize;
        if floats::is_bad(values[index]) {
            return true;
        }
        at = integers::next_place(at, eight, vectors - (i + 1));
    }
    false
}

// The lanes before lane n, multiplied in lane order. Each is in [1, 2), so that one bringing back at the end will do.
// A call, so that the registers of `worked_piece` are left to its loops.
#[inline(never)]
pub fn product_before(s: Lanes, n: usize) -> StableProductFloatAcc
    requires { SmallLanes (2 ^ 56) s × (n ≤ 8) }
    ensures { result ≡ product_before s n }
{
    let mut e: i64 = 0;
    for k in 0..n {
        e += s.e[k];
    }
    let q = floats::split_f64(crate::vector::product(&s.m[..n]));
    StableProductFloatAcc {
        m: q.m,
        e: e + q.e,
        bad: true,
    }
}
