// A piece, worked in one of the two ways. Both come from the same lanes.
ghost use Rattle.std.specs.Prelude.{◌≡◌, IfSome, false, ◌+◌, ◌*◌, ◌/◌, ◌^◌, ◌≤◌, length, replicate, pos};
ghost use Rattle.kernels.specs.Lanes.{feed};
ghost use Rattle.kernels.specs.InnerStrided.{strided, PlacesInside};
ghost use Rattle.kernels.specs.Blocks.{contiguous};
ghost use Rattle.kernels.specs.Stepped.{stepped};
ghost use Rattle.kernels.specs.Pieces.{worked};
ghost use Rattle.vectors.specs.InnerVectors.{EightApart, last_vector};
ghost use Rattle.vectors.specs.InnerWaiting.{one, wait_step, padded, start_waiting};
ghost use Rattle.vectors.specs.InnerShort.{ShortLeast, ShortProduct};

use crate::unsplit::Waited;
use crate::vector::{Vector, Waiting};
use accumulator::StableProductFloatAcc;

const LANES: usize = StableProductFloatAcc::LANES;

// Pieces of at most so many values are tried without bringing lanes back.
const MOST_SHORT: usize = 480;

// The product of a short piece.
#[derive(Clone, Copy)]
pub struct Short {
    pub m: f64,
    pub e: i64,
}

// How deep the values of a short piece may lie: the fewer, the deeper.
fn short_depth(len: usize) -> usize
    ensures { (1 ≤ result) × (result ≤ 120) × (len ≤ 480 → result * ((len + 7) / 8) ≤ 120) }
{
    if len <= 8 {
        return 120;
    }
    if len <= 16 {
        return 60;
    }
    if len <= 32 {
        return 30;
    }
    if len <= 64 {
        return 15;
    }
    if len <= 128 {
        return 7;
    }
    2
}

// What the measures of a short piece are held to.
pub fn short_least(len: usize, signs: bool) -> f64
    ensures { len ≤ 480 → ShortLeast signs len result }
{
    crate::vector::least_of(signs, short_depth(len))
}

// Side by side vectors of a piece of at most 64 values, in lanes that wait by their values.
pub fn short_beside(values: &[f64], start: i64, vectors: usize) -> Waited
    requires { PlacesInside (length values.now) start (pos 1) (8 * vectors) }
    ensures lanes_value { result.lanes ≡ feed (wait_step false) 0 (start_waiting (replicate 8 one)) (strided values.now start (pos 1) (8 * vectors)) }
    ensures at { result.at ≡ last_vector start (pos 1) (8 * vectors) }
{
    let w = crate::unsplit::start_waiting(kernels::lanes::start_lanes());
    crate::unsplit::wait_each(w, values, start, 1, 8, vectors, false)
}

// The vectors of such a piece, and a last one of the values that are left. Side by side that one is read without a stride, too.
fn short_lanes(values: &[f64], start: i64, stride: i64, eight: i64, len: usize) -> Waiting
    requires { EightApart stride len eight × PlacesInside (length values.now) start stride len }
    ensures { result ≡ feed (wait_step false) 0 (start_waiting (replicate 8 one)) (padded (strided values.now start stride len)) }
{
    let w = crate::unsplit::start_waiting(kernels::lanes::start_lanes());
    let r = if stride == 1 {
        crate::unsplit::wait_all(w, values, start, 1, len, 8, false)
    } else {
        crate::unsplit::wait_all(w, values, start, stride, len, eight, false)
    };
    r.lanes
}

// The product of such a piece, if it can be had. The lanes need not be brought back: multiplied, they stay normal, or the product is infinite or a NaN.
pub fn short_piece(values: &[f64], start: i64, stride: i64, len: usize, least: f64) -> Option<Short>
    requires { PlacesInside (length values.now) start stride len × ShortLeast false len least }
    ensures { IfSome result (ShortProduct (strided values.now start stride len)) }
{
    let eight = crate::vector::far_stride(stride, LANES, len);
    let w = short_lanes(values, start, stride, eight, len);
    let v = w.m;
    let p = crate::vector::chain(Vector { v });
    let q = floats::split_fields(p);
    if crate::vector::none_below(w, least) & crate::vector::not_past(p) {
        return Some(Short { m: q.m, e: q.e });
    }
    None
}

// A piece of at most 480 values at any stride, tried by squares, likewise.
fn middle_piece(values: &[f64], start: i64, stride: i64, eight: i64, len: usize) -> Option<Short>
    requires { EightApart stride len eight × PlacesInside (length values.now) start stride len }
    ensures { IfSome result (ShortProduct (strided values.now start stride len)) }
{
    if MOST_SHORT < len {
        return None;
    }
    let t = crate::unsplit::start_waiting(kernels::lanes::start_lanes());
    let r = crate::unsplit::wait_values(t, values, start, stride, len, eight, true);
    let w = r.lanes;
    let least = short_least(len, true);
    let v = w.m;
    let p = crate::vector::chain(Vector { v });
    let q = floats::split_fields(p);
    if crate::vector::not_past(p) & crate::vector::none_below(w, least) {
        return Some(Short { m: q.m, e: q.e });
    }
    None
}

// A piece that could not be had by squares: its lanes, many vectors at a time. In blocks of 64 and in stepped lanes they differ only where a value is bad.
fn fed_piece(
    values: &[f64],
    start: i64,
    stride: i64,
    eight: i64,
    len: usize,
    in_blocks: bool,
) -> StableProductFloatAcc
    requires { (1 ≤ len) × (len ≤ 2 ^ 40) × EightApart stride len eight × PlacesInside (length values.now) start stride len }
    ensures { result ≡ worked in_blocks (strided values.now start stride len) }
{
    if !in_blocks {
        if crate::marked::soon_bad(values, start, stride, eight, len) {
            return StableProductFloatAcc {
                m: 1.0,
                e: 0,
                bad: true,
            };
        }
    }
    let s = crate::feeding::fed_lanes(values, start, stride, eight, len);
    if !in_blocks & s.bad {
        let first = crate::marked::first_bad(values, start, stride, len);
        return crate::marked::product_before(s, first);
    }
    crate::feeding::lanes_product(s)
}

// A piece at any stride, as blocks of 64 have it or as stepped lanes do. The accumulator of a short one is the last that is made: returned from within, it is put
// together elsewhere and copied, which takes a third longer in rows of 4 with signs.
fn worked_piece(
    values: &[f64],
    start: i64,
    stride: i64,
    len: usize,
    in_blocks: bool,
) -> StableProductFloatAcc
    requires { (1 ≤ len) × (len ≤ 2 ^ 40) × PlacesInside (length values.now) start stride len }
    ensures { result ≡ worked in_blocks (strided values.now start stride len) }
{
    let eight = crate::vector::far_stride(stride, LANES, len);
    let Some(q) = middle_piece(values, start, stride, eight, len) else {
        return fed_piece(values, start, stride, eight, len, in_blocks);
    };
    StableProductFloatAcc {
        m: q.m,
        e: q.e,
        bad: false,
    }
}

// A piece of values that lie side by side.
pub fn stable_float_contiguous(values: &[f64]) -> StableProductFloatAcc
    requires { (1 ≤ length values.now) × (length values.now ≤ 2 ^ 40) }
    ensures { result ≡ contiguous values.now }
{
    worked_piece(values, 0, 1, values.len(), true)
}

// A piece of `len` values that begin at `start`, `stride` apart.
pub fn lanes_strided(values: &[f64], start: i64, stride: i64, len: usize) -> StableProductFloatAcc
    requires { (1 ≤ len) × PlacesInside (length values.now) start stride len × (len ≤ 2 ^ 40) }
    ensures { result ≡ stepped (strided values.now start stride len) }
{
    worked_piece(values, start, stride, len, false)
}
