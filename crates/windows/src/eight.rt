// Eight windows side by side. Lane k of window t begins at the rate t + k: windows share their lanes, and each is multiplied once.
ghost use Rattle.std.specs.Prelude.{◌≡◌, false, ◌+◌, ◌*◌, ◌/◌, ◌≤◌, length, replicate, pos, IfSome};
ghost use Rattle.kernels.specs.Lanes.{feed};
ghost use Rattle.kernels.specs.InnerStrided.{strided};
ghost use Rattle.vectors.specs.InnerWaiting.{one, wait_step, start_waiting};
ghost use Rattle.vectors.specs.InnerShort.{ShortLeast};
ghost use Rattle.windows.specs.InnerEight.{Beside, TimesLane, TimesLanes, EightWindows};

use accumulator::StableProductFloatAcc;
use vectors::vector::{Vector, Waiting};

const LANES: usize = StableProductFloatAcc::LANES;

// Windows of at most so many rates are had eight at a time.
const MOST_SHORT: usize = 480;

// Lanes that begin at eight rates in a row: after some vectors, and after one more.
#[derive(Clone, Copy)]
pub struct Begun {
    pub full: Waiting,
    pub more: Waiting,
}

// The lanes that begin at `at` and at the seven rates behind it.
fn lanes_from(values: &[f64], at: usize, vectors: usize) -> Begun
    requires { at + 8 * (vectors + 1) ≤ length values.now }
    ensures full_value { result.full ≡ feed (wait_step false) 0 (start_waiting (replicate 8 one)) (strided values.now (pos at) (pos 1) (8 * vectors)) }
    ensures more { result.more ≡ feed (wait_step false) 0 (start_waiting (replicate 8 one)) (strided values.now (pos at) (pos 1) (8 * (vectors + 1))) }
{
    let r = vectors::piece::short_beside(values, at as i64, vectors);
    let full = r.lanes;
    let vector = vectors::vector::vector_at(values, at + LANES * vectors);
    let more = vectors::vector::wait_vector(full, vector, false);
    Begun { full, more }
}

// Lanes that begin at sixteen rates in a row.
fn beside(a: Waiting, b: Waiting) -> [f64; 2 * LANES]
    ensures { Beside a.m b.m result }
{
    let mut lanes = [1.0; 2 * LANES];
    for k in 0..LANES {
        lanes[k] = a.m[k];
        lanes[LANES + k] = b.m[k];
    }
    lanes
}

// The products of eight windows so far, each times its lane k.
fn times_lane(c: Vector, lanes: [f64; 2 * LANES], k: usize) -> Vector
    requires { k ≤ 7 }
    ensures { TimesLane c.v lanes k result.v }
{
    let mut r = c;
    for t in 0..LANES {
        r.v[t] *= lanes[t + k];
    }
    r
}

// Likewise times its lanes `first` to n - 1.
fn times_lanes(c: Vector, lanes: [f64; 2 * LANES], first: usize, n: usize) -> Vector
    requires { (first ≤ n) × (n ≤ 8) }
    ensures { TimesLanes c.v lanes first n result.v }
{
    let mut r = c;
    for k in first..n {
        r = times_lane(r, lanes, k);
    }
    r
}

// The products of windows `at` to `at + 7`, not yet split, if every rate that they meet lies from `least` on and no product leaves the range.
fn eight_windows(values: &[f64], at: usize, w: usize, least: f64) -> Option<Vector>
    requires { (at + 8 * (w / 8 + 2) ≤ length values.now) × ShortLeast false w least }
    ensures { IfSome result (λ c. EightWindows values.now w at c.v) }
{
    let vectors = w / LANES;
    let rest = w % LANES;
    let a = lanes_from(values, at, vectors);
    let b = lanes_from(values, at + LANES, vectors);
    let full = beside(a.full, b.full);
    let more = beside(a.more, b.more);
    let start = Vector { v: [1.0; LANES] };
    let c = times_lanes(times_lanes(start, more, 0, rest), full, rest, LANES);
    let had = vectors::vector::none_below(a.more, least)
        & vectors::vector::none_below(b.more, least)
        & vectors::vector::none_past(c);
    if had { Some(c) } else { None }
}

// The same, if there are rates enough for sixteen lanes and the windows are short.
pub fn eight_at(values: &[f64], at: usize, w: usize) -> Option<Vector>
    ensures { IfSome result (λ c. EightWindows values.now w at c.v) }
{
    if MOST_SHORT < w {
        return None;
    }
    let reach = LANES * (w / LANES) + 2 * LANES;
    if values.len() < reach || values.len() - reach < at {
        return None;
    }
    eight_windows(values, at, w, vectors::piece::short_least(w, false))
}
