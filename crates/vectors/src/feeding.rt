// The lanes of a piece, many vectors at a time.
ghost use Rattle.std.specs.Prelude.{◌≡◌, IfSome, IfNone, ◌||◌, true, false, ◌*◌, ◌^◌, ◌≤◌, ◌<◌, length};
ghost use Rattle.kernels.specs.Lanes.{every};
ghost use Rattle.kernels.specs.InnerLanes.{SmallLanes, LanesAfter};
ghost use Rattle.kernels.specs.InnerStrided.{strided, PlacesInside};
ghost use Rattle.kernels.specs.Blocks.{start_lanes};
ghost use Rattle.vectors.specs.InnerVectors.{EightApart, last_vector};
ghost use Rattle.vectors.specs.InnerSteps.{NotYetNormalised, Progress, SoundTry, patience};
ghost use Rattle.vectors.specs.InnerWaiting.{not_past, exponents_of, lanes_product};

use crate::vector::Vector;
use accumulator::StableProductFloatAcc;
use kernels::lanes::Lanes;

const LANES: usize = StableProductFloatAcc::LANES;

// Values that are guarded together, and such steps after the last way failed until the next try.
const GUARDED: usize = 256;

const HOLD: usize = 16;

const LAST_WAY: usize = 5;

// Lanes that wait to be brought back, how many values went to them, and where the last vector of these begins.
#[derive(Clone, Copy)]
pub struct Step {
    pub lanes: Lanes,
    pub done: usize,
    pub at: i64,
}

// A way to try values: by themselves or by their squares, down to 2^-depth, in at most so many vectors.
#[derive(Clone, Copy)]
pub struct Try {
    pub signs: bool,
    pub depth: usize,
    pub most: usize,
}

// A way is a number, and no enum, since ways are places in an order: the next is one more.
// Which way is tried next, and how many steps are guarded before; whether the way before it is tried if it works, and whether it failed once here.
#[derive(Clone, Copy)]
pub struct Pace {
    pub way: usize,
    pub hold: usize,
    pub rising: bool,
    pub again: bool,
}

fn by_values(depth: usize, most: usize) -> Try
    ensures { result ≡ record { signs = false; depth = depth; most = most } }
{
    Try {
        signs: false,
        depth,
        most,
    }
}

fn by_squares(depth: usize, most: usize) -> Try
    ensures { result ≡ record { signs = true; depth = depth; most = most } }
{
    Try {
        signs: true,
        depth,
        most,
    }
}

// By the values themselves: keep rates, any but low ones, low or large ones. Then by squares, where signs may be mixed: any but low ones, low or large
// ones, and as low as the source has it.
fn try_at(way: usize) -> Try
    ensures { SoundTry result }
{
    match way {
        0 => by_values(3, 256),
        1 => by_values(15, 64),
        2 => by_values(24, 40),
        3 => by_squares(7, 128),
        4 => by_squares(24, 40),
        _ => by_squares(120, 8),
    }
}

// Values that wait. They count only if none was too low and no lane is infinite or a NaN.
fn tried(
    s: Lanes,
    values: &[f64],
    start: i64,
    stride: i64,
    eight: i64,
    len: usize,
    y: Try,
) -> Option<Step>
    requires { SmallLanes (2 ^ 56) s × SoundTry y × (len ≤ 8 * y.most) × EightApart stride len eight × PlacesInside (length values.now) start stride len }
    ensures { IfSome result (λ t. NotYetNormalised s (strided values.now start stride len) t.lanes × (t.done ≡ len) × (t.at ≡ last_vector start stride len)) }
{
    let r = crate::unsplit::wait_values(
        crate::unsplit::start_waiting(s),
        values,
        start,
        stride,
        len,
        eight,
        y.signs,
    );
    let w = r.lanes;
    let v = w.m;
    let least = crate::vector::least_of(y.signs, y.depth);
    if crate::vector::none_below(w, least) & crate::vector::none_past(Vector { v }) {
        let m = w.m;
        let e = s.e;
        let bad = s.bad;
        return Some(Step {
            lanes: Lanes { m, e, bad },
            done: len,
            at: r.at,
        });
    }
    None
}

// Up to 256 values, a vector split where it must be, or all of them. Unless all are, the lanes count only if none is infinite or a NaN.
// m, e and bad are kept apart: copied as a whole, lanes take the bytes that fill them up with them, vector after vector.
fn vectors_in(
    s: Lanes,
    values: &[f64],
    start: i64,
    stride: i64,
    eight: i64,
    len: usize,
    all: bool,
) -> Step
    requires { SmallLanes (2 ^ 56) s × (len ≤ 256) × EightApart stride len eight × PlacesInside (length values.now) start stride len }
    ensures not_yet_normalised { (all || every not_past result.lanes.m) ≡ true → NotYetNormalised s (strided values.now start stride len) result.lanes }
    ensures at { (result.done ≡ len) × (result.at ≡ last_vector start stride len) }
{
    let vectors = (len + 7) / LANES;
    let mut m = s.m;
    let mut e = s.e;
    let mut bad = s.bad;
    let mut at = start;
    for i in 0..vectors {
        let vector = crate::vector::some_vector(values, at, stride, len - LANES * i);
        let t = crate::vector::guarded_vector(Lanes { m, e, bad }, vector, all);
        m = t.m;
        e = t.e;
        bad = t.bad;
        at = integers::next_place(at, eight, vectors - 1 - i);
    }
    Step {
        lanes: Lanes { m, e, bad },
        done: len,
        at,
    }
}

// Up to 256 values. If a lane ends infinite or a NaN, they are done again, every vector split.
fn guarded(s: Lanes, values: &[f64], start: i64, stride: i64, eight: i64, len: usize) -> Step
    requires { SmallLanes (2 ^ 56) s × (len ≤ 256) × EightApart stride len eight × PlacesInside (length values.now) start stride len }
    ensures not_yet_normalised { NotYetNormalised s (strided values.now start stride len) result.lanes }
    ensures at { (result.done ≡ len) × (result.at ≡ last_vector start stride len) }
{
    let t = vectors_in(s, values, start, stride, eight, len, false);
    let lanes = t.lanes;
    let v = lanes.m;
    if crate::vector::none_past(Vector { v }) {
        return t;
    }
    vectors_in(s, values, start, stride, eight, len, true)
}

// The next values of a piece: a try, unless all failed a short while ago.
fn next_step(
    s: Lanes,
    values: &[f64],
    at: i64,
    stride: i64,
    eight: i64,
    left: usize,
    pace: Pace,
) -> Option<Step>
    requires { SmallLanes (2 ^ 56) s × EightApart stride left eight × PlacesInside (length values.now) at stride left }
    ensures some { IfSome result (λ t. NotYetNormalised s (strided values.now at stride t.done) t.lanes × Progress left t.done × (t.at ≡ last_vector at stride t.done)) }
    ensures none { IfNone result (pace.hold ≡ 0) }
{
    if pace.hold == 0 {
        let y = try_at(pace.way);
        let n = left.min(LANES * y.most);
        return tried(s, values, at, stride, eight, n, y);
    }
    let n = left.min(GUARDED);
    Some(guarded(s, values, at, stride, eight, n))
}

// After a way that failed: one bad rate among others costs the way no more than the values of its try, which are guarded; else the next way. After the
// last, many steps are guarded.
fn failed_pace(pace: Pace) -> Pace
    ensures { patience result.hold result.way < patience 0 pace.way }
{
    let mut next = pace;
    next.rising = false;
    next.again = false;
    next.hold = 0;
    if (pace.way == 1) & !pace.again {
        next.hold = 2;
        next.again = true;
        return next;
    }
    if pace.way < LAST_WAY {
        next.way = pace.way + 1;
        return next;
    }
    next.hold = HOLD;
    next.rising = true;
    next
}

// A way that worked is kept; after many guarded steps the ways are tried from the last on, as long as they work.
fn next_pace(pace: Pace) -> Pace
    ensures { patience result.hold result.way ≤ 6 }
{
    let mut next = pace;
    if pace.hold != 0 {
        next.hold = pace.hold - 1;
        return next;
    }
    next.again = false;
    if pace.rising & (pace.way != 0) {
        next.way = pace.way - 1;
    }
    next
}

// A piece of at most 480 values was tried by squares before it came here: only the last way goes further.
fn first_way(len: usize) -> usize {
    if len <= 480 { LAST_WAY } else { 0 }
}

// The lanes of a whole piece, `eight` being the stride of eight values.
pub fn fed_lanes(values: &[f64], start: i64, stride: i64, eight: i64, len: usize) -> Lanes
    requires { (len ≤ 2 ^ 40) × EightApart stride len eight × PlacesInside (length values.now) start stride len }
    ensures { LanesAfter start_lanes (strided values.now start stride len) result }
{
    let mut s = kernels::lanes::start_lanes();
    let mut at = start;
    let mut i: usize = 0;
    let mut pace = Pace {
        way: first_way(len),
        hold: 0,
        rising: false,
        again: false,
    };
    // A step takes as many values as it can, so no range counts the steps: the measure is the values that are left, and patience.
    while i < len {
        match next_step(s, values, at, stride, eight, len - i, pace) {
            None => {
                pace = failed_pace(pace);
            }
            Some(t) => {
                s = kernels::lanes::stable_renorm(t.lanes);
                pace = next_pace(pace);
                i += t.done;
                if i < len {
                    at = crate::unsplit::behind(t.at, eight, t.done);
                }
            }
        }
    }
    s
}

fn exponents(s: Lanes) -> i64
    requires { SmallLanes (2 ^ 56) s }
    ensures { result ≡ exponents_of s }
{
    let mut e: i64 = 0;
    for x in s.e {
        e += x;
    }
    e
}

// The lanes multiplied in lane order. Each is in [1, 2), so that one bringing back at the end will do.
pub fn lanes_product(s: Lanes) -> StableProductFloatAcc
    requires { SmallLanes (2 ^ 56) s }
    ensures { result ≡ lanes_product s }
{
    let v = s.m;
    let p = floats::split_f64(crate::vector::chain(Vector { v }));
    let e = exponents(s);
    StableProductFloatAcc {
        m: p.m,
        e: e + p.e,
        bad: s.bad,
    }
}
