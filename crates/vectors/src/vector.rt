// A vector: eight values, one for each lane.
ghost use Rattle.std.specs.Prelude.{◌≡◌, Bool, true, ◌+◌, ◌*◌, ◌^◌, ◌≤◌, ◌<◌, min, length, pos, ◌*ℤ◌, Float};
ghost use Rattle.std.specs.List.{fold};
ghost use Rattle.std.proofs.Common.{SFits};
ghost use Rattle.std.specs.Int.{w64};
ghost use Rattle.kernels.specs.Lanes.{feed, every};
ghost use Rattle.kernels.specs.InnerLanes.{window, SmallLanes};
ghost use Rattle.kernels.specs.InnerStrided.{strided, PlacesInside};
ghost use Rattle.kernels.specs.Blocks.{unsplit_step, split_step};
ghost use Rattle.floats.specs.Product.{product_of};
ghost use Rattle.vectors.specs.InnerSplits.{SplitsEach};
ghost use Rattle.vectors.specs.InnerWaiting.{one, vector_of, lesser, measure, wait_step, least_of, not_below, not_past, chained};
ghost use Rattle.vectors.specs.InnerWaiting.{magnitude, magnitude_but, least_magnitude, not_low, none_low, all_ordinary, below_normal, all_subnormal, guarded};

use accumulator::StableProductFloatAcc;
use floats::Split;
use kernels::lanes::Lanes;

const LANES: usize = StableProductFloatAcc::LANES;

// 2^-15 and 2^1000.
const LEAST: f64 = 0.000030517578125;

const MOST: f64 = 1.0715086071862673e301;

// The least positive number, 2^-1074, the least normal one, 2^-1022, and twice that.
const LEAST_POSITIVE: f64 = 5e-324;

const LOWEST: f64 = 2.2250738585072014e-308;

const TWICE_LOWEST: f64 = 4.450147717014403e-308;

#[derive(Clone, Copy)]
pub struct Vector {
    pub v: [f64; LANES],
}

// Lanes multiplied unsplit, beside the least of the values that each has met, or of their squares.
// Two arrays as in `Lanes`.
#[derive(Clone, Copy)]
pub struct Waiting {
    pub m: [f64; LANES],
    pub least: [f64; LANES],
}

// From one value of a piece of `len` values to the one n further, if there is one: else that may not fit.
pub fn far_stride(stride: i64, n: usize, len: usize) -> i64
    requires { (n ≤ 2 ^ 40) × (n < len → SFits w64 (stride *ℤ pos n)) }
    ensures { n < len → result ≡ stride *ℤ pos n }
{
    if n < len {
        return stride * (n as i64);
    }
    0
}

// n values from `at` on, a stride apart. The lanes past them get 1.0, which changes none. No offset is formed but those of the values.
// Eight turns, whatever n is, so that the lanes stay in registers.
pub fn vector_of(values: &[f64], at: i64, stride: i64, n: usize) -> Vector
    requires { (n ≤ 8) × PlacesInside (length values.now) at stride n }
    ensures { result.v ≡ vector_of (strided values.now at stride n) }
{
    let mut r = Vector { v: [1.0; LANES] };
    let mut place = at;
    for k in 0..LANES {
        if k < n {
            let index = place as usize;
            r.v[k] = values[index];
        }
        let next = k + 1;
        if next < n {
            place = integers::next_place(place, stride, n - next);
        }
    }
    r
}

// Eight values that lie side by side.
pub fn vector_at(values: &[f64], at: usize) -> Vector
    requires { at + 8 ≤ length values.now }
    ensures { result.v ≡ window values.now at 8 }
{
    Vector {
        v: std::array::from_fn(|k| values[at + k]),
    }
}

// The same, by the place of the first.
pub fn vector_beside(values: &[f64], at: i64) -> Vector
    requires { PlacesInside (length values.now) at (pos 1) 8 }
    ensures { result.v ≡ strided values.now at (pos 1) 8 }
{
    vector_at(values, at as usize)
}

// The next vector of a piece of which `left` values are left. A full one at stride 1 is read without a place for each.
pub fn some_vector(values: &[f64], at: i64, stride: i64, left: usize) -> Vector
    requires { PlacesInside (length values.now) at stride left }
    ensures { result.v ≡ vector_of (strided values.now at stride (min 8 left)) }
{
    if stride == 1 {
        if LANES <= left {
            return vector_beside(values, at);
        }
    }
    if LANES <= left {
        return vector_of(values, at, stride, LANES);
    }
    vector_of(values, at, stride, left)
}

// Not `min`, which passes over a NaN wherever it is: here the second counts then.
fn lesser(x: f64, y: f64) -> f64
    ensures { result ≡ lesser x y }
{
    if x < y { x } else { y }
}

// What the least of a lane is taken of: the value, or its square where signs may be mixed.
fn measure(x: f64, signs: bool) -> f64
    ensures { result ≡ measure signs x }
{
    if signs { x * x } else { x }
}

pub fn wait_vector(w: Waiting, vector: Vector, signs: bool) -> Waiting
    ensures { result ≡ feed (wait_step signs) 0 w vector.v }
{
    let mut t = w;
    for k in 0..LANES {
        let x = vector.v[k];
        t.m[k] = t.m[k] * x;
        t.least[k] = lesser(measure(x, signs), t.least[k]);
    }
    t
}

// The measure of a value of 2^-depth: 2^-depth itself, or, rather than its square, twice that, so that no rounding can reach it from below.
pub fn least_of(signs: bool, depth: usize) -> f64
    requires { (1 ≤ depth) × (depth ≤ 511) }
    ensures { result ≡ least_of signs depth }
{
    let d = depth as u64;
    let field = if signs { 1024 - 2 * d } else { 1023 - d };
    f64::from_bits(field << 52)
}

// Whether each of eight values passes a test. A fold and not `all`, which compiles to a branch for each of them and takes longer.
fn every_lane<F: Fn(f64) -> bool>(lanes: &[f64; LANES], test: F) -> bool
    requires { F.IsAlwaysCallable test }
    ensures { (q : Float → Bool) → ((x : Float) (b : Bool) → F.post test x b → b ≡ q x) → result ≡ every q lanes.now }
{
    lanes.iter().fold(true, |ok, x| ok & test(*x))
}

// No measure that a lane has met is below the least.
pub fn none_below(w: Waiting, least: f64) -> bool
    ensures { result ≡ every (not_below least) w.least }
{
    every_lane(&w.least, |y| least <= y)
}

// A number of at most 2^1000 either way: no infinity, no NaN.
pub fn not_past(x: f64) -> bool
    ensures { result ≡ not_past x }
{
    (x <= MOST) & (-MOST <= x)
}

pub fn none_past(vector: Vector) -> bool
    ensures { result ≡ every not_past vector.v }
{
    every_lane(&vector.v, |x| not_past(x))
}

// Lanes multiplied in lane order.
pub(crate) fn product(lanes: &[f64]) -> f64
    ensures { result ≡ fold (product_of 11 52) one lanes.now }
{
    lanes.iter().fold(1.0, |p, x| p * *x)
}

// The lanes of a vector, multiplied in lane order.
pub fn chain(vector: Vector) -> f64
    ensures { result ≡ chained vector.v }
{
    product(&vector.v)
}

// Not `abs`, which makes 0.0 of -0.0: the definition leaves it.
fn magnitude(x: f64) -> f64
    ensures { result ≡ magnitude x }
{
    if x < -x { -x } else { x }
}

// 1.0 for a zero where zeros are passed over.
fn magnitude_but(x: f64, over: bool) -> f64
    ensures { result ≡ magnitude_but over x }
{
    if over & (x == 0.0) {
        return 1.0;
    }
    magnitude(x)
}

fn lesser_magnitude(x: f64, y: f64, over: bool) -> f64
    ensures { result ≡ lesser (magnitude_but over x) (magnitude_but over y) }
{
    lesser(magnitude_but(x, over), magnitude_but(y, over))
}

// The least magnitude of eight values, lane beside lane. Where one of two is a NaN, the second counts.
fn least_magnitude(vector: Vector, over: bool) -> f64
    ensures { result ≡ least_magnitude over vector.v }
{
    let a = lesser_magnitude(vector.v[0], vector.v[4], over);
    let b = lesser_magnitude(vector.v[1], vector.v[5], over);
    let c = lesser_magnitude(vector.v[2], vector.v[6], over);
    let d = lesser_magnitude(vector.v[3], vector.v[7], over);
    lesser(lesser(a, c), lesser(b, d))
}

// If so, no magnitude is below 2^-15, or one is a NaN.
fn vector_not_low(vector: Vector) -> bool
    ensures { result ≡ not_low vector.v }
{
    LEAST <= least_magnitude(vector, false)
}

// If so, no magnitude but 0 is below 2^-1021, or one is a NaN. Zeros are passed over only if there may be one, since it takes longer.
fn vector_high(vector: Vector) -> bool
    ensures { result ≡ none_low vector.v }
{
    if LEAST_POSITIVE <= least_magnitude(vector, false) {
        return TWICE_LOWEST <= least_magnitude(vector, false);
    }
    TWICE_LOWEST <= least_magnitude(vector, true)
}

// If so, all are zeros or normal numbers.
fn vector_ordinary(vector: Vector) -> bool
    ensures { result ≡ all_ordinary vector.v }
{
    if vector_high(vector) {
        return none_past(vector);
    }
    false
}

fn below_normal(x: f64) -> bool
    ensures { result ≡ below_normal x }
{
    magnitude(x) < LOWEST
}

fn none_normal(vector: Vector) -> bool
    ensures { result ≡ every below_normal vector.v }
{
    every_lane(&vector.v, |x| below_normal(x))
}

// If so, all are subnormal. They are compared and not multiplied, which takes long on some machines.
fn vector_subnormal(vector: Vector) -> bool
    ensures { result ≡ all_subnormal vector.v }
{
    if LEAST_POSITIVE <= least_magnitude(vector, false) {
        return none_normal(vector);
    }
    false
}

fn unsplit_vector(s: Lanes, vector: Vector) -> Lanes
    ensures { result ≡ feed unsplit_step 0 s vector.v }
{
    let mut t = s;
    for k in 0..LANES {
        t.m[k] = t.m[k] * vector.v[k];
    }
    t
}

// Each value split and put into its lane. The vector's values are all that `split` has to split.
fn split_each<F: Fn(f64) -> Split>(s: Lanes, vector: Vector, split: F) -> Lanes
    requires small { SmallLanes (2 ^ 59) s }
    requires splits { SplitsEach F.Fn split vector.v }
    ensures { result ≡ feed split_step 0 s vector.v }
{
    let mut t = s;
    for k in 0..LANES {
        t = kernels::lanes::put_split(t, k, split(vector.v[k]));
    }
    t
}

// The same for any values. Which lane each goes to is for `split_step` to say.
fn split_mixed(s: Lanes, vector: Vector) -> Lanes
    requires { SmallLanes (2 ^ 59) s }
    ensures { result ≡ feed split_step 0 s vector.v }
{
    let mut t = s;
    for k in 0..LANES {
        t = kernels::lanes::split_step(t, k, vector.v[k]);
    }
    t
}

// Zeros and normal numbers are split without a branch, and so are subnormals: eight at a time. Any other vector is split value by value.
fn split_vector(s: Lanes, vector: Vector) -> Lanes
    requires { SmallLanes (2 ^ 59) s }
    ensures { result ≡ feed split_step 0 s vector.v }
{
    if vector_ordinary(vector) {
        return split_each(s, vector, floats::split_ordinary);
    }
    if vector_subnormal(vector) {
        return split_each(s, vector, floats::split_subnormal_whole);
    }
    split_mixed(s, vector)
}

// A low vector is split, and with `all` every vector; any other is multiplied as it is.
pub fn guarded_vector(s: Lanes, vector: Vector, all: bool) -> Lanes
    requires { SmallLanes (2 ^ 59) s }
    ensures { result ≡ guarded all s vector.v }
{
    if !all & vector_not_low(vector) {
        return unsplit_vector(s, vector);
    }
    split_vector(s, vector)
}
