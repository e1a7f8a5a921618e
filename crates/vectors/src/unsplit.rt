// A piece's vectors multiplied unsplit into lanes that wait, and the values that fill no vector.
ghost use Rattle.std.specs.Prelude.{◌≡◌, ◌*◌, ◌<◌, length, pos, ◌+ℤ◌};
ghost use Rattle.integers.specs.InnerPlaces.{PlacesFit};
ghost use Rattle.kernels.specs.Lanes.{feed};
ghost use Rattle.kernels.specs.InnerStrided.{strided, PlacesInside};
ghost use Rattle.vectors.specs.InnerVectors.{EightApart, last_vector};
ghost use Rattle.vectors.specs.InnerWaiting.{wait_step, padded, start_waiting};

use crate::vector::{Vector, Waiting};
use accumulator::StableProductFloatAcc;
use kernels::lanes::Lanes;

const LANES: usize = StableProductFloatAcc::LANES;

// Lanes after some vectors, and where the last of these begins; the piece's start, if there was none.
#[derive(Clone, Copy)]
pub struct Waited {
    pub lanes: Waiting,
    pub at: i64,
}

pub fn start_waiting(s: Lanes) -> Waiting
    ensures { result ≡ start_waiting s.m }
{
    let m = s.m;
    Waiting {
        m,
        least: [1.0; LANES],
    }
}

// Eight values of a piece. Side by side they are read without a place for each.
fn full_vector(values: &[f64], at: i64, stride: i64) -> Vector
    requires { PlacesInside (length values.now) at stride 8 }
    ensures { result.v ≡ strided values.now at stride 8 }
{
    if stride == 1 {
        return crate::vector::vector_beside(values, at);
    }
    crate::vector::vector_of(values, at, stride, LANES)
}

// Vectors one after another, `eight` being the stride of eight values, which is not added after the last. The loop stands in each caller: so it is compiled
// for the signs and the stride known there, and stands inside the loop of a strip.
#[inline(always)]
pub fn wait_each(
    w: Waiting,
    values: &[f64],
    start: i64,
    stride: i64,
    eight: i64,
    vectors: usize,
    signs: bool,
) -> Waited
    requires { EightApart stride (8 * vectors) eight × PlacesInside (length values.now) start stride (8 * vectors) }
    ensures lanes_value { result.lanes ≡ feed (wait_step signs) 0 w (strided values.now start stride (8 * vectors)) }
    ensures at { result.at ≡ last_vector start stride (8 * vectors) }
{
    let mut lanes = w;
    let mut at = start;
    let mut next = start;
    for left in (0..vectors).rev() {
        at = next;
        let vector = full_vector(values, at, stride);
        lanes = crate::vector::wait_vector(lanes, vector, signs);
        next = integers::next_place(at, eight, left);
    }
    Waited { lanes, at }
}

// One copy of the loop for values side by side, and one for any others.
pub fn wait_vectors(
    w: Waiting,
    values: &[f64],
    start: i64,
    stride: i64,
    eight: i64,
    vectors: usize,
    signs: bool,
) -> Waited
    requires { EightApart stride (8 * vectors) eight × PlacesInside (length values.now) start stride (8 * vectors) }
    ensures lanes_value { result.lanes ≡ feed (wait_step signs) 0 w (strided values.now start stride (8 * vectors)) }
    ensures at { result.at ≡ last_vector start stride (8 * vectors) }
{
    if stride != 1 {
        return wait_each(w, values, start, stride, eight, vectors, signs);
    }
    wait_each(w, values, start, 1, 8, vectors, signs)
}

// Where the next values begin, of which there are some: behind the n before them, whole vectors of which the last begins at `at`, or at `at` if n is 0.
pub fn behind(at: i64, eight: i64, n: usize) -> i64
    requires { 0 < n → PlacesFit at eight 2 }
    ensures { (n ≡ 0 → result ≡ at) × (0 < n → result ≡ at +ℤ eight) }
{
    if n == 0 {
        return at;
    }
    integers::next_place(at, eight, 1)
}

// Whole vectors, and a last one of the values that are left, in the caller as well.
#[inline(always)]
pub fn wait_all(
    w: Waiting,
    values: &[f64],
    start: i64,
    stride: i64,
    len: usize,
    eight: i64,
    signs: bool,
) -> Waited
    requires { EightApart stride len eight × PlacesInside (length values.now) start stride len }
    ensures lanes_value { result.lanes ≡ feed (wait_step signs) 0 w (padded (strided values.now start stride len)) }
    ensures at { result.at ≡ last_vector start stride len }
{
    let vectors = len / LANES;
    let r = wait_each(w, values, start, stride, eight, vectors, signs);
    let few = len % LANES;
    if few == 0 {
        return r;
    }
    let at = behind(r.at, eight, vectors);
    let vector = crate::vector::vector_of(values, at, stride, few);
    let lanes = crate::vector::wait_vector(r.lanes, vector, signs);
    Waited { lanes, at }
}

// The same where the code is not wanted in each caller. It is written out, with one end for both loops: on `wait_all` twice it has two, and takes 3 to 10
// parts in 100 longer.
pub fn wait_values(
    w: Waiting,
    values: &[f64],
    start: i64,
    stride: i64,
    len: usize,
    eight: i64,
    signs: bool,
) -> Waited
    requires { EightApart stride len eight × PlacesInside (length values.now) start stride len }
    ensures lanes_value { result.lanes ≡ feed (wait_step signs) 0 w (padded (strided values.now start stride len)) }
    ensures at { result.at ≡ last_vector start stride len }
{
    let vectors = len / LANES;
    let r = wait_vectors(w, values, start, stride, eight, vectors, signs);
    let rest = len % LANES;
    if rest == 0 {
        return r;
    }
    let at = behind(r.at, eight, vectors);
    let vector = crate::vector::vector_of(values, at, stride, rest);
    let lanes = crate::vector::wait_vector(r.lanes, vector, signs);
    Waited { lanes, at }
}
