// The first bad rate of a range. Many values are tested at a time, as lanes that wait are: by their products and by the least of them. Only where the test
// fails are they looked at one by one.
#![tactic(auto)]

ghost use Rattle.std.specs.Prelude.{◌≡◌, true, false, ◌∷◌, ℕ, ◌+◌, ◌-◌, ◌*◌, ◌^◌, ◌≤◌, ◌<◌, length, pos, ◌+ℤ◌, ◌*ℤ◌};
ghost use Rattle.floats.specs.Splitting.{is_bad};
ghost use Rattle.kernels.specs.Lanes.{some};
ghost use Rattle.kernels.specs.InnerStrided.{strided, PlacesInside};
ghost use Rattle.vectors.specs.InnerVectors.{EightApart};
ghost use Rattle.offsets.specs.Elements.{all_inside};
ghost use Rattle.offsets.specs.InnerCursors.{Bounded, Traversal};
ghost use Rattle.offsets.specs.InnerLists.{steps, runs_places};
ghost use Rattle.offsets.specs.Lists.{offsets_from};
ghost use Rattle.offsets.specs.Pieces.{run_of, outer_of};
ghost use Rattle.search.specs.Searching.{lowest_bad, search_of, search_answer_of};
ghost use Rattle.search.specs.InnerLooks.{look_answer};

use accumulator::StableProductFloatAcc;
use layout::traversal::FullTraversal;
use refusals::Refusal;
use std::ops::ControlFlow;
use std::ops::ControlFlow::{Break, Continue};
use vectors::vector::{Vector, Waiting};

const LANES: usize = StableProductFloatAcc::LANES;

// Vectors that are tested together.
const CHUNK: usize = 256;

// From 2^-511 on a value is no zero and no subnormal, and its square is a normal number.
const DEPTH: usize = 511;

// A bad rate: its element number in the layout, and its offset in the values.
#[derive(Clone, Copy)]
pub struct BadRate {
    pub element: u64,
    pub offset: i64,
}

// What some values hold: a bad rate, the first of them, at which the search breaks off; or none, and whether those after them are tested by their squares.
pub type Look = ControlFlow<BadRate, bool>;

// If so, none of the values of these vectors is bad: lanes that begin as 0 are still 0, and not a NaN, so none is infinite or a NaN; and no value, or with
// `signs` no square, is too low. Otherwise one may be. Whether it is by squares is found out on the way, so it is a value, and no type or closure.
fn passes(values: &[f64], first: i64, stride: i64, eight: i64, vectors: usize, signs: bool) -> bool
    requires { EightApart stride (8 * vectors) eight × PlacesInside (length values.now) first stride (8 * vectors) }
    ensures { result ≡ true → some is_bad (strided values.now first stride (8 * vectors)) ≡ false }
{
    let zero = Waiting {
        m: [0.0; LANES],
        least: [1.0; LANES],
    };
    let r = vectors::unsplit::wait_vectors(zero, values, first, stride, eight, vectors, signs);
    let w = r.lanes;
    let v = w.m;
    let least = vectors::vector::least_of(signs, DEPTH);
    vectors::vector::none_below(w, least) & vectors::vector::none_past(Vector { v })
}

// Values looked at one by one. The stride is not added after the last: that sum may not fit.
fn look_closer(values: &[f64], element: u64, first: i64, stride: i64, len: usize) -> Look
    requires { (element + len < 2 ^ 64) × PlacesInside (length values.now) first stride len }
    ensures { look_answer result ≡ lowest_bad values.now element (steps first stride len) }
{
    let mut at = first;
    for i in 0..len {
        if floats::is_bad(values[at as usize]) {
            return Break(BadRate {
                element: element + i as u64,
                offset: at,
            });
        }
        if i + 1 < len {
            at += stride;
        }
    }
    Continue(true)
}

// Vectors tested together, and looked at value by value where the test fails. It may have failed for signs: those after them are tested by squares.
fn first_in_chunk(
    values: &[f64],
    element: u64,
    first: i64,
    stride: i64,
    eight: i64,
    vectors: usize,
    signs: bool,
) -> Look
    requires { (vectors ≤ 2 ^ 40) × (element + 8 * vectors < 2 ^ 64) × EightApart stride (8 * vectors) eight
        × PlacesInside (length values.now) first stride (8 * vectors) }
    ensures { look_answer result ≡ lowest_bad values.now element (steps first stride (8 * vectors)) }
{
    if passes(values, first, stride, eight, vectors, signs) {
        return Continue(signs);
    }
    look_closer(values, element, first, stride, LANES * vectors)
}

// Whole vectors, chunk by chunk.
fn first_in_vectors(
    values: &[f64],
    element: u64,
    first: i64,
    stride: i64,
    eight: i64,
    vectors: usize,
    signs: bool,
) -> Look
    requires { (vectors ≤ 2 ^ 40) × (element + 8 * vectors < 2 ^ 64) × EightApart stride (8 * vectors) eight
        × PlacesInside (length values.now) first stride (8 * vectors) }
    ensures { look_answer result ≡ lowest_bad values.now element (steps first stride (8 * vectors)) }
{
    let apart = vectors::vector::far_stride(stride, LANES * CHUNK, LANES * vectors);
    let mut signs = signs;
    let mut at = first;
    for i in (0..vectors).step_by(CHUNK) {
        let left = vectors - i;
        let n = left.min(CHUNK);
        let from = element + (LANES * i) as u64;
        signs = first_in_chunk(values, from, at, stride, eight, n, signs)?;
        if n < left {
            at += apart;
        }
    }
    Continue(signs)
}

// A run: whole vectors, and the values that are left, one by one.
fn first_in_run(
    values: &[f64],
    element: u64,
    first: i64,
    stride: i64,
    len: usize,
    signs: bool,
) -> Look
    requires { (len ≤ 2 ^ 40) × (element + len < 2 ^ 64) × PlacesInside (length values.now) first stride len }
    ensures { look_answer result ≡ lowest_bad values.now element (steps first stride len) }
{
    let vectors = len / LANES;
    let eight = vectors::vector::far_stride(stride, LANES, len);
    let signs = first_in_vectors(values, element, first, stride, eight, vectors, signs)?;
    if len % LANES != 0 {
        let done = LANES * vectors;
        let at = first + vectors::vector::far_stride(stride, done, len);
        look_closer(values, element + done as u64, at, stride, len % LANES)?;
    }
    Continue(signs)
}

// `count` runs of `len` values that begin `step` apart, one after another. No place past the last run's is formed.
fn first_in_strip(
    values: &[f64],
    element: u64,
    first: i64,
    step: i64,
    stride: i64,
    len: usize,
    count: u64,
    signs: bool,
) -> Look
    requires { (1 ≤ len) × (len ≤ 2 ^ 40) × (element + count * len < 2 ^ 64)
        × ((j : ℕ) → j < count → PlacesInside (length values.now) (first +ℤ step *ℤ pos j) stride len) }
    ensures { look_answer result ≡ lowest_bad values.now element (runs_places stride len (steps first step count)) }
{
    let mut signs = signs;
    let mut from = element;
    let mut at = first;
    for j in 0..count {
        signs = first_in_run(values, from, at, stride, len, signs)?;
        from += len as u64;
        if j + 1 < count {
            at += step;
        }
    }
    Continue(signs)
}

// Elements start to end - 1, strip by strip.
fn first_in_range(l: FullTraversal, base: i64, start: u64, end: u64, values: &[f64]) -> Look
    requires { Traversal l × Bounded (run_of l ∷ outer_of l) base × (start < end) × (end ≤ l.total)
        × (l.total ≤ 2 ^ 40) × (all_inside (run_of l ∷ outer_of l) l.total base (length values.now) ≡ true) }
    ensures { look_answer result ≡ lowest_bad values.now start (offsets_from (run_of l ∷ outer_of l) base start (end - start)) }
{
    let stride = l.run_stride;
    let mut signs = false;
    let mut c = offsets::pieces::begin(l, base, start);
    // Each strip hands on the cursor of the next, so no range counts them.
    while c.at < end {
        let s = offsets::pieces::next_strip(l, end, c);
        signs = first_in_strip(
            values,
            c.at,
            s.first,
            s.step,
            stride,
            s.len as usize,
            s.count,
            signs,
        )?;
        c = s.next;
    }
    Continue(signs)
}

// The lowest of elements start to end - 1 of a layout whose value is bad, with its offset; or that there is none; or one of refusals 1 to 7.
pub fn first_bad_rate(
    sizes: &[u64],
    strides: &[i64],
    base: i64,
    start: u64,
    end: u64,
    values: &[f64],
) -> Result<Option<BadRate>, Refusal>
    ensures { search_answer_of result ≡ search_of sizes.now strides.now base start end values.now }
{
    let length = values.len() as u64;
    let mut l = layout::traversal::empty();
    l.compile_in_place(sizes, strides)?;
    offsets::list::check_range(l.total, sizes, strides, base, start, end, length)?;
    Ok(first_in_range(l, base, start, end, values).break_value())
}
