// The full reduction: reduce_full_range over a compiled layout, and the call that compiles by itself.
ghost use Rattle.std.specs.Prelude.{◌≡◌, true, false, ◌∷◌, ℕ, ◌-◌, ◌*◌, ◌^◌, ◌≤◌, ◌<◌, length, pos, nat_abs, ◌+ℤ◌, ◌*ℤ◌};
ghost use Rattle.integers.specs.Integers.{eq_z};
ghost use Rattle.offsets.specs.Elements.{all_inside};
ghost use Rattle.offsets.specs.InnerCursors.{Bounded, Traversal};
ghost use Rattle.offsets.specs.Pieces.{run_of, outer_of};
ghost use Rattle.offsets.specs.InnerPieces.{range_at};
ghost use Rattle.kernels.specs.InnerStrided.{strided, PlacesInside};
ghost use Rattle.kernels.specs.InnerStepped.{Sound};
ghost use Rattle.kernels.specs.Pieces.{worked, joined_onto, joined_pieces};
ghost use Rattle.vectors.specs.InnerShort.{ShortLeast};
ghost use Rattle.accumulator.specs.Joining.{answer_of};
ghost use Rattle.reduction.specs.InnerStrips.{run_acc, strip};
ghost use Rattle.reduction.specs.Ranges.{pieces_of, reduce_of};

use accumulator::StableProductFloatAcc;
use layout::traversal::FullTraversal;
use offsets::pieces::RangeCursor;
use refusals::Refusal;

const BLOCK: usize = StableProductFloatAcc::BLOCK;

// One piece: in blocks of 64 at stride 1, in stepped lanes at any other. Its fields are handed on one by one: copied as a whole, an accumulator takes
// the bytes that fill it up with it, and waits for them.
pub fn reduce_piece(values: &[f64], first: i64, stride: i64, len: usize) -> StableProductFloatAcc
    requires { (1 ≤ len) × PlacesInside (length values.now) first stride len × (len ≤ 2 ^ 40) }
    ensures { result ≡ worked (eq_z stride (pos 1)) (strided values.now first stride len) }
{
    if stride == 1 {
        let at = first as usize;
        let part = &values[at..at + len];
        let a = vectors::piece::stable_float_contiguous(part);
        let e = a.e;
        return StableProductFloatAcc {
            m: a.m,
            e,
            bad: a.bad,
        };
    }
    let a = vectors::piece::lanes_strided(values, first, stride, len);
    let e = a.e;
    StableProductFloatAcc {
        m: a.m,
        e,
        bad: a.bad,
    }
}

// One run's product, how many of the next runs are not tried as short pieces, and how many if the next try fails. It has m, e and bad of its own, and no
// accumulator within it, which would be copied as a whole (`reduce_piece`).
#[derive(Clone, Copy)]
pub struct RunProduct {
    pub m: f64,
    pub e: i64,
    pub bad: bool,
    pub hold: u64,
    pub back: u64,
}

// Runs that are not tried after one that could not be had as a short piece: twice as many each time, until there are so many.
const HOLD: u64 = 16;

fn held_longer(back: u64) -> u64 {
    if HOLD <= back { back } else { back * 2 + 1 }
}

// A short run is tried first; a longer one, and one that fails, is worked as a piece of its own.
fn next_run(
    values: &[f64],
    at: i64,
    stride: i64,
    len: usize,
    least: f64,
    hold: u64,
    back: u64,
) -> RunProduct
    requires { (1 ≤ len) × PlacesInside (length values.now) at stride len × (len ≤ 2 ^ 40) × (len ≤ 480 → ShortLeast false len least) }
    ensures { run_acc result ≡ worked (eq_z stride (pos 1)) (strided values.now at stride len) }
{
    if hold == 0 {
        if len <= BLOCK {
            if let Some(q) = vectors::piece::short_piece(values, at, stride, len, least) {
                return RunProduct {
                    m: q.m,
                    e: q.e,
                    bad: false,
                    hold: 0,
                    back: 0,
                };
            }
        }
    }
    let b = reduce_piece(values, at, stride, len);
    let e = b.e;
    if hold == 0 {
        return RunProduct {
            m: b.m,
            e,
            bad: b.bad,
            hold: back,
            back: held_longer(back),
        };
    }
    let bad = b.bad;
    let left = hold - 1;
    RunProduct {
        m: b.m,
        e,
        bad,
        hold: left,
        back,
    }
}

// `count` runs of `len` values that begin `step` apart, each joined from the right. Each place is worked out from the first: none past the last run's
// is formed.
fn reduce_strip(
    values: &[f64],
    first: i64,
    step: i64,
    stride: i64,
    len: usize,
    count: u64,
    acc: StableProductFloatAcc,
) -> StableProductFloatAcc
    requires { (1 ≤ len) × (len ≤ 2 ^ 40) × (count * len ≤ 2 ^ 40) × (nat_abs acc.e ≤ 2 ^ 60)
        × ((j : ℕ) → j < count → PlacesInside (length values.now) (first +ℤ step *ℤ pos j) stride len) × Sound acc }
    ensures { result ≡ strip values.now step stride len count first acc }
{
    let least = vectors::piece::short_least(len, false);
    let mut a = acc;
    let mut hold: u64 = 0;
    let mut back: u64 = 0;
    for j in 0..count {
        let at = first + step * (j as i64);
        let r = next_run(values, at, stride, len, least, hold, back);
        let e = r.e;
        let b = StableProductFloatAcc {
            m: r.m,
            e,
            bad: r.bad,
        };
        a = accumulator::combine_units(a, b);
        hold = r.hold;
        back = r.back;
    }
    a
}

// A range of a layout that is one run: one piece. Every place up to its end lies inside the values, so no product or sum is too large.
fn reduce_line(
    values: &[f64],
    base: i64,
    stride: i64,
    start: u64,
    end: u64,
) -> StableProductFloatAcc
    requires { (start < end) × PlacesInside (length values.now) base stride end × (end ≤ 2 ^ 40) }
    ensures { result ≡ worked (eq_z stride (pos 1)) (strided values.now (base +ℤ stride *ℤ pos start) stride (end - start)) }
{
    let first = base + stride * (start as i64);
    reduce_piece(values, first, stride, (end - start) as usize)
}

// The pieces from a cursor to end - 1, each joined from the right. Whole runs along the first outer axis go in a strip.
pub fn join_pieces(
    l: FullTraversal,
    base: i64,
    from: RangeCursor,
    end: u64,
    values: &[f64],
    acc: StableProductFloatAcc,
) -> StableProductFloatAcc
    requires { Traversal l × Bounded (run_of l ∷ outer_of l) base × (from.at ≤ end) × (end ≤ l.total) × (l.total ≤ 2 ^ 40)
        × (all_inside (run_of l ∷ outer_of l) l.total base (length values.now) ≡ true) × (from.at < end → from ≡ range_at l base from.at)
        × (nat_abs acc.e ≤ 2 ^ 53) × Sound acc }
    ensures { result ≡ joined_onto acc (pieces_of l base values.now from.at end) }
{
    let stride = l.run_stride;
    let mut acc = acc;
    let mut c = from;
    // A cursor goes on by a piece or by a whole strip: no count goes up by one here.
    while c.at < end {
        let n = offsets::pieces::whole_runs(l, c, end);
        if n < 2 {
            let q = offsets::pieces::next_piece(l, end, c);
            let b = reduce_piece(values, q.first, stride, q.len as usize);
            acc = accumulator::stable_float_combine(acc, b);
            c = q.next;
        } else {
            let axes = l.run_axes;
            let outer = axes[0];
            let len = l.run_len;
            let at = c.runs.source_offset;
            acc = reduce_strip(values, at, outer.source_step, stride, len as usize, n, acc);
            let last = offsets::pieces::skip_runs(l, c, n - 1);
            let q = offsets::pieces::next_piece(l, end, last);
            c = q.next;
        }
    }
    acc
}

// The pieces from start to end - 1: the first as it is, each later one joined from the right.
fn reduce_runs(
    l: FullTraversal,
    base: i64,
    start: u64,
    end: u64,
    values: &[f64],
) -> StableProductFloatAcc
    requires { Traversal l × Bounded (run_of l ∷ outer_of l) base × (start < end) × (end ≤ l.total) × (l.total ≤ 2 ^ 40)
        × (all_inside (run_of l ∷ outer_of l) l.total base (length values.now) ≡ true) }
    ensures { result ≡ joined_pieces (pieces_of l base values.now start end) }
{
    let p = offsets::pieces::next_piece(l, end, offsets::pieces::begin(l, base, start));
    let first = reduce_piece(values, p.first, l.run_stride, p.len as usize);
    join_pieces(l, base, p.next, end, values, first)
}

// The product of elements start to end - 1. A layout without outer axes is one run, and needs no cursor.
pub fn reduce_full_range(
    l: FullTraversal,
    base: i64,
    start: u64,
    end: u64,
    values: &[f64],
) -> StableProductFloatAcc
    requires { Traversal l × Bounded (run_of l ∷ outer_of l) base × (start < end) × (end ≤ l.total) × (l.total ≤ 2 ^ 40)
        × (all_inside (run_of l ∷ outer_of l) l.total base (length values.now) ≡ true) }
    ensures { result ≡ joined_pieces (pieces_of l base values.now start end) }
{
    if l.axis_count == 0 {
        return reduce_line(values, base, l.run_stride, start, end);
    }
    reduce_runs(l, base, start, end, values)
}

// The product of elements start to end - 1 of a layout over the lent values, or one of refusals 1 to 7.
pub fn reduce(
    sizes: &[u64],
    strides: &[i64],
    base: i64,
    start: u64,
    end: u64,
    values: &[f64],
) -> Result<StableProductFloatAcc, Refusal>
    ensures { answer_of result ≡ reduce_of sizes.now strides.now base start end values.now }
{
    let length = values.len() as u64;
    let mut l = layout::traversal::empty();
    l.compile_in_place(sizes, strides)?;
    offsets::list::check_range(l.total, sizes, strides, base, start, end, length)?;
    Ok(reduce_full_range(l, base, start, end, values))
}
