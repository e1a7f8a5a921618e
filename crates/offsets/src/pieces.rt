// A range, cut into pieces before each element number that is a multiple of the run length.
ghost use Rattle.std.specs.Prelude.{◌≡◌, ◌∷◌, ◌+◌, ◌*◌, ◌/◌, ◌%◌, ◌^◌, ◌≤◌, ◌<◌, get_or, ℤ};
ghost use Rattle.layout.specs.Axes.{no_axis};
ghost use Rattle.offsets.specs.InnerCursors.{Bounded, Traversal};
ghost use Rattle.offsets.specs.Pieces.{run_of, outer_of};
ghost use Rattle.offsets.specs.InnerPieces.{range_at, piece_of, skipped, OnRange, StripHere};

use crate::cursor::ReduceOuterCursor;
use layout::axis::PLACES;
use layout::traversal::FullTraversal;

// An element number of a range, with its column in the run and the cursor of the run.
#[derive(Clone, Copy)]
pub struct RangeCursor {
    pub at: u64,
    pub col: u64,
    pub runs: ReduceOuterCursor,
}

// A piece: the offset of its first element, how many elements it has, and where the next begins.
#[derive(Clone, Copy)]
pub struct RangePiece {
    pub first: i64,
    pub len: u64,
    pub next: RangeCursor,
}

// Runs that begin a step apart: the offset of the first, how many elements each has, how many they are, and where the next begins.
#[derive(Clone, Copy)]
pub struct RangeStrip {
    pub first: i64,
    pub step: i64,
    pub len: u64,
    pub count: u64,
    pub next: RangeCursor,
}

pub fn begin(l: FullTraversal, base: i64, start: u64) -> RangeCursor
    requires { Traversal l × Bounded (run_of l ∷ outer_of l) base }
    ensures { result ≡ range_at l base start }
{
    // At the layout's first element nothing is to be divided.
    if start == 0 {
        return RangeCursor {
            at: 0,
            col: 0,
            runs: ReduceOuterCursor {
                source_offset: base,
                digits: [0u64; PLACES],
            },
        };
    }
    let n = l.run_len;
    RangeCursor {
        at: start,
        col: start % n,
        runs: ReduceOuterCursor::decode(start / n, base, l.axis_count, l.run_axes),
    }
}

// The cursor n runs further along the first outer axis, within it: no digit is decoded anew.
pub fn skip_runs(l: FullTraversal, c: RangeCursor, n: u64) -> RangeCursor
    requires { Traversal l × OnRange l c × (0 < l.axis_count) × (get_or c.runs.digits 0 0 + n < (get_or l.run_axes 0 no_axis).extent)
        × (c.at + n * l.run_len < 2 ^ 64) }
    ensures { result ≡ skipped l n c }
{
    let a = l.run_axes[0];
    let at = c.at + n * l.run_len;
    let mut runs = c.runs;
    runs.digits[0] = runs.digits[0] + n;
    runs.source_offset = runs.source_offset + a.source_step * (n as i64);
    RangeCursor {
        at,
        col: c.col,
        runs,
    }
}

// The piece at a cursor that is not at the end. The cursor of the runs advances only if another piece follows.
pub fn next_piece(l: FullTraversal, end: u64, c: RangeCursor) -> RangePiece
    requires { Traversal l × (c.at < end) × OnRange l c }
    ensures { result ≡ piece_of l end c }
{
    let at = c.at;
    let col = c.col;
    let runs = c.runs;
    let len = (l.run_len - col).min(end - at);
    let first = runs.source_offset + l.run_stride * (col as i64);
    let k = at + len;
    if k < end {
        let next = RangeCursor {
            at: k,
            col: 0,
            runs: runs.to_next_run(l.axis_count, l.run_axes),
        };
        return RangePiece { first, len, next };
    }
    let next = RangeCursor {
        at: k,
        col: 0,
        runs,
    };
    RangePiece { first, len, next }
}

// How many whole runs lie ahead of a cursor within the range, a step of the first outer axis apart: 0 within a run, and 0 without outer axes.
pub fn whole_runs(l: FullTraversal, c: RangeCursor, end: u64) -> u64
    requires { Traversal l × (c.at < end) × OnRange l c × (l.total ≤ 2 ^ 40) }
    ensures { 0 < result → (0 < l.axis_count) × (c.at % l.run_len ≡ 0)
        × (c.at / l.run_len % (get_or l.run_axes 0 no_axis).extent + result ≤ (get_or l.run_axes 0 no_axis).extent)
        × (c.at + result * l.run_len ≤ end) }
{
    if l.axis_count == 0 {
        return 0;
    }
    if c.col != 0 {
        return 0;
    }
    let left = l.run_axes[0].extent - c.runs.digits[0];
    let len = l.run_len;
    let room = end - c.at;
    if left * len <= room { left } else { room / len }
}

// The strip at a cursor that is not at the end: whole runs along the first outer axis, or one piece.
pub fn next_strip(l: FullTraversal, end: u64, c: RangeCursor) -> RangeStrip
    requires { Traversal l × (c.at < end) × OnRange l c × (end ≤ l.total) × (l.total ≤ 2 ^ 40) }
    ensures { (base : ℤ) → Bounded (run_of l ∷ outer_of l) base → c ≡ range_at l base c.at → StripHere l base end c result }
{
    let n = whole_runs(l, c, end);
    if n < 2 {
        let p = next_piece(l, end, c);
        let next = p.next;
        return RangeStrip {
            first: p.first,
            step: 0,
            len: p.len,
            count: 1,
            next,
        };
    }
    let outer = l.run_axes[0];
    let last = skip_runs(l, c, n - 1);
    let q = next_piece(l, end, last);
    let next = q.next;
    let first = c.runs.source_offset;
    RangeStrip {
        first,
        step: outer.source_step,
        len: l.run_len,
        count: n,
        next,
    }
}
