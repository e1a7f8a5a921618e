// A reduction a few pieces at a time: each call takes a bookmark, and hands back the next one or the range's product.
#![tactic(auto)]

ghost use Rattle.std.specs.Prelude.{◌≡◌, true, ◌∷◌, ◌-◌, ◌^◌, ◌≤◌, ◌<◌, min, length, eqb, nat_abs};
ghost use Rattle.refusals.specs.Refusals.{first_of};
ghost use Rattle.refusals.specs.Codes.{code_of};
ghost use Rattle.offsets.specs.Elements.{all_inside};
ghost use Rattle.offsets.specs.InnerCursors.{Bounded, Traversal};
ghost use Rattle.offsets.specs.Pieces.{run_of, outer_of};
ghost use Rattle.accumulator.specs.Joining.{in_limits, accumulator, answer_of};
ghost use Rattle.kernels.specs.InnerStepped.{Sound};
ghost use Rattle.reduction.specs.Ranges.{pieces_of};
ghost use Rattle.bookmarks.specs.Steps.{begins_piece, step_refusals, joined_within, portion_of, told, step_of, step_answer_of};
ghost use Rattle.bookmarks.specs.InnerPortions.{pieces_left, stop_at};

use accumulator::StableProductFloatAcc;
use layout::traversal::FullTraversal;
use refusals::Refusal;

// From an exponent up to 2^51, either way, no 2^40 values carry an accumulator past 2^52.
const NEAR: u64 = 1 << 51;

// Where a reduction goes on: the next element number, and the accumulator of the pieces before it.
#[derive(Clone, Copy)]
pub struct Bookmark {
    pub next: u64,
    pub acc: StableProductFloatAcc,
}

// The range's product, or a further bookmark, each with the number of pieces that were worked.
#[derive(Clone, Copy)]
pub enum Step {
    Done(StableProductFloatAcc, u64),
    More(Bookmark, u64),
}

// The pieces of one call: the element number behind them, and how many they are.
#[derive(Clone, Copy)]
pub struct Portion {
    pub stop: u64,
    pub pieces: u64,
}

fn begins_piece(len: u64, start: u64, end: u64, k: u64) -> bool
    requires { 1 ≤ len }
    ensures { result ≡ begins_piece len start end k }
{
    k == start || (start <= k && k < end && k % len == 0)
}

// What is asked of the count and of the bookmark. The accumulator is ignored at the start.
fn check_step(len: u64, start: u64, end: u64, mark: Bookmark, n: u64) -> Result<(), Refusal>
    requires { 1 ≤ len }
    ensures { code_of result ≡ first_of (step_refusals len start end mark n) }
{
    if n == 0 {
        return Err(Refusal::NoPieces);
    }
    let at = mark.next;
    if !begins_piece(len, start, end, at) {
        return Err(Refusal::NotAPiece);
    }
    if at != start && !accumulator::in_limits(mark.acc) {
        return Err(Refusal::AccumulatorOutOfRange);
    }
    Ok(())
}

// At most n pieces from element k on: a piece ends with its run, the last one with the range.
fn portion_from(len: u64, end: u64, n: u64, k: u64) -> Portion
    requires { (1 ≤ len) × (k < end) × (end ≤ 2 ^ 40) }
    ensures { (result.stop ≡ stop_at len end n k) × (result.pieces ≡ min n (pieces_left len end k)) }
{
    let run = k / len;
    let left = (end - 1) / len - run + 1;
    if left <= n {
        return Portion {
            stop: end,
            pieces: left,
        };
    }
    Portion {
        stop: (run + n) * len,
        pieces: n,
    }
}

// The pieces from element k to end - 1 joined one by one onto an accumulator that may pass 2^52.
fn join_each(
    l: FullTraversal,
    base: i64,
    k: u64,
    end: u64,
    values: &[f64],
    acc: StableProductFloatAcc,
) -> Result<StableProductFloatAcc, Refusal>
    requires { Traversal l × Bounded (run_of l ∷ outer_of l) base × (k < end) × (end ≤ l.total) × (l.total ≤ 2 ^ 40)
        × (all_inside (run_of l ∷ outer_of l) l.total base (length values.now) ≡ true) × (in_limits acc ≡ true) × Sound acc }
    ensures { answer_of result ≡ joined_within acc (pieces_of l base values.now k end) }
{
    let stride = l.run_stride;
    let mut acc = acc;
    let mut c = offsets::pieces::begin(l, base, k);
    // Each piece hands on the cursor of the next, so no range counts them.
    while c.at < end {
        let p = offsets::pieces::next_piece(l, end, c);
        let b = reduction::full::reduce_piece(values, p.first, stride, p.len as usize);
        acc = accumulator::join(acc, b)?;
        c = p.next;
    }
    Ok(acc)
}

fn is_near(e: i64) -> bool
    ensures { result ≡ true → nat_abs e ≤ 2 ^ 51 }
{
    e.unsigned_abs() <= NEAR
}

// The pieces from element k to end - 1 joined onto an accumulator. Only from one that is far out can they pass 2^52.
fn join_portion(
    l: FullTraversal,
    base: i64,
    k: u64,
    end: u64,
    values: &[f64],
    acc: StableProductFloatAcc,
) -> Result<StableProductFloatAcc, Refusal>
    requires { Traversal l × Bounded (run_of l ∷ outer_of l) base × (k < end) × (end ≤ l.total) × (l.total ≤ 2 ^ 40)
        × (all_inside (run_of l ∷ outer_of l) l.total base (length values.now) ≡ true) × (in_limits acc ≡ true) }
    ensures { answer_of result ≡ joined_within acc (pieces_of l base values.now k end) }
{
    if is_near(acc.e) {
        let from = offsets::pieces::begin(l, base, k);
        return Ok(reduction::full::join_pieces(l, base, from, end, values, acc));
    }
    join_each(l, base, k, end, values, acc)
}

// The pieces from the bookmark to stop - 1: the first as it is at the range's start, joined onto the accumulator elsewhere.
fn reduce_portion(
    l: FullTraversal,
    base: i64,
    start: u64,
    mark: Bookmark,
    stop: u64,
    values: &[f64],
) -> Result<StableProductFloatAcc, Refusal>
    requires { Traversal l × Bounded (run_of l ∷ outer_of l) base × (mark.next < stop) × (stop ≤ l.total) × (l.total ≤ 2 ^ 40)
        × (all_inside (run_of l ∷ outer_of l) l.total base (length values.now) ≡ true)
        × ((mark.next ≡ start → ⊥) → in_limits mark.acc ≡ true) }
    ensures { answer_of result ≡ portion_of (eqb mark.next start) mark.acc (pieces_of l base values.now mark.next stop) }
{
    let next = mark.next;
    if next == start {
        return Ok(reduction::full::reduce_full_range(l, base, start, stop, values));
    }
    join_portion(l, base, next, stop, values, mark.acc)
}

fn tell(end: u64, p: Portion, acc: StableProductFloatAcc) -> Step
    ensures { step_answer_of (Ok result) ≡ told end p.stop p.pieces (accumulator acc.m acc.e acc.bad) }
{
    let next = p.stop;
    if next < end {
        Step::More(Bookmark { next, acc }, p.pieces)
    } else {
        Step::Done(acc, p.pieces)
    }
}

// Works through the next n pieces of a range, from a bookmark on, or through those that are left; or one of refusals 1 to 7, 14, 15, 9 and 10. At the
// range's start the bookmark's accumulator is ignored.
pub fn reduce_step(
    sizes: &[u64],
    strides: &[i64],
    base: i64,
    start: u64,
    end: u64,
    values: &[f64],
    mark: Bookmark,
    n: u64,
) -> Result<Step, Refusal>
    ensures { step_answer_of result ≡ step_of sizes.now strides.now base start end values.now mark n }
{
    let length = values.len() as u64;
    let mut l = layout::traversal::empty();
    l.compile_in_place(sizes, strides)?;
    offsets::list::check_range(l.total, sizes, strides, base, start, end, length)?;
    check_step(l.run_len, start, end, mark, n)?;
    let p = portion_from(l.run_len, end, n, mark.next);
    let acc = reduce_portion(l, base, start, mark, p.stop, values)?;
    Ok(tell(end, p, acc))
}
