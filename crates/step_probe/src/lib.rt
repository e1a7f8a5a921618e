// The reduction a few pieces at a time over typed slices, for the benchmark and the comparison with the Rust. A library of its own, as for the search.
#![tactic(auto)]

ghost use Rattle.std.specs.Prelude.{◌≡◌};
ghost use Rattle.bookmarks.specs.Steps.{step_of};
ghost use Rattle.step_probe.specs.Answers.{bookmark_of, code_handed, mark_handed, pieces_handed, done_handed};

use accumulator::StableProductFloatAcc;
use bookmarks::{Bookmark, Step};

// 0 with the bookmark behind the pieces in next, m, e and bad, how many they were in pieces, and whether the range is done in done, in which case next
// stays; or the number of a refusal with nothing written.
#[unsafe(no_mangle)]
pub extern "C" fn probe_step(
    sizes: &[u64],
    strides: &[i64],
    base: i64,
    start: u64,
    end: u64,
    values: &[f64],
    n: u64,
    next: &mut u64,
    m: &mut f64,
    e: &mut i64,
    bad: &mut bool,
    pieces: &mut u64,
    done: &mut bool,
) -> u32
    ensures value { result ≡ code_handed (step_of sizes.now strides.now base start end values.now
        (bookmark_of next.old m.old e.old bad.old) n) }
    ensures bad_after { bookmark_of next.new m.new e.new bad.new
        ≡ mark_handed (bookmark_of next.old m.old e.old bad.old)
        (step_of sizes.now strides.now base start end values.now
        (bookmark_of next.old m.old e.old bad.old) n) }
    ensures pieces_after { pieces.new
        ≡ pieces_handed pieces.old (step_of sizes.now strides.now base start end values.now
        (bookmark_of next.old m.old e.old bad.old) n) }
    ensures done_after { done.new
        ≡ done_handed done.old (step_of sizes.now strides.now base start end values.now
        (bookmark_of next.old m.old e.old bad.old) n) }
{
    let acc = StableProductFloatAcc {
        m: *m,
        e: *e,
        bad: *bad,
    };
    let mark = Bookmark { next: *next, acc };
    match bookmarks::reduce_step(sizes, strides, base, start, end, values, mark, n) {
        Ok(Step::Done(a, worked)) => {
            *m = a.m;
            *e = a.e;
            *bad = a.bad;
            *pieces = worked;
            *done = true;
            0
        }
        Ok(Step::More(to, worked)) => {
            let a = to.acc;
            *next = to.next;
            *m = a.m;
            *e = a.e;
            *bad = a.bad;
            *pieces = worked;
            *done = false;
            0
        }
        Err(refusal) => u32::from(refusal),
    }
}
