// The calls whose answer is an accumulator, a number, a bad rate, a step or a refusal, each read from the rest of its line.
use crate::acc::{put_result, read_acc};
use crate::answer::Answer;
use crate::range::{Axes, Range, read_range};
use crate::step::read_bookmark;
use accumulator::StableProductFloatAcc;
use bookmarks::Bookmark;
use text::word::Words;

// How many values a line may have.
const VALUES: usize = 4096;

// The calls over a range and its values. A step has a bookmark and a count besides.
#[derive(Clone, Copy)]
enum RangeCall {
    Reduce,
    Product,
    Ordered,
    Figure,
    First,
    Step(Bookmark, u64),
}

// A range with its axes and its values, which each of the calls is asked about.
#[derive(Clone, Copy)]
struct Over<'a> {
    axes: Axes<'a>,
    range: Range,
    values: &'a [f64],
}

impl Over<'_> {
    fn ask<T, F: Fn(&[u64], &[i64], i64, u64, u64, &[f64]) -> T>(self, call: F) -> T
        requires { F.IsAlwaysCallable call }
    {
        let Range { base, start, end } = self.range;
        call(
            self.axes.sizes,
            self.axes.strides,
            base,
            start,
            end,
            self.values,
        )
    }
}

// Two accumulators, joined.
pub fn answer_join(words: &mut Words, out: &mut Answer) -> Option<()> {
    let a = read_acc(words)?;
    let b = read_acc(words)?;
    words.end()?;
    put_result(accumulator::join(a, b), out);
    Some(())
}

// The answer of a reduction that the line itself gives, finished.
pub fn answer_finish(words: &mut Words, out: &mut Answer) -> Option<()> {
    let reduced = read_reduced(words)?;
    words.end()?;
    put_result(finishing::finish(reduced), out);
    Some(())
}

// `acc M E BAD` or `refused N`, where N is any number of 32 bits.
fn read_reduced(words: &mut Words) -> Option<Result<StableProductFloatAcc, u32>> {
    match words.next_word()? {
        b"acc" => Some(Ok(read_acc(words)?)),
        b"refused" => Some(Err(u32::try_from(words.read::<u64>()?).ok()?)),
        _ => None,
    }
}

// A range and its values, read once for every call.
pub fn answer_over_range(
    call: &[u8],
    axes: Axes,
    words: &mut Words,
    out: &mut Answer,
) -> Option<()> {
    let mut values = [0.0; VALUES];
    let range = read_range(words)?;
    let values = words.list(&mut values)?;
    let call = read_call(call, words)?;
    words.end()?;
    let over = Over {
        axes,
        range,
        values,
    };
    put_call(call, over, out);
    Some(())
}

// A call by its word, and by what stands behind the values: of a step its own words, of any other nothing.
fn read_call(call: &[u8], words: &mut Words) -> Option<RangeCall> {
    match call {
        b"reduce" => Some(RangeCall::Reduce),
        b"product" => Some(RangeCall::Product),
        b"ordered" => Some(RangeCall::Ordered),
        b"figure" => Some(RangeCall::Figure),
        b"first" => Some(RangeCall::First),
        b"step" => Some(RangeCall::Step(read_bookmark(words)?, words.read()?)),
        _ => None,
    }
}

// What the call gives for them.
fn put_call(call: RangeCall, over: Over, out: &mut Answer) {
    match call {
        RangeCall::Reduce => put_result(over.ask(reduction::full::reduce), out),
        RangeCall::Product => {
            put_result(finishing::finish(over.ask(reduction::full::reduce)), out)
        }
        RangeCall::Ordered => put_result(over.ask(ordered::ordered_product), out),
        RangeCall::Figure => put_result(over.ask(figures::figure), out),
        RangeCall::First => put_result(over.ask(search::first_bad_rate), out),
        RangeCall::Step(mark, n) => {
            let step = |sizes: &[u64], strides: &[i64], base: i64, start: u64, end: u64, values: &[f64]| {
                bookmarks::reduce_step(sizes, strides, base, start, end, values, mark, n)
            };
            put_result(over.ask(step), out)
        }
    }
}
