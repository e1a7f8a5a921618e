// The line of many ranges: behind the axes a base, two lists, the values, and three buffers, which the answer prints.
use crate::answer::Answer;
use crate::buffers::{ITEMS, put_buffers};
use crate::range::Axes;
use text::word::Words;

pub fn answer_ranges(axes: Axes, words: &mut Words, out: &mut Answer) -> Option<()> {
    let base = words.read()?;
    // No table is cleared before the words in front of it are read.
    let mut starts = [0u64; ITEMS];
    let mut ends = [0u64; ITEMS];
    let mut values = [0.0; ITEMS];
    let starts = words.list(&mut starts)?;
    let ends = words.list(&mut ends)?;
    let values = words.list(&mut values)?;
    let mut ms = [0.0; ITEMS];
    let mut es = [0i64; ITEMS];
    let mut bads = [0u8; ITEMS];
    let ms = words.list(&mut ms)?;
    let es = words.list(&mut es)?;
    let bads = words.list(&mut bads)?;
    words.end()?;
    let done = ranges::reduce_ranges(
        axes.sizes,
        axes.strides,
        base,
        starts,
        ends,
        values,
        ms,
        es,
        bads,
    );
    out.start(b"ranges");
    put_buffers(done, ms, es, bads, out);
    Some(())
}
