// What a call over a range reads: the sizes and strides of its axes, and behind them the base, the first element and the one behind the last.
use text::word::Words;

#[derive(Clone, Copy)]
pub struct Axes<'a> {
    pub sizes: &'a [u64],
    pub strides: &'a [i64],
}

#[derive(Clone, Copy)]
pub struct Range {
    pub base: i64,
    pub start: u64,
    pub end: u64,
}

pub fn read_range(words: &mut Words) -> Option<Range> {
    let base = words.read()?;
    let start = words.read()?;
    let end = words.read()?;
    Some(Range { base, start, end })
}
