// The answer to one line: 256 KiB are more than the longest answer has, three buffers of 4,096 places.
ghost use Rattle.std.specs.Prelude.{◌≤◌, length};

use crate::range::{Axes, read_range};
use layout::axis::{PLACES, ReduceOuterAxis};
use layout::traversal::FullTraversal;
use refusals::Refusal;
use text::print::Line;
use text::word::Words;

const ANSWER: usize = 262144;

pub type Answer = Line<ANSWER>;

// How many sizes, strides and places of a buffer a line may have.
const AXES: usize = 32;

const BUFFER_PLACES: usize = 4096;

// The number of a refusal, or 0.
pub fn code_of(done: Result<(), Refusal>) -> u64 {
    match done {
        Ok(()) => 0,
        Err(refusal) => u64::from(u32::from(refusal)),
    }
}

pub fn malformed(out: &mut Answer) {
    out.start(b"malformed\n");
}

// The answer to a line, with its newline.
pub fn answer(line: &[u8], out: &mut Answer) {
    if answer_call(&mut Words::new(line), out).is_none() {
        malformed(out);
    }
}

// The answer, unless the line is malformed.
fn answer_call(words: &mut Words, out: &mut Answer) -> Option<()> {
    match words.next_word()? {
        b"join" => crate::product::answer_join(words, out),
        b"finish" => crate::product::answer_finish(words, out),
        b"read" => crate::job::answer_read(words, out),
        b"windows" => crate::moving::answer_windows(words, out),
        call => answer_axes(call, words, out),
    }
}

// Every other call has its sizes and strides first.
fn answer_axes(call: &[u8], words: &mut Words, out: &mut Answer) -> Option<()> {
    let mut sizes = [0u64; AXES];
    let mut strides = [0i64; AXES];
    let sizes = words.list(&mut sizes)?;
    let strides = words.list(&mut strides)?;
    let axes = Axes { sizes, strides };
    match call {
        b"compile" => answer_compile(axes, words, out),
        b"list" => answer_list(axes, words, out),
        b"write" => crate::job::answer_write(axes, words, out),
        b"ranges" => crate::many::answer_ranges(axes, words, out),
        _ => crate::product::answer_over_range(call, axes, words, out),
    }
}

fn answer_compile(axes: Axes, words: &mut Words, out: &mut Answer) -> Option<()> {
    words.end()?;
    let compiled = FullTraversal::compile(axes.sizes, axes.strides);
    let (code, layout) = layout::traversal::told(compiled);
    put_compiled(code, &layout, out);
    Some(())
}

fn put_compiled(code: u32, layout: &FullTraversal, out: &mut Answer) {
    out.start(b"compile");
    out.put_word(u64::from(code));
    out.put_word(layout.total);
    out.put_word(layout.run_len);
    out.put_word(layout.run_stride);
    out.put_word(layout.axis_count as u64);
    put_axes(&layout.run_axes, out);
    out.put(b"\n");
}

fn put_axes(axes: &[ReduceOuterAxis; PLACES], out: &mut Answer)
    requires { out.old.len ≤ 200 }
    ensures { out.new.len ≤ 2000 }
{
    for axis in axes {
        out.put_word(axis.extent);
        out.put_word(axis.source_step);
        out.put_word(axis.source_reset);
    }
}

fn answer_list(axes: Axes, words: &mut Words, out: &mut Answer) -> Option<()> {
    let range = read_range(words)?;
    let len = words.read()?;
    let mut places = [0i64; BUFFER_PLACES];
    let places = words.list(&mut places)?;
    words.end()?;
    let done = offsets::list::offset_list(
        axes.sizes,
        axes.strides,
        range.base,
        range.start,
        range.end,
        len,
        places,
    );
    put_list(done, places, out);
    Some(())
}

fn put_list(done: Result<(), Refusal>, places: &[i64], out: &mut Answer)
    requires { length places.now ≤ 4096 }
{
    out.start(b"list");
    out.put_word(code_of(done));
    out.put_list(places);
    out.put(b"\n");
}
