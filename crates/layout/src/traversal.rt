// FullTraversal: rules L1 and L5, and the whole compile.
ghost use Rattle.std.specs.Prelude.{◌≡◌, [], ◌∷◌, ◌≤◌, take, OnErr};
ghost use Rattle.layout.specs.Axes.{PLACES, axis_of};
ghost use Rattle.layout.specs.Compile.{total_of, empty_layout, layout_of, compile_of, told};
ghost use Rattle.layout.specs.InnerAnswers.{placed};

use crate::axis::{PLACES, ReduceOuterAxis};
use refusals::Refusal;

// The largest total that is accepted.
pub const MOST_ELEMENTS: u64 = 0x100_0000_0000;

#[derive(Clone, Copy)]
pub struct FullTraversal {
    pub total: u64,
    pub run_len: u64,
    pub run_stride: i64,
    pub axis_count: usize,
    pub run_axes: [ReduceOuterAxis; PLACES],
}

// Rule L1.
pub fn checked_total(sizes: &[u64]) -> Option<u64>
    ensures { result ≡ total_of sizes.now }
{
    let mut total = 1;
    for size in sizes {
        total = integers::checked_mul_u64(total, *size)?;
    }
    Some(total)
}

// The layout of total 0.
pub fn empty() -> FullTraversal
    ensures { result ≡ empty_layout PLACES }
{
    let z = crate::axis::no_axis();
    FullTraversal {
        total: 0,
        run_len: 0,
        run_stride: 1,
        axis_count: 0,
        run_axes: [z; PLACES],
    }
}

// Rule R0: what is told of a compile, the code 0 with the layout, or the number of a refusal with the layout of total 0.
pub fn told(compiled: Result<FullTraversal, Refusal>) -> (u32, FullTraversal)
    ensures { told compiled ≡ record { code = result.0; traversal = result.1 } }
{
    match compiled {
        Ok(layout) => (0, layout),
        Err(refusal) => (u32::from(refusal), empty()),
    }
}

// Rule L5: the first axis is the run, the others are outer.
fn with_run(l: &mut FullTraversal, total: u64, axes: &[ReduceOuterAxis; PLACES], count: usize)
    requires { count ≤ PLACES }
    ensures { l.new ≡ layout_of PLACES total (take count axes.now) }
{
    let z = crate::axis::no_axis();
    l.total = total;
    l.run_axes = [z; PLACES];
    if count == 0 {
        l.run_len = 1;
        l.run_stride = 1;
        l.axis_count = 0;
        return;
    }
    l.run_axes[..count - 1].copy_from_slice(&axes[1..count]);
    l.run_len = axes[0].extent;
    l.run_stride = axes[0].source_step;
    l.axis_count = count - 1;
}

// The layout that is one run.
fn one_run(l: &mut FullTraversal, len: u64, stride: i64)
    ensures { l.new ≡ layout_of PLACES len (axis_of len stride ∷ []) }
{
    let z = crate::axis::no_axis();
    l.total = len;
    l.run_len = len;
    l.run_stride = stride;
    l.axis_count = 0;
    l.run_axes = [z; PLACES];
}

// The layout with one outer axis, whose place is known.
fn one_outer(l: &mut FullTraversal, total: u64, run: ReduceOuterAxis, outer: ReduceOuterAxis)
    ensures { l.new ≡ layout_of PLACES total (run ∷ outer ∷ []) }
{
    let z = crate::axis::no_axis();
    l.total = total;
    l.run_len = run.extent;
    l.run_stride = run.source_step;
    l.axis_count = 1;
    l.run_axes = [z; PLACES];
    l.run_axes[0] = outer;
}

// One axis needs no order and no fusing.
fn compile_line(l: &mut FullTraversal, size: u64, stride: i64) -> Result<(), Refusal>
    ensures value { placed result l.new ≡ compile_of PLACES (size ∷ []) (stride ∷ []) }
    ensures kept { OnErr result (l.new ≡ l.old) }
{
    if size == 0 {
        *l = empty();
        return Ok(());
    }
    if size == 1 {
        one_run(l, 1, 1);
        return Ok(());
    }
    crate::axis::checked_reduce_reset(size, stride).ok_or(Refusal::OffsetOverflow)?;
    if MOST_ELEMENTS < size {
        return Err(Refusal::TooManyElements);
    }
    one_run(l, size, stride);
    Ok(())
}

impl FullTraversal {
    pub fn compile(sizes: &[u64], strides: &[i64]) -> Result<FullTraversal, Refusal>
        ensures { told result ≡ compile_of PLACES sizes.now strides.now }
    {
        let mut layout = empty();
        layout.compile_in_place(sizes, strides)?;
        Ok(layout)
    }

    // The same, written where it is wanted: a record of this size is copied, with its table, whenever it is put into a `Result` or taken out of one. Refused, it stays
    // as it was.
    pub fn compile_in_place(&mut self, sizes: &[u64], strides: &[i64]) -> Result<(), Refusal>
        ensures value { placed result self.new ≡ compile_of PLACES sizes.now strides.now }
        ensures kept { OnErr result (self.new ≡ self.old) }
    {
        if sizes.len() != strides.len() {
            return Err(Refusal::StrideLengthMismatch);
        }
        if sizes.len() == 1 {
            return compile_line(&mut *self, sizes[0], strides[0]);
        }
        if PLACES < sizes.len() {
            return Err(Refusal::TooManyAxes);
        }
        let total = checked_total(sizes).ok_or(Refusal::OffsetOverflow)?;
        if total == 0 {
            *self = empty();
            return Ok(());
        }

        // Any axis would do. With one of zeros the whole table is cleared by a call, which takes as long as two axes to compile.
        let unset = ReduceOuterAxis {
            extent: 1,
            source_step: 0,
            source_reset: 0,
        };
        let mut axes = [unset; PLACES];
        let kept = crate::order::ordered_axes(sizes, strides, &mut axes).ok_or(
            Refusal::OffsetOverflow,
        )?;
        let count = crate::fuse::compress_reduce_outer_axes(&mut axes, kept).ok_or(
            Refusal::OffsetOverflow,
        )?;
        if MOST_ELEMENTS < total {
            return Err(Refusal::TooManyElements);
        }
        if count == 2 {
            one_outer(&mut *self, total, axes[0], axes[1]);
            return Ok(());
        }
        with_run(&mut *self, total, &axes, count);
        Ok(())
    }
}
