// The offset list, and the refusals of a range.
ghost use Rattle.std.specs.Prelude.{◌≡◌, ◌∷◌, ◌++◌, ◌-◌, ◌≤◌, ◌<◌, length, length as places, drop};
ghost use Rattle.integers.specs.InnerPlaces.{PlacesFit};
ghost use Rattle.layout.specs.Axes.{PLACES};
ghost use Rattle.layout.specs.Compile.{compile_of};
ghost use Rattle.refusals.specs.Codes.{code_of};
ghost use Rattle.offsets.specs.InnerCursors.{Bounded, Traversal};
ghost use Rattle.offsets.specs.Pieces.{run_of, outer_of};
ghost use Rattle.offsets.specs.InnerLists.{steps};
ghost use Rattle.offsets.specs.Lists.{range_code, offsets_from, list_code, list_buffer};

use layout::traversal::FullTraversal;
use refusals::Refusal;

// Refusals 5 to 7 of a range over a layout that was compiled. Of the layout only its total is handed in: the whole would be copied, with its table.
pub fn check_range(
    total: u64,
    sizes: &[u64],
    strides: &[i64],
    base: i64,
    start: u64,
    end: u64,
    length: u64,
) -> Result<(), Refusal>
    requires { ((compile_of PLACES sizes.now strides.now).code ≡ 0) × (total ≡ (compile_of PLACES sizes.now strides.now).traversal.total) }
    ensures { code_of result ≡ range_code sizes.now strides.now base start end length }
{
    if end <= start {
        return Err(Refusal::EmptyRange);
    }
    if total < end {
        return Err(Refusal::RangePastEnd);
    }
    if crate::bounds::inside(sizes, strides, base, length) {
        return Ok(());
    }
    Err(Refusal::ElementOutside)
}

// Fills a run with offsets from `first` on, a stride apart. The stride is not added after the last: that sum may not fit. What is left is counted, down to 0,
// so that there is one test a turn.
fn write_run(run: &mut [i64], first: i64, stride: i64)
    requires { PlacesFit first stride (length run.old) }
    ensures { run.new ≡ steps first stride (length run.old) }
{
    let mut offset = first;
    let mut at = 0;
    for left in (0..run.len()).rev() {
        run[at] = offset;
        at += 1;
        offset = integers::next_place(offset, stride, left);
    }
}

fn write_offsets(l: FullTraversal, base: i64, start: u64, end: u64, out: &mut [i64])
    requires { Traversal l × Bounded (run_of l ∷ outer_of l) base × (start < end) × (end ≤ l.total) × (end - start ≤ length out.old) }
    ensures { out.new ≡ offsets_from (run_of l ∷ outer_of l) base start (end - start) ++ drop (end - start) out.old }
{
    let stride = l.run_stride;
    let mut c = crate::pieces::begin(l, base, start);
    while c.at < end {
        let p = crate::pieces::next_piece(l, end, c);
        let at = (c.at - start) as usize;
        let len = p.len as usize;
        write_run(&mut out[at..at + len], p.first, stride);
        c = p.next;
    }
}

pub fn offset_list(
    sizes: &[u64],
    strides: &[i64],
    base: i64,
    start: u64,
    end: u64,
    length: u64,
    out: &mut [i64],
) -> Result<(), Refusal>
    ensures result_value { code_of result ≡ list_code sizes.now strides.now base start end length (places out.old) }
    ensures out_after { out.new ≡ list_buffer sizes.now strides.now base start end length out.old }
{
    let mut l = layout::traversal::empty();
    l.compile_in_place(sizes, strides)?;
    check_range(l.total, sizes, strides, base, start, end, length)?;
    if (out.len() as u64) < end - start {
        return Err(Refusal::BufferTooShort);
    }
    write_offsets(l, base, start, end, out);
    Ok(())
}
