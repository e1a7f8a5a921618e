// All workers' ranges in one call: every range is checked before anything is written, and the layout is compiled and tested once.
#![tactic(auto)]

ghost use Rattle.std.specs.Prelude.{◌≡◌, true, not, length};
ghost use Rattle.refusals.specs.Refusals.{first_of};
ghost use Rattle.refusals.specs.Codes.{code_of};
ghost use Rattle.layout.specs.Axes.{PLACES};
ghost use Rattle.layout.specs.Compile.{compile_of};
ghost use Rattle.offsets.specs.Lists.{end_refusals, place_refusals};
ghost use Rattle.ranges.specs.Many.{ranges_of, each_refusals, unfit, code_by, many_code, ms_after, es_after, bads_after};

use refusals::Refusal;

// Whether the two lists are of one length, and no buffer is shorter.
fn lists_fit(starts: usize, ends: usize, ms: usize, es: usize, bads: usize) -> bool
    ensures { not result ≡ unfit starts ends ms es bads }
{
    starts == ends && starts <= ms && starts <= es && starts <= bads
}

// Refusals 5 and 6 of a range of a layout of so many elements.
fn check_end(total: u64, start: u64, end: u64) -> Result<(), Refusal>
    ensures { code_of result ≡ first_of (end_refusals total start end) }
{
    if end <= start {
        return Err(Refusal::EmptyRange);
    }
    if total < end {
        return Err(Refusal::RangePastEnd);
    }
    Ok(())
}

// Refusals 5 and 6 of the first faulty range.
fn check_ends(total: u64, starts: &[u64], ends: &[u64]) -> Result<(), Refusal>
    requires { length starts.now ≡ length ends.now }
    ensures { code_of result ≡ first_of (each_refusals total (ranges_of starts.now ends.now)) }
{
    for (start, end) in starts.iter().zip(ends) {
        check_end(total, *start, *end)?;
    }
    Ok(())
}

// Refusal 7 of a layout that compiling let through, with its total. Without elements none lies outside.
fn check_places(
    total: u64,
    sizes: &[u64],
    strides: &[i64],
    base: i64,
    length: u64,
) -> Result<(), Refusal>
    requires { ((compile_of PLACES sizes.now strides.now).code ≡ 0) × (total ≡ (compile_of PLACES sizes.now strides.now).traversal.total) }
    ensures { code_of result ≡ first_of (place_refusals sizes.now strides.now base length) }
{
    if total == 0 || offsets::bounds::inside(sizes, strides, base, length) {
        return Ok(());
    }
    Err(Refusal::ElementOutside)
}

// Refusals 16, 5 and 6 of each range, and 7, in this order, of a layout that compiling let through, with its total. The layout itself is not handed in,
// since that would copy its table.
fn check_ranges(
    total: u64,
    sizes: &[u64],
    strides: &[i64],
    base: i64,
    starts: &[u64],
    ends: &[u64],
    len: u64,
    fit: bool,
) -> Result<(), Refusal>
    requires { ((compile_of PLACES sizes.now strides.now).code ≡ 0) × (total ≡ (compile_of PLACES sizes.now strides.now).traversal.total)
        × (fit ≡ true → length starts.now ≡ length ends.now) }
    ensures { code_of result ≡ code_by sizes.now strides.now base starts.now ends.now len (not fit) }
{
    if !fit {
        return Err(Refusal::AnswerBufferTooShort);
    }
    check_ends(total, starts, ends)?;
    check_places(total, sizes, strides, base, len)
}

// The product of each range start to end - 1 of a layout over the lent values, in list order in the first places of three buffers; or one of refusals
// 1 to 4, 16, then 5 and 6 range by range, then 7, with nothing written.
pub fn reduce_ranges(
    sizes: &[u64],
    strides: &[i64],
    base: i64,
    starts: &[u64],
    ends: &[u64],
    values: &[f64],
    ms: &mut [f64],
    es: &mut [i64],
    bads: &mut [u8],
) -> Result<(), Refusal>
    ensures value { code_of result ≡ many_code sizes.now strides.now base starts.now ends.now values.now
        ms.old es.old bads.old }
    ensures ms_after { ms.new ≡ ms_after sizes.now strides.now base starts.now ends.now
        values.now ms.old es.old bads.old }
    ensures es_after { es.new ≡ es_after sizes.now strides.now base starts.now ends.now
        values.now ms.old es.old bads.old }
    ensures bads_after { bads.new ≡ bads_after sizes.now strides.now base starts.now ends.now
        values.now ms.old es.old bads.old }
{
    let mut l = layout::traversal::empty();
    l.compile_in_place(sizes, strides)?;
    let fit = lists_fit(starts.len(), ends.len(), ms.len(), es.len(), bads.len());
    check_ranges(
        l.total,
        sizes,
        strides,
        base,
        starts,
        ends,
        values.len() as u64,
        fit,
    )?;
    // One index for two lists and three buffers, which are the caller's, as C has them.
    for i in 0..ends.len() {
        let acc = reduction::full::reduce_full_range(l, base, starts[i], ends[i], values);
        ms[i] = acc.m;
        es[i] = acc.e;
        bads[i] = u8::from(acc.bad);
    }
    Ok(())
}
