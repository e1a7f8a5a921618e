// The full reduction and the offset list over typed slices, for the benchmark and the comparison with the Rust.
#![tactic(auto)]

ghost use Rattle.std.specs.Prelude.{◌≡◌, length as places};
ghost use Rattle.offsets.specs.Lists.{list_code, list_buffer};
ghost use Rattle.reduction.specs.Ranges.{reduce_of};
ghost use Rattle.handed.specs.Answers.{code_given, m_given, e_given, bad_given};

// 0 with the accumulator in m, e and bad, or the number of a refusal with nothing written.
#[unsafe(no_mangle)]
pub extern "C" fn probe_reduce(
    sizes: &[u64],
    strides: &[i64],
    base: i64,
    start: u64,
    end: u64,
    values: &[f64],
    m: &mut f64,
    e: &mut i64,
    bad: &mut bool,
) -> u32
    ensures value { result ≡ code_given (reduce_of sizes.now strides.now base start end values.now) }
    ensures m_after { m.new ≡ m_given m.old (reduce_of sizes.now strides.now base start end values.now) }
    ensures e_after { e.new ≡ e_given e.old (reduce_of sizes.now strides.now base start end values.now) }
    ensures bad_after { bad.new
        ≡ bad_given bad.old (reduce_of sizes.now strides.now base start end values.now) }
{
    match reduction::full::reduce(sizes, strides, base, start, end, values) {
        Ok(a) => {
            let exponent = a.e;
            *m = a.m;
            *e = exponent;
            *bad = a.bad;
            0
        }
        Err(refusal) => u32::from(refusal),
    }
}

// The code of the list call; `out` is filled only if it is 0.
#[unsafe(no_mangle)]
pub extern "C" fn probe_list(
    sizes: &[u64],
    strides: &[i64],
    base: i64,
    start: u64,
    end: u64,
    length: u64,
    out: &mut [i64],
) -> u32
    ensures result_value { result ≡ list_code sizes.now strides.now base start end length (places out.old) }
    ensures out_after { out.new ≡ list_buffer sizes.now strides.now base start end length out.old }
{
    match offsets::list::offset_list(sizes, strides, base, start, end, length, &mut *out) {
        Ok(()) => 0,
        Err(r) => u32::from(r),
    }
}
