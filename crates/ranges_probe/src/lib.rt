// All workers' ranges in one call over typed slices, for the benchmark, its host with threads and the comparison with the Rust. A library of its own, as for
// the search.
#![tactic(auto)]

ghost use Rattle.std.specs.Prelude.{◌≡◌};
ghost use Rattle.ranges.specs.Many.{many_code, ms_after, es_after, bads_after};

// 0 with each range's m, e and mark, as the byte 0 or 1, in list order in the first places of ms, es and bads; or the number of a refusal with nothing written.
#[unsafe(no_mangle)]
pub extern "C" fn probe_ranges(
    sizes: &[u64],
    strides: &[i64],
    base: i64,
    starts: &[u64],
    ends: &[u64],
    values: &[f64],
    ms: &mut [f64],
    es: &mut [i64],
    bads: &mut [u8],
) -> u32
    ensures value { result ≡ many_code sizes.now strides.now base starts.now ends.now values.now
        ms.old es.old bads.old }
    ensures ms_after { ms.new ≡ ms_after sizes.now strides.now base starts.now ends.now
        values.now ms.old es.old bads.old }
    ensures es_after { es.new ≡ es_after sizes.now strides.now base starts.now ends.now
        values.now ms.old es.old bads.old }
    ensures bads_after { bads.new ≡ bads_after sizes.now strides.now base starts.now ends.now
        values.now ms.old es.old bads.old }
{
    let answer = ranges::reduce_ranges(
        sizes, strides, base, starts, ends, values, &mut *ms, &mut *es, &mut *bads,
    );
    match answer {
        Ok(()) => 0,
        Err(refusal) => u32::from(refusal),
    }
}
