// Each w rates in a row in one call over typed slices, for the benchmark and the comparison with the Rust. A library of its own, as for the search.
#![tactic(auto)]

ghost use Rattle.std.specs.Prelude.{◌≡◌};
ghost use Rattle.windows.specs.Windows.{windows_answer, window_ms, window_es, window_bads};

// 0 with each window's m, e and mark, as the byte 0 or 1, in order in the first places of ms, es and bads; or the number of a refusal with nothing written.
#[unsafe(no_mangle)]
pub extern "C" fn probe_windows(
    values: &[f64],
    w: u64,
    ms: &mut [f64],
    es: &mut [i64],
    bads: &mut [u8],
) -> u32
    ensures value { result ≡ windows_answer values.now w ms.old es.old bads.old }
    ensures ms_after { ms.new ≡ window_ms values.now w ms.old es.old bads.old }
    ensures es_after { es.new ≡ window_es values.now w ms.old es.old bads.old }
    ensures bads_after { bads.new ≡ window_bads values.now w ms.old es.old bads.old }
{
    match windows::reduce_windows(values, w, &mut *ms, &mut *es, &mut *bads) {
        Ok(()) => 0,
        Err(refusal) => u32::from(refusal),
    }
}
