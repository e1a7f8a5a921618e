// The search for the first bad rate over typed slices, for the benchmark and the comparison with the Rust. A library of its own: in one with `probe_reduce`
// the loops over lanes have two callers and are compiled into neither.
#![tactic(auto)]

ghost use Rattle.std.specs.Prelude.{◌≡◌};
ghost use Rattle.search.specs.Searching.{search_of};
ghost use Rattle.search_probe.specs.Answers.{search_code, found_given, element_given, offset_given};

// 0 with whether a rate is bad in found, and the first in element and offset if so; or the number of a refusal with nothing written.
#[unsafe(no_mangle)]
pub extern "C" fn probe_first(
    sizes: &[u64],
    strides: &[i64],
    base: i64,
    start: u64,
    end: u64,
    values: &[f64],
    found: &mut bool,
    element: &mut u64,
    offset: &mut i64,
) -> u32
    ensures value { result ≡ search_code (search_of sizes.now strides.now base start end values.now) }
    ensures found_after { found.new
        ≡ found_given found.old (search_of sizes.now strides.now base start end values.now) }
    ensures element_after { element.new
        ≡ element_given element.old (search_of sizes.now strides.now base start end values.now) }
    ensures offset_after { offset.new
        ≡ offset_given offset.old (search_of sizes.now strides.now base start end values.now) }
{
    match search::first_bad_rate(sizes, strides, base, start, end, values) {
        Ok(Some(b)) => {
            *found = true;
            *element = b.element;
            *offset = b.offset;
            0
        }
        Ok(None) => {
            *found = false;
            0
        }
        Err(refusal) => u32::from(refusal),
    }
}
