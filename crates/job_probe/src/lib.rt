// The reader and the writer of jobs over typed slices, for the benchmark and the comparison with the oracle's own.
#![tactic(auto)]

ghost use Rattle.std.specs.Prelude.{◌≡◌, length};
ghost use Rattle.jobs.specs.Reading.{read_of};
ghost use Rattle.jobs.specs.Writing.{write_of, write_buffer};
ghost use Rattle.job_probe.specs.Answers.{given, count_given};

use layout::axis::PLACES;

// 0 with the job in the places, or the number of a refusal with nothing written.
#[unsafe(no_mangle)]
pub extern "C" fn probe_read(
    bytes: &[u8],
    count: &mut usize,
    sizes: &mut [u64; PLACES],
    strides: &mut [i64; PLACES],
    base: &mut i64,
    start: &mut u64,
    end: &mut u64,
) -> u32
    ensures value { result ≡ (read_of bytes.now).code }
    ensures count_after { count.new ≡ given (read_of bytes.now).code (read_of bytes.now).count count.old }
    ensures sizes_after { sizes.new ≡ given (read_of bytes.now).code (read_of bytes.now).sizes sizes.old }
    ensures strides_after { strides.new ≡ given (read_of bytes.now).code (read_of bytes.now).strides strides.old }
    ensures base_after { base.new ≡ given (read_of bytes.now).code (read_of bytes.now).base base.old }
    ensures start_after { start.new ≡ given (read_of bytes.now).code (read_of bytes.now).start start.old }
    ensures end_after { end.new ≡ given (read_of bytes.now).code (read_of bytes.now).end end.old }
{
    match jobs::reading::read_job(bytes) {
        Ok(job) => {
            let job_sizes = job.sizes;
            let job_strides = job.strides;
            *count = job.count;
            *sizes = job_sizes;
            *strides = job_strides;
            *base = job.base;
            *start = job.start;
            *end = job.end;
            0
        }
        Err(refusal) => u32::from(refusal),
    }
}

// 0 with the job in the first bytes of `out` and their number in count, or the number of a refusal with nothing written.
#[unsafe(no_mangle)]
pub extern "C" fn probe_write(
    sizes: &[u64],
    strides: &[i64],
    base: i64,
    start: u64,
    end: u64,
    out: &mut [u8],
    count: &mut usize,
) -> u32
    ensures value { result
        ≡ (write_of (record { sizes = sizes.now; strides = strides.now; base = base; start = start; end = end }) (length out.old)
        ).code }
    ensures out_after { out.new
        ≡ write_buffer (record { sizes = sizes.now; strides = strides.now; base = base; start = start; end = end }) out.old }
    ensures count_after { count.new ≡ count_given count.old
        (write_of (record { sizes = sizes.now; strides = strides.now; base = base; start = start; end = end }) (length out.old)) }
{
    match jobs::writing::write_job(sizes, strides, base, start, end, &mut *out) {
        Ok(written) => {
            *count = written;
            0
        }
        Err(refusal) => u32::from(refusal),
    }
}
