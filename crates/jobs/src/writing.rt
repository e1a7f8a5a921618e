// The writer of jobs.
ghost use Rattle.std.specs.Prelude.{◌≡◌, ◌+◌, ◌≤◌, length};
ghost use Rattle.std.proofs.lemmas.List.Edits.{sets};
ghost use Rattle.layout.specs.Axes.{PLACES};
ghost use Rattle.jobs.specs.Sending.{axes_bytes, size_payloads, stride_payloads, job_bytes};
ghost use Rattle.jobs.specs.InnerParts.{job_of};
ghost use Rattle.jobs.specs.Writing.{write_told, write_of, write_buffer};

use crate::words::{Kind, WORD_BYTES};
use layout::axis::PLACES;
use refusals::Refusal;

// A job that is to be written: below `write_job`, whose parameters C hosts name, they go together.
#[derive(Clone, Copy)]
struct ToWrite<'a> {
    sizes: &'a [u64],
    strides: &'a [i64],
    base: i64,
    start: u64,
    end: u64,
}

// How many bytes the axes take.
fn axes_length(sizes: &[u64], strides: &[i64]) -> usize
    requires { (length sizes.now ≡ length strides.now) × (length sizes.now ≤ PLACES) }
    ensures value { result ≡ length (axes_bytes (size_payloads sizes.now) (stride_payloads strides.now)) }
    ensures upper_bound { result ≤ 384 }
{
    let mut total: usize = 0;
    for (size, stride) in sizes.iter().zip(strides) {
        let size = crate::numbers::bytes_of(*size);
        let stride = crate::numbers::bytes_of(crate::numbers::sent(*stride));
        total += size + stride;
    }
    total
}

// How many bytes the job takes.
fn job_length(job: &ToWrite) -> usize
    requires { (length job.now.sizes.now ≡ length job.now.strides.now) × (length job.now.sizes.now ≤ PLACES) }
    ensures { result ≡ length (job_bytes (job_of job.now)) }
{
    let axes = axes_length(job.sizes, job.strides);
    let base = crate::numbers::bytes_of(crate::numbers::sent(job.base));
    let start = crate::numbers::bytes_of(job.start);
    let end = crate::numbers::bytes_of(job.end);
    axes + base + start + end + WORD_BYTES
}

// Puts the axes at the front, and gives the place behind them.
fn put_axes(out: &mut [u8], sizes: &[u64], strides: &[i64]) -> usize
    requires { (length sizes.now ≡ length strides.now) × (length sizes.now ≤ PLACES)
        × (length (axes_bytes (size_payloads sizes.now) (stride_payloads strides.now)) ≤ length out.old) }
    ensures value { result ≡ length (axes_bytes (size_payloads sizes.now) (stride_payloads strides.now)) }
    ensures out_after { out.new ≡ sets out.old 0 (axes_bytes (size_payloads sizes.now) (stride_payloads strides.now)) }
{
    let mut at: usize = 0;
    for (size, stride) in sizes.iter().zip(strides) {
        let stride = crate::numbers::sent(*stride);
        let next = crate::numbers::put_number(&mut *out, at, Kind::Size, *size);
        at = crate::numbers::put_number(&mut *out, next, Kind::Stride, stride);
    }
    at
}

// Puts the job at the front.
fn put_job(out: &mut [u8], job: &ToWrite)
    requires { (length job.now.sizes.now ≡ length job.now.strides.now) × (length job.now.sizes.now ≤ PLACES)
        × (length (job_bytes (job_of job.now)) ≤ length out.old) }
    ensures { out.new ≡ sets out.old 0 (job_bytes (job_of job.now)) }
{
    let at = put_axes(&mut *out, job.sizes, job.strides);
    let at = crate::numbers::put_number(&mut *out, at, Kind::Base, crate::numbers::sent(job.base));
    let at = crate::numbers::put_number(&mut *out, at, Kind::Start, job.start);
    let at = crate::numbers::put_number(&mut *out, at, Kind::End, job.end);
    crate::words::put_word(&mut *out, at, Kind::Finish, 0);
}

// Writes a job into the first bytes of a buffer, if it fits; otherwise nothing is written.
pub fn write_job(
    sizes: &[u64],
    strides: &[i64],
    base: i64,
    start: u64,
    end: u64,
    out: &mut [u8],
) -> Result<usize, Refusal>
    ensures value { write_told result
        ≡ write_of (record { sizes = sizes.now; strides = strides.now; base = base; start = start; end = end }) (length out.old) }
    ensures out_after { out.new
        ≡ write_buffer (record { sizes = sizes.now; strides = strides.now; base = base; start = start; end = end }) out.old }
{
    if sizes.len() != strides.len() {
        return Err(Refusal::StrideLengthMismatch);
    }
    if PLACES < sizes.len() {
        return Err(Refusal::TooManyAxes);
    }
    let job = ToWrite {
        sizes,
        strides,
        base,
        start,
        end,
    };
    let count = job_length(&job);
    if out.len() < count {
        return Err(Refusal::JobBufferTooShort);
    }
    put_job(&mut *out, &job);
    Ok(count)
}

// Rule R0: what is told of a writing, the code 0 with the number of bytes, or the number of a refusal with 0.
pub fn written_told(written: Result<usize, Refusal>) -> (u32, usize)
    ensures { write_told written ≡ record { code = result.0; count = result.1 } }
{
    match written {
        Ok(count) => (0, count),
        Err(refusal) => (u32::from(refusal), 0),
    }
}
