// The reader of jobs.
ghost use Rattle.std.specs.Prelude.{◌≡◌, List, ℕ, ◌≤◌, length, drop, ℤ};
ghost use Rattle.jobs.specs.Reading.{range_from, read_told, read_of};
ghost use Rattle.jobs.specs.InnerParts.{range_told};

use crate::words::{Kind, WORD_BYTES};
use layout::axis::PLACES;
use refusals::Refusal;

// A job that was read. Places past the axes are 0.
#[derive(Clone, Copy)]
pub struct Job {
    pub count: usize,
    pub sizes: [u64; PLACES],
    pub strides: [i64; PLACES],
    pub base: i64,
    pub start: u64,
    pub end: u64,
}

// What stands behind the axes.
#[derive(Clone, Copy)]
pub struct Range {
    pub base: i64,
    pub start: u64,
    pub end: u64,
}

// Base, start, end and the last word.
fn read_range(bytes: &[u8], at: usize) -> Result<Range, Refusal>
    requires { at ≤ length bytes.now }
    ensures { (ns : List ℕ) (ss : List ℤ) → range_told ns ss result ≡ range_from ns ss (drop at bytes.now) }
{
    let base = crate::numbers::read_number(bytes, at, Kind::Base)?;
    let start = crate::numbers::read_number(bytes, base.next, Kind::Start)?;
    let end = crate::numbers::read_number(bytes, start.next, Kind::End)?;
    let last = end.next;
    let Some(payload) = crate::words::payload_at(bytes, last, Kind::Finish) else {
        return Err(Refusal::BadWord);
    };
    if payload != 0 || bytes.len() - last != WORD_BYTES {
        return Err(Refusal::BadWord);
    }
    Ok(Range {
        base: crate::numbers::signed(base.value),
        start: start.value,
        end: end.value,
    })
}

// Reads a job: the axes into two tables, then the range.
pub fn read_job(bytes: &[u8]) -> Result<Job, Refusal>
    ensures { read_told result ≡ read_of bytes.now }
{
    let mut sizes: [u64; PLACES] = [0; PLACES];
    let mut strides: [i64; PLACES] = [0; PLACES];
    let mut count: usize = 0;
    let mut at: usize = 0;
    // `while`: what is read says when the axes end.
    while crate::words::payload_at(bytes, at, Kind::Size).is_some() {
        if count == PLACES {
            return Err(Refusal::TooManyAxes);
        }
        let size = crate::numbers::read_number(bytes, at, Kind::Size)?;
        let stride = crate::numbers::read_number(bytes, size.next, Kind::Stride)?;
        sizes[count] = size.value;
        strides[count] = crate::numbers::signed(stride.value);
        count += 1;
        at = stride.next;
    }
    let range = read_range(bytes, at)?;
    Ok(Job {
        count,
        sizes,
        strides,
        base: range.base,
        start: range.start,
        end: range.end,
    })
}

// Rule R0: what is told of a reading, the code 0 with the job, or the number of a refusal with zeros.
pub fn job_told(read: Result<Job, Refusal>) -> (u32, Job)
    ensures { read_told read
        ≡ record {
          code = result.0;
          count = result.1.count;
          sizes = result.1.sizes;
          strides = result.1.strides;
          base = result.1.base;
          start = result.1.start;
          end = result.1.end;
        } }
{
    let nothing = Job {
        count: 0,
        sizes: [0; PLACES],
        strides: [0; PLACES],
        base: 0,
        start: 0,
        end: 0,
    };
    match read {
        Ok(job) => (0, job),
        Err(refusal) => (u32::from(refusal), nothing),
    }
}
