// The lines of jobs: `read` takes a job from bytes, `write` puts one into a buffer of bytes.
ghost use Rattle.std.specs.Prelude.{◌≤◌, length};

use crate::answer::Answer;
use crate::range::{Axes, read_range};
use jobs::reading::Job;
use refusals::Refusal;
use text::word::Words;

// How many bytes a line may have.
const BYTES: usize = 4096;

pub fn answer_read(words: &mut Words, out: &mut Answer) -> Option<()> {
    let mut bytes = [0u8; BYTES];
    let bytes = words.list(&mut bytes)?;
    words.end()?;
    let (code, job) = jobs::reading::job_told(jobs::reading::read_job(bytes));
    put_job(code, &job, out);
    Some(())
}

fn put_job(code: u32, job: &Job, out: &mut Answer) {
    out.start(b"job");
    out.put_word(u64::from(code));
    out.put_word(job.count as u64);
    out.put_words(&job.sizes);
    out.put_words(&job.strides);
    out.put_word(job.base);
    out.put_word(job.start);
    out.put_word(job.end);
    out.put(b"\n");
}

pub fn answer_write(axes: Axes, words: &mut Words, out: &mut Answer) -> Option<()> {
    let mut bytes = [0u8; BYTES];
    let range = read_range(words)?;
    let bytes = words.list(&mut bytes)?;
    words.end()?;
    let written = jobs::writing::write_job(
        axes.sizes,
        axes.strides,
        range.base,
        range.start,
        range.end,
        bytes,
    );
    put_written(written, bytes, out);
    Some(())
}

fn put_written(written: Result<usize, Refusal>, bytes: &[u8], out: &mut Answer)
    requires { length bytes.now ≤ 4096 }
{
    let (code, count) = jobs::writing::written_told(written);
    out.start(b"write");
    out.put_word(u64::from(code));
    out.put_word(count as u64);
    out.put_list(bytes);
    out.put(b"\n");
}
