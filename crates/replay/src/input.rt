// The lines of standard input, read by chunks into a space that holds the longest line and its newline.
// The program has no exit status of its own: where a read or a write fails, it says so on standard error and answers no more.
ghost use Rattle.std.specs.Prelude.{◌≤◌, length, IfOk, IfSome};

use crate::answer::Answer;
use std::fmt;
use std::io::Read;

#[derive(Clone, Copy, Drop)]
enum Failed {
    Read,
    Write,
}

impl fmt::Display for Failed {
    fn fmt<W: fmt::Write>(&self, f: &mut fmt::Formatter<W>) -> fmt::Result {
        f.write_str(match self {
            Failed::Read => {
                "replay: cannot read standard input (is it closed, or a folder?), so it stops"
            }
            Failed::Write => {
                "replay: cannot write to standard output (is it closed, or the disk full?), so it stops"
            }
        })
    }
}

// Every function ends, so the reads are counted, up to a number that no run uses up.
pub fn answer_all<R: Read>(
    rt: &(impl Print + Eprint),
    input: &mut R,
    space: &mut [u8],
    out: &mut Answer,
) {
    if let Err(failed) = answer_input(rt, input, space, out) {
        let _ = rt.eprintln(failed);
    }
}

fn answer_input<R: Read>(
    rt: &impl Print,
    input: &mut R,
    space: &mut [u8],
    out: &mut Answer,
) -> Result<(), Failed> {
    // The bytes at the start of the space that are not answered yet; None where their line is too long for it.
    let mut held = Some(0);
    for _ in 0..u64::MAX {
        let from = held.unwrap_or(0);
        let count = input.read(&mut space[from..]).map_err(|_| Failed::Read)?;
        if count == 0 {
            return answer_last(rt, space, held, out);
        }
        held = keep_rest(rt, space, from + count, held.is_none(), out)?;
    }
    Ok(())
}

// The input has ended: a line with no newline is answered too.
fn answer_last(
    rt: &impl Print,
    space: &[u8],
    held: Option<usize>,
    out: &mut Answer,
) -> Result<(), Failed>
    requires { IfSome held (λ n. n ≤ length space.now) }
{
    match held {
        Some(0) => Ok(()),
        Some(n) => answer_line(rt, Some(&space[..n]), out),
        None => answer_line(rt, None, out),
    }
}

// Answers the whole lines among the first `count` bytes, and moves what is left of the last to the start of the space.
fn keep_rest(
    rt: &impl Print,
    space: &mut [u8],
    count: usize,
    too_long: bool,
    out: &mut Answer,
) -> Result<Option<usize>, Failed>
    requires { count ≤ length space.old }
    ensures { IfOk result (λ held. IfSome held (λ n. n ≤ length space.old)) }
{
    let Some(left) = answer_lines(rt, &space[..count], too_long, out)? else {
        return Ok(None);
    };
    if left == space.len() {
        return Ok(None);
    }
    space.copy_within(count - left..count, 0);
    Ok(Some(left))
}

// How many bytes are left behind the last newline; None where the line that they go on is too long.
fn answer_lines(
    rt: &impl Print,
    chunk: &[u8],
    too_long: bool,
    out: &mut Answer,
) -> Result<Option<usize>, Failed>
    ensures { IfOk result (λ left. IfSome left (λ n. n ≤ length chunk.now)) }
{
    let mut rest = chunk;
    let mut cut = too_long;
    while let Some(end) = rest.iter().position(|byte| *byte == b'\n') {
        let line = if cut { None } else { Some(&rest[..end]) };
        answer_line(rt, line, out)?;
        rest = &rest[end + 1..];
        cut = false;
    }
    Ok(if cut { None } else { Some(rest.len()) })
}

// A line that is too long for the space is none of the format.
fn answer_line(rt: &impl Print, line: Option<&[u8]>, out: &mut Answer) -> Result<(), Failed> {
    match line {
        Some(line) => crate::answer::answer(line, out),
        None => crate::answer::malformed(out),
    }
    rt.write_all(out.as_bytes()).map_err(|_| Failed::Write)
}
