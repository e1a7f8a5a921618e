// The line of a moving stretch of days: the values, how many of them a window has, and three buffers, which the answer prints.
use crate::answer::Answer;
use crate::buffers::{ITEMS, put_buffers};
use text::word::Words;

pub fn answer_windows(words: &mut Words, out: &mut Answer) -> Option<()> {
    let mut values = [0.0; ITEMS];
    let values = words.list(&mut values)?;
    let w = words.read()?;
    let mut ms = [0.0; ITEMS];
    let mut es = [0i64; ITEMS];
    let mut bads = [0u8; ITEMS];
    let ms = words.list(&mut ms)?;
    let es = words.list(&mut es)?;
    let bads = words.list(&mut bads)?;
    words.end()?;
    let done = windows::reduce_windows(values, w, ms, es, bads);
    out.start(b"windows");
    put_buffers(done, ms, es, bads, out);
    Some(())
}
