// The answer of a `step`, and the bookmark that its line has behind the range and its values.
use crate::acc::{Given, put_fields, read_acc};
use crate::answer::Answer;
use accumulator::StableProductFloatAcc;
use bookmarks::{Bookmark, Step};
use text::word::Words;

pub fn read_bookmark(words: &mut Words) -> Option<Bookmark> {
    let next = words.read()?;
    let acc = read_acc(words)?;
    Some(Bookmark { next, acc })
}

impl Given for Step {
    fn put(self, out: &mut Answer) {
        match self {
            Step::Done(acc, pieces) => put_done(acc, pieces, out),
            Step::More(to, pieces) => put_more(to, pieces, out),
        }
    }
}

fn put_done(acc: StableProductFloatAcc, pieces: u64, out: &mut Answer) {
    out.start(b"done");
    put_fields(acc, out);
    out.put_word(pieces);
    out.put(b"\n");
}

fn put_more(to: Bookmark, pieces: u64, out: &mut Answer) {
    out.start(b"more");
    out.put_word(to.next);
    put_fields(to.acc, out);
    out.put_word(pieces);
    out.put(b"\n");
}
