// Accumulators in a line: the bits of m, the exponent e, and the mark as 0 or 1. And the answers with an accumulator, a number, a bad rate or a refusal.
ghost use Rattle.std.specs.Prelude.{◌+◌, ◌≤◌};

use crate::answer::Answer;
use accumulator::StableProductFloatAcc;
use search::BadRate;
use text::word::Words;

pub fn read_acc(words: &mut Words) -> Option<StableProductFloatAcc> {
    let m = words.read()?;
    let e = words.read()?;
    let bad = words.read()?;
    Some(StableProductFloatAcc { m, e, bad })
}

// What a call gives where it does not refuse. It is the whole answer.
pub trait Given {
    fn put(self, out: &mut Answer);
}

pub fn put_result<T: Given, E: Into<u32>>(answer: Result<T, E>, out: &mut Answer) {
    match answer {
        Ok(given) => given.put(out),
        Err(refusal) => put_refused(refusal.into(), out),
    }
}

fn put_refused(code: u32, out: &mut Answer) {
    out.start(b"refused");
    out.put_word(u64::from(code));
    out.put(b"\n");
}

impl Given for StableProductFloatAcc {
    fn put(self, out: &mut Answer) {
        out.start(b"acc");
        put_fields(self, out);
        out.put(b"\n");
    }
}

// The three words of an accumulator.
pub fn put_fields(acc: StableProductFloatAcc, out: &mut Answer)
    requires { out.old.len + 60 ≤ 262144 }
    ensures { out.new.len ≤ out.old.len + 60 }
{
    out.put_word(acc.m);
    out.put_word(acc.e);
    out.put_word(acc.bad);
}

impl Given for f64 {
    fn put(self, out: &mut Answer) {
        out.start(b"number");
        out.put_word(self);
        out.put(b"\n");
    }
}

impl Given for Option<BadRate> {
    fn put(self, out: &mut Answer) {
        let Some(rate) = self else {
            return out.start(b"none\n");
        };
        out.start(b"bad");
        out.put_word(rate.element);
        out.put_word(rate.offset);
        out.put(b"\n");
    }
}
