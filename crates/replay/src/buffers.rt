// The three buffers that end the line of a call with many answers: read before the call, and printed whole behind its code.
ghost use Rattle.std.specs.Prelude.{◌≤◌, length};

use crate::answer::{Answer, code_of};
use refusals::Refusal;

// How many items each list of such a line may have.
pub const ITEMS: usize = 4096;

// What stands behind the call's word.
pub fn put_buffers(done: Result<(), Refusal>, ms: &[f64], es: &[i64], bads: &[u8], out: &mut Answer)
    requires room { out.old.len ≤ 100 }
    requires items { (length ms.now ≤ 4096) × (length es.now ≤ 4096) × (length bads.now ≤ 4096) }
{
    out.put_word(code_of(done));
    out.put_list(ms);
    out.put_list(es);
    out.put_list(bads);
    out.put(b"\n");
}
