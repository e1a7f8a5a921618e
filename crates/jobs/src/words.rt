// Words of 32 bits: three for the kind, 29 for the payload, in four bytes with the lowest first.
ghost use Rattle.std.specs.Prelude.{◌≡◌, ◌≢◌, ◌+◌, ◌*◌, ◌^◌, ◌≤◌, ◌<◌, length, drop, MatchOption};
ghost use Rattle.std.proofs.lemmas.List.Edits.{sets};
ghost use Rattle.jobs.specs.Words.{bytes_of, word_of};
ghost use Rattle.jobs.specs.Reading.{first_word, first_kind};
ghost use Rattle.jobs.specs.InnerParts.{kind_of, word_told, IsPayload};

// What the three highest bits of a word say. A word of kind `More` has more of the number before it.
#[derive(Clone, Copy, Debug, PartialEq, Eq)]
pub enum Kind {
    More = 0,
    Size = 1,
    Stride = 2,
    Base = 3,
    Start = 4,
    End = 5,
    Finish = 6,
    // no job has it
    Unused = 7,
}

impl From<Kind> for u64 {
    ghost from_gives = { λ k n. n ≡ kind_of k };

    fn from(kind: Kind) -> u64 {
        kind as u64
    }
}

// The number of payloads: a kind is counted in it.
pub const PAYLOADS: u64 = 0x2000_0000;

pub const WORD_BYTES: usize = 4;

// The word at a place, if four bytes are left.
pub fn word_at(bytes: &[u8], at: usize) -> Option<u32>
    requires { at ≤ length bytes.now }
    ensures { word_told result ≡ first_word (drop at bytes.now) }
{
    if bytes.len() < at + WORD_BYTES {
        return None;
    }
    Some(u32::from_le_bytes([bytes[at], bytes[at + 1], bytes[at + 2], bytes[at + 3]]))
}

// The payload of the word at a place, if it is of this kind.
pub fn payload_at(bytes: &[u8], at: usize, kind: Kind) -> Option<u64>
    requires { at ≤ length bytes.now }
    ensures { MatchOption result (first_kind (drop at bytes.now) ≢ kind_of kind) (λ p. IsPayload (kind_of kind) (drop at bytes.now) p) }
{
    let w = u64::from(word_at(bytes, at)?);
    if w / PAYLOADS == u64::from(kind) {
        Some(w % PAYLOADS)
    } else {
        None
    }
}

// Puts the four bytes of a word at a place. Written out they are compiled to one store; `copy_from_slice` is a loop, which was 1.4 times as slow.
fn put_bytes(out: &mut [u8], at: usize, w: u32)
    requires { at + 4 ≤ length out.old }
    ensures { out.new ≡ sets out.old at (bytes_of w) }
{
    let [a, b, c, d] = w.to_le_bytes();
    out[at] = a;
    out[at + 1] = b;
    out[at + 2] = c;
    out[at + 3] = d;
}

// Puts a word at a place.
pub fn put_word(out: &mut [u8], at: usize, kind: Kind, payload: u64)
    requires { (at + 4 ≤ length out.old) × (payload < 2 ^ 29) }
    ensures { out.new ≡ sets out.old at (bytes_of (word_of (kind_of kind) payload)) }
{
    put_bytes(&mut *out, at, (u64::from(kind) * PAYLOADS + payload) as u32);
}
