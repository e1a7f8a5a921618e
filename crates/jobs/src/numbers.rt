// Numbers of 64 bits in one to three words.
ghost use Rattle.std.specs.Prelude.{◌≡◌, ◌+◌, ◌*◌, ◌^◌, ◌≤◌, ◌<◌, length, drop, IfOk};
ghost use Rattle.std.proofs.lemmas.List.Edits.{sets};
ghost use Rattle.jobs.specs.Words.{number_bytes, payloads_of, sent_of, signed_of};
ghost use Rattle.jobs.specs.Reading.{further, number_from};
ghost use Rattle.jobs.specs.InnerParts.{kind_of, number_told};

use crate::words::{Kind, PAYLOADS, WORD_BYTES};
use refusals::Refusal;

// What the second word behind the first counts.
const TWO_PAYLOADS: u64 = 0x400_0000_0000_0000;

// The second word behind the first has the 6 highest bits of a number.
const TOP_PAYLOADS: u64 = 0x40;

// A number that was read, and the place behind it.
#[derive(Clone, Copy)]
pub struct Number {
    pub value: u64,
    pub next: usize,
}

// A signed number as it is sent.
pub fn sent(x: i64) -> u64
    ensures { result ≡ sent_of x }
{
    let m = x.unsigned_abs();
    if x < 0 {
        return m + (m - 1);
    }
    m + m
}

// And back.
pub fn signed(n: u64) -> i64
    ensures { result ≡ signed_of n }
{
    let half = (n / 2) as i64;
    if n % 2 == 0 {
        return half;
    }
    0 - half - 1
}

// How many bytes a number takes.
pub fn bytes_of(n: u64) -> usize
    ensures { result ≡ 4 * length (payloads_of n) }
{
    if n < PAYLOADS {
        return WORD_BYTES;
    }
    if n < TWO_PAYLOADS {
        return 2 * WORD_BYTES;
    }
    3 * WORD_BYTES
}

// Puts a number at a place, in the fewest words, and gives the place behind it.
pub fn put_number(out: &mut [u8], at: usize, kind: Kind, n: u64) -> usize
    requires { at + length (number_bytes (kind_of kind) (payloads_of n)) ≤ length out.old }
    ensures value { result ≡ at + length (number_bytes (kind_of kind) (payloads_of n)) }
    ensures out_after { out.new ≡ sets out.old at (number_bytes (kind_of kind) (payloads_of n)) }
{
    crate::words::put_word(&mut *out, at, kind, n % PAYLOADS);
    if n < PAYLOADS {
        return at + WORD_BYTES;
    }
    let high = n / PAYLOADS;
    crate::words::put_word(&mut *out, at + WORD_BYTES, Kind::More, high % PAYLOADS);
    if high < PAYLOADS {
        return at + 2 * WORD_BYTES;
    }
    crate::words::put_word(&mut *out, at + 2 * WORD_BYTES, Kind::More, high / PAYLOADS);
    at + 3 * WORD_BYTES
}

// The second word of kind 0, if it comes: it has the highest 6 bits. A third is one too many.
fn third_word(bytes: &[u8], at: usize, low: u64) -> Result<Number, Refusal>
    requires { (at ≤ length bytes.now) × (low < 2 ^ 58) }
    ensures value { number_told bytes.now result ≡ further 1 (2 ^ 58) low (drop at bytes.now) }
    ensures upper_bound { IfOk result (λ n. n.next ≤ length bytes.now) }
{
    let Some(top) = crate::words::payload_at(bytes, at, Kind::More) else {
        return Ok(Number {
            value: low,
            next: at,
        });
    };
    if TOP_PAYLOADS <= top {
        return Err(Refusal::NumberTooLong);
    }
    let next = at + WORD_BYTES;
    if crate::words::payload_at(bytes, next, Kind::More).is_some() {
        return Err(Refusal::NumberTooLong);
    }
    Ok(Number {
        value: low + TWO_PAYLOADS * top,
        next,
    })
}

// What words of kind 0 add to the payload before them.
fn second_word(bytes: &[u8], at: usize, low: u64) -> Result<Number, Refusal>
    requires { (at ≤ length bytes.now) × (low < 2 ^ 29) }
    ensures value { number_told bytes.now result ≡ further 2 (2 ^ 29) low (drop at bytes.now) }
    ensures upper_bound { IfOk result (λ n. n.next ≤ length bytes.now) }
{
    match crate::words::payload_at(bytes, at, Kind::More) {
        Some(high) => third_word(bytes, at + WORD_BYTES, low + PAYLOADS * high),
        None => Ok(Number {
            value: low,
            next: at,
        }),
    }
}

// The number of this kind at a place.
pub fn read_number(bytes: &[u8], at: usize, kind: Kind) -> Result<Number, Refusal>
    requires { at ≤ length bytes.now }
    ensures value { number_told bytes.now result ≡ number_from (kind_of kind) (drop at bytes.now) }
    ensures upper_bound { IfOk result (λ n. n.next ≤ length bytes.now) }
{
    match crate::words::payload_at(bytes, at, kind) {
        Some(low) => second_word(bytes, at + WORD_BYTES, low),
        None => Err(Refusal::BadWord),
    }
}
