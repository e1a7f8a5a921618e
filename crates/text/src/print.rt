// A line that is put together from words and numbers, one behind the other.
ghost use Rattle.std.specs.Prelude.{◌+◌, ◌*◌, ◌≤◌, ◌≡◌, length, take};
ghost use Rattle.std.proofs.Math.Seq.{paste};

use crate::word::{LONGEST, Word};

// The bytes of the line stand in memory of a fixed size, and `len` says how many there are so far.
#[derive(Drop)]
pub struct Line<const N: usize> {
    bytes: [u8; N],
    len: usize,
    ghost within: { len ≤ N },
}

impl<const N: usize> Line<N> {
    pub fn new() -> Line<N>
        ensures { result.len ≡ 0 }
    {
        Line {
            bytes: [0; N],
            len: 0,
        }
    }

    pub fn as_bytes(&self) -> &[u8]
        ensures { result.now ≡ take self.now.len self.now.bytes }
    {
        &self.bytes[..self.len]
    }

    // Begins the line anew.
    pub fn start(&mut self, part: &[u8])
        requires { length part.now ≤ N }
        ensures after { self.new.len ≡ length part.now }
        ensures pasted { self.new.bytes ≡ paste self.old.bytes 0 part.now (length part.now) }
    {
        self.len = 0;
        self.put(part);
    }

    pub fn put(&mut self, part: &[u8])
        requires { self.old.len + length part.now ≤ N }
        ensures after { self.new.len ≡ self.old.len + length part.now }
        ensures pasted { self.new.bytes ≡ paste self.old.bytes self.old.len part.now (length part.now) }
    {
        let end = self.len + part.len();
        let bytes = &mut self.bytes[..];
        bytes[self.len..end].copy_from_slice(part);
        self.len = end;
    }

    // A number, with a space before it.
    pub fn put_word<T: Word>(&mut self, number: T)
        requires { self.old.len + 1 + T.most ≤ N }
        ensures { self.new.len ≤ self.old.len + 1 + T.most }
    {
        let mut space = [0u8; LONGEST];
        self.put(b" ");
        self.put(number.to_word(&mut space));
    }

    // A pattern of bits, with a space before it.
    pub fn put_bits(&mut self, bits: u64)
        requires { self.old.len + 17 ≤ N }
        ensures { self.new.len ≡ self.old.len + 17 }
    {
        let mut space = [0u8; LONGEST];
        self.put(b" ");
        self.put(crate::float::hex(bits, &mut space));
    }

    // Numbers one after the other, each with a space before it.
    pub fn put_words<T: Word>(&mut self, numbers: &[T])
        requires { self.old.len + (1 + T.most) * length numbers.now ≤ N }
        ensures { self.new.len ≤ self.old.len + (1 + T.most) * length numbers.now }
    {
        for number in numbers {
            self.put_word(*number);
        }
    }

    // How many numbers there are, and the numbers.
    pub fn put_list<T: Word>(&mut self, numbers: &[T])
        requires { self.old.len + 21 + (1 + T.most) * length numbers.now ≤ N }
        ensures { self.new.len ≤ self.old.len + 21 + (1 + T.most) * length numbers.now }
    {
        self.put_word(numbers.len() as u64);
        self.put_words(numbers);
    }
}
