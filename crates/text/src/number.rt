// Numbers as words. Decimal: no leading zero, no plus, a minus only before a number that is not 0.
ghost use Rattle.std.specs.Prelude.{◌≡◌, ◌<◌, drop};
ghost use Rattle.std.specs.Fmt.{decimal};
ghost use Rattle.text.specs.Numbers.{digit_of, digit_step, read_on, plain, number_of, negative_of, signed_of, hex_of, below, mark_of};

use crate::word::{LONGEST, Word};

// The value of a digit: 0 to 9, and a to f for 10 to 15. By hand, since char::to_digit takes capitals too.
fn digit_of(byte: u8) -> Option<u64>
    ensures { result ≡ digit_of byte }
{
    match byte {
        b'0'..=b'9' => Some(u64::from(byte - b'0')),
        b'a'..=b'f' => Some(u64::from(byte - b'a') + 10),
        _ => None,
    }
}

// n with a digit of the base behind it, while that fits.
fn with_digit(base: u64, n: u64, byte: u8) -> Option<u64>
    ensures { result ≡ digit_step base n byte }
{
    let digit = digit_of(byte)?;
    if base <= digit {
        return None;
    }
    n.checked_mul(base)?.checked_add(digit)
}

// Decimal and hex numbers are read by the same loop.
fn digits(base: u64, word: &[u8]) -> Option<u64>
    ensures { result ≡ read_on (digit_step base) (Some 0) word.now }
{
    let mut n = 0;
    for byte in word {
        n = with_digit(base, n, *byte)?;
    }
    Some(n)
}

// Whether the word is not empty and has no zero in front of another digit.
fn is_plain(word: &[u8]) -> bool
    ensures { result ≡ plain word.now }
{
    match word {
        [] => false,
        [_] => true,
        [first, ..] => *first != b'0',
    }
}

pub fn parse_u64(word: &[u8]) -> Option<u64>
    ensures { result ≡ number_of word.now }
{
    if is_plain(word) {
        digits(10, word)
    } else {
        None
    }
}

// What stands behind a minus: not 0, which i64's own parse would take.
fn from_negative(n: u64) -> Option<i64>
    ensures { result ≡ negative_of n }
{
    if n == 0 {
        return None;
    }
    0i64.checked_sub_unsigned(n)
}

pub fn parse_i64(word: &[u8]) -> Option<i64>
    ensures { result ≡ signed_of word.now }
{
    match word {
        [b'-', magnitude @ ..] => from_negative(parse_u64(magnitude)?),
        _ => i64::try_from(parse_u64(word)?).ok(),
    }
}

// Exactly 16 lower-case hex digits.
pub fn parse_bits(word: &[u8]) -> Option<u64>
    ensures { result ≡ hex_of word.now }
{
    if word.len() == 16 {
        digits(16, word)
    } else {
        None
    }
}

// The decimal digits of n, put at the space's end, and where they begin. The last digit is put first, while there are others.
// By hand, since std's Display writes into a writer that can fail, and here the room is proved.
fn decimal(n: u64, space: &mut [u8; LONGEST]) -> usize
    ensures within { (0 < result) × (result < 21) }
    ensures digits { drop result space.new ≡ decimal n }
{
    let mut rest = n;
    let mut at = LONGEST - 1;
    while 10 <= rest {
        space[at] = b'0' + (rest % 10) as u8;
        rest /= 10;
        at -= 1;
    }
    space[at] = b'0' + rest as u8;
    at
}

impl Word for u64 {
    ghost says = { λ w n. n ≡ number_of w };

    ghost most = { 20 };

    fn from_word(word: &[u8]) -> Option<u64> {
        parse_u64(word)
    }

    fn to_word<'b>(self, space: &'b mut [u8; LONGEST]) -> &'b [u8] {
        let from = decimal(self, space);
        &space[from..]
    }
}

impl Word for i64 {
    ghost says = { λ w n. n ≡ signed_of w };

    ghost most = { 21 };

    fn from_word(word: &[u8]) -> Option<i64> {
        parse_i64(word)
    }

    fn to_word<'b>(self, space: &'b mut [u8; LONGEST]) -> &'b [u8] {
        let mut from = decimal(self.unsigned_abs(), space);
        if self < 0 {
            from -= 1;
            space[from] = b'-';
        }
        &space[from..]
    }
}

// A number that is at most 255.
impl Word for u8 {
    ghost says = { λ w n. n ≡ below 256 (number_of w) };

    ghost most = { 20 };

    fn from_word(word: &[u8]) -> Option<u8> {
        u8::try_from(parse_u64(word)?).ok()
    }

    fn to_word<'b>(self, space: &'b mut [u8; LONGEST]) -> &'b [u8] {
        u64::from(self).to_word(space)
    }
}

// A mark, 0 or 1.
impl Word for bool {
    ghost says = { λ w b. b ≡ mark_of (number_of w) };

    ghost most = { 20 };

    fn from_word(word: &[u8]) -> Option<bool> {
        match parse_u64(word)? {
            0 => Some(false),
            1 => Some(true),
            _ => None,
        }
    }

    fn to_word<'b>(self, space: &'b mut [u8; LONGEST]) -> &'b [u8] {
        u64::from(self).to_word(space)
    }
}
