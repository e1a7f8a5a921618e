// The words of a line, separated by exactly one space, and the numbers that they say.
ghost use Rattle.std.specs.Prelude.{ℕ, List, Option, ◌≡◌, ◌≤◌, ◌↔◌, length, IfSome, IsSome, IsNone, MatchOption};
ghost use Rattle.text.specs.Words.{IsLast, IsFirst};

// The bytes of the longest word that says a number: a minus and 20 digits.
pub const LONGEST: usize = 21;

// A number that one word of a line says.
pub trait Word: Copy {
    // What a word says: a number, or None.
    ghost says: { List ℕ → Option Self → Type 0 };

    // The most bytes that a word takes.
    ghost most: { ℕ };

    fn from_word(word: &[u8]) -> Option<Self>
        ensures { says word.now result };

    fn to_word<'b>(self, space: &'b mut [u8; LONGEST]) -> &'b [u8]
        ensures { length result.now ≤ most };
}

// What is left of a line's words: none, once the last is read.
#[derive(Drop)]
pub struct Words<'a> {
    rest: Option<&'a [u8]>,
}

impl<'a> Words<'a> {
    pub fn new(line: &'a [u8]) -> Words<'a>
        ensures { MatchOption result.rest ⊥ (λ s. s.now ≡ line.now) }
    {
        Words { rest: Some(line) }
    }

    // The next word. Where the line ends in a space, an empty word is its last.
    pub fn next_word(&mut self) -> Option<&'a [u8]>
        ensures { MatchOption self.old.rest (IsNone result × IsNone self.new.rest)
            (λ s. MatchOption result ⊥ (λ w. MatchOption self.new.rest (IsLast s.now w.now) (λ r. IsFirst s.now w.now r.now))) }
    {
        let (word, rest) = cut(self.rest?);
        self.rest = rest;
        Some(word)
    }

    // The number that the next word says.
    pub fn read<T: Word>(&mut self) -> Option<T>
        ensures { MatchOption self.old.rest (IsNone result × IsNone self.new.rest)
            (λ s. ((w : List ℕ) × T.says w result × MatchOption self.new.rest (IsLast s.now w) (λ r. IsFirst s.now w r.now))) }
    {
        T::from_word(self.next_word()?)
    }

    // A count, and as many numbers, which go to the first places of the space.
    pub fn list<'b, T: Word>(&mut self, space: &'b mut [T]) -> Option<&'b mut [T]>
        ensures { IfSome result (λ items. length items.now ≤ length space.old) }
    {
        let count = usize::try_from(self.read::<u64>()?).ok()?;
        let items = space.get_mut(..count)?;
        for item in items.iter_mut() {
            *item = self.read()?;
        }
        Some(items)
    }

    // Some where no word is left.
    pub fn end(&self) -> Option<()>
        ensures { IsSome result ↔ IsNone self.now.rest }
    {
        match self.rest {
            Some(_) => None,
            None => Some(()),
        }
    }
}

// The first word of a line, and what stands behind the space after it.
fn cut(line: &[u8]) -> (&[u8], Option<&[u8]>)
    ensures { MatchOption result.1 (IsLast line.now result.0.now) (λ r. IsFirst line.now result.0.now r.now) }
{
    match line.iter().position(|byte| *byte == b' ') {
        Some(end) => (&line[..end], Some(&line[end + 1..])),
        None => (line, None),
    }
}
