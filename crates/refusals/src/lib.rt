// The refusals of every call, one number and one name each (docs/RULES.md, R1 to R17). The line above a name is its condition in plain words:
// `./run` prints it, and specs/Refusals has the same numbers for the definitions.
#![tactic(auto)]

ghost use Rattle.std.specs.Prelude.{◌≡◌};
ghost use Rattle.refusals.specs.Codes.{number};

#[derive(Clone, Copy, Debug, PartialEq, Eq)]
pub enum Refusal {
    // sizes and strides differ in number
    StrideLengthMismatch = 1,

    // the layout has more than 16 axes
    TooManyAxes = 2,

    // a check of the layout does not fit 64 bits
    OffsetOverflow = 3,

    // the layout has more than 2^40 elements
    TooManyElements = 4,

    // the range is empty: its start is not below its end
    EmptyRange = 5,

    // the range ends past the last element
    RangePastEnd = 6,

    // some element of the layout, visited or not, lies outside the values
    ElementOutside = 7,

    // the buffer is shorter than the range
    BufferTooShort = 8,

    // a given accumulator has not 1 <= |m| < 2 and |e| <= 2^52
    AccumulatorOutOfRange = 9,

    // the joined exponent would pass 2^52
    ExponentOutOfRange = 10,

    // a word of the job is missing, cut off, out of order, or the last one and not empty; or bytes follow the last
    BadWord = 11,

    // a number of the job passes 64 bits, or has a third word of kind 0
    NumberTooLong = 12,

    // the buffer is shorter than the job
    JobBufferTooShort = 13,

    // the count of pieces to work through is 0
    NoPieces = 14,

    // no piece of the range begins at the next element number
    NotAPiece = 15,

    // the lists of starts and ends differ in length, or a buffer is too short for the answers
    AnswerBufferTooShort = 16,

    // a window of no rate, or of more than there are
    NoWindow = 17,
}

// What a host is told.
impl From<Refusal> for u32 {
    ghost from_gives = { λ r n. n ≡ number r };

    fn from(refusal: Refusal) -> u32 {
        refusal as u32
    }
}
