// The text of a case file: words, numbers and lists read from a line, and numbers printed into a line.
#![tactic(auto)]

pub mod float;
pub mod number;
pub mod print;
pub mod word;
