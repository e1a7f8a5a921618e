// The two ways of working a piece, eight values at a time: lanes wait unsplit as long as a test shows that nothing is lost by it.
#![tactic(auto)]

pub mod feeding;
pub mod marked;
pub mod piece;
pub mod unsplit;
pub mod vector;
