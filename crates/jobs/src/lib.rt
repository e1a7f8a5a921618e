// Layouts sent as words: a reader and a writer of jobs (docs/RULES.md, J1 to J4).
#![tactic(auto)]

pub mod numbers;
pub mod reading;
pub mod words;
pub mod writing;
