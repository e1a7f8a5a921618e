// The lanes of a piece. The two ways of working one are defined in specs/; `vectors` has the code.
#![tactic(auto)]

pub mod lanes;
