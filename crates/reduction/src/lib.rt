// The product of a range: its pieces, each worked in one of the two ways, joined left to right.
#![tactic(auto)]

pub mod full;
