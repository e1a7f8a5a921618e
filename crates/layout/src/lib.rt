// FullTraversal: a layout compiled by rules L1 to L5.
#![tactic(auto)]

pub mod axis;
pub mod fuse;
pub mod order;
pub mod traversal;
