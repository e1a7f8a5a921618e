// Where the elements of a layout lie: the cursor over its runs, its bounds, and the offset list.
#![tactic(auto)]

pub mod bounds;
pub mod cursor;
pub mod list;
pub mod pieces;
