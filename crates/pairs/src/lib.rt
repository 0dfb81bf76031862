// The 462 pairs of kings, in rising order of white king's square, then black king's.
#![tactic(auto)]

mod back;
mod forth;
mod rows;

pub use back::kings_of;
pub use forth::{pair_by, pair_in, pair_list};
pub use rows::{count_before, first_of, pair_by_row, partners_of};

// How many pairs there are.
pub const PAIR_COUNT: u32 = 462;

// The pair for each of the ten white squares and 64 black squares.
pub type PairList = [u16; 640];
