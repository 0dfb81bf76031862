// The legal moves of a position as keyed: listed by from-square and then by target, and counted.
#![tactic(auto)]

use rules::Move;

mod answers;
mod counting;
mod lists;
mod promoting;

pub use answers::{count_of, legal_moves, move_count};
pub use lists::moves_of;
pub use promoting::promoting_set;

// How many moves a list has room for: those of two men besides the kings.
pub const ROOM: usize = 62;

// The moves, in order; the places from `count` on hold zero.
// An array beside its count, as 01 shapes it.
#[derive(Clone, Copy)]
pub struct MoveList {
    pub moves: [Move; ROOM],
    pub count: u8,
}
