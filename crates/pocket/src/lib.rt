// The pocket edition of a table: two bits a number, for won, drawn and lost only.
#![tactic(auto)]

mod counter;
mod packer;
mod reader;
mod rows;

pub use counter::tally;
pub use packer::pack;
pub use reader::look_up;

// A pocket's bytes.
const POCKET_SIZE: usize = 14784;

// What the pocket look-up says of the side to move, with no depth and no move.
#[derive(Clone, Copy)]
pub enum PocketAnswer {
    Win,
    Loss,
    Draw,
}

// How many numbers have each of the four entries: byte 0, a draw, a win, a loss.
#[derive(Clone, Copy)]
pub struct Tallies {
    pub none: u16,
    pub draws: u16,
    pub wins: u16,
    pub losses: u16,
}
