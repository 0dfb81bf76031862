// The number of a board with one pawn, and the board of a number, on squares as bytes.
#![tactic(auto)]

mod flips;
mod numbers;

pub use flips::{pawn_normal, square_back, square_flipped};
pub use numbers::{is_pawn_used, pawn_key, pawn_number_at, pawn_place_at, pawn_used};

// How many numbers there are: a table's bytes.
pub const PAWN_SIZE: usize = 196608;

// The side to move, the kings' squares, and a white pawn's.
#[derive(Clone, Copy)]
pub struct PawnPlace {
    pub side: u8,
    pub white: u8,
    pub black: u8,
    pub pawn: u8,
}

// The normal place of a position, and the flip that makes it: the files reversed, the colours exchanged and the ranks
// turned round, each or not.
#[derive(Clone, Copy)]
pub struct PawnNormal {
    pub place: PawnPlace,
    pub files: bool,
    pub colours: bool,
}
