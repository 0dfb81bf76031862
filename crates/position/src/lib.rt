// A position as it is keyed, the refusals it may meet, and the position under the board's maps.
#![tactic(auto)]

ghost use Rattle.std.specs.Prelude.{◌≡◌, ◌-◌};
ghost use Rattle.position.specs.Keyed.{man_in, one_man, lone as lone_of};

use rules::Piece;

mod attack;
mod maps;
mod occupancy;
mod owners;
mod places;
mod refusals;

pub use attack::{attack_set, attacked_over, in_check, king_square, men_set};
pub use maps::transposed;
pub use occupancy::{occupied, own, pieces_of};
pub use places::posed;
pub use refusals::{placing_refusal, placing_with, standing_refusal, standing_with};

// The side to move, the kings' squares, and up to two men. As keyed: any bytes may come in.
#[derive(Clone, Copy)]
pub struct Position {
    pub side: u8,
    pub white_king: u8,
    pub black_king: u8,
    pub first: Option<Piece>,
    pub second: Option<Piece>,
}

// The men of an ending, fixed for a table: the first's kind, who is White's; the second's kind, 4 where there is none,
// and colour.
#[derive(Clone, Copy)]
pub struct Men {
    pub first: u8,
    pub second: u8,
    pub colour: u8,
}

// Where an ending's pieces stand: five bytes, 64 for a man who has been taken or is not there: a square that no set holds,
// so that no test asks first whether he is there.
#[derive(Clone, Copy)]
pub struct Place {
    pub side: u8,
    pub white: u8,
    pub black: u8,
    pub first: u8,
    pub second: u8,
}

// One of the board's eight maps: the files reversed, the ranks reversed, then file and rank exchanged, each or not.
#[derive(Clone, Copy)]
pub struct Map {
    pub files: bool,
    pub ranks: bool,
    pub swap: bool,
}

// The normal position of a class, and the map that makes a position of it into that.
#[derive(Clone, Copy)]
pub struct Normal {
    pub position: Position,
    pub via: Map,
}

// A position's kings and men, each as a piece; an absent one stands off the board and has no steps.
#[derive(Clone, Copy)]
pub struct Pieces {
    pub white: Piece,
    pub black: Piece,
    pub first: Piece,
    pub second: Piece,
}

// The position with one man.
pub fn one_man(kind: u8, colour: u8, side: u8, white: u8, square: u8, black: u8) -> Position
    ensures { result ≡ one_man kind colour side white square black }
{
    Position {
        side,
        white_king: white,
        black_king: black,
        first: Some(Piece {
            kind,
            colour,
            square,
        }),
        second: None,
    }
}

// The same, White's.
pub fn lone(kind: u8, side: u8, white: u8, square: u8, black: u8) -> Position
    ensures { result ≡ lone_of kind side white square black }
{
    one_man(kind, 0, side, white, square, black)
}

// The man in a slot; one that stands off the board where there is none.
pub fn man_in(slot: Option<Piece>) -> Piece
    ensures { result ≡ man_in slot }
{
    match slot {
        None => Piece {
            kind: 4,
            colour: 0,
            square: 64,
        },
        Some(m) => m,
    }
}

// The other side.
pub fn other(side: u8) -> u8
    ensures { result ≡ 1 - side }
{
    u8::from(side == 0)
}
