// Pieces, moves, and a pawn's steps.
#![tactic(auto)]

mod pawn;

ghost use Rattle.std.specs.Prelude.{◌≡◌};
ghost use Rattle.rules.specs.Changed.{other};
ghost use Rattle.rules.specs.Rules.{move_of, promotion_of};

pub use pawn::{pawn_goes, pawn_hits};

// A piece on a square. Kinds: queen 0, rook 1, bishop 2, knight 3, pawn 4, king 5. Colours: White 0, Black 1.
// Numbers, since a position is keyed from any bytes, of which refusals 1 and 2 speak.
#[derive(Clone, Copy)]
pub struct Piece {
    pub kind: u8,
    pub colour: u8,
    pub square: u8,
}

// A move of the piece on a square to another square, whether it takes a piece there, and what a pawn becomes there: 0
// nothing, or 1 and the kind.
#[derive(Clone, Copy)]
pub struct Move {
    pub from: u8,
    pub to: u8,
    pub takes: bool,
    pub becomes: u8,
}

// What an unused place of a list holds.
pub const ZERO_MOVE: Move = Move {
    from: 0,
    to: 0,
    takes: false,
    becomes: 0,
};

// The maker of moves.
pub fn promotion_of(from: u8, to: u8, takes: bool, becomes: u8) -> Move
    ensures { result ≡ promotion_of from to takes becomes }
{
    Move {
        from,
        to,
        takes,
        becomes,
    }
}

// A move that promotes nothing.
pub fn move_of(from: u8, to: u8, takes: bool) -> Move
    ensures { result ≡ move_of from to takes }
{
    promotion_of(from, to, takes, 0)
}

// Black for White and White for Black; another number stays.
pub fn opposite(colour: u8) -> u8
    ensures { result ≡ other colour }
{
    match colour {
        0 => 1,
        1 => 0,
        _ => colour,
    }
}
