// The pieces of a position, and the sets of squares they stand on.
ghost use Rattle.std.specs.Prelude.{◌≡◌, ℕ, ◌<◌};
ghost use Rattle.board.specs.Sets.{has, set_of};
ghost use Rattle.rules.specs.Rules.{occupied as occupied_of, stands};
ghost use Rattle.position.specs.Keyed.{board_of};
ghost use Rattle.position.specs.Pieces.{pieces_of, own_on};

use super::{Pieces, Position, man_in};
use board::one;
use rules::Piece;

const KING: u8 = 5;

// The pieces, one by one.
pub fn pieces_of(p: Position) -> Pieces
    ensures { result ≡ pieces_of p }
{
    let first = p.first;
    let second = p.second;
    Pieces {
        white: Piece {
            kind: KING,
            colour: 0,
            square: p.white_king,
        },
        black: Piece {
            kind: KING,
            colour: 1,
            square: p.black_king,
        },
        first: man_in(first),
        second: man_in(second),
    }
}

// The occupied squares.
pub fn occupied(p: Position) -> u64
    ensures { result ≡ set_of (occupied_of (board_of p)) }
{
    let all = pieces_of(p);
    one(all.white.square)
        | (one(all.black.square) | (one(all.first.square) | one(all.second.square)))
}

// The square of a piece, if it is of this colour.
fn own_square(m: Piece, colour: u8) -> u64
    ensures { (t : ℕ) → t < 64 → has result t ≡ own_on colour t m }
{
    if m.colour != colour {
        return 0;
    }
    one(m.square)
}

// The squares of the pieces of this colour.
pub fn own(p: Position, colour: u8) -> u64
    ensures { result ≡ set_of (stands (board_of p) colour) }
{
    let all = pieces_of(p);
    own_square(all.white, colour)
        | (own_square(all.black, colour)
            | (own_square(all.first, colour) | own_square(all.second, colour)))
}
