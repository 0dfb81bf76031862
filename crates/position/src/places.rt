// An ending's men on a place, as a position.
ghost use Rattle.std.specs.Prelude.{◌≡◌};
ghost use Rattle.position.specs.Posed.{slot_at, posed as posed_of};

use super::{Men, Place, Position};
use rules::Piece;

// A man on a square; none where it is off the board.
fn slot_at(kind: u8, colour: u8, square: u8) -> Option<Piece>
    ensures { result ≡ slot_at kind colour square }
{
    if 64 <= square {
        return None;
    }
    Some(Piece {
        kind,
        colour,
        square,
    })
}

// The first is White's.
pub fn posed(m: Men, q: Place) -> Position
    ensures { result ≡ posed_of m q }
{
    Position {
        side: q.side,
        white_king: q.white,
        black_king: q.black,
        first: slot_at(m.first, 0, q.first),
        second: slot_at(m.second, m.colour, q.second),
    }
}
