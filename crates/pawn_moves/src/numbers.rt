// The place at a number, and whether a place is legal.
ghost use Rattle.std.specs.Prelude.{◌≡◌};
ghost use Rattle.pawn_moves.specs.PawnMoves.{SeatAt, seat_legal};

use super::ends::is_checked;
use pawn_numbers::{PawnPlace, is_pawn_used, pawn_place_at};
use position::{Place, other};

// The place at the number, used or not.
pub fn pawn_seat(n: u32) -> Place
    ensures { SeatAt n result }
{
    let at = pawn_place_at(n);
    Place {
        side: at.side,
        white: at.white,
        black: at.black,
        first: at.pawn,
        second: 64,
    }
}

// Whether no two stand on one square, the kings do not touch, and the side not to move is not in check.
pub fn is_pawn_legal(q: Place) -> bool
    ensures { result ≡ seat_legal q }
{
    let used = is_pawn_used(PawnPlace {
        side: q.side,
        white: q.white,
        black: q.black,
        pawn: q.first,
    });
    if !used {
        return false;
    }
    !is_checked(q, other(q.side))
}
