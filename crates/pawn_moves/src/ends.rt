// Where no move is left: mate, which is a loss in 0, or stalemate, which is a draw.
ghost use Rattle.std.specs.Prelude.{◌≡◌, cond};
ghost use Rattle.rules.specs.Rules.{in_check, empty, moves, mated};
ghost use Rattle.pawn_moves.specs.PawnMoves.{pawn_at};

use super::PAWN;
use move_list::count_of;
use position::{Place, in_check, lone};

// Whether the side to move has no move.
pub fn is_stuck(q: Place) -> bool
    ensures { result ≡ empty (moves (pawn_at q)) }
{
    count_of(lone(PAWN, q.side, q.white, q.first, q.black)) == 0
}

// Whether a side is in check.
pub fn is_checked(q: Place, side: u8) -> bool
    ensures { result ≡ in_check (pawn_at q) side }
{
    in_check(lone(PAWN, q.side, q.white, q.first, q.black), side)
}

// The byte of a place without a move.
pub fn end_byte(q: Place) -> u8
    ensures { result ≡ cond (in_check (pawn_at q) q.side) 2 1 }
{
    if is_checked(q, q.side) { 2 } else { 1 }
}

// Whether the side to move is mated.
pub fn is_mated(q: Place) -> bool
    ensures { result ≡ mated (pawn_at q) }
{
    if !is_checked(q, q.side) {
        return false;
    }
    is_stuck(q)
}
