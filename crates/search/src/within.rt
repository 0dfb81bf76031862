// Won within and lost within k plies, by making every move, on boards without a pawn.
ghost use Rattle.std.specs.Prelude.{◌≡◌};
ghost use Rattle.theory.specs.Value.{won, lost};
ghost use Rattle.rules.specs.Chess.{chess};
ghost use Rattle.position.specs.Keyed.{board_of};
ghost use Rattle.search.specs.Tried.{Pawnless};

use super::checks::tried;
use super::movers::{can_move, movers};
use board::squares_of;
use position::{Position, in_check};
use position_moves::{legal_targets, make};

// Won within k plies: some move leaves the other side lost within k - 1. Leaves at the first such move.
#[cycle(lost_within_won_within)]
pub fn won_within(s: Position, k: u8) -> bool
    ensures { Pawnless (board_of s) → result ≡ won chess k (board_of s) }
{
    if k == 0 {
        return false;
    }
    for from in squares_of(movers(s)) {
        for to in squares_of(tried(s, from, k)) {
            if lost_within(make(s, from, to), k - 1) {
                return true;
            }
        }
    }
    false
}

// Lost within k plies: it is mate, or there are moves and each leaves the other side won within k - 1. Leaves at the first that does not.
// Not one with the search for a win: this asks mate and stalemate first, and goes over all targets.
#[cycle(lost_within_won_within)]
pub fn lost_within(s: Position, k: u8) -> bool
    ensures { Pawnless (board_of s) → result ≡ lost chess k (board_of s) }
{
    if !can_move(s) {
        if in_check(s, s.side) {
            return true;
        }
        return false; // stalemate, or bare kings
    }
    if k == 0 {
        return false;
    }
    for from in squares_of(movers(s)) {
        for to in squares_of(legal_targets(s, from)) {
            if !won_within(make(s, from, to), k - 1) {
                return false; // this reply holds
            }
        }
    }
    true // every reply loses
}
