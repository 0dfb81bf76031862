// The legal targets of all pieces of the side to move, on an ending's place.
ghost use Rattle.std.specs.Prelude.{◌≡◌, ◌&&◌, not, ℕ, ◌<◌};
ghost use Rattle.board.specs.Sets.{has, set_of};
ghost use Rattle.rules.specs.Rules.{king, in_check, moved, can_move};
ghost use Rattle.position.specs.Posed.{board_in, Complete};
ghost use Rattle.movegen.specs.Reach.{Stays, View, Mover};

use super::Reach;
use super::passing::passing_of;
use super::places::{
    king_at, king_set, men_check, occupied_at, own_at, place_after, strike_set, struck_by,
};
use board::{has as has_square, minus, targets, without};
use position::{Men, Place, other};

const KING: u8 = 5;

// Whether a man's move leaves his king out of check, by making it.
fn is_safe(m: Men, q: Place, from: u8, t: u8) -> bool
    ensures { Stays m q from → t < 64 → result ≡ not (in_check (moved (board_in m q) from t) q.side) }
{
    !men_check(m, place_after(q, from, t), q.side)
}

// Those of a man's targets where a move leaves his king out of check, each by making the move.
fn tested(m: Men, q: Place, from: u8, free: u64) -> u64
    ensures { Stays m q from → (t : ℕ) → t < 64 → has result t ≡ (has free t && not (in_check (moved (board_in m q) from t) q.side)) }
{
    passing_of(free, |t| is_safe(m, q, from, t))
}

// The targets of a man who may shield his king, of those that his own side leaves free: all, or those that may parry an
// attack and leave no check.
fn shielding(m: Men, q: Place, occ: u64, square: u8, free: u64) -> u64
    ensures { (kind owner : ℕ) → Mover m q occ kind owner square free → result ≡ set_of (can_move (board_in m q) square) }
{
    if free == 0 {
        return 0;
    }
    let side = q.side;
    let foe = other(side);
    let strike = strike_set(m, q, without(occ, square), foe);
    if !has_square(strike, king_at(q, side)) {
        return free;
    }
    tested(m, q, square, free & (strike | own_at(m, q, foe)))
}

// The king's: the squares next to him that no foe attacks.
fn king_reach(q: Place, own: u64, strike: u64) -> u64
    ensures { (m : Men) (occ : ℕ) → View m q occ own strike → result ≡ set_of (can_move (board_in m q) (king (board_in m q) q.side)) }
{
    let side = q.side;
    let free = minus(targets(0, KING, king_at(q, side)), own);
    minus(free, targets(0, KING, king_at(q, other(side))) | strike)
}

// The same from the place itself, where no other piece's are wanted.
pub fn king_targets(m: Men, q: Place) -> u64
    ensures { Complete m q → result ≡ set_of (can_move (board_in m q) (king (board_in m q) q.side)) }
{
    let side = q.side;
    let occ = occupied_at(q);
    let own = own_at(m, q, side);
    let strike = strike_set(m, q, minus(occ, king_set(q, side)), other(side));
    king_reach(q, own, strike)
}

// Where the pieces of the side to move may go: the other side's have no targets. The squares that the foes attack with
// the mover's king lifted off the board tell all at once: where they hold none of his pieces, nobody gives check and
// nobody is pinned.
pub fn reach_of(m: Men, q: Place) -> Reach
    ensures { Complete m q → (result.king ≡ set_of (can_move (board_in m q) (king (board_in m q) q.side))) × (result.first ≡ set_of (can_move (board_in m q) q.first)) × (result.second ≡ set_of (can_move (board_in m q) q.second)) }
{
    let side = q.side;
    let occ = occupied_at(q);
    let own = own_at(m, q, side);
    let strike = strike_set(m, q, minus(occ, king_set(q, side)), other(side));
    let king = king_reach(q, own, strike);
    let first = minus(struck_by(occ, m.first, 0, q.first, side), own);
    let second = minus(struck_by(occ, m.second, m.colour, q.second, side), own);
    if strike & own == 0 {
        return Reach {
            king,
            first,
            second,
        };
    }
    Reach {
        king,
        first: shielding(m, q, occ, q.first, first),
        second: shielding(m, q, occ, q.second, second),
    }
}
