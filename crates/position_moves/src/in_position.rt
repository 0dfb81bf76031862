// The legal targets of all pieces of the side to move, in a position that refusals 1 to 5 and 18 let pass.
ghost use Rattle.std.specs.Prelude.{◌≡◌, ℕ, ◌<◌};
ghost use Rattle.finite.specs.Members.{any};
ghost use Rattle.board.specs.Sets.{has, set_of};
ghost use Rattle.rules.specs.Rules.{can_move};
ghost use Rattle.position.specs.Keyed.{slot_men, board_of, man_in};
ghost use Rattle.position.specs.Refusals.{placing_with};
ghost use Rattle.position_moves.specs.InPosition.{goes_by, Sight, Held, MoversOf};

use super::Movers;
use super::targets::{goes_to, legal_targets};
use board::{has as has_square, minus, targets, without};
use position::{Position, king_square, man_in, men_set, occupied, other, own};
use rules::Piece;

const KING: u8 = 5;

// The squares where the man in a slot may go, if he is of this side.
fn slot_goes(occ: u64, side: u8, slot: Option<Piece>) -> u64
    ensures { (t : ℕ) → t < 64 → has result t ≡ any (goes_by (has occ) side t) (slot_men slot) }
{
    match slot {
        None => 0,
        Some(m) => if m.colour == side {
            goes_to(occ, m.kind, m.colour, m.square)
        } else {
            0
        },
    }
}

// Those of a man's squares that are legal targets. `struck` are the squares of his side that foes attack with his king
// lifted off the board: where there are none, he is free to go.
fn man_targets(p: Position, own: u64, struck: u64, goes: u64, slot: Option<Piece>) -> u64
    ensures { (occ : ℕ) → Sight p occ own struck → Held p slot → ((t : ℕ) → t < 64 → has goes t ≡ any (goes_by (has occ) p.side t) (slot_men slot)) → result ≡ set_of (can_move (board_of p) (man_in slot).square) }
{
    if struck == 0 {
        return minus(goes, own);
    }
    if goes == 0 {
        return 0;
    }
    legal_targets(p, man_in(slot).square)
}

// Where the pieces of the side to move may go, and whether one of its men attacks the other king.
pub fn movers_of(p: Position) -> Movers
    ensures { placing_with p ≡ 0 → MoversOf p result }
{
    let side = p.side;
    let foe = other(side);
    let first = p.first;
    let second = p.second;
    let occ = occupied(p);
    let mine = own(p, side);
    let king = king_square(p, side);
    let rival = king_square(p, foe);
    let strike = men_set(p, without(occ, king), foe);
    let one = slot_goes(occ, side, first);
    let two = slot_goes(occ, side, second);
    let steps = minus(targets(0, KING, king), mine);
    let struck = strike & mine;
    Movers {
        own: mine,
        king: minus(steps, targets(0, KING, rival) | strike),
        first: man_targets(p, mine, struck, one, first),
        second: man_targets(p, mine, struck, two, second),
        check: has_square(one | two, rival),
    }
}

// The targets of the piece on a square, of those found for all.
pub fn targets_from(p: Position, all: Movers, from: u8) -> u64
    ensures { MoversOf p all → result ≡ set_of (can_move (board_of p) from) }
{
    let first = p.first;
    let second = p.second;
    if from == king_square(p, p.side) {
        return all.king;
    }
    if from == man_in(first).square {
        return all.first;
    }
    if from == man_in(second).square {
        return all.second;
    }
    0
}
