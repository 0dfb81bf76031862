// An ending's men on a place, with no position made: what stands where, who attacks, and the place after a move.
ghost use Rattle.std.specs.Prelude.{◌≡◌, cond, false, ℕ, ◌<◌, eqb};
ghost use Rattle.board.specs.Sets.{has, set_of};
ghost use Rattle.rules.specs.Rules.{piece_of, carried as carried_to, occupied, stands, touching, in_check};
ghost use Rattle.position.specs.Posed.{board_in, Complete};
ghost use Rattle.position.specs.Spread.{Pawnless};
ghost use Rattle.movegen.specs.Places.{piece_strikes, men_strike, square_after, place_after};

use board::{attacks, one, targets};
use position::{Men, Place, other};

// The square of a side's king.
pub fn king_at(q: Place, side: u8) -> u8
    ensures { result ≡ cond (eqb side 0) q.white q.black }
{
    if side == 0 { q.white } else { q.black }
}

// The occupied squares.
pub fn occupied_at(q: Place) -> u64
    ensures { (m : Men) → result ≡ set_of (occupied (board_in m q)) }
{
    one(q.white) | (one(q.black) | (one(q.first) | one(q.second)))
}

// The set of a man's square, if he is of this side; empty otherwise. The bit is made before the side is asked, as in
// `occupied_at`: where both are wanted, it is made once.
fn one_if(owner: u8, side: u8, square: u8) -> u64
    ensures { result ≡ set_of (λ (u : ℕ). eqb u (cond (eqb owner side) square 64)) }
{
    let bit = one(square);
    if owner == side { bit } else { 0 }
}

// The set of a side's king's square, both bits made as in `one_if`.
pub fn king_set(q: Place, side: u8) -> u64
    ensures { result ≡ set_of (λ (u : ℕ). eqb u (cond (eqb side 0) q.white q.black)) }
{
    let white = one(q.white);
    let black = one(q.black);
    if side == 0 { white } else { black }
}

// The squares of a side's pieces.
pub fn own_at(m: Men, q: Place, side: u8) -> u64
    ensures { side < 2 → result ≡ set_of (stands (board_in m q) side) }
{
    king_set(q, side) | (one_if(0, side, q.first) | one_if(m.colour, side, q.second))
}

// Whether a man is of this colour and attacks t: his colour is asked first, and whether he is there.
fn strikes(occ: u64, kind: u8, owner: u8, square: u8, colour: u8, t: u8) -> bool
    ensures { result ≡ piece_strikes (has occ) colour t (piece_of kind owner square) }
{
    if owner != colour {
        return false;
    }
    if 64 <= square {
        return false;
    }
    attacks(occ, kind, square, t)
}

// Whether a man of this colour attacks t.
pub fn men_strike(m: Men, q: Place, occ: u64, colour: u8, t: u8) -> bool
    ensures { result ≡ men_strike m q (has occ) colour t }
{
    if strikes(occ, m.first, 0, q.first, colour, t) {
        return true;
    }
    strikes(occ, m.second, m.colour, q.second, colour, t)
}

// The squares that a man attacks, if he is of this colour and on the board: the lines are walked only then.
pub fn struck_by(occ: u64, kind: u8, owner: u8, square: u8, colour: u8) -> u64
    ensures { result ≡ set_of (λ (t : ℕ). piece_strikes (has occ) colour t (piece_of kind owner square)) }
{
    if owner != colour {
        return 0;
    }
    if 64 <= square {
        return 0;
    }
    targets(occ, kind, square)
}

// The squares that the men of this colour attack.
pub fn strike_set(m: Men, q: Place, occ: u64, colour: u8) -> u64
    ensures { (t : ℕ) → t < 64 → has result t ≡ men_strike m q (has occ) colour t }
{
    struck_by(occ, m.first, 0, q.first, colour)
        | struck_by(occ, m.second, m.colour, q.second, colour)
}

// Whether this side is in check, where the kings do not touch: a king gives none.
pub fn men_check(m: Men, q: Place, side: u8) -> bool
    ensures { Pawnless m q → touching (board_in m q) ≡ false → result ≡ in_check (board_in m q) side }
{
    men_strike(m, q, occupied_at(q), other(side), king_at(q, side))
}

// Whether this side is in check.
pub fn checked(m: Men, q: Place, side: u8) -> bool
    ensures { Complete m q → result ≡ in_check (board_in m q) side }
{
    men_check(m, q, side)
}

// Where a piece on s stands after a move.
pub fn carried(from: u8, to: u8, s: u8) -> u8
    ensures { result ≡ carried_to from to s }
{
    if s == from { to } else { s }
}

// Where a man on s stands after a move: off the board if he is taken.
pub fn square_after(from: u8, to: u8, s: u8) -> u8
    ensures { result ≡ square_after from to s }
{
    if s == to {
        return 64;
    }
    carried(from, to, s)
}

// The place after a move.
pub fn place_after(q: Place, from: u8, to: u8) -> Place
    ensures { result ≡ place_after q from to }
{
    Place {
        side: other(q.side),
        white: carried(from, to, q.white),
        black: carried(from, to, q.black),
        first: square_after(from, to, q.first),
        second: square_after(from, to, q.second),
    }
}
