// Attack over a set of occupied squares, and check.
ghost use Rattle.std.specs.Prelude.{◌≡◌, false, ℕ, ◌<◌};
ghost use Rattle.finite.specs.Members.{any};
ghost use Rattle.board.specs.Sets.{has};
ghost use Rattle.rules.specs.Rules.{piece_of, occupied as occupied_of, attacks as attacks_over, king, touching, in_check};
ghost use Rattle.position.specs.Keyed.{slot_men, board_of};
ghost use Rattle.position.specs.Over.{strikes as strikes_over, attacked_over, men_over};

use super::occupancy::{occupied, pieces_of};
use super::{Position, other};
use board::{attacks, has as has_square, targets};
use rules::{Piece, pawn_hits};

const PAWN: u8 = 4;

// Whether a piece is of this colour and attacks t.
fn strikes(occ: u64, colour: u8, t: u8, m: Piece) -> bool
    ensures { result ≡ strikes_over (has occ) colour t m }
{
    if m.colour != colour {
        return false;
    }
    if m.kind == PAWN {
        return has_square(pawn_hits(m.colour, m.square), t);
    }
    attacks(occ, m.kind, m.square, t)
}

// Whether a piece of this colour attacks t.
pub fn attacked_over(p: Position, occ: u64, colour: u8, t: u8) -> bool
    ensures { result ≡ attacked_over (has occ) (board_of p) colour t }
{
    let all = pieces_of(p);
    strikes(occ, colour, t, all.white)
        | (strikes(occ, colour, t, all.black)
            | (strikes(occ, colour, t, all.first) | strikes(occ, colour, t, all.second)))
}

// The squares that a piece attacks, if it is of this colour.
fn strike_set(occ: u64, colour: u8, m: Piece) -> u64
    ensures { (t : ℕ) → t < 64 → has result t ≡ strikes_over (has occ) colour t m }
{
    if m.colour != colour {
        return 0;
    }
    if m.kind == PAWN {
        return pawn_hits(m.colour, m.square);
    }
    targets(occ, m.kind, m.square)
}

// The squares that pieces of this colour attack.
pub fn attack_set(p: Position, occ: u64, colour: u8) -> u64
    ensures { (t : ℕ) → t < 64 → has result t ≡ attacked_over (has occ) (board_of p) colour t }
{
    let all = pieces_of(p);
    strike_set(occ, colour, all.white)
        | (strike_set(occ, colour, all.black)
            | (strike_set(occ, colour, all.first) | strike_set(occ, colour, all.second)))
}

// The square of this side's king.
pub fn king_square(p: Position, side: u8) -> u8
    ensures { result ≡ king (board_of p) side }
{
    if side == 0 {
        p.white_king
    } else {
        p.black_king
    }
}

// Whether this side is in check.
pub fn in_check(p: Position, side: u8) -> bool
    ensures { result ≡ in_check (board_of p) side }
{
    attacked_over(p, occupied(p), other(side), king_square(p, side))
}

// Whether a man of this kind and colour attacks t from his square, over the pieces of the position.
fn man_strikes(p: Position, kind: u8, colour: u8, square: u8, t: u8) -> bool
    ensures { result ≡ attacks_over (occupied_of (board_of p)) (piece_of kind colour square) t }
{
    if kind == PAWN {
        return has_square(pawn_hits(colour, square), t);
    }
    attacks(occupied(p), kind, square, t)
}

// Whether a slot holds a man of this colour who attacks t.
fn slot_strikes(p: Position, slot: Option<Piece>, colour: u8, t: u8) -> bool
    ensures { result ≡ any (strikes_over (occupied_of (board_of p)) colour t) (slot_men slot) }
{
    match slot {
        None => false,
        Some(m) => if m.colour == colour {
            man_strikes(p, m.kind, m.colour, m.square, t)
        } else {
            false
        },
    }
}

// Whether this side is in check, where the kings do not touch: a king gives none.
pub fn men_check(p: Position, side: u8) -> bool
    ensures { touching (board_of p) ≡ false → result ≡ in_check (board_of p) side }
{
    let first = p.first;
    let second = p.second;
    let foe = other(side);
    let t = king_square(p, side);
    if slot_strikes(p, first, foe, t) {
        return true;
    }
    slot_strikes(p, second, foe, t)
}

// The squares that the man in a slot attacks, if he is of this colour.
fn slot_set(occ: u64, colour: u8, slot: Option<Piece>) -> u64
    ensures { (t : ℕ) → t < 64 → has result t ≡ any (strikes_over (has occ) colour t) (slot_men slot) }
{
    match slot {
        None => 0,
        Some(m) => strike_set(occ, colour, m),
    }
}

// The squares that men of this colour attack.
pub fn men_set(p: Position, occ: u64, colour: u8) -> u64
    ensures { (t : ℕ) → t < 64 → has result t ≡ men_over (has occ) (board_of p) colour t }
{
    let first = p.first;
    let second = p.second;
    slot_set(occ, colour, first) | slot_set(occ, colour, second)
}
