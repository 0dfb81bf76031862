// Moves that may give check: for the last ply only these are tried, since mate is check. No pawn is on the board.
ghost use Rattle.std.specs.Prelude.{◌≡◌, ℕ, ◌<◌};
ghost use Rattle.finite.specs.Members.{any};
ghost use Rattle.board.specs.Sets.{has, members, set_of};
ghost use Rattle.rules.specs.Rules.{pieces, moves_onto, can_move};
ghost use Rattle.position.specs.Keyed.{slot_men, board_of};
ghost use Rattle.search.specs.Tried.{Pawnless, losing, aims, HoldsChecks};

use board::{targets, without};
use position::{Position, attacked_over, king_square, occupied, other};
use position_moves::legal_targets;
use rules::Piece;

const KING: u8 = 5;

const EVERYWHERE: u64 = 18446744073709551615;

// The squares from which a piece would attack `at`, if it stands on `from`.
fn aimed(occ: u64, from: u8, at: u8, m: Piece) -> u64
    ensures { (t : ℕ) → t < 64 → has result t ≡ aims (has occ) from at t m }
{
    if m.square != from {
        return 0;
    }
    targets(occ, m.kind, at)
}

// The same of a piece that may be absent.
fn aimed_slot(occ: u64, from: u8, at: u8, slot: Option<Piece>) -> u64
    ensures { (t : ℕ) → t < 64 → has result t ≡ any (aims (has occ) from at t) (slot_men slot) }
{
    match slot {
        None => 0,
        Some(m) => aimed(occ, from, at, m),
    }
}

// The same of all pieces.
fn aimed_all(s: Position, occ: u64, from: u8, at: u8) -> u64
    ensures { (t : ℕ) → t < 64 → has result t ≡ any (aims (has occ) from at t) (pieces (board_of s)) }
{
    let white = Piece {
        kind: KING,
        colour: 0,
        square: s.white_king,
    };
    let black = Piece {
        kind: KING,
        colour: 1,
        square: s.black_king,
    };
    let first = s.first;
    let second = s.second;
    aimed(occ, from, at, white)
        | (aimed(occ, from, at, black)
            | (aimed_slot(occ, from, at, first) | aimed_slot(occ, from, at, second)))
}

// Holds each target of a legal move from a square that gives check: all squares, where another piece attacks the king once the mover's
// square is clear, and else those from which the mover attacks him.
fn checking(s: Position, from: u8) -> u64
    ensures { Pawnless (board_of s) → HoldsChecks s from result }
{
    let foe = other(s.side);
    let king = king_square(s, foe);
    if king == from {
        return EVERYWHERE;
    }
    let rest = without(occupied(s), from);
    if attacked_over(s, rest, other(foe), king) {
        return EVERYWHERE;
    }
    aimed_all(s, rest, from, king)
}

// The targets to try from a square for a win within k plies.
pub fn tried(s: Position, from: u8, k: u8) -> u64
    ensures { Pawnless (board_of s) → any (losing k (board_of s)) (moves_onto (board_of s) from (members result)) ≡ any (losing k (board_of s)) (moves_onto (board_of s) from (members (set_of (can_move (board_of s) from)))) }
{
    let targets = legal_targets(s, from);
    if k != 1 {
        return targets;
    }
    targets & checking(s, from)
}
