// The legal targets of a piece, and the squares where a move takes.
ghost use Rattle.std.specs.Prelude.{◌≡◌, ◌&&◌, not, ℕ, ◌<◌};
ghost use Rattle.board.specs.Sets.{has, set_of};
ghost use Rattle.rules.specs.Rules.{piece_of, goes_to, in_check, moved, can_move, taking};
ghost use Rattle.position.specs.Keyed.{board_of};
ghost use Rattle.position.specs.Over.{goes_from, goes_over};

use super::making::make;
use board::{has as has_square, minus, targets, without};
use movegen::passing_of;
use position::{
    Position, attack_set, attacked_over, in_check, king_square, occupied, other, own, pieces_of,
};
use rules::{Piece, pawn_goes};

const PAWN: u8 = 4;

// The squares where a piece may go.
pub fn goes_to(occ: u64, kind: u8, colour: u8, square: u8) -> u64
    ensures { (t : ℕ) → t < 64 → has result t ≡ goes_to (has occ) (piece_of kind colour square) t }
{
    if kind == PAWN {
        return pawn_goes(occ, colour, square);
    }
    targets(occ, kind, square)
}

// The squares where a piece may go, if it is of this side and stands on `from`.
fn goes_set(occ: u64, side: u8, from: u8, m: Piece) -> u64
    ensures { (t : ℕ) → t < 64 → has result t ≡ goes_from (has occ) side from t m }
{
    if m.colour != side {
        return 0;
    }
    if m.square != from {
        return 0;
    }
    goes_to(occ, m.kind, m.colour, m.square)
}

// The squares where the piece of the side to move on `from` may go.
fn goes_over(p: Position, occ: u64, from: u8) -> u64
    ensures { (t : ℕ) → t < 64 → has result t ≡ goes_over (has occ) (board_of p) from t }
{
    let all = pieces_of(p);
    let side = p.side;
    goes_set(occ, side, from, all.white)
        | (goes_set(occ, side, from, all.black)
            | (goes_set(occ, side, from, all.first) | goes_set(occ, side, from, all.second)))
}

// Whether a move leaves the mover's king out of check, by making it.
fn is_safe(p: Position, from: u8, t: u8) -> bool
    ensures { result ≡ not (in_check (moved (board_of p) from t) p.side) }
{
    !in_check(make(p, from, t), p.side)
}

// Those of some targets where a move leaves the mover's king out of check, each by making the move.
fn tested(p: Position, from: u8, free: u64) -> u64
    ensures { (t : ℕ) → t < 64 → has result t ≡ (has free t && not (in_check (moved (board_of p) from t) p.side)) }
{
    passing_of(free, |t| is_safe(p, from, t))
}

// The legal targets of the piece on a square. A king's are tested by one set of attacked squares, another piece's by
// one look at its king; only a piece that may be pinned, and one that shares its square with a piece of the other side,
// has its moves made.
pub fn legal_targets(p: Position, from: u8) -> u64
    ensures { result ≡ set_of (can_move (board_of p) from) }
{
    let side = p.side;
    let foe = other(side);
    let occ = occupied(p);
    let free = minus(goes_over(p, occ, from), own(p, side));
    if has_square(own(p, foe), from) {
        return tested(p, from, free);
    }
    let rest = without(occ, from);
    let king = king_square(p, side);
    if king == from {
        return minus(free, attack_set(p, rest, foe));
    }
    if attacked_over(p, rest, foe, king) {
        return tested(p, from, free);
    }
    free
}

// The squares where a move takes: those of the other side's pieces.
pub fn taking_set(p: Position) -> u64
    ensures { result ≡ set_of (taking (board_of p)) }
{
    own(p, other(p.side))
}
