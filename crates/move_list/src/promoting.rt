// Where a move from a square promotes.
ghost use Rattle.std.specs.Prelude.{◌≡◌, ◌&&◌, eqb};
ghost use Rattle.finite.specs.Members.{any};
ghost use Rattle.board.specs.Sets.{set_of};
ghost use Rattle.rules.specs.Pawn.{pawn};
ghost use Rattle.rules.specs.Rules.{promotes};
ghost use Rattle.position.specs.Keyed.{slot_men, board_of};
ghost use Rattle.move_list.specs.Counting.{slot_pawn};

use position::Position;
use rules::Piece;

const PAWN: u8 = 4;

// Ranks 1 and 8.
pub const OUTER_RANKS: u64 = 0xFF000000000000FF;

// Whether the man in a slot is a pawn.
pub fn is_pawn(slot: Option<Piece>) -> bool
    ensures { result ≡ slot_pawn slot }
{
    match slot {
        None => false,
        Some(m) => m.kind == PAWN,
    }
}

// Whether the man in a slot is a pawn on this square.
fn pawn_in(slot: Option<Piece>, square: u8) -> bool
    ensures { result ≡ any (λ m. pawn m && eqb m.square square) (slot_men slot) }
{
    match slot {
        None => false,
        Some(m) => (m.kind == PAWN) & (m.square == square),
    }
}

// The squares where a move from this square promotes: ranks 1 and 8 for a pawn's, none for another's.
pub fn promoting_set(p: Position, from: u8) -> u64
    ensures { result ≡ set_of (promotes (board_of p) from) }
{
    let first = p.first;
    let second = p.second;
    if pawn_in(first, from) | pawn_in(second, from) {
        return OUTER_RANKS;
    }
    0
}
