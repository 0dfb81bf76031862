// The squares that a piece attacks on the empty board.
ghost use Rattle.std.specs.Prelude.{◌≡◌};
ghost use Rattle.board.specs.Reach.{reaches};
ghost use Rattle.board.specs.Sets.{set_of};
ghost use Rattle.board.specs.EmptyBoard.{nothing};

use constants::{bishop_lines, king_steps, knight_steps, rook_lines};

// All the squares that a piece of this kind attacks: queen 0, rook 1, bishop 2, knight 3, king 5.
pub fn on_empty(kind: u8, from: u8) -> u64
    ensures { result ≡ set_of (reaches nothing kind from) }
{
    match kind {
        0 => rook_lines(from) | bishop_lines(from),
        1 => rook_lines(from),
        2 => bishop_lines(from),
        3 => knight_steps(from),
        5 => king_steps(from),
        _ => 0,
    }
}
