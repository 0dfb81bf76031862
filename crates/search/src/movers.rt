// The squares where moves start, and whether there is a move.
ghost use Rattle.std.specs.Prelude.{◌≡◌, not};
ghost use Rattle.rules.specs.Rules.{empty, moves};
ghost use Rattle.position.specs.Keyed.{board_of};
ghost use Rattle.search.specs.Tried.{movers_of};

use board::squares_of;
use position::{Position, own};
use position_moves::legal_targets;

// Whether there are only the kings.
fn is_bare(s: Position) -> bool
    ensures { result ≡ empty (board_of s).men }
{
    let first = s.first;
    let second = s.second;
    match first {
        Some(_) => false,
        None => match second {
            Some(_) => false,
            None => true,
        },
    }
}

// The squares where moves start: those of the pieces of the side to move, and none with bare kings, where the game is over.
pub fn movers(s: Position) -> u64
    ensures { result ≡ movers_of (board_of s) }
{
    if is_bare(s) {
        return 0;
    }
    own(s, s.side)
}

// Whether the side to move has a legal move.
pub fn can_move(s: Position) -> bool
    ensures { result ≡ not (empty (moves (board_of s))) }
{
    squares_of(movers(s)).any(|from| legal_targets(s, from) != 0)
}
