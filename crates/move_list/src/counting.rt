// How many moves a position has that refusals 1 to 5 and 18 let pass: by the sizes of its pieces' targets.
ghost use Rattle.std.specs.Prelude.{◌≡◌, ◌≤◌, length};
ghost use Rattle.rules.specs.Rules.{all_moves};
ghost use Rattle.position.specs.Keyed.{board_of};
ghost use Rattle.position.specs.Refusals.{placing_with};
ghost use Rattle.position_moves.specs.InPosition.{MoversOf};
ghost use Rattle.move_list.specs.Lists.{room};
ghost use Rattle.move_list.specs.Counting.{man_count};

use super::promoting::{OUTER_RANKS, is_pawn};
use board::size;
use position::Position;
use position_moves::Movers;
use rules::Piece;

// How many moves a man's targets make: where a pawn promotes there are four.
fn man_count(slot: Option<Piece>, targets: u64) -> u32
    requires { man_count slot targets ≤ room }
    ensures { result ≡ man_count slot targets }
{
    if targets == 0 {
        return 0;
    }
    if is_pawn(slot) {
        return size(targets) + 3 * size(targets & OUTER_RANKS);
    }
    size(targets)
}

// A sum does not care for the order of the pieces.
pub fn placed_count(p: Position, all: Movers) -> u8
    requires { (placing_with p ≡ 0) × MoversOf p all }
    ensures { result ≡ length (all_moves (board_of p)) }
{
    let first = p.first;
    let second = p.second;
    (size(all.king) + man_count(first, all.first) + man_count(second, all.second)) as u8
}
