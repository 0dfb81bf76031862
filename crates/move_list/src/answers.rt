// The move list and the count of moves.
ghost use Rattle.std.specs.Prelude.{◌≡◌, length};
ghost use Rattle.rules.specs.Rules.{all_moves};
ghost use Rattle.position.specs.Keyed.{board_of};
ghost use Rattle.move_list.specs.Answers.{listed_as, listed, Counts};
ghost use Rattle.desk_refusals.specs.Numbers.{by_number};

use super::MoveList;
use super::counting::placed_count;
use super::lists::moves_of;
use super::promoting::promoting_set;
use board::{size, squares_of};
use desk_refusals::Refusal;
use position::{Position, own, placing_with, standing_with};
use position_moves::{legal_targets, movers_of};

// How many moves there are, bare kings or not.
pub fn count_of(p: Position) -> u8
    ensures { result ≡ length (all_moves (board_of p)) }
{
    let mut count: u32 = 0;
    for from in squares_of(own(p, p.side)) {
        let targets = legal_targets(p, from);
        let ends = promoting_set(p, from);
        count += size(targets) + 3 * size(targets & ends); // where it promotes there are four
    }
    count as u8
}

// The legal moves, or a refusal from 1 to 6.
pub fn legal_moves(p: Position) -> Result<MoveList, Refusal>
    ensures { listed_as result ≡ listed p }
{
    standing_with(p)?;
    Ok(moves_of(p))
}

// Their count, or a refusal from 1 to 6: the sixth by the same sets that are counted. Before the refusals they are
// found more quickly than after them.
pub fn move_count(p: Position) -> Result<u8, Refusal>
    ensures { Counts p (by_number result) }
{
    let all = movers_of(p);
    placing_with(p)?;
    if all.check {
        return Err(Refusal::OtherInCheck);
    }
    Ok(placed_count(p, all))
}
