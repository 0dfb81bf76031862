// Move lists: an empty one, moves added to one, and all moves of a position.
ghost use Rattle.std.specs.Prelude.{◌≡◌, [], ◌∷◌, map, ◌+◌, ◌≤◌, ◌<◌, length};
ghost use Rattle.board.specs.Sets.{members};
ghost use Rattle.rules.specs.Rules.{promotion_of, all_moves};
ghost use Rattle.position.specs.Keyed.{board_of};
ghost use Rattle.move_list.specs.Lists.{room, list_of};
ghost use Rattle.move_list.specs.ListLaws.{appended, targets_moves};

use super::promoting::promoting_set;
use super::{MoveList, ROOM};
use board::{has, squares_of};
use position::{Position, own};
use position_moves::{legal_targets, taking_set};
use rules::{Move, ZERO_MOVE, move_of, promotion_of};

pub fn no_moves() -> MoveList
    ensures { result ≡ list_of [] }
{
    MoveList {
        moves: [ZERO_MOVE; ROOM],
        count: 0,
    }
}

impl MoveList {
    // One move added.
    fn push(&mut self, m: Move)
        requires { self.old.count < room }
        ensures { self.new ≡ appended self.old (m ∷ []) }
    {
        self.moves[self.count as usize] = m;
        self.count += 1;
    }

    // A pawn's four promotions added: queen, rook, bishop, knight.
    fn push_promotions(&mut self, from: u8, to: u8, takes: bool)
        requires { self.old.count + 4 ≤ room }
        ensures { self.new ≡ appended self.old (map (promotion_of from to takes) (1 ∷ 2 ∷ 3 ∷ 4 ∷ [])) }
    {
        self.push(promotion_of(from, to, takes, 1));
        self.push(promotion_of(from, to, takes, 2));
        self.push(promotion_of(from, to, takes, 3));
        self.push(promotion_of(from, to, takes, 4));
    }

    // The moves from a square to each of the targets added, in rising order: those to a square of `foes` take, and those
    // to one of `ends` are promotions.
    fn push_targets(&mut self, foes: u64, ends: u64, from: u8, targets: u64)
        requires { self.old.count + length (targets_moves foes ends from (members targets)) ≤ room }
        ensures { self.new ≡ appended self.old (targets_moves foes ends from (members targets)) }
    {
        for to in squares_of(targets) {
            let takes = has(foes, to);
            if has(ends, to) {
                self.push_promotions(from, to, takes);
            } else {
                self.push(move_of(from, to, takes));
            }
        }
    }
}

// All moves of a position, bare kings or not.
pub fn moves_of(p: Position) -> MoveList
    ensures { result ≡ list_of (all_moves (board_of p)) }
{
    let foes = taking_set(p);
    let mut list = no_moves();
    for from in squares_of(own(p, p.side)) {
        list.push_targets(foes, promoting_set(p, from), from, legal_targets(p, from));
    }
    list
}
