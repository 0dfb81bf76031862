// The walk from a square in one direction, and attack by walks.
ghost use Rattle.std.specs.Prelude.{◌≡◌, ◌-◌};
ghost use Rattle.finite.specs.Members.{any};
ghost use Rattle.finite.specs.Numbers.{numbers};
ghost use Rattle.board.specs.Reach.{reaches};
ghost use Rattle.board.specs.Walk.{walk_of, meets_first};
ghost use Rattle.board.specs.Sets.{has as holds};

use super::empty_board::on_empty;
use super::sets::{has, lowest, with};
use super::steps::{ends_of, step_at, stepped};

// The first occupied square after `from` in one direction; none where the edge comes first. The rook's directions are 0 to 3, the bishop's 4 to 7.
// A loop: a step at a time, and how many is not known before.
pub fn walk(occ: u64, from: u8, direction: u8) -> Option<u8>
    ensures { result ≡ walk_of (holds occ) from direction }
{
    if 64 <= from {
        return None;
    }
    if 8 <= direction {
        return None;
    }
    let step = step_at(direction);
    let ends = ends_of(step);
    let mut at: u64 = 1 << from;
    loop {
        at = stepped(at, step, ends);
        if at == 0 {
            break None;
        }
        if at & occ != 0 {
            break Some(lowest(at));
        }
    }
}

// Whether a walk in one of the directions `first` up to `end` meets t first. An empty t counts as occupied: a line may end there too.
fn meets(occ: u64, from: u8, first: u8, end: u8, t: u8) -> bool
    ensures { result ≡ any (meets_first (holds occ) from t) (numbers (end - first) first) }
{
    let standing = with(occ, t);
    for direction in first..end {
        if walk(standing, from, direction) == Some(t) {
            return true;
        }
    }
    false
}

// Whether a piece of this kind on `from` attacks t: queen 0, rook 1, bishop 2, knight 3, king 5.
// A queen, rook or bishop does if one of its walks meets t first; nothing stands in the way of a single step.
pub fn attacks(occ: u64, kind: u8, from: u8, t: u8) -> bool
    ensures { result ≡ reaches (holds occ) kind from t }
{
    if !has(on_empty(kind, from), t) {
        return false;
    }
    match kind {
        0 => meets(occ, from, 0, 8, t),
        1 => meets(occ, from, 0, 4, t),
        2 => meets(occ, from, 4, 8, t),
        _ => true,
    }
}
