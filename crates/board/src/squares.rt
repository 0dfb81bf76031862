// The squares of a set as an iterator, in rising order.
ghost use Rattle.std.specs.Prelude.{◌≡◌};
ghost use Rattle.std.specs.Iterator.{YieldsFirst, item_count};
ghost use Rattle.board.specs.Sets.{members};

use super::sets::{beyond_lowest, lowest};

// The squares of a set that are left to come.
#[derive(Clone, Copy)]
pub struct Squares {
    left: u64,
}

// The squares of the set.
pub fn squares_of(set: u64) -> Squares
    ensures { result.left ≡ set }
{
    Squares { left: set }
}

impl Iterator for Squares {
    type Item = u8;

    ghost next_gives = { YieldsFirst (λ s. members s.left) };

    ghost remaining = { item_count (λ s. members s.left) };

    fn next(&mut self) -> Option<u8> {
        if self.left == 0 {
            return None;
        }
        let s = lowest(self.left);
        self.left = beyond_lowest(self.left);
        Some(s)
    }
}
