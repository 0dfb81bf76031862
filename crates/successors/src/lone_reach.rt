// The legal targets where there is one man, White's: nobody gives White check, and Black has his king alone.
ghost use Rattle.std.specs.Prelude.{◌≡◌, ◌≤◌};
ghost use Rattle.position.specs.Posed.{Complete};
ghost use Rattle.successors.specs.Successors.{Reaches};

use board::{minus, one, targets};
use movegen::Reach;
use position::{Men, Place};

const KING: u8 = 5;

// White to move.
pub fn white_reach(m: Men, q: Place) -> Reach
    ensures { Complete m q → 4 ≤ m.second → q.side ≡ 0 → Reaches m q result }
{
    let own = one(q.white) | one(q.first);
    let occ = own | one(q.black);
    let free = minus(targets(0, KING, q.white), own);
    Reach {
        king: minus(free, targets(0, KING, q.black)),
        first: minus(targets(occ, m.first, q.first), own),
        second: 0,
    }
}

// Black to move: the man attacks over the kings, Black's lifted.
pub fn black_reach(m: Men, q: Place) -> Reach
    ensures { Complete m q → 4 ≤ m.second → q.side ≡ 1 → Reaches m q result }
{
    let strike = targets(one(q.white) | one(q.first), m.first, q.first);
    let free = minus(targets(0, KING, q.black), one(q.black));
    Reach {
        king: minus(free, targets(0, KING, q.white) | strike),
        first: 0,
        second: 0,
    }
}
