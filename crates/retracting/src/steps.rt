// The squares that a piece goes back to, whether the position before was legal or not: for a caller who reads that elsewhere, they are told more quickly.
ghost use Rattle.std.specs.Prelude.{◌≡◌, ◌-◌};
ghost use Rattle.board.specs.Sets.{set_of};
ghost use Rattle.rules.specs.Rules.{occupied};
ghost use Rattle.position.specs.Posed.{board_in};
ghost use Rattle.retracting.specs.Retracting.{Seat, LegalLeft, StepsBack};

use super::places::loser;
use board::{minus, targets};
use movegen::king_at;
use position::{Men, Place};

const KING: u8 = 5;

// The free squares that the piece of this kind on `to` goes back to over what stands there, `occ`, taking this man of the other side's back or none; a
// king keeps away from the other.
pub fn steps_back(m: Men, q: Place, taken: u8, kind: u8, to: u8, occ: u64) -> u64
    ensures { occ ≡ set_of (occupied (board_in m q)) → LegalLeft m q taken → Seat m q kind (1 - q.side) to → StepsBack m q taken to result }
{
    if (taken != 0) & (loser(m, taken) != q.side) {
        return 0;
    }
    let free = minus(targets(occ, kind, to), occ);
    if kind != KING {
        return free;
    }
    minus(free, targets(0, KING, king_at(q, q.side)))
}
