// The positions that have a move to this one: k odd they are won, k even lost where their other moves say so.
ghost use Rattle.std.specs.Prelude.{◌<◌};
ghost use Rattle.rules.specs.Chess.{chess};
ghost use Rattle.retracting.specs.Retracting.{LegalLeft};
ghost use Rattle.working_back.specs.Admitted.{over, Admitted};
ghost use Rattle.working_back.specs.Trying.{Alive};
ghost use Rattle.working_back.specs.Back.{TriesInto};

use super::losses::lose_into;
use super::wins::win_into;
use position::{Men, Place};

// Tries the positions that have a move to this one, which takes this man or none: 1 the first, 2 the second, 0 none.
pub fn try_into(
    m: Men,
    k: u8,
    q: Place,
    taken: u8,
    first: &[u8],
    second: &[u8],
    table: &mut [u8],
) -> u32
    requires { (0 < k) × (k < 254) × Admitted m first.now second.now table.old × LegalLeft m q taken × Alive chess (over m first.now second.now) table.old }
    ensures { TriesInto m first.now second.now k q table.old table.new result }
{
    if k % 2 == 1 {
        return win_into(m, k, q, taken, first, second, &mut *table);
    }
    lose_into(m, k, q, taken, first, second, &mut *table)
}
