// The ways of a pass: over the halves that may settle a number, back from the numbers just settled, or over every number.
ghost use Rattle.std.specs.Prelude.{◌≡◌, ◌<◌};
ghost use Rattle.table_theory.specs.Tables.{passed};
ghost use Rattle.table_theory.specs.Steps.{settled_by};
ghost use Rattle.rules.specs.Chess.{chess};
ghost use Rattle.working_back.specs.Admitted.{over, Admitted};
ghost use Rattle.working_back.specs.Back.{Backwards};

use super::mates::mates;
use super::pass::{pass, pass_halves};
use position::Men;
use working_back::pass_back;

// How a pass finds what it settles.
#[derive(Clone, Copy)]
pub enum Way {
    Passes,
    Back,
    Every,
}

// Pass k in the way chosen; how many numbers it settled.
pub fn pass_in(way: Way, m: Men, k: u8, first: &[u8], second: &[u8], table: &mut [u8]) -> u32
    requires { (k < 254) × Admitted m first.now second.now table.old × (way ≡ Way.Back → Backwards m first.now second.now k table.old) }
    ensures { (result ≡ settled_by chess (over m first.now second.now) k table.old) × (table.new ≡ passed chess (over m first.now second.now) k table.old) }
{
    match way {
        Way::Every => pass_halves(true, true, m, k, first, second, &mut *table),
        // Mates have no depth before theirs.
        _ if k == 0 => mates(m, first, second, &mut *table),
        Way::Passes => pass(m, k, first, second, &mut *table),
        Way::Back => pass_back(m, k, first, second, &mut *table),
    }
}
