// A pass that works back: what it settles has a move to a position of the depth before, so that moves taken back from those positions find it.
ghost use Rattle.std.specs.Prelude.{◌≡◌, ◌<◌, T, length};
ghost use Rattle.table_theory.specs.Tables.{passed};
ghost use Rattle.table_theory.specs.Steps.{settled_by};
ghost use Rattle.rules.specs.Chess.{chess};
ghost use Rattle.numbering.specs.Material.{known};
ghost use Rattle.position.specs.Posed.{material_for};
ghost use Rattle.working_back.specs.Admitted.{over, Admitted};
ghost use Rattle.working_back.specs.Trying.{Alive};
ghost use Rattle.working_back.specs.Back.{Backwards, SweepsOwn};

use super::captures::pass_captures;
use super::finding::next_at;
use super::into::try_into;
use index::place_at;
use position::Men;

// Tries back from all numbers of this table that hold depth k - 1: a byte other than 0 stands at a legal number, so that the place there is at hand.
fn pass_own(m: Men, k: u8, first: &[u8], second: &[u8], table: &mut [u8]) -> u32
    requires { (0 < k) × (k < 254) × Admitted m first.now second.now table.old × T (known (material_for m)) × Alive chess (over m first.now second.now) table.old }
    ensures { SweepsOwn m first.now second.now k (length table.old) table.old table.new result }
{
    let byte = 1 + k;
    let mut settled: u32 = 0;
    let mut j = next_at(byte, 0, &*table);
    // No iterator: the table that is searched is written between.
    while j < table.len() {
        let q = place_at(m, j as u32);
        settled += try_into(m, k, q, 0, first, second, &mut *table);
        j = next_at(byte, j + 1, &*table);
    }
    settled
}

// Pass k, working back from the numbers that hold depth k - 1, in the lent tables and in this one.
pub fn pass_back(m: Men, k: u8, first: &[u8], second: &[u8], table: &mut [u8]) -> u32
    requires { (0 < k) × (k < 254) × Admitted m first.now second.now table.old × Backwards m first.now second.now k table.old }
    ensures { (result ≡ settled_by chess (over m first.now second.now) k table.old) × (table.new ≡ passed chess (over m first.now second.now) k table.old) }
{
    let a = pass_captures(m, k, first, second, &mut *table);
    let b = pass_own(m, k, first, second, &mut *table);
    a + b
}
