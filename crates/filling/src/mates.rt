// The mates: pass 0, which settles numbers only where the side to move is in check.
ghost use Rattle.std.specs.Prelude.{◌≡◌, ◌<◌, T, length};
ghost use Rattle.table_theory.specs.Tables.{passed};
ghost use Rattle.table_theory.specs.Steps.{settled_by};
ghost use Rattle.rules.specs.Chess.{chess};
ghost use Rattle.numbering.specs.Material.{known};
ghost use Rattle.position.specs.Posed.{material_for};
ghost use Rattle.deciding.specs.Rows.{MateRow};
ghost use Rattle.working_back.specs.Admitted.{over, Admitted};
ghost use Rattle.filling.specs.Settling.{Settle};

use super::pass::{pass, settles};
use board::has;
use deciding::{PAWN, checked_row_at};
use position::Men;

// Settles the number if it is a mate; 1 if it did, and else 0. Where the last man's square is not in the row's set, it
// is none.
fn settle_checked(
    m: Men,
    squares: u64,
    n: usize,
    first: &[u8],
    second: &[u8],
    table: &mut [u8],
) -> u32
    requires { (n < length table.old) × Admitted m first.now second.now table.old × MateRow m n squares }
    ensures { Settle chess (over m first.now second.now) 0 table.old n result table.new }
{
    if !has(squares, (n % 64) as u8) {
        return 0;
    }
    if !settles(m, 0, n, first, second, &*table) {
        return 0;
    }
    table[n] = 2;
    1
}

// Of pieces.
fn mates_in_rows(m: Men, first: &[u8], second: &[u8], table: &mut [u8]) -> u32
    requires { T (known (material_for m)) × Admitted m first.now second.now table.old }
    ensures { (result ≡ settled_by chess (over m first.now second.now) 0 table.old) × (table.new ≡ passed chess (over m first.now second.now) 0 table.old) }
{
    let mut squares: u64 = 0;
    let mut settled: u32 = 0;
    for n in 0..table.len() {
        squares = checked_row_at(m, squares, n as u32);
        settled += settle_checked(m, squares, n, first, second, &mut *table);
    }
    settled
}

// Pass 0, in place; how many numbers it settled.
pub fn mates(m: Men, first: &[u8], second: &[u8], table: &mut [u8]) -> u32
    requires { Admitted m first.now second.now table.old }
    ensures { (result ≡ settled_by chess (over m first.now second.now) 0 table.old) × (table.new ≡ passed chess (over m first.now second.now) 0 table.old) }
{
    if m.first == PAWN {
        return pass(m, 0, first, second, &mut *table);
    }
    mates_in_rows(m, first, second, &mut *table)
}
