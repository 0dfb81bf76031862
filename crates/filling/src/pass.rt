// One pass: the numbers that hold 1 and whose successors' bytes require depth k.
ghost use Rattle.std.specs.Prelude.{◌≡◌, ◌<◌, length};
ghost use Rattle.table_theory.specs.Tables.{settles as settles_of, some_settles, passed};
ghost use Rattle.table_theory.specs.Steps.{settled_by};
ghost use Rattle.rules.specs.Chess.{chess};
ghost use Rattle.working_back.specs.Admitted.{over, Admitted};
ghost use Rattle.filling.specs.Quiet.{QuietHalves, QuietOutside};

use super::halves::{black_may, end_of, first_of, white_may};
use super::turns::settle;
use deciding::{requires_at, row_at};
use index::place_at;
use position::Men;

// Whether pass k settles the number.
pub fn settles(m: Men, k: u8, n: usize, first: &[u8], second: &[u8], table: &[u8]) -> bool
    requires { (n < length table.now) × Admitted m first.now second.now table.now }
    ensures { result ≡ settles_of chess (over m first.now second.now) k table.now n }
{
    if table[n] != 1 {
        return false;
    }
    requires_at(m, n as u32, k, table, first, second)
}

// Pass k, in place, over the numbers from `from` on, below `to`: it settles no other. How many it settled.
fn pass_over(
    m: Men,
    k: u8,
    from: usize,
    to: usize,
    first: &[u8],
    second: &[u8],
    table: &mut [u8],
) -> u32
    requires { (k < 254) × Admitted m first.now second.now table.old × QuietOutside (over m first.now second.now) k table.old from to }
    ensures { (result ≡ settled_by chess (over m first.now second.now) k table.old) × (table.new ≡ passed chess (over m first.now second.now) k table.old) }
{
    let mut row = place_at(m, (from / 64 * 64) as u32);
    let mut settled: u32 = 0;
    for n in from..to {
        row = row_at(m, row, n as u32);
        settled += settle(m, row, k, n, first, second, &mut *table);
    }
    settled
}

// Pass k, in place, over the halves that may hold a number it settles; how many it settled.
pub fn pass_halves(
    white: bool,
    black: bool,
    m: Men,
    k: u8,
    first: &[u8],
    second: &[u8],
    table: &mut [u8],
) -> u32
    requires { (k < 254) × Admitted m first.now second.now table.old × QuietHalves m first.now second.now k table.old white black }
    ensures { (result ≡ settled_by chess (over m first.now second.now) k table.old) × (table.new ≡ passed chess (over m first.now second.now) k table.old) }
{
    let size = table.len();
    let from = first_of(white, size / 2);
    let to = end_of(black, size / 2, size);
    pass_over(m, k, from, to, first, second, &mut *table)
}

// Pass k, in place; how many numbers it settled.
pub fn pass(m: Men, k: u8, first: &[u8], second: &[u8], table: &mut [u8]) -> u32
    requires { (k < 254) × Admitted m first.now second.now table.old }
    ensures { (result ≡ settled_by chess (over m first.now second.now) k table.old) × (table.new ≡ passed chess (over m first.now second.now) k table.old) }
{
    let white = white_may(m, k, first, second, &*table);
    let black = black_may(m, k, first, second, &*table);
    pass_halves(white, black, m, k, first, second, &mut *table)
}

// Whether pass k would settle a number.
pub fn some_settles(m: Men, k: u8, first: &[u8], second: &[u8], table: &[u8]) -> bool
    requires { Admitted m first.now second.now table.now }
    ensures { result ≡ some_settles chess (over m first.now second.now) k table.now }
{
    for n in 0..table.len() {
        if settles(m, k, n, first, second, table) {
            return true;
        }
    }
    false
}
