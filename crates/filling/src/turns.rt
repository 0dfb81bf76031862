// One turn of a pass: a number that holds 1 settled, if the pass settles it.
ghost use Rattle.std.specs.Prelude.{◌≡◌, ◌<◌, T, length, get_or};
ghost use Rattle.table_theory.specs.Tables.{settles as settles_of};
ghost use Rattle.rules.specs.Chess.{chess};
ghost use Rattle.numbering.specs.Material.{known};
ghost use Rattle.position.specs.Posed.{material_for};
ghost use Rattle.index.specs.Seats.{StandsAt};
ghost use Rattle.working_back.specs.Admitted.{over, Admitted};
ghost use Rattle.filling.specs.Settling.{Settle};
ghost use Rattle.deciding.specs.Rows.{RowOf};

use deciding::{PAWN, in_row, is_legal_on, requires_at, requires_on};
use index::shares;
use position::{Men, Place};

// Whether pass k settles a number that holds 1: of pieces by what stands there.
fn settles_on(m: Men, q: Place, k: u8, n: usize, first: &[u8], second: &[u8], table: &[u8]) -> bool
    requires { (n < length table.now) × Admitted m first.now second.now table.now × (get_or table.now n 0 ≡ 1) × (T (known (material_for m)) → StandsAt m n q) }
    ensures { result ≡ settles_of chess (over m first.now second.now) k table.now n }
{
    if m.first == PAWN {
        return requires_at(m, n as u32, k, table, first, second);
    }
    if shares(q) {
        return false;
    }
    if !requires_on(m, q, k, table, first, second) {
        return false;
    }
    is_legal_on(m, q, n as u32)
}

// Settles the number if pass k does; 1 if it did, and else 0. `row` is the place at its row's first number.
pub fn settle(
    m: Men,
    row: Place,
    k: u8,
    n: usize,
    first: &[u8],
    second: &[u8],
    table: &mut [u8],
) -> u32
    requires { (n < length table.old) × (k < 254) × Admitted m first.now second.now table.old × (T (known (material_for m)) → RowOf m n row) }
    ensures { Settle chess (over m first.now second.now) k table.old n result table.new }
{
    if table[n] != 1 {
        return 0;
    }
    let q = in_row(m, row, n as u32);
    if !settles_on(m, q, k, n, first, second, &*table) {
        return 0;
    }
    table[n] = 2 + k;
    1
}
