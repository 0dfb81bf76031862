// What stands at a number, and whether a byte is the one required there.
ghost use Rattle.std.specs.Prelude.{◌≡◌, T, eqb};
ghost use Rattle.table_theory.specs.Tables.{required_byte};
ghost use Rattle.rules.specs.Chess.{chess};
ghost use Rattle.numbering.specs.Material.{known};
ghost use Rattle.position.specs.Posed.{material_for};
ghost use Rattle.four_men.specs.Lending.{lent};
ghost use Rattle.four_men.specs.Reading.{numbered};
ghost use Rattle.deciding.specs.Rows.{RowOf};
ghost use Rattle.checking.specs.Right.{Numbers};

use deciding::{legal_in, requires_byte};
use position::{Men, Place};

// Whether the byte is the one required at the number; `row` is the place at its row's first number.
pub fn is_right(
    m: Men,
    row: Place,
    n: u32,
    byte: u8,
    table: &[u8],
    first: &[u8],
    second: &[u8],
) -> bool
    requires { Numbers m n × (T (known (material_for m)) → RowOf m n row) }
    ensures { result ≡ eqb byte (required_byte chess (numbered (material_for m) (lent first.now second.now)) table.now n) }
{
    let standing = legal_in(m, row, n);
    match standing {
        Some(q) => requires_byte(m, q, byte, table, first, second),
        None => byte == 0,
    }
}
