// Rows of 64 numbers: in one only the last man's square differs, so that the kings are found once.
ghost use Rattle.std.specs.Prelude.{◌≡◌, ◌%◌, ◌<◌, T};
ghost use Rattle.numbering.specs.Material.{known, size_of};
ghost use Rattle.position.specs.Posed.{material_for};
ghost use Rattle.index.specs.Seats.{StandsAt};
ghost use Rattle.deciding.specs.Rows.{RowOf, with_last};

use index::place_at;
use position::{Men, Place};

// The place at the first number of a row: found anew there, and kept within the row.
pub fn row_at(m: Men, row: Place, n: u32) -> Place
    ensures { T (known (material_for m)) → m.colour < 2 → n < size_of (material_for m) → ((n % 64 ≡ 0 → ⊥) → RowOf m n row) → RowOf m n result }
{
    if n % 64 == 0 {
        return place_at(m, n);
    }
    row
}

// The row's place with the last man on a square; on 64 he is off the board.
pub fn with_last(m: Men, row: Place, s: u8) -> Place
    ensures { result ≡ with_last m row s }
{
    if 4 <= m.second {
        return Place { first: s, ..row };
    }
    Place { second: s, ..row }
}

// What stands at a number of the row.
pub fn in_row(m: Men, row: Place, n: u32) -> Place
    ensures { RowOf m n row → StandsAt m n result }
{
    with_last(m, row, (n % 64) as u8)
}
