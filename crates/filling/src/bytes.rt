// The table's bytes before the first pass, and where a depth is too great for a byte.
ghost use Rattle.std.specs.Prelude.{◌≡◌, ℕ, ◌<◌, length, T};
ghost use Rattle.finite.specs.Mapped.{map_from};
ghost use Rattle.table_theory.specs.Tables.{start_byte};
ghost use Rattle.rules.specs.Chess.{chess};
ghost use Rattle.numbering.specs.Material.{known, given, size_of};
ghost use Rattle.position.specs.Posed.{material_for};
ghost use Rattle.four_men.specs.Reading.{numbered};
ghost use Rattle.four_men.specs.Steps.{nothing};

use board::has;
use deciding::{PAWN, is_legal_number, legal_row_at};
use position::Men;

// 1 at each legal position's number, 0 elsewhere.
pub fn start(m: Men, table: &mut [u8])
    requires { T (given (material_for m)) × (m.colour < 2) × (length table.old ≡ size_of (material_for m)) }
    ensures { table.new ≡ map_from (start_byte chess (numbered (material_for m) nothing)) 0 table.old }
{
    if m.first == PAWN {
        return start_each(m, &mut *table);
    }
    start_rows(m, &mut *table)
}

// Each number asked by itself.
fn start_each(m: Men, table: &mut [u8])
    requires { T (given (material_for m)) × (m.colour < 2) × (length table.old ≡ size_of (material_for m)) }
    ensures { table.new ≡ map_from (start_byte chess (numbered (material_for m) nothing)) 0 table.old }
{
    for n in 0..table.len() {
        table[n] = u8::from(is_legal_number(m, n as u32));
    }
}

// Pieces, by one set for each row of numbers.
fn start_rows(m: Men, table: &mut [u8])
    requires { T (known (material_for m)) × (m.colour < 2) × (length table.old ≡ size_of (material_for m)) }
    ensures { table.new ≡ map_from (start_byte chess (numbered (material_for m) nothing)) 0 table.old }
{
    let mut legal: u64 = 0;
    for n in 0..table.len() {
        legal = legal_row_at(m, legal, n as u32);
        table[n] = u8::from(has(legal, (n % 64) as u8));
    }
}

// All zero.
pub fn clear(table: &mut [u8])
    ensures { table.new ≡ map_from (λ (n b : ℕ). 0) 0 table.old }
{
    table.fill(0);
}
