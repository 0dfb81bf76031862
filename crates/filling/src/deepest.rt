// The greatest byte of the lent tables: a pass that settles none is no end while one of them holds as great a depth.
ghost use Rattle.std.specs.Prelude.{◌≡◌, T, length};
ghost use Rattle.numbering.specs.declared.Material.{Material};
ghost use Rattle.numbering.specs.Material.{given};
ghost use Rattle.position.specs.Posed.{material_for};
ghost use Rattle.filling.specs.Deepest.{Deepest};
ghost use Rattle.filling.specs.Greatest.{Greatest};

use deciding::PAWN;
use position::Men;

fn greatest_byte(table: &[u8]) -> u8
    ensures { Greatest table.now result }
{
    table.iter().copied().max().unwrap_or(0)
}

// 0 where nothing is lent. A pawn's four tables are one run.
pub fn deepest_lent(m: Men, first: &[u8], second: &[u8]) -> u8
    requires { T (given (material_for m)) × (material_for m ≡ Material.Pawn → length first.now ≡ 236544) }
    ensures { Deepest m first.now second.now result }
{
    if m.first == PAWN {
        return greatest_byte(first);
    }
    if 4 <= m.second {
        return 0;
    }
    greatest_byte(first).max(greatest_byte(second))
}
