// What every part for one man and for two asks: whether the lent lengths fit, and which ending some men are.
#![tactic(auto)]

ghost use Rattle.std.specs.Prelude.{◌≡◌};
ghost use Rattle.position.specs.Posed.{material_for};
ghost use Rattle.four_men.specs.Lending.{lent};
ghost use Rattle.four_men.specs.Answers.{lengths_fit};

use index::TABLE_SIZE;
use numbering::Material;
use pawn_numbers::PAWN_SIZE;
use position::Men;

// The length of a table with two men.
pub const LARGE_SIZE: usize = 3784704;

// The length of the four tables that a pawn's ending borrows.
pub const FOUR_TABLES: usize = 236544;

// Whether the ending's table has its length, and the lent ones theirs.
pub fn lengths_fit(m: Material, table: &[u8], first: &[u8], second: &[u8]) -> bool
    ensures { result ≡ lengths_fit m (lent first.now second.now) table.now }
{
    match m {
        Material::One(_) => table.len() == TABLE_SIZE,
        Material::Two(_, _, _) => {
            (table.len() == LARGE_SIZE)
                & ((first.len() == TABLE_SIZE) & (second.len() == TABLE_SIZE))
        },
        Material::Pawn => (table.len() == PAWN_SIZE) & (first.len() == FOUR_TABLES),
    }
}

// The ending of these men.
pub fn material_for(m: Men) -> Material
    ensures { result ≡ material_for m }
{
    if 4 <= m.second {
        if m.first == 4 {
            return Material::Pawn;
        }
        return Material::One(m.first);
    }
    Material::Two(m.first, m.second, m.colour == 1)
}
