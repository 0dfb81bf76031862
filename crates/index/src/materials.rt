// Materials: whether there is such an ending, how many numbers it has, and its men.
ghost use Rattle.std.specs.Prelude.{◌≡◌, ◌<◌, T};
ghost use Rattle.numbering.specs.Material.{known, given, size_of};
ghost use Rattle.position.specs.Posed.{material_for};

use super::pawns::pawn_men;
use numbering::Material;
use position::Men;

// Whether there is such an ending of pieces.
pub fn is_known(m: Material) -> bool
    ensures { result ≡ known m }
{
    match m {
        Material::One(kind) => kind < 4,
        Material::Two(first, second, _) => (first <= second) & (second < 4),
        Material::Pawn => false,
    }
}

// Whether there is such an ending: of pieces, or king and pawn.
pub fn is_given(m: Material) -> bool
    ensures { result ≡ given m }
{
    match m {
        Material::One(_) => is_known(m),
        Material::Two(_, _, _) => is_known(m),
        Material::Pawn => true,
    }
}

// How many numbers it has: its table's bytes.
pub fn size_of(m: Material) -> u32
    ensures { result ≡ size_of m }
{
    match m {
        Material::One(_) => 59136,
        Material::Two(_, _, _) => 3784704,
        Material::Pawn => 196608,
    }
}

// Its men.
pub fn men_of(m: Material) -> Men
    ensures { T (given m) → (material_for result ≡ m) × (result.colour < 2) }
{
    match m {
        Material::One(kind) => Men {
            first: kind,
            second: 4,
            colour: 0,
        },
        Material::Two(first, second, rivals) => Men {
            first,
            second,
            colour: u8::from(rivals),
        },
        Material::Pawn => pawn_men(),
    }
}
