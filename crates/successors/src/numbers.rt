// The legal position at a number: filling and checking ask for it here.
ghost use Rattle.std.specs.Prelude.{◌≡◌, ◌<◌, T};
ghost use Rattle.numbering.specs.Material.{known, size_of};
ghost use Rattle.position.specs.Posed.{material_for};
ghost use Rattle.four_men.specs.Reading.{legal_number_of};
ghost use Rattle.successors.specs.Successors.{StandingAt};

use index::{is_used, place_at};
use movegen::checked;
use position::{Men, Place, other};

// The place at the number, if the number is used and its position legal.
pub fn legal_at(m: Men, n: u32) -> Option<Place>
    ensures { T (known (material_for m)) → m.colour < 2 → n < size_of (material_for m) → StandingAt m n result }
{
    let q = place_at(m, n);
    if !is_used(m, q, n) {
        return None;
    }
    if checked(m, q, other(q.side)) {
        return None;
    }
    Some(q)
}

// Whether there is one.
pub fn is_legal_number(m: Men, n: u32) -> bool
    ensures { T (known (material_for m)) → m.colour < 2 → n < size_of (material_for m) → result ≡ legal_number_of (material_for m) n }
{
    let standing = legal_at(m, n);
    match standing {
        Some(_) => true,
        None => false,
    }
}
