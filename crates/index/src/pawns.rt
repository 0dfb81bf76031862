// A lone pawn's ending: its men, the normal place of a position, and what stands at a number.
ghost use Rattle.std.specs.Prelude.{◌≡◌};
ghost use Rattle.numbering.specs.declared.Material.{Material};
ghost use Rattle.index.specs.Answers.{found_at};
ghost use Rattle.index.specs.Arranging.{pawn_men, pawn_place, pawn_normal_as};
ghost use Rattle.desk_refusals.specs.Numbers.{by_number};

use super::NormalPlace;
use desk_refusals::Refusal;
use pawn_numbers::{PawnPlace, is_pawn_used, pawn_normal, pawn_place_at};
use position::{Map, Men, Place, Position, man_in, posed};

// The pawn is White's.
pub fn pawn_men() -> Men
    ensures { result ≡ pawn_men }
{
    Men {
        first: 4,
        second: 4,
        colour: 0,
    }
}

// Where its men stand, as a place of any ending.
pub fn pawn_place(q: PawnPlace) -> Place
    ensures { result ≡ pawn_place q }
{
    Place {
        side: q.side,
        white: q.white,
        black: q.black,
        first: q.pawn,
        second: 64,
    }
}

// The normal place of a position whose first man is a pawn, and the map that leads to it.
pub fn pawn_normal_place(p: Position) -> NormalPlace
    ensures { result ≡ pawn_normal_as p }
{
    let first = p.first;
    let man = man_in(first);
    let normal = pawn_normal(man.colour, p.side, p.white_king, p.black_king, man.square);
    let men = pawn_men();
    let place = pawn_place(normal.place);
    NormalPlace {
        men,
        place,
        via: Map {
            files: normal.files,
            ranks: normal.colours,
            swap: false,
        },
    }
}

// What stands at a number, if it is used.
pub fn pawn_found(n: u32) -> Result<Position, Refusal>
    ensures { by_number result ≡ found_at Material.Pawn n }
{
    let q = pawn_place_at(n);
    if !is_pawn_used(q) {
        return Err(Refusal::NumberUnused);
    }
    Ok(posed(pawn_men(), pawn_place(q)))
}
