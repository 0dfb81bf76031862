// The number of a position and the position of a number, with one man or with two, or with a pawn.
ghost use Rattle.std.specs.Prelude.{◌≡◌, ◌<◌, T};
ghost use Rattle.numbering.specs.Material.{given, material_in, size_of};
ghost use Rattle.position.specs.Keyed.{board_of};
ghost use Rattle.position.specs.Posed.{material_for};
ghost use Rattle.position.specs.Refusals.{placing_with};
ghost use Rattle.index.specs.Answers.{number_with, found_at, placed_with};
ghost use Rattle.index.specs.Endings.{number_in};
ghost use Rattle.desk_refusals.specs.Numbers.{by_number};

use super::arranging::arrange;
use super::least::number_listed;
use super::materials::{is_given, men_of, size_of};
use super::pawns::pawn_found;
use super::place::{is_used, place_at};
use desk_refusals::Refusal;
use numbering::Material;
use pawn_numbers::{pawn_key, pawn_normal};
use position::{Men, Position, man_in, placing_with, posed};

// The number of a position that only refusal 6 may meet.
pub fn placed_number(p: Position) -> u32
    ensures { placing_with p ≡ 0 → result ≡ number_in (material_in (board_of p).men) (board_of p) }
{
    let first = p.first;
    let man = man_in(first);
    if man.kind == 4 {
        let normal = pawn_normal(man.colour, p.side, p.white_king, p.black_king, man.square);
        return pawn_key(normal.place);
    }
    let a = arrange(p);
    number_listed(a.men, a.place)
}

// The number of a position.
pub fn number_with(p: Position) -> Result<u32, Refusal>
    ensures { by_number result ≡ number_with p }
{
    placing_with(p)?;
    Ok(placed_number(p))
}

// What stands at a number of an ending, if the number is used.
fn found_at(men: Men, n: u32) -> Result<Position, Refusal>
    ensures { T (given (material_for men)) → men.colour < 2 → n < size_of (material_for men) → by_number result ≡ found_at (material_for men) n }
{
    if men.first == 4 {
        return pawn_found(n);
    }
    let q = place_at(men, n);
    if !is_used(men, q, n) {
        return Err(Refusal::NumberUnused);
    }
    Ok(posed(men, q))
}

// The position of a number.
pub fn position_with(m: Material, n: u32) -> Result<Position, Refusal>
    ensures { by_number result ≡ placed_with m n }
{
    if !is_given(m) {
        return Err(Refusal::BadMan);
    }
    if size_of(m) <= n {
        return Err(Refusal::NumberTooHigh);
    }
    found_at(men_of(m), n)
}
