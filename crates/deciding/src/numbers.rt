// The legal position at a number.
ghost use Rattle.std.specs.Prelude.{◌≡◌, ◌<◌, T};
ghost use Rattle.numbering.specs.declared.Material.{Material};
ghost use Rattle.numbering.specs.Material.{known, given, size_of};
ghost use Rattle.position.specs.Posed.{material_for};
ghost use Rattle.index.specs.Seats.{StandsAt};
ghost use Rattle.four_men.specs.Reading.{legal_number_of};
ghost use Rattle.deciding.specs.Deciding.{StandingFor};
ghost use Rattle.deciding.specs.Rows.{RowOf};

use super::PAWN;
use super::rows::in_row;
use index::is_used;
use movegen::checked;
use pawn_moves::{is_pawn_legal, pawn_seat};
use position::{Men, Place, other};
use successors::legal_at as legal_of_pieces;

// King and pawn.
fn legal_of_pawn(n: u32) -> Option<Place>
    ensures { (m : Men) → material_for m ≡ Material.Pawn → StandingFor m n result }
{
    let q = pawn_seat(n);
    if !is_pawn_legal(q) {
        return None;
    }
    Some(q)
}

// Whether the number is used and its position legal, by what stands there.
pub fn is_legal_on(m: Men, q: Place, n: u32) -> bool
    ensures { StandsAt m n q → result ≡ legal_number_of (material_for m) n }
{
    if !is_used(m, q, n) {
        return false;
    }
    !checked(m, q, other(q.side))
}

// The place at the number, if the number is used and its position legal.
pub fn legal_at(m: Men, n: u32) -> Option<Place>
    ensures { T (given (material_for m)) → m.colour < 2 → n < size_of (material_for m) → StandingFor m n result }
{
    if m.first == PAWN {
        return legal_of_pawn(n);
    }
    legal_of_pieces(m, n)
}

// The same as `legal_at`, of pieces by the place at the first number of the row.
pub fn legal_in(m: Men, row: Place, n: u32) -> Option<Place>
    ensures { T (given (material_for m)) → (T (known (material_for m)) → RowOf m n row) → StandingFor m n result }
{
    if m.first == PAWN {
        return legal_of_pawn(n);
    }
    let q = in_row(m, row, n);
    if !is_used(m, q, n) {
        return None;
    }
    if checked(m, q, other(q.side)) {
        return None;
    }
    Some(q)
}

// Whether there is one.
// As successors has it for pieces alone: the same two arms over another answer.
pub fn is_legal_number(m: Men, n: u32) -> bool
    ensures { T (given (material_for m)) → m.colour < 2 → n < size_of (material_for m) → result ≡ legal_number_of (material_for m) n }
{
    let standing = legal_at(m, n);
    match standing {
        Some(_) => true,
        None => false,
    }
}
