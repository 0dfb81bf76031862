// Whether the position at a number is legal and a depth required of it.
ghost use Rattle.std.specs.Prelude.{◌≡◌, ◌+◌, ◌<◌, T, eqb};
ghost use Rattle.theory.specs.Required.{required_at};
ghost use Rattle.rules.specs.Chess.{chess};
ghost use Rattle.numbering.specs.Material.{known, given, size_of};
ghost use Rattle.position.specs.Posed.{material_for, board_in, Complete};
ghost use Rattle.successors.specs.Successors.{bytes_in};
ghost use Rattle.deciding.specs.Deciding.{required_of};

use super::PAWN;
use super::numbers::legal_at;
use super::verdicts::requires_depth;
use index::{place_at, shares};
use position::{Men, Place};
use successors::{
    is_legal_number as is_legal_of_pieces, requires_byte as pieces_require_byte,
    requires_depth as pieces_require,
};

// Of pieces on a place. Only for mate is a check asked for.
pub fn requires_on(m: Men, q: Place, k: u8, table: &[u8], first: &[u8], second: &[u8]) -> bool
    ensures { Complete m q → result ≡ eqb (required_at chess (bytes_in m first.now second.now table.now) (board_in m q)) (2 + k) }
{
    if k == 0 {
        return pieces_require(m, q, k, table, first, second);
    }
    pieces_require_byte(m, q, 2 + k as u16, table, first, second)
}

// Of pieces. Whether the number is used and its position legal is asked last, of the few of which the depth is required.
fn pieces_at(m: Men, n: u32, k: u8, table: &[u8], first: &[u8], second: &[u8]) -> bool
    ensures { T (known (material_for m)) → m.colour < 2 → n < size_of (material_for m) → result ≡ required_of m first.now second.now table.now k n }
{
    let q = place_at(m, n);
    if shares(q) {
        return false;
    }
    if !requires_on(m, q, k, table, first, second) {
        return false;
    }
    is_legal_of_pieces(m, n)
}

// Of king and pawn.
fn pawn_at(m: Men, n: u32, k: u8, table: &[u8], first: &[u8], second: &[u8]) -> bool
    ensures { T (given (material_for m)) → m.colour < 2 → n < size_of (material_for m) → result ≡ required_of m first.now second.now table.now k n }
{
    let standing = legal_at(m, n);
    match standing {
        Some(q) => requires_depth(m, q, k, table, first, second),
        None => false,
    }
}

// Of any ending.
pub fn requires_at(m: Men, n: u32, k: u8, table: &[u8], first: &[u8], second: &[u8]) -> bool
    ensures { T (given (material_for m)) → m.colour < 2 → n < size_of (material_for m) → result ≡ required_of m first.now second.now table.now k n }
{
    if m.first == PAWN {
        return pawn_at(m, n, k, table, first, second);
    }
    pieces_at(m, n, k, table, first, second)
}
