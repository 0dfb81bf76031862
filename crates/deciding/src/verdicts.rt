// Whether a byte, or a depth, is the one required, of any ending.
ghost use Rattle.std.specs.Prelude.{◌≡◌, ◌+◌, eqb};
ghost use Rattle.theory.specs.Required.{required_at};
ghost use Rattle.rules.specs.Chess.{chess};
ghost use Rattle.position.specs.Posed.{board_in};
ghost use Rattle.successors.specs.Successors.{bytes_in};
ghost use Rattle.deciding.specs.Deciding.{Seated};

use super::PAWN;
use super::pawn::{pawn_requires, pawn_requires_byte};
use position::{Men, Place};
use successors::{requires_byte as pieces_require_byte, requires_depth as pieces_require};

// Whether the byte is the one required of the position.
pub fn requires_byte(m: Men, q: Place, byte: u8, table: &[u8], first: &[u8], second: &[u8]) -> bool
    ensures { Seated m q → result ≡ eqb byte (required_at chess (bytes_in m first.now second.now table.now) (board_in m q)) }
{
    if m.first == PAWN {
        return pawn_requires_byte(q, byte, table, first);
    }
    pieces_require_byte(m, q, byte as u16, table, first, second)
}

// Whether the rule requires depth k of the position.
pub fn requires_depth(m: Men, q: Place, k: u8, table: &[u8], first: &[u8], second: &[u8]) -> bool
    ensures { Seated m q → result ≡ eqb (required_at chess (bytes_in m first.now second.now table.now) (board_in m q)) (2 + k) }
{
    if m.first == PAWN {
        return pawn_requires(q, k, table, first);
    }
    pieces_require(m, q, k, table, first, second)
}
