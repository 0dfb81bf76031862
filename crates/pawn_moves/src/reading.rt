// The byte of a place, and the byte after a move: in the pawn's table, or in the part of what it has become.
ghost use Rattle.std.specs.Prelude.{◌≡◌, get_or};
ghost use Rattle.finite.specs.Members.{◌∈◌};
ghost use Rattle.rules.specs.Rules.{all_moves};
ghost use Rattle.rules.specs.Chess.{played};
ghost use Rattle.pawn_numbers.specs.PawnNumber.{pawn_number};
ghost use Rattle.pawn_moves.specs.PawnMoves.{pawn_at, PawnOn, kind_part, pawn_bytes};

use index::{TABLE_SIZE, number_alone};
use movegen::place_after;
use pawn_numbers::{PawnPlace, pawn_number_at};
use position::Place;
use rules::Move;

// The byte at a number; 0 beyond the table's end.
fn read(table: &[u8], n: usize) -> u8
    ensures { result ≡ get_or table.now n 0 }
{
    if table.len() <= n {
        return 0;
    }
    table[n]
}

// The byte at a number of the table of a kind, among four that follow one another.
fn read_part(run: &[u8], kind: u8, n: u32) -> u8
    ensures { result ≡ get_or (kind_part kind run.now) n 0 }
{
    let at = n as usize;
    if TABLE_SIZE <= at {
        return 0;
    }
    read(run, kind as usize * TABLE_SIZE + at)
}

// The byte of a place in the pawn's own table.
pub fn pawn_byte(q: Place, table: &[u8]) -> u8
    ensures { result ≡ get_or table.now (pawn_number (pawn_at q)) 0 }
{
    let n = pawn_number_at(PawnPlace {
        side: q.side,
        white: q.white,
        black: q.black,
        pawn: q.first,
    });
    read(table, n as usize)
}

// The byte after a legal move: a promotion is read in the table of the piece it names; with the pawn taken it is a draw.
pub fn byte_after(q: Place, v: Move, table: &[u8], run: &[u8]) -> u8
    ensures { PawnOn q → v ∈ all_moves (pawn_at q) → result ≡ pawn_bytes run.now table.now (played (pawn_at q) v) }
{
    let next = place_after(q, v.from, v.to);
    if v.becomes != 0 {
        let n = number_alone(0, next.side, next.white, next.black, v.to);
        return read_part(run, v.becomes - 1, n);
    }
    if 64 <= next.first {
        return 1;
    }
    pawn_byte(next, table)
}
