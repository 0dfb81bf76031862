// The positions before the moves of one piece, tried, k odd: each has a move to a loss in k - 1, so that a number is settled if it holds 1. None but legal
// positions hold it, so that no square is asked whether the piece left a legal position there.
ghost use Rattle.std.specs.Prelude.{◌≡◌, ℕ, cond, ◌-◌, ◌%◌, ◌<◌, eqb};
ghost use Rattle.numbering.specs.Number.{number_of};
ghost use Rattle.position.specs.Posed.{board_in};
ghost use Rattle.retracting.specs.Retracting.{LegalLeft, GoesBack, StepsBack, place_before};
ghost use Rattle.working_back.specs.Admitted.{Admitted};
ghost use Rattle.working_back.specs.Back.{TriesPlace, TriesTo};
ghost use Rattle.working_back.specs.Lines.{LinedBefore};

use super::lines::Line;
use super::trying::number_before;
use board::squares_of;
use index::{still_king, still_number};
use position::{Men, Place, other};
use retracting::again;

// Settles the number of the position before a move from s, if it holds 1; 1 if it did, and else 0.
fn win_number(
    m: Men,
    k: u8,
    q: Place,
    taken: u8,
    s: u8,
    to: u8,
    n: usize,
    first: &[u8],
    second: &[u8],
    table: &mut [u8],
) -> u32
    requires { (k < 254) × (k % 2 ≡ 1) × Admitted m first.now second.now table.old × GoesBack m q taken s to × (n ≡ number_of (board_in m (place_before q taken s to))) }
    ensures { TriesPlace m first.now second.now k q (place_before q taken s to) table.old table.new result }
{
    if table[n] != 1 {
        return 0;
    }
    table[n] = 2 + k;
    1
}

// From each of these squares, the number of the position before told by the square.
fn win_from<F: Fn(u8) -> usize>(
    m: Men,
    k: u8,
    q: Place,
    taken: u8,
    to: u8,
    squares: u64,
    number: F,
    first: &[u8],
    second: &[u8],
    table: &mut [u8],
) -> u32
    requires { (k < 254) × (k % 2 ≡ 1) × Admitted m first.now second.now table.old × StepsBack m q taken to squares × ((s : ℕ) → GoesBack m q taken s to → F.pre number s) × ((s n : ℕ) → GoesBack m q taken s to → F.post number s n → n ≡ number_of (board_in m (place_before q taken s to))) }
    ensures { TriesTo m first.now second.now k q to table.old table.new result }
{
    let mut settled: u32 = 0;
    for s in squares_of(squares) {
        let n = number(s);
        settled += win_number(m, k, q, taken, s, to, n, first, second, &mut *table);
    }
    settled
}

// Of a man.
pub fn win_each(
    m: Men,
    k: u8,
    q: Place,
    taken: u8,
    to: u8,
    line: Line,
    squares: u64,
    first: &[u8],
    second: &[u8],
    table: &mut [u8],
) -> u32
    requires { (k < 254) × (k % 2 ≡ 1) × Admitted m first.now second.now table.old × StepsBack m q taken to squares × LinedBefore m q taken to line }
    ensures { TriesTo m first.now second.now k q to table.old table.new result }
{
    let number = |s: u8| number_before(m, q, taken, s, to, line);
    win_from(
        m,
        k,
        q,
        taken,
        to,
        squares,
        number,
        first,
        second,
        &mut *table,
    )
}

// Of the king who moved: all others stand still, and his square is put into their key.
pub fn win_king(
    m: Men,
    k: u8,
    q: Place,
    taken: u8,
    to: u8,
    squares: u64,
    first: &[u8],
    second: &[u8],
    table: &mut [u8],
) -> u32
    requires { (k < 254) × (k % 2 ≡ 1) × Admitted m first.now second.now table.old × StepsBack m q taken to squares × LegalLeft m q taken × (to ≡ cond (eqb (1 - q.side) 0) q.white q.black) }
    ensures { TriesTo m first.now second.now k q to table.old table.new result }
{
    let mover = other(q.side);
    let x = again(taken == 1, to, q.first);
    let y = again(taken == 2, to, q.second);
    let others = still_king(m, mover, q.white, q.black, x, y);
    let number = |s: u8| still_number(others, mover, s);
    win_from(
        m,
        k,
        q,
        taken,
        to,
        squares,
        number,
        first,
        second,
        &mut *table,
    )
}
