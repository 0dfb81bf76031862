// The byte of a place, and the place that a move leaves.
ghost use Rattle.std.specs.Prelude.{◌≡◌, List, ℕ, ◌-◌, ◌≤◌, T, get_or};
ghost use Rattle.rules.specs.Rules.{moved, can_move};
ghost use Rattle.position.specs.Posed.{board_in, Complete};
ghost use Rattle.successors.specs.Framing.{frame_for};
ghost use Rattle.successors.specs.Successors.{bytes_in, Remains, framed_after};

use super::Frame;
use super::framing::number_on;
use index::{alike, number_alone, number_at};
use movegen::{place_after, square_after};
use position::{Men, Place};

// The byte at a number; 0 beyond the table's end.
pub fn read_at(table: &[u8], n: usize) -> u8
    ensures { result ≡ get_or table.now n 0 }
{
    if table.len() <= n {
        return 0;
    }
    table[n]
}

pub fn read(table: &[u8], n: u32) -> u8
    ensures { result ≡ get_or table.now n 0 }
{
    read_at(table, n as usize)
}

// The byte at a complete place's number.
pub fn byte_at(m: Men, q: Place, table: &[u8]) -> u8
    ensures { Complete m q → (first second : List ℕ) → result ≡ bytes_in m first second table.now (board_in m q) }
{
    read(table, number_at(m, q))
}

// The byte of the second man alone, in the lent table of his kind; of bare kings 1.
fn byte_of_second(m: Men, q: Place, first: &[u8], second: &[u8]) -> u8
    ensures { Remains m q → 64 ≤ q.first → (table : List ℕ) → result ≡ bytes_in m first.now second.now table (board_in m q) }
{
    if 64 <= q.second {
        return 1;
    }
    let n = number_alone(m.colour, q.side, q.white, q.black, q.second);
    if m.second == m.first {
        return read(first, n);
    }
    read(second, n)
}

// The byte of what is left of an ending's men: in its own table, or in the lent table of a man left alone.
fn byte_in(m: Men, q: Place, table: &[u8], first: &[u8], second: &[u8]) -> u8
    ensures { Remains m q → result ≡ bytes_in m first.now second.now table.now (board_in m q) }
{
    if 64 <= q.first {
        return byte_of_second(m, q, first, second);
    }
    if (m.second < 4) & (64 <= q.second) {
        return read(first, number_alone(0, q.side, q.white, q.black, q.first));
    }
    read(table, number_at(m, q))
}

// Whether no king moves from this square, and none of the men is taken who then stand on x and y.
fn is_framed(m: Men, q: Place, from: u8, x: u8, y: u8) -> bool
    ensures { result ≡ framed_after m q from x y }
{
    !((q.white == from) | (q.black == from)) & ((x < 64) & ((4 <= m.second) | (y < 64)))
}

// The byte after a move, its place made.
pub fn byte_made(
    m: Men,
    q: Place,
    from: u8,
    to: u8,
    table: &[u8],
    first: &[u8],
    second: &[u8],
) -> u8
    ensures { Complete m q → T (can_move (board_in m q) from to) → result ≡ bytes_in m first.now second.now table.now (moved (board_in m q) from to) }
{
    byte_in(m, place_after(q, from, to), table, first, second)
}

// The byte after a move, by the frame of its kings and the other side to move where they stay.
pub fn byte_after(
    m: Men,
    q: Place,
    f: Frame,
    from: u8,
    to: u8,
    table: &[u8],
    first: &[u8],
    second: &[u8],
) -> u8
    ensures { Complete m q → T (can_move (board_in m q) from to) → f ≡ frame_for (1 - q.side) q.white q.black → result ≡ bytes_in m first.now second.now table.now (moved (board_in m q) from to) }
{
    let x = square_after(from, to, q.first);
    let y = square_after(from, to, q.second);
    if is_framed(m, q, from, x, y) {
        return read_at(table, number_on(f, 4 <= m.second, alike(m), x, y));
    }
    byte_made(m, q, from, to, table, first, second)
}
