// Which halves of the table a pass may settle a number in: by where the depth before its own stands.
ghost use Rattle.std.specs.Prelude.{◌≡◌, false, cond, ◌<◌, ◌≤◌, ◌/◌, length};
ghost use Rattle.position.specs.Posed.{material_for};
ghost use Rattle.four_men.specs.Lending.{lent};
ghost use Rattle.working_back.specs.Admitted.{Admitted};
ghost use Rattle.filling.specs.Quiet.{Quiet, low_of, high_of};

use deciding::PAWN;
use index::{HALF, TABLE_SIZE};
use position::Men;

// Whether pass k may settle a number whose successors' numbers are from `from` on, below `to`, or in a lent table
// from `low` on, below `high`: mates apart, depth k - 1 must stand at one. With a pawn no half is left out.
fn may_settle(
    m: Men,
    k: u8,
    from: usize,
    to: usize,
    low: usize,
    high: usize,
    first: &[u8],
    second: &[u8],
    table: &[u8],
) -> bool
    requires { (k < 254) × (from ≤ to) × (to ≤ length table.now) × (low ≤ high) × (high ≤ 59136) × Admitted m first.now second.now table.now }
    ensures { result ≡ false → Quiet (material_for m) (lent first.now second.now) k table.now from to low high }
{
    if m.first == PAWN {
        return true;
    }
    if k == 0 {
        return true;
    }
    let byte = 1 + k;
    if table[from..to].contains(&byte) {
        return true;
    }
    if 4 <= m.second {
        return false;
    }
    first[low..high].contains(&byte) || second[low..high].contains(&byte)
}

// Where the numbers of a man left alone begin, with White to move, and where they end, with Black to move.
fn low_of(m: Men) -> usize
    ensures { result ≡ low_of m }
{
    if m.colour == 0 { HALF } else { 0 }
}

fn high_of(m: Men) -> usize
    ensures { result ≡ high_of m }
{
    if m.colour == 0 { HALF } else { TABLE_SIZE }
}

// With White to move: the successors have Black to move. A man left alone of two of one side is White's; of rivals he
// may be Black's, and then his number has the colours exchanged.
pub fn white_may(m: Men, k: u8, first: &[u8], second: &[u8], table: &[u8]) -> bool
    requires { (k < 254) × Admitted m first.now second.now table.now }
    ensures { result ≡ false → Quiet (material_for m) (lent first.now second.now) k table.now (length table.now / 2) (length table.now) (low_of m) 59136 }
{
    let half = table.len() / 2;
    may_settle(
        m,
        k,
        half,
        table.len(),
        low_of(m),
        TABLE_SIZE,
        first,
        second,
        table,
    )
}

// With Black to move.
pub fn black_may(m: Men, k: u8, first: &[u8], second: &[u8], table: &[u8]) -> bool
    requires { (k < 254) × Admitted m first.now second.now table.now }
    ensures { result ≡ false → Quiet (material_for m) (lent first.now second.now) k table.now 0 (length table.now / 2) 0 (high_of m) }
{
    let half = table.len() / 2;
    may_settle(m, k, 0, half, 0, high_of(m), first, second, table)
}

// Where the halves begin that are not left out, and where they end.
pub fn first_of(white: bool, half: usize) -> usize
    ensures { result ≡ cond white 0 half }
{
    if white { 0 } else { half }
}

pub fn end_of(black: bool, half: usize, size: usize) -> usize
    ensures { result ≡ cond black size half }
{
    if black { size } else { half }
}
