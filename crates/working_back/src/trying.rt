// The positions before the moves of one piece, tried, k even: a number is settled if it holds 1 and depth k is required of its position.
ghost use Rattle.std.specs.Prelude.{◌≡◌, ◌-◌, ◌^◌, ◌<◌, length, get_or};
ghost use Rattle.numbering.specs.Number.{number_of};
ghost use Rattle.position.specs.Posed.{board_in};
ghost use Rattle.retracting.specs.Retracting.{LegalLeft, Leads, GoesBack, Retracts, Seat, place_before};
ghost use Rattle.working_back.specs.Admitted.{Admitted};
ghost use Rattle.working_back.specs.Back.{TriesPlace, TriesTo, Unsettled};
ghost use Rattle.working_back.specs.Lines.{LinedBefore, LinedAfter};
ghost use Rattle.working_back.specs.Spared.{Grounds};

use super::lines::Line;
use super::spared::{Ground, find_saviour, ground_of};
use board::{lowest, minus, targets, without};
use index::number_at;
use position::{Men, Place};
use retracting::place_before;
use successors::{requires_depth, spot};

// Settles the number, which holds 1, if depth k, even, is required of the position before a move from s; 1 if it did, and else 0.
pub fn confirm(
    m: Men,
    k: u8,
    q: Place,
    taken: u8,
    s: u8,
    to: u8,
    n: usize,
    first: &[u8],
    second: &[u8],
    table: &mut [u8],
) -> u32
    requires { (k < 254) × Admitted m first.now second.now table.old × Leads m (place_before q taken s to) s to q × (n ≡ number_of (board_in m (place_before q taken s to))) × (n < length table.old) × (get_or table.old n 0 ≡ 1) }
    ensures { TriesPlace m first.now second.now k q (place_before q taken s to) table.old table.new result }
{
    let o = place_before(q, taken, s, to);
    if !requires_depth(m, o, k, &*table, first, second) {
        return 0;
    }
    table[n] = 2 + k;
    1
}

// The number of the position before a move from s.
pub fn number_before(m: Men, q: Place, taken: u8, s: u8, to: u8, line: Line) -> usize
    requires { line.base < 2 ^ 48 }
    ensures { GoesBack m q taken s to → LinedBefore m q taken to line → result ≡ number_of (board_in m (place_before q taken s to)) }
{
    let plain = line.plain;
    if plain {
        return spot(line.base, line.flip, line.scale, s);
    }
    number_at(m, place_before(q, taken, s, to)) as usize
}

// How many numbers were settled, 1 or 0, the squares from which nothing is settled besides, and the piece's squares that are known not to spare its side.
#[derive(Clone, Copy)]
struct Told {
    settled: u32,
    spared: u64,
    seen: u64,
}

// Settles the number of the position before a move from s, if the table has it, it holds 1 and is lost in k. The piece's own other moves are read first:
// a square that spares its side does so from all squares that it is reached from.
fn lose_number(
    m: Men,
    k: u8,
    q: Place,
    taken: u8,
    kind: u8,
    s: u8,
    to: u8,
    n: usize,
    after: Line,
    ground: Ground,
    seen: u64,
    first: &[u8],
    second: &[u8],
    table: &mut [u8],
) -> Told
    requires { (0 < k) × (k < 254) × Admitted m first.now second.now table.old × Leads m (place_before q taken s to) s to q × LegalLeft m q taken × Seat m q kind (1 - q.side) to × LinedAfter m q taken to after × Grounds m q taken kind to ground × (n ≡ number_of (board_in m (place_before q taken s to))) }
    ensures { TriesPlace m first.now second.now k q (place_before q taken s to) table.old table.new result.settled × Unsettled m first.now second.now k q taken to table.new result.spared }
{
    let kept = Told {
        settled: 0,
        spared: 0,
        seen,
    };
    if table.len() <= n {
        return kept;
    }
    if table[n] != 1 {
        return kept;
    }
    let goals = minus(targets(ground.stood, kind, s), ground.shut);
    let o = place_before(q, taken, s, to);
    let found = find_saviour(m, k, o, s, after, goals, seen, &*table);
    let t = found.square;
    if t < 64 {
        return Told {
            settled: 0,
            spared: targets(ground.stood, kind, t),
            seen: found.seen,
        };
    }
    let settled = confirm(m, k, q, taken, s, to, n, first, second, &mut *table);
    Told {
        settled,
        spared: 0,
        seen: found.seen,
    }
}

// From each of these squares, k even.
pub fn lose_each(
    m: Men,
    k: u8,
    q: Place,
    taken: u8,
    kind: u8,
    to: u8,
    line: Line,
    after: Line,
    squares: u64,
    first: &[u8],
    second: &[u8],
    table: &mut [u8],
) -> u32
    requires { (0 < k) × (k < 254) × Admitted m first.now second.now table.old × Retracts m q taken to squares × LegalLeft m q taken × Seat m q kind (1 - q.side) to × LinedBefore m q taken to line × LinedAfter m q taken to after }
    ensures { TriesTo m first.now second.now k q to table.old table.new result }
{
    let ground = ground_of(q, taken, kind, to);
    let mut settled: u32 = 0;
    let mut seen: u64 = 0;
    let mut rest = squares;
    // No `for`: with each square go those whose loss is spared with it.
    while rest != 0 {
        let s = lowest(rest);
        let n = number_before(m, q, taken, s, to, line);
        let told = lose_number(
            m,
            k,
            q,
            taken,
            kind,
            s,
            to,
            n,
            after,
            ground,
            seen,
            first,
            second,
            &mut *table,
        );
        settled += told.settled;
        seen = told.seen;
        rest = minus(without(rest, s), told.spared);
    }
    settled
}
