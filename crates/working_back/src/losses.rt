// The positions that have a move to this one, piece by piece, k even.
ghost use Rattle.std.specs.Prelude.{◌≡◌, cond, ◌-◌, ◌%◌, ◌<◌, eqb};
ghost use Rattle.rules.specs.Chess.{chess};
ghost use Rattle.retracting.specs.Retracting.{LegalLeft};
ghost use Rattle.working_back.specs.Admitted.{over, Admitted};
ghost use Rattle.working_back.specs.Trying.{Alive};
ghost use Rattle.working_back.specs.Back.{TriesTo, TriesInto};

use super::bare::lose_bare;
use super::lines::{line_of, no_line};
use super::trying::lose_each;
use movegen::{king_at, occupied_at};
use position::{Men, Place, other};
use retracting::{again, sources, steps_back};
use successors::frame_for;

const KING: u8 = 5;

// Tries the positions with the mover's king put back.
// Apart from a man: the king has no line, and no early ways out.
fn lose_king(
    m: Men,
    k: u8,
    q: Place,
    taken: u8,
    first: &[u8],
    second: &[u8],
    table: &mut [u8],
) -> u32
    requires { (0 < k) × (k < 254) × Admitted m first.now second.now table.old × LegalLeft m q taken }
    ensures { TriesTo m first.now second.now k q (cond (eqb (1 - q.side) 0) q.white q.black) table.old table.new result }
{
    let mover = other(q.side);
    let to = king_at(q, mover);
    let squares = sources(m, q, taken, KING, mover, to);
    lose_each(
        m,
        k,
        q,
        taken,
        KING,
        to,
        no_line(),
        no_line(),
        squares,
        first,
        second,
        &mut *table,
    )
}

// The same of a man, the first or the second.
fn lose_man(
    latter: bool,
    m: Men,
    k: u8,
    q: Place,
    taken: u8,
    first: &[u8],
    second: &[u8],
    table: &mut [u8],
) -> u32
    requires { (0 < k) × (k < 254) × Admitted m first.now second.now table.old × LegalLeft m q taken }
    ensures { TriesTo m first.now second.now k q (cond latter q.second q.first) table.old table.new result }
{
    let kind = again(latter, m.second, m.first);
    let owner = again(latter, m.colour, 0);
    let to = again(latter, q.second, q.first);
    if (owner == q.side) | (64 <= to) {
        return 0;
    }
    let squares = sources(m, q, taken, kind, owner, to);
    if squares == 0 {
        return 0;
    }
    let before = frame_for(other(q.side), q.white, q.black);
    let line = line_of(before, m, q, taken, to);
    let after = frame_for(q.side, q.white, q.black);
    let line_after = line_of(after, m, q, taken, to);
    lose_each(
        m,
        k,
        q,
        taken,
        kind,
        to,
        line,
        line_after,
        squares,
        first,
        second,
        &mut *table,
    )
}

// .. with each piece.
pub fn lose_into(
    m: Men,
    k: u8,
    q: Place,
    taken: u8,
    first: &[u8],
    second: &[u8],
    table: &mut [u8],
) -> u32
    requires { (0 < k) × (k < 254) × (k % 2 ≡ 0) × Admitted m first.now second.now table.old × LegalLeft m q taken × Alive chess (over m first.now second.now) table.old }
    ensures { TriesInto m first.now second.now k q table.old table.new result }
{
    // Black has no men.
    if (q.side == 0) & (m.colour == 0) {
        let to = q.black;
        let squares = steps_back(m, q, taken, KING, to, occupied_at(q));
        return lose_bare(m, k, q, taken, to, squares, first, second, &mut *table);
    }
    let a = lose_king(m, k, q, taken, first, second, &mut *table);
    let b = lose_man(false, m, k, q, taken, first, second, &mut *table);
    let c = lose_man(true, m, k, q, taken, first, second, &mut *table);
    a + b + c
}
