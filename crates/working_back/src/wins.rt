// The positions that have a move to this one, piece by piece, k odd: what stands on the board and the frame of the kings are told once for all pieces.
ghost use Rattle.std.specs.Prelude.{◌≡◌, cond, ◌-◌, ◌%◌, ◌<◌};
ghost use Rattle.board.specs.Sets.{set_of};
ghost use Rattle.rules.specs.Rules.{occupied};
ghost use Rattle.position.specs.Posed.{board_in};
ghost use Rattle.successors.specs.Framing.{frame_for};
ghost use Rattle.retracting.specs.Retracting.{LegalLeft};
ghost use Rattle.working_back.specs.Admitted.{Admitted};
ghost use Rattle.working_back.specs.Back.{TriesTo, TriesInto};

use super::lines::line_of;
use super::winning::{win_each, win_king};
use movegen::{king_at, occupied_at};
use position::{Men, Place, other};
use retracting::{again, steps_back};
use successors::{Frame, frame_for};

const KING: u8 = 5;

// Tries the positions with a man put back, the first or the second.
fn win_man(
    latter: bool,
    m: Men,
    k: u8,
    q: Place,
    taken: u8,
    occ: u64,
    f: Frame,
    first: &[u8],
    second: &[u8],
    table: &mut [u8],
) -> u32
    requires { (k < 254) × (k % 2 ≡ 1) × Admitted m first.now second.now table.old × LegalLeft m q taken × (occ ≡ set_of (occupied (board_in m q))) × (f ≡ frame_for (1 - q.side) q.white q.black) }
    ensures { TriesTo m first.now second.now k q (cond latter q.second q.first) table.old table.new result }
{
    let kind = again(latter, m.second, m.first);
    let owner = again(latter, m.colour, 0);
    let to = again(latter, q.second, q.first);
    if (owner == q.side) | (64 <= to) {
        return 0;
    }
    let squares = steps_back(m, q, taken, kind, to, occ);
    let line = line_of(f, m, q, taken, to);
    win_each(
        m,
        k,
        q,
        taken,
        to,
        line,
        squares,
        first,
        second,
        &mut *table,
    )
}

// .. with each piece.
pub fn win_into(
    m: Men,
    k: u8,
    q: Place,
    taken: u8,
    first: &[u8],
    second: &[u8],
    table: &mut [u8],
) -> u32
    requires { (k < 254) × (k % 2 ≡ 1) × Admitted m first.now second.now table.old × LegalLeft m q taken }
    ensures { TriesInto m first.now second.now k q table.old table.new result }
{
    let mover = other(q.side);
    let occ = occupied_at(q);
    let to = king_at(q, mover);
    let squares = steps_back(m, q, taken, KING, to, occ);
    let a = win_king(m, k, q, taken, to, squares, first, second, &mut *table);
    // Black has no men.
    if (q.side == 0) & (m.colour == 0) {
        return a;
    }
    let f = frame_for(mover, q.white, q.black);
    let b = win_man(false, m, k, q, taken, occ, f, first, second, &mut *table);
    let c = win_man(true, m, k, q, taken, occ, f, first, second, &mut *table);
    a + b + c
}
