// The squares that a piece attacks, as one set.
ghost use Rattle.std.specs.Prelude.{◌≡◌, ℕ, ◌-◌, ◌≤◌, ◌<◌};
ghost use Rattle.finite.specs.Members.{any};
ghost use Rattle.finite.specs.Numbers.{numbers};
ghost use Rattle.board.specs.Reach.{line_of, reaches as reaches_of};
ghost use Rattle.board.specs.Sets.{has as holds, set_of};

use super::empty_board::on_empty;
use super::steps::{ends_of, step_at, stepped};
use constants::{king_steps, knight_steps};

// The squares of the lines in the directions `first` up to `end`: a line stops at the first piece it meets.
// A labelled loop over directions and steps, as 01 shapes it.
fn lines(occ: u64, from: u8, first: u8, end: u8) -> u64
    requires { (from < 64) × (end ≤ 8) }
    ensures { (t : ℕ) → t < 64 → holds result t ≡ any (line_of (holds occ) 0 from t) (numbers (end - first) first) }
{
    let mut set: u64 = 0;
    let mut k = first;
    'lines: loop {
        if end <= k {
            break set;
        }
        let step = step_at(k);
        let ends = ends_of(step);
        k += 1;
        let mut at: u64 = 1 << from;
        loop {
            at = stepped(at, step, ends);
            set |= at;
            // a piece, or the edge
            if at & !occ == 0 {
                continue 'lines;
            }
        }
    }
}

// The squares that a rook (1) or a bishop (2) attacks. Its lines are walked only where a piece stands on them.
fn line_targets(occ: u64, kind: u8, from: u8) -> u64
    requires { (0 < kind) × (kind < 3) }
    ensures { result ≡ set_of (reaches_of (holds occ) kind from) }
{
    let full = on_empty(kind, from);
    if full & occ == 0 {
        return full;
    }
    let first = (kind - 1) * 4;
    lines(occ, from, first, first + 4)
}

// All the squares that a piece of this kind on `from` attacks: queen 0, rook 1, bishop 2, knight 3, king 5.
pub fn targets(occ: u64, kind: u8, from: u8) -> u64
    ensures { result ≡ set_of (reaches_of (holds occ) kind from) }
{
    match kind {
        0 => line_targets(occ, 1, from) | line_targets(occ, 2, from),
        1 => line_targets(occ, 1, from),
        2 => line_targets(occ, 2, from),
        3 => knight_steps(from),
        5 => king_steps(from),
        _ => 0,
    }
}
