// The numbers of one piece's squares while all others stand still: by the key of the others, in which its square is put in turn, or at a row of pairs.
ghost use Rattle.std.specs.Prelude.{◌≡◌, cond, false, ℕ, ◌^◌, ◌≤◌, ◌<◌, T, eqb};
ghost use Rattle.numbering.specs.Kings.{separate};
ghost use Rattle.numbering.specs.Number.{number_of};
ghost use Rattle.position.specs.Posed.{board_in};
ghost use Rattle.index.specs.Seats.{Seated};
ghost use Rattle.index.specs.Moving.{row_beside, Keyed, Stands, king_on};

use super::Still;
use super::keys::{key_at, number_keyed};
use super::least::{alike, number_by, rising_key};
use pairs::{PAIR_COUNT, count_before, first_of, partners_of};
use position::{Men, Place};

// The squares of a piece that stands on a1 in this place: by the key.
fn still_keyed(m: Men, q: Place, unit: u32) -> Still
    requires { unit ≤ 262144 }
    ensures { (place : ℕ → ℕ → Place) → Keyed q unit place → Stands m result place }
{
    Still {
        single: 64 <= q.second,
        like: alike(m),
        row: 0,
        base: key_at(q),
        unit,
    }
}

// Black's squares that form a pair with the white king's, where he stands in the triangle a1-d1-d4 and off its diagonal: nothing is turned or exchanged then,
// whichever of them it is. None where he stands elsewhere.
fn row_beside(white: u8) -> u64
    ensures { result ≡ row_beside white }
{
    if (white / 8 < white % 8) & (white % 8 < 4) {
        return partners_of(white);
    }
    0
}

// How far apart the numbers of two pairs lie.
fn pair_scale(single: bool) -> u32
    ensures { result ≡ cond single 64 4096 }
{
    if single {
        return 64;
    }
    4096
}

// The squares of Black's king, who stands on a1 in this place, at the row of the white king's pairs.
fn still_rowed(m: Men, row: u64, q: Place) -> Still
    requires { (row ≡ row_beside q.white) × (row ≡ 0 → ⊥) × (q.black ≡ 0) }
    ensures { Stands m result (king_on false q.white 0 q.first q.second) }
{
    let single = 64 <= q.second;
    let like = alike(m);
    let first = first_of(q.white) as u16;
    Still {
        single,
        like,
        row,
        base: number_by(single, 0, first, rising_key(like, key_at(q))),
        unit: pair_scale(single),
    }
}

// The squares of Black's king, beside White's and the men on these squares: at the row of the white king's pairs, or by the key.
pub fn still_black(m: Men, white: u8, x: u8, y: u8) -> Still
    ensures { Stands m result (king_on false white 0 x y) }
{
    let q = Place {
        side: 0,
        white,
        black: 0,
        first: x,
        second: y,
    };
    let row = row_beside(white);
    if row == 0 {
        return still_keyed(m, q, 4096);
    }
    still_rowed(m, row, q)
}

// The squares of a king, White's or Black's, beside the other and the men on these squares.
pub fn still_king(m: Men, owner: u8, white: u8, black: u8, x: u8, y: u8) -> Still
    ensures { Stands m result (king_on (eqb owner 0) white black x y) }
{
    if owner != 0 {
        return still_black(m, white, x, y);
    }
    let q = Place {
        side: 0,
        white: 0,
        black,
        first: x,
        second: y,
    };
    still_keyed(m, q, 262144)
}

// The number with the piece on one of its squares.
pub fn still_number(l: Still, side: u8, s: u8) -> usize
    requires { (s < 64) × (l.base < 2 ^ 27) × (l.unit ≤ 262144) }
    ensures { (m : Men) (place : ℕ → ℕ → Place) → Stands m l place → Seated m (place side s) → T (separate (place side s).white (place side s).black) → result ≡ number_of (board_in m (place side s)) }
{
    let row = l.row;
    if row == 0 {
        return number_keyed(l.single, l.like, side, l.base + s as u32 * l.unit) as usize;
    }
    let kings = side as usize * PAIR_COUNT as usize + count_before(row, s) as usize;
    kings * l.unit as usize + l.base as usize
}
