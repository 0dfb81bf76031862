// What the 64 numbers of a row share, told by one set of the last man's squares: where the position is legal, and where
// the side to move may be in check.
ghost use Rattle.std.specs.Prelude.{◌≡◌, true, ◌%◌, ◌<◌, T};
ghost use Rattle.numbering.specs.Material.{known, size_of};
ghost use Rattle.position.specs.Posed.{material_for};
ghost use Rattle.deciding.specs.Rows.{RowOf, last_kind, last_owner, LegalRow, ChecksIn, MateRow, PlainRow};

use super::numbers::is_legal_on;
use super::rows::{in_row, with_last};
use board::{minus, with};
use index::{alike, exchange_of, place_at};
use movegen::{king_at, men_strike, occupied_at, struck_by};
use position::{Men, Place, other};

// Every square.
const ALL: u64 = 18446744073709551615;

// The last man's kind, and his side.
fn last_kind(m: Men) -> u8
    ensures { result ≡ last_kind m }
{
    if 4 <= m.second { m.first } else { m.second }
}

fn last_owner(m: Men) -> u8
    ensures { result ≡ last_owner m }
{
    if 4 <= m.second { 0 } else { m.colour }
}

// Whether each number of the row is used at which no two share a square, by the pieces that stand still.
fn is_plain(m: Men, q: Place) -> bool
    ensures { result ≡ true → PlainRow m q }
{
    if alike(m) {
        return false;
    }
    if (q.white == q.first) | (q.black == q.first) {
        return false;
    }
    exchange_of(q.white, q.black) == 0
}

// Each number of the row asked by itself.
fn legal_each(m: Men, row: Place, n: u32) -> u64
    ensures { RowOf m n row → LegalRow m n result }
{
    let mut legal: u64 = 0;
    for s in 0..64 {
        let at = n / 64 * 64 + s as u32;
        if is_legal_on(m, in_row(m, row, at), at) {
            legal = with(legal, s);
        }
    }
    legal
}

// The squares at which the row's number is used and its position legal: those that are free and from which the last man
// does not strike the king of the side not to move. Where another strikes him, the last man may stand between.
fn legal_row(m: Men, row: Place, n: u32) -> u64
    ensures { RowOf m n row → LegalRow m n result }
{
    let q = with_last(m, row, 64);
    if !is_plain(m, q) {
        return legal_each(m, row, n);
    }
    let occ = occupied_at(q);
    let king = king_at(q, other(q.side));
    if men_strike(m, q, occ, q.side, king) {
        return legal_each(m, row, n);
    }
    let struck = struck_by(occ, last_kind(m), last_owner(m), king, q.side);
    minus(minus(ALL, occ), struck)
}

// The same for the number's row, as `row_at`: found anew at its first number, and kept within the row.
pub fn legal_row_at(m: Men, legal: u64, n: u32) -> u64
    ensures { T (known (material_for m)) → m.colour < 2 → n < size_of (material_for m) → ((n % 64 ≡ 0 → ⊥) → LegalRow m n legal) → LegalRow m n result }
{
    if n % 64 == 0 {
        return legal_row(m, place_at(m, n), n);
    }
    legal
}

// Squares without which the side to move is not in check: those from which the last man strikes its king, or all of them
// where another does.
fn checked_row(m: Men, row: Place) -> u64
    ensures { ChecksIn m row result }
{
    let q = with_last(m, row, 64);
    let occ = occupied_at(q);
    let king = king_at(q, q.side);
    let foe = other(q.side);
    if men_strike(m, q, occ, foe, king) {
        return ALL;
    }
    struck_by(occ, last_kind(m), last_owner(m), king, foe)
}

// The same for the number's row: there is no mate without them.
pub fn checked_row_at(m: Men, squares: u64, n: u32) -> u64
    ensures { T (known (material_for m)) → m.colour < 2 → n < size_of (material_for m) → ((n % 64 ≡ 0 → ⊥) → MateRow m n squares) → MateRow m n result }
{
    if n % 64 == 0 {
        return checked_row(m, place_at(m, n));
    }
    squares
}
