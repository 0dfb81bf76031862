// A byte weighed against all successors where there is one man, White's, as in most look-ups: nothing asks for a second man, White takes nobody, and
// Black may take only the one. The promise is that of `weigh`.
ghost use Rattle.std.specs.Prelude.{◌≡◌, Bool, List, ℕ, ◌+◌, ◌*◌, ◌^◌, ◌≤◌, ◌<◌, T};
ghost use Rattle.board.specs.Sets.{set_of};
ghost use Rattle.rules.specs.Rules.{Board, moved, can_move};
ghost use Rattle.numbering.specs.Kings.{pair_of};
ghost use Rattle.position.specs.Posed.{board_in, Complete};
ghost use Rattle.index.specs.Moving.{at_home};
ghost use Rattle.successors.specs.Successors.{bytes_in, sifted_by, sifted_from, judged_from, king_at, Reaches, Weighs};
ghost use Rattle.successors.specs.Quiet.{quiet_to};
ghost use Rattle.successors.specs.Lone.{settled};

use super::Weighed;
use super::after::{read, read_at};
use super::choosing::weighed_by;
use super::lone_reach::{black_reach, white_reach};
use super::sifting::{sift, sift_each};
use board::{minus, one};
use byte_rule::{refutes, suits};
use index::number_alone;
use movegen::Reach;
use pairs::{count_before, first_of, pair_by_row, partners_of};
use position::{Men, Place};

// Whether the white king stands in the triangle a1-d1-d4 and off its diagonal.
fn is_at_home(white: u8) -> bool
    ensures { result ≡ at_home white }
{
    (white / 8 < white % 8) & (white % 8 < 4)
}

// Whether nothing is turned or exchanged with these kings, wherever the man stands.
fn is_settled(white: u8, black: u8) -> bool
    ensures { result ≡ settled white black }
{
    (white % 8 < 4)
        & ((white / 8 < white % 8) | ((white / 8 == white % 8) & (black / 8 < black % 8)))
}

// Where the numbers of such kings begin, Black to move. The pair is by rows of bits: with a second reader the packed list would no longer be put in
// line where all other numbers are made.
fn base_of(white: u8, black: u8) -> usize
    ensures { (result ≡ (462 + pair_of white black) * 64) × (result < 2 ^ 48) }
{
    (462 + pair_by_row(white, black) as usize) * 64
}

// The moves of the man.
fn sift_lone(
    m: Men,
    q: Place,
    targets: u64,
    byte: u16,
    table: &[u8],
    first: &[u8],
    second: &[u8],
) -> Option<u64>
    ensures { Complete m q → 4 ≤ m.second → q.side ≡ 0 → targets ≡ set_of (can_move (board_in m q) q.first) → result ≡ sifted_from (bytes_in m first.now second.now table.now) byte (board_in m q) q.first }
{
    if is_settled(q.white, q.black) {
        let base = base_of(q.white, q.black);
        return sift(targets, byte, |to| read_at(table, base + to as usize));
    }
    sift_each(m, q, q.first, targets, byte, table, first, second)
}

// The steps of White's king.
fn sift_white(q: Place, targets: u64, byte: u16, table: &[u8]) -> Option<u64>
    ensures { (m : Men) → Complete m q → 4 ≤ m.second → q.side ≡ 0 → targets ≡ set_of (can_move (board_in m q) (king_at q)) → (first second : List ℕ) → result ≡ sifted_from (bytes_in m first second table.now) byte (board_in m q) (king_at q) }
{
    sift(targets, byte, |to| {
        read(table, number_alone(0, 1, to, q.black, q.first))
    })
}

// White to move.
fn judge_white(
    m: Men,
    q: Place,
    reach: Reach,
    byte: u16,
    table: &[u8],
    first: &[u8],
    second: &[u8],
) -> Option<Reach>
    ensures { Complete m q → 4 ≤ m.second → q.side ≡ 0 → Reaches m q reach → result ≡ judged_from (bytes_in m first.now second.now table.now) byte (board_in m q) (king_at q) q.first q.second }
{
    let king = sift_white(q, reach.king, byte, table)?;
    let man = sift_lone(m, q, reach.first, byte, table, first, second)?;
    Some(Reach {
        king,
        first: man,
        second: 0,
    })
}

// The steps of Black's king that take no man.
fn sift_quiet(q: Place, targets: u64, byte: u16, table: &[u8]) -> Option<u64>
    ensures { (m : Men) → Complete m q → 4 ≤ m.second → q.side ≡ 1 → targets ≡ set_of (quiet_to m q (king_at q)) → (first second : List ℕ) → result ≡ sifted_by (bytes_in m first second table.now) byte (board_in m q) (king_at q) (quiet_to m q (king_at q)) }
{
    if is_at_home(q.white) {
        let base = first_of(q.white) as usize * 64 + q.first as usize;
        let row = partners_of(q.white);
        return sift(targets, byte, |to| {
            read_at(table, base + count_before(row, to) as usize * 64)
        });
    }
    sift(targets, byte, |to| {
        read(table, number_alone(0, 0, q.white, to, q.first))
    })
}

// Moves that leave bare kings, a draw: nothing is read.
fn sift_bare(targets: u64, byte: u16) -> Option<u64>
    ensures { (bytes : Board → ℕ) (b : Board) (from : ℕ) (goes : ℕ → Bool) → targets ≡ set_of goes → ((t : ℕ) → T (goes t) → 1 ≡ bytes (moved b from t)) → result ≡ sifted_by bytes byte b from goes }
{
    if targets == 0 {
        return Some(0);
    }
    if refutes(byte, 1) {
        return None;
    }
    if suits(byte, 1) {
        return Some(targets);
    }
    Some(0)
}

// All the steps of Black's king, who is alone.
fn sift_king_alone(q: Place, targets: u64, byte: u16, table: &[u8]) -> Option<u64>
    ensures { (m : Men) → Complete m q → 4 ≤ m.second → q.side ≡ 1 → targets ≡ set_of (can_move (board_in m q) (king_at q)) → (first second : List ℕ) → result ≡ sifted_from (bytes_in m first second table.now) byte (board_in m q) (king_at q) }
{
    let man = one(q.first);
    let taking = sift_bare(targets & man, byte)?;
    let others = sift_quiet(q, minus(targets, man), byte, table)?;
    Some(taking | others)
}

// Black to move.
fn judge_black(q: Place, reach: Reach, byte: u16, table: &[u8]) -> Option<Reach>
    ensures { (m : Men) → Complete m q → 4 ≤ m.second → q.side ≡ 1 → Reaches m q reach → (first second : List ℕ) → result ≡ judged_from (bytes_in m first second table.now) byte (board_in m q) (king_at q) q.first q.second }
{
    let king = sift_king_alone(q, reach.king, byte, table)?;
    Some(Reach {
        king,
        first: 0,
        second: 0,
    })
}

// A byte weighed against all successors of a position with one man.
pub fn weigh_lone(m: Men, q: Place, byte: u16, table: &[u8], first: &[u8], second: &[u8]) -> Weighed
    ensures { Complete m q → 4 ≤ m.second → Weighs m q (bytes_in m first.now second.now table.now) byte result }
{
    if q.side == 0 {
        let reach = white_reach(m, q);
        let judged = judge_white(m, q, reach, byte, table, first, second);
        return weighed_by(q, reach, judged);
    }
    let reach = black_reach(m, q);
    weighed_by(q, reach, judge_black(q, reach, byte, table))
}
