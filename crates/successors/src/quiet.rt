// The moves of one piece: those that take a man one by one, all others by the piece's squares.
ghost use Rattle.std.specs.Prelude.{◌≡◌, true, ℕ, ◌<◌};
ghost use Rattle.board.specs.Sets.{has, set_of};
ghost use Rattle.rules.specs.Rules.{can_move};
ghost use Rattle.position.specs.Posed.{board_in, Complete};
ghost use Rattle.successors.specs.Successors.{bytes_in, sifted_by, sifted_from, king_at};
ghost use Rattle.successors.specs.Quiet.{of_man, taking_to};

use super::along::sift_man;
use super::by_king::sift_king;
use super::sifting::sift_each;
use board::{minus, one};
use movegen::king_at;
use position::{Men, Place};

// The men's squares.
pub fn men_squares(q: Place) -> u64
    ensures { (t : ℕ) → t < 64 → has result t ≡ of_man q t }
{
    one(q.first) | one(q.second)
}

// The moves that take a man: as a rule there is none.
fn sift_taking(
    m: Men,
    q: Place,
    from: u8,
    targets: u64,
    byte: u16,
    table: &[u8],
    first: &[u8],
    second: &[u8],
) -> Option<u64>
    ensures { Complete m q → targets ≡ set_of (taking_to m q from) → result ≡ sifted_by (bytes_in m first.now second.now table.now) byte (board_in m q) from (taking_to m q from) }
{
    if targets == 0 {
        return Some(0);
    }
    sift_each(m, q, from, targets, byte, table, first, second)
}

// The moves of the king to move to all his legal targets.
pub fn sift_steps(
    men: u64,
    m: Men,
    q: Place,
    targets: u64,
    byte: u16,
    table: &[u8],
    first: &[u8],
    second: &[u8],
) -> Option<u64>
    ensures { Complete m q → targets ≡ set_of (can_move (board_in m q) (king_at q)) → ((t : ℕ) → t < 64 → has men t ≡ of_man q t) → result ≡ sifted_from (bytes_in m first.now second.now table.now) byte (board_in m q) (king_at q) }
{
    let king = king_at(q, q.side);
    let taking = sift_taking(m, q, king, targets & men, byte, table, first, second)?;
    let others = sift_king(m, q, minus(targets, men), byte, table)?;
    Some(taking | others)
}

// The moves of the man on a square to all his legal targets.
pub fn sift_moves(
    men: u64,
    m: Men,
    q: Place,
    from: u8,
    targets: u64,
    byte: u16,
    table: &[u8],
    first: &[u8],
    second: &[u8],
) -> Option<u64>
    ensures { Complete m q → targets ≡ set_of (can_move (board_in m q) from) → ((t : ℕ) → t < 64 → has men t ≡ of_man q t) → of_man q from ≡ true → result ≡ sifted_from (bytes_in m first.now second.now table.now) byte (board_in m q) from }
{
    let taking = sift_taking(m, q, from, targets & men, byte, table, first, second)?;
    let others = sift_man(m, q, from, minus(targets, men), byte, table, first, second)?;
    Some(taking | others)
}
