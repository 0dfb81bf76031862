// A byte compared with the successors by one piece's moves, in one pass that stops at the first that refutes it: `None`
// where one does, else the targets whose bytes suit.
ghost use Rattle.std.specs.Prelude.{◌≡◌, Bool, ℕ, ◌<◌, T};
ghost use Rattle.board.specs.Sets.{set_of};
ghost use Rattle.rules.specs.Rules.{Board, moved, can_move};
ghost use Rattle.position.specs.Posed.{board_in, Complete};
ghost use Rattle.successors.specs.Successors.{bytes_in, sifted_by};

use super::after::byte_after;
use super::framing::frame_for;
use board::{squares_of, with};
use byte_rule::{refutes, suits};
use position::{Men, Place, other};

// The moves to these targets, whose bytes the caller reads.
pub fn sift<F: Fn(u8) -> u8>(targets: u64, byte: u16, read: F) -> Option<u64>
    requires { (to : ℕ) → to < 64 → F.pre read to }
    ensures { (bytes : Board → ℕ) (b : Board) (from : ℕ) (goes : ℕ → Bool) → targets ≡ set_of goes → ((t r : ℕ) → t < 64 → T (goes t) → F.post read t r → r ≡ bytes (moved b from t)) → result ≡ sifted_by bytes byte b from goes }
{
    let mut found: u64 = 0;
    for to in squares_of(targets) {
        let c = read(to);
        if refutes(byte, c) {
            return None;
        }
        if suits(byte, c) {
            found = with(found, to);
        }
    }
    Some(found)
}

// The moves of the piece on a square to these targets, whichever they are.
pub fn sift_each(
    m: Men,
    q: Place,
    from: u8,
    targets: u64,
    byte: u16,
    table: &[u8],
    first: &[u8],
    second: &[u8],
) -> Option<u64>
    ensures { Complete m q → (goes : ℕ → Bool) → targets ≡ set_of goes → ((t : ℕ) → T (goes t) → T (can_move (board_in m q) from t)) → result ≡ sifted_by (bytes_in m first.now second.now table.now) byte (board_in m q) from goes }
{
    let f = frame_for(other(q.side), q.white, q.black);
    sift(targets, byte, |to| {
        byte_after(m, q, f, from, to, table, first, second)
    })
}
