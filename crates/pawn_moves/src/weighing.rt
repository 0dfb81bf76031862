// A byte weighed against all successors, in list order.
ghost use Rattle.std.specs.Prelude.{◌≡◌};
ghost use Rattle.pawn_moves.specs.PawnMoves.{pawn_at, PawnOn, pawn_bytes, weighed};

use super::reading::byte_after;
use super::{PAWN, Weighed};
use byte_rule::{refutes, suits};
use move_list::moves_of;
use position::{Place, lone};

// It stops at the first successor that refutes the byte.
pub fn weigh(q: Place, byte: u16, table: &[u8], run: &[u8]) -> Weighed
    ensures { PawnOn q → result ≡ weighed (pawn_bytes run.now table.now) byte (pawn_at q) }
{
    let list = moves_of(lone(PAWN, q.side, q.white, q.first, q.black));
    let mut best = None;
    for v in &list.moves[..list.count as usize] {
        let c = byte_after(q, *v, table, run);
        if refutes(byte, c) {
            return Weighed::Refuted;
        }
        best = best.or(suits(byte, c).then_some(*v));
    }
    match best {
        Some(v) => Weighed::Met(v),
        None => Weighed::Unmet,
    }
}
