// King and pawn on a place: the legal place at a number, the byte after each legal move, a byte weighed against all of
// them, and the end of the game. The pawn is White's and the place's first man; there is no second.
#![tactic(auto)]

use rules::Move;

mod ends;
mod numbers;
mod reading;
mod weighing;

pub use ends::{end_byte, is_mated, is_stuck};
pub use numbers::{is_pawn_legal, pawn_seat};
pub use reading::pawn_byte;
pub use weighing::weigh;

const PAWN: u8 = 4;

// A byte against those of the successors: one refutes it; or none does, and this is the first move that suits it; or
// none suits.
#[derive(Clone, Copy)]
pub enum Weighed {
    Refuted,
    Met(Move),
    Unmet,
}
