// A byte of a table compared with those of a position's successors, for one man and for two: whether it is the one
// required, and the move that it advises.
#![tactic(auto)]

use position::Place;

mod after;
mod along;
mod bases;
mod by_king;
mod choosing;
mod framing;
mod judging;
mod lone;
mod lone_reach;
mod numbers;
mod quiet;
mod sifting;
mod verdicts;

pub use after::{byte_at, byte_made};
pub use bases::{base_of_first, base_of_one, base_of_second, spot};
pub use framing::frame_for;
pub use numbers::{is_legal_number, legal_at};
use rules::Move;
pub use verdicts::{requires_byte, requires_depth, verdict_on};

// What the kings and the side to move fix of a number, whatever squares the men stand on.
#[derive(Clone, Copy)]
pub struct Frame {
    // side x 462 + pair
    pub kings: u32,
    // The bits of a square that the reversals turn over.
    pub flip: u8,
    // File and rank exchanged: 0 no, 1 yes, 2 where that makes the men's digits less.
    pub exchange: u8,
}

// The first suiting move, by its squares; 64 twice where none suits. Whether it takes is asked once, of the one given.
#[derive(Clone, Copy)]
pub struct Seen {
    pub from: u8,
    pub to: u8,
}

// A byte weighed against all successors: one refutes it; none suits, though there are moves; there is no move; or the
// first move that suits.
#[derive(Clone, Copy)]
pub enum Weighed {
    Refuted,
    Unmet,
    Stuck,
    Met(Seen),
}

// The verdict on a byte: it is not the one required; or it is, with the move that it advises.
// An enum: in an option of an option nobody sees which of the two is missing.
#[derive(Clone, Copy)]
pub enum Verdict {
    Wrong,
    Right(Option<Move>),
}
