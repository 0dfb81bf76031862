// Moves of a position as keyed: a move made, the legal targets of a piece, and where a move takes.
#![tactic(auto)]

mod in_position;
mod making;
mod targets;

pub use in_position::{movers_of, targets_from};
pub use making::make;
pub use targets::{legal_targets, taking_set};

// The squares of the side to move's pieces, the legal targets of its king and of each man (none for a man of the other
// side, or one not there), and whether it attacks the other king.
#[derive(Clone, Copy)]
pub struct Movers {
    pub own: u64,
    pub king: u64,
    pub first: u64,
    pub second: u64,
    pub check: bool,
}
