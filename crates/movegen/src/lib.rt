// Moves on an ending's place: where a piece stands after one, and the legal targets of the side to move's pieces.
#![tactic(auto)]

mod passing;
mod places;
mod reaching;

pub use passing::passing_of;
pub use places::{
    carried, checked, king_at, men_strike, occupied_at, place_after, square_after, struck_by,
};
pub use reaching::{king_targets, reach_of};

// The legal targets of the side to move's king, and of an ending's men: none for a man of the other side, or one not
// there.
#[derive(Clone, Copy)]
pub struct Reach {
    pub king: u64,
    pub first: u64,
    pub second: u64,
}
