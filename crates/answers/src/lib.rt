// What checking, filling and looking up answer.
#![tactic(auto)]

use rules::Move;

// What look-up says of the side to move: a depth in plies with a win or a loss.
#[derive(Clone, Copy)]
pub enum Answer {
    Win(u8, Option<Move>),
    Loss(u8, Option<Move>),
    Draw(Option<Move>),
}

// What checking says: accepted, or the lowest wrong number. An enum: an option would call an accepted table none.
#[derive(Clone, Copy)]
pub enum Checked {
    Accepted,
    Wrong(u32),
}
