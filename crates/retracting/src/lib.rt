// Moves taken back: the legal positions of an ending that have a legal move into a position.
#![tactic(auto)]

mod places;
mod steps;

pub use places::{again, left_place, lone_men, place_before, sources, stood_before};
pub use steps::steps_back;
