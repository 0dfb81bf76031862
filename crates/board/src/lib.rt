// Squares, the lines along which pieces attack, and sets of squares.
#![tactic(auto)]

mod empty_board;
mod lines;
mod sets;
mod squares;
mod steps;
mod walks;

pub use lines::targets;
pub use sets::{beyond_lowest, has, lowest, minus, one, size, with, without};
pub use squares::{Squares, squares_of};
pub use steps::step_to;
pub use walks::{attacks, walk};
