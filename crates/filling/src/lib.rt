// Filling a table by passes over the numbers that are not settled yet, at once or in steps; one man or two, captures
// read in lent tables.
#![tactic(auto)]

mod bytes;
mod deepest;
mod fill_table;
mod halves;
mod mates;
mod pass;
mod steps;
mod taking;
mod turns;
mod ways;

pub use bytes::clear;
pub use fill_table::{fill, fill_back, fill_every, fill_one_back, fill_with};
pub use steps::{Step, Stepped};
pub use taking::{start_filling, start_with, step_with, take_step};
