// The library's functions for C (include/sledgewren.h): each answer as one word. In all of them values come first,
// then the lent bytes that are only read, then those that are written to.
#![tactic(auto)]

mod desk;
mod lists;
mod numbers;
mod opinions;
mod plays;
mod pocket_words;
mod pockets;
mod set_file;
mod steps;
mod tables;
mod typed_number;
mod version;

pub use desk::sledgewren_answer_line;
pub use lists::sledgewren_moves;
pub use numbers::{
    sledgewren_count, sledgewren_ending, sledgewren_number, sledgewren_position,
    sledgewren_table_bytes,
};
pub use opinions::sledgewren_second_opinion;
pub use plays::sledgewren_play;
pub use pockets::{sledgewren_pack, sledgewren_pocket_look_up, sledgewren_tallies};
pub use set_file::{
    sledgewren_set_fill, sledgewren_set_find, sledgewren_set_start, sledgewren_set_write,
};
pub use steps::{sledgewren_fill_start, sledgewren_fill_step};
pub use tables::{sledgewren_check, sledgewren_fill, sledgewren_fill_back, sledgewren_look_up};
pub use typed_number::sledgewren_write_number;
pub use version::sledgewren_version_number;
