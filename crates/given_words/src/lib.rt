// The words that a position and an ending are given in (include/sledgewren.h).
#![tactic(auto)]

mod ending_words;
mod men;

pub use ending_words::{ending_of, material_read, table_bytes};
pub use men::{position_read, short_man};
