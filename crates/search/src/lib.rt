// A second opinion without tables: a plain search straight from the rules.
#![tactic(auto)]

mod checks;
mod movers;
mod second;
mod within;

pub use second::second_opinion;
pub use within::{lost_within, won_within};

// What the search says of the side to move: a win or a loss in exactly so many plies, or neither within those asked.
#[derive(Clone, Copy)]
pub enum Opinion {
    Win(u8),
    Loss(u8),
    NotWithin,
}
