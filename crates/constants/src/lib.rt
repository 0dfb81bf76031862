// Tables of constants, each read by a `match`: an integer `match` becomes a read-only table, where a constant array would
// be built anew at each read.
#![tactic(auto)]

mod empty_board;

pub use empty_board::{bishop_lines, king_steps, knight_steps, rook_lines};
