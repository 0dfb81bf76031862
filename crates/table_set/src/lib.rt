// One set of bytes for the tables of several endings: its reader and its writer.
#![tactic(auto)]

mod header;
mod reader;
mod tables;
mod words;
mod writer;

const TABLE_SIZE: usize = 59136;

pub use reader::{find, is_set, part};
pub use writer::{fill_ending, start, write};
