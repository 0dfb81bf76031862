// What the writer and the reader of a set of tables are asked and answer.
#![tactic(auto)]

// Which endings a set is to hold: a yes or no for each material code.
#[derive(Clone, Copy)]
pub struct Choice {
    pub queen: bool,
    pub rook: bool,
    pub bishop: bool,
    pub knight: bool,
}
