// How far filling in steps is. Stage 0: going on, with the step for depth `next`; 1: done; any other: 10 was given. `last` is 1 + the last depth
// settled, and 0 where none was.
#![tactic(auto)]

// A word of C, in which the stage is any number.
#[derive(Clone, Copy)]
pub struct Progress {
    pub stage: u8,
    pub next: u16,
    pub last: u8,
}
