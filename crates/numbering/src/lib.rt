// The material of an ending: one man, by his kind; two, by the first's kind and the second's, and whether they are one
// each; or a pawn.
#![tactic(auto)]

#[derive(Clone, Copy)]
pub enum Material {
    One(u8),
    Two(u8, u8, bool),
    Pawn,
}
