// A pass that works back from the positions just settled, for pieces. The men and the lent tables go as three parameters:
// in a struct of references each clause reads through two fields more.
#![tactic(auto)]

mod back;
mod bare;
mod captures;
mod finding;
mod into;
mod known;
mod lines;
mod losses;
mod spared;
mod trying;
mod winning;
mod wins;

pub use back::pass_back;
