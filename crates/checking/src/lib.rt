// Checking a table: every byte must be the one that its successors' bytes require.
#![tactic(auto)]

mod checker;
mod numbers;

pub use checker::{check, check_with, lent_accepted};
