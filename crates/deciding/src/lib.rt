// Whether a byte is the one required, whatever the ending: of pieces, or king and pawn. The pawn's men are 4 and 4, its
// square the place's first; the four tables it borrows lie one after the other in `first`.
#![tactic(auto)]

mod numbers;
mod pawn;
mod row_sets;
mod rows;
mod settling;
mod verdicts;

pub use numbers::{is_legal_number, is_legal_on, legal_in};
pub use pawn::pawn_verdict;
pub use row_sets::{checked_row_at, legal_row_at};
pub use rows::{in_row, row_at};
pub use settling::{requires_at, requires_on};
pub use verdicts::{requires_byte, requires_depth};

// The kind of a pawn.
pub const PAWN: u8 = 4;
