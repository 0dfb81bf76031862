// The tables of a set, each filled in its own part.
ghost use Rattle.std.specs.Prelude.{◌≡◌, ◌+◌, ◌≤◌, length, take, drop};
ghost use Rattle.finite.specs.Pieces.{over};
ghost use Rattle.endings.specs.Ending.{table_size};
ghost use Rattle.endings.specs.Answers.{fill_of};
ghost use Rattle.sets.specs.Answers.{is_refusal, filled_at};
ghost use Rattle.desk_refusals.specs.Numbers.{by_number};

use super::TABLE_SIZE;
use desk_refusals::Refusal;
use filling::{clear, fill_one_back};

pub fn is_refused(filled: Result<Option<u8>, Refusal>) -> bool
    ensures { result ≡ is_refusal (by_number filled) }
{
    match filled {
        Ok(Some(_)) => false,
        Ok(None) => false,
        Err(_) => true,
    }
}

// Lends the part at the ending's offset to the fill; the other parts stay as they are.
fn fill_part(code: u8, at: usize, set: &mut [u8]) -> Result<Option<u8>, Refusal>
    requires { at + table_size ≤ length set.old }
    ensures { (by_number result ≡ (fill_of code (take table_size (drop at set.old))).answer) × (set.new ≡ over set.old at (fill_of code (take table_size (drop at set.old))).bytes) }
{
    let end = at + TABLE_SIZE;
    fill_one_back(code, &mut set[at..end])
}

// Fills the table at a place; where filling refuses, the whole set is zero.
pub fn fill_at(code: u8, at: usize, set: &mut [u8]) -> Result<Option<u8>, Refusal>
    requires { at + table_size ≤ length set.old }
    ensures { (by_number result ≡ (filled_at code at set.old).answer) × (set.new ≡ (filled_at code at set.old).bytes) }
{
    let filled = fill_part(code, at, &mut *set);
    if is_refused(filled) {
        clear(&mut *set);
    }
    filled
}
