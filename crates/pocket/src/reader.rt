// Looking a position up in its ending's pocket.
ghost use Rattle.std.specs.Prelude.{◌≡◌};
ghost use Rattle.pocket.specs.Pocket.{entry_at, told_by, entry_tells, pocket_look_up_of};
ghost use Rattle.desk_refusals.specs.Numbers.{by_number};

use super::rows::number_by_rows;
use crate::{POCKET_SIZE, PocketAnswer};
use desk_refusals::Refusal;
use position::{Position, standing_refusal};

// The entry of number k; 0 beyond the pocket's end.
fn entry_at(pocket: &[u8], k: u32) -> u8
    ensures { result ≡ entry_at pocket.now k }
{
    let i = (k / 4) as usize;
    if pocket.len() <= i {
        return 0;
    }
    (pocket[i] >> (2 * (k % 4))) % 4
}

// What an entry says of the side to move.
fn answer(entry: u8) -> Result<PocketAnswer, Refusal>
    ensures { told_by (by_number result) ≡ entry_tells entry }
{
    match entry {
        0 => Err(Refusal::Inconsistent),
        1 => Ok(PocketAnswer::Draw),
        2 => Ok(PocketAnswer::Win),
        _ => Ok(PocketAnswer::Loss),
    }
}

// The value; or a refusal, 1 to 7 or 11. One entry is read.
pub fn look_up(pocket: &[u8], p: Position) -> Result<PocketAnswer, Refusal>
    ensures { told_by (by_number result) ≡ pocket_look_up_of pocket.now p }
{
    standing_refusal(p)?;
    if pocket.len() != POCKET_SIZE {
        return Err(Refusal::TableLength);
    }
    answer(entry_at(pocket, number_by_rows(p)))
}
