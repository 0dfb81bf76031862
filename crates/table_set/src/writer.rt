// Writing a set: whole, or its header first and then each ending by itself.
ghost use Rattle.std.specs.Prelude.{◌≡◌};
ghost use Rattle.sets.specs.Answers.{write_of, start_of, fill_in_of};
ghost use Rattle.desk_refusals.specs.Numbers.{by_number};

use super::TABLE_SIZE;
use super::header::{chosen, count, write_header};
use super::reader::find;
use super::tables::{fill_at, is_refused};
use desk_refusals::Refusal;
use sets::Choice;

// Writes the chosen endings' tables as one set. Refusal 14 where the bytes are not as many as the choice needs, and then nothing is written; 10 as
// filling, and then all bytes are zero.
pub fn write(choice: Choice, set: &mut [u8]) -> Result<(), Refusal>
    ensures { (by_number result ≡ (write_of choice set.old).answer) × (set.new ≡ (write_of choice set.old).bytes) }
{
    let n = count(choice);
    let first = 4 + 12 * n;
    if set.len() != first + TABLE_SIZE * n {
        return Err(Refusal::WrongSet);
    }
    write_header(choice, n, &mut *set);
    let mut at = first;
    for code in 0..4 {
        if !chosen(choice, code) {
            continue;
        }
        if is_refused(fill_at(code, at, &mut *set)) {
            return Err(Refusal::TooDeep);
        }
        at += TABLE_SIZE;
    }
    Ok(())
}

// Writes the header alone, for a host that fills the endings one by one. Refusal 14 as `write`.
pub fn start(choice: Choice, set: &mut [u8]) -> Result<(), Refusal>
    ensures { (by_number result ≡ (start_of choice set.old).answer) × (set.new ≡ (start_of choice set.old).bytes) }
{
    let n = count(choice);
    if set.len() != 4 + 12 * n + TABLE_SIZE * n {
        return Err(Refusal::WrongSet);
    }
    write_header(choice, n, &mut *set);
    Ok(())
}

// Fills one ending's table in its own part; the other parts stay as they are. Refusals 1, 14 and 15 as `find`, and then nothing is written; 10 as filling,
// and then all bytes are zero.
pub fn fill_ending(code: u8, set: &mut [u8]) -> Result<Option<u8>, Refusal>
    ensures { (by_number result ≡ (fill_in_of code set.old).answer) × (set.new ≡ (fill_in_of code set.old).bytes) }
{
    let at = find(&*set, code)?;
    fill_at(code, at as usize, &mut *set)
}
