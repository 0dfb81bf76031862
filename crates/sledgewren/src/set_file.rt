// A set of tables in one file: written, and an ending found in it.
ghost use Rattle.std.specs.Prelude.{◌≡◌};
ghost use Rattle.sets.specs.Answers.{write_of, start_of, fill_in_of, find_of};
ghost use Rattle.sledgewren.specs.Words.{filled_word};
ghost use Rattle.sledgewren.specs.SetWords.{choice_by, set_written_word, found_word};
ghost use Rattle.desk_refusals.specs.Numbers.{by_number};

use desk_refusals::Refusal;
use sets::Choice;
use table_set::{fill_ending, find, start, write};
use words::filled_word;

fn choice_by(queen: u8, rook: u8, bishop: u8, knight: u8) -> Choice
    ensures { result ≡ choice_by queen rook bishop knight }
{
    Choice {
        queen: queen != 0,
        rook: rook != 0,
        bishop: bishop != 0,
        knight: knight != 0,
    }
}

fn written_word(w: Result<(), Refusal>) -> u32
    ensures { result ≡ set_written_word (by_number w) }
{
    match w {
        Ok(()) => 0,
        Err(r) => r.number() as u32,
    }
}

fn found_word(f: Result<u32, Refusal>) -> u64
    ensures { result ≡ found_word (by_number f) }
{
    match f {
        Ok(offset) => 59136 * 0x100 + offset as u64 * 0x1_0000_0000,
        Err(r) => r.number() as u64,
    }
}

// Refusal 14 leaves the set as it was, 10 all zero.
pub fn sledgewren_set_write(queen: u8, rook: u8, bishop: u8, knight: u8, set: &mut [u8]) -> u32
    ensures { (result ≡ set_written_word (write_of (choice_by queen rook bishop knight) set.old).answer) × (set.new ≡ (write_of (choice_by queen rook bishop knight) set.old).bytes) }
{
    written_word(write(choice_by(queen, rook, bishop, knight), &mut *set))
}

// The header alone. Refusal 14 leaves the set as it was.
pub fn sledgewren_set_start(queen: u8, rook: u8, bishop: u8, knight: u8, set: &mut [u8]) -> u32
    ensures { (result ≡ set_written_word (start_of (choice_by queen rook bishop knight) set.old).answer) × (set.new ≡ (start_of (choice_by queen rook bishop knight) set.old).bytes) }
{
    written_word(start(choice_by(queen, rook, bishop, knight), &mut *set))
}

// One ending's table, in its own part. Refusals 1, 14 and 15 leave the set as it was, 10 all zero.
pub fn sledgewren_set_fill(kind: u8, set: &mut [u8]) -> u32
    ensures { (result ≡ filled_word (fill_in_of kind set.old).answer) × (set.new ≡ (fill_in_of kind set.old).bytes) }
{
    filled_word(fill_ending(kind, &mut *set))
}

// Refusals 1, 14 and 15.
pub fn sledgewren_set_find(kind: u8, set: &[u8]) -> u64
    ensures { result ≡ found_word (find_of set.now kind) }
{
    found_word(find(set, kind))
}
