// A set of tables in one file: written, and an ending found in it.
ghost use Rattle.std.specs.Prelude.{◌≡◌};
ghost use Rattle.sets.specs.Answers.{write_of, start_of, fill_in_of, find_of};
ghost use Rattle.sledgewren.specs.Words.{filled_word};
ghost use Rattle.sledgewren.specs.SetWords.{choice_by, set_written_word, found_word};

// Refusal 14 leaves the set as it was, 10 all zero.
#[unsafe(no_mangle)]
pub extern "C" fn sledgewren_set_write(
    queen: u8,
    rook: u8,
    bishop: u8,
    knight: u8,
    set: &mut [u8],
) -> u32
    ensures { (result ≡ set_written_word (write_of (choice_by queen rook bishop knight) set.old).answer) × (set.new ≡ (write_of (choice_by queen rook bishop knight) set.old).bytes) }
{
    sledgewren::sledgewren_set_write(queen, rook, bishop, knight, &mut *set)
}

// The header alone. Refusal 14 leaves the set as it was.
#[unsafe(no_mangle)]
pub extern "C" fn sledgewren_set_start(
    queen: u8,
    rook: u8,
    bishop: u8,
    knight: u8,
    set: &mut [u8],
) -> u32
    ensures { (result ≡ set_written_word (start_of (choice_by queen rook bishop knight) set.old).answer) × (set.new ≡ (start_of (choice_by queen rook bishop knight) set.old).bytes) }
{
    sledgewren::sledgewren_set_start(queen, rook, bishop, knight, &mut *set)
}

// One ending's table, in its own part. Refusals 1, 14 and 15 leave the set as it was, 10 all zero.
#[unsafe(no_mangle)]
pub extern "C" fn sledgewren_set_fill(kind: u8, set: &mut [u8]) -> u32
    ensures { (result ≡ filled_word (fill_in_of kind set.old).answer) × (set.new ≡ (fill_in_of kind set.old).bytes) }
{
    sledgewren::sledgewren_set_fill(kind, &mut *set)
}

// Refusals 1, 14 and 15.
#[unsafe(no_mangle)]
pub extern "C" fn sledgewren_set_find(kind: u8, set: &[u8]) -> u64
    ensures { result ≡ found_word (find_of set.now kind) }
{
    sledgewren::sledgewren_set_find(kind, set)
}
