// Filling in steps: the progress as one word, and each call's answer as one word.
ghost use Rattle.std.specs.Prelude.{◌≡◌};
ghost use Rattle.four_men.specs.Lending.{lent};
ghost use Rattle.given_words.specs.Endings.{material_read};
ghost use Rattle.sledgewren.specs.StepWord.{progress_of, step_word, start_for, step_for};

// Refusals 1 and 7 leave the table as it was.
#[unsafe(no_mangle)]
pub extern "C" fn sledgewren_fill_start(ending: u32, table: &mut [u8]) -> u64
    ensures { (result ≡ step_word (start_for (material_read ending) table.old).step) × (table.new ≡ (start_for (material_read ending) table.old).bytes) }
{
    sledgewren::sledgewren_fill_start(ending, &mut *table)
}

// The small tables' bytes are read as they stand, accepted or not. Refusals 1 and 7 leave the table and the progress
// as they were, 10 leaves the table all zero.
#[unsafe(no_mangle)]
pub extern "C" fn sledgewren_fill_step(
    ending: u32,
    progress: u32,
    small_first: &[u8],
    small_second: &[u8],
    table: &mut [u8],
) -> u64
    ensures { (result ≡ step_word (step_for (material_read ending) (progress_of progress) (lent small_first.now small_second.now) table.old).step) × (table.new ≡ (step_for (material_read ending) (progress_of progress) (lent small_first.now small_second.now) table.old).bytes) }
{
    sledgewren::sledgewren_fill_step(ending, progress, small_first, small_second, &mut *table)
}
