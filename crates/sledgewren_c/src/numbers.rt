// The number of a position, the position of a number, the count of moves, and which ending a position's men are.
ghost use Rattle.std.specs.Prelude.{◌≡◌};
ghost use Rattle.index.specs.Answers.{number_with, placed_with};
ghost use Rattle.move_list.specs.Answers.{count_answer};
ghost use Rattle.given_words.specs.Men.{position_read};
ghost use Rattle.given_words.specs.Endings.{material_read, ending_of, table_bytes};
ghost use Rattle.sledgewren.specs.Words.{number_word, placed_word, count_word};

// Refusals 1 to 5 and 18.
#[unsafe(no_mangle)]
pub extern "C" fn sledgewren_number(side: u8, white: u8, black: u8, first: u32, second: u32) -> u32
    ensures { result ≡ number_word (number_with (position_read side white black first second)) }
{
    sledgewren::sledgewren_number(side, white, black, first, second)
}

// Refusals 1, 8 and 9.
#[unsafe(no_mangle)]
pub extern "C" fn sledgewren_position(ending: u32, number: u32) -> u64
    ensures { result ≡ placed_word (placed_with (material_read ending) number) }
{
    sledgewren::sledgewren_position(ending, number)
}

// Refusals 1 to 6 and 18.
#[unsafe(no_mangle)]
pub extern "C" fn sledgewren_count(side: u8, white: u8, black: u8, first: u32, second: u32) -> u32
    ensures { result ≡ count_word (count_answer (position_read side white black first second)) }
{
    sledgewren::sledgewren_count(side, white, black, first, second)
}

// The ending of the men; all bits set where they are none.
#[unsafe(no_mangle)]
pub extern "C" fn sledgewren_ending(first: u32, second: u32) -> u32
    ensures { result ≡ ending_of first second }
{
    sledgewren::sledgewren_ending(first, second)
}

// How long the ending's table is; 0 where there is no such ending.
#[unsafe(no_mangle)]
pub extern "C" fn sledgewren_table_bytes(ending: u32) -> u32
    ensures { result ≡ table_bytes (material_read ending) }
{
    sledgewren::sledgewren_table_bytes(ending)
}
