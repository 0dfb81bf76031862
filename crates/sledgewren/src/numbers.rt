// The number of a position, the position of a number, the count of moves, and which ending a position's men are.
ghost use Rattle.std.specs.Prelude.{◌≡◌};
ghost use Rattle.index.specs.Answers.{number_with, placed_with};
ghost use Rattle.move_list.specs.Answers.{count_answer};
ghost use Rattle.given_words.specs.Men.{position_read};
ghost use Rattle.given_words.specs.Endings.{material_read, ending_of, table_bytes};
ghost use Rattle.sledgewren.specs.Words.{number_word, placed_word, count_word};

use given_words::{ending_of, material_read, position_read, table_bytes};
use index::{number_with, position_with};
use move_list::move_count;
use words::{count_word, number_word, placed_word};

// Refusals 1 to 5 and 18.
pub fn sledgewren_number(side: u8, white: u8, black: u8, first: u32, second: u32) -> u32
    ensures { result ≡ number_word (number_with (position_read side white black first second)) }
{
    number_word(number_with(position_read(side, white, black, first, second)))
}

// Refusals 1, 8 and 9.
pub fn sledgewren_position(ending: u32, number: u32) -> u64
    ensures { result ≡ placed_word (placed_with (material_read ending) number) }
{
    placed_word(position_with(material_read(ending), number))
}

// Refusals 1 to 6 and 18.
pub fn sledgewren_count(side: u8, white: u8, black: u8, first: u32, second: u32) -> u32
    ensures { result ≡ count_word (count_answer (position_read side white black first second)) }
{
    count_word(move_count(position_read(side, white, black, first, second)))
}

// The ending of the men; all bits set where they are none.
pub fn sledgewren_ending(first: u32, second: u32) -> u32
    ensures { result ≡ ending_of first second }
{
    ending_of(first, second)
}

// How long the ending's table is; 0 where there is no such ending.
pub fn sledgewren_table_bytes(ending: u32) -> u32
    ensures { result ≡ table_bytes (material_read ending) }
{
    table_bytes(material_read(ending))
}
