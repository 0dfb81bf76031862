// Filling a table, checking one, and looking a position up, with one piece, two or a pawn. The small tables are those
// of the first man's kind and of the second's; a pawn's are the four pieces' in the first, one after the other; with
// one piece they are not read.
ghost use Rattle.std.specs.Prelude.{◌≡◌};
ghost use Rattle.four_men.specs.Lending.{lent};
ghost use Rattle.four_men.specs.Answers.{fill_with, check_with};
ghost use Rattle.filling.specs.FillPromise.{fill_back_with};
ghost use Rattle.fifty.specs.Marks.{look_up_at_with};
ghost use Rattle.given_words.specs.Men.{position_read};
ghost use Rattle.given_words.specs.Endings.{material_read};
ghost use Rattle.sledgewren.specs.Words.{filled_word, checked_word, marked_word};

use checking::check_with;
use fifty::look_up_at_with;
use filling::{fill_back, fill_with};
use given_words::{material_read, position_read};
use words::{checked_word, filled_word, marked_word};

// Refusals 1, 7 and 17 leave the table as it was, 10 all zero.
pub fn sledgewren_fill(
    ending: u32,
    small_first: &[u8],
    small_second: &[u8],
    table: &mut [u8],
) -> u32
    ensures { (result ≡ filled_word (fill_with (material_read ending) (lent small_first.now small_second.now) table.old).answer) × (table.new ≡ (fill_with (material_read ending) (lent small_first.now small_second.now) table.old).bytes) }
{
    let m = material_read(ending);
    filled_word(fill_with(m, small_first, small_second, &mut *table))
}

// The same of pieces, quicker: it works back from the positions just settled. King and pawn is refused 1.
pub fn sledgewren_fill_back(
    ending: u32,
    small_first: &[u8],
    small_second: &[u8],
    table: &mut [u8],
) -> u32
    ensures { (result ≡ filled_word (fill_back_with (material_read ending) (lent small_first.now small_second.now) table.old).answer) × (table.new ≡ (fill_back_with (material_read ending) (lent small_first.now small_second.now) table.old).bytes) }
{
    let m = material_read(ending);
    filled_word(fill_back(m, small_first, small_second, &mut *table))
}

// Refusals 1, 7 and 17.
pub fn sledgewren_check(ending: u32, small_first: &[u8], small_second: &[u8], table: &[u8]) -> u64
    ensures { result ≡ checked_word (check_with (material_read ending) (lent small_first.now small_second.now) table.now) }
{
    let m = material_read(ending);
    checked_word(check_with(m, table, small_first, small_second))
}

// Refusals 1 to 7, 11, 18 and 19.
pub fn sledgewren_look_up(
    side: u8,
    white: u8,
    black: u8,
    first: u32,
    second: u32,
    plies: u32,
    small_first: &[u8],
    small_second: &[u8],
    table: &[u8],
) -> u64
    ensures { result ≡ marked_word (look_up_at_with (lent small_first.now small_second.now) table.now plies (position_read side white black first second)) }
{
    let p = position_read(side, white, black, first, second);
    marked_word(look_up_at_with(p, plies, table, small_first, small_second))
}
