// A fill for comparison alone, as C calls it: every position is tried at every depth. The library has quicker ones with
// the same promise.
#![tactic(auto)]

ghost use Rattle.std.specs.Prelude.{◌≡◌};
ghost use Rattle.four_men.specs.Lending.{lent};
ghost use Rattle.four_men.specs.Answers.{fill_with};
ghost use Rattle.given_words.specs.Endings.{material_read};
ghost use Rattle.words.specs.Words.{filled_word};

use filling::fill_every;
use given_words::material_read;
use words::filled_word;

// Refusals 1, 7 and 17 leave the table as it was, 10 all zero.
pub fn sledgewren_fill_every(
    ending: u32,
    small_first: &[u8],
    small_second: &[u8],
    table: &mut [u8],
) -> u32
    ensures { (result ≡ filled_word (fill_with (material_read ending) (lent small_first.now small_second.now) table.old).answer) × (table.new ≡ (fill_with (material_read ending) (lent small_first.now small_second.now) table.old).bytes) }
{
    let m = material_read(ending);
    filled_word(fill_every(m, small_first, small_second, &mut *table))
}
