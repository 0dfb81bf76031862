// The pocket edition: packing a table, looking a position up in a pocket, and a pocket's tallies.
ghost use Rattle.std.specs.Prelude.{◌≡◌};
ghost use Rattle.pocket.specs.Pocket.{pack_of, pocket_look_up_of};
ghost use Rattle.pocket.specs.Tally.{tally_of};
ghost use Rattle.given_words.specs.Men.{position_read};
ghost use Rattle.sledgewren.specs.PocketWords.{packed_word, told_word, tallied_word};

// Refusal 7 leaves the pocket as it was.
#[unsafe(no_mangle)]
pub extern "C" fn sledgewren_pack(table: &[u8], pocket: &mut [u8]) -> u32
    ensures { (result ≡ packed_word (pack_of table.now pocket.old).answer) × (pocket.new ≡ (pack_of table.now pocket.old).bytes) }
{
    sledgewren::sledgewren_pack(table, &mut *pocket)
}

// Refusals 1 to 7 and 11.
#[unsafe(no_mangle)]
pub extern "C" fn sledgewren_pocket_look_up(
    side: u8,
    white: u8,
    black: u8,
    first: u32,
    second: u32,
    pocket: &[u8],
) -> u32
    ensures { result ≡ told_word (pocket_look_up_of pocket.now (position_read side white black first second)) }
{
    sledgewren::sledgewren_pocket_look_up(side, white, black, first, second, pocket)
}

// Refusal 7.
#[unsafe(no_mangle)]
pub extern "C" fn sledgewren_tallies(pocket: &[u8]) -> u64
    ensures { result ≡ tallied_word (tally_of pocket.now) }
{
    sledgewren::sledgewren_tallies(pocket)
}
