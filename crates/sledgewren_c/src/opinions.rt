// The second opinion on a position, and its word.
ghost use Rattle.std.specs.Prelude.{◌≡◌};
ghost use Rattle.search.specs.Opinions.{opinion_of};
ghost use Rattle.given_words.specs.Men.{position_read};
ghost use Rattle.sledgewren.specs.OpinionWord.{opinion_word};

// Refusals 1 to 6, and 16 for more than 6 plies.
#[unsafe(no_mangle)]
pub extern "C" fn sledgewren_second_opinion(
    side: u8,
    white: u8,
    black: u8,
    first: u32,
    second: u32,
    plies: u8,
) -> u32
    ensures { result ≡ opinion_word (opinion_of (position_read side white black first second) plies) }
{
    sledgewren::sledgewren_second_opinion(side, white, black, first, second, plies)
}
