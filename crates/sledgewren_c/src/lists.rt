// The move list, written to lent bytes.
ghost use Rattle.given_words.specs.Men.{position_read};
ghost use Rattle.sledgewren.specs.Words.{WroteList, listing_of};

// Refusals 1 to 6 and 18 leave all bytes zero; with another length than 248 nothing is written. The movers are found
// first, and the bytes cleared last: of the orders tried the quickest.
#[unsafe(no_mangle)]
pub extern "C" fn sledgewren_moves(
    side: u8,
    white: u8,
    black: u8,
    first: u32,
    second: u32,
    moves: &mut [u8],
) -> u32
    ensures { WroteList (listing_of (position_read side white black first second) moves.old) result moves.new }
{
    sledgewren::sledgewren_moves(side, white, black, first, second, &mut *moves)
}
