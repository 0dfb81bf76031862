// The move list, written to lent bytes.
ghost use Rattle.given_words.specs.Men.{position_read};
ghost use Rattle.sledgewren.specs.Words.{WroteList, listing_of};

use desk_refusals::Refusal;
use filling::clear;
use given_words::position_read;
use move_bytes::write_moves;
use position::placing_with;
use position_moves::movers_of;

// A lent list has room for the moves of two men besides the kings, which are four bytes each.
const LIST_BYTES: usize = 4 * 62;

// The answer where another length is lent.
const NO_LIST: u32 = 255;

// Refusals 1 to 6 and 18 leave all bytes zero; with another length than 248 nothing is written. The movers are found
// first, and the bytes cleared last: of the orders tried the quickest.
pub fn sledgewren_moves(
    side: u8,
    white: u8,
    black: u8,
    first: u32,
    second: u32,
    moves: &mut [u8],
) -> u32
    ensures { WroteList (listing_of (position_read side white black first second) moves.old) result moves.new }
{
    if moves.len() != LIST_BYTES {
        return NO_LIST;
    }
    let p = position_read(side, white, black, first, second);
    let all = movers_of(p);
    let placed = placing_with(p);
    clear(&mut *moves);
    match placed {
        Err(r) => r.number() as u32,
        Ok(()) => {
            if all.check {
                return Refusal::OtherInCheck.number() as u32;
            }
            write_moves(p, all, &mut *moves) as u32 * 0x100
        },
    }
}
