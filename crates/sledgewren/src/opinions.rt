// The second opinion on a position, and its word.
ghost use Rattle.std.specs.Prelude.{◌≡◌};
ghost use Rattle.search.specs.Opinions.{opinion_of};
ghost use Rattle.given_words.specs.Men.{position_read};
ghost use Rattle.sledgewren.specs.OpinionWord.{opinion_word};
ghost use Rattle.desk_refusals.specs.Numbers.{by_number};

use desk_refusals::Refusal;
use given_words::position_read;
use search::{Opinion, second_opinion};

fn opinion_word(o: Result<Opinion, Refusal>) -> u32
    ensures { result ≡ opinion_word (by_number o) }
{
    match o {
        Ok(Opinion::Win(n)) => 0x100 + n as u32 * 0x1_0000,
        Ok(Opinion::Loss(n)) => 0x200 + n as u32 * 0x1_0000,
        Ok(Opinion::NotWithin) => 0x400,
        Err(r) => r.number() as u32,
    }
}

// Refusals 1 to 6, and 16 for more than 6 plies.
pub fn sledgewren_second_opinion(
    side: u8,
    white: u8,
    black: u8,
    first: u32,
    second: u32,
    plies: u8,
) -> u32
    ensures { result ≡ opinion_word (opinion_of (position_read side white black first second) plies) }
{
    let p = position_read(side, white, black, first, second);
    opinion_word(second_opinion(p, plies))
}
