// The second opinion on a position as keyed.
ghost use Rattle.std.specs.Prelude.{◌≡◌};
ghost use Rattle.position.specs.Keyed.{board_of};
ghost use Rattle.search.specs.Opinions.{asked_in, opinion_of};
ghost use Rattle.search.specs.Tried.{Pawnless};
ghost use Rattle.desk_refusals.specs.Numbers.{by_number};

use super::Opinion;
use super::within::{lost_within, won_within};
use desk_refusals::Refusal;
use position::{Position, standing_refusal};

// The most plies that may be asked.
const MOST: u8 = 6;

// Whether the position is won within n plies, where n is odd, or lost, where it is even: no win is even and no loss odd.
fn is_decided(s: Position, n: u8) -> bool
    ensures { Pawnless (board_of s) → result ≡ asked_in (board_of s) n }
{
    if n % 2 == 1 {
        return won_within(s, n);
    }
    lost_within(s, n)
}

// The exact depth if at most k, asked in rising order; or a refusal from 1 to 6, or 16.
pub fn second_opinion(p: Position, k: u8) -> Result<Opinion, Refusal>
    ensures { by_number result ≡ opinion_of p k }
{
    standing_refusal(p)?;
    if MOST < k {
        return Err(Refusal::TooManyPlies);
    }
    for n in 0..=k {
        if is_decided(p, n) {
            if n % 2 == 1 {
                return Ok(Opinion::Win(n));
            }
            return Ok(Opinion::Loss(n));
        }
    }
    Ok(Opinion::NotWithin)
}
