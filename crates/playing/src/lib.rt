// A legal move played on a position as keyed.
#![tactic(auto)]

mod promoting;

ghost use Rattle.std.specs.Prelude.{◌≡◌};
ghost use Rattle.playing.specs.Playing.{closed_up, play_of};
ghost use Rattle.desk_refusals.specs.Numbers.{by_number};

use board::has;
use desk_refusals::Refusal;
use move_list::promoting_set;
use position::{Position, standing_with};
use position_moves::legal_targets;
use promoting::{is_named, make_as};

// A man left alone becomes the first.
fn closed_up(p: Position) -> Position
    ensures { result ≡ closed_up p }
{
    let first = p.first;
    let second = p.second;
    match first {
        None => Position {
            side: p.side,
            white_king: p.white_king,
            black_king: p.black_king,
            first: second,
            second: None,
        },
        Some(_) => p,
    }
}

// A promotion names the piece by 1 and its kind; any other move has 0.
pub fn play(p: Position, from: u8, to: u8, becomes: u8) -> Result<Option<Position>, Refusal>
    ensures { by_number result ≡ play_of p from to becomes }
{
    standing_with(p)?;
    if !has(legal_targets(p, from), to) {
        return Ok(None);
    }
    if !is_named(has(promoting_set(p, from), to), becomes) {
        return Ok(None);
    }
    Ok(Some(closed_up(make_as(p, from, to, becomes))))
}
