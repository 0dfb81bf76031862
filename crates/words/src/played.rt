// The position after a move as one word.
ghost use Rattle.std.specs.Prelude.{◌≡◌, Ok, Some};
ghost use Rattle.words.specs.Played.{played_word};
ghost use Rattle.desk_refusals.specs.Numbers.{numbered};

use desk_refusals::Numbered;
use given_words::short_man;
use position::Position;

fn after_word(p: Position) -> u64
    ensures { result ≡ played_word (Ok (Some p)) }
{
    let first = p.first;
    let second = p.second;
    let kings = u32::from_le_bytes([0, p.side, p.white_king, p.black_king]);
    u64::from(kings)
        + u64::from(short_man(first)) * 0x1_0000_0000
        + u64::from(short_man(second)) * 0x1_0000_0000_0000
}

pub fn played_word<R: Numbered>(p: Result<Option<Position>, R>) -> u64
    ensures { result ≡ played_word (numbered R.shown_number p) }
{
    match p {
        Ok(Some(at)) => after_word(at),
        Ok(None) => 0x8000,
        Err(r) => r.shown() as u64,
    }
}
