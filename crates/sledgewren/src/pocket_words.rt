// The word of each answer of the pocket edition.
ghost use Rattle.std.specs.Prelude.{◌≡◌};
ghost use Rattle.pocket.specs.Pocket.{told_by};
ghost use Rattle.sledgewren.specs.PocketWords.{packed_word, told_word, tallied_word};
ghost use Rattle.desk_refusals.specs.Numbers.{numbered};

use desk_refusals::Numbered;
use pocket::{PocketAnswer, Tallies};

// Each answer has its word, by two or three arms: over another type, no shared form is plainer.
pub fn packed_word<R: Numbered>(p: Result<(), R>) -> u32
    ensures { result ≡ packed_word (numbered R.shown_number p) }
{
    match p {
        Ok(()) => 0,
        Err(r) => r.shown() as u32,
    }
}

pub fn pocket_word<R: Numbered>(a: Result<PocketAnswer, R>) -> u32
    ensures { result ≡ told_word (told_by (numbered R.shown_number a)) }
{
    match a {
        Ok(PocketAnswer::Win) => 0x100,
        Ok(PocketAnswer::Loss) => 0x200,
        Ok(PocketAnswer::Draw) => 0x300,
        Err(r) => r.shown() as u32,
    }
}

fn tallies_word(t: Tallies) -> u64
    ensures { result ≡ tallied_word (Ok t) }
{
    t.none as u64
        + t.draws as u64 * 0x1_0000
        + t.wins as u64 * 0x1_0000_0000
        + t.losses as u64 * 0x1_0000_0000_0000
}

pub fn tallied_word<R: Numbered>(t: Result<Tallies, R>) -> u64
    ensures { result ≡ tallied_word (numbered R.shown_number t) }
{
    match t {
        Ok(tallies) => tallies_word(tallies),
        Err(r) => r.shown() as u64,
    }
}
