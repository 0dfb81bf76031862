// The four tallies of a pocket, by counting set bits.
ghost use Rattle.std.specs.Prelude.{◌≡◌, ◌+◌, ◌<◌, ◌≤◌, length};
ghost use Rattle.pocket.specs.Tally.{tally_of, Part};
ghost use Rattle.desk_refusals.specs.Numbers.{by_number};

use crate::{POCKET_SIZE, Tallies};
use desk_refusals::Refusal;

// The bytes of a word.
const WORD: usize = 8;

const NUMBERS: u32 = 59136;

// The low bit of each of a word's 32 entries.
const LOW_BITS: u64 = 6148914691236517205;

// The eight bytes from i on as one word of 32 entries, the first in the lowest bits.
fn word(pocket: &[u8], i: usize) -> u64
    requires { i + 7 < length pocket.now }
    ensures { Part pocket.now i 8 result }
{
    u64::from_le_bytes([
        pocket[i],
        pocket[i + 1],
        pocket[i + 2],
        pocket[i + 3],
        pocket[i + 4],
        pocket[i + 5],
        pocket[i + 6],
        pocket[i + 7],
    ])
}

// How many numbers have each of the four entries; or refusal 7. A draw sets the low bit of its entry, a win the high bit, a loss both.
pub fn tally(pocket: &[u8]) -> Result<Tallies, Refusal>
    ensures { by_number result ≡ tally_of pocket.now }
{
    if pocket.len() != POCKET_SIZE {
        return Err(Refusal::TableLength);
    }
    let mut low: u32 = 0;
    let mut high: u32 = 0;
    let mut both: u32 = 0;
    for i in 0..POCKET_SIZE / WORD {
        let w = word(pocket, WORD * i);
        let lows = w & LOW_BITS;
        let highs = (w >> 1) & LOW_BITS;
        low += u64::count_ones(lows);
        high += u64::count_ones(highs);
        both += u64::count_ones(lows & highs);
    }
    let none = (NUMBERS + both - low - high) as u16;
    let draws = (low - both) as u16;
    let wins = (high - both) as u16;
    let losses = both as u16;
    Ok(Tallies {
        none,
        draws,
        wins,
        losses,
    })
}
