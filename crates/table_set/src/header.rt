// The header of a choice of endings.
ghost use Rattle.std.specs.Prelude.{◌≡◌, ◌≤◌, length};
ghost use Rattle.finite.specs.Pieces.{over};
ghost use Rattle.sets.specs.Layout.{chosen as chosen_of, codes_of, header_of, header_size};

use super::TABLE_SIZE;
use super::words::put_word;
use sets::Choice;

// Whether a material code is chosen.
#[tactic(auto, unfolding(sets::specs::Layout::chosen))]
pub fn chosen(choice: Choice, code: u8) -> bool
    ensures { result ≡ chosen_of choice code }
{
    match code {
        0 => choice.queen,
        1 => choice.rook,
        2 => choice.bishop,
        3 => choice.knight,
        _ => false,
    }
}

// How many endings are chosen.
pub fn count(choice: Choice) -> usize
    ensures { (result ≡ length (codes_of choice)) × (result ≤ 4) }
{
    usize::from(choice.queen)
        + usize::from(choice.rook)
        + usize::from(choice.bishop)
        + usize::from(choice.knight)
}

// Writes the header and leaves the bytes after it as they are.
pub fn write_header(choice: Choice, n: usize, set: &mut [u8])
    requires { (n ≡ length (codes_of choice)) × (n ≤ 4) × (header_size n ≤ length set.old) }
    ensures { set.new ≡ over set.old 0 (header_of (codes_of choice)) }
{
    put_word(&mut *set, 0, n as u32);
    let mut at = 4;
    let mut offset = 4 + 12 * n as u32;
    for code in 0..4 {
        if !chosen(choice, code) {
            continue;
        }
        put_word(&mut *set, at, code as u32);
        put_word(&mut *set, at + 4, offset);
        put_word(&mut *set, at + 8, TABLE_SIZE as u32);
        at += 12;
        offset += TABLE_SIZE as u32;
    }
}
