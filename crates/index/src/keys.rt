// The number of a key of squares as they stand. A key goes from function to function in a register, a place through memory.
ghost use Rattle.std.specs.Prelude.{◌≡◌, ℕ, ◌/◌, ◌%◌, ◌^◌, ◌<◌, T};
ghost use Rattle.numbering.specs.Kings.{in_triangle};
ghost use Rattle.index.specs.Least.{flip_of, turned_key, least_of, KeyFor};
ghost use Rattle.index.specs.Seats.{key_at, number_from};

use super::least::{least_of, number_from, packed};
use position::Place;

// The key of a place; 0 for a second man who is not there.
pub fn key_at(q: Place) -> u32
    ensures { (result ≡ key_at q) × (result < 2 ^ 27) }
{
    if 64 <= q.second {
        return packed(q.white, q.black, q.first, 0);
    }
    packed(q.white, q.black, q.first, q.second)
}

// The bits of each square that the reversals for this white king turn over.
fn reversing(white: u32) -> u32
    ensures { (white < 64 → result ≡ flip_of white) × (result < 64) }
{
    white / 4 % 2 * 7 + white / 32 % 2 * 56
}

// All squares of a key with the reversals for its white king; no second man is left at 0.
fn turned(single: bool, k: u32) -> u32
    ensures { (white black first second : ℕ) → KeyFor single k white black first second → result ≡ turned_key white black first second }
{
    let flip = reversing(k / 262144);
    if single {
        return k ^ (flip * 266304);
    }
    k ^ (flip * 266305)
}

// The number of a key, with one man or with two, who may be alike.
pub fn number_keyed(single: bool, like: bool, side: u8, k: u32) -> u32
    ensures { (white black first second : ℕ) → KeyFor single k white black first second → T (in_triangle (least_of like (turned_key white black first second) / 4096 % 4096 / 64)) → result ≡ number_from single side (least_of like (turned_key white black first second)) }
{
    number_from(single, side, least_of(like, turned(single, k)))
}
