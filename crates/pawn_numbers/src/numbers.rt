// The number of a place, the place of a number, and whether it is used.
ghost use Rattle.std.specs.Prelude.{◌≡◌, ◌<◌};
ghost use Rattle.pawn_numbers.specs.PawnNumber.{slot_of, pawn_key, pawn_number, used_pawn, separated};
ghost use Rattle.pawn_numbers.specs.Places.{seated, place_of};

use super::flips::place_by;
use crate::PawnPlace;
use board::{has, targets};

// The slot of a pawn's square.
fn slot_of(s: u8) -> u32
    ensures { (result ≡ slot_of s) × (result < 256) }
{
    if s < 8 {
        return s as u32;
    }
    (s / 8 - 1) as u32 * 4 + (s % 8) as u32
}

// The key of a place: its number, where the pawn is on files a to d.
pub fn pawn_key(q: PawnPlace) -> u32
    ensures { result ≡ pawn_key (seated q) }
{
    let pawn = q.pawn;
    let slot = slot_of(pawn);
    (q.side as u32 * 24 + slot) * 4096 + q.white as u32 * 64 + q.black as u32
}

// The number of a place.
pub fn pawn_number_at(q: PawnPlace) -> u32
    ensures { result ≡ pawn_number (seated q) }
{
    let pawn = q.pawn;
    pawn_key(place_by(3 < pawn % 8, false, q.side, q.white, q.black, pawn))
}

// The place of a number, used or not.
pub fn pawn_place_at(n: u32) -> PawnPlace
    ensures { result ≡ place_of n }
{
    let slot = n / 4096 % 24;
    PawnPlace {
        side: (n / 4096 / 24 % 2) as u8,
        white: (n / 64 % 64) as u8,
        black: (n % 64) as u8,
        pawn: ((slot / 4 + 1) * 8 + slot % 4) as u8,
    }
}

// Whether the number of a place is used: no two on one square, and the kings do not touch.
pub fn is_pawn_used(q: PawnPlace) -> bool
    ensures { result ≡ separated (seated q) }
{
    let white = q.white;
    let black = q.black;
    let pawn = q.pawn;
    let shared = (white == black) | ((white == pawn) | (black == pawn));
    if shared {
        return false;
    }
    !has(targets(0, 5, white), black)
}

// Whether a number is used.
pub fn pawn_used(n: u32) -> bool
    ensures { result ≡ used_pawn n }
{
    is_pawn_used(pawn_place_at(n))
}
