// The squares that a pawn attacks and those that it goes to, as sets.
ghost use Rattle.std.specs.Prelude.{◌≡◌, Bool, not, ◌&&◌, ℕ, ◌/◌, ◌<◌, eqb};
ghost use Rattle.board.specs.Reach.{line};
ghost use Rattle.board.specs.Sets.{has as holds};
ghost use Rattle.rules.specs.Pawn.{forward as forward_of, first_rank, strides, pawn_hits, pawn_goes};

use board::{has, minus, one, step_to, with};

// Forward, as a change of rank plus 2.
fn forward(colour: u8) -> u8
    ensures { result ≡ forward_of colour }
{
    match colour {
        0 => 3,
        1 => 1,
        _ => 2,
    }
}

// Whether the square is on the rank from which two steps are allowed.
fn on_first_rank(colour: u8, s: u8) -> bool
    ensures { result ≡ eqb (s / 8) (first_rank colour) }
{
    match colour {
        0 => s / 8 == 1,
        1 => s / 8 == 6,
        _ => false,
    }
}

// The squares straight on, over empty squares to an empty one.
fn straight_on(occ: u64, colour: u8, s: u8) -> u64
    ensures { (t : ℕ) → t < 64 → holds result t ≡ (line (holds occ) (strides colour s) s 2 (forward_of colour) t && not (holds occ t)) }
{
    let dy = forward(colour);
    let first = step_to(s, 2, dy);
    let near = minus(one(first), occ);
    if !on_first_rank(colour, s) {
        return near;
    }
    if has(occ, first) {
        return near;
    }
    near | minus(one(step_to(first, 2, dy)), occ)
}

// The squares that a pawn attacks.
pub fn pawn_hits(colour: u8, s: u8) -> u64
    ensures { (occ : ℕ → Bool) (t : ℕ) → t < 64 → holds result t ≡ pawn_hits occ colour s t }
{
    let dy = forward(colour);
    with(one(step_to(s, 1, dy)), step_to(s, 3, dy))
}

// The squares that it goes to.
pub fn pawn_goes(occ: u64, colour: u8, s: u8) -> u64
    ensures { (t : ℕ) → t < 64 → holds result t ≡ pawn_goes (holds occ) colour s t }
{
    straight_on(occ, colour, s) | (pawn_hits(colour, s) & occ)
}
