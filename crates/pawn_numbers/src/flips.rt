// Squares, sides and places under a flip.
ghost use Rattle.std.specs.Prelude.{◌≡◌};
ghost use Rattle.symmetry.specs.Symmetry.{mapped, inverse};
ghost use Rattle.rules.specs.Changed.{swapped};
ghost use Rattle.rules.specs.Changed.{keeping};
ghost use Rattle.pawn_numbers.specs.Places.{flip_bits, place_by, normal_of};

use crate::{PawnNormal, PawnPlace};
use rules::opposite;

// The bits of a square that a flip turns over.
fn flip_bits(files: bool, colours: bool) -> u8
    ensures { result ≡ flip_bits files colours }
{
    u8::from(files) * 7 + u8::from(colours) * 56
}

// The square that a flip brings this one to; what is off the board stays.
pub fn square_flipped(files: bool, colours: bool, s: u8) -> u8
    ensures { result ≡ mapped (keeping files colours) s }
{
    if 64 <= s {
        return s;
    }
    s ^ flip_bits(files, colours)
}

// The square that a flip brings to this one, so that a move on the normal place is carried back.
pub fn square_back(files: bool, colours: bool, s: u8) -> u8
    ensures { result ≡ mapped (inverse (keeping files colours)) s }
{
    square_flipped(files, colours, s)
}

// The side to move with the colours exchanged or not.
fn side_flipped(colours: bool, side: u8) -> u8
    ensures { result ≡ swapped colours side }
{
    if colours { opposite(side) } else { side }
}

// The place under a flip; the king named first becomes White's.
pub fn place_by(files: bool, colours: bool, side: u8, white: u8, black: u8, pawn: u8) -> PawnPlace
    ensures { result ≡ place_by files colours side white black pawn }
{
    PawnPlace {
        side: side_flipped(colours, side),
        white: square_flipped(files, colours, white),
        black: square_flipped(files, colours, black),
        pawn: square_flipped(files, colours, pawn),
    }
}

// The normal place of a position as keyed, with a pawn of either colour, and the flip that makes it.
pub fn pawn_normal(colour: u8, side: u8, white: u8, black: u8, square: u8) -> PawnNormal
    ensures { result ≡ normal_of colour side white black square }
{
    let files = 3 < square % 8;
    let colours = colour == 1;
    let place = if colours {
        place_by(files, true, side, black, white, square)
    } else {
        place_by(files, false, side, white, black, square)
    };
    PawnNormal {
        place,
        files,
        colours,
    }
}
