// A position under the board's maps. What is off the board stays where it is.
ghost use Rattle.std.specs.Prelude.{◌≡◌, ◌++◌};
ghost use Rattle.symmetry.specs.Symmetry.{mapped, inverse, exchange};
ghost use Rattle.numbering.specs.Normal.{first_above, turn, swaps as swaps_of};
ghost use Rattle.position.specs.Keyed.{slot_men, board_of};
ghost use Rattle.position.specs.Maps.{mapped_slot, mapped_position, reversals, symmetry_of, normal_of};

use crate::{Map, Normal, Position};
use pawn_numbers::square_flipped;
use rules::Piece;

// The square with file and rank exchanged.
pub fn transposed(s: u8) -> u8
    ensures { result ≡ mapped exchange s }
{
    if 64 <= s {
        return s;
    }
    s % 8 * 8 + s / 8
}

impl Map {
    // The square that the map brings to this one.
    pub fn back(self, s: u8) -> u8
        ensures { result ≡ mapped (inverse (symmetry_of self)) s }
    {
        let files = self.files;
        let ranks = self.ranks;
        if self.swap {
            return square_flipped(files, ranks, transposed(s));
        }
        square_flipped(files, ranks, s)
    }
}

// The man in a slot, likewise.
fn slot_reversed(files: bool, ranks: bool, slot: Option<Piece>) -> Option<Piece>
    ensures { result ≡ mapped_slot (reversals files ranks) slot }
{
    match slot {
        None => None,
        Some(m) => Some(Piece {
            kind: m.kind,
            colour: m.colour,
            square: square_flipped(files, ranks, m.square),
        }),
    }
}

fn slot_transposed(slot: Option<Piece>) -> Option<Piece>
    ensures { result ≡ mapped_slot exchange slot }
{
    match slot {
        None => None,
        Some(m) => Some(Piece {
            kind: m.kind,
            colour: m.colour,
            square: transposed(m.square),
        }),
    }
}

// Whether the man in the slot stands above the diagonal.
fn is_above(slot: Option<Piece>) -> bool
    ensures { result ≡ first_above (slot_men slot) }
{
    match slot {
        None => false,
        Some(m) => m.square % 8 < m.square / 8,
    }
}

// Whether the first man off the diagonal does.
fn men_above(first: Option<Piece>, second: Option<Piece>) -> bool
    ensures { result ≡ first_above (slot_men first ++ slot_men second) }
{
    match first {
        None => is_above(second),
        Some(m) => {
            if m.square % 8 == m.square / 8 {
                return is_above(second);
            }
            m.square % 8 < m.square / 8
        },
    }
}

impl Position {
    pub fn exchanged(self) -> Position
        ensures { result ≡ mapped_position exchange self }
    {
        let first = self.first;
        let second = self.second;
        Position {
            side: self.side,
            white_king: transposed(self.white_king),
            black_king: transposed(self.black_king),
            first: slot_transposed(first),
            second: slot_transposed(second),
        }
    }

    // The white king on the files a to d and the ranks 1 to 4.
    fn turned(self) -> Position
        ensures { result ≡ mapped_position (turn self.white_king) self }
    {
        let white = self.white_king;
        let first = self.first;
        let second = self.second;
        let files = 3 < white % 8;
        let ranks = 3 < white / 8;
        Position {
            side: self.side,
            white_king: square_flipped(files, ranks, white),
            black_king: square_flipped(files, ranks, self.black_king),
            first: slot_reversed(files, ranks, first),
            second: slot_reversed(files, ranks, second),
        }
    }

    // Whether file and rank are to be exchanged, once the white king is there.
    fn swaps(self) -> bool
        ensures { result ≡ swaps_of (board_of self) }
    {
        let white = self.white_king;
        let black = self.black_king;
        let first = self.first;
        let second = self.second;
        if white % 8 < white / 8 {
            return true;
        }
        if white % 8 != white / 8 {
            return false;
        }
        if black % 8 < black / 8 {
            return true;
        }
        if black % 8 != black / 8 {
            return false;
        }
        men_above(first, second)
    }

    // The normal position of the same class, and the map that makes it.
    pub fn normalised(self) -> Normal
        ensures { result ≡ normal_of self }
    {
        let white = self.white_king;
        let p = self.turned();
        let swap = p.swaps();
        let position = if swap { p.exchanged() } else { p };
        Normal {
            position,
            via: Map {
                files: 3 < white % 8,
                ranks: 3 < white / 8,
                swap,
            },
        }
    }
}
