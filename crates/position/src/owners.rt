// A position with its man White's: colours, kings and side to move exchanged where he is Black's.
ghost use Rattle.std.specs.Prelude.{◌≡◌};
ghost use Rattle.position.specs.Owned.{recoloured_slot, recoloured as recoloured_of, white_owned};

use crate::{Position, man_in};
use rules::{Piece, opposite};

// The man in a slot, the other side's.
fn slot_recoloured(slot: Option<Piece>) -> Option<Piece>
    ensures { result ≡ recoloured_slot slot }
{
    match slot {
        None => None,
        Some(m) => Some(Piece {
            kind: m.kind,
            colour: opposite(m.colour),
            square: m.square,
        }),
    }
}

impl Position {
    fn recoloured(self) -> Position
        ensures { result ≡ recoloured_of self }
    {
        let first = self.first;
        let second = self.second;
        Position {
            side: opposite(self.side),
            white_king: self.black_king,
            black_king: self.white_king,
            first: slot_recoloured(first),
            second: slot_recoloured(second),
        }
    }

    // The position of the same class with the first man White's. Every square stays, so a move is the same on both
    // boards.
    pub fn white_owned(self) -> Position
        ensures { result ≡ white_owned self }
    {
        let first = self.first;
        let m = man_in(first);
        if m.colour == 1 {
            return self.recoloured();
        }
        self
    }
}
