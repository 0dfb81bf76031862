// A move made: the piece set on its target, one that stood there taken off, the other side to move.
ghost use Rattle.std.specs.Prelude.{◌≡◌};
ghost use Rattle.movegen.specs.After.{slot_after, after};

use movegen::carried;
use position::{Position, other};
use rules::Piece;

fn slot_after(from: u8, to: u8, slot: Option<Piece>) -> Option<Piece>
    ensures { result ≡ slot_after from to slot }
{
    match slot {
        None => None,
        Some(m) => if m.square == to {
            None
        } else {
            Some(Piece {
                kind: m.kind,
                colour: m.colour,
                square: carried(from, to, m.square),
            })
        },
    }
}

// The position after a move.
pub fn make(p: Position, from: u8, to: u8) -> Position
    ensures { result ≡ after p from to }
{
    let first = p.first;
    let second = p.second;
    Position {
        side: other(p.side),
        white_king: carried(from, to, p.white_king),
        black_king: carried(from, to, p.black_king),
        first: slot_after(from, to, first),
        second: slot_after(from, to, second),
    }
}
