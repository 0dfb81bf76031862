// A move made that may name what its pawn becomes.
ghost use Rattle.std.specs.Prelude.{◌≡◌, cond, ◌&&◌, eqb};
ghost use Rattle.playing.specs.Playing.{named, slot_becoming, promoted_to, after_as};

use position::Position;
use position_moves::make;
use rules::Piece;

// Whether a move names what it should: a piece where it promotes, and nothing elsewhere.
pub fn is_named(promoting: bool, becomes: u8) -> bool
    ensures { result ≡ named promoting becomes }
{
    if promoting {
        return (0 < becomes) & (becomes < 5);
    }
    becomes == 0
}

// The kind of a man: another, if he is of this side and on this square.
fn kind_after(m: Piece, side: u8, to: u8, kind: u8) -> u8
    ensures { result ≡ cond (eqb m.colour side && eqb m.square to) kind m.kind }
{
    if (m.colour == side) & (m.square == to) {
        return kind;
    }
    m.kind
}

fn slot_becoming(side: u8, to: u8, kind: u8, slot: Option<Piece>) -> Option<Piece>
    ensures { result ≡ slot_becoming side to kind slot }
{
    match slot {
        None => None,
        Some(m) => Some(Piece {
            kind: kind_after(m, side, to, kind),
            colour: m.colour,
            square: m.square,
        }),
    }
}

fn promoted_to(side: u8, to: u8, kind: u8, p: Position) -> Position
    ensures { result ≡ promoted_to side to kind p }
{
    let first = p.first;
    let second = p.second;
    Position {
        side: p.side,
        white_king: p.white_king,
        black_king: p.black_king,
        first: slot_becoming(side, to, kind, first),
        second: slot_becoming(side, to, kind, second),
    }
}

// The position after a move.
pub fn make_as(p: Position, from: u8, to: u8, becomes: u8) -> Position
    ensures { result ≡ after_as p from to becomes }
{
    let made = make(p, from, to);
    if becomes == 0 {
        return made;
    }
    promoted_to(p.side, to, becomes - 1, made)
}
