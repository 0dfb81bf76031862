// Whether another move of a piece that was put back spares its side the loss: most losses that are tried fail so, at the first squares read, and nothing
// else of the position is looked at. What stands after such a move is the same wherever the piece came from, so that no square is read twice.
ghost use Rattle.std.specs.Prelude.{◌≡◌, ◌^◌, ◌<◌, T};
ghost use Rattle.board.specs.Sets.{has};
ghost use Rattle.numbering.specs.Number.{number_of};
ghost use Rattle.position.specs.Posed.{board_in};
ghost use Rattle.index.specs.Seats.{Seated};
ghost use Rattle.movegen.specs.Places.{place_after};
ghost use Rattle.working_back.specs.Lines.{Serves};
ghost use Rattle.working_back.specs.Spared.{Grounds, Sparing};

use super::known::byte_of;
use super::lines::Line;
use board::{minus, squares_of, targets, with};
use byte_rule::refutes;
use index::number_at;
use movegen::{king_at, occupied_at, place_after};
use position::{Men, Place};
use retracting::stood_before;
use successors::spot;

const KING: u8 = 5;

// What stands still while a piece is put back, and the squares that are not looked at: it takes nothing, a king does not go next to the other, and where
// it went is known.
#[derive(Clone, Copy)]
pub struct Ground {
    pub stood: u64,
    pub shut: u64,
}

// .. for the piece that went to `to`.
pub fn ground_of(q: Place, taken: u8, kind: u8, to: u8) -> Ground
    ensures { (m : Men) → Grounds m q taken kind to result }
{
    let stood = stood_before(occupied_at(q), taken, to);
    let shut = with(stood, to);
    if kind != KING {
        return Ground { stood, shut };
    }
    let near = targets(0, KING, king_at(q, q.side));
    Ground {
        stood,
        shut: shut | near,
    }
}

// The number after its move there.
fn number_after(m: Men, o: Place, s: u8, t: u8, line: Line) -> usize
    requires { line.base < 2 ^ 48 }
    ensures { Serves m o s t line → Seated m (place_after o s t) → result ≡ number_of (board_in m (place_after o s t)) }
{
    let plain = line.plain;
    if plain {
        return spot(line.base, line.flip, line.scale, t);
    }
    number_at(m, place_after(o, s, t)) as usize
}

// A square that spares the loss, 64 if none does, and the squares read so far that do not.
#[derive(Clone, Copy)]
pub struct Saviour {
    pub square: u8,
    pub seen: u64,
}

// The lowest of these squares, but for those seen, that holds a byte which shows that depth k is not required: 0 stands where the move is not legal.
pub fn find_saviour(
    m: Men,
    k: u8,
    o: Place,
    s: u8,
    line: Line,
    goals: u64,
    seen: u64,
    table: &[u8],
) -> Saviour
    requires { line.base < 2 ^ 48 }
    ensures { result.square < 64 → T (has goals result.square) × (Serves m o s result.square line → Seated m (place_after o s result.square) → Sparing m k (place_after o s result.square) table.now) }
{
    let depth = 2 + k as u16;
    let mut harmless = seen;
    for t in squares_of(minus(goals, seen)) {
        let c = byte_of(table, number_after(m, o, s, t, line));
        if (c != 0) & refutes(depth, c) {
            return Saviour {
                square: t,
                seen: harmless,
            };
        }
        harmless = with(harmless, t);
    }
    Saviour {
        square: 64,
        seen: harmless,
    }
}
