// Of the suiting moves the first in list order: the lowest from-square, then the lowest target; and what is told where none suits.
ghost use Rattle.std.specs.Prelude.{◌≡◌, ℕ, ◌<◌};
ghost use Rattle.rules.specs.Rules.{Board, taking};
ghost use Rattle.position.specs.Posed.{board_in};
ghost use Rattle.successors.specs.Successors.{judged_from, seen_from, earlier as earlier_of, seen_in, no_targets, king_at, Reaches, Weighs};

use super::{Seen, Weighed};
use board::lowest;
use movegen::{Reach, king_at};
use position::{Men, Place, other};

// The first suiting move of the piece on a square.
fn seen_from(from: u8, set: u64) -> Seen
    ensures { result ≡ seen_from from set }
{
    if set == 0 {
        return Seen { from: 64, to: 64 };
    }
    Seen {
        from,
        to: lowest(set),
    }
}

fn earlier(a: Seen, b: Seen) -> Seen
    ensures { result ≡ earlier_of a b }
{
    if b.from < a.from { b } else { a }
}

// The first of all.
pub fn seen_in(q: Place, sets: Reach) -> Seen
    ensures { result ≡ seen_in (king_at q) q.first q.second sets }
{
    let a = seen_from(king_at(q, q.side), sets.king);
    let b = seen_from(q.first, sets.first);
    let c = seen_from(q.second, sets.second);
    earlier(earlier(a, b), c)
}

// Whether no piece has a target.
fn is_empty(sets: Reach) -> bool
    ensures { result ≡ no_targets sets }
{
    (sets.king == 0) & ((sets.first == 0) & (sets.second == 0))
}

// What is told of a byte that was compared with all successors.
pub fn weighed_by(q: Place, reach: Reach, judged: Option<Reach>) -> Weighed
    ensures { (m : Men) (bytes : Board → ℕ) (byte : ℕ) → Reaches m q reach → judged ≡ judged_from bytes byte (board_in m q) (king_at q) q.first q.second → Weighs m q bytes byte result }
{
    let Some(sets) = judged else {
        return Weighed::Refuted;
    };
    let seen = seen_in(q, sets);
    if seen.from < 64 {
        return Weighed::Met(seen);
    }
    if is_empty(reach) {
        return Weighed::Stuck;
    }
    Weighed::Unmet
}

// Whether a piece of the other side stands on the target.
pub fn is_taking(m: Men, q: Place, to: u8) -> bool
    ensures { to < 64 → result ≡ taking (board_in m q) to }
{
    let foe = other(q.side);
    ((0 == foe) & (q.white == to))
        | (((1 == foe) & (q.black == to))
            | (((0 == foe) & (q.first == to)) | ((m.colour == foe) & (q.second == to))))
}
