// The men of a position in standard order and colours, and the normal place of its class.
ghost use Rattle.std.specs.Prelude.{◌≡◌, cond};
ghost use Rattle.position.specs.Keyed.{man_kind};
ghost use Rattle.position.specs.Refusals.{placing_with};
ghost use Rattle.index.specs.Arranging.{goes_after, white_first, arranged_as, normal_by, normal_as, Normalises};

use super::least::{alike, lesser, place_from, rising_key, transposed_key, turned_key};
use super::{Arranged, NormalPlace};
use position::{Map, Men, Place, Position, man_in, other};
use rules::Piece;

// Whether the first man's kind is the later one, or of one kind he is Black's and the other White's.
fn goes_after(a: Piece, c: Piece) -> bool
    ensures { result ≡ goes_after a c }
{
    if a.kind == c.kind {
        return c.colour < a.colour;
    }
    c.kind < a.kind
}

// One of two men or bytes. Which is asked in one place, so that what follows is written out once.
fn either<T: Copy>(former: bool, a: T, c: T) -> T
    ensures { result ≡ cond former a c }
{
    if former { a } else { c }
}

// The first man White's: the colours, the kings and the side to move are exchanged where he is Black's.
fn white_first(a: Piece, c: Piece, p: Position) -> Arranged
    ensures { result ≡ white_first a c p }
{
    let black = a.colour == 1;
    Arranged {
        men: Men {
            first: a.kind,
            second: c.kind,
            colour: either(black, other(c.colour), c.colour),
        },
        place: Place {
            side: either(black, other(p.side), p.side),
            white: either(black, p.black_king, p.white_king),
            black: either(black, p.white_king, p.black_king),
            first: a.square,
            second: c.square,
        },
    }
}

// The men in standard order and colours.
pub fn arrange(p: Position) -> Arranged
    ensures { result ≡ arranged_as p }
{
    let first = p.first;
    let second = p.second;
    let a = man_in(first);
    let c = man_in(second);
    let after = goes_after(a, c);
    white_first(either(after, c, a), either(after, a, c), p)
}

// The normal place of an arranged position, by its key and the one with file and rank exchanged.
fn normal_by(men: Men, q: Place, s: u32, t: u32) -> NormalPlace
    ensures { result ≡ normal_by men q s t }
{
    let white = q.white;
    let place = place_from(64 <= q.second, q.side, lesser(s, t));
    NormalPlace {
        men,
        place,
        via: Map {
            files: 3 < white % 8,
            ranks: 3 < white / 8,
            swap: t < s,
        },
    }
}

// The normal place of an arranged position, and the map that leads to it. Only like men may change places.
fn normal_of(men: Men, q: Place) -> NormalPlace
    ensures { result ≡ normal_as (record { men = men; place = q }) }
{
    let k = turned_key(q.white, q.black, q.first, q.second);
    let t = transposed_key(k);
    if alike(men) {
        return normal_by(men, q, rising_key(true, k), rising_key(true, t));
    }
    normal_by(men, q, k, t)
}

// The normal place of a position's class, its men pieces, and the map that leads to it.
pub fn normal_place(p: Position) -> NormalPlace
    ensures { placing_with p ≡ 0 → (man_kind p ≡ 4 → ⊥) → Normalises p result }
{
    let a = arrange(p);
    normal_of(a.men, a.place)
}
