// The least key of a class, with one man or two: four squares in one number, six bits each. With the kings before the
// men, the lesser of a key and the same with file and rank exchanged has the kings by the rule and the men as they
// prefer.
ghost use Rattle.std.specs.Prelude.{◌≡◌, cond, ℕ, ◌/◌, ◌%◌, ◌^◌, ◌<◌, T, ltb};
ghost use Rattle.numbering.specs.Kings.{in_triangle};
ghost use Rattle.numbering.specs.Number.{number_of};
ghost use Rattle.position.specs.Keyed.{board_of, one_man};
ghost use Rattle.position.specs.Posed.{board_in};
ghost use Rattle.index.specs.Least.{flip_of, packed as packed_of, turned_key, transposed_key, rising_key, least_of};
ghost use Rattle.index.specs.Seats.{Seated, alike as alike_men, least_at, place_from, number_by, number_from};

use super::keys::{key_at, number_keyed};
use pairs::{PAIR_COUNT, pair_in, pair_list};
use position::{Men, Place, other};

// The files of all four squares.
const FILES: u32 = 1864135;

// The bits that bring this white king to the files a to d and the ranks 1 to 4.
pub fn flip_of(white: u8) -> u8
    ensures { result ≡ flip_of white }
{
    u8::from(3 < white % 8) * 7 + u8::from(3 < white / 8) * 56
}

// Four squares: the white king's, the black king's, the first man's, the second's.
pub fn packed(w: u8, b: u8, x: u8, y: u8) -> u32
    ensures { (result ≡ packed_of w b x y) × (result < 2 ^ 27) }
{
    ((w as u32 * 64 + b as u32) * 64 + x as u32) * 64 + y as u32
}

// The squares with the reversals for this white king; 0 for a second man who is not there.
pub fn turned_key(white: u8, black: u8, first: u8, second: u8) -> u32
    ensures { result ≡ turned_key white black first second }
{
    let flip = flip_of(white);
    if 64 <= second {
        return packed(white ^ flip, black ^ flip, first ^ flip, 0);
    }
    packed(white ^ flip, black ^ flip, first ^ flip, second ^ flip)
}

// File and rank exchanged in each of the squares.
pub fn transposed_key(k: u32) -> u32
    ensures { result ≡ transposed_key k }
{
    (k / 8 & FILES) + (k & FILES) * 8
}

// Like men, the lower square first.
pub fn rising_key(like: bool, k: u32) -> u32
    ensures { result ≡ rising_key like k }
{
    let x = k / 64 % 64;
    let y = k % 64;
    if (y < x) & like {
        return k / 4096 * 4096 + (y * 64 + x);
    }
    k
}

// The lesser of two keys.
pub fn lesser(k: u32, t: u32) -> u32
    ensures { result ≡ cond (ltb t k) t k }
{
    k.min(t)
}

// File and rank exchanged where that is less.
pub fn least_of(like: bool, k: u32) -> u32
    ensures { result ≡ least_of like k }
{
    let t = transposed_key(k);
    if like {
        return lesser(rising_key(true, k), rising_key(true, t));
    }
    lesser(k, t)
}

// Two men of one kind and one side.
pub fn alike(m: Men) -> bool
    ensures { result ≡ alike_men m }
{
    (m.first == m.second) & (0 == m.colour)
}

// The least key of a place's class.
fn least_at(m: Men, q: Place) -> u32
    ensures { result ≡ least_at m q }
{
    least_of(alike(m), turned_key(q.white, q.black, q.first, q.second))
}

// The second man's square that a key tells; 64 where there is none.
fn second_from(single: bool, k: u32) -> u8
    ensures { result ≡ cond single 64 (k % 64) }
{
    if single {
        return 64;
    }
    (k % 64) as u8
}

// The place that a key tells, with one man or with two.
pub fn place_from(single: bool, side: u8, k: u32) -> Place
    ensures { result ≡ place_from single side k }
{
    Place {
        side,
        white: (k / 262144 % 64) as u8,
        black: (k / 4096 % 64) as u8,
        first: (k / 64 % 64) as u8,
        second: second_from(single, k),
    }
}

// The number of a side, a pair and the men's squares in a key, with one man or with two.
pub fn number_by(single: bool, side: u8, pair: u16, k: u32) -> u32
    ensures { result ≡ number_by single side pair k }
{
    let kings = side as u32 * PAIR_COUNT + pair as u32;
    if single {
        return kings * 64 + k / 64 % 64;
    }
    kings * 4096 + k % 4096
}

// The number that a key tells, with one man or with two; a least key has its white king in the triangle a1-d1-d4.
pub fn number_from(single: bool, side: u8, k: u32) -> u32
    ensures { T (in_triangle (k / 4096 % 4096 / 64)) → result ≡ number_from single side k }
{
    number_by(single, side, pairs::pair_by((k / 4096 % 4096) as u16), k)
}

// The number of an ending's men on the board.
pub fn number_at(m: Men, q: Place) -> u32
    ensures { Seated m q → result ≡ number_of (board_in m q) }
{
    number_keyed(64 <= q.second, alike(m), q.side, key_at(q))
}

// The same, the pair by the constant list.
pub fn number_listed(m: Men, q: Place) -> u32
    ensures { Seated m q → result ≡ number_of (board_in m q) }
{
    let k = least_at(m, q);
    let list = pair_list();
    let kings = k / 4096 % 4096;
    let pair = pair_in(&list, (kings / 64) as u8, (kings % 64) as u8);
    number_by(64 <= q.second, q.side, pair, k)
}

// The number of a man left alone, White's.
fn number_one(side: u8, white: u8, black: u8, square: u8) -> u32
    ensures { (kind : ℕ) → white < 64 → black < 64 → square < 64 → result ≡ number_of (board_of (one_man kind 0 side white square black)) }
{
    number_keyed(true, false, side, packed(white, black, square, 0))
}

// The number of a man left alone, of either side.
pub fn number_alone(colour: u8, side: u8, white: u8, black: u8, square: u8) -> u32
    ensures { (kind : ℕ) → colour < 2 → side < 2 → white < 64 → black < 64 → square < 64 → result ≡ number_of (board_of (one_man kind colour side white square black)) }
{
    if colour == 0 {
        return number_one(side, white, black, square);
    }
    number_one(other(side), black, white, square)
}
