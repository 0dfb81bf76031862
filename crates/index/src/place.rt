// What stands at a number, and whether the number is used.
ghost use Rattle.std.specs.Prelude.{◌≡◌, ◌<◌, T};
ghost use Rattle.numbering.specs.Keys.{board_at};
ghost use Rattle.numbering.specs.Material.{known, men_of, size_of};
ghost use Rattle.numbering.specs.Number.{used};
ghost use Rattle.position.specs.Posed.{material_for};
ghost use Rattle.index.specs.Seats.{StandsAt, seat_of, shares as shares_of};

use super::least::number_at;
use pairs::PAIR_COUNT;
use position::{Men, Place};

// The place of a number's side and pair, and of the men's squares.
fn seat_of(lead: u32, first: u8, second: u8) -> Place
    ensures { result ≡ seat_of lead first second }
{
    let kings = pairs::kings_of((lead % PAIR_COUNT) as u16);
    Place {
        side: (lead / PAIR_COUNT % 2) as u8,
        white: (kings / 64) as u8,
        black: (kings % 64) as u8,
        first,
        second,
    }
}

// What stands at a number, used or not.
pub fn place_at(m: Men, n: u32) -> Place
    ensures { T (known (material_for m)) → m.colour < 2 → n < size_of (material_for m) → StandsAt m n result }
{
    if 4 <= m.second {
        return seat_of(n / 64, (n % 64) as u8, 64);
    }
    seat_of(n / 64 / 64, (n / 64 % 64) as u8, (n % 64) as u8)
}

// Whether a man stands on a king's square or the other man's.
pub fn shares(q: Place) -> bool
    ensures { result ≡ shares_of q }
{
    (q.white == q.first)
        | ((q.black == q.first)
            | ((q.white == q.second) | ((q.black == q.second) | (q.first == q.second))))
}

// Whether the number of what stands there is used: no two on one square, and no change gives less.
pub fn is_used(m: Men, q: Place, n: u32) -> bool
    ensures { StandsAt m n q → result ≡ used (board_at (men_of (material_for m)) n) }
{
    if shares(q) {
        return false;
    }
    number_at(m, q) == n
}
