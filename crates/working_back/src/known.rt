// What is known of the squares of a black king without men, White's pieces standing still.
ghost use Rattle.std.specs.Prelude.{◌≡◌, false, ℕ, ◌<◌, T, get_or};
ghost use Rattle.board.specs.Sets.{has};
ghost use Rattle.numbering.specs.Kings.{separate};
ghost use Rattle.index.specs.Seats.{Seated};
ghost use Rattle.index.specs.Moving.{king_on, Stands};
ghost use Rattle.working_back.specs.Bare.{bare_on, Saves, Knows};

use board::{minus, squares_of, with};
use byte_rule::refutes;
use index::{Still, still_number};
use position::Men;

// The byte at a number; 0 beyond the table's end.
pub fn byte_of(table: &[u8], n: usize) -> u8
    ensures { result ≡ get_or table.now n 0 }
{
    table.get(n).copied().unwrap_or(0)
}

// What is known of the squares that he may go to while White's pieces stand still: those that save him, and those that do not.
#[derive(Clone, Copy)]
pub struct Seen {
    pub saved: bool,
    pub saving: u64,
    pub harmless: u64,
}

// Whether one of these squares saves him: of those not known yet each is read.
pub fn look(
    m: Men,
    k: u8,
    white: u8,
    x: u8,
    y: u8,
    others: Still,
    goals: u64,
    saving: u64,
    harmless: u64,
    table: &[u8],
) -> Seen
    requires { ((t : ℕ) → t < 64 → T (has goals t) → Seated m (bare_on 0 white t x y) × T (separate white t)) × Knows m k white x y table.now saving harmless × Stands m others (king_on false white 0 x y) }
    ensures { Saves m k white x y table.now goals result.saved × Knows m k white x y table.now result.saving result.harmless }
{
    if goals & saving != 0 {
        return Seen {
            saved: true,
            saving,
            harmless,
        };
    }
    let depth = 2 + k as u16;
    let mut clear = harmless;
    for t in squares_of(minus(goals, harmless)) {
        let c = byte_of(table, still_number(others, 0, t));
        if refutes(depth, c) {
            return Seen {
                saved: true,
                saving: with(saving, t),
                harmless: clear,
            };
        }
        clear = with(clear, t);
    }
    Seen {
        saved: false,
        saving,
        harmless: clear,
    }
}
