// The squares of a set that pass a test.
ghost use Rattle.std.specs.Prelude.{◌≡◌, Bool, ◌&&◌, ℕ, ◌<◌};
ghost use Rattle.board.specs.Sets.{has};
ghost use Rattle.movegen.specs.Passing.{Tells};

use board::{squares_of, with};

// Those that pass, each asked once, in rising order.
pub fn passing_of<F: Fn(u8) -> bool>(set: u64, passes: F) -> u64
    requires { F.IsAlwaysCallable passes }
    ensures { (p : ℕ → Bool) → Tells (F.post passes) set p → (s : ℕ) → s < 64 → has result s ≡ (has set s && p s) }
{
    let mut kept: u64 = 0;
    for s in squares_of(set) {
        if passes(s) {
            kept = with(kept, s);
        }
    }
    kept
}
