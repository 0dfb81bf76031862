// The numbers of a man's squares where nothing is exchanged: at equal steps from a base.
ghost use Rattle.std.specs.Prelude.{◌≡◌, ◌⊎◌, ℕ, ◌-◌, ◌^◌, ◌<◌};
ghost use Rattle.successors.specs.Framing.{frame_for};
ghost use Rattle.retracting.specs.Retracting.{LegalLeft};
ghost use Rattle.working_back.specs.Lines.{base_of, scale_of, LinedBefore, LinedAfter};

use index::alike;
use position::{Men, Place};
use retracting::again;
use successors::{Frame, base_of_first, base_of_one, base_of_second};

// A piece's squares: their numbers lie at equal steps from a base, or each is made where that is not plain.
#[derive(Clone, Copy)]
pub struct Line {
    pub plain: bool,
    pub base: usize,
    pub flip: u8,
    pub scale: u8,
}

// The base for the man on `to`, the other where he stood before the move.
fn base_of(m: Men, q: Place, taken: u8, to: u8, f: Frame) -> usize
    ensures { (result ≡ base_of m q taken to f) × (result < 2 ^ 48) }
{
    if 4 <= m.second {
        return base_of_one(f);
    }
    if q.first == to {
        return base_of_first(f, again(taken == 2, to, q.second));
    }
    base_of_second(f, again(taken == 1, to, q.first))
}

// The step from one of his squares to the next.
fn scale_of(m: Men, q: Place, to: u8) -> u8
    ensures { result ≡ scale_of m q to }
{
    if 4 <= m.second {
        return 1;
    }
    if q.first == to {
        return 64;
    }
    1
}

// Each number is made.
pub fn no_line() -> Line
    ensures { (m : Men) (q : Place) (taken to : ℕ) → LinedBefore m q taken to result × LinedAfter m q taken to result }
{
    Line {
        plain: false,
        base: 0,
        flip: 0,
        scale: 1,
    }
}

// The squares of the man on `to` by the frame of the kings, who stand still: those that he came from, or those that he went to, by who is to move in it.
pub fn line_of(f: Frame, m: Men, q: Place, taken: u8, to: u8) -> Line
    requires { LegalLeft m q taken × ((to ≡ q.first) ⊎ (to ≡ q.second)) }
    ensures { (f ≡ frame_for (1 - q.side) q.white q.black → LinedBefore m q taken to result) × (f ≡ frame_for q.side q.white q.black → LinedAfter m q taken to result) }
{
    let flip = f.flip;
    if (f.exchange != 0) | alike(m) {
        return no_line();
    }
    let base = base_of(m, q, taken, to, f);
    let scale = scale_of(m, q, to);
    Line {
        plain: true,
        base,
        flip,
        scale,
    }
}
