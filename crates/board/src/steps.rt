// One step, of a square's bit and of a square.
ghost use Rattle.std.specs.Prelude.{◌≡◌, ℕ, ◌/◌, ◌%◌, ◌<◌};
ghost use Rattle.board.specs.Square.{shift};
ghost use Rattle.board.specs.Sets.{set_of};
ghost use Rattle.board.specs.SetLaws.{bit};
ghost use Rattle.board.specs.StepLaws.{IsStep, ends_on, square_at};

// The eight directions, of which four are the rook's and four the bishop's.
// A step is one number x + 8 * y, of its changes of file and of rank, each plus 2; so the one that stays is 18.
const STEPS: [u8; 8] = [10, 17, 19, 26, 9, 11, 25, 27];

// The step of the k-th direction.
pub fn step_at(k: u8) -> u8
    requires { k < 8 }
    ensures { IsStep result k }
{
    STEPS[k as usize]
}

// The squares where this step can end, by its x: those not on g or h, those not on h, all, those not on a, those not on a or b.
pub fn ends_of(step: u8) -> u64
    requires { step % 8 < 5 }
    ensures { result ≡ set_of (ends_on (step % 8)) }
{
    match step % 8 {
        0 => 4557430888798830399,
        1 => 9187201950435737471,
        2 => 18446744073709551615,
        3 => 18374403900871474942,
        _ => 18229723555195321596,
    }
}

// From a square's bit the bit of the square that a step leads to; 0 at the edge.
pub fn stepped(b: u64, step: u8, ends: u64) -> u64
    requires { (step % 8 < 5) × (step / 8 < 5) × (ends ≡ set_of (ends_on (step % 8))) }
    ensures { (s : ℕ) → s < 64 → b ≡ bit s → result ≡ bit (shift s (step % 8) (step / 8)) }
{
    if step < 18 {
        return (b >> (18 - step)) & ends;
    }
    (b << (step - 18)) & ends
}

// The square of a file and a rank, each plus 2; 64 off the board.
fn on_board(x: u8, y: u8) -> u8
    ensures { result ≡ square_at x y }
{
    if x < 2 || 9 < x || y < 2 || 9 < y {
        return 64;
    }
    (y - 2) * 8 + (x - 2)
}

// The square that a step leads to; 64 off the board.
pub fn step_to(s: u8, dx: u8, dy: u8) -> u8
    ensures { result ≡ shift s dx dy }
{
    if 64 <= s || 9 < dx || 9 < dy {
        return 64;
    }
    on_board(s % 8 + dx, s / 8 + dy)
}
