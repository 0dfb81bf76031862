// The numbers of a man's squares where nothing is exchanged: at equal steps from a base.
ghost use Rattle.std.specs.Prelude.{◌≡◌, ◌+◌, ◌*◌, ◌^◌, ◌<◌};
ghost use Rattle.std.specs.Int.Bits.{bit_xor};

use super::Frame;

// A square's place in the table.
pub fn spot(base: usize, flip: u8, scale: u8, s: u8) -> usize
    requires { base < 2 ^ 48 }
    ensures { result ≡ base + bit_xor s flip * scale }
{
    base + (s ^ flip) as usize * scale as usize
}

// A square with the reversals of a frame.
fn turned(flip: u8, s: u8) -> u8
    ensures { result ≡ bit_xor s flip }
{
    s ^ flip
}

// Where the numbers of a frame begin: of one man; of the first of two, by the second's square; of the second, by the
// first's.
pub fn base_of_one(f: Frame) -> usize
    ensures { (result ≡ f.kings * 64) × (result < 2 ^ 48) }
{
    f.kings as usize * 64
}

pub fn base_of_first(f: Frame, second: u8) -> usize
    ensures { (result ≡ f.kings * 4096 + bit_xor second f.flip) × (result < 2 ^ 48) }
{
    let s = turned(f.flip, second);
    f.kings as usize * 4096 + s as usize
}

pub fn base_of_second(f: Frame, first: u8) -> usize
    ensures { (result ≡ f.kings * 4096 + bit_xor first f.flip * 64) × (result < 2 ^ 48) }
{
    let s = turned(f.flip, first);
    f.kings as usize * 4096 + s as usize * 64
}
