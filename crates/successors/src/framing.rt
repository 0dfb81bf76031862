// The number by its frame: made once, a frame serves all the moves of a man.
ghost use Rattle.std.specs.Prelude.{◌≡◌, ◌<◌};
ghost use Rattle.index.specs.Least.{men_digits};
ghost use Rattle.successors.specs.Framing.{frame_for, chosen_digits, number_on};

use super::Frame;
use index::{exchange_of, flip_of, number_keyed, packed};
use position::transposed;

// The frame of two kings and a side to move: their part of the number of any one man with them.
pub fn frame_for(side: u8, white: u8, black: u8) -> Frame
    ensures { white < 64 → black < 64 → result ≡ frame_for side white black }
{
    let flip = flip_of(white);
    let w = white ^ flip;
    let b = black ^ flip;
    let exchange = exchange_of(w, b);
    let alone = number_keyed(true, false, side, packed(white, black, 0, 0));
    Frame {
        kings: alone / 64,
        flip,
        exchange,
    }
}

// Two men's squares as digits; of like men the lower first.
fn men_digits(like: bool, x: u8, y: u8) -> u32
    ensures { result ≡ men_digits like x y }
{
    if (y < x) & like {
        return y as u32 * 64 + x as u32;
    }
    x as u32 * 64 + y as u32
}

// The digits with file and rank exchanged as the kings ask, or where that is less.
fn chosen_digits(exchange: u8, like: bool, x: u8, y: u8) -> u32
    ensures { result ≡ chosen_digits exchange like x y }
{
    if exchange == 0 {
        return men_digits(like, x, y);
    }
    let t = men_digits(like, transposed(x), transposed(y));
    if exchange == 1 {
        return t;
    }
    let s = men_digits(like, x, y);
    if t < s {
        return t;
    }
    s
}

// The number with the men on these squares.
pub fn number_on(f: Frame, single: bool, like: bool, first: u8, second: u8) -> usize
    ensures { result ≡ number_on f single like first second }
{
    let kings = f.kings as usize;
    let flip = f.flip;
    let exchange = f.exchange;
    let x = first ^ flip;
    if single {
        return kings * 64 + (chosen_digits(exchange, like, x, 0) / 64) as usize;
    }
    kings * 4096 + chosen_digits(exchange, like, x, second ^ flip) as usize
}
