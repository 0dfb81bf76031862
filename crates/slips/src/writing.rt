// Bytes written at the end of a slip. A full slip stays as it is.
ghost use Rattle.std.specs.Prelude.{◌≡◌, []};
ghost use Rattle.slips.specs.Slip.{digit_byte, decimal, square_name, padded};
ghost use Rattle.slips.specs.Appending.{pushed, appended};

use crate::Slip;

#[tactic(auto, unfolding(crate::specs::Slip::padded))]
pub fn blank() -> Slip
    ensures { result ≡ padded [] }
{
    Slip {
        bytes: [0u8; 16],
        len: 0,
    }
}

// By index: what a slice ends as behind `get_mut` is not known.
#[tactic(auto, unfolding(crate::specs::Appending::pushed))]
pub fn with_byte(s: Slip, byte: u8) -> Slip
    ensures { result ≡ pushed s byte }
{
    let mut next = s;
    if s.len < 16 {
        next.bytes[usize::from(s.len)] = byte;
        next.len += 1;
    }
    next
}

pub fn with_text(s: Slip, text: &[u8]) -> Slip
    ensures { result ≡ appended s text.now }
{
    let mut out = s;
    for byte in text {
        out = with_byte(out, *byte);
    }
    out
}

// The last digit of a number.
fn digit(n: u8) -> u8
    ensures { result ≡ digit_byte n }
{
    b'0' + n % 10
}

// A number in decimal.
#[tactic(auto, unfolding(crate::specs::Slip::decimal, crate::specs::Appending::appended))]
pub fn with_number(s: Slip, n: u8) -> Slip
    ensures { result ≡ appended s (decimal n) }
{
    if n < 10 {
        return with_byte(s, digit(n));
    }
    if n < 100 {
        return with_byte(with_byte(s, digit(n / 10)), digit(n));
    }
    with_byte(
        with_byte(with_byte(s, digit(n / 100)), digit(n / 10)),
        digit(n),
    )
}

// A square's file and rank.
#[tactic(auto, unfolding(crate::specs::Slip::square_name, crate::specs::Appending::appended))]
pub fn with_square(s: Slip, square: u8) -> Slip
    ensures { result ≡ appended s (square_name square) }
{
    with_byte(with_byte(s, b'a' + square % 8), b'1' + square / 8 % 8)
}
