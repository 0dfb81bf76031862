// Men as words, and the position that a host gives with two of them.
ghost use Rattle.std.specs.Prelude.{◌≡◌};
ghost use Rattle.given_words.specs.Men.{man_read, position_read, short_man};

use position::Position;
use rules::Piece;

// The man of a word; none where its highest byte is 0.
pub fn man_read(word: u32) -> Option<Piece>
    ensures { result ≡ man_read word }
{
    let [kind, colour, square, present] = word.to_le_bytes();
    if present == 0 {
        return None;
    }
    Some(Piece {
        kind,
        colour,
        square,
    })
}

pub fn position_read(side: u8, white: u8, black: u8, first: u32, second: u32) -> Position
    ensures { result ≡ position_read side white black first second }
{
    Position {
        side,
        white_king: white,
        black_king: black,
        first: man_read(first),
        second: man_read(second),
    }
}

// A man in 16 bits. His kind and colour are cut to theirs, so that no other field is touched; those of every position
// that is not refused fit.
pub fn short_man(slot: Option<Piece>) -> u16
    ensures { result ≡ short_man slot }
{
    match slot {
        None => 0,
        Some(m) => u16::from_le_bytes([m.kind % 0x10 + m.colour % 2 * 0x10 + 0x20, m.square]),
    }
}
