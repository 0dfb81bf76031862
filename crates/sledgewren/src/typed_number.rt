// A number written with its check, as one word.
ghost use Rattle.std.specs.Prelude.{◌≡◌, ◌∷◌};
ghost use Rattle.typed.specs.Writing.{written_as, written_of};
ghost use Rattle.sledgewren.specs.TypedWord.{bytes_word, written_word};

use desk_refusals::Refusal;
use typed::write_number;

// Seven bytes behind a refusal of 0.
fn digits_word(d: [u8; 7]) -> u64
    ensures { result ≡ bytes_word (0 ∷ d) }
{
    u64::from_le_bytes([0, d[0], d[1], d[2], d[3], d[4], d[5], d[6]])
}

fn written_word(w: Result<[u8; 7], Refusal>) -> u64
    ensures { result ≡ written_word (written_as w) }
{
    match w {
        Ok(digits) => digits_word(digits),
        Err(r) => r.number() as u64,
    }
}

// Refusals 8 and 9.
pub fn sledgewren_write_number(number: u32) -> u64
    ensures { result ≡ written_word (written_of number) }
{
    written_word(write_number(number))
}
