// A number written with its check, as a clerk types it.
#![tactic(auto)]

ghost use Rattle.std.specs.Prelude.{◌≡◌};
ghost use Rattle.typed.specs.Writing.{written_as, written_of};

use check_digits::seven_bytes;
use desk_refusals::Refusal;
use index::position_of;

// A number's seven digits with its check, as bytes. Refusals 8 and 9 are numbering back's, which are the same for every man.
pub fn write_number(number: u32) -> Result<[u8; 7], Refusal>
    ensures { written_as result ≡ written_of number }
{
    position_of(0, number)?;
    Ok(seven_bytes(number))
}
