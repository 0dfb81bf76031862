// A number written with its check, as one word.
ghost use Rattle.std.specs.Prelude.{◌≡◌};
ghost use Rattle.typed.specs.Writing.{written_of};
ghost use Rattle.sledgewren.specs.TypedWord.{written_word};

// Refusals 8 and 9.
#[unsafe(no_mangle)]
pub extern "C" fn sledgewren_write_number(number: u32) -> u64
    ensures { result ≡ written_word (written_of number) }
{
    sledgewren::sledgewren_write_number(number)
}
