// A legal move played.
ghost use Rattle.std.specs.Prelude.{◌≡◌};
ghost use Rattle.playing.specs.Playing.{play_of};
ghost use Rattle.given_words.specs.Men.{position_read};
ghost use Rattle.words.specs.Played.{played_word};

// `becomes` is what a pawn becomes, 1 + the piece's code, and 0 in every other move. Refusals 1 to 6 and 18.
#[unsafe(no_mangle)]
pub extern "C" fn sledgewren_play(
    side: u8,
    white: u8,
    black: u8,
    first: u32,
    second: u32,
    from: u8,
    to: u8,
    becomes: u8,
) -> u64
    ensures { result ≡ played_word (play_of (position_read side white black first second) from to becomes) }
{
    sledgewren::sledgewren_play(side, white, black, first, second, from, to, becomes)
}
