// The version as one word; include/sledgewren.h has the same numbers, and tests/install holds the two together.
ghost use Rattle.std.specs.Prelude.{◌≡◌};
ghost use Rattle.words.specs.Version.{version_word, current};

const MAJOR: u8 = 0;

const MINOR: u8 = 2;

const PATCH: u8 = 0;

pub fn version_word() -> u32
    ensures { result ≡ version_word current }
{
    u32::from_le_bytes([PATCH, MINOR, MAJOR, 0])
}
