// The version of the library that is linked.
ghost use Rattle.std.specs.Prelude.{◌≡◌};
ghost use Rattle.words.specs.Version.{version_word, current};

use words::version_word;

pub fn sledgewren_version_number() -> u32
    ensures { result ≡ version_word current }
{
    version_word()
}
