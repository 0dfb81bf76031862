// The version of the library that is linked.
ghost use Rattle.std.specs.Prelude.{◌≡◌};
ghost use Rattle.words.specs.Version.{version_word, current};

#[unsafe(no_mangle)]
pub extern "C" fn sledgewren_version_number() -> u32
    ensures { result ≡ version_word current }
{
    sledgewren::sledgewren_version_number()
}
