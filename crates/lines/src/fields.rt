// The parts of a line: what a letter or a digit stands for, with a value out of range for a wrong byte.
ghost use Rattle.std.specs.Prelude.{◌≡◌, ◌^◌, ◌≤◌, ◌<◌, length, map};
ghost use Rattle.check_digits.specs.Check.{reading};
ghost use Rattle.lines.specs.Grammar.{kind_named, as_white, colour_of, side_of, square_named, digit_of};

// The material code of a man's letter; 4 for any other byte.
#[tactic(auto, unfolding(crate::specs::Grammar::kind_named))]
pub fn man_code(letter: u8) -> u8
    ensures { result ≡ kind_named letter }
{
    match letter {
        b'Q' => 0,
        b'R' => 1,
        b'B' => 2,
        b'N' => 3,
        _ => 4,
    }
}

// The letter of Black's man as White's; any other byte as it is.
#[tactic(auto, unfolding(crate::specs::Grammar::as_white))]
pub fn as_white(letter: u8) -> u8
    ensures { result ≡ as_white letter }
{
    match letter {
        b'q' | b'r' | b'b' | b'n' => letter.to_ascii_uppercase(),
        _ => letter,
    }
}

// The man's colour on a position line.
#[tactic(auto, unfolding(crate::specs::Grammar::colour_of))]
pub fn colour_code(letter: u8) -> u8
    ensures { result ≡ colour_of letter }
{
    u8::from(matches!(letter, b'q' | b'r' | b'b' | b'n'))
}

// The side to move; 2 for any other byte.
#[tactic(auto, unfolding(crate::specs::Grammar::side_of))]
pub fn side_code(letter: u8) -> u8
    ensures { result ≡ side_of letter }
{
    match letter {
        b'w' => 0,
        b'b' => 1,
        _ => 2,
    }
}

// The square of a file's letter and a rank's digit; 64 where either is another byte.
#[tactic(auto, unfolding(crate::specs::Grammar::square_named))]
pub fn square_named(file: u8, rank: u8) -> u8
    ensures { result ≡ square_named file rank }
{
    match (file, rank) {
        (b'a'..=b'h', b'1'..=b'8') => 8 * (rank - b'1') + (file - b'a'),
        _ => 64,
    }
}

// The value of a digit; 0 for any other byte.
#[tactic(auto, unfolding(crate::specs::Grammar::digit_of))]
fn digit_value(byte: u8) -> u32
    ensures { (result ≡ digit_of byte) × (result ≤ 9) }
{
    match byte {
        b'0'..=b'9' => u32::from(byte - b'0'),
        _ => 0,
    }
}

// The number that at most nine bytes name, each as a digit.
pub fn number_in(bytes: &[u8]) -> u32
    requires { length bytes.now ≤ 9 }
    ensures { (result ≡ reading 0 (map digit_of bytes.now)) × (result < 10 ^ length bytes.now) }
{
    let mut number = 0;
    for byte in bytes {
        number = number * 10 + digit_value(*byte);
    }
    number
}
