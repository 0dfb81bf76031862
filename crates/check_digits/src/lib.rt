// Two check digits after a number's five (ISO 7064 MOD 97-10): the test, the check of a number, and a number's digits with its check.
#![tactic(auto)]

ghost use Rattle.std.specs.Prelude.{◌≡◌, ◌+◌, ◌%◌};
ghost use Rattle.check_digits.specs.Check.{right_number, check_after, with_check, digit_bytes};

// Whether seven digits, as one number, end in their right check.
pub fn is_right(seven: u32) -> bool
    ensures { result ≡ right_number seven }
{
    (seven % 97 == 1) & ((2 <= seven % 100) & (seven % 100 <= 98))
}

// The check of a number, from 2 to 98.
pub fn check_after(number: u32) -> u8
    ensures { result ≡ check_after number }
{
    (98 - 100 * (number as u64) % 97) as u8
}

// The last digit's byte.
fn digit(n: u64) -> u8
    ensures { result ≡ 48 + n % 10 }
{
    b'0' + (n % 10) as u8
}

// The last five digits of a number, and its check.
pub fn seven_bytes(number: u32) -> [u8; 7]
    ensures { result ≡ digit_bytes 7 (with_check number) }
{
    let m = 100 * (number as u64) + check_after(number) as u64;
    let a = m / 10;
    let b = a / 10;
    let c = b / 10;
    let d = c / 10;
    let e = d / 10;
    let f = e / 10;
    [
        digit(f),
        digit(e),
        digit(d),
        digit(c),
        digit(b),
        digit(a),
        digit(m),
    ]
}
