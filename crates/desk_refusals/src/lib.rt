// Why the desk gives no answer: its refusals, by name and by the number that slips and words show.
#![tactic(auto)]

ghost use Rattle.std.specs.Prelude.{◌≡◌, ℕ, Some, decimal};
ghost use Rattle.desk_refusals.specs.Numbers.{number_of};

use std::fmt;

#[derive(Clone, Copy, PartialEq, Eq)]
pub enum Refusal {
    BadMan = 1,
    BadSide = 2,
    BadSquare = 3,
    SharedSquare = 4,
    KingsTouch = 5,
    OtherInCheck = 6,
    TableLength = 7,
    NumberTooHigh = 8,
    NumberUnused = 9,
    TooDeep = 10,
    Inconsistent = 11,
    BadLine = 12,
    BadCheck = 13,
    WrongSet = 14,
    NotInSet = 15,
    TooManyPlies = 16,
    NotAccepted = 17,
    BadPawn = 18,
    TooManyQuiet = 19,
}

// As slips show it: by its number.
impl fmt::Display for Refusal {
    ghost output = { λ r. Some (decimal (number_of r)) };

    fn fmt<W: fmt::Write>(&self, f: &mut fmt::Formatter<W>) -> fmt::Result {
        write!(f, "{}", self.number())
    }
}

impl Refusal {
    // Its number.
    pub fn number(self) -> u8
        ensures { result ≡ number_of self }
    {
        self as u8
    }
}

// What an answer has for its refusal: the refusal, or a number of any size that a byte holds.
pub trait Numbered: Copy {
    ghost shown_number: { Self → ℕ };

    // The number that slips and words show.
    fn shown(self) -> u8
        ensures { result ≡ shown_number self };
}

impl Numbered for Refusal {
    ghost shown_number = { number_of };

    fn shown(self) -> u8 {
        Refusal::number(self)
    }
}

impl Numbered for u8 {
    ghost shown_number = { λ n. n };

    fn shown(self) -> u8 {
        self
    }
}
