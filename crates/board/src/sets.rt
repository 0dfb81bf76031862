// A set of squares is a u64 with one bit for each square.
ghost use Rattle.std.specs.Prelude.{◌≡◌, ◌&&◌, ◌||◌, not, ℕ, eqb, length};
ghost use Rattle.board.specs.Sets.{has as holds, set_of, members, lowest_square};

// Whether the set holds the square.
pub fn has(set: u64, s: u8) -> bool
    ensures { result ≡ holds set s }
{
    if 64 <= s {
        return false;
    }
    (set >> s) % 2 == 1
}

// The set of one square; empty off the board.
pub fn one(s: u8) -> u64
    ensures { result ≡ set_of (λ (u : ℕ). eqb u s) }
{
    if 64 <= s {
        return 0;
    }
    1 << s
}

// The set with the square put in.
pub fn with(set: u64, s: u8) -> u64
    ensures { result ≡ set_of (λ (u : ℕ). holds set u || eqb u s) }
{
    set | one(s)
}

// The squares of one set that another does not hold.
pub fn minus(set: u64, other: u64) -> u64
    ensures { result ≡ set_of (λ (u : ℕ). holds set u && not (holds other u)) }
{
    set & !other
}

// The set with the square taken out.
pub fn without(set: u64, s: u8) -> u64
    ensures { result ≡ set_of (λ (u : ℕ). holds set u && not (eqb u s)) }
{
    minus(set, one(s))
}

// How many squares the set holds.
pub fn size(set: u64) -> u32
    ensures { result ≡ length (members set) }
{
    u64::count_ones(set)
}

// The lowest square of the set; 64 where it is empty.
pub fn lowest(set: u64) -> u8
    ensures { result ≡ lowest_square set }
{
    u64::trailing_zeros(set) as u8
}

// The set without its lowest square.
pub fn beyond_lowest(set: u64) -> u64
    ensures { result ≡ set_of (λ (u : ℕ). holds set u && not (eqb u (lowest_square set))) }
{
    if set == 0 {
        return 0;
    }
    set & (set - 1)
}
