// The table's rule, a byte at a time. A byte: 0 and 1 a draw, 2 + n depth n, n odd a win and n even a loss for the side to move.
#![tactic(auto)]

ghost use Rattle.std.specs.Prelude.{◌≡◌};
ghost use Rattle.theory.specs.Required.{winning};
ghost use Rattle.theory.specs.Verdict.{spoils as spoils_of};
ghost use Rattle.theory.specs.Judge.{refutes as refutes_of};
ghost use Rattle.theory.specs.Play.{suits as suits_of};

// Whether the byte is a win for the side to move.
fn is_win(byte: u8) -> bool
    ensures { result ≡ winning byte }
{
    (3 <= byte) & (byte % 2 == 1)
}

// Whether a successor's byte c shows that depth k is not required.
fn spoils(k: u16, c: u8) -> bool
    ensures { result ≡ spoils_of k c }
{
    let next = 1 + k as u32;
    if k % 2 == 0 {
        return !(is_win(c) & (c as u32 <= next));
    }
    (c % 2 == 0) & ((2 <= c) & ((c as u32) < next))
}

// Whether a successor's byte c shows that byte b is not required: a move to a loss makes no draw, and a depth may be spoilt.
pub fn refutes(b: u16, c: u8) -> bool
    ensures { result ≡ refutes_of b c }
{
    if b <= 1 {
        return (c % 2 == 0) & (2 <= c);
    }
    spoils(b - 2, c)
}

// Whether a move to byte c is the kind sought from byte b: from a draw to a draw, from depth n to depth n - 1.
pub fn suits(b: u16, c: u8) -> bool
    ensures { result ≡ suits_of b c }
{
    if b <= 1 {
        return c <= 1;
    }
    1 + c as u16 == b
}
