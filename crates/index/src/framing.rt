// Whether the kings of a board, once reversed, have file and rank exchanged.
ghost use Rattle.std.specs.Prelude.{◌≡◌};
ghost use Rattle.index.specs.Least.{exchange_of};

// 0 no, 1 yes, 2 where that makes the men's digits less. A number, with which the clauses of successors compute.
pub fn exchange_of(white: u8, black: u8) -> u8
    ensures { result ≡ exchange_of white black }
{
    if white % 8 < white / 8 {
        return 1;
    }
    if white % 8 != white / 8 {
        return 0;
    }
    if black % 8 < black / 8 {
        return 1;
    }
    if black % 8 != black / 8 {
        return 0;
    }
    2
}
