// The kings of a pair.
ghost use Rattle.std.specs.Prelude.{◌≡◌};
ghost use Rattle.numbering.specs.Kings.{kings_of};
ghost use Rattle.pairs.specs.Tables.{row_of};
ghost use Rattle.pairs.specs.Packed.{black_of};

use packed_pairs::eight_blacks;

// The ten white squares, and the first pair with each.
const WHITES: [u8; 10] = [0, 1, 2, 3, 9, 10, 11, 18, 19, 27];

const FIRSTS: [u16; 10] = [0, 33, 91, 149, 207, 237, 292, 347, 377, 432];

// The place of the pair's white square: the last whose first pair is not above it.
fn row_of(pair: u16) -> usize
    ensures { result ≡ row_of pair }
{
    for i in 0..9 {
        if pair < FIRSTS[i + 1] {
            return i;
        }
    }
    9
}

// The black square of a pair, from the packed words.
fn black_of(pair: u16) -> u8
    ensures { result ≡ black_of pair }
{
    ((eight_blacks(pair / 8) >> (pair % 8 * 8)) % 256) as u8
}

// White king's square x 64 + black king's; 0 where there is no such pair.
pub fn kings_of(pair: u16) -> u16
    ensures { result ≡ kings_of pair }
{
    if 462 <= pair {
        return 0;
    }
    let row = row_of(pair);
    WHITES[row] as u16 * 64 + black_of(pair) as u16
}
