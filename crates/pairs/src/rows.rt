// The pair of two kings by rows of bits, one for each of the ten squares of the white king: no list is read.
ghost use Rattle.std.specs.Prelude.{◌≡◌, ◌%◌, ◌≤◌, ◌<◌};
ghost use Rattle.std.specs.Int.Count.{ones};
ghost use Rattle.board.specs.SetLaws.{bit};
ghost use Rattle.numbering.specs.Kings.{pair_of};
ghost use Rattle.pairs.specs.Rows.{partners_of, first_of};

// The black king's squares that form a pair with the white king's.
// A `match`, as `first_of` below: an array is built anew at each read.
pub fn partners_of(white: u8) -> u64
    ensures { result ≡ partners_of white }
{
    match white {
        0 => 0x80c0_e0f0_f8fc_fcfc,
        1 => 0xffff_ffff_ffff_f8f8,
        2 => 0xffff_ffff_ffff_f1f1,
        3 => 0xffff_ffff_ffff_e3e3,
        9 => 0x80c0_e0f0_f8f8_f8f8,
        10 => 0xffff_ffff_fff1_f1f1,
        11 => 0xffff_ffff_ffe3_e3e3,
        18 => 0x80c0_e0f0_f0f0_f0ff,
        19 => 0xffff_ffff_e3e3_e3ff,
        27 => 0x80c0_e0e0_e0e0_feff,
        _ => 0,
    }
}

// The first of these pairs.
pub fn first_of(white: u8) -> u32
    ensures { (result ≡ first_of white) × (result ≤ 432) }
{
    match white {
        0 => 0,
        1 => 33,
        2 => 91,
        3 => 149,
        9 => 207,
        10 => 237,
        11 => 292,
        18 => 347,
        19 => 377,
        27 => 432,
        _ => 0,
    }
}

// How many squares of a row come before this one.
pub fn count_before(row: u64, black: u8) -> u32
    requires { black < 64 }
    ensures { (result ≡ ones (row % bit black)) × (result ≤ 64) }
{
    u64::count_ones(row % (1 << black))
}

// The pair of any two bytes, counted from the first one of its row; 65535 where they form none.
pub fn pair_by_row(white: u8, black: u8) -> u16
    ensures { result ≡ pair_of white black }
{
    if 64 <= black {
        return 65535;
    }
    let row = partners_of(white);
    if (row >> black) % 2 == 0 {
        return 65535;
    }
    (first_of(white) + count_before(row, black)) as u16
}
