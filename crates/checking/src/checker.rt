// The checker.
ghost use Rattle.std.specs.Prelude.{◌≡◌, length};
ghost use Rattle.position.specs.Posed.{material_for};
ghost use Rattle.endings.specs.CheckedTrue.{CheckPromise};
ghost use Rattle.endings.specs.Answers.{check_of};
ghost use Rattle.four_men.specs.Lending.{lent, part_of};
ghost use Rattle.four_men.specs.Answers.{accepts, parts_accepted, lent_accepted};
ghost use Rattle.four_men.specs.CheckedTrue.{CheckPromiseWith};
ghost use Rattle.checking.specs.Right.{Ended, found};
ghost use Rattle.desk_refusals.specs.Numbers.{by_number};

use super::numbers::is_right;
use answers::Checked;
use deciding::row_at;
use desk_refusals::Refusal;
use four_men::lengths_fit;
use index::{TABLE_SIZE, is_given, men_of, place_at};
use numbering::Material;
use position::Men;

// Accepted, or the lowest wrong number.
fn lowest_wrong(m: Men, table: &[u8], first: &[u8], second: &[u8]) -> Result<Checked, Refusal>
    requires { Ended m (length table.now) }
    ensures { by_number result ≡ found (material_for m) (lent first.now second.now) table.now }
{
    let mut row = place_at(m, 0);
    for n in 0..table.len() {
        row = row_at(m, row, n as u32);
        if !is_right(m, row, n as u32, table[n], table, first, second) {
            return Ok(Checked::Wrong(n as u32));
        }
    }
    Ok(Checked::Accepted)
}

// The table of one man's ending, which borrows none: accepted, the lowest wrong number, or a refusal, 1 or 7.
pub fn check(kind: u8, table: &[u8]) -> Result<Checked, Refusal>
    ensures { CheckPromise kind table.now (by_number result) }
{
    let m = Material::One(kind);
    if !is_given(m) {
        return Err(Refusal::BadMan);
    }
    if !lengths_fit(m, table, table, table) {
        return Err(Refusal::TableLength);
    }
    lowest_wrong(men_of(m), table, table, table)
}

fn is_accepted(c: Result<Checked, Refusal>) -> bool
    ensures { result ≡ accepts (by_number c) }
{
    match c {
        Ok(Checked::Accepted) => true,
        Ok(Checked::Wrong(_)) => false,
        Err(_) => false,
    }
}

// Whether the checker accepts a kind's table among the four that a pawn's ending borrows.
fn part_accepted(kind: u8, run: &[u8]) -> bool
    ensures { result ≡ accepts (check_of kind (part_of kind run.now)) }
{
    let at = (kind as usize) * TABLE_SIZE;
    let end = at + TABLE_SIZE;
    if run.len() < end {
        return false;
    }
    is_accepted(check(kind, &run[at..end]))
}

// Whether it accepts all four.
fn parts_accepted(run: &[u8]) -> bool
    ensures { result ≡ parts_accepted run.now }
{
    (0..4).all(|kind| part_accepted(kind, run))
}

// Whether the checker accepts each lent table: the first for the first man's kind, the second for the second's;
// a pawn's four for Q, R, B, N.
pub fn lent_accepted(m: Material, first: &[u8], second: &[u8]) -> bool
    ensures { result ≡ lent_accepted m (lent first.now second.now) }
{
    match m {
        Material::One(_) => true,
        Material::Two(j, k, _) => is_accepted(check(j, first)) && is_accepted(check(k, second)),
        Material::Pawn => parts_accepted(first),
    }
}

// The table of an ending with one man or two over the lent ones: accepted, the lowest wrong number, or a refusal, 1, 7
// or 17.
pub fn check_with(
    m: Material,
    table: &[u8],
    first: &[u8],
    second: &[u8],
) -> Result<Checked, Refusal>
    ensures { CheckPromiseWith m (lent first.now second.now) table.now (by_number result) }
{
    if !is_given(m) {
        return Err(Refusal::BadMan);
    }
    if !lengths_fit(m, table, first, second) {
        return Err(Refusal::TableLength);
    }
    if !lent_accepted(m, first, second) {
        return Err(Refusal::NotAccepted);
    }
    lowest_wrong(men_of(m), table, first, second)
}
