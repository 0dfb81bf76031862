// The fill at once: the start, and steps until one says how it ends.
ghost use Rattle.std.specs.Prelude.{◌≡◌, T};
ghost use Rattle.table_theory.specs.Lending.{filled_until};
ghost use Rattle.rules.specs.Chess.{chess};
ghost use Rattle.numbering.specs.Material.{known};
ghost use Rattle.position.specs.Posed.{material_for};
ghost use Rattle.endings.specs.FilledTrue.{FillPromise};
ghost use Rattle.four_men.specs.Lending.{lent, borrowed};
ghost use Rattle.four_men.specs.Reading.{holds_depth};
ghost use Rattle.working_back.specs.Admitted.{over, Admitted};
ghost use Rattle.filling.specs.FillPromise.{Fills, FillPromiseWith, FillBackPromise};
ghost use Rattle.desk_refusals.specs.Numbers.{by_number};

use super::bytes::start;
use super::deepest::deepest_lent;
use super::steps::{Stepped, step_at};
use super::ways::Way;
use checking::lent_accepted;
use desk_refusals::Refusal;
use four_men::lengths_fit;
use index::{is_given, is_known, men_of};
use numbering::Material;
use position::Men;

fn fill_men(
    way: Way,
    m: Men,
    first: &[u8],
    second: &[u8],
    table: &mut [u8],
) -> Result<Option<u8>, Refusal>
    requires { Admitted m first.now second.now table.old × (way ≡ Way.Back → T (known (material_for m))) }
    ensures { Fills (filled_until chess (over m first.now second.now) (holds_depth (borrowed (material_for m) (lent first.now second.now))) table.old) (by_number result) table.new }
{
    let deepest = deepest_lent(m, first, second);
    start(m, &mut *table);
    let mut k: u8 = 0;
    let mut last: u8 = 0;
    // No range of depths: the step for the last says how it ends.
    loop {
        let step = step_at(way, m, k, last, deepest, first, second, &mut *table);
        let said = step.said;
        let progress = step.progress;
        match said {
            Stepped::Says(end) => return end,
            Stepped::Settled(_) => {
                k += 1;
                last = progress.last;
            },
        }
    }
}

// The fill by passes in the way chosen: back only for pieces.
fn fill_by(
    way: Way,
    m: Material,
    first: &[u8],
    second: &[u8],
    table: &mut [u8],
) -> Result<Option<u8>, Refusal>
    requires { way ≡ Way.Back → T (known m) }
    ensures { FillPromiseWith m (lent first.now second.now) table.old (by_number result) table.new }
{
    if !is_given(m) {
        return Err(Refusal::BadMan);
    }
    if !lengths_fit(m, &*table, first, second) {
        return Err(Refusal::TableLength);
    }
    if !lent_accepted(m, first, second) {
        return Err(Refusal::NotAccepted);
    }
    fill_men(way, men_of(m), first, second, &mut *table)
}

// Writes the true table and gives the greatest depth, or says that no position is decided. Captures are read in the lent tables, of the first man's kind
// and of the second's. Refusals 1, 7 and 17 leave the table as it was, 10 all zero.
pub fn fill_with(
    m: Material,
    first: &[u8],
    second: &[u8],
    table: &mut [u8],
) -> Result<Option<u8>, Refusal>
    ensures { FillPromiseWith m (lent first.now second.now) table.old (by_number result) table.new }
{
    fill_by(Way::Passes, m, first, second, &mut *table)
}

// The second fill, quicker: it works back from the positions just settled. Of pieces, table, greatest depth and refusals are the first fill's; king and
// pawn is refused 1.
pub fn fill_back(
    m: Material,
    first: &[u8],
    second: &[u8],
    table: &mut [u8],
) -> Result<Option<u8>, Refusal>
    ensures { FillBackPromise m (lent first.now second.now) table.old (by_number result) table.new }
{
    if !is_known(m) {
        return Err(Refusal::BadMan);
    }
    fill_by(Way::Back, m, first, second, &mut *table)
}

// For comparison: every number that holds 1 is tried at every depth, no half of the table left out.
pub fn fill_every(
    m: Material,
    first: &[u8],
    second: &[u8],
    table: &mut [u8],
) -> Result<Option<u8>, Refusal>
    ensures { FillPromiseWith m (lent first.now second.now) table.old (by_number result) table.new }
{
    fill_by(Way::Every, m, first, second, &mut *table)
}

// With one man, who borrows nothing. Refusals 1 and 7 leave the table as it was, 10 all zero.
pub fn fill(kind: u8, table: &mut [u8]) -> Result<Option<u8>, Refusal>
    ensures { FillPromise kind table.old (by_number result) table.new }
{
    let none: [u8; 0] = [];
    fill_with(Material::One(kind), &none, &none, &mut *table)
}

// The same, quicker: back from the positions just settled.
pub fn fill_one_back(kind: u8, table: &mut [u8]) -> Result<Option<u8>, Refusal>
    ensures { FillPromise kind table.old (by_number result) table.new }
{
    let none: [u8; 0] = [];
    fill_back(Material::One(kind), &none, &none, &mut *table)
}
